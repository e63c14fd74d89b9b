// A list of names, read from an object.
use json_reading::{FromJsonError, field};
use serde_json::Value;
use std::test::Fail;
use sugar_path::{List, Text};

#[test]
fn names_are_read(rt: HostRuntime) -> Result<(), Fail> {
    let value = Value::from_str(rt.alloc(), r#"{"names": ["lodash", "react"], "size": 2}"#)?;
    let names: List<Text> = field(rt.alloc(), &value, "names")?;
    assert_eq!(rt; names.as_slice().len(), 2);
    let size: Result<Text, FromJsonError> = field(rt.alloc(), &value, "size");
    assert!(rt; matches!(&size, Err(FromJsonError::OtherKind)));
    Ok(())
}
