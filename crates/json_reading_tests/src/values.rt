// Values of each kind, read.
use json_reading::{FromJson, FromJsonError, Object, field_or, holds_float};
use serde_json::Value;
use std::test::Fail;
use sugar_path::{List, Text};

#[test]
fn floats_are_told(rt: HostRuntime) -> Result<(), Fail> {
    for (text, told) in [
        ("1", false),
        ("-9223372036854775808", false),
        ("18446744073709551615", false),
        ("18446744073709551616", true),
        ("1.0", true),
        ("1e2", true),
        (r#"[{"a": [1.5]}]"#, true),
        (r#"{"a": {"b": "1.5"}}"#, false),
    ] {
        let value = Value::from_str(rt.alloc(), text)?;
        assert_eq!(rt; holds_float(&value), told, "in {text}");
    }
    Ok(())
}

// Whether a value is read as pairs of a name and a flag that may be null.
#[test]
fn each_kind_is_read_or_refused(rt: HostRuntime) -> Result<(), Fail> {
    for (text, read) in [
        ("[]", true),
        (r#"[["a", true], ["b", null]]"#, true),
        (r#"[["a", 1]]"#, false),
        (r#"[["a"]]"#, false),
        (r#"[["a", true, true]]"#, false),
        (r#"{"a": true}"#, false),
    ] {
        let value = Value::from_str(rt.alloc(), text)?;
        match List::<(Text, Option<bool>)>::from_json(rt.alloc(), &value) {
            Ok(_) => assert!(rt; read, "{text} is read"),
            Err(e) => assert_eq!(rt; (e, read), (FromJsonError::OtherKind, false), "{text}"),
        }
    }
    Ok(())
}

// A member that is absent has what stands for it, and one that is null is of another kind.
#[test]
fn only_an_absent_field_has_a_default(rt: HostRuntime) -> Result<(), Fail> {
    for (text, told) in [
        (r#"{"a": false}"#, Ok(false)),
        ("{}", Ok(true)),
        (r#"{"a": null}"#, Err(FromJsonError::OtherKind)),
    ] {
        let value = Value::from_str(rt.alloc(), text)?;
        assert_eq!(rt; field_or(rt.alloc(), &value, "a", true), told, "in {text}");
    }
    Ok(())
}

// How many flags by name a value is read as.
#[test]
fn an_object_is_read_or_refused(rt: HostRuntime) -> Result<(), Fail> {
    for (text, read) in [
        ("{}", Ok(0)),
        (r#"{"b": true, "a": false, "b": false}"#, Ok(2)),
        (r#"{"a": true, "b": 1}"#, Err(FromJsonError::OtherKind)),
        ("[]", Err(FromJsonError::OtherKind)),
        ("null", Err(FromJsonError::OtherKind)),
    ] {
        let value = Value::from_str(rt.alloc(), text)?;
        let flags = Object::<bool>::from_json(rt.alloc(), &value);
        assert_eq!(rt; flags.map(|flags| flags.map.len()), read, "{text}");
    }
    Ok(())
}

// The members stand in the byte order of their names.
#[test]
fn members_stand_by_name(rt: HostRuntime) -> Result<(), Fail> {
    let value = Value::from_str(rt.alloc(), r#"{"b": true, "a": false}"#)?;
    let flags = Object::<bool>::from_json(rt.alloc(), &value)?;
    let (name, flag) = flags.map.get_index(0).ok_or("a member")?;
    assert_eq!(rt; (name.as_str(), *flag), ("a", false));
    Ok(())
}
