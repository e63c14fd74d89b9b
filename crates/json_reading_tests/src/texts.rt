// Texts read as values that borrow or own their texts.
use json::Scratch;
use json_reading::{
    FromJson, FromJsonError, Object, ReadJson, into_items, into_member, read_bytes, read_text,
};
use std::test::Fail;
use sugar_path::Text;

// Whether the value of a text borrows its texts.
#[test]
fn a_number_makes_a_value_own_its_texts(rt: HostRuntime) -> Result<(), Fail> {
    for (text, borrows) in [
        ("{}", Ok(true)),
        (r#"{"a": [null, "1", true]}"#, Ok(true)),
        (r#"{"a": [null, 1, true]}"#, Ok(false)),
        ("1e400", Err(FromJsonError::OtherKind)),
        ("[] []", Err(FromJsonError::OtherKind)),
        ("[", Err(FromJsonError::OtherKind)),
    ] {
        let mut scratch = Scratch::new(rt.alloc());
        let read = match read_text(rt.alloc(), text, &mut scratch) {
            Ok(value) => Ok(matches!(&value, ReadJson::Borrowed(_))),
            Err(e) => Err(e),
        };
        assert_eq!(rt; read, borrows, "{text}");
    }
    Ok(())
}

// How deep arrays may nest in a value that borrows.
#[test]
fn a_borrowed_value_nests_127_deep(rt: HostRuntime) -> Result<(), Fail> {
    for (depth, read) in [(127, true), (128, false)] {
        let mut text = "[".repeat(rt.alloc(), depth)?;
        text.push_str("]".repeat(rt.alloc(), depth)?.as_str())?;
        let mut scratch = Scratch::new(rt.alloc());
        let value = read_text(rt.alloc(), text.as_str(), &mut scratch);
        assert_eq!(rt; value.is_ok(), read, "{depth}");
    }
    Ok(())
}

// A repeated member has its last value, members stand in the byte order of their names, and escapes are read.
#[test]
fn borrowed_members_stand_by_name(rt: HostRuntime) -> Result<(), Fail> {
    let mut scratch = Scratch::new(rt.alloc());
    let bytes = br#"{"b": "1", "\u0061": "\n", "b": "3"}"#;
    let ReadJson::Borrowed(value) = read_bytes(rt.alloc(), bytes, &mut scratch)? else {
        return Err(Fail::from("a value that owns its texts"));
    };
    let texts = Object::<Text>::from_json(rt.alloc(), &value)?;
    assert_eq!(rt; texts.map.len(), 2);
    let (name, text) = texts.map.get_index(0).ok_or("a member")?;
    assert_eq!(rt; (name.as_str(), text.as_str()), ("a", "\n"));
    let (name, text) = texts.map.get_index(1).ok_or("a second member")?;
    assert_eq!(rt; (name.as_str(), text.as_str()), ("b", "3"));
    Ok(())
}

// A value gives up its last member of a name, and that its items.
#[test]
fn a_borrowed_value_gives_up_its_parts(rt: HostRuntime) -> Result<(), Fail> {
    let mut scratch = Scratch::new(rt.alloc());
    let text = r#"{"rows": [], "rows": ["a", null], "other": "b"}"#;
    let ReadJson::Borrowed(value) = read_text(rt.alloc(), text, &mut scratch)? else {
        return Err(Fail::from("a value that owns its texts"));
    };
    let rows = into_member(value, "rows").ok_or("a member")?;
    let items = into_items(rows).ok_or("items")?;
    assert_eq!(rt; items.len(), 2);
    assert!(rt; items[1].is_null());
    Ok(())
}
