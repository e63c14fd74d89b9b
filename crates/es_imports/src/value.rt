// The value of a string or a template.
ghost use Rattle.std.specs.Prelude.{◌≡◌, ◌++◌, ◌<◌, IfOk, IfSome, OnOk};
ghost use Rattle.std.specs.Char.Escape.{encode_utf16};
ghost use Rattle.es_imports.specs.Escapes.{units_at, units_of};
ghost use Rattle.es_imports.specs.Values.{value_of};

use crate::escape::part_at;
use std::alloc::{AllocError, Global};
use sugar_path::Text;

// The value of what stands between quotes or backquotes.
pub(crate) fn value_of(alloc: Global, text: &str) -> Result<Text, AllocError>
    ensures { IfOk result (λ value. value ≡ value_of text.now) }
{
    let characters: Vec<char> = text.chars().collect(alloc)?;
    let units = units_of(alloc, &characters)?;
    let value = String::from_utf16_lossy(alloc, &units)?;
    Ok(Text::from(value))
}

// The units of UTF-16 that the characters stand for.
fn units_of(alloc: Global, text: &[char]) -> Result<Vec<u16>, AllocError>
    ensures { IfOk result (λ units. units.items ≡ units_of text.now) }
{
    let mut units = Vec::new(alloc);
    let mut at = 0;
    while at < text.len() {
        let part = part_at(&text[at..]);
        push_part(&mut units, part.code)?;
        at += part.len;
    }
    Ok(units)
}

fn push_part(units: &mut Vec<u16>, code: Option<u32>) -> Result<(), AllocError>
    requires { IfSome code (λ c. c < 0x110000) }
    ensures { OnOk result (units.new.items ≡ units.old.items ++ units_at code) }
{
    match code {
        Some(code) => push_units(units, code),
        None => Ok(()),
    }
}

fn push_units(units: &mut Vec<u16>, code: u32) -> Result<(), AllocError>
    requires { code < 0x110000 }
    ensures { OnOk result (units.new.items ≡ units.old.items ++ encode_utf16 code) }
{
    if code < 0x10000 {
        units.push(code as u16)?;
    } else {
        let beyond = code - 0x10000;
        units.push((0xD800 + beyond / 0x400) as u16)?;
        units.push((0xDC00 + beyond % 0x400) as u16)?;
    }
    Ok(())
}
