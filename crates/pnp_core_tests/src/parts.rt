// Values from outside, and that calls succeed.
use crate::rows::{Told, rows_come};
use pnp_core::{Error, normalize_path, parse_bare_identifier, payload_of};
use std::alloc::Global;
use std::test::Fail;
use sugar_path::Text;

fn normal_forms() -> &'static str {
    r"foo/../../bar = ../bar
/../foo/bar// = /foo/bar/
a/../ = .
 = .
/ = /
foo/.//bar/.. = foo
../foo/../../bar = ../../bar
../D:/foo = ../D:/foo
/a\b/..\c = /a/c
a/b\ = a/b"
}

pub(crate) fn normal_form(alloc: Global, path: &str) -> Result<Text, Fail> {
    Ok(normalize_path(alloc, path)?)
}

#[test]
fn paths_have_a_normal_form(rt: HostRuntime) -> Result<(), Fail> {
    rows_come(&rt, rt.alloc(), Told::NormalForm, normal_forms())
}

// A specifier, its package's name and its subpath, if there is one.
fn identifiers() -> &'static str {
    "@s/n/x/y = <@s/n> <x/y>
@s/n = <@s/n>
foo/ = <foo> <>
foo = <foo>
foo//x = <foo> </x>
 = <>
# a scope alone is refused
@s = Invalid specifier: @s"
}

pub(crate) fn identifier_told(alloc: Global, specifier: &str) -> Result<Text, Fail> {
    let split = parse_bare_identifier(alloc, specifier);
    let told = match &split {
        Ok((name, None)) => format!(in alloc; "<{name}>")?,
        Ok((name, Some(subpath))) => format!(in alloc; "<{name}> <{subpath}>")?,
        Err(Error::BadSpecifier(refused)) => {
            format!(in alloc; "{}: {}", refused.message, refused.specifier)?
        }
        Err(_) => String::from_str(alloc, "another error")?,
    };
    Ok(Text::from(told))
}

#[test]
fn bare_identifiers_are_split(rt: HostRuntime) -> Result<(), Fail> {
    rows_come(&rt, rt.alloc(), Told::Identifier, identifiers())
}

// A manifest's text and its payload.
fn payloads() -> &'static str {
    r"x = no payload
constRAW_RUNTIME_STATE='a' = no payload
constant; const RAW_RUNTIME_STATE = 'b' = b
hydrateRuntimeState(JSON.parse('c'), {}) = c
# the leftmost opening counts
hydrateRuntimeState(JSON.parse('d'); const RAW_RUNTIME_STATE = 'e' = d
# a payload that is cut off
const RAW_RUNTIME_STATE = 'f\ = f"
}

pub(crate) fn payload_told(alloc: Global, text: &str) -> Result<Text, Fail> {
    match payload_of(alloc, text)? {
        Some(payload) => Ok(payload),
        None => Ok(Text::of(alloc, "no payload")?),
    }
}

// Texts of several lines stand in no table.
fn payload_is(alloc: Global, text: &str, payload: &str) -> Result<bool, Fail> {
    Ok(payload_told(alloc, text)?.as_str() == payload)
}

#[test]
fn payloads_stand_between_quotes(rt: HostRuntime) -> Result<(), Fail> {
    let behind_line = "const RAW_RUNTIME_STATE =\n'{}';\n";
    assert!(rt; payload_is(rt.alloc(), behind_line, "{}")?);
    let two_blanks = "const \r\nRAW_RUNTIME_STATE='a";
    assert!(rt; payload_is(rt.alloc(), two_blanks, "a")?);
    let escapes = "ü const RAW_RUNTIME_STATE = 'it\\'s \\\\ \\ü\\\n'";
    assert!(rt; payload_is(rt.alloc(), escapes, "it's \\ ü\n")?);
    rows_come(&rt, rt.alloc(), Told::Payload, payloads())
}
