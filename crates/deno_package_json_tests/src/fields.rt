// Values from outside, and that calls succeed: the fields, their JSON and the paths.
ghost use Rattle.std.specs.Prelude.{◌≡◌, IfOk, IsTrue, codes};
ghost use Rattle.sugar_path.specs.Path.{is_absolute};

use crate::fixtures::{faults, fields, mains, urls, values};
use crate::packages::{Asked, told_of, told_of_value};
use crate::rows::{Told, rows_come};
use deno_package_json::{NodeModuleKind, PackageJson, PackageJsonLoadError, new_rc};
use serde_json::Value;
use std::alloc::{AllocError, Global};
use std::test::Fail;
use sugar_path::Text;

// A package whose file lies in `/p`.
fn loaded(alloc: Global, source: &str) -> Result<PackageJson, PackageJsonLoadError>
    ensures { IfOk result (λ p. p.path ≡ codes "/p/package.json") }
{
    PackageJson::load_from_string(alloc, Text::of(alloc, "/p/package.json")?, source)
}

// The compact JSON of one field.
pub(crate) fn field_told(alloc: Global, given: &str) -> Result<String, Fail> {
    let (source, name) = given.split_once(" | ").ok_or("no field")?;
    told_of(alloc, source, Asked::Field(name))
}

pub(crate) fn field_in(alloc: Global, package: &PackageJson, name: &str) -> Result<String, Fail> {
    let value = package.to_value(alloc)?;
    match value.get(name) {
        Some(field) => Ok(field.to_string(alloc)?),
        None => Err(Fail::from("absent")),
    }
}

#[test]
fn fields_are_read_by_their_kinds(rt: HostRuntime) -> Result<(), Fail> {
    rows_come(&rt, rt.alloc(), Told::Field, fields())
}

// Which fault is told of a text, or that there is none.
fn fault_in(alloc: Global, source: &str) -> &'static str {
    match loaded(alloc, source) {
        Ok(_) => "none",
        Err(PackageJsonLoadError::Io { .. }) => "Io",
        Err(PackageJsonLoadError::Deserialize { .. }) => "Deserialize",
        Err(PackageJsonLoadError::HoldsFloat { .. }) => "HoldsFloat",
        Err(PackageJsonLoadError::MixedExports { .. }) => "MixedExports",
        Err(PackageJsonLoadError::NoMemory) => "NoMemory",
    }
}

pub(crate) fn fault_told(alloc: Global, source: &str) -> Result<String, Fail> {
    Ok(String::from_str(alloc, fault_in(alloc, source))?)
}

// White space of any kind is an empty package too, and a mark of the order of bytes is no white space.
#[test]
fn the_first_fault_is_told(rt: HostRuntime) -> Result<(), Fail> {
    let blank = " \t\r\n\u{a0}\u{2003}\u{3000}";
    assert_eq!(rt; fault_in(rt.alloc(), blank), "none");
    assert_eq!(rt; fault_in(rt.alloc(), "\u{feff}{}"), "Deserialize");
    rows_come(&rt, rt.alloc(), Told::Fault, faults())
}

// So many times a text.
fn repeated(alloc: Global, text: &str, times: usize) -> Result<String, AllocError> {
    let mut whole = String::new(alloc);
    for _ in 0..times {
        whole.push_str(text)?;
    }
    Ok(whole)
}

// The fault of a text that stands behind a megabyte of blanks.
fn fault_behind_blanks(alloc: Global, text: &str) -> Result<&'static str, AllocError> {
    let mut whole = repeated(alloc, "        ", 131072)?;
    whole.push_str(text)?;
    Ok(fault_in(alloc, whole.as_str()))
}

// The fault of so many lists, each in the one before it.
fn fault_of_lists(alloc: Global, levels: usize) -> Result<&'static str, AllocError> {
    let mut whole = repeated(alloc, "[", levels)?;
    whole.push_str(repeated(alloc, "]", levels)?.as_str())?;
    Ok(fault_in(alloc, whole.as_str()))
}

// Texts behind a megabyte of blanks, and lists within lists, so many levels deep.
fn long_and_deep() -> &'static str {
    r#"blanks  = none
blanks {"name":"n"} = none
blanks {"name":"n"}x = Deserialize
lists 127 = none
lists 128 = Deserialize
lists 100000 = Deserialize"#
}

pub(crate) fn long_or_deep_told(alloc: Global, given: &str) -> Result<String, Fail> {
    let (kind, text) = given.split_once(' ').ok_or("no text")?;
    let fault = if kind == "blanks" {
        fault_behind_blanks(alloc, text)?
    } else {
        fault_of_lists(alloc, text.parse()?)?
    };
    Ok(String::from_str(alloc, fault)?)
}

#[test]
fn long_and_deep_texts_are_read_or_refused(rt: HostRuntime) -> Result<(), Fail> {
    rows_come(&rt, rt.alloc(), Told::LongOrDeep, long_and_deep())
}

// The JSON of the package that a value is.
pub(crate) fn value_told(alloc: Global, source: &str) -> Result<String, Fail> {
    let given = Value::from_str(alloc, source)?;
    told_of_value(alloc, &given)
}

pub(crate) fn value_in(alloc: Global, package: &PackageJson) -> Result<String, Fail> {
    let value = package.to_value(alloc)?;
    Ok(value.to_string(alloc)?)
}

#[test]
fn values_are_loaded_and_written(rt: HostRuntime) -> Result<(), Fail> {
    rows_come(&rt, rt.alloc(), Told::Value, values())
}

// The main modules for an ES module that asks, and for another.
pub(crate) fn mains_told(alloc: Global, source: &str) -> Result<String, Fail> {
    told_of(alloc, source, Asked::Mains)
}

pub(crate) fn mains_in(alloc: Global, package: &PackageJson) -> Result<String, Fail> {
    let esm = package.main(NodeModuleKind::Esm).unwrap_or("none");
    let cjs = package.main(NodeModuleKind::Cjs).unwrap_or("none");
    Ok(format!(in alloc; "{esm}, {cjs}")?)
}

#[test]
fn the_main_module_depends_on_who_asks(rt: HostRuntime) -> Result<(), Fail> {
    rows_come(&rt, rt.alloc(), Told::Mains, mains())
}

#[test]
#[tactic(auto, unfolding(sugar_path::specs::Parent::parent_of))]
fn a_package_knows_its_folder(rt: HostRuntime) -> Result<(), Fail> {
    let package = loaded(rt.alloc(), "")?;
    assert_eq!(rt; package.dir_path(), "/p");
    assert!(rt; package.bin.is_none());
    let shared = new_rc(rt.alloc(), package)?;
    assert_eq!(rt; shared.path.as_str(), "/p/package.json");
    Ok(())
}

fn is_absolute(path: &str) -> bool
    ensures { result ≡ is_absolute path.now }
{
    path.starts_with('/')
}

// The file URL of a path.
pub(crate) fn url_told(alloc: Global, path: &str) -> Result<String, Fail> {
    if !is_absolute(path) {
        return Err(Fail::from("a relative path"));
    }
    let url = url_of(alloc, path)?;
    Ok(String::from_str(alloc, url.as_str())?)
}

fn url_of(alloc: Global, path: &str) -> Result<Text, PackageJsonLoadError>
    requires { IsTrue (is_absolute path.now) }
{
    let package = PackageJson::load_from_string(alloc, Text::of(alloc, path)?, "")?;
    Ok(package.specifier(alloc)?)
}

// The bytes 192, 193 and above 244 are in no character's UTF-8. A line feed can stand in no row, so it is held apart.
#[test]
fn bytes_of_a_path_are_escaped(rt: HostRuntime) -> Result<(), Fail> {
    assert_eq!(rt; url_told(rt.alloc(), "/\n")?.as_str(), "file:///%0A");
    rows_come(&rt, rt.alloc(), Told::Url, urls())
}
