// Packages, borrowed by what tells of them. One function owns a package, since each exit of a function is proved with
// all that it drops there, and a package holds much.
use crate::exports::exported_in;
use crate::fields::{field_in, mains_in, value_in};
use crate::loads::required_in;
use deno_package_json::PackageJson;
use serde_json::Value;
use std::alloc::Global;
use std::test::Fail;
use sugar_path::Text;

/// What is told of a package.
#[derive(Clone, Copy)]
pub(crate) enum Asked<'a> {
    /// The compact JSON of one field.
    Field(&'a str),
    /// The file that a subpath means under conditions, which have commas between them.
    Exported {
        subpath: &'a str,
        conditions: &'a str,
    },
    /// The main modules for an ES module that asks, and for another.
    Mains,
    /// Its requirements in their order.
    Requirements,
}

/// What is told of the package that a text is, whose file lies in `/p`.
pub(crate) fn told_of(alloc: Global, source: &str, asked: Asked<'_>) -> Result<String, Fail> {
    let path = Text::of(alloc, "/p/package.json")?;
    let package = PackageJson::load_from_string(alloc, path, source)?;
    told_in(alloc, &package, asked)
}

fn told_in(alloc: Global, package: &PackageJson, asked: Asked<'_>) -> Result<String, Fail> {
    match asked {
        Asked::Field(name) => field_in(alloc, package, name),
        Asked::Exported {
            subpath,
            conditions,
        } => exported_in(alloc, package, subpath, conditions),
        Asked::Mains => mains_in(alloc, package),
        Asked::Requirements => required_in(alloc, package),
    }
}

/// The JSON of the package that a value is.
pub(crate) fn told_of_value(alloc: Global, value: &Value) -> Result<String, Fail> {
    let path = Text::of(alloc, "/p/package.json")?;
    let package = PackageJson::load_from_value(alloc, path, value)?;
    value_in(alloc, &package)
}
