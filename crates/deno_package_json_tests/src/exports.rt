// Which file of a package a subpath means: a table from Node, and one of what differs from it.
use crate::export_fixtures::{exports_as_node, exports_of_our_own};
use crate::packages::{Asked, told_of};
use crate::rows::{Told, rows_come};
use deno_package_json::PackageJson;
use std::alloc::Global;
use std::test::Fail;
use sugar_path::{List, Text};

/// The file that a subpath means under conditions, of a package that exports something: `none` where it means none.
pub(crate) fn exported_told(alloc: Global, given: &str) -> Result<String, Fail> {
    let (source, asked) = given.split_once(" | ").ok_or("no subpath")?;
    let (subpath, conditions) = asked.split_once(" | ").ok_or("no conditions")?;
    let asked = Asked::Exported {
        subpath,
        conditions,
    };
    told_of(alloc, source, asked)
}

pub(crate) fn exported_in(
    alloc: Global,
    package: &PackageJson,
    subpath: &str,
    conditions: &str,
) -> Result<String, Fail> {
    if package.exports.is_none() {
        return Err(Fail::from("no exports"));
    }
    let conditions = listed(alloc, conditions)?;
    match package.exported(alloc, subpath, conditions.as_slice())? {
        Some(file) => Ok(String::from_str(alloc, file.as_str())?),
        None => Ok(String::from_str(alloc, "none")?),
    }
}

// Conditions with commas between them.
fn listed(alloc: Global, conditions: &str) -> Result<List<Text>, Fail> {
    let mut list = Vec::new(alloc);
    for condition in conditions.split(',') {
        list.push(Text::of(alloc, condition)?)?;
    }
    Ok(List::from(list))
}

#[test]
fn subpaths_mean_what_node_says(rt: HostRuntime) -> Result<(), Fail> {
    rows_come(&rt, rt.alloc(), Told::Exported, exports_as_node())
}

#[test]
fn conditions_are_taken_in_the_order_given(rt: HostRuntime) -> Result<(), Fail> {
    rows_come(&rt, rt.alloc(), Told::Exported, exports_of_our_own())
}
