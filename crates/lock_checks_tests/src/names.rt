// Which entry of a lock names a package, by hand.
use crate::fixtures::{first_lock, first_lock_with_metadata, later_lock, locator};
use lock_checks::{Lock, names_locator};
use pnp_core::PackageLocator;
use std::alloc::{AllocError, Global};
use std::process::Abort;
use std::test::Fail;
use yarn_lock_parser::parse_str;

// A package's name, its reference, and the integrity of the first entry that names it, on each line.
fn named_by_later_lock() -> &'static str {
    "lodash npm:4.17.20 = lodash-20
lodash npm:4.17.21 = lodash-21
lodash npm:4.17.22 = none
Lodash npm:4.17.20 = none
lodash 4.17.20 = none
twice npm:1.0.0 = twice-first
twice npm:2.0.0 = none
react-dom npm:18.2.0 = react-dom
react-dom virtual:ab#npm:18.2.0 = react-dom
react-dom virtual:npm:18.2.0 = none
react-dom ab#npm:18.2.0 = none
patched patch:patched@npm%3A1.0.0#fix.patch = patched
patched virtual:ab#patch:patched@npm%3A1.0.0#fix.patch = patched
patched fix.patch = none
@scope/tool npm:2.1.0 = tool
scope/tool npm:2.1.0 = none
unresolved npm:3.0.0 = none
odd npm:1.0.0 = odd
odd npm:latest = none
app workspace:. = app"
}

fn named_by_first_lock() -> &'static str {
    "lodash npm:4.17.20 = lodash-20
lodash virtual:ab#npm:4.17.20 = lodash-20
lodash npm:9.9.9 = none
elsewhere npm:9.9.9 = elsewhere
late npm:1.0.0 = early
early npm:8.8.8 = early
twice npm:1.0.0 = twice-first
@scope/tool npm:2.1.0 = tool
lodash 4.17.20 = none
lodash patch:4.17.20 = none
lodash https://registry.yarnpkg.com/lodash/-/lodash-4.17.20.tgz#b44a = none"
}

fn named_by_first_lock_with_metadata() -> &'static str {
    "unresolved npm:3.0.0 = unresolved
unresolved npm:3.0.1 = none"
}

fn integrity_found<'k>(
    alloc: Global,
    lock: &'k Lock<'_>,
    asked: &PackageLocator,
) -> Result<&'k str, AllocError> {
    match lock.first_naming(alloc, asked)? {
        Some(entry) => Ok(entry.integrity()),
        None => Ok("none"),
    }
}

// The integrity of the first entry that names a package, sought without the lock's index.
fn integrity_sought<'k>(lock: &'k Lock<'_>, asked: &PackageLocator) -> &'k str {
    let file = lock.file();
    for entry in file.entries() {
        if names_locator(entry, file.version(), asked) {
            return entry.integrity();
        }
    }
    "none"
}

fn is_named(rt: &impl Abort, alloc: Global, lock: &Lock<'_>, line: &str) -> Result<(), Fail> {
    let (asked, wanted) = line.split_once(" = ").ok_or("no entry")?;
    let (name, reference) = asked.split_once(' ').ok_or("no reference")?;
    let asked = locator(alloc, name, reference)?;
    assert_eq!(rt; integrity_found(alloc, lock, &asked)?, wanted, "{line}");
    assert_eq!(rt; integrity_sought(lock, &asked), wanted, "{line}");
    Ok(())
}

fn each_is_named(rt: &impl Abort, alloc: Global, lock: &Lock<'_>, lines: &str) -> Result<(), Fail> {
    for line in lines.lines() {
        is_named(rt, alloc, lock, line)?;
    }
    Ok(())
}

fn are_named(rt: &impl Abort, alloc: Global, text: &str, lines: &str) -> Result<(), Fail> {
    let lock = Lock::of(alloc, parse_str(alloc, text)?)?;
    each_is_named(rt, alloc, &lock, lines)
}

#[test]
fn later_locks_name_by_resolution(rt: HostRuntime) -> Result<(), Fail> {
    are_named(&rt, rt.alloc(), later_lock(), named_by_later_lock())
}

#[test]
fn first_locks_name_by_release_too(rt: HostRuntime) -> Result<(), Fail> {
    are_named(&rt, rt.alloc(), first_lock(), named_by_first_lock())
}

#[test]
fn the_number_decides_and_not_the_header(rt: HostRuntime) -> Result<(), Fail> {
    let lines = named_by_first_lock_with_metadata();
    are_named(&rt, rt.alloc(), first_lock_with_metadata(), lines)
}
