// The first cause against settings.
use crate::project::{project_by, ts_of};
use std::alloc::Global;
use std::test::Fail;

// A working folder, a base folder, patterns, and the text of the first cause against them and a lock that is none.
fn rows() -> &'static str {
    "# the working folder comes before the base folder, and that before the patterns
w w a = the setting cwd isn't a clean absolute path
/w/ /w  = the setting cwd isn't a clean absolute path
/w w a = the setting base_url isn't a clean absolute path
# patterns count in their order, and of one its targets come first
/w /w b:c;a;*/*:c = the pattern at 1 has no target
/w /w */*:c;a = the pattern at 0 holds more than one `*`
/w /w */* = the pattern at 0 has no target
/w /w a:b,c;*/*:c = the pattern at 0 holds no `*` and has more than one target
# the lock comes last
/w / a:b;*:b,c = the lock is no lock file: Header at 0"
}

// The text of the first cause against settings.
fn cause_of(alloc: Global, cwd: &str, base_url: &str, paths: &str) -> Result<String, Fail> {
    let ts = ts_of(alloc, base_url, paths)?;
    match project_by(alloc, cwd, Some(ts), Some("lodash")) {
        Ok(_) => Ok(String::from_str(alloc, "none")?),
        Err(cause) => Ok(format!(in alloc; "{cause}")?),
    }
}

// Whether a row has the text of its first cause.
fn comes(alloc: Global, row: &str) -> Result<bool, Fail> {
    let (given, wanted) = row.split_once(" = ").ok_or("no cause")?;
    let (cwd, mapping) = given.split_once(' ').ok_or("no base folder")?;
    let (base_url, paths) = mapping.split_once(' ').ok_or("no patterns")?;
    Ok(cause_of(alloc, cwd, base_url, paths)?.as_str() == wanted)
}

#[test]
fn the_first_cause_is_told(rt: HostRuntime) -> Result<(), Fail> {
    for row in rows().lines() {
        if !row.starts_with('#') {
            assert!(rt; comes(rt.alloc(), row)?, "{row}");
        }
    }
    Ok(())
}
