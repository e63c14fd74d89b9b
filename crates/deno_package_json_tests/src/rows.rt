// How tables are held to what they say.
use crate::exports::exported_told;
use crate::fields::{fault_told, field_told, long_or_deep_told, mains_told, url_told, value_told};
use crate::loads::required_told;
use std::alloc::Global;
use std::process::Abort;
use std::test::Fail;

/// What the rows of a table tell.
#[derive(Clone, Copy)]
pub(crate) enum Told {
    Exported,
    Field,
    Fault,
    LongOrDeep,
    Value,
    Mains,
    Url,
    Requirements,
}

/// Each row of a table is told as it has it: what is given, ` = `, and what that comes to. A line that begins with `#`
/// says what the rows below it show.
pub(crate) fn rows_come(
    rt: &impl Abort,
    alloc: Global,
    told: Told,
    rows: &str,
) -> Result<(), Fail> {
    for row in rows.lines() {
        if !row.starts_with('#') {
            row_comes(rt, alloc, told, row)?;
        }
    }
    Ok(())
}

fn row_comes(rt: &impl Abort, alloc: Global, told: Told, row: &str) -> Result<(), Fail> {
    let (given, wanted) = row.split_once(" = ").ok_or("no answer")?;
    let found = tell(alloc, told, given)?;
    assert_eq!(rt; found.as_str(), wanted, "{given}");
    Ok(())
}

fn tell(alloc: Global, told: Told, given: &str) -> Result<String, Fail> {
    match told {
        Told::Exported => exported_told(alloc, given),
        Told::Field => field_told(alloc, given),
        Told::Fault => fault_told(alloc, given),
        Told::LongOrDeep => long_or_deep_told(alloc, given),
        Told::Value => value_told(alloc, given),
        Told::Mains => mains_told(alloc, given),
        Told::Url => url_told(alloc, given),
        Told::Requirements => required_told(alloc, given),
    }
}
