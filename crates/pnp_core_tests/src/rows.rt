// How tables are held to what they say.
use crate::manifests::refusal_told;
use crate::parts::{identifier_told, normal_form, payload_told};
use crate::patterns::{ignored_told, refused_pattern_told};
use crate::tries::{nearest_told, nodes_told};
use crate::virtual_paths::{base_told, place_told, virtual_told};
use crate::wordings::cause_told;
use std::alloc::Global;
use std::process::Abort;
use std::test::Fail;
use sugar_path::Text;

/// What the rows of a table tell.
#[derive(Clone, Copy)]
pub(crate) enum Told {
    NormalForm,
    Identifier,
    Payload,
    Refusal,
    Cause,
    Ignored,
    RefusedPattern,
    VirtualPath,
    Base,
    Place,
    Nearest,
    Nodes,
}

/// Each row of a table is told as it has it: what is given, ` = `, and what that comes to. A line that begins with `#`
/// says what the rows below it show.
pub(crate) fn rows_come(
    rt: &impl Abort,
    alloc: Global,
    told: Told,
    rows: &str,
) -> Result<(), Fail> {
    for row in rows.lines() {
        if !row.starts_with('#') {
            row_comes(rt, alloc, told, row)?;
        }
    }
    Ok(())
}

fn row_comes(rt: &impl Abort, alloc: Global, told: Told, row: &str) -> Result<(), Fail> {
    let (given, wanted) = row.rsplit_once(" = ").ok_or("no answer")?;
    let found = tell(alloc, told, given)?;
    assert_eq!(rt; found.as_str(), wanted, "{given}");
    Ok(())
}

fn tell(alloc: Global, told: Told, given: &str) -> Result<Text, Fail> {
    match told {
        Told::NormalForm => normal_form(alloc, given),
        Told::Identifier => identifier_told(alloc, given),
        Told::Payload => payload_told(alloc, given),
        Told::Refusal => refusal_told(alloc, given),
        Told::Cause => cause_told(alloc, given.as_bytes()),
        Told::Ignored => ignored_told(alloc, given),
        Told::RefusedPattern => refused_pattern_told(alloc, given),
        Told::VirtualPath => virtual_told(alloc, given),
        Told::Base => base_told(alloc, given),
        Told::Place => place_told(alloc, given),
        Told::Nearest => nearest_told(alloc, given),
        Told::Nodes => nodes_told(alloc, given),
    }
}
