// What a manifest answers. Each question borrows it, so that one function owns it.
ghost use Rattle.pnp_core.specs.Owner.{IsReady};

use crate::bindings::bound_told;
use crate::manifests::ready_from;
use crate::packages::{folder_told, is_excluded, is_root, location_told, owner_told};
use crate::unqualified::resolved_told;
use crate::wordings::message_told;
use pnp_core::Manifest;
use std::alloc::Global;
use std::process::Abort;
use std::test::Fail;
use sugar_path::Text;

/// The manifest that a text is, ready, answers each row of a table as the row has it: a word for the question, what is
/// given, ` = `, and the answer. A line that begins with `#` says what the rows below it show.
pub(crate) fn answers(rt: &impl Abort, alloc: Global, text: &str, rows: &str) -> Result<(), Fail> {
    let manifest = ready_from(alloc, text)?;
    each_answer_comes(rt, alloc, &manifest, rows)
}

/// A manifest answers each row of a table.
pub(crate) fn each_answer_comes(
    rt: &impl Abort,
    alloc: Global,
    manifest: &Manifest,
    rows: &str,
) -> Result<(), Fail>
    requires { IsReady manifest.now }
{
    for row in rows.lines() {
        if !row.starts_with('#') {
            answer_comes(rt, alloc, manifest, row)?;
        }
    }
    Ok(())
}

fn answer_comes(rt: &impl Abort, alloc: Global, manifest: &Manifest, row: &str) -> Result<(), Fail>
    requires { IsReady manifest.now }
{
    let (asked, wanted) = row.split_once(" = ").ok_or("no answer")?;
    let (question, given) = asked.split_once(' ').ok_or("nothing is given")?;
    let found = answer(alloc, manifest, question, given)?;
    assert_eq!(rt; found.as_str(), wanted, "{asked}");
    Ok(())
}

fn answer(alloc: Global, manifest: &Manifest, question: &str, given: &str) -> Result<Text, Fail>
    requires { IsReady manifest.now }
{
    match question {
        "owner" => owner_told(alloc, manifest, given),
        "root" => flag_told(alloc, is_root(alloc, manifest, given)?),
        "excluded" => flag_told(alloc, is_excluded(alloc, manifest, given)?),
        "location" => location_told(alloc, manifest, given),
        "place" => folder_told(alloc, manifest, given),
        "bound" => bound_told(alloc, manifest, given),
        "resolved" => resolved_told(alloc, manifest, given),
        "undeclared" => message_told(alloc, manifest, given, false),
        "peer" => message_told(alloc, manifest, given, true),
        _ => Err(Fail::from("no question")),
    }
}

fn flag_told(alloc: Global, flag: bool) -> Result<Text, Fail> {
    Ok(Text::of(alloc, if flag { "yes" } else { "no" })?)
}
