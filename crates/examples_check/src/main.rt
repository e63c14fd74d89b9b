//! Whether each document of a folder gives the text that stands beside it, `NAME.out` for `NAME.json`, or a front of it
//! where writing fails, whether the trails of its requests decide, and what their bundle comes to. It is given the
//! folder. A document whose name begins with `session`, `graph`, `audit` or `bundle` is run by that command, one whose
//! name begins with `explain` by `resolve --explain`, and each other one by `resolve`, whose requests are bundled too.
#![tactic(auto)]

ghost use Rattle.std.specs.Prelude.{◌≡◌, true, Some, IfOk, IfSome, [], ◌∷◌, codes, map, string_bytes};
ghost use Rattle.cli_core.specs.Command.{asked};
ghost use Rattle.cli_core.specs.Run.{reply_for};
ghost use Rattle.cli_core.specs.declared.command.Command.TheVariants.{Report};

mod bundles;
mod cut_short;
mod replays;

use crate::bundles::{BundleTries, bundle_in};
use crate::cut_short::ends_at_each_sink;
use crate::replays::{Replays, replays_in};
use cli_core::{DocumentKind, OutcomeForm, PlainSink, PlainSource, Status, run};
use std::alloc::{AllocError, Global};
use std::fs::Files;
use std::io::ErrorKind;
use std::{env, fs, io};
use sugar_path::Bytes;
use tree_core::MemoryTree;

fn main(rt: HostRuntime) -> io::Result<()> {
    let Some(folder) = env::args(&rt)?.nth(1) else {
        return Err(io::Error::from(ErrorKind::InvalidInput));
    };
    for name in documents(&rt, &folder)? {
        tell(&rt, &folder, &name)?;
    }
    Ok(())
}

fn tell(rt: &(impl Files + Print + AllocGlobal), folder: &str, name: &str) -> io::Result<()> {
    let document = fs::read(rt, format!(in rt.alloc(); "{folder}/{name}.json")?)?;
    let wanted = fs::read(rt, format!(in rt.alloc(); "{folder}/{name}.out")?)?;
    let Replays {
        requests,
        questions,
        files,
        differ,
    } = replays_in(rt.alloc(), &document)?;
    let kind = kind_of(name);
    let bundle = bundle_of(rt.alloc(), kind, &document, &wanted)?;
    let ends = how_sinks_end(rt.alloc(), kind, &document, &wanted)?;
    let tells = how_it_is_written(rt.alloc(), kind, document, &wanted)?;
    println!(rt;
        "{name}: {tells}, {ends}; {requests} requests replayed, without {questions} questions and {files} files: {differ} differ; bundle cut {} times: {} differ",
        bundle.cuts, bundle.differ
    )
}

// What the bundle of a document comes to whose requests give a line each.
fn bundle_of(
    alloc: Global,
    kind: DocumentKind,
    document: &[u8],
    lines: &[u8],
) -> Result<BundleTries, AllocError> {
    match kind {
        DocumentKind::Requests(OutcomeForm::Line) => bundle_in(alloc, document, lines),
        _ => Ok(BundleTries::none()),
    }
}

// What a document holds, by its name.
fn kind_of(name: &str) -> DocumentKind {
    if name.starts_with("session") {
        DocumentKind::Steps
    } else if name.starts_with("graph") {
        DocumentKind::Graphs
    } else if name.starts_with("audit") {
        DocumentKind::Audit
    } else if name.starts_with("bundle") {
        DocumentKind::Bundle
    } else if name.starts_with("explain") {
        DocumentKind::Requests(OutcomeForm::Text)
    } else {
        DocumentKind::Requests(OutcomeForm::Line)
    }
}

fn how_sinks_end(
    alloc: Global,
    kind: DocumentKind,
    document: &[u8],
    wanted: &[u8],
) -> Result<&'static str, AllocError> {
    let document = Bytes::of(alloc, document)?;
    if ends_at_each_sink(alloc, &words(alloc, kind)?, &document, wanted)? {
        Ok("cut short by sinks")
    } else {
        Ok("cut short otherwise")
    }
}

fn how_it_is_written(
    alloc: Global,
    kind: DocumentKind,
    document: Vec<u8>,
    wanted: &[u8],
) -> Result<&'static str, AllocError> {
    if gives(alloc, kind, document, wanted)? {
        Ok("as written")
    } else {
        Ok("differs")
    }
}

// The names of the documents, in order.
fn documents(
    rt: &(impl Files + AllocGlobal + Clone + Drop),
    folder: &str,
) -> io::Result<Vec<String>> {
    let mut names = Vec::new(rt.alloc());
    for entry in fs::read_dir(rt, folder)? {
        let entry = entry?;
        if let Some(name) = entry.file_name().strip_suffix(".json") {
            names.push(String::from_str(rt.alloc(), name)?)?;
        }
    }
    names.sort()?;
    Ok(names)
}

// Whether the program writes this text for the document of a kind.
fn gives(
    alloc: Global,
    kind: DocumentKind,
    document: Vec<u8>,
    wanted: &[u8],
) -> Result<bool, AllocError>
    ensures { IfOk result (λ gives. gives ≡ true → (reply_for kind document.items).1 ≡ wanted.now) }
{
    // with room for one byte more, a longer text differs
    match written(alloc, kind, document, wanted.len().saturating_add(1))? {
        Some(sink) => Ok(sink.written() == wanted),
        None => Ok(false),
    }
}

// What the program writes for the document of a kind, where that is written whole.
fn written(
    alloc: Global,
    kind: DocumentKind,
    document: Vec<u8>,
    room: usize,
) -> Result<Option<PlainSink>, AllocError>
    ensures { IfOk result (λ sink. IfSome sink (λ sink.
        sink.written ≡ (reply_for kind document.items).1)) }
{
    let words = words(alloc, kind)?;
    let mut source = PlainSource::new(Bytes::from_vec(document)?);
    let mut sink = PlainSink::new(alloc, room)?;
    let mut disk = MemoryTree::new(alloc);
    match run(alloc, &words, &mut source, &mut sink, &mut disk) {
        Status::Done => Ok(Some(sink)),
        Status::Refused => Ok(Some(sink)),
        _ => Ok(None),
    }
}

// The words that ask for the command which reads a document of a kind.
fn words(alloc: Global, kind: DocumentKind) -> Result<Vec<String>, AllocError>
    ensures { IfOk result (λ words. asked words.items ≡ Some (Report kind)) }
{
    match kind {
        DocumentKind::Requests(OutcomeForm::Line) => one_word(alloc, "resolve"),
        DocumentKind::Requests(OutcomeForm::LineWithTrail) => resolve_in(alloc, "--trail"),
        DocumentKind::Requests(OutcomeForm::Text) => resolve_in(alloc, "--explain"),
        DocumentKind::Steps => one_word(alloc, "session"),
        DocumentKind::Graphs => one_word(alloc, "graph"),
        DocumentKind::Audit => one_word(alloc, "audit"),
        DocumentKind::Bundle => one_word(alloc, "bundle"),
    }
}

fn one_word(alloc: Global, word: &str) -> Result<Vec<String>, AllocError>
    ensures { IfOk result (λ words. map string_bytes words.items ≡ word.now ∷ []) }
{
    Ok(vec![in alloc; String::from_str(alloc, word)?]?)
}

// The words of `resolve` with the form in which outcomes are told.
fn resolve_in(alloc: Global, form: &str) -> Result<Vec<String>, AllocError>
    ensures { IfOk result (λ words.
        map string_bytes words.items ≡ codes "resolve" ∷ form.now ∷ []) }
{
    let resolve = String::from_str(alloc, "resolve")?;
    let form = String::from_str(alloc, form)?;
    Ok(vec![in alloc; resolve, form]?)
}
