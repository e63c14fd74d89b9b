// An outcome, told whole.
ghost use Rattle.std.specs.Prelude.{◌≡◌, ◌++◌, IfOk, string_bytes};
ghost use Rattle.explain_report.specs.Explained.{answer_line, asked_from, explained, file_line, name_line};
ghost use Rattle.explain_report.specs.Explained.{verdict_lines, via_line};

use crate::joined::joined;
use crate::refusals::refusal_lines;
use crate::steps::put_steps;
use resolve_stack::{FileName, Outcome, Verdict};
use std::alloc::{AllocError, Global};
use swc_loader::{Found, Resolution, Via};

/// The text for people on an outcome of a request: what was asked, from where; each question with what was there, by
/// the step of the search that put it; and the answer, or the refusal with what would help. Each line has its line end.
#[tactic(auto, unfolding(crate::specs::Explained::explained))]
pub fn explained(
    alloc: Global,
    importer: &FileName,
    specifier: &str,
    outcome: &Outcome,
) -> Result<String, AllocError>
    ensures { IfOk result (λ text. string_bytes text
        ≡ explained importer.now specifier.now outcome.now) }
{
    let mut text = joined(alloc, specifier, " from ", asked_from(importer), "\n")?;
    put_steps(alloc, &mut text, &outcome.trail)?;
    text.push_str(verdict_lines(alloc, &outcome.verdict)?.as_str())?;
    Ok(text)
}

// What asks.
fn asked_from(importer: &FileName) -> &str
    ensures { result.now ≡ asked_from importer.now }
{
    match importer {
        FileName::Real(path) => path.as_str(),
        FileName::Custom(name) => name.as_str(),
        FileName::Anon => "a source without a name",
    }
}

fn verdict_lines(alloc: Global, verdict: &Verdict) -> Result<String, AllocError>
    ensures { IfOk result (λ lines. string_bytes lines ≡ verdict_lines verdict.now) }
{
    match verdict {
        Verdict::Answered(resolution) => answer_line(alloc, resolution),
        Verdict::Refused(refusal) => refusal_lines(alloc, refusal),
    }
}

fn answer_line(alloc: Global, resolution: &Resolution) -> Result<String, AllocError>
    ensures { IfOk result (λ line. string_bytes line ≡ answer_line resolution.now) }
{
    match &resolution.found {
        Some(found) => file_line(alloc, found),
        None => name_line(alloc, &resolution.filename),
    }
}

// The file that was found, and the package through whose row it was.
fn file_line(alloc: Global, found: &Found) -> Result<String, AllocError>
    ensures { IfOk result (λ line. string_bytes line ≡ file_line found.now) }
{
    match &found.via {
        None => joined(alloc, "found: ", found.file.as_str(), "", "\n"),
        Some(via) => {
            let mut line = joined(alloc, "found: ", found.file.as_str(), "", ", of ")?;
            line.push_str(via_line(alloc, via)?.as_str())?;
            Ok(line)
        }
    }
}

// The package, and where it lies.
fn via_line(alloc: Global, via: &Via) -> Result<String, AllocError>
    ensures { IfOk result (λ line. string_bytes line ≡ via_line via.now) }
{
    let mut line = joined(
        alloc,
        via.name.as_str(),
        "@",
        via.reference.as_str(),
        " at ",
    )?;
    line.push_str(via.location.as_str())?;
    line.push_str("\n")?;
    Ok(line)
}

// An answer without a file.
fn name_line(alloc: Global, name: &FileName) -> Result<String, AllocError>
    ensures { IfOk result (λ line. string_bytes line ≡ name_line name.now) }
{
    match name {
        FileName::Real(path) => format!(in alloc;
            "answered: the path {}, without a file\n",
            path.as_str()
        ),
        FileName::Custom(name) => format!(in alloc;
            "answered: the name {}, without a file\n",
            name.as_str()
        ),
        FileName::Anon => String::from_str(alloc, "answered: without a name and a file\n"),
    }
}
