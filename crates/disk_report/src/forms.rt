// In which forms outcomes are told.
ghost use Rattle.std.specs.Prelude.{◌≡◌, IfOk, string_bytes};
ghost use Rattle.disk_report.specs.Forms.{told_as};

use explain_report::explained;
use report_core::line_of_outcome;
use resolve_stack::{FileName, Outcome};
use std::alloc::{AllocError, Global};

/// In which form an outcome of a request is told.
#[derive(Clone, Copy, Debug, PartialEq, Eq)]
pub enum OutcomeForm {
    /// A line of JSON.
    Line,
    /// A line of JSON with the trail.
    LineWithTrail,
    /// A text for people.
    Text,
}

/// What is told of requests over a tree.
#[derive(Clone, Copy, Debug, PartialEq, Eq)]
pub enum DiskForm {
    /// Each outcome, in order, in some form.
    Outcomes(OutcomeForm),
    /// The text of one bundle of all requests.
    Bundle,
}

/// What is told of an outcome in this form: of what asked, and for which specifier.
pub fn told_as(
    alloc: Global,
    form: OutcomeForm,
    importer: &FileName,
    specifier: &str,
    outcome: &Outcome,
) -> Result<String, AllocError>
    ensures { IfOk result (λ told. string_bytes told
        ≡ told_as form importer.now specifier.now outcome.now) }
{
    match form {
        OutcomeForm::Line => line_of_outcome(alloc, outcome, false),
        OutcomeForm::LineWithTrail => line_of_outcome(alloc, outcome, true),
        OutcomeForm::Text => explained(alloc, importer, specifier, outcome),
    }
}
