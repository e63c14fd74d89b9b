// What a document that is read holds.
ghost use Rattle.std.specs.Result.{result_map_both};
ghost use Rattle.std.specs.Prelude.{string_bytes};
ghost use Rattle.document_core.specs.Cause.{Meets};
ghost use Rattle.cli_core.specs.Report.{report_of};

use crate::report::report_for;
use audit_report::audit_report_for;
use bundle_report::bundle_report_for;
use disk_report::OutcomeForm;
use document_core::DocumentError;
use graph_report::graph_report_for;
use session_report::session_report_for;
use std::alloc::Global;

/// What a document that is read holds, and so what is written for it.
#[derive(Clone, Copy, Debug, PartialEq, Eq)]
pub enum DocumentKind {
    /// Requests: what is told of their outcomes, in some form.
    Requests(OutcomeForm),
    /// The steps of a session, and their lines.
    Steps,
    /// The steps over an import graph, and their lines.
    Graphs,
    /// A manifest that is audited by a lock: the lines of its audit.
    Audit,
    /// Requests: the bundle of their trails.
    Bundle,
}

/// The report on a document's bytes, or the first cause against it.
pub fn report_of(alloc: Global, kind: DocumentKind, bytes: &[u8]) -> Result<String, DocumentError>
    ensures { Meets (result_map_both string_bytes (λ e. e) result) (report_of kind bytes.now) }
{
    match kind {
        DocumentKind::Requests(form) => report_for(alloc, bytes, form),
        DocumentKind::Steps => session_report_for(alloc, bytes),
        DocumentKind::Graphs => graph_report_for(alloc, bytes),
        DocumentKind::Audit => audit_report_for(alloc, bytes),
        DocumentKind::Bundle => bundle_report_for(alloc, bytes),
    }
}
