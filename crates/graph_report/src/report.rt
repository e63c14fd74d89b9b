// The report on a graph document.
ghost use Rattle.std.specs.Prelude.{◌≡◌, ◌<◌, None, IfOk, string_bytes};
ghost use Rattle.std.specs.Result.{result_map_both};
ghost use Rattle.document_core.specs.Cause.{Meets};
ghost use Rattle.document_core.specs.Document.{project_in, settings_in};
ghost use Rattle.import_graph.specs.GraphState.{entry_refusal};
ghost use Rattle.session_core.specs.SessionView.{state_of};
ghost use Rattle.graph_report.specs.Given.{imports_by};
ghost use Rattle.graph_report.specs.Lines.{step_lines};
ghost use Rattle.graph_report.specs.Report.{graph_report, lines_by};

use crate::document::{GraphDocument, read_graph_document};
use crate::lines::lines_of;
use crate::scanner::Scanner;
use crate::step::GraphStep;
use document_core::{DocumentError, project_in, tree_of};
use import_graph::{EsScan, GraphSession, LineScan, Scan};
use session_core::Session;
use std::alloc::{AllocError, Global};
use sugar_path::{List, Text};
use tree_core::MemoryTree;

/// The report on a graph document's bytes: the lines of its steps, in order, or the first cause against it.
pub fn graph_report_for(alloc: Global, bytes: &[u8]) -> Result<String, DocumentError>
    ensures { Meets (result_map_both string_bytes (λ e. e) result) (graph_report bytes.now) }
{
    let document = read_graph_document(alloc, bytes)?;
    let tree = tree_of(alloc, document.project.files.as_slice())?;
    lines_by(alloc, tree, document)
}

// The lines of a document's steps over the graph of a tree.
fn lines_by(
    alloc: Global,
    tree: MemoryTree,
    document: GraphDocument,
) -> Result<String, DocumentError>
    requires clean { entry_refusal document.entries ≡ None }
    requires some { 0 < document.capacity }
    ensures { Meets (result_map_both string_bytes (λ e. e) result)
        (lines_by (imports_by document.scanner) tree.files document.entries document.capacity document.steps
        (project_in (settings_in document.project.settings document.project.lock))) }
{
    let GraphDocument {
        project,
        entries,
        capacity,
        steps,
        scanner,
    } = document;
    let made = project_in(alloc, project.settings, &project.lock)?;
    let session = Session::over(alloc, made, tree, capacity)?;
    Ok(lines_told(alloc, session, scanner, entries, steps.as_slice())?)
}

// The lines of steps over the graph of a session, whose files are read by a scanner.
fn lines_told(
    alloc: Global,
    session: Session<'_>,
    scanner: Scanner,
    entries: List<Text>,
    steps: &[GraphStep],
) -> Result<String, AllocError>
    requires { entry_refusal entries ≡ None }
    ensures { IfOk result (λ lines. string_bytes lines ≡ step_lines (imports_by scanner)
        (record { session = state_of session.entry; entries = entries }) steps.now) }
{
    match scanner {
        Scanner::Lines => lines_over(alloc, session, LineScan, entries, steps),
        Scanner::Es => lines_over(alloc, session, EsScan, entries, steps),
    }
}

fn lines_over<S: Scan + Drop>(
    alloc: Global,
    session: Session<'_>,
    scanner: S,
    entries: List<Text>,
    steps: &[GraphStep],
) -> Result<String, AllocError>
    requires { entry_refusal entries ≡ None }
    ensures { IfOk result (λ lines. string_bytes lines ≡ step_lines S.imports
        (record { session = state_of session.entry; entries = entries }) steps.now) }
{
    let mut graphs = GraphSession::over(alloc, session, scanner, entries).unwrap();
    lines_of(alloc, &mut graphs, steps)
}
