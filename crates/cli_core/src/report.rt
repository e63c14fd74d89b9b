// The report on a document.
ghost use Rattle.std.specs.Prelude.{◌≡◌, IfOk, string_bytes};
ghost use Rattle.std.specs.Result.{result_map_both};
ghost use Rattle.document_core.specs.Cause.{Meets};
ghost use Rattle.document_core.specs.Document.{project_in, settings_in};
ghost use Rattle.document_core.specs.Outcomes.{outcome_on};
ghost use Rattle.disk_report.specs.Forms.{told_as};
ghost use Rattle.cli_core.specs.Report.{lines_by, lines_of, report};

use disk_report::{OutcomeForm, told_as};
use document_core::{
    Document, DocumentError, GivenRequest, GivenSettings, outcome_of, project_in, read_document,
    tree_of,
};
use resolve_stack::{KnownTree, Project};
use std::alloc::{AllocError, Global};
use sugar_path::Text;
use tree_core::MemoryTree;

/// The report on a document's bytes: what is told of its requests, in order, in this form; or the first cause
/// against it.
pub fn report_for(alloc: Global, bytes: &[u8], form: OutcomeForm) -> Result<String, DocumentError>
    ensures { Meets (result_map_both string_bytes (λ e. e) result) (report form bytes.now) }
{
    let Document {
        settings,
        lock,
        files,
        requests,
    } = read_document(alloc, bytes)?;
    let tree = tree_of(alloc, files.as_slice())?;
    lines_by(alloc, tree, settings, &lock, requests.as_slice(), form)
}

// The lines of the requests by these settings and a lock.
fn lines_by(
    alloc: Global,
    tree: MemoryTree,
    settings: GivenSettings,
    lock: &Option<Text>,
    requests: &[GivenRequest],
    form: OutcomeForm,
) -> Result<String, DocumentError>
    ensures { Meets (result_map_both string_bytes (λ e. e) result)
        (lines_by form tree.files requests.now (project_in (settings_in settings lock.now))) }
{
    let project = project_in(alloc, settings, lock)?;
    let mut tree = KnownTree::of(alloc, tree);
    Ok(lines_on(alloc, &mut tree, &project, requests, form)?)
}

// The lines of the requests, in order.
fn lines_on(
    alloc: Global,
    tree: &mut KnownTree,
    project: &Project<'_>,
    requests: &[GivenRequest],
    form: OutcomeForm,
) -> Result<String, AllocError>
    ensures { IfOk result (λ lines.
        string_bytes lines ≡ lines_of form tree.old.files project.now requests.now) }
{
    let mut lines = String::new(alloc);
    for request in requests {
        let line = line_of(alloc, tree, project, request, form)?;
        lines.push_str(line.as_str())?;
    }
    Ok(lines)
}

// What is told of one request.
fn line_of(
    alloc: Global,
    tree: &mut KnownTree,
    project: &Project<'_>,
    request: &GivenRequest,
    form: OutcomeForm,
) -> Result<String, AllocError>
    ensures line { IfOk result (λ line. string_bytes line
        ≡ told_as form request.now.importer request.now.specifier
        (outcome_on tree.old.files project.now request.now)) }
    ensures files { tree.new.files ≡ tree.old.files }
{
    let outcome = outcome_of(alloc, tree, project, request)?;
    told_as(
        alloc,
        form,
        &request.importer,
        request.specifier.as_str(),
        &outcome,
    )
}
