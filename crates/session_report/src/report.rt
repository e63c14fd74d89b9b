// The report on a session document.
ghost use Rattle.std.specs.Prelude.{◌≡◌, ◌<◌, IfOk, string_bytes};
ghost use Rattle.std.specs.Result.{result_map_both};
ghost use Rattle.document_core.specs.Cause.{Meets};
ghost use Rattle.document_core.specs.Document.{project_in, settings_in};
ghost use Rattle.session_report.specs.Report.{lines_by, session_report};

use crate::document::{SessionDocument, read_session_document};
use crate::lines::lines_of;
use crate::step::Step;
use document_core::{DocumentError, GivenSettings, project_in, tree_of};
use session_core::Session;
use std::alloc::Global;
use sugar_path::Text;
use tree_core::MemoryTree;

/// The report on a session document's bytes: the lines of its steps, in order, or the first cause against it.
pub fn session_report_for(alloc: Global, bytes: &[u8]) -> Result<String, DocumentError>
    ensures { Meets (result_map_both string_bytes (λ e. e) result) (session_report bytes.now) }
{
    let document = read_session_document(alloc, bytes)?;
    let tree = tree_of(alloc, document.project.files.as_slice())?;
    let SessionDocument {
        project,
        capacity,
        steps,
    } = document;
    lines_by(
        alloc,
        tree,
        project.settings,
        &project.lock,
        capacity,
        steps.as_slice(),
    )
}

// The lines of steps in a session over a tree, by these settings and a lock.
fn lines_by(
    alloc: Global,
    tree: MemoryTree,
    settings: GivenSettings,
    lock: &Option<Text>,
    capacity: usize,
    steps: &[Step],
) -> Result<String, DocumentError>
    requires { 0 < capacity }
    ensures { Meets (result_map_both string_bytes (λ e. e) result)
        (lines_by tree.files capacity steps.now (project_in (settings_in settings lock.now))) }
{
    let project = project_in(alloc, settings, lock)?;
    let mut session = Session::over(alloc, project, tree, capacity)?;
    Ok(lines_of(alloc, &mut session, steps)?)
}
