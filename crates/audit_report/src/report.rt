// The report on an audit document.
ghost use Rattle.std.specs.Prelude.{string_bytes};
ghost use Rattle.std.specs.Result.{result_map_both};
ghost use Rattle.sugar_path.specs.Path.{IsCleanPath, path_in};
ghost use Rattle.document_core.specs.Cause.{Meets};
ghost use Rattle.document_core.specs.Document.{project_in, settings_in};
ghost use Rattle.audit_report.specs.Report.{audit_report, audited, lines_by};

use crate::document::{AuditDocument, read_audit_document};
use crate::lines::lines_of;
use document_core::{Cause, DocumentError, GivenSettings, project_in, tree_of};
use lock_audit::{Audit, AuditError, audit};
use resolve_stack::Project;
use std::alloc::Global;
use sugar_path::Text;
use tree_core::MemoryTree;

/// The report on an audit document's bytes: the lines of its audit, or the first cause against it.
pub fn audit_report_for(alloc: Global, bytes: &[u8]) -> Result<String, DocumentError>
    ensures { Meets (result_map_both string_bytes (λ e. e) result) (audit_report bytes.now) }
{
    let document = read_audit_document(alloc, bytes)?;
    let tree = tree_of(alloc, document.project.files.as_slice())?;
    let AuditDocument { project, manifest } = document;
    lines_by(alloc, tree, project.settings, &project.lock, &manifest)
}

// The lines of the audit of a tree's manifest, by these settings and a lock.
fn lines_by(
    alloc: Global,
    tree: MemoryTree,
    settings: GivenSettings,
    lock: &Option<Text>,
    manifest: &Text,
) -> Result<String, DocumentError>
    requires { IsCleanPath manifest.now }
    ensures { Meets (result_map_both string_bytes (λ e. e) result)
        (lines_by tree.files (path_in manifest.now) (project_in (settings_in settings lock.now))) }
{
    let mut tree = tree;
    let project = project_in(alloc, settings, lock)?;
    let audit = audit_of(alloc, &mut tree, &project, manifest.as_str())?;
    Ok(lines_of(alloc, &audit)?)
}

// The audit of a tree's manifest, or the cause against it. A tree in memory refuses no question.
fn audit_of(
    alloc: Global,
    tree: &mut MemoryTree,
    project: &Project<'_>,
    manifest: &str,
) -> Result<Audit, DocumentError>
    requires { IsCleanPath manifest.now }
    ensures { Meets result (audited tree.old.files (path_in manifest.now) project.now) }
{
    match audit(alloc, tree, project, manifest) {
        Ok(audit) => Ok(audit),
        Err(AuditError::NoLock) => Err(DocumentError::Refused(Cause::NoLock)),
        Err(AuditError::Hydration { cause }) => {
            Err(DocumentError::Refused(Cause::Hydration(cause)))
        }
        Err(AuditError::TreeFault | AuditError::NoMemory) => Err(DocumentError::NoMemory),
    }
}
