// The audit of a manifest over a tree.
ghost use Rattle.std.specs.Prelude.{◌≡◌, ◌≢◌, ◌↔◌, None, Some, IfErr, IsErrOf};
ghost use Rattle.sugar_path.specs.Path.{IsCleanPath, path_in};
ghost use Rattle.tree_core.specs.Asks.{Asks};
ghost use Rattle.tree_core.specs.Resolving.{Resolves};
ghost use Rattle.lock_audit.specs.Audit.{audit_by, audit_of};
ghost use Rattle.lock_audit.specs.Audits.{Audits};
ghost use Rattle.lock_audit.specs.declared.error.AuditError.TheVariants.{NoLock};

use crate::edges::edges_of;
use crate::entries::unused_entries;
use crate::findings::findings_of;
use crate::{Audit, AuditError};
use lock_checks::Lock;
use pnp_core::{HydrationCause, Manifest, loaded_manifest};
use resolve_stack::Project;
use std::alloc::Global;
use sugar_path::CleanPath;
use tree_core::{Asker, ReadError, Recorder, ResolveError, Tree};

/// Which bindings of the rows of the manifest at a path the registry or the project's lock refuses, and which entries
/// of the lock name no package of it. The path is a clean absolute one other than `/`. Each question is put to the tree
/// once.
pub fn audit<T: Tree>(
    alloc: Global,
    tree: &mut T,
    project: &Project<'_>,
    manifest_path: &str,
) -> Result<Audit, AuditError>
    requires { IsCleanPath manifest_path.now }
    ensures audits { Audits project.now.lock (path_in manifest_path.now)
        (T.state tree.old) (T.state tree.new) result }
    ensures no_lock { IsErrOf result NoLock ↔ (project.now.lock ≡ None) }
    // Without a lock the tree isn't asked.
    ensures unasked { project.now.lock ≡ None → tree.new ≡ tree.old }
{
    match project.lock() {
        Some(lock) => audit_over(alloc, tree, lock, manifest_path),
        None => Err(AuditError::NoLock),
    }
}

// The audit by a lock. What is asked is recorded, so that no question is put twice.
fn audit_over<T: Tree>(
    alloc: Global,
    tree: &mut T,
    lock: &Lock<'_>,
    manifest_path: &str,
) -> Result<Audit, AuditError>
    requires { IsCleanPath manifest_path.now }
    ensures audits { Audits (Some lock.now) (path_in manifest_path.now)
        (T.state tree.old) (T.state tree.new) result }
    ensures locked { IfErr result (λ e. e ≢ NoLock) }
{
    let mut recorder = Recorder::new(alloc, tree);
    let audited = audit_at(alloc, &mut recorder, lock, manifest_path);
    let (_trail, lent) = recorder.into_parts();
    let _end = lent;
    Ok(audited?)
}

// The audit of the manifest that the file at a path is, or the cause why it is none.
fn audit_at<R: Asker>(
    alloc: Global,
    tree: &mut R,
    lock: &Lock<'_>,
    manifest_path: &str,
) -> Result<Audit, ResolveError<HydrationCause>>
    requires { IsCleanPath manifest_path.now }
    ensures { Resolves (R.asking tree.old) (R.asking tree.new) result
        (audit_by lock.now (path_in manifest_path.now)) }
{
    let path = CleanPath::of(alloc, manifest_path)?;
    let manifest = loaded_manifest(alloc, tree, &path)?;
    Ok(audit_of(alloc, tree, lock, &manifest)?)
}

// The audit of a manifest.
fn audit_of<R: Asker>(
    alloc: Global,
    tree: &mut R,
    lock: &Lock<'_>,
    manifest: &Manifest,
) -> Result<Audit, ReadError>
    ensures { Asks (R.asking tree.old) (R.asking tree.new) result
        (audit_of lock.now manifest.now) }
{
    let edges = edges_of(alloc, manifest)?;
    let findings = findings_of(alloc, tree, lock, manifest, edges.as_slice())?;
    let unused = unused_entries(alloc, lock.file(), manifest)?;
    Ok(Audit {
        findings,
        unused,
        edges: edges.len() as u64,
    })
}
