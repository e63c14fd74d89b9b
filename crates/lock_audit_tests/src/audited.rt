// Projects with a lock, and what an audit finds, in words.
use indexmap::IndexMap;
use lock_audit::{Audit, Finding, audit};
use lock_checks::EdgeFault;
use pnp_core::PackageLocator;
use resolve_stack::{Project, ProjectError, Settings, TargetEnv};
use std::alloc::{AllocError, Global};
use std::test::Fail;
use sugar_path::{Text, is_clean};
use tree_core::MemoryTree;

/// A project for Node in `/w` with a lock.
pub(crate) fn project_of(alloc: Global, lock: &str) -> Result<Project<'_>, ProjectError> {
    Project::new(
        alloc,
        Settings {
            cwd: Text::of(alloc, "/w")?,
            target: TargetEnv::Node,
            preserve_symlinks: false,
            node_modules: true,
            alias: IndexMap::new(alloc),
            ts: None,
            lock: Some(lock),
            conditions: None,
        },
    )
}

/// What an audit of the manifest in `/w` finds, a line each, and then how many bindings there are.
pub(crate) fn audited(
    alloc: Global,
    tree: &mut MemoryTree,
    project: &Project<'_>,
) -> Result<String, Fail> {
    let manifest = "/w/.pnp.cjs";
    if !is_clean(manifest) {
        return Err(Fail::from("the path isn't clean"));
    }
    let audit = audit(alloc, tree, project, manifest)?;
    Ok(lines_of(alloc, &audit)?)
}

fn lines_of(alloc: Global, audit: &Audit) -> Result<String, AllocError> {
    let mut lines = String::new(alloc);
    for finding in audit.findings.as_slice() {
        put_finding(alloc, &mut lines, finding)?;
    }
    put_count(alloc, &mut lines, audit.edges)?;
    Ok(lines)
}

fn put_finding(alloc: Global, lines: &mut String, finding: &Finding) -> Result<(), AllocError> {
    let told = told(alloc, &finding.fault)?;
    let Finding {
        owner,
        name,
        bound,
        ..
    } = finding;
    put_line(alloc, lines, owner, name.as_str(), bound, told.as_str())
}

// Why a binding is refused.
fn told(alloc: Global, fault: &EdgeFault) -> Result<String, AllocError> {
    match fault {
        EdgeFault::NotInRegistry => String::from_str(alloc, "not in registry"),
        EdgeFault::NotLocked => String::from_str(alloc, "not locked"),
        EdgeFault::MalformedPackage { path } => format!(in alloc; "malformed {path}"),
        EdgeFault::OutOfRange { range, version } => {
            format!(in alloc; "{version} out of [{range}]")
        }
    }
}

/// Puts a line: who binds which name to what, and why that is refused.
pub(crate) fn put_line(
    alloc: Global,
    lines: &mut String,
    owner: &PackageLocator,
    name: &str,
    bound: &PackageLocator,
    told: &str,
) -> Result<(), AllocError> {
    let owner = format!(in alloc; "{}@{}", owner.name, owner.reference)?;
    let bound = format!(in alloc; "{}@{}", bound.name, bound.reference)?;
    let line = format!(in alloc; "{owner} binds {name} to {bound}: {told}\n")?;
    lines.push_str(line.as_str())
}

/// Puts how many bindings there are.
pub(crate) fn put_count(alloc: Global, lines: &mut String, count: u64) -> Result<(), AllocError> {
    let line = format!(in alloc; "{count} bindings")?;
    lines.push_str(line.as_str())
}
