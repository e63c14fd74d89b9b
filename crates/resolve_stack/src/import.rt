// The top call: the verdict of a request over any tree, with the trail that decides it.
ghost use Rattle.std.specs.Prelude.{◌≡◌};
ghost use Rattle.tree_core.specs.Asks.{Asks, seen};
ghost use Rattle.tree_core.specs.RecorderView.{asking_of};
ghost use Rattle.tree_core.specs.Resolving.{Resolves, resolving};
ghost use Rattle.resolve_stack.specs.Known.{AreRight, project_order_by, verdict_by};
ghost use Rattle.resolve_stack.specs.Verdict.{verdict};
ghost use Rattle.resolve_stack.specs.OrderParts.{raised_result};
ghost use Rattle.resolve_stack.specs.Decides.{Decides};
ghost use Rattle.resolve_stack.specs.Request.{asked_for, request_of};
ghost use Rattle.resolver_core.specs.declared.refusal.TsRefusal.TheVariants.{Inner};

use crate::join::join;
use crate::pnp_resolver::{KnownJoin, KnownProject};
use crate::request::Request;
use crate::{JoinRefusal, KeptReadings, Outcome, Project, Refusal, Resolver, Verdict};
use resolver_core::TsRefusal;
use std::alloc::Global;
use swc_loader::{FileName, Resolution};
use thiserror::Error;
use tree_core::{ReadError, Recorder, ResolveError, Tree};

/// Why there is no verdict.
#[derive(Clone, Copy, Debug, PartialEq, Eq, Error)]
pub enum ImportError {
    /// A question to the tree failed.
    #[error("a question to the tree failed")]
    TreeFault,
    /// No memory was found.
    #[error("no memory was found")]
    NoMemory,
}

impl From<ReadError> for ImportError {
    ghost use Rattle.std.specs.Prelude.{◌≡◌};
    ghost use Rattle.resolve_stack.specs.ImportFault.{import_error};

    ghost from_gives = { λ r e. e ≡ import_error r };

    fn from(e: ReadError) -> Self {
        match e {
            ReadError::Fault => ImportError::TreeFault,
            ReadError::NoMemory => ImportError::NoMemory,
        }
    }
}

/// Which file a specifier means, asked from an importer of the project: the verdict of the order of search, with the
/// trail that decides it.
pub fn resolve_import<T: Tree>(
    alloc: Global,
    tree: &mut T,
    project: &Project<'_>,
    importer: &FileName,
    specifier: &str,
) -> Result<Outcome, ImportError>
    ensures { Decides project.now (asked_for importer.now specifier.now)
        (T.state tree.old) (T.state tree.new) result }
{
    Resolver::new(alloc, project).resolve_import(alloc, tree, importer, specifier)
}

/// The outcome of a request, with what earlier requests, of any project over any tree, have read. That changes no
/// answer and no trail.
pub fn resolve_import_with<T: Tree>(
    alloc: Global,
    tree: &mut T,
    project: &Project<'_>,
    kept: &mut KeptReadings,
    importer: &FileName,
    specifier: &str,
) -> Result<Outcome, ImportError>
    ensures { Decides project.now (asked_for importer.now specifier.now)
        (T.state tree.old) (T.state tree.new) result }
{
    let nothing = Vec::new(alloc);
    let known = KnownProject {
        project,
        known: nothing.as_slice(),
    };
    let request = Request {
        importer,
        specifier,
    };
    import_by(alloc, tree, &known, kept, &request)
}

// The outcome of a request, where manifests are known of a tree that is stood for.
pub(crate) fn import_by<T: Tree>(
    alloc: Global,
    tree: &mut T,
    known: &KnownProject<'_, '_, '_>,
    kept: &mut KeptReadings,
    request: &Request<'_>,
) -> Result<Outcome, ImportError>
    requires { AreRight (T.state tree.old).stands_for known.now.known.now }
    ensures { Decides known.now.project.now (request_of request.now)
        (T.state tree.old) (T.state tree.new) result }
{
    let mut recorder = Recorder::new(alloc, tree);
    let decided = decide_with(alloc, &mut recorder, known, kept, request);
    let (trail, tree) = recorder.into_parts();
    let _end = tree;
    Ok(Outcome {
        verdict: decided?,
        trail,
    })
}

// How the request ends, where nothing is kept.
pub(crate) fn decide<T: Tree>(
    alloc: Global,
    tree: &mut Recorder<'_, T>,
    project: &Project<'_>,
    request: &Request<'_>,
) -> Result<Verdict, ReadError>
    ensures { Asks (asking_of tree.old) (asking_of tree.new) result
        (verdict project.now (request_of request.now)) }
{
    let nothing = Vec::new(alloc);
    let known = KnownProject {
        project,
        known: nothing.as_slice(),
    };
    decide_by(alloc, tree, &known, &mut KeptReadings::new(alloc), request)
}

// How the request ends, which known manifests of a tree that is stood for don't change.
fn decide_with<T: Tree>(
    alloc: Global,
    tree: &mut Recorder<'_, T>,
    known: &KnownProject<'_, '_, '_>,
    kept: &mut KeptReadings,
    request: &Request<'_>,
) -> Result<Verdict, ReadError>
    requires { AreRight (asking_of tree.old).tree.stands_for known.now.known.now }
    ensures { Asks (asking_of tree.old) (asking_of tree.new) result
        (verdict known.now.project.now (request_of request.now)) }
{
    decide_by(alloc, tree, known, kept, request)
}

// How the request ends: a refusal of the order is a verdict too.
fn decide_by<T: Tree>(
    alloc: Global,
    tree: &mut Recorder<'_, T>,
    known: &KnownProject<'_, '_, '_>,
    kept: &mut KeptReadings,
    request: &Request<'_>,
) -> Result<Verdict, ReadError>
    ensures { Asks (asking_of tree.old) (asking_of tree.new) result
        (verdict_by known.now.known.now known.now.project.now (request_of request.now)) }
{
    match by_order(alloc, tree, known, kept, request) {
        Ok(resolution) => Ok(Verdict::Answered(resolution)),
        Err(error) => Ok(Verdict::Refused(error.refusal()?)),
    }
}

// What the request comes to: the join, behind the mapping where the project has one.
fn by_order<T: Tree>(
    alloc: Global,
    tree: &mut Recorder<'_, T>,
    known: &KnownProject<'_, '_, '_>,
    kept: &mut KeptReadings,
    request: &Request<'_>,
) -> Result<Resolution, ResolveError<Refusal>>
    ensures { Resolves (asking_of tree.old) (asking_of tree.new) result
        (project_order_by known.now.known.now known.now.project.now (request_of request.now)) }
{
    match known.project.mapping() {
        Some(mapping) => {
            let mut inner = KnownJoin::of(*known, kept);
            mapping.resolve(alloc, tree, &mut inner, request.importer, request.specifier)
        }
        None => inner_refusal(join(alloc, tree, known, kept, request)),
    }
}

// A result of the join, whose refusals are those of an inner request.
fn inner_refusal(
    found: Result<Resolution, ResolveError<JoinRefusal>>,
) -> Result<Resolution, ResolveError<Refusal>>
    ensures { seen resolving result ≡ raised_result Inner (seen resolving found) }
{
    match found {
        Ok(resolution) => Ok(resolution),
        Err(error) => Err(error.map_refused(of_inner)),
    }
}

// A refusal of the join, as that of an inner request.
fn of_inner(refusal: JoinRefusal) -> Refusal
    ensures { result ≡ Inner refusal }
{
    TsRefusal::Inner(refusal)
}
