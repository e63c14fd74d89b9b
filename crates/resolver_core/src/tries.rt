// The inner requests of a mapping.
ghost use Rattle.std.specs.Prelude.{◌≡◌, ◌≢◌, [], map, IfOk, OnErr, length, drop};
ghost use Rattle.tree_core.specs.Asks.{Asks, seen};
ghost use Rattle.tree_core.specs.Resolving.{resolving};
ghost use Rattle.tree_core.specs.RecorderView.{asking_of};
ghost use Rattle.resolver_core.specs.Mapping.{plain, masked, tried, tries_of, first_success, each_target, with_rest};

use crate::Resolve;
use crate::texts::{here, is_in_modules, with_rest};
use std::alloc::{AllocError, Global};
use sugar_path::{List, Text};
use swc_loader::{FileName, Resolution, TsVersion};
use tree_core::{ReadError, Recorder, ResolveError, Tree};

// A request to a mapping, the version of its settings, and its base folder, as a text and as a base.
#[derive(Clone, Copy)]
pub(crate) struct MappedRequest<'r> {
    pub base: &'r FileName,
    pub specifier: &'r str,
    pub version: TsVersion,
    pub base_url: &'r str,
    pub folder: &'r FileName,
}

// What a search comes to, an answer or a refusal, unless it broke off.
fn settled<A, X>(outcome: Result<A, ResolveError<X>>) -> Result<Result<A, X>, ReadError>
    ensures { result ≡ seen resolving outcome }
{
    match outcome {
        Ok(answer) => Ok(Ok(answer)),
        Err(e) => Ok(Err(e.refusal()?)),
    }
}

// An inner request, whose answer is masked.
pub(crate) fn inner_request<R: Resolve, T: Tree>(
    alloc: Global,
    tree: &mut Recorder<'_, T>,
    inner: &mut R,
    base: &FileName,
    specifier: &str,
) -> Result<Result<Resolution, R::Refusal>, ReadError>
    ensures asks { Asks (asking_of tree.old) (asking_of tree.new) result
        (tried (R.order (R.view inner.old)) (plain base.now specifier.now)) }
    ensures refused { IfOk result (λ r. OnErr r (R.view inner.new ≡ R.view inner.old)) }
{
    let outcome = inner.resolve(alloc, tree, base, specifier);
    match settled(outcome)? {
        Ok(found) => Ok(Ok(masked(alloc, base, specifier, found)?)),
        Err(refusal) => Ok(Err(refusal)),
    }
}

// An answer in `node_modules` to a base outside is named by the specifier.
fn masked(
    alloc: Global,
    base: &FileName,
    specifier: &str,
    found: Resolution,
) -> Result<Resolution, AllocError>
    ensures { IfOk result (λ r. r ≡ masked base.now specifier.now found) }
{
    if !is_in_modules(&found.filename) || is_in_modules(base) {
        return Ok(found);
    }
    let filename = FileName::Real(Text::of(alloc, specifier)?);
    Ok(Resolution { filename, ..found })
}

// The tries of a wildcard's target: the request as it is, and then the target from the base folder.
pub(crate) fn by_target<R: Resolve, T: Tree>(
    alloc: Global,
    tree: &mut Recorder<'_, T>,
    inner: &mut R,
    request: &MappedRequest<'_>,
    target: &str,
) -> Result<Result<Resolution, R::Refusal>, ReadError>
where
    R::Refusal: Drop,
    ensures asks { Asks (asking_of tree.old) (asking_of tree.new) result
        (first_success (R.order (R.view inner.old)) (tries_of request.now.folder.now
        request.now.base.now request.now.specifier.now target.now)) }
    ensures refused { IfOk result (λ r. OnErr r (R.view inner.new ≡ R.view inner.old)) }
{
    let as_it_is = inner_request(alloc, tree, inner, request.base, request.specifier)?;
    match as_it_is {
        Ok(found) => return Ok(Ok(found)),
        Err(_) => {}
    }
    let relative = here(alloc, target)?;
    let from_folder = inner_request(alloc, tree, inner, request.folder, relative.as_str())?;
    match from_folder {
        Ok(found) => return Ok(Ok(found)),
        Err(_) => {}
    }
    inner_request(alloc, tree, inner, request.folder, target)
}

// The first success of a wildcard's targets, or the refusal of each one's last try.
pub(crate) fn each_target<R: Resolve, T: Tree>(
    alloc: Global,
    tree: &mut Recorder<'_, T>,
    inner: &mut R,
    request: &MappedRequest<'_>,
    rest: &str,
    targets: &[Text],
) -> Result<Result<Resolution, List<R::Refusal>>, ReadError>
where
    R::Refusal: Drop,
    ensures asks { Asks (asking_of tree.old) (asking_of tree.new) result
        (each_target (R.order (R.view inner.old)) (map (tries_of request.now.folder.now
        request.now.base.now request.now.specifier.now) (map (with_rest rest.now) targets.now))) }
    ensures refused { IfOk result (λ r. OnErr r (R.view inner.new ≡ R.view inner.old)) }
{
    let mut refusals = List::new(alloc);
    for target in targets {
        let path = with_rest(alloc, rest, target.as_str())?;
        let tried = by_target(alloc, tree, inner, request, path.as_str())?;
        match tried {
            Ok(found) => return Ok(Ok(found)),
            Err(refusal) => {
                if refusals.push(refusal).is_err() {
                    return Err(ReadError::NoMemory);
                }
            }
        }
    }
    Ok(Err(refusals))
}
