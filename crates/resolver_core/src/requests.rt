// How requests are mapped: by which inner requests, and how each ends.
ghost use Rattle.std.specs.Prelude.{◌≡◌, IfOk, OnErr, IsTrue, map};
ghost use Rattle.std.specs.Option.{option_copied};
ghost use Rattle.tree_core.specs.Asks.{Asks};
ghost use Rattle.tree_core.specs.RecorderView.{asking_of};
ghost use Rattle.swc_loader.specs.declared.resolution.FileName.TheVariants.{Real};
ghost use Rattle.resolver_core.specs.Mapping.{Last, Passed, OrFault, plain, by_mapped, by_exact, by_wildcard};
ghost use Rattle.resolver_core.specs.Mapping.{by_only_target, by_base_folder, tries_of, with_rest};
ghost use Rattle.resolver_core.specs.Mapping.{mapping_order, passed, unchecked};
ghost use Rattle.resolver_core.specs.Pattern.{matches_wildcard};

use crate::lookups::Patterns;
use crate::texts::{here, is_passed, joined, last_part, slug_of, with_rest};
use crate::tries::{MappedRequest, by_target, each_target, inner_request};
use crate::{Pattern, Resolve, TsRefusal, Wildcard};
use std::alloc::{AllocError, Global};
use sugar_path::Text;
use swc_loader::{FileName, Resolution};
use tree_core::{ReadError, Recorder, Tree};

// What a request comes to by a mapping.
pub(crate) fn map_request<R: Resolve, T: Tree>(
    alloc: Global,
    tree: &mut Recorder<'_, T>,
    inner: &mut R,
    patterns: &Patterns,
    request: &MappedRequest<'_>,
) -> Result<Result<Resolution, TsRefusal<R::Refusal>>, ReadError>
where
    R::Refusal: Drop,
    requires { request.now.folder.now ≡ Real request.now.base_url.now }
    ensures asks { Asks (asking_of tree.old) (asking_of tree.new) result
        (mapping_order (R.order (R.view inner.old))
        (record { base_url = request.now.base_url.now; version = request.now.version; patterns = patterns.now })
        request.now.base.now request.now.specifier.now) }
    ensures refused { IfOk result (λ r. OnErr r (R.view inner.new ≡ R.view inner.old)) }
{
    if is_passed(request.base, request.specifier) {
        return as_it_is(alloc, tree, inner, request);
    }
    match patterns.deciding(request.version, request.specifier) {
        Some(Pattern::Exact { target, .. }) => {
            by_exact(alloc, tree, inner, request, target.as_str())
        }
        Some(Pattern::Starred(wildcard)) => by_wildcard(alloc, tree, inner, request, wildcard),
        None => by_base_folder(alloc, tree, inner, request),
    }
}

// An exact pattern: its target from the base folder, and else the target's path, which nothing checks.
fn by_exact<R: Resolve, T: Tree>(
    alloc: Global,
    tree: &mut Recorder<'_, T>,
    inner: &mut R,
    request: &MappedRequest<'_>,
    target: &str,
) -> Result<Result<Resolution, TsRefusal<R::Refusal>>, ReadError>
where
    R::Refusal: Drop,
    requires { request.now.folder.now ≡ Real request.now.base_url.now }
    ensures asks { Asks (asking_of tree.old) (asking_of tree.new) result
        (by_mapped (R.order (R.view inner.old)) (by_exact request.now.base_url.now target.now)) }
    ensures refused { IfOk result (λ r. OnErr r (R.view inner.new ≡ R.view inner.old)) }
{
    let slug = copied(alloc, slug_of(target))?;
    if target.starts_with('/') {
        let path = Text::of(alloc, target)?;
        return Ok(Ok(unchecked(path, slug)));
    }
    let relative = here(alloc, target)?;
    let tried = inner_request(alloc, tree, inner, request.folder, relative.as_str())?;
    match tried {
        Ok(found) => Ok(Ok(Resolution { slug, ..found })),
        Err(_) => {
            let path = joined(alloc, request.base_url, target)?;
            Ok(Ok(unchecked(path, slug)))
        }
    }
}

// A wildcard: each `*` of its targets is replaced by the specifier's rest.
fn by_wildcard<R: Resolve, T: Tree>(
    alloc: Global,
    tree: &mut Recorder<'_, T>,
    inner: &mut R,
    request: &MappedRequest<'_>,
    wildcard: &Wildcard,
) -> Result<Result<Resolution, TsRefusal<R::Refusal>>, ReadError>
where
    R::Refusal: Drop,
    requires { IsTrue (matches_wildcard request.now.version request.now.specifier.now wildcard.now) }
    ensures asks { Asks (asking_of tree.old) (asking_of tree.new) result
        (by_mapped (R.order (R.view inner.old)) (by_wildcard request.now.version request.now.folder.now
        request.now.base.now request.now.specifier.now wildcard.now)) }
    ensures refused { IfOk result (λ r. OnErr r (R.view inner.new ≡ R.view inner.old)) }
{
    let rest = wildcard.rest_of(request.version, request.specifier);
    match wildcard.targets.as_slice() {
        [target] if !wildcard.prefix.as_str().is_empty() => {
            by_only_target(alloc, tree, inner, request, rest, target.as_str())
        }
        _ => by_each_target(alloc, tree, inner, request, rest, wildcard),
    }
}

// The only target of a wildcard with a text before its `*`: where its tries fail, its path, which nothing checks.
fn by_only_target<R: Resolve, T: Tree>(
    alloc: Global,
    tree: &mut Recorder<'_, T>,
    inner: &mut R,
    request: &MappedRequest<'_>,
    rest: &str,
    target: &str,
) -> Result<Result<Resolution, TsRefusal<R::Refusal>>, ReadError>
where
    R::Refusal: Drop,
    ensures asks { Asks (asking_of tree.old) (asking_of tree.new) result
        (by_mapped (R.order (R.view inner.old)) (by_only_target request.now.folder.now
        request.now.base.now request.now.specifier.now (with_rest rest.now target.now))) }
    ensures refused { IfOk result (λ r. OnErr r (R.view inner.new ≡ R.view inner.old)) }
{
    let path = with_rest(alloc, rest, target)?;
    let tried = by_target(alloc, tree, inner, request, path.as_str())?;
    match tried {
        Ok(found) => Ok(Ok(found)),
        Err(_) => {
            let slug = Text::of(alloc, last_part(path.as_str()))?;
            Ok(Ok(unchecked(path, Some(slug))))
        }
    }
}

// Any targets of a wildcard: where the tries of all fail, the refusal of each one's last.
fn by_each_target<R: Resolve, T: Tree>(
    alloc: Global,
    tree: &mut Recorder<'_, T>,
    inner: &mut R,
    request: &MappedRequest<'_>,
    rest: &str,
    wildcard: &Wildcard,
) -> Result<Result<Resolution, TsRefusal<R::Refusal>>, ReadError>
where
    R::Refusal: Drop,
    ensures asks { Asks (asking_of tree.old) (asking_of tree.new) result
        (by_mapped (R.order (R.view inner.old)) (OrFault wildcard.now.text (map (tries_of
        request.now.folder.now request.now.base.now request.now.specifier.now)
        (map (with_rest rest.now) wildcard.now.targets)))) }
    ensures refused { IfOk result (λ r. OnErr r (R.view inner.new ≡ R.view inner.old)) }
{
    let tried = each_target(
        alloc,
        tree,
        inner,
        request,
        rest,
        wildcard.targets.as_slice(),
    )?;
    match tried {
        Ok(found) => Ok(Ok(found)),
        Err(refusals) => {
            let pattern = wildcard.text.try_clone(alloc)?;
            Ok(Err(TsRefusal::TsFault {
                pattern,
                inner: refusals,
            }))
        }
    }
}

// No pattern stands for the specifier: it is tried behind the base folder, unless it begins with a dot, and then as it
// is.
fn by_base_folder<R: Resolve, T: Tree>(
    alloc: Global,
    tree: &mut Recorder<'_, T>,
    inner: &mut R,
    request: &MappedRequest<'_>,
) -> Result<Result<Resolution, TsRefusal<R::Refusal>>, ReadError>
where
    R::Refusal: Drop,
    ensures asks { Asks (asking_of tree.old) (asking_of tree.new) result
        (by_mapped (R.order (R.view inner.old)) (by_base_folder request.now.base_url.now
        request.now.base.now request.now.specifier.now)) }
    ensures refused { IfOk result (λ r. OnErr r (R.view inner.new ≡ R.view inner.old)) }
{
    if request.specifier.starts_with('.') {
        return as_it_is(alloc, tree, inner, request);
    }
    let path = joined(alloc, request.base_url, request.specifier)?;
    let tried = inner_request(alloc, tree, inner, request.base, path.as_str())?;
    match tried {
        Ok(found) => Ok(Ok(found)),
        Err(_) => as_it_is(alloc, tree, inner, request),
    }
}

// The request as it is, whose refusal is the last.
fn as_it_is<R: Resolve, T: Tree>(
    alloc: Global,
    tree: &mut Recorder<'_, T>,
    inner: &mut R,
    request: &MappedRequest<'_>,
) -> Result<Result<Resolution, TsRefusal<R::Refusal>>, ReadError>
    ensures asks { Asks (asking_of tree.old) (asking_of tree.new) result
        (by_mapped (R.order (R.view inner.old))
        (Passed (Last (plain request.now.base.now request.now.specifier.now)))) }
    ensures refused { IfOk result (λ r. OnErr r (R.view inner.new ≡ R.view inner.old)) }
{
    let tried = inner_request(alloc, tree, inner, request.base, request.specifier)?;
    Ok(passed(tried))
}

// What an inner request comes to where no pattern stands for the specifier.
fn passed<X>(tried: Result<Resolution, X>) -> Result<Resolution, TsRefusal<X>>
    ensures { result ≡ passed tried }
{
    match tried {
        Ok(found) => Ok(found),
        Err(refusal) => Err(TsRefusal::Inner(refusal)),
    }
}

// An answer by a path that nothing checks.
fn unchecked(path: Text, slug: Option<Text>) -> Resolution
    ensures { result ≡ unchecked path slug }
{
    Resolution {
        filename: FileName::Real(path),
        slug,
        found: None,
    }
}

fn copied(alloc: Global, text: Option<&str>) -> Result<Option<Text>, AllocError>
    ensures { IfOk result (λ copy. copy ≡ option_copied text.entry) }
{
    match text {
        Some(text) => Ok(Some(Text::of(alloc, text)?)),
        None => Ok(None),
    }
}
