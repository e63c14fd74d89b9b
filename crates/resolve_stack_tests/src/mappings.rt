// The join as a resolver, alone and behind a mapping and a cache.
use crate::project::{file_of, importer, project_by, tree_of, ts_of};
use resolve_stack::{PnpResolver, Project, Resolve};
use resolver_core::{CachingResolver, TsConfigResolver};
use std::alloc::{AllocError, Global};
use std::test::Fail;
use tree_core::{MemoryTree, Recorder};

// Whether a resolver finds a file; it is the empty text for a refusal.
fn finds<R: Resolve>(
    alloc: Global,
    resolver: &mut R,
    specifier: &str,
    file: &str,
) -> Result<bool, Fail>
where
    R::Refusal: Drop,
{
    let mut tree = tree_of(alloc)?;
    let mut recorder = Recorder::new(alloc, &mut tree);
    Ok(finds_on(alloc, &mut recorder, resolver, specifier, file)?)
}

fn finds_on<R: Resolve>(
    alloc: Global,
    recorder: &mut Recorder<'_, MemoryTree>,
    resolver: &mut R,
    specifier: &str,
    file: &str,
) -> Result<bool, AllocError>
where
    R::Refusal: Drop,
{
    let base = importer(alloc)?;
    match resolver.resolve(alloc, recorder, &base, specifier) {
        Ok(answer) => Ok(file_of(&answer) == file),
        Err(_) => Ok(file.is_empty()),
    }
}

// The project's own mapping is left aside.
fn is_refused_by_the_join(alloc: Global, project: &Project<'_>) -> Result<bool, Fail> {
    let mut join = PnpResolver::of(alloc, project);
    finds(alloc, &mut join, "q", "")
}

// Another mapping, or a cache, can be put in front of it.
fn is_found_by_a_cache(alloc: Global, project: &Project<'_>) -> Result<bool, Fail> {
    let ts = ts_of(alloc, "/w", "x/*:foo")?;
    let join = PnpResolver::of(alloc, project);
    let Ok(mapped) = TsConfigResolver::new(alloc, join, ts.base_url, ts.paths) else {
        return Err(Fail::from("no mapping"));
    };
    let Ok(mut kept) = CachingResolver::new(alloc, 2, mapped) else {
        return Err(Fail::from("no memory"));
    };
    finds(alloc, &mut kept, "x/y", "/w/one/index.js")
}

#[test]
fn the_join_is_a_resolver(rt: HostRuntime) -> Result<(), Fail> {
    let ts = ts_of(rt.alloc(), "/w", "q:/elsewhere/q.js")?;
    let project = project_by(rt.alloc(), "/w", Some(ts), None)?;
    assert!(rt; is_refused_by_the_join(rt.alloc(), &project)?);
    assert!(rt; is_found_by_a_cache(rt.alloc(), &project)?);
    Ok(())
}
