// A resolver that keeps the latest answers of another one.
ghost use Rattle.std.specs.Prelude.{◌≡◌, ◌<◌, ◌==◌, length, [], IfOk, IfErr, OnOk, OnErr, IsSome, None};
ghost use Rattle.swc_loader.specs.declared.resolution.Resolution.{Resolution as Answer};
ghost use Rattle.resolver_core.specs.Caching.{IsKept, kept_answer, kept_after};
ghost use Rattle.tree_core.specs.Resolving.{Resolves};
ghost use Rattle.tree_core.specs.RecorderView.{asking_of};
ghost use Rattle.resolver_core.specs.Resolving.{IsRefused};

use crate::Resolve;
use lru::LruCache;
use std::alloc::{AllocError, Global};
use std::num::NonZeroUsize;
use sugar_path::Text;
use swc_loader::{FileName, Resolution};
use tree_core::{Recorder, ResolveError, Tree};

/// How many answers a cache keeps where nothing else is said.
pub const DEFAULT_CAP: usize = 40;

/// A request whose answer is kept.
#[derive(Debug, Drop, PartialEq, Eq, Hash)]
pub struct CachedRequest {
    base: FileName,
    specifier: Text,
}

/// A resolver over an inner one, whose latest answers it keeps. What is kept is answered without a question.
#[derive(Drop)]
pub struct CachingResolver<R> {
    kept: LruCache<CachedRequest, Resolution>,
    inner: R,
}

impl<R> CachingResolver<R> {
    ghost use Rattle.resolver_core.specs.CacheParts.{kept_of, capacity_of, inner_of};

    /// A resolver that keeps at most this many answers of an inner one. Where no memory is found, the inner resolver
    /// comes back.
    pub fn new(alloc: Global, cap: usize, inner: R) -> Result<CachingResolver<R>, (R, AllocError)>
        requires some { 0 < cap }
        ensures kept { IfOk result (λ r. kept_of r ≡ []) }
        ensures capacity { IfOk result (λ r. capacity_of r ≡ cap) }
        ensures inner { IfOk result (λ r. inner_of r ≡ inner) }
        ensures back { IfErr result (λ e. e.0 ≡ inner) }
    {
        let cap = NonZeroUsize::new(cap).unwrap();
        match LruCache::new(alloc, cap) {
            Ok(kept) => Ok(CachingResolver { kept, inner }),
            Err(e) => Err((inner, e)),
        }
    }

    /// How many answers are kept: at most as many as may be, each of a request of its own.
    pub fn len(&self) -> usize
        ensures len { result ≡ length (kept_of self.now) }
        ensures kept { IsKept (capacity_of self.now) (kept_of self.now) }
    {
        self.kept.len()
    }

    /// Whether no answer is kept.
    pub fn is_empty(&self) -> bool
        ensures { result ≡ (length (kept_of self.now) == 0) }
    {
        self.kept.is_empty()
    }
}

impl<R: Resolve> Resolve for CachingResolver<R> {
    ghost use Rattle.resolver_core.specs.Caching.{CacheView, caching_order, request};
    ghost use Rattle.resolver_core.specs.CacheParts.{kept_of, capacity_of, inner_of};

    type Refusal = R::Refusal;

    ghost View = { CacheView R.View };

    ghost view = { λ r. record {
      kept = kept_of r;
      capacity = capacity_of r;
      inner = R.view (inner_of r);
    } };

    ghost order = { λ v. caching_order (R.order v.inner) v.kept };

    /// What is kept, or else the inner resolver's answer, which is then kept.
    fn resolve<T: Tree>(
        &mut self,
        alloc: Global,
        tree: &mut Recorder<'_, T>,
        base: &FileName,
        specifier: &str,
    ) -> Result<Resolution, ResolveError<R::Refusal>>
        ensures resolves { Resolves (asking_of tree.old) (asking_of tree.new) result
            (caching_order (R.order (R.view (inner_of self.old))) (kept_of self.old)
            base.now specifier.now) }
        ensures refused { IsRefused result → R.view (inner_of self.new) ≡ R.view (inner_of self.old) }
        // After an answer, that answer stands in front; else the list stays as it was.
        ensures front { IfOk result (λ answer. kept_of self.new ≡ kept_after (capacity_of self.old)
            (request base.now specifier.now) answer (kept_of self.old)) }
        ensures others { OnErr result (kept_of self.new ≡ kept_of self.old) }
        ensures capacity { capacity_of self.new ≡ capacity_of self.old }
        // Where the answer is kept, the inner resolver stays as it was.
        ensures hit { IsSome (kept_answer (kept_of self.old) (request base.now specifier.now)) →
            inner_of self.new ≡ inner_of self.old }
    {
        let request = CachedRequest {
            base: base.try_clone(alloc)?,
            specifier: Text::of(alloc, specifier)?,
        };
        if let Some(answer) = answer_of(alloc, &self.kept, &request)? {
            move_first(&mut self.kept, &request);
            return Ok(answer);
        }
        let outcome = self.inner.resolve(alloc, tree, base, specifier);
        let answer = outcome?;
        let copy = answer.try_clone(alloc)?;
        put_first(&mut self.kept, request, copy)?;
        Ok(answer)
    }
}

// A copy of the answer that is kept for a request.
fn answer_of(
    alloc: Global,
    kept: &LruCache<CachedRequest, Resolution>,
    request: &CachedRequest,
) -> Result<Option<Resolution>, AllocError>
    ensures { IfOk result (λ answer. answer ≡ kept_answer kept.now.entries request.now) }
{
    match kept.peek(request) {
        Some(answer) => Ok(Some(answer.try_clone(alloc)?)),
        None => Ok(None),
    }
}

// A kept answer moves to the front.
fn move_first(kept: &mut LruCache<CachedRequest, Resolution>, request: &CachedRequest)
    requires { IsSome (kept_answer kept.old.entries request.now) }
    ensures moved { (answer : Answer) → kept.new.entries
        ≡ kept_after kept.old.cap request.now answer kept.old.entries }
    ensures capacity { kept.new.cap ≡ kept.old.cap }
{
    let _there = kept.promote(request);
}

// A new answer is put in front.
fn put_first(
    kept: &mut LruCache<CachedRequest, Resolution>,
    request: CachedRequest,
    answer: Resolution,
) -> Result<(), AllocError>
    requires { kept_answer kept.old.entries request ≡ None }
    ensures put { OnOk result (kept.new.entries
        ≡ kept_after kept.old.cap request answer kept.old.entries) }
    ensures same { OnErr result (kept.new ≡ kept.old) }
    ensures capacity { kept.new.cap ≡ kept.old.cap }
{
    match kept.put(request, answer) {
        Ok(_) => Ok(()),
        Err(_) => Err(AllocError),
    }
}
