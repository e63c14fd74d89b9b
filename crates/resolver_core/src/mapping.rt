// The mapping of TypeScript's `paths` and `baseUrl` in front of any resolver.
ghost use Rattle.std.specs.Prelude.{◌≡◌, IfOk, IfErr, Ok, Err};
ghost use Rattle.tree_core.specs.RecorderView.{asking_of};
ghost use Rattle.tree_core.specs.Resolving.{Resolves};
ghost use Rattle.swc_loader.specs.declared.resolution.FileName.TheVariants.{Real};
ghost use Rattle.swc_loader.specs.declared.ts_version.TsVersion.TheVariants.{V1};
ghost use Rattle.resolver_core.specs.Mapping.{mapping_order};
ghost use Rattle.resolver_core.specs.Pattern.{IsReadAs, patterns_of};
ghost use Rattle.resolver_core.specs.Resolving.{IsRefused};

use crate::lookups::Patterns;
use crate::pattern::read_patterns;
use crate::requests::map_request;
use crate::tries::MappedRequest;
use crate::{Resolve, TsError, TsRefusal};
use std::alloc::Global;
use std::marker::Model;
use sugar_path::{List, Text};
use swc_loader::{FileName, Resolution, TsVersion};
use tree_core::{Recorder, ResolveError, Tree};

/// A mapping: the `paths` of a tsconfig, the version by which they are read, and its `baseUrl`. It can be put in front
/// of any resolver.
#[derive(Drop)]
pub struct Mapping {
    base_url: Text,
    // the base folder, as the base of a request
    folder: FileName,
    version: TsVersion,
    patterns: Patterns,
}

impl Model for Mapping {
    ghost use Rattle.std.specs.Prelude.{◌≡◌};
    ghost use Rattle.swc_loader.specs.declared.resolution.FileName.TheVariants.{Real};
    ghost use Rattle.resolver_core.specs.Mapping as specs;

    ghost Value = { specs.Mapping };

    ghost view = { λ m. record { base_url = m.base_url; version = m.version; patterns = m.patterns } };

    ghost invariant = { λ m. m.folder ≡ Real m.base_url };
}

impl Mapping {
    /// A mapping by a base folder, patterns, each with its targets, and a version; or the first cause for which a
    /// pattern is refused, in the order of the patterns. The version refuses nothing.
    pub fn new(
        alloc: Global,
        base_url: Text,
        paths: List<(Text, List<Text>)>,
        version: TsVersion,
    ) -> Result<Mapping, TsError>
        ensures patterns { IfOk result (λ m. patterns_of paths ≡ Ok m.patterns) }
        ensures base { IfOk result (λ m. m.base_url ≡ base_url) }
        ensures version { IfOk result (λ m. m.version ≡ version) }
        ensures refused { IfErr result (λ e. IsReadAs (Err e) (patterns_of paths)) }
    {
        let given = read_patterns(alloc, paths)?;
        let patterns = Patterns::new(alloc, given)?;
        let folder = FileName::Real(base_url.try_clone(alloc)?);
        Ok(Mapping {
            base_url,
            folder,
            version,
            patterns,
        })
    }

    /// What a request comes to by the mapping, in front of a resolver.
    pub fn resolve<R: Resolve, T: Tree>(
        &self,
        alloc: Global,
        tree: &mut Recorder<'_, T>,
        inner: &mut R,
        base: &FileName,
        specifier: &str,
    ) -> Result<Resolution, ResolveError<TsRefusal<R::Refusal>>>
    where
        R::Refusal: Drop,
        ensures resolves { Resolves (asking_of tree.old) (asking_of tree.new) result
            (mapping_order (R.order (R.view inner.old)) self.now base.now specifier.now) }
        // A refusal leaves the resolver behind it as it was.
        ensures refused { IsRefused result → R.view inner.new ≡ R.view inner.old }
    {
        let request = MappedRequest {
            base,
            specifier,
            version: self.version,
            base_url: self.base_url.as_str(),
            folder: &self.folder,
        };
        let outcome = map_request(alloc, tree, inner, &self.patterns, &request)?;
        match outcome {
            Ok(found) => Ok(found),
            Err(refusal) => Err(ResolveError::Refused(refusal)),
        }
    }
}

/// A resolver by the `paths` and the `baseUrl` of a tsconfig, over another one: a request for which a pattern stands
/// is asked for by the pattern's targets, from the base folder.
#[derive(Drop)]
pub struct TsConfigResolver<R> {
    inner: R,
    mapping: Mapping,
}

impl<R> TsConfigResolver<R> {
    ghost use Rattle.resolver_core.specs.MappingView.{mapping_of, inner_of};

    /// A resolver over an inner one, with a base folder and patterns, each with its targets, by settings of version 1.
    /// Where the patterns are refused, the inner resolver comes back.
    pub fn new(
        alloc: Global,
        inner: R,
        base_url: Text,
        paths: List<(Text, List<Text>)>,
    ) -> Result<TsConfigResolver<R>, (R, TsError)>
        ensures patterns { IfOk result (λ r. patterns_of paths ≡ Ok (mapping_of r).patterns) }
        ensures base { IfOk result (λ r. (mapping_of r).base_url ≡ base_url) }
        ensures version { IfOk result (λ r. (mapping_of r).version ≡ V1) }
        ensures inner { IfOk result (λ r. inner_of r ≡ inner) }
        // The first cause in the order of the patterns, unless memory is wanting.
        ensures refused { IfErr result (λ e. IsReadAs (Err e.1) (patterns_of paths)) }
        ensures back { IfErr result (λ e. e.0 ≡ inner) }
    {
        TsConfigResolver::new_versioned(alloc, inner, base_url, paths, TsVersion::V1)
    }

    /// A resolver as by `new`, by settings of this version.
    pub fn new_versioned(
        alloc: Global,
        inner: R,
        base_url: Text,
        paths: List<(Text, List<Text>)>,
        version: TsVersion,
    ) -> Result<TsConfigResolver<R>, (R, TsError)>
        ensures patterns { IfOk result (λ r. patterns_of paths ≡ Ok (mapping_of r).patterns) }
        ensures base { IfOk result (λ r. (mapping_of r).base_url ≡ base_url) }
        ensures version { IfOk result (λ r. (mapping_of r).version ≡ version) }
        ensures inner { IfOk result (λ r. inner_of r ≡ inner) }
        // The first cause in the order of the patterns, unless memory is wanting.
        ensures refused { IfErr result (λ e. IsReadAs (Err e.1) (patterns_of paths)) }
        ensures back { IfErr result (λ e. e.0 ≡ inner) }
    {
        match Mapping::new(alloc, base_url, paths, version) {
            Ok(mapping) => Ok(TsConfigResolver { inner, mapping }),
            Err(e) => Err((inner, e)),
        }
    }
}

impl<R: Resolve> Resolve for TsConfigResolver<R>
where
    R::Refusal: Drop,
{
    ghost use Rattle.resolver_core.specs.Mapping.{MappingView, mapping_order};
    ghost use Rattle.resolver_core.specs.MappingView.{mapping_of, inner_of};

    type Refusal = TsRefusal<R::Refusal>;

    ghost View = { MappingView R.View };

    ghost view = { λ r. record { inner = R.view (inner_of r); mapping = mapping_of r } };

    ghost order = { λ v. mapping_order (R.order v.inner) v.mapping };

    fn resolve<T: Tree>(
        &mut self,
        alloc: Global,
        tree: &mut Recorder<'_, T>,
        base: &FileName,
        specifier: &str,
    ) -> Result<Resolution, ResolveError<TsRefusal<R::Refusal>>> {
        self.mapping
            .resolve(alloc, tree, &mut self.inner, base, specifier)
    }
}
