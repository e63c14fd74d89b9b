// Where a bare specifier leads, by the manifest that a closure finds.
ghost use Rattle.std.specs.Prelude.{◌≡◌};
ghost use Rattle.std.specs.Fn.{FnReturnsAt};
ghost use Rattle.sugar_path.specs.Path.{IsCleanPath};
ghost use Rattle.pnp_core.specs.Unqualified.{FindsReady, IsFoundBy};

use crate::{Error, Manifest, Resolution, resolve_to_unqualified_via_manifest};
use std::alloc::Global;

/// How the manifest is found for the path of a file that asks: by a closure.
#[derive(Drop)]
pub struct ResolutionHost<F> {
    pub find_pnp_manifest: F,
}

impl<F: Fn(&str) -> Result<Option<Manifest>, Error>> ResolutionHost<F> {
    /// A host that finds manifests by this closure.
    pub fn new(find: F) -> ResolutionHost<F>
        ensures { result.find_pnp_manifest ≡ find }
    {
        ResolutionHost {
            find_pnp_manifest: find,
        }
    }
}

/// What a resolution goes by.
#[derive(Drop)]
pub struct ResolutionConfig<F> {
    pub host: ResolutionHost<F>,
}

/// Where a specifier leads that a file asks, by the manifest that the host finds for the file's path; without one it is
/// skipped. Each manifest that the host may answer for that path is ready.
pub fn resolve_to_unqualified<F: Fn(&str) -> Result<Option<Manifest>, Error>>(
    alloc: Global,
    specifier: &str,
    parent: &str,
    config: &ResolutionConfig<F>,
) -> Result<Resolution, Error>
    requires callable { F.IsAlwaysCallable config.now.host.find_pnp_manifest }
    requires ready { FindsReady (FnReturnsAt F.Fn config.now.host.find_pnp_manifest parent.now) }
    requires clean { IsCleanPath parent.now }
    ensures { IsFoundBy (FnReturnsAt F.Fn config.now.host.find_pnp_manifest parent.now)
        specifier.now parent.now result }
{
    match (config.host.find_pnp_manifest)(parent)? {
        None => Ok(Resolution::Skipped),
        Some(manifest) => {
            resolve_to_unqualified_via_manifest(alloc, &manifest, specifier, parent)
        }
    }
}
