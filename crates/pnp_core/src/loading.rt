// The manifest that a file of a tree is.
ghost use Rattle.std.specs.Prelude.{◌≡◌, Some, IfOk, IfErr};
ghost use Rattle.sugar_path.specs.Path.{IsCleanPath, path_in};
ghost use Rattle.tree_core.specs.Asks.{Asks, seen};
ghost use Rattle.tree_core.specs.Resolving.{Resolves, IsDecided};
ghost use Rattle.pnp_core.specs.Loading.{loading, told_loading};
ghost use Rattle.pnp_core.specs.Manifest.{top_level};
ghost use Rattle.pnp_core.specs.ManifestReading.{reading, from_text, from_payload, with_top_level};
ghost use Rattle.pnp_core.specs.Owner.{IsReady};
ghost use Rattle.pnp_core.specs.Refusal.{pnp, IsOfManifest};
ghost use Rattle.pnp_core.specs.Wording.{cause_message};
ghost use Rattle.pnp_core.specs.Wording as wording;

use crate::payload::payload_in;
use crate::readers::manifest_of_json;
use crate::{
    Error, FailedManifestHydration, HydrationCause, Manifest, PackageLocator, ReadManifestError,
    has_package, init_pnp_manifest,
};
use std::alloc::{AllocError, Global};
use sugar_path::{Bytes, CleanPath, Text};
use tree_core::{Asker, Recorder, ResolveError, Tree};

/// The manifest that the file at a path is: a ready one, or `FailedManifestHydration` with its cause in Yarn's words.
/// The path is a clean absolute text other than `/`. The other errors are the tree's.
pub fn load_pnp_manifest<'t, T: Tree>(
    alloc: Global,
    tree: &mut Recorder<'t, T>,
    p: &str,
) -> Result<Manifest, Error>
    requires { IsCleanPath p.now }
    ensures asks { Asks
        (⟦<Recorder<'t, T> as Asker>⟧.asking tree.old) (⟦<Recorder<'t, T> as Asker>⟧.asking tree.new)
        (seen pnp result) (told_loading (path_in p.now)) }
    ensures ready { IfOk result IsReady }
    ensures errors { IfErr result IsOfManifest }
{
    let path = CleanPath::of(alloc, p)?;
    match loaded_manifest(alloc, tree, &path) {
        Ok(manifest) => Ok(manifest),
        Err(error) => {
            let cause = error.refusal()?;
            let failed = failed_hydration(alloc, cause, &path)?;
            Err(Error::FailedManifestHydration(failed))
        }
    }
}

/// The manifest that the file at a path is: a ready one, or the cause why it is none. Its bytes are read from the tree.
pub fn loaded_manifest<R: Asker>(
    alloc: Global,
    tree: &mut R,
    manifest: &CleanPath,
) -> Result<Manifest, ResolveError<HydrationCause>>
    ensures asks { Resolves (R.asking tree.old) (R.asking tree.new) result (loading manifest.now) }
    ensures ready { IfOk result IsReady }
{
    let content = tree.read(manifest)?;
    manifest_of_content(alloc, &content, manifest)
}

// The manifest that the content of a file is.
fn manifest_of_content(
    alloc: Global,
    content: &Option<Bytes>,
    path: &CleanPath,
) -> Result<Manifest, ResolveError<HydrationCause>>
    ensures decided { IsDecided result (reading content.now path.now) }
    ensures ready { IfOk result IsReady }
{
    match content {
        Some(bytes) => manifest_of_bytes(alloc, bytes, path),
        None => Err(ResolveError::Refused(HydrationCause::NotText)),
    }
}

/// The manifest that the bytes of the file at a path are: a ready one, or the cause why they are none.
pub fn manifest_of_bytes(
    alloc: Global,
    bytes: &Bytes,
    path: &CleanPath,
) -> Result<Manifest, ResolveError<HydrationCause>>
    ensures decided { IsDecided result (reading (Some bytes.now) path.now) }
    ensures ready { IfOk result IsReady }
{
    match simdutf8::basic::from_utf8(bytes.as_slice()) {
        Ok(text) => manifest_of_text(alloc, text, path),
        Err(_) => Err(ResolveError::Refused(HydrationCause::NotText)),
    }
}

// The manifest whose payload a text has.
fn manifest_of_text(
    alloc: Global,
    text: &str,
    path: &CleanPath,
) -> Result<Manifest, ResolveError<HydrationCause>>
    ensures decided { IsDecided result (from_text path.now text.now) }
    ensures ready { IfOk result IsReady }
{
    match payload_in(alloc, text)? {
        Some(payload) => manifest_of_payload(alloc, payload.as_str(), path),
        None => Err(ResolveError::Refused(HydrationCause::NoPayload)),
    }
}

// The manifest that a payload says.
fn manifest_of_payload(
    alloc: Global,
    payload: &str,
    path: &CleanPath,
) -> Result<Manifest, ResolveError<HydrationCause>>
    ensures decided { IsDecided result (from_payload path.now (Some payload.now)) }
    ensures ready { IfOk result IsReady }
{
    match manifest_of_json(alloc, payload) {
        Ok(manifest) => initialized(alloc, manifest, path),
        Err(ReadManifestError::BadJson) => Err(ResolveError::Refused(HydrationCause::BadJson)),
        Err(ReadManifestError::BadPattern) => Err(ResolveError::Refused(
            HydrationCause::BadPattern,
        )),
        Err(ReadManifestError::NoMemory) => Err(ResolveError::NoMemory),
    }
}

// A manifest that was read, at the path of its file.
fn initialized(
    alloc: Global,
    manifest: Manifest,
    path: &CleanPath,
) -> Result<Manifest, ResolveError<HydrationCause>>
    ensures decided { IsDecided result (with_top_level path.now manifest) }
    ensures ready { IfOk result IsReady }
{
    let mut manifest = manifest;
    if !has_package(&manifest, &PackageLocator::top_level(alloc)) {
        return Err(ResolveError::Refused(HydrationCause::NoTopLevel));
    }
    init_pnp_manifest(alloc, &mut manifest, path.as_str())?;
    Ok(manifest)
}

// What is told of a file that is no manifest.
fn failed_hydration(
    alloc: Global,
    cause: HydrationCause,
    path: &CleanPath,
) -> Result<FailedManifestHydration, AllocError>
    ensures { IfOk result (λ failed. failed ≡ wording.failed_hydration cause path.now) }
{
    Ok(FailedManifestHydration {
        message: Text::of(alloc, message_of(cause))?,
        manifest_path: path.to_text(alloc)?,
        cause,
    })
}

// Why a file is no manifest, in Yarn's words.
#[tactic(auto, unfolding(crate::specs::Wording::cause_message))]
fn message_of(cause: HydrationCause) -> &'static str
    ensures { result.now ≡ cause_message cause }
{
    match cause {
        HydrationCause::NotText => "We failed to read the content of the manifest.",
        HydrationCause::NoPayload => {
            "We failed to locate the PnP data payload inside its manifest file. Did you manually edit the file?"
        }
        HydrationCause::BadJson | HydrationCause::BadPattern => {
            "We failed to parse the PnP data payload as proper JSON; Did you manually edit the file?"
        }
        HydrationCause::NoTopLevel => "The PnP data payload has no top-level row.",
    }
}
