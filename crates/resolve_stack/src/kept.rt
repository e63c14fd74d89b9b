// What requests keep of what they have read.
ghost use Rattle.std.specs.Prelude.{◌≡◌, ◌-◌, ◌&&◌, IsTrue, IfOk, OnOk, IfErr, IfSome, Some, Ok, Err, length};
ghost use Rattle.std.specs.Prelude.{slice_get, bytes_eq};
ghost use Rattle.std.specs.Option.{option_copied};
ghost use Rattle.tree_core.specs.Tree.{Files, Agrees};
ghost use Rattle.tree_core.specs.Resolving.{IsDecided, IsDecidedTo};
ghost use Rattle.pnp_core.specs.OnTree.{loaded_on};
ghost use Rattle.pnp_core.specs.ManifestReading.{reading};
ghost use Rattle.pnp_core.specs.Manifest.{Contents};
ghost use Rattle.pnp_core.specs.Owner.{IsReady};
ghost use Rattle.sugar_path.specs.Path.{path_eq, text_of};
ghost use Rattle.resolve_stack.specs.Known.{AreKnownOn, IsReadFrom, StaysKnown, known_at};
ghost use Rattle.resolve_stack.specs.Rows.{readable};

use crate::JoinRefusal;
use package_readings::PackageReadings;
use pnp_core::{HydrationCause, Manifest, manifest_of_bytes};
use std::alloc::{AllocError, Global};
use std::marker::Model;
use std::mem;
use sugar_path::{Bytes, CleanPath};
use tree_core::{Question, Reply, ResolveError, Trail};

// How many bytes of manifests are kept where nothing else is said: 64 MiB.
const MOST_BYTES: usize = 64 * 1024 * 1024;

// How many manifests are kept at most: a look-up goes through their paths.
const MOST: usize = 256;

/// What requests have read: the latest manifests, and what package.jsons were read to. It changes no answer, so that
/// requests of any projects over any trees can share it: each is used only where the bytes are those that were read.
#[derive(Drop)]
pub struct KeptReadings {
    pub(crate) manifests: KeptManifests,
    pub(crate) packages: PackageReadings,
}

impl KeptReadings {
    /// Nothing is kept yet. It takes no memory. Of the manifests that will be read it keeps 64 MiB.
    pub fn new(alloc: Global) -> KeptReadings {
        KeptReadings::within(alloc, MOST_BYTES)
    }

    /// Nothing is kept yet. It takes no memory. Of the manifests that will be read it keeps the latest, whose files
    /// have at most so many bytes together; the very latest is kept whatever its size.
    pub fn within(alloc: Global, most_bytes: usize) -> KeptReadings {
        KeptReadings {
            manifests: KeptManifests {
                latest: Vec::new(alloc),
                most_bytes,
            },
            packages: PackageReadings::new(alloc),
        }
    }
}

// A manifest that was read, with the path and the bytes of its file.
#[derive(Drop)]
pub(crate) struct KeptManifest {
    path: CleanPath,
    bytes: Bytes,
    manifest: Manifest,
}

impl Model for KeptManifest {
    ghost use Rattle.std.specs.Coded.{codes};
    ghost use Rattle.es_pattern.specs.Stored.{tree_code};
    ghost use Rattle.resolve_stack.specs.Known.{ReadManifest, IsReadFrom};

    ghost Value = { ReadManifest };

    ghost coded = { Prim.hlevel (codes, tree_code) };

    ghost view = { λ k. record { path = k.path; bytes = k.bytes; manifest = k.manifest } };

    ghost invariant = { λ k. IsReadFrom (record { path = k.path; bytes = k.bytes; manifest = k.manifest }) };
}

impl KeptManifest {
    // The manifest that bytes are, as the file at a path, or the refusal of the file.
    fn read(
        alloc: Global,
        path: CleanPath,
        bytes: Bytes,
    ) -> Result<KeptManifest, ResolveError<JoinRefusal>>
        ensures read { IfOk result (λ read. (read.path ≡ path) × (read.bytes ≡ bytes)) }
        ensures refused { IfErr result (λ e.
            IsDecided {A = Contents} (Err e) (readable path (reading (Some bytes) path))) }
    {
        match manifest_of_bytes(alloc, &bytes, &path) {
            Ok(manifest) => Ok(KeptManifest {
                path,
                bytes,
                manifest,
            }),
            Err(error) => Err(failed_hydration(path, error.refusal()?)),
        }
    }

    // Whether it was read from this file.
    fn is_at(&self, path: &CleanPath) -> bool
        ensures { result ≡ path_eq self.now.path path.now }
    {
        self.path == *path
    }

    // Whether it was read from this file, when its bytes were these.
    fn is_reading_of(&self, path: &CleanPath, bytes: &Bytes) -> bool
        ensures { result
            ≡ (path_eq self.now.path path.now && bytes_eq self.now.bytes bytes.now) }
    {
        self.path == *path && self.bytes == *bytes
    }

    // The text of its file's path.
    pub(crate) fn file(&self) -> &str
        ensures { result.now ≡ text_of self.now.path }
    {
        self.path.as_str()
    }

    // Whether a trail has its bytes as the reply for its file.
    pub(crate) fn is_replied(&self, alloc: Global, trail: &Trail) -> bool
        ensures { IsTrue result → (t : Files) → Agrees t trail.now
            → (loaded_on t self.now.path).result ≡ Ok self.now.manifest }
    {
        let Ok(path) = self.path.to_text(alloc) else {
            return false;
        };
        match trail.reply_to(&Question::Read(path)) {
            Some(Reply::Bytes(Some(bytes))) => self.bytes == *bytes,
            _ => false,
        }
    }

    // How many bytes its file has.
    fn size(&self) -> usize {
        self.bytes.as_slice().len()
    }

    fn manifest(&self) -> &Manifest
        ensures same { result.now ≡ self.now.manifest }
        ensures read { IsReadFrom self.now }
    {
        &self.manifest
    }
}

// The manifests that were read last, the latest at the end. Contracts see nothing of them.
#[derive(Drop)]
pub(crate) struct KeptManifests {
    latest: Vec<KeptManifest>,
    // how many bytes their files have together at most
    most_bytes: usize,
}

impl Model for KeptManifests {
    ghost Value = { Unit {0} };

    ghost view = { λ _. tt };
}

impl KeptManifests {
    // How many bytes their files have together at most.
    pub(crate) fn most_bytes(&self) -> usize {
        self.most_bytes
    }

    // Takes out all of them.
    pub(crate) fn take_all(&mut self, alloc: Global) -> Vec<KeptManifest> {
        mem::replace(&mut self.latest, Vec::new(alloc))
    }

    // The manifest that a file with this content is. Only bytes that aren't kept for this path are parsed, and then
    // kept.
    pub(crate) fn manifest_of(
        &mut self,
        alloc: Global,
        file: CleanPath,
        content: Option<Bytes>,
    ) -> Result<&Manifest, ResolveError<JoinRefusal>>
        ensures decided { IsDecidedTo result (readable file (reading content file)) }
        ensures ready { IfOk result (λ manifest. IsReady manifest.now) }
    {
        let Some(bytes) = content else {
            return Err(failed_hydration(file, HydrationCause::NotText));
        };
        let read = match taken(&mut self.latest, &file, &bytes) {
            Some(read) => read,
            None => KeptManifest::read(alloc, file, bytes)?,
        };
        put_last(&mut self.latest, read, self.most_bytes)?;
        match self.latest.last() {
            Some(read) => Ok(read.manifest()),
            None => unreachable!(),
        }
    }
}

// Takes out the manifest that was read from a file, when its bytes were these.
fn taken(latest: &mut Vec<KeptManifest>, path: &CleanPath, bytes: &Bytes) -> Option<KeptManifest>
    ensures { IfSome result (λ read. (read.path ≡ path.now) × (read.bytes ≡ bytes.now)) }
{
    for i in 0..latest.len() {
        if latest[i].is_reading_of(path, bytes) {
            return Some(latest.remove(i));
        }
    }
    None
}

// Makes room for a manifest of so many bytes: the first ones go, until the others and it are within the bounds.
fn make_room(latest: &mut Vec<KeptManifest>, bytes: usize, most_bytes: usize)
    ensures { StaysKnown latest.old.items latest.new.items }
{
    for _ in 0..surplus(latest.as_slice(), bytes, most_bytes) {
        drop_first(latest);
    }
}

// Takes out the first one, if there is one.
fn drop_first(latest: &mut Vec<KeptManifest>)
    ensures { StaysKnown latest.old.items latest.new.items }
{
    if latest.len() > 0 {
        let _first = latest.remove(0);
    }
}

// How many of the first have no room beside the later ones and a manifest of so many bytes.
fn surplus(latest: &[KeptManifest], bytes: usize, most_bytes: usize) -> usize {
    let mut held = bytes;
    for later in 0..latest.len() {
        held = held.saturating_add(latest[latest.len() - 1 - later].size());
        if held > most_bytes || later >= MOST {
            return latest.len() - later;
        }
    }
    0
}

// Puts a manifest at the end.
fn put_last(
    latest: &mut Vec<KeptManifest>,
    read: KeptManifest,
    most_bytes: usize,
) -> Result<(), AllocError>
    ensures { OnOk result
        (slice_get latest.new.items (length latest.new.items - 1) ≡ Some read) }
{
    make_room(latest, read.size(), most_bytes);
    latest.push(read)?;
    Ok(())
}

// Puts a manifest that is known at the end; where memory is wanting, it isn't put.
pub(crate) fn put_known(known: &mut Vec<KeptManifest>, read: KeptManifest, most_bytes: usize)
    ensures { (t : Files) → (loaded_on t read.path).result ≡ Ok read.manifest
        → AreKnownOn t known.old.items → AreKnownOn t known.new.items }
{
    make_room(known, read.size(), most_bytes);
    let _put = known.push(read);
}

// The manifest that is known at a path.
pub(crate) fn known_at<'k>(known: &'k [KeptManifest], path: &CleanPath) -> Option<&'k Manifest>
    ensures known { option_copied result ≡ known_at known.now path.now }
    ensures ready { IfSome result (λ manifest. IsReady manifest.now) }
{
    for read in known {
        if read.is_at(path) {
            return Some(read.manifest());
        }
    }
    None
}

// The refusal of a file that is no manifest.
fn failed_hydration(file: CleanPath, cause: HydrationCause) -> ResolveError<JoinRefusal>
    ensures { IsDecided {A = Contents} (Err result) (readable file (Err cause)) }
{
    match file.into_text() {
        Ok(manifest) => {
            ResolveError::Refused(JoinRefusal::FailedManifestHydration { cause, manifest })
        }
        Err(_) => ResolveError::NoMemory,
    }
}
