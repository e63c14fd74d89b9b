// A tree in memory whose manifests are known.
ghost use Rattle.std.specs.Prelude.{◌≡◌, ◌≢◌, None, Some, OnOk, OnErr, IfOk, IfErr, bytes_eq};
ghost use Rattle.std.specs.FinMap as map;
ghost use Rattle.std.specs.List.{list_any};
ghost use Rattle.sugar_path.specs.Path.{text_of};
ghost use Rattle.tree_core.specs.Memory.{memory_state, refusal, with_file};
ghost use Rattle.tree_core.specs.Tree.{Files, Agrees, is_file};
ghost use Rattle.tree_core.specs.declared.memory.PutError.TheVariants as put_error;
ghost use Rattle.resolve_stack.specs.Known.{IsSameBeside, AreKnownOn};
ghost use Rattle.resolve_stack.specs.Decides.{Decides};
ghost use Rattle.resolve_stack.specs.Outcomes.{request_outcome};
ghost use Rattle.resolve_stack.specs.Request.{asked_for};
ghost use Rattle.resolve_stack.specs.declared.import.ImportError.TheVariants.{NoMemory};

use crate::import::import_by;
use crate::kept::{KeptManifest, put_known};
use crate::pnp_resolver::KnownProject;
use crate::request::Request;
use crate::{FileName, ImportError, KeptReadings, Outcome, Project};
use std::alloc::Global;
use std::marker::Model;
use tree_core::{MemoryTree, PutError, Trail};

/// A tree in memory that keeps what requests over it have read. Until the file of a manifest is put or removed, a
/// further request over it neither reads nor compares the manifest's bytes.
#[derive(Drop)]
pub struct KnownTree {
    tree: MemoryTree,
    // the manifests that files of the tree are
    known: Vec<KeptManifest>,
    kept: KeptReadings,
}

impl Model for KnownTree {
    ghost use Rattle.tree_core.specs.Memory.{Memory, memory_code};
    ghost use Rattle.resolve_stack.specs.Known.{AreKnownOn};

    ghost Value = { Memory };

    ghost coded = { memory_code };

    ghost view = { λ t. t.tree };

    ghost invariant = { λ t. AreKnownOn t.tree.files t.known.items };
}

impl KnownTree {
    /// The tree with no files.
    pub fn new(alloc: Global) -> KnownTree
        ensures { result ≡ record { files = map.empty; questions = 0 } }
    {
        KnownTree::of(alloc, MemoryTree::new(alloc))
    }

    /// A tree in memory as it is, of which nothing is known yet.
    pub fn of(alloc: Global, tree: MemoryTree) -> KnownTree
        ensures { result ≡ tree }
    {
        KnownTree {
            tree,
            known: Vec::new(alloc),
            kept: KeptReadings::new(alloc),
        }
    }

    /// How many questions were put.
    pub fn questions(&self) -> u64
        ensures { result ≡ self.now.questions }
    {
        self.tree.questions()
    }

    /// Puts a file, in place of an earlier one at the path.
    pub fn put(&mut self, path: &str, bytes: &[u8], canonical: &str) -> Result<(), PutError>
        ensures ok { OnOk result (self.new ≡ record self.old {
          files = with_file self.old.files path.now
              (record { content = bytes.now; canonical = canonical.now });
        }) }
        ensures fits { OnOk result (refusal self.old.files path.now canonical.now ≡ None) }
        ensures refused { IfErr result (λ e. e ≢ put_error.NoMemory
            → refusal self.old.files path.now canonical.now ≡ Some e) }
        ensures err { OnErr result (self.new ≡ self.old) }
    {
        self.tree.put(path, bytes, canonical)?;
        forget(&mut self.known, path);
        Ok(())
    }

    /// Takes a file out, and tells whether it was there.
    pub fn remove(&mut self, path: &str) -> bool
        ensures was { result ≡ is_file self.old.files path.now }
        ensures gone { self.new ≡ record self.old { files = map.remove self.old.files path.now } }
    {
        let was = self.tree.remove(path);
        forget(&mut self.known, path);
        was
    }

    /// Which file a specifier means, asked from an importer of a project: the verdict of the order of search, with the
    /// trail that decides it. The files stay as they are.
    pub fn resolve_import(
        &mut self,
        alloc: Global,
        project: &Project<'_>,
        importer: &FileName,
        specifier: &str,
    ) -> Result<Outcome, ImportError>
        ensures decides { Decides project.now (asked_for importer.now specifier.now)
            (memory_state self.old) (memory_state self.new) result }
        // The outcome is the one on the tree's own files.
        ensures outcome { IfOk result (λ o. o ≡ request_outcome self.old.files project.now
            (asked_for importer.now specifier.now)) }
        ensures files { self.new.files ≡ self.old.files }
        ensures memory { IfErr result (λ e. e ≡ NoMemory) }
    {
        let request = Request {
            importer,
            specifier,
        };
        let known = KnownProject {
            project,
            known: self.known.as_slice(),
        };
        let outcome = import_by(alloc, &mut self.tree, &known, &mut self.kept, &request)?;
        learn(alloc, &mut self.known, &mut self.kept, &outcome.trail);
        Ok(outcome)
    }

    /// The tree.
    pub fn tree(&self) -> &MemoryTree
        ensures { result.now ≡ self.now }
    {
        &self.tree
    }
}

// Forgets what is known, where that is of the file at a path.
fn forget(known: &mut Vec<KeptManifest>, path: &str)
    ensures { (t u : Files) → IsSameBeside t u path.now
        → AreKnownOn t known.old.items → AreKnownOn u known.new.items }
{
    if is_known(known.as_slice(), path) {
        known.clear();
    }
}

// Whether a manifest is known at a path.
fn is_known(known: &[KeptManifest], path: &str) -> bool
    ensures { result ≡ list_any (λ k. bytes_eq path.now (text_of k.path)) known.now }
{
    known.iter().any(|read| path == read.file())
}

// What was read is known where a trail has it.
fn learn(alloc: Global, known: &mut Vec<KeptManifest>, kept: &mut KeptReadings, trail: &Trail)
    ensures { (t : Files) → Agrees t trail.now
        → AreKnownOn t known.old.items → AreKnownOn t known.new.items }
{
    let most_bytes = kept.manifests.most_bytes();
    for read in kept.manifests.take_all(alloc) {
        note(alloc, known, read, trail, most_bytes);
    }
}

// A manifest that was read is known where a trail has it.
fn note(
    alloc: Global,
    known: &mut Vec<KeptManifest>,
    read: KeptManifest,
    trail: &Trail,
    most_bytes: usize,
)
    ensures { (t : Files) → Agrees t trail.now
        → AreKnownOn t known.old.items → AreKnownOn t known.new.items }
{
    if read.is_replied(alloc, trail) {
        put_known(known, read, most_bytes);
    }
}
