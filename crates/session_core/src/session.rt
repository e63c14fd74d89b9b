// A session: a project with a tree of its own, and the latest outcomes on that tree.
ghost use Rattle.std.specs.Prelude.{◌≡◌, ◌≢◌, ◌<◌, [], None, Some, is_some, IfOk, IfErr, IfNone, IfSome, IsOk, IsSome};
ghost use Rattle.std.specs.Prelude.{MatchResult, OnOk, OnErr, OnSome, count_by, map, length, slice_get};
ghost use Rattle.std.specs.Borrow.{sem};
ghost use Rattle.std.specs.FinMap as finite;
ghost use Rattle.std.specs.Option.{option_copied};
ghost use Rattle.tree_core.specs.Tree.{bytes_at, is_file, put_times};
ghost use Rattle.tree_core.specs.Memory.{refusal};
ghost use Rattle.tree_core.specs.declared.memory.PutError.TheVariants.{NoMemory};
ghost use Rattle.resolve_stack.specs.ImportFault.{StarvedAt};
ghost use Rattle.resolve_stack.specs.Request.{asked_for};
ghost use Rattle.resolve_stack.specs.Verdict.{verdict};
ghost use Rattle.session_core.specs.Entries.{is_touched, kept_for};
ghost use Rattle.session_core.specs.Numbered.{kept_in};
ghost use Rattle.session_core.specs.Session.{IsRight, IsSession, outcome_on, after_ask, after_put, after_remove};

use crate::Keys;
use crate::latest::{Entry, Latest};
use resolve_stack::{FileName, KnownTree, Outcome, Project};
use std::alloc::{AllocError, Global};
use sugar_path::Text;
use tree_core::{MemoryTree, PutError};

/// A project with a tree of its own, and the latest outcomes. Each outcome that is kept is the one on the tree as it
/// is now.
#[derive(Drop)]
pub struct Session<'l> {
    alloc: Global,
    project: Project<'l>,
    // keeps what requests have read of its manifests
    tree: KnownTree,
    latest: Latest,
    ghost right: { IsRight (record {
      project = project;
      tree = tree;
      capacity = latest.capacity;
      kept = kept_in latest;
    }) },
}

impl<'l> Session<'l> {
    ghost use Rattle.session_core.specs.SessionView.{state_of, keys_in};
    ghost use Rattle.session_core.specs.Asked.{AfterLoan, IsStarved};

    /// A session without files and outcomes, which keeps at most this many outcomes.
    pub fn new(
        alloc: Global,
        project: Project<'l>,
        capacity: usize,
    ) -> Result<Session<'l>, AllocError>
        requires { 0 < capacity }
        ensures { IfOk result (λ s. state_of s ≡ record {
          project = project.entry;
          tree = record { files = finite.empty; questions = 0 };
          capacity = capacity;
          kept = [];
        }) }
    {
        Session::over(alloc, project, MemoryTree::new(alloc), capacity)
    }

    /// A session over a tree, without outcomes, which keeps at most this many.
    pub fn over(
        alloc: Global,
        project: Project<'l>,
        tree: MemoryTree,
        capacity: usize,
    ) -> Result<Session<'l>, AllocError>
        requires { 0 < capacity }
        ensures { IfOk result (λ s. state_of s ≡ record {
          project = project.entry;
          tree = tree;
          capacity = capacity;
          kept = [];
        }) }
    {
        Ok(Session {
            alloc,
            project,
            tree: KnownTree::of(alloc, tree),
            latest: Latest::new(alloc, capacity)?,
        })
    }

    /// The outcome of a request on the tree as it is now. One that is kept takes no memory and puts no question.
    pub fn ask(&mut self, importer: &FileName, specifier: &str) -> Result<&Outcome, AllocError>
        // What the session is like then: the outcome stands in front, or nothing but the count of questions changed.
        ensures* ends { sem 𝓛 (AfterLoan self.entry (λ then. MatchResult result
            (λ _. state_of then ≡ after_ask (state_of self.old) importer.now specifier.now)
            (λ _. IsStarved importer.now specifier.now (state_of self.old) (state_of then)))) }
        ensures outcome { IfOk result (λ o. o.now ≡ outcome_on (state_of self.old).tree.files
            (state_of self.old).project importer.now specifier.now) }
        ensures kept { IsSome (kept_for importer.now specifier.now (state_of self.old).kept)
            → IsOk result }
    {
        self.bring_first(None, importer, specifier)?;
        Ok(self.first())
    }

    /// The outcome of a request, as `ask` gives it. What `latest_number` told when the request was asked before is a
    /// hint by which its outcome is found without a search, where it is still kept.
    pub fn ask_at(
        &mut self,
        hint: Option<u64>,
        importer: &FileName,
        specifier: &str,
    ) -> Result<&Outcome, AllocError>
        ensures* ends { sem 𝓛 (AfterLoan self.entry (λ then. MatchResult result
            (λ _. state_of then ≡ after_ask (state_of self.old) importer.now specifier.now)
            (λ _. IsStarved importer.now specifier.now (state_of self.old) (state_of then)))) }
        ensures outcome { IfOk result (λ o. o.now ≡ outcome_on (state_of self.old).tree.files
            (state_of self.old).project importer.now specifier.now) }
        ensures kept { IsSome (kept_for importer.now specifier.now (state_of self.old).kept)
            → IsOk result }
    {
        self.bring_first(hint, importer, specifier)?;
        Ok(self.first())
    }

    /// The number of the outcome that was asked for last, as a hint for `ask_at`. No promise reads it.
    pub fn latest_number(&self) -> Option<u64> {
        self.latest.front()
    }

    // Puts the outcome of a request in front: the one that is kept, or else a new one.
    fn bring_first(
        &mut self,
        hint: Option<u64>,
        importer: &FileName,
        specifier: &str,
    ) -> Result<(), AllocError>
        ensures ok { OnOk result
            (state_of self.new ≡ after_ask (state_of self.old) importer.now specifier.now) }
        ensures err { OnErr result (IsStarved importer.now specifier.now
            (state_of self.old) (state_of self.new)) }
        ensures kept { IsSome (kept_for importer.now specifier.now (state_of self.old).kept)
            → IsOk result }
    {
        if self.latest.recall_at(hint, importer, specifier) {
            return Ok(());
        }
        let outcome = outcome_of(
            self.alloc,
            &mut self.tree,
            &self.project,
            importer,
            specifier,
        )?;
        let entry = entry_of(self.alloc, importer, specifier, outcome)?;
        self.latest.put_first(entry)
    }

    // The outcome in front.
    fn first(&self) -> &Outcome
        requires { (state_of self.now).kept ≢ [] }
        ensures { slice_get (map (λ e. e.outcome) (state_of self.now).kept) 0 ≡ Some result.now }
    {
        let entry = self.latest.get(0).unwrap();
        &entry.outcome
    }

    /// Puts a file in the tree, in place of an earlier one at the path. It answers how many outcomes are dropped by
    /// that.
    pub fn put(&mut self, path: &str, bytes: &[u8], canonical: &str) -> Result<usize, PutError>
        ensures ok { OnOk result (state_of self.new ≡ after_put (state_of self.old) path.now
            (record { content = bytes.now; canonical = canonical.now })) }
        ensures count { IfOk result (λ n.
            n ≡ count_by (is_touched path.now) (state_of self.old).kept) }
        ensures fits { OnOk result
            (refusal (state_of self.old).tree.files path.now canonical.now ≡ None) }
        ensures refused { IfErr result (λ e. e ≢ NoMemory →
            refusal (state_of self.old).tree.files path.now canonical.now ≡ Some e) }
        ensures err { OnErr result (state_of self.new ≡ state_of self.old) }
    {
        self.tree.put(path, bytes, canonical)?;
        Ok(self.latest.drop_touched(path))
    }

    /// Takes a file out of the tree. It answers how many outcomes are dropped by that, and None where no file has the
    /// path. It takes no memory.
    pub fn remove(&mut self, path: &str) -> Option<usize>
        ensures was { is_some result ≡ is_file (state_of self.old).tree.files path.now }
        ensures gone { OnSome result
            (state_of self.new ≡ after_remove (state_of self.old) path.now) }
        ensures count { IfSome result (λ n.
            n ≡ count_by (is_touched path.now) (state_of self.old).kept) }
        ensures absent { IfNone result (state_of self.new ≡ state_of self.old) }
    {
        if !self.tree.remove(path) {
            return None;
        }
        Some(self.latest.drop_touched(path))
    }

    /// The importers and specifiers of the outcomes that are kept, the most recently used first.
    pub fn keys(&self) -> Keys<'_>
        ensures keys { keys_in result
            ≡ map (λ e. (e.importer, e.specifier)) (state_of self.now).kept }
        ensures right { IsSession (state_of self.now) }
    {
        let _count = self.latest.len();
        Keys {
            latest: &self.latest,
        }
    }

    /// The bytes of the file at a path of the tree as it is now, where there is one. That is no question.
    pub fn file(&self, path: &str) -> Option<&[u8]>
        ensures { option_copied result ≡ bytes_at (state_of self.now).tree.files path.now }
    {
        self.tree.tree().file(path)
    }

    /// How many questions were put to the tree.
    pub fn questions(&self) -> u64
        ensures { result ≡ (state_of self.now).tree.questions }
    {
        self.tree.questions()
    }
}

// What a request comes to on a tree.
fn outcome_of(
    alloc: Global,
    tree: &mut KnownTree,
    project: &Project<'_>,
    importer: &FileName,
    specifier: &str,
) -> Result<Outcome, AllocError>
    ensures outcome { IfOk result (λ o.
        o ≡ outcome_on tree.old.files project.now importer.now specifier.now) }
    ensures asked { IfOk result (λ o. tree.new.questions
        ≡ put_times (length o.trail) tree.old.questions) }
    ensures starved { OnErr result (StarvedAt tree.old.files tree.old.questions tree.new.questions
        (verdict project.now (asked_for importer.now specifier.now))) }
    ensures same { tree.new.files ≡ tree.old.files }
{
    match tree.resolve_import(alloc, project, importer, specifier) {
        Ok(outcome) => Ok(outcome),
        Err(_) => Err(AllocError),
    }
}

// An outcome with its request.
fn entry_of(
    alloc: Global,
    importer: &FileName,
    specifier: &str,
    outcome: Outcome,
) -> Result<Entry, AllocError>
    ensures { IfOk result (λ e. e ≡ record {
      importer = importer.now;
      specifier = specifier.now;
      outcome = outcome;
    }) }
{
    Ok(Entry {
        importer: importer.try_clone(alloc)?,
        specifier: Text::of(alloc, specifier)?,
        outcome,
    })
}
