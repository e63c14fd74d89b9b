// A tree that refuses the questions with the numbers of a list.
ghost use Rattle.std.specs.Prelude.{◌≡◌, ◌==◌, if◌then◌else◌};
ghost use Rattle.std.specs.List.{list_any};
ghost use Rattle.sugar_path.specs.Path.{IsCleanPath};
ghost use Rattle.tree_core.specs.Memory.{refuses_next, after_question, IsRefusedByNumber};
ghost use Rattle.tree_core.specs.Tree.{IsValidTree, one_more};
ghost use Rattle.tree_core.specs.declared.question.Question.TheVariants.{File, Dir, Exists, Read, Canon};
ghost use Rattle.tree_core.specs.declared.question.Reply.TheVariants.{Flag, Bytes as BytesReply, Name};

use crate::{MemoryTree, ReadError, Tree};
use std::alloc::Global;
use std::marker::Model;
use sugar_path::{Bytes, List, Text};

/// A tree in memory that refuses the questions with some numbers, and counts its refusals.
pub struct FailingTree {
    tree: MemoryTree,
    calls: List<u64>,
    faults: u64,
}

impl Model for FailingTree {
    ghost use Rattle.tree_core.specs.Memory.{Failing, failing_code};

    ghost Value = { Failing };

    ghost coded = { failing_code };

    ghost view = { λ m. record { memory = m.tree; calls = m.calls; faults = m.faults } };
}

impl Drop for FailingTree {
    fn drop(self) {
        let FailingTree {
            tree,
            calls,
            faults: _,
        } = self;
        drop(tree);
        drop(calls);
    }
}

impl FailingTree {
    pub(crate) fn of(tree: MemoryTree, calls: List<u64>) -> FailingTree
        ensures { result ≡ record { memory = tree; calls = calls; faults = 0 } }
    {
        FailingTree {
            tree,
            calls,
            faults: 0,
        }
    }

    /// How many questions were refused.
    pub fn faults(&self) -> u64
        ensures { result ≡ self.now.faults }
    {
        self.faults
    }

    /// How many questions were put, the refused ones too.
    pub fn questions(&self) -> u64
        ensures count { result ≡ self.now.memory.questions }
        // The files of a tree are a valid tree at any time.
        ensures valid { IsValidTree self.now.memory.files }
    {
        self.tree.questions()
    }

    // Counts a question, and a refusal where its number is one of the list's.
    fn refuses(&mut self) -> bool
        ensures test { result ≡ refuses_next self.old }
        ensures after { self.new ≡ after_question self.old }
    {
        self.tree.count();
        if contains(self.calls.as_slice(), self.tree.questions()) {
            self.faults = self.faults.saturating_add(1);
            return true;
        }
        false
    }
}

impl Tree for FailingTree {
    ghost use Rattle.tree_core.specs.Memory.{failing_state};

    ghost state = { failing_state };

    fn is_file(&mut self, p: &str) -> Result<bool, ReadError>
        requires { IsCleanPath p.now }
        ensures { IsRefusedByNumber Flag (File p.now) self.old self.new result }
    {
        if self.refuses() {
            return Err(ReadError::Fault);
        }
        Ok(self.tree.has_file(p))
    }

    fn is_dir(&mut self, p: &str) -> Result<bool, ReadError>
        requires { IsCleanPath p.now }
        ensures { IsRefusedByNumber Flag (Dir p.now) self.old self.new result }
    {
        if self.refuses() {
            return Err(ReadError::Fault);
        }
        Ok(self.tree.has_folder(p))
    }

    fn exists(&mut self, p: &str) -> Result<bool, ReadError>
        requires { IsCleanPath p.now }
        ensures { IsRefusedByNumber Flag (Exists p.now) self.old self.new result }
    {
        if self.refuses() {
            return Err(ReadError::Fault);
        }
        Ok(self.tree.has_path(p))
    }

    fn read(&mut self, alloc: Global, p: &str) -> Result<Option<Bytes>, ReadError>
        requires { IsCleanPath p.now }
        ensures { IsRefusedByNumber BytesReply (Read p.now) self.old self.new result }
    {
        if self.refuses() {
            return Err(ReadError::Fault);
        }
        Ok(self.tree.content_at(alloc, p)?)
    }

    fn canonical(&mut self, alloc: Global, p: &str) -> Result<Option<Text>, ReadError>
        requires { IsCleanPath p.now }
        ensures { IsRefusedByNumber Name (Canon p.now) self.old self.new result }
    {
        if self.refuses() {
            return Err(ReadError::Fault);
        }
        Ok(self.tree.canonical_at(alloc, p)?)
    }
}

// Whether the number stands in the list.
fn contains(numbers: &[u64], number: u64) -> bool
    ensures { result ≡ list_any (λ n. n == number) numbers.now }
{
    numbers.iter().any(|n| *n == number)
}
