// A tree of files, as a layer above sees it.
ghost use Rattle.std.specs.Prelude.{◌≡◌};
ghost use Rattle.sugar_path.specs.Path.{IsCleanPath};
ghost use Rattle.tree_core.specs.Tree.{TreeState, IsPut};
ghost use Rattle.tree_core.specs.declared.tree.ReadError.TheVariants.{NoMemory};
ghost use Rattle.tree_core.specs.declared.question.Question.TheVariants.{File, Dir, Exists, Read, Canon};
ghost use Rattle.tree_core.specs.declared.question.Reply.TheVariants.{Flag, Bytes as BytesReply, Name};

use crate::{Question, Reply};
use std::alloc::{AllocError, Global};
use sugar_path::{Bytes, Text};
use thiserror::Error;

/// Why a question was refused.
#[derive(Clone, Copy, Debug, PartialEq, Eq, Error)]
pub enum ReadError {
    /// The tree failed. Its count of faults rose, or stands at its last value.
    #[error("the tree failed")]
    Fault,
    /// Out of memory.
    #[error("no memory")]
    NoMemory,
}

impl From<AllocError> for ReadError {
    ghost from_gives = { λ _ e. e ≡ NoMemory };

    fn from(_: AllocError) -> Self {
        ReadError::NoMemory
    }
}

impl From<(Question, Reply, AllocError)> for ReadError {
    ghost from_gives = { λ _ e. e ≡ NoMemory };

    fn from(_: (Question, Reply, AllocError)) -> Self {
        ReadError::NoMemory
    }
}

/// A file of a tree: its bytes and its canonical name.
#[derive(Drop)]
pub struct TreeFile {
    pub content: Bytes,
    pub canonical: Text,
}

/// A tree that is asked on clean absolute paths. Each question is counted; one that is refused is a fault.
pub trait Tree {
    /// What contracts see of it: the trees of files that it answers for, and its counts.
    ghost state: { Self → TreeState };

    /// Whether there is a file.
    fn is_file(&mut self, p: &str) -> Result<bool, ReadError>
        requires { IsCleanPath p.now }
        ensures { IsPut Flag (File p.now) (state self.old) (state self.new) result };

    /// Whether there is a folder: `/`, or what stands above a file.
    fn is_dir(&mut self, p: &str) -> Result<bool, ReadError>
        requires { IsCleanPath p.now }
        ensures { IsPut Flag (Dir p.now) (state self.old) (state self.new) result };

    /// Whether there is a file or a folder.
    fn exists(&mut self, p: &str) -> Result<bool, ReadError>
        requires { IsCleanPath p.now }
        ensures { IsPut Flag (Exists p.now) (state self.old) (state self.new) result };

    /// The bytes of a file, None where there is no file.
    fn read(&mut self, alloc: Global, p: &str) -> Result<Option<Bytes>, ReadError>
        requires { IsCleanPath p.now }
        ensures { IsPut BytesReply (Read p.now) (state self.old) (state self.new) result };

    /// The canonical name of a file, None where there is no file.
    fn canonical(&mut self, alloc: Global, p: &str) -> Result<Option<Text>, ReadError>
        requires { IsCleanPath p.now }
        ensures { IsPut Name (Canon p.now) (state self.old) (state self.new) result };
}
