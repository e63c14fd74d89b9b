// A question that a tree is asked, and its reply.
ghost use Rattle.std.specs.Prelude.{◌≡◌, IfOk};
ghost use Rattle.tree_core.specs.Question.{path_asked};
ghost use Rattle.tree_core.specs.QuestionKind.{kind_of, question_on};

use std::alloc::{AllocError, Global};
use sugar_path::{Bytes, Text};

/// A question on a clean absolute path.
#[derive(Debug, Drop, PartialEq, Eq, Hash)]
pub enum Question {
    /// Whether there is a file.
    File(Text),
    /// Whether there is a folder.
    Dir(Text),
    /// Whether there is a file or a folder.
    Exists(Text),
    /// The bytes of the file.
    Read(Text),
    /// The canonical name of the file.
    Canon(Text),
}

/// What a question asks of its path.
#[derive(Clone, Copy)]
pub(crate) enum QuestionKind {
    File,
    Dir,
    Exists,
    Read,
    Canon,
}

impl QuestionKind {
    // The question of this kind on a path.
    pub(crate) fn on(self, path: Text) -> Question
        ensures { result ≡ question_on self path }
    {
        match self {
            QuestionKind::File => Question::File(path),
            QuestionKind::Dir => Question::Dir(path),
            QuestionKind::Exists => Question::Exists(path),
            QuestionKind::Read => Question::Read(path),
            QuestionKind::Canon => Question::Canon(path),
        }
    }
}

/// What a tree replies: a flag to the first three questions, bytes to `Read` and a name to `Canon`.
#[derive(Debug, Drop, PartialEq, Eq, Hash)]
pub enum Reply {
    Flag(bool),
    Bytes(Option<Bytes>),
    Name(Option<Text>),
}

impl Question {
    /// The path that it is on.
    pub fn path(&self) -> &str
        ensures { result.now ≡ path_asked self.now }
    {
        match self {
            Question::File(p) => p.as_str(),
            Question::Dir(p) => p.as_str(),
            Question::Exists(p) => p.as_str(),
            Question::Read(p) => p.as_str(),
            Question::Canon(p) => p.as_str(),
        }
    }

    // What it asks.
    pub(crate) fn kind(&self) -> QuestionKind
        ensures { result ≡ kind_of self.now }
    {
        match self {
            Question::File(_) => QuestionKind::File,
            Question::Dir(_) => QuestionKind::Dir,
            Question::Exists(_) => QuestionKind::Exists,
            Question::Read(_) => QuestionKind::Read,
            Question::Canon(_) => QuestionKind::Canon,
        }
    }

    /// An equal question.
    pub fn try_clone(&self, alloc: Global) -> Result<Question, AllocError>
        ensures { IfOk result (λ q. q ≡ self.now) }
    {
        match self {
            Question::File(p) => Ok(Question::File(p.try_clone(alloc)?)),
            Question::Dir(p) => Ok(Question::Dir(p.try_clone(alloc)?)),
            Question::Exists(p) => Ok(Question::Exists(p.try_clone(alloc)?)),
            Question::Read(p) => Ok(Question::Read(p.try_clone(alloc)?)),
            Question::Canon(p) => Ok(Question::Canon(p.try_clone(alloc)?)),
        }
    }
}

impl Reply {
    /// An equal reply.
    pub fn try_clone(&self, alloc: Global) -> Result<Reply, AllocError>
        ensures { IfOk result (λ r. r ≡ self.now) }
    {
        match self {
            Reply::Flag(b) => Ok(Reply::Flag(*b)),
            Reply::Bytes(None) => Ok(Reply::Bytes(None)),
            Reply::Bytes(Some(bytes)) => Ok(Reply::Bytes(Some(bytes.try_clone(alloc)?))),
            Reply::Name(None) => Ok(Reply::Name(None)),
            Reply::Name(Some(name)) => Ok(Reply::Name(Some(name.try_clone(alloc)?))),
        }
    }
}
