// Puts each question once to a tree, and keeps the replies.
ghost use Rattle.std.specs.Prelude.{◌≡◌, IsTrue, IfOk, OnOk, OnErr, IfErr, Some, None, IsSome, [], ◌∷◌, ◌++◌};
ghost use Rattle.sugar_path.specs.Path.{IsCleanPath};
ghost use Rattle.tree_core.specs.Question.{reply_in, fits};
ghost use Rattle.tree_core.specs.QuestionKind.{question_on};
ghost use Rattle.tree_core.specs.declared.tree.ReadError.TheVariants.{NoMemory};
ghost use Rattle.tree_core.specs.Tree.{Files, Agrees, IsPut};
ghost use Rattle.tree_core.specs.declared.question.Question.TheVariants.{File, Dir, Exists, Read, Canon};
ghost use Rattle.tree_core.specs.declared.question.Reply.TheVariants.{Flag, Bytes as BytesReply, Name};

use crate::question::QuestionKind;
use crate::{Question, ReadError, Reply, Trail, Tree};
use std::alloc::Global;
use sugar_path::{Bytes, Text};

/// A borrowed tree, and the trail of what it was asked.
#[derive(Drop)]
pub struct Recorder<'t, T: Tree> {
    alloc: Global,
    tree: &'t mut T,
    trail: Trail,
    ghost agrees: { (t : Files) → IsTrue ((T.state tree.now).stands_for t) → Agrees t trail },
}

impl<'t, T: Tree> Recorder<'t, T> {
    ghost use Rattle.tree_core.specs.Asks.{IsRecorded, AgreeWith};
    ghost use Rattle.tree_core.specs.RecorderView.{asking_of, tree_of, trail_of};

    pub fn new(alloc: Global, tree: &'t mut T) -> Recorder<'t, T>
        ensures same { (asking_of result).name ≡ tree.entry.ghost_name }
        ensures at { tree_of result ≡ tree.old }
        ensures trail { trail_of result ≡ [] }
    {
        Recorder {
            alloc,
            tree,
            trail: Trail::new(alloc),
        }
    }

    /// Whether there is a file.
    pub fn is_file(&mut self, p: &str) -> Result<bool, ReadError>
        requires { IsCleanPath p.now }
        ensures recorded { IsRecorded Flag (File p.now)
            (asking_of self.old) (asking_of self.new) result }
        // Where the trail has the reply, the borrowed tree is left as it is.
        ensures untouched { IsSome (reply_in (trail_of self.old) (File p.now))
            → tree_of self.new ≡ tree_of self.old }
    {
        match self.reply(QuestionKind::File, p)? {
            Reply::Flag(b) => Ok(b),
            _ => unreachable!(),
        }
    }

    /// Whether there is a folder.
    pub fn is_dir(&mut self, p: &str) -> Result<bool, ReadError>
        requires { IsCleanPath p.now }
        ensures recorded { IsRecorded Flag (Dir p.now)
            (asking_of self.old) (asking_of self.new) result }
        // Where the trail has the reply, the borrowed tree is left as it is.
        ensures untouched { IsSome (reply_in (trail_of self.old) (Dir p.now))
            → tree_of self.new ≡ tree_of self.old }
    {
        match self.reply(QuestionKind::Dir, p)? {
            Reply::Flag(b) => Ok(b),
            _ => unreachable!(),
        }
    }

    /// Whether there is a file or a folder.
    pub fn exists(&mut self, p: &str) -> Result<bool, ReadError>
        requires { IsCleanPath p.now }
        ensures recorded { IsRecorded Flag (Exists p.now)
            (asking_of self.old) (asking_of self.new) result }
        // Where the trail has the reply, the borrowed tree is left as it is.
        ensures untouched { IsSome (reply_in (trail_of self.old) (Exists p.now))
            → tree_of self.new ≡ tree_of self.old }
    {
        match self.reply(QuestionKind::Exists, p)? {
            Reply::Flag(b) => Ok(b),
            _ => unreachable!(),
        }
    }

    /// The bytes of a file.
    pub fn read(&mut self, p: &str) -> Result<Option<Bytes>, ReadError>
        requires { IsCleanPath p.now }
        ensures recorded { IsRecorded BytesReply (Read p.now)
            (asking_of self.old) (asking_of self.new) result }
        // Where the trail has the reply, the borrowed tree is left as it is.
        ensures untouched { IsSome (reply_in (trail_of self.old) (Read p.now))
            → tree_of self.new ≡ tree_of self.old }
    {
        match self.reply(QuestionKind::Read, p)? {
            Reply::Bytes(bytes) => Ok(bytes),
            _ => unreachable!(),
        }
    }

    /// The canonical name of a file.
    pub fn canonical(&mut self, p: &str) -> Result<Option<Text>, ReadError>
        requires { IsCleanPath p.now }
        ensures recorded { IsRecorded Name (Canon p.now)
            (asking_of self.old) (asking_of self.new) result }
        // Where the trail has the reply, the borrowed tree is left as it is.
        ensures untouched { IsSome (reply_in (trail_of self.old) (Canon p.now))
            → tree_of self.new ≡ tree_of self.old }
    {
        match self.reply(QuestionKind::Canon, p)? {
            Reply::Name(name) => Ok(name),
            _ => unreachable!(),
        }
    }

    // The reply to a question: the one recorded, or the tree's, which is then recorded.
    fn reply(&mut self, kind: QuestionKind, p: &str) -> Result<Reply, ReadError>
        requires { IsCleanPath p.now }
        ensures recorded { IsRecorded (λ r. r) (question_on kind p.now)
            (asking_of self.old) (asking_of self.new) result }
        ensures fits { IfOk result (λ r. IsTrue (fits (question_on kind p.now) r)) }
        // Where the trail has the reply, the borrowed tree is left as it is.
        ensures untouched { IsSome (reply_in (trail_of self.old) (question_on kind p.now))
            → tree_of self.new ≡ tree_of self.old }
    {
        if let Some(reply) = self.trail.reply_on(kind, p) {
            return Ok(reply.try_clone(self.alloc)?);
        }
        let question = kind.on(Text::shared(self.alloc, p)?);
        let reply = ask(self.tree, self.alloc, kind, p)?;
        let copy = reply.try_clone(self.alloc)?;
        note(&mut self.trail, question, copy)?;
        Ok(reply)
    }

    /// What was asked so far.
    pub fn trail(&self) -> &Trail
        ensures trail { result.now ≡ trail_of self.now }
        // Each tree of files that the borrowed tree stands for gives the replies of the trail.
        ensures agree { AgreeWith (asking_of self.now).tree.stands_for result.now }
    {
        &self.trail
    }

    pub fn into_trail(self) -> Trail
        ensures { result ≡ trail_of self.entry }
    {
        self.trail
    }

    /// The trail, and the tree that was borrowed.
    pub fn into_parts(self) -> (Trail, &'t mut T)
        ensures trail { result.0 ≡ trail_of self.entry }
        ensures same { result.1.ghost_name ≡ (asking_of self.entry).name }
        ensures at { result.1.now ≡ tree_of self.entry }
        ensures agree { AgreeWith (asking_of self.entry).tree.stands_for result.0 }
    {
        let Recorder {
            alloc: _,
            tree,
            trail,
        } = self;
        (trail, tree)
    }
}

// Puts a question to a tree.
fn ask<T: Tree>(
    tree: &mut T,
    alloc: Global,
    kind: QuestionKind,
    p: &str,
) -> Result<Reply, ReadError>
    requires { IsCleanPath p.now }
    ensures put { IsPut (λ r. r) (question_on kind p.now)
        (T.state tree.old) (T.state tree.new) result }
    ensures fits { IfOk result (λ r. IsTrue (fits (question_on kind p.now) r)) }
{
    match kind {
        QuestionKind::File => Ok(Reply::Flag(tree.is_file(p)?)),
        QuestionKind::Dir => Ok(Reply::Flag(tree.is_dir(p)?)),
        QuestionKind::Exists => Ok(Reply::Flag(tree.exists(p)?)),
        QuestionKind::Read => Ok(Reply::Bytes(tree.read(alloc, p)?)),
        QuestionKind::Canon => Ok(Reply::Name(tree.canonical(alloc, p)?)),
    }
}

// Puts a new question and its reply at the end of a trail.
fn note(trail: &mut Trail, question: Question, reply: Reply) -> Result<(), ReadError>
    requires { IsTrue (fits question reply) }
    ensures ok { OnOk result (trail.new ≡ trail.old ++ (question, reply) ∷ []) }
    ensures known { OnOk result (reply_in trail.old question ≡ None
        → reply_in trail.new question ≡ Some reply) }
    ensures refused { OnErr result (trail.new ≡ trail.old) }
    ensures memory { IfErr result (λ e. e ≡ NoMemory) }
{
    trail.push(question, reply)?;
    Ok(())
}
