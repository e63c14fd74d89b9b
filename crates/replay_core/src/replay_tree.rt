// A tree that answers from a trail.
ghost use Rattle.std.specs.Prelude.{
  ◌≡◌,
  ◌↔◌,
  List,
  IfOk,
  IfErr,
  IfSome,
  IsNone,
  IsTrue,
  None,
  Some,
  nat_lt,
  is_some,
  option_map,
};
ghost use Rattle.std.specs.Option.{ForSome};
ghost use Rattle.sugar_path.specs.Path.{IsCleanPath};
ghost use Rattle.tree_core.specs.Question.{reply_in, fits};
ghost use Rattle.tree_core.specs.Tree.{one_more};
ghost use Rattle.tree_core.specs.declared.question.Question.TheVariants.{File, Dir, Exists, Read, Canon};
ghost use Rattle.tree_core.specs.declared.question.Reply.TheVariants.{Flag, Bytes as BytesReply, Name};
ghost use Rattle.tree_core.specs.declared.tree.ReadError.TheVariants.{Fault, NoMemory};

use std::alloc::Global;
use sugar_path::{Bytes, Text};
use tree_core::{Question, ReadError, Reply, Trail, Tree};

/// A tree that answers from a borrowed trail: it stands for the trees that agree with it. Of a question that stands
/// twice in the trail the first reply counts. A question that isn't there is a fault.
#[derive(Drop)]
pub struct ReplayTree<'t> {
    alloc: Global,
    trail: &'t Trail,
    faults: u64,
    questions: u64,
    missing: Option<Question>,
    ghost told: { is_some missing ≡ nat_lt 0 faults },
    ghost lacked: { ForSome missing (λ q. reply_in trail.now q ≡ None) },
}

impl<'t> ReplayTree<'t> {
    ghost use Rattle.replay_core.specs.ReplayView.{replay_of};

    /// The tree that answers from this trail. It takes no memory.
    pub fn of(alloc: Global, trail: &'t Trail) -> ReplayTree<'t>
        ensures { replay_of result ≡
            record { trail = trail.now; faults = 0; questions = 0; missing = None } }
    {
        ReplayTree {
            alloc,
            trail,
            faults: 0,
            questions: 0,
            missing: None,
        }
    }

    /// The question that the latest fault refused, None exactly where no question was refused.
    pub fn missing(&self) -> Option<&Question>
        ensures kept { option_map (λ q. q.now) result ≡ (replay_of self.now).missing }
        ensures lacked { IfSome result (λ q. reply_in (replay_of self.now).trail q.now ≡ None) }
        ensures none { IsNone result ↔ ((replay_of self.now).faults ≡ 0) }
    {
        self.missing.as_ref()
    }

    /// How many questions were refused.
    pub fn faults(&self) -> u64
        ensures { result ≡ (replay_of self.now).faults }
    {
        self.faults
    }

    /// How many questions were put, the refused ones too.
    pub fn questions(&self) -> u64
        ensures { result ≡ (replay_of self.now).questions }
    {
        self.questions
    }

    // Counts a question.
    fn count(&mut self)
        ensures { replay_of self.new ≡
            record (replay_of self.old) { questions = one_more (replay_of self.old).questions } }
    {
        self.questions = self.questions.saturating_add(1);
    }

    // The first reply to a question. One that isn't recorded is refused, and kept in place of an earlier one.
    fn recorded(&mut self, question: Question) -> Result<&'t Reply, ReadError>
        ensures known { IfOk result (λ r. reply_in (replay_of self.old).trail question ≡ Some r.now) }
        ensures fits { IfOk result (λ r. IsTrue (fits question r.now)) }
        ensures same { IfOk result (λ r. replay_of self.new ≡ replay_of self.old) }
        ensures fault { IfErr result (λ e. e ≡ Fault) }
        ensures unknown { IfErr result (λ e. reply_in (replay_of self.old).trail question ≡ None) }
        ensures refused { IfErr result (λ e. replay_of self.new ≡ record (replay_of self.old) {
          faults = one_more (replay_of self.old).faults;
          missing = Some question;
        }) }
    {
        match self.trail.reply_to(&question) {
            Some(reply) => Ok(reply),
            None => {
                self.faults = self.faults.saturating_add(1);
                self.missing = Some(question);
                Err(ReadError::Fault)
            }
        }
    }
}

impl<'t> Tree for ReplayTree<'t> {
    ghost use Rattle.replay_core.specs.Replay.{replay_state, IsRepliedFromTrail};
    ghost use Rattle.replay_core.specs.ReplayView.{replay_of};

    ghost state = { λ r. replay_state (replay_of r) };

    fn is_file(&mut self, p: &str) -> Result<bool, ReadError>
        requires { IsCleanPath p.now }
        ensures { IsRepliedFromTrail Flag (File p.now) (replay_of self.old) (replay_of self.new) result }
    {
        self.count();
        match self.recorded(Question::File(Text::of(self.alloc, p)?))? {
            Reply::Flag(b) => Ok(*b),
            _ => unreachable!(),
        }
    }

    fn is_dir(&mut self, p: &str) -> Result<bool, ReadError>
        requires { IsCleanPath p.now }
        ensures { IsRepliedFromTrail Flag (Dir p.now) (replay_of self.old) (replay_of self.new) result }
    {
        self.count();
        match self.recorded(Question::Dir(Text::of(self.alloc, p)?))? {
            Reply::Flag(b) => Ok(*b),
            _ => unreachable!(),
        }
    }

    fn exists(&mut self, p: &str) -> Result<bool, ReadError>
        requires { IsCleanPath p.now }
        ensures { IsRepliedFromTrail Flag (Exists p.now) (replay_of self.old) (replay_of self.new) result }
    {
        self.count();
        match self.recorded(Question::Exists(Text::of(self.alloc, p)?))? {
            Reply::Flag(b) => Ok(*b),
            _ => unreachable!(),
        }
    }

    fn read(&mut self, alloc: Global, p: &str) -> Result<Option<Bytes>, ReadError>
        requires { IsCleanPath p.now }
        ensures { IsRepliedFromTrail BytesReply (Read p.now) (replay_of self.old) (replay_of self.new) result }
    {
        self.count();
        let reply = self.recorded(Question::Read(Text::of(self.alloc, p)?))?;
        match reply.try_clone(alloc)? {
            Reply::Bytes(bytes) => Ok(bytes),
            _ => unreachable!(),
        }
    }

    fn canonical(&mut self, alloc: Global, p: &str) -> Result<Option<Text>, ReadError>
        requires { IsCleanPath p.now }
        ensures { IsRepliedFromTrail Name (Canon p.now) (replay_of self.old) (replay_of self.new) result }
    {
        self.count();
        let reply = self.recorded(Question::Canon(Text::of(self.alloc, p)?))?;
        match reply.try_clone(alloc)? {
            Reply::Name(name) => Ok(name),
            _ => unreachable!(),
        }
    }
}
