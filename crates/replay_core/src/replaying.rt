// What a search comes to whose tree answers from a trail.
ghost use Rattle.std.specs.Prelude.{◌≡◌, option_map, is_none};
ghost use Rattle.std.specs.List.{find};
ghost use Rattle.tree_core.specs.Question.{reply_in};
ghost use Rattle.tree_core.specs.Asks.{Asking};
ghost use Rattle.tree_core.specs.Plan.{Plan};
ghost use Rattle.tree_core.specs.RecorderView.{asking_of};
ghost use Rattle.replay_core.specs.Replaying.{first_unrecorded, Replays, GivesAgain, IsSearch};
ghost use Rattle.replay_core.specs.ReplayingParts.{questions_of, if_unrecorded, ended, IsUnlessStarved, IsMissedOf};

use crate::ReplayTree;
use std::alloc::Global;
use thiserror::Error;
use tree_core::{Question, ReadError, Recorder, Reply, Trail};

/// Why a trail gives no answer.
#[derive(Debug, Drop, PartialEq, Eq, Error)]
pub enum ReplayError {
    /// The search puts a question to which the trail has no reply: the first such one.
    #[error("the trail has no reply to a question")]
    NotRecorded { question: Question },
    /// Out of memory.
    #[error("no memory was found")]
    NoMemory,
}

/// What a search comes to that asked a tree which answers from this trail, and ended so.
pub fn replayed<A: Drop>(
    alloc: Global,
    trail: &Trail,
    recorder: Recorder<'_, ReplayTree<'_>>,
    found: Result<A, ReadError>,
) -> Result<A, ReplayError>
    // By whatever plan it searched, the answer is the plan's, or the question told is the plan's first one that the
    // trail lacks.
    ensures { (before : Asking) (plan : Plan A)
        → IsSearch trail.now before (asking_of recorder.entry) found plan
        → Replays result trail.now plan }
{
    let (put, tree) = recorder.into_parts();
    end_of(alloc, trail, &put, tree.missing(), found)
}

// How the replay ends. A question that was put and isn't recorded is the first; else a fault refused the one that the
// tree missed.
fn end_of<A: Drop>(
    alloc: Global,
    trail: &Trail,
    put: &Trail,
    missing: Option<&Question>,
    found: Result<A, ReadError>,
) -> Result<A, ReplayError>
    ensures { IsUnlessStarved result (ended trail.now
        (first_unrecorded trail.now (questions_of put.now)) (option_map (λ q. q.now) missing.entry) found) }
{
    if let Some(question) = unrecorded_in(trail, put) {
        return Err(missed(alloc, Some(question)));
    }
    match found {
        Ok(answer) => Ok(answer),
        Err(ReadError::Fault) => Err(missed(alloc, if_unrecorded(trail, missing))),
        Err(ReadError::NoMemory) => Err(ReplayError::NoMemory),
    }
}

// The first question of another trail to which this one has no reply.
fn unrecorded_in<'p>(trail: &Trail, put: &'p Trail) -> Option<&'p Question>
    ensures { option_map (λ q. q.now) result ≡ first_unrecorded trail.now (questions_of put.now) }
{
    match unrecorded_step(trail, put) {
        Some(step) => Some(&step.0),
        None => None,
    }
}

fn unrecorded_step<'p>(trail: &Trail, put: &'p Trail) -> Option<&'p (Question, Reply)>
    ensures { option_map (λ step. step.now) result ≡
        find (λ step. is_none (reply_in trail.now step.0)) put.now }
{
    put.iter().find(|step| lacks(trail, &step.0))
}

// The question, where the trail has no reply to it.
fn if_unrecorded<'q>(trail: &Trail, question: Option<&'q Question>) -> Option<&'q Question>
    ensures { option_map (λ q. q.now) result ≡
        if_unrecorded trail.now (option_map (λ q. q.now) question.entry) }
{
    question.filter(|question| lacks(trail, question))
}

// Whether the trail has no reply to a question.
fn lacks(trail: &Trail, question: &Question) -> bool
    ensures { result ≡ is_none (reply_in trail.now question.now) }
{
    trail.reply_to(question).is_none()
}

// The error for a question that is missed.
fn missed(alloc: Global, question: Option<&Question>) -> ReplayError
    ensures { IsMissedOf result (option_map (λ q. q.now) question.entry) }
{
    match question {
        None => ReplayError::NoMemory,
        Some(question) => match question.try_clone(alloc) {
            Ok(question) => ReplayError::NotRecorded { question },
            Err(_) => ReplayError::NoMemory,
        },
    }
}
