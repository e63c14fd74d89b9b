// The requests of a bundle, answered from its replies alone.
ghost use Rattle.std.specs.Prelude.{◌≡◌, ◌++◌, ◌∷◌, [], IfErr, IfOk, IfSome, IsTrue, OnOk, is_some, true};
ghost use Rattle.std.specs.List.{list_all};
ghost use Rattle.replay_core.specs.Agreeing.{agrees_with};
ghost use Rattle.replay_core.specs.Replaying.{Replays};
ghost use Rattle.tree_core.specs.Asks.{AgreeWith, Settles};
ghost use Rattle.tree_core.specs.Question.{fits, reply_in};
ghost use Rattle.trail_bundle.specs.Bundle.{AreReplies};
ghost use Rattle.trail_bundle.specs.Replaying.{AreReplayed, IsNotRecorded, request_plan};
ghost use Rattle.trail_bundle.specs.ReplayingParts.{numbered};
ghost use Rattle.trail_bundle.specs.Steps.{steps_of};

use crate::BundleRequest;
use crate::ordered::Replies;
use crate::replay_error::BundleReplayError;
use replay_core::{ReplayError, ReplayTree};
use resolve_stack::{
    ImportError, KeptReadings, Outcome, Project, Verdict, replay, resolve_import_with,
};
use std::alloc::{AllocError, Global};
use tree_core::{Question, Reply, Trail};

/// The replies of a bundle as a trail, which finds each by its question.
pub(crate) fn trail_of(alloc: Global, replies: &Replies) -> Result<Trail, AllocError>
    requires { AreReplies (steps_of replies.now.entries) }
    ensures { IfOk result (λ trail. trail ≡ steps_of replies.now.entries) }
{
    let mut trail = Trail::new(alloc);
    for (key, reply) in replies.iter() {
        push_copy(alloc, &mut trail, &key.question, reply)?;
    }
    Ok(trail)
}

// Puts a copy of a question and its reply at the end of a trail.
fn push_copy(
    alloc: Global,
    trail: &mut Trail,
    question: &Question,
    reply: &Reply,
) -> Result<(), AllocError>
    requires { IsTrue (fits question.now reply.now) }
    ensures { OnOk result (trail.new ≡ trail.old ++ (question.now, reply.now) ∷ []) }
{
    let question = question.try_clone(alloc)?;
    let reply = reply.try_clone(alloc)?;
    match trail.push(question, reply) {
        Ok(()) => Ok(()),
        Err((_, _, e)) => Err(e),
    }
}

/// The verdicts of requests by a trail, in order.
pub(crate) fn replay_each(
    alloc: Global,
    project: &Project<'_>,
    trail: &Trail,
    requests: &[BundleRequest],
) -> Result<Vec<Verdict>, BundleReplayError>
    ensures ok { IfOk result (λ verdicts. AreReplayed verdicts.items trail.now project.now requests.now) }
    ensures refused { IfErr result (λ e. IsNotRecorded e trail.now project.now requests.now) }
{
    let mut kept = KeptReadings::new(alloc);
    let mut verdicts = Vec::new(alloc);
    for request in requests {
        let replayed = replay_one(alloc, project, &mut kept, trail, request);
        verdicts.push(numbered(verdicts.len(), replayed)?)?;
    }
    Ok(verdicts)
}

// A replay of the request with this number.
fn numbered(
    request: usize,
    replayed: Result<Verdict, ReplayError>,
) -> Result<Verdict, BundleReplayError>
    ensures { result ≡ numbered request replayed }
{
    match replayed {
        Ok(verdict) => Ok(verdict),
        Err(ReplayError::NotRecorded { question }) => {
            Err(BundleReplayError::NotRecorded { request, question })
        }
        Err(ReplayError::NoMemory) => Err(BundleReplayError::NoMemory),
    }
}

// The verdict of a request by a trail. Which question the trail lacks, a replay that keeps nothing tells.
fn replay_one(
    alloc: Global,
    project: &Project<'_>,
    kept: &mut KeptReadings,
    trail: &Trail,
    request: &BundleRequest,
) -> Result<Verdict, ReplayError>
    ensures { Replays result trail.now (request_plan project.now request.now) }
{
    if let Ok(outcome) = outcome_by(alloc, project, kept, trail, request) {
        if let Some(verdict) = if_held(trail, outcome) {
            return Ok(verdict);
        }
    }
    replay(
        alloc,
        project,
        &request.importer,
        request.specifier.as_str(),
        trail,
    )
}

// The verdict of an outcome, where a trail has all its questions.
fn if_held(trail: &Trail, outcome: Outcome) -> Option<Verdict>
    ensures { IfSome result (λ v. (v ≡ outcome.verdict)
        × (list_all (λ step. is_some (reply_in trail.now step.0)) outcome.trail ≡ true)) }
{
    let Outcome {
        verdict,
        trail: put,
    } = outcome;
    if has_all(trail, &put) {
        Some(verdict)
    } else {
        None
    }
}

// What a request comes to over a tree that answers from a trail, with what earlier requests have read.
fn outcome_by(
    alloc: Global,
    project: &Project<'_>,
    kept: &mut KeptReadings,
    trail: &Trail,
    request: &BundleRequest,
) -> Result<Outcome, ImportError>
    ensures settles { IfOk result (λ o.
        Settles o.verdict o.trail (request_plan project.now request.now)) }
    ensures agree { IfOk result (λ o. AgreeWith (agrees_with trail.now) o.trail) }
{
    let mut tree = ReplayTree::of(alloc, trail);
    resolve_import_with(
        alloc,
        &mut tree,
        project,
        kept,
        &request.importer,
        request.specifier.as_str(),
    )
}

// Whether a trail has all questions of another one.
fn has_all(trail: &Trail, put: &Trail) -> bool
    ensures { result ≡ list_all (λ step. is_some (reply_in trail.now step.0)) put.now }
{
    put.iter().all(|step| trail.reply_to(&step.0).is_some())
}
