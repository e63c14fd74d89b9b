// The replies of a bundle: what a trail adds to them.
ghost use Rattle.std.specs.Prelude.{◌≡◌, ◌≢◌, cond, IfErr, MatchBool, IfOk, OnErr, OnOk, IsTrue, None};
ghost use Rattle.std.specs.Option.{option_or};
ghost use Rattle.tree_core.specs.Question.{question_eq, reply_in};
ghost use Rattle.tree_core.specs.declared.question.Question.{Question};
ghost use Rattle.trail_bundle.specs.Adding.{AgreeAt, IsRefusedBy, TellsDiffer};
ghost use Rattle.trail_bundle.specs.Bundle.{AreReplies, holds_bytes};
ghost use Rattle.trail_bundle.specs.Keeping.{kept_without, reply_at};
ghost use Rattle.trail_bundle.specs.Steps.{steps_of};

use crate::BundleError;
use crate::line_reading::bytes_are_bytes;
use crate::ordered::{Ordered, Replies};
use std::alloc::{AllocError, Global};
use tree_core::{Question, Reply, Trail};

/// Puts the first replies of a trail in, for the questions that aren't there. Out of memory, nothing is put in.
pub(crate) fn put_all(alloc: Global, replies: &mut Replies, trail: &Trail) -> Result<(), AllocError>
    ensures ok { OnOk result ((q : Question) → reply_at replies.new q
        ≡ option_or (reply_at replies.old q) (reply_in trail.now q)) }
    ensures err { OnErr result ((q : Question) → reply_at replies.new q ≡ reply_at replies.old q) }
    ensures are { AreReplies (steps_of replies.old.entries)
        → AreReplies (steps_of replies.new.entries) }
{
    let mut fresh = Vec::new(alloc);
    for step in trail.iter() {
        put_or_undo(alloc, replies, &mut fresh, trail, &step.0)?;
    }
    Ok(())
}

// Puts the first reply of a trail to a question in. Out of memory, all fresh questions are taken out again.
fn put_or_undo(
    alloc: Global,
    replies: &mut Replies,
    fresh: &mut Vec<Ordered>,
    trail: &Trail,
    question: &Question,
) -> Result<(), AllocError>
    ensures ok { OnOk result ((q : Question) → reply_at replies.new q ≡ option_or (reply_at replies.old q)
        (cond (question_eq question.now q) (reply_in trail.now q) None)) }
    ensures back { OnOk result ((q : Question) → kept_without fresh.new.items replies.new q
        ≡ kept_without fresh.old.items replies.old q) }
    ensures undone { OnErr result ((q : Question) → reply_at replies.new q
        ≡ kept_without fresh.old.items replies.old q) }
    ensures are { AreReplies (steps_of replies.old.entries)
        → AreReplies (steps_of replies.new.entries) }
{
    match put_first(alloc, replies, fresh, trail, question) {
        Ok(()) => Ok(()),
        Err(e) => {
            take_out(replies, fresh.as_slice());
            Err(e)
        }
    }
}

// Puts the first reply of a trail to a question in, where the question isn't there. It is then one of the fresh ones.
fn put_first(
    alloc: Global,
    replies: &mut Replies,
    fresh: &mut Vec<Ordered>,
    trail: &Trail,
    question: &Question,
) -> Result<(), AllocError>
    ensures ok { OnOk result ((q : Question) → reply_at replies.new q ≡ option_or (reply_at replies.old q)
        (cond (question_eq question.now q) (reply_in trail.now q) None)) }
    ensures back { (q : Question) → kept_without fresh.new.items replies.new q
        ≡ kept_without fresh.old.items replies.old q }
    ensures are { AreReplies (steps_of replies.old.entries)
        → AreReplies (steps_of replies.new.entries) }
{
    let Some(reply) = trail.reply_to(question) else {
        return Ok(());
    };
    let key = ordered(alloc, question)?;
    if replies.contains_key(&key) {
        return Ok(());
    }
    let reply = reply.try_clone(alloc)?;
    let noted = ordered(alloc, question)?;
    fresh.push(noted)?;
    reply_holds_bytes(&reply);
    replies.insert(key, reply)?;
    Ok(())
}

// Takes questions out.
fn take_out(replies: &mut Replies, questions: &[Ordered])
    ensures gone { (q : Question) → reply_at replies.new q ≡ kept_without questions.now replies.old q }
    ensures are { AreReplies (steps_of replies.old.entries)
        → AreReplies (steps_of replies.new.entries) }
{
    for question in questions {
        replies.remove(question);
    }
}

// A question as a key.
fn ordered(alloc: Global, question: &Question) -> Result<Ordered, AllocError>
    ensures { IfOk result (λ key. key.question ≡ question.now) }
{
    Ok(Ordered {
        question: question.try_clone(alloc)?,
    })
}

// The bytes of a reply are bytes, as the type says.
fn reply_holds_bytes(reply: &Reply)
    ensures { IsTrue (holds_bytes reply.now) }
{
    if let Reply::Bytes(Some(bytes)) = reply {
        bytes_are_bytes(bytes);
    }
}

/// Refuses a trail whose first reply to a question is another one than the kept one.
pub(crate) fn check_all(alloc: Global, replies: &Replies, trail: &Trail) -> Result<(), BundleError>
    ensures ok { OnOk result ((q : Question) → AgreeAt (steps_of replies.now.entries) trail.now q) }
    ensures refused { IfErr result (λ e. IsRefusedBy e (steps_of replies.now.entries) trail.now) }
{
    for step in trail.iter() {
        check(alloc, replies, trail, &step.0)?;
    }
    Ok(())
}

// Refuses a trail whose first reply to this question is another one than the kept one.
fn check(
    alloc: Global,
    replies: &Replies,
    trail: &Trail,
    question: &Question,
) -> Result<(), BundleError>
    ensures ok { OnOk result (AgreeAt (steps_of replies.now.entries) trail.now question.now) }
    ensures refused { IfErr result (λ e.
        TellsDiffer e question.now (steps_of replies.now.entries) trail.now) }
{
    let Some(given) = trail.reply_to(question) else {
        return Ok(());
    };
    let key = ordered(alloc, question)?;
    let Some(kept) = replies.get(&key) else {
        return Ok(());
    };
    if is_same(kept, given) {
        return Ok(());
    }
    let kept = kept.try_clone(alloc)?;
    let given = given.try_clone(alloc)?;
    Err(BundleError::Conflict {
        question: key.question,
        kept,
        given,
    })
}

// Whether two replies are one.
fn is_same(a: &Reply, b: &Reply) -> bool
    ensures { MatchBool result (a.now ≡ b.now) (a.now ≢ b.now) }
{
    a == b
}
