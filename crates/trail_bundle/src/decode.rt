// Reads a bundle from its text.
ghost use Rattle.std.specs.Prelude.{◌≡◌, ◌+◌, ◌++◌, ◌∷◌, ℕ, IfOk, IfErr, IfSome, IfNone, IsTrue, OnOk};
ghost use Rattle.std.specs.Prelude.{length};
ghost use Rattle.trail_bundle.specs.Bundle.{AreReplies};
ghost use Rattle.trail_bundle.specs.BundleText.{counts_line, ended, reply_lines, request_line, request_lines};
ghost use Rattle.trail_bundle.specs.Counts.{count_text};
ghost use Rattle.trail_bundle.specs.Lines.{lacks};
ghost use Rattle.trail_bundle.specs.Parts.{AreCounts, IfLine, IsNextReply, LacksReply, LacksRequest};
ghost use Rattle.trail_bundle.specs.Parts.{NoCounts, NoReply, NoRequest, TellsLine};
ghost use Rattle.trail_bundle.specs.Steps.{above_all, steps_of};

use crate::BundleRequest;
use crate::count::count_in;
use crate::decode_error::DecodeError;
use crate::line_reading::{request_on, step_on};
use crate::ordered::{Ordered, Replies};
use crate::text_lines::TextLines;
use std::alloc::Global;
use std::collections::BTreeMap;
use sugar_path::after;

/// How many requests and replies a text is to have, or the largest number where that is less.
#[derive(Clone, Copy)]
pub(crate) struct Counts {
    pub(crate) requests: u64,
    pub(crate) replies: u64,
}

/// The counts of the next line.
pub(crate) fn read_counts(lines: &mut TextLines<'_>) -> Result<Counts, DecodeError>
    ensures front { IfOk result (λ counts. (r : ℕ) × (q : ℕ) × AreCounts r q counts
        × (lines.old.rest.now ≡ ended (counts_line r q) ++ lines.new.rest.now)) }
    ensures number { IfOk result (λ _. lines.new.number ≡ lines.old.number + 1) }
    ensures lacks { IfErr result (λ e. TellsLine e lines.old.number (NoCounts lines.old.rest.now)) }
{
    let number = lines.number();
    let Some(line) = lines.next() else {
        return Err(DecodeError::NotABundle { line: number });
    };
    match counts_on(line) {
        Some(counts) => Ok(counts),
        None => Err(DecodeError::NotABundle { line: number }),
    }
}

// The counts of a line.
fn counts_on(line: &str) -> Option<Counts>
    ensures some { IfSome result (λ counts. (r : ℕ) × (q : ℕ) × AreCounts r q counts
        × (line.now ≡ counts_line r q)) }
    ensures none { IfNone result ((r q : ℕ) → line.now ≡ counts_line r q → ⊥) }
{
    match after("trail-bundle 1 ", line) {
        Some(counts) => counts_in(counts),
        None => None,
    }
}

// Two counts with a space between them.
fn counts_in(text: &str) -> Option<Counts>
    ensures some { IfSome result (λ counts. (r : ℕ) × (q : ℕ) × AreCounts r q counts
        × (text.now ≡ count_text r ++ 32 ∷ count_text q)) }
    ensures none { IfNone result ((r q : ℕ) → text.now ≡ count_text r ++ 32 ∷ count_text q → ⊥) }
{
    match parts_at_space(text) {
        Some((requests, replies)) => counts_of(requests, replies),
        None => None,
    }
}

// The counts that two texts are.
fn counts_of(requests: &str, replies: &str) -> Option<Counts>
    ensures some { IfSome result (λ counts. (r : ℕ) × (q : ℕ) × AreCounts r q counts
        × (requests.now ≡ count_text r) × (replies.now ≡ count_text q)) }
    ensures none { IfNone result ((r q : ℕ) → requests.now ≡ count_text r
        → replies.now ≡ count_text q → ⊥) }
{
    match (count_in(requests), count_in(replies)) {
        (Some(requests), Some(replies)) => Some(Counts { requests, replies }),
        _ => None,
    }
}

// What stands before the first space and behind it.
fn parts_at_space(text: &str) -> Option<(&str, &str)>
    ensures parts { IfSome result (λ parts. text.now ≡ parts.0.now ++ 32 ∷ parts.1.now) }
    ensures front { IfSome result (λ parts. IsTrue (lacks 32 parts.0.now)) }
    ensures none { IfNone result (IsTrue (lacks 32 text.now)) }
{
    text.split_once(' ')
}

/// The requests of so many lines.
#[tactic(auto, using(crate::proofs::LineCauses::one_more_request))]
pub(crate) fn read_requests(
    alloc: Global,
    lines: &mut TextLines<'_>,
    count: u64,
) -> Result<Vec<BundleRequest>, DecodeError>
    ensures front { IfOk result (λ requests.
        lines.old.rest.now ≡ request_lines requests.items ++ lines.new.rest.now) }
    ensures all { IfOk result (λ requests. length requests.items ≡ count) }
    ensures number { IfOk result (λ _. lines.new.number ≡ lines.old.number + count) }
    ensures lacks { IfErr result (λ e.
        IfLine e (LacksRequest count lines.old.number lines.old.rest.now)) }
{
    let mut requests = Vec::new(alloc);
    for _ in 0..count {
        requests.push(read_request(alloc, lines)?)?;
    }
    Ok(requests)
}

// The request of the next line.
fn read_request(alloc: Global, lines: &mut TextLines<'_>) -> Result<BundleRequest, DecodeError>
    ensures front { IfOk result (λ request.
        lines.old.rest.now ≡ ended (request_line request) ++ lines.new.rest.now) }
    ensures number { IfOk result (λ _. lines.new.number ≡ lines.old.number + 1) }
    ensures lacks { IfErr result (λ e.
        TellsLine e lines.old.number (NoRequest lines.old.rest.now)) }
{
    let number = lines.number();
    let Some(line) = lines.next() else {
        return Err(DecodeError::NotABundle { line: number });
    };
    match request_on(alloc, line)? {
        Some(request) => Ok(request),
        None => Err(DecodeError::NotABundle { line: number }),
    }
}

/// The replies of so many lines.
#[tactic(auto, using(crate::proofs::LineCauses::one_more_reply))]
pub(crate) fn read_replies(
    alloc: Global,
    lines: &mut TextLines<'_>,
    count: u64,
) -> Result<Replies, DecodeError>
    ensures front { IfOk result (λ replies.
        lines.old.rest.now ≡ reply_lines (steps_of replies.entries) ++ lines.new.rest.now) }
    ensures all { IfOk result (λ replies. length (steps_of replies.entries) ≡ count) }
    ensures are { IfOk result (λ replies. AreReplies (steps_of replies.entries)) }
    ensures number { IfOk result (λ _. lines.new.number ≡ lines.old.number + count) }
    ensures lacks { IfErr result (λ e.
        IfLine e (LacksReply count lines.old.number lines.old.rest.now)) }
{
    let mut replies = BTreeMap::new(alloc);
    for _ in 0..count {
        read_reply(alloc, lines, &mut replies)?;
    }
    Ok(replies)
}

// The question and the reply of the next line, which stand behind all others.
fn read_reply(
    alloc: Global,
    lines: &mut TextLines<'_>,
    replies: &mut Replies,
) -> Result<(), DecodeError>
    requires { AreReplies (steps_of replies.old.entries) }
    ensures front { OnOk result (IsNextReply (steps_of replies.old.entries)
        (steps_of replies.new.entries) lines.old.rest.now lines.new.rest.now) }
    ensures are { OnOk result (AreReplies (steps_of replies.new.entries)) }
    ensures number { OnOk result (lines.new.number ≡ lines.old.number + 1) }
    ensures lacks { IfErr result (λ e. TellsLine e lines.old.number
        (NoReply (steps_of replies.old.entries) lines.old.rest.now)) }
{
    let number = lines.number();
    let Some(line) = lines.next() else {
        return Err(DecodeError::NotABundle { line: number });
    };
    let Some((question, reply)) = step_on(alloc, line)? else {
        return Err(DecodeError::NotABundle { line: number });
    };
    let key = Ordered { question };
    if !is_behind(replies, &key) {
        return Err(DecodeError::NotABundle { line: number });
    }
    replies.insert(key, reply)?;
    Ok(())
}

// Whether a question stands behind all those of a bundle.
fn is_behind(replies: &Replies, key: &Ordered) -> bool
    ensures { result ≡ above_all key.now.question (steps_of replies.now.entries) }
{
    match replies.last_key_value() {
        Some((last, _)) => last < key,
        None => true,
    }
}
