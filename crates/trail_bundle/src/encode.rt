// Writes the parts of a bundle's text.
ghost use Rattle.std.specs.Prelude.{◌≡◌, ◌++◌, ◌∷◌, [], IfOk, OnOk, codes, decimal, string_bytes};
ghost use Rattle.trail_bundle.specs.BundleText.{counts_line, ended, reply_line, reply_lines, request_line};
ghost use Rattle.trail_bundle.specs.BundleText.{request_lines};
ghost use Rattle.trail_bundle.specs.Steps.{steps_of};

use crate::BundleRequest;
use crate::ordered::{Ordered, Replies};
use crate::written::{line_of_request, line_of_step};
use std::alloc::{AllocError, Global};
use tree_core::Reply;

/// The line of the counts, with its end.
pub(crate) fn line_of_counts(
    alloc: Global,
    requests: usize,
    replies: usize,
) -> Result<String, AllocError>
    ensures { IfOk result (λ line. string_bytes line ≡ ended (counts_line requests replies)) }
{
    let line = decimal_counts(alloc, requests, replies)?;
    Ok(line)
}

// The counts in decimal.
fn decimal_counts(alloc: Global, requests: usize, replies: usize) -> Result<String, AllocError>
    ensures { IfOk result (λ line. string_bytes line ≡ codes "trail-bundle 1 "
        ++ (decimal requests ++ 32 ∷ (decimal replies ++ 10 ∷ []))) }
{
    format!(in alloc; "trail-bundle 1 {requests} {replies}\n")
}

/// Writes the lines of requests.
pub(crate) fn write_requests(
    alloc: Global,
    text: &mut String,
    requests: &[BundleRequest],
) -> Result<(), AllocError>
    ensures { OnOk result (string_bytes text.new
        ≡ string_bytes text.old ++ request_lines requests.now) }
{
    for request in requests {
        write_request(alloc, text, request)?;
    }
    Ok(())
}

fn write_request(
    alloc: Global,
    text: &mut String,
    request: &BundleRequest,
) -> Result<(), AllocError>
    ensures { OnOk result (string_bytes text.new
        ≡ string_bytes text.old ++ ended (request_line request.now)) }
{
    let line = line_of_request(alloc, request)?;
    text.push_str(line.as_str())?;
    text.push_str("\n")?;
    Ok(())
}

/// Writes the lines of questions with their replies, in order.
pub(crate) fn write_replies(
    alloc: Global,
    text: &mut String,
    replies: &Replies,
) -> Result<(), AllocError>
    ensures { OnOk result (string_bytes text.new
        ≡ string_bytes text.old ++ reply_lines (steps_of replies.now.entries)) }
{
    for (key, reply) in replies.iter() {
        write_reply(alloc, text, key, reply)?;
    }
    Ok(())
}

fn write_reply(
    alloc: Global,
    text: &mut String,
    key: &Ordered,
    reply: &Reply,
) -> Result<(), AllocError>
    ensures { OnOk result (string_bytes text.new
        ≡ string_bytes text.old ++ ended (reply_line (key.now.question, reply.now))) }
{
    let line = line_of_step(alloc, &key.question, reply)?;
    text.push_str(line.as_str())?;
    text.push_str("\n")?;
    Ok(())
}
