// Writes the lines of a bundle.
ghost use Rattle.std.specs.Prelude.{◌≡◌, IfOk, string_bytes};
ghost use Rattle.trail_bundle.specs.BundleText.{reply_line, request_line};

use crate::BundleRequest;
use std::alloc::{AllocError, Global};
use trail_texts::{value_of_request, value_of_step};
use tree_core::{Question, Reply};

/// The line of a request, without a line end.
pub(crate) fn line_of_request(alloc: Global, request: &BundleRequest) -> Result<String, AllocError>
    ensures { IfOk result (λ line. string_bytes line ≡ request_line request.now) }
{
    let value = value_of_request(alloc, &request.importer, request.specifier.as_str())?;
    let line = value.to_string(alloc)?;
    Ok(line)
}

/// The line of a question with its reply, without a line end.
pub(crate) fn line_of_step(
    alloc: Global,
    question: &Question,
    reply: &Reply,
) -> Result<String, AllocError>
    ensures { IfOk result (λ line. string_bytes line ≡ reply_line (question.now, reply.now)) }
{
    let value = value_of_step(alloc, question, reply)?;
    let line = value.to_string(alloc)?;
    Ok(line)
}
