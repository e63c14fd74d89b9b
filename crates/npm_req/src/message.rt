// What a person is told of a text that is no requirement.
ghost use Rattle.std.specs.Prelude.{◌≡◌, IfOk, string_bytes};
ghost use Rattle.npm_req.specs.Message.{IsMessage, unexpected_message};

use crate::error::NpmVersionReqParseError;
use std::alloc::{AllocError, Global};
use sugar_path::Text;

impl NpmVersionReqParseError {
    /// The message in full. `text` is what was refused, and is shown from the place on.
    pub fn message(&self, alloc: Global, text: &str) -> Result<Text, AllocError>
        ensures { IfOk result (IsMessage self.now text.now) }
    {
        match self {
            NpmVersionReqParseError::Unexpected { place } => {
                let rest = match text.split_at_checked(*place) {
                    Some((_, rest)) => rest,
                    None => "",
                };
                Ok(Text::from(unexpected_message(alloc, rest)?))
            }
            NpmVersionReqParseError::NoMemory => Text::of(alloc, "out of memory"),
        }
    }
}

fn unexpected_message(alloc: Global, rest: &str) -> Result<String, AllocError>
    ensures { IfOk result (λ made. string_bytes made ≡ unexpected_message rest.now) }
{
    format!(in alloc; "Invalid npm version requirement. Unexpected character.\n  {rest}\n  ~")
}
