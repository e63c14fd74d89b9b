// Writes questions and replies as values of JSON.
ghost use Rattle.std.specs.Prelude.{◌≡◌, IfOk};
ghost use Rattle.serde_json.specs.View.{view};
ghost use Rattle.trail_texts.specs.TrailTexts.{
  bytes_value,
  kind_name,
  question_value,
  reply_value,
  step_value,
  text_or_null,
};

use serde_json::{Value, json};
use std::alloc::{AllocError, Global};
use sugar_path::{Bytes, Text};
use tree_core::{Question, Reply};

/// A question with its reply, as a list of its kind, its path and the reply.
pub fn value_of_step(alloc: Global, question: &Question, reply: &Reply) -> Result<Value, AllocError>
    ensures { IfOk result (λ value. view value ≡ step_value (question.now, reply.now)) }
{
    let told = value_of_reply(alloc, reply)?;
    json!(in alloc; [kind_name(question), question.path(), told])
}

/// A question, as a list of its kind and its path.
pub fn value_of_question(alloc: Global, question: &Question) -> Result<Value, AllocError>
    ensures { IfOk result (λ value. view value ≡ question_value question.now) }
{
    json!(in alloc; [kind_name(question), question.path()])
}

fn value_of_reply(alloc: Global, reply: &Reply) -> Result<Value, AllocError>
    ensures { IfOk result (λ value. view value ≡ reply_value reply.now) }
{
    match reply {
        Reply::Flag(b) => Ok(Value::Bool(*b)),
        Reply::Bytes(bytes) => value_of_bytes(alloc, bytes),
        Reply::Name(name) => value_of_text(alloc, name),
    }
}

// The hex text is made once, and moved into its value.
fn value_of_bytes(alloc: Global, bytes: &Option<Bytes>) -> Result<Value, AllocError>
    ensures { IfOk result (λ value. view value ≡ bytes_value bytes.now) }
{
    match bytes {
        None => Ok(Value::Null),
        Some(bytes) => Ok(Value::String(hex::encode(alloc, bytes.as_slice())?)),
    }
}

// A text that may be absent: null where it is.
fn value_of_text(alloc: Global, text: &Option<Text>) -> Result<Value, AllocError>
    ensures { IfOk result (λ value. view value ≡ text_or_null text.now) }
{
    match text {
        None => Ok(Value::Null),
        Some(text) => Value::try_from_str(alloc, text.as_str()),
    }
}

fn kind_name(question: &Question) -> &'static str
    ensures { result.now ≡ kind_name question.now }
{
    match question {
        Question::File(_) => "file",
        Question::Dir(_) => "dir",
        Question::Exists(_) => "exists",
        Question::Read(_) => "read",
        Question::Canon(_) => "canon",
    }
}
