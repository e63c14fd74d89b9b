// Reads the lines of requests and replies: what a line's value reads as, where that is written as the line.
ghost use Rattle.std.specs.Prelude.{◌≡◌, bytes_eq, codes, nat_lt, string_bytes, IfOk, IfSome, IfNone, IsTrue};
ghost use Rattle.std.specs.Prelude.{option_and_then, option_map};
ghost use Rattle.std.specs.List.{list_all};
ghost use Rattle.std.specs.Result.{result_map_both};
ghost use Rattle.serde_json.specs.Find.{as_str};
ghost use Rattle.serde_json.specs.Read.{read};
ghost use Rattle.serde_json.specs.View.{view};
ghost use Rattle.json_reading.specs.Reading.{ReadsAs, field_by, nullable_by};
ghost use Rattle.tree_core.specs.declared.question.Question.{Question};
ghost use Rattle.tree_core.specs.declared.question.Reply.{Reply};
ghost use Rattle.tree_core.specs.declared.question.Reply.TheVariants.{Bytes as BytesReply};
ghost use Rattle.trail_texts.specs.Reading.{importer_of};
ghost use Rattle.trail_bundle.specs.declared.request.BundleRequest.{BundleRequest};
ghost use Rattle.trail_bundle.specs.Bundle.{holds_bytes, is_reply};
ghost use Rattle.trail_bundle.specs.BundleText.{reply_line, request_line};
ghost use Rattle.trail_bundle.specs.LineReading.{bytes_of, question_named, reply_to, request_of, step_of};
ghost use Rattle.trail_bundle.specs.LineReading.{step_parts};

use crate::BundleRequest;
use crate::written::{line_of_request, line_of_step};
use json_reading::{FromJson, FromJsonError, field};
use serde_json::Value;
use std::alloc::{AllocError, Global};
use sugar_path::{Bytes, Text};
use swc_loader::FileName;
use trail_texts::{bytes_of_hex, read_importer};
use tree_core::{Question, Reply};

/// The request whose line this is.
pub(crate) fn request_on(alloc: Global, line: &str) -> Result<Option<BundleRequest>, AllocError>
    ensures some { IfOk result (λ o. IfSome o (λ r. line.now ≡ request_line r)) }
    ensures none { IfOk result (λ o. IfNone o ((r : BundleRequest) → line.now ≡ request_line r → ⊥)) }
{
    let request = match read_request(alloc, line) {
        Ok(request) => request,
        Err(FromJsonError::OtherKind) => return Ok(None),
        Err(FromJsonError::NoMemory) => return Err(AllocError),
    };
    let written = line_of_request(alloc, &request)?;
    if is_text(&written, line) {
        return Ok(Some(request));
    }
    Ok(None)
}

/// The question and the reply whose line this is.
pub(crate) fn step_on(alloc: Global, line: &str) -> Result<Option<(Question, Reply)>, AllocError>
    ensures some { IfOk result (λ o. IfSome o (λ step. line.now ≡ reply_line step)) }
    ensures reply { IfOk result (λ o. IfSome o (λ step. IsTrue (is_reply step))) }
    ensures none { IfOk result (λ o. IfNone o ((step : Question × Reply)
        → IsTrue (is_reply step) → line.now ≡ reply_line step → ⊥)) }
{
    let (question, reply) = match read_step(alloc, line) {
        Ok(step) => step,
        Err(FromJsonError::OtherKind) => return Ok(None),
        Err(FromJsonError::NoMemory) => return Err(AllocError),
    };
    let written = line_of_step(alloc, &question, &reply)?;
    if is_text(&written, line) {
        return Ok(Some((question, reply)));
    }
    Ok(None)
}

// Whether a line that was written is this text.
fn is_text(written: &String, line: &str) -> bool
    ensures { result ≡ bytes_eq (string_bytes written.now) line.now }
{
    written.as_str() == line
}

// The value of a line.
fn value_of_line(alloc: Global, line: &str) -> Result<Value, FromJsonError>
    ensures { ReadsAs (result_map_both view (λ e. e) result) (read line.now) }
{
    match Value::from_str(alloc, line) {
        Ok(value) => Ok(value),
        Err(e) => {
            if e.is_memory() {
                Err(FromJsonError::NoMemory)
            } else {
                Err(FromJsonError::OtherKind)
            }
        }
    }
}

// The request that a line reads as.
fn read_request(alloc: Global, line: &str) -> Result<BundleRequest, FromJsonError>
    ensures { ReadsAs result (option_and_then request_of (read line.now)) }
{
    let value = value_of_line(alloc, line)?;
    request_from(alloc, &value)
}

fn request_from(alloc: Global, value: &Value) -> Result<BundleRequest, FromJsonError>
    ensures { ReadsAs result (request_of (view value.now)) }
{
    let importer = importer_in(alloc, value)?;
    let specifier: Text = field(alloc, value, "specifier")?;
    Ok(BundleRequest {
        importer,
        specifier,
    })
}

fn importer_in(alloc: Global, value: &Value) -> Result<FileName, FromJsonError>
    ensures { ReadsAs result (field_by (codes "from") importer_of (view value.now)) }
{
    match value.get("from") {
        Some(from) => read_importer(alloc, from),
        None => Err(FromJsonError::OtherKind),
    }
}

// The question and the reply that a line reads as.
fn read_step(alloc: Global, line: &str) -> Result<(Question, Reply), FromJsonError>
    ensures read { ReadsAs result (option_and_then step_of (read line.now)) }
    ensures reply { IfOk result (λ step. IsTrue (is_reply step)) }
{
    let value = value_of_line(alloc, line)?;
    step_from(alloc, &value)
}

fn step_from(alloc: Global, value: &Value) -> Result<(Question, Reply), FromJsonError>
    ensures read { ReadsAs result (step_of (view value.now)) }
    ensures reply { IfOk result (λ step. IsTrue (is_reply step)) }
{
    let Some((kind, path, told)) = step_parts(value) else {
        return Err(FromJsonError::OtherKind);
    };
    let question = question_named(alloc, kind, path)?;
    let reply = reply_from(alloc, &question, told)?;
    Ok((question, reply))
}

// The kind, the path and the reply of a step.
fn step_parts(value: &Value) -> Option<(&str, &str, &Value)>
    ensures { option_map (λ parts. (parts.0.now, parts.1.now, view parts.2.now)) result
        ≡ step_parts (view value.now) }
{
    let kind = value.get(0usize)?.as_str()?;
    let path = value.get(1usize)?.as_str()?;
    let told = value.get(2usize)?;
    Some((kind, path, told))
}

// The question of a named kind on a path, whose copies share the path.
fn question_named(alloc: Global, kind: &str, path: &str) -> Result<Question, FromJsonError>
    ensures { ReadsAs result (question_named kind.now path.now) }
{
    let path = Text::shared(alloc, path)?;
    match kind {
        "file" => Ok(Question::File(path)),
        "dir" => Ok(Question::Dir(path)),
        "exists" => Ok(Question::Exists(path)),
        "read" => Ok(Question::Read(path)),
        "canon" => Ok(Question::Canon(path)),
        _ => Err(FromJsonError::OtherKind),
    }
}

// The reply to a question.
fn reply_from(alloc: Global, question: &Question, told: &Value) -> Result<Reply, FromJsonError>
    ensures read { ReadsAs result (reply_to question.now (view told.now)) }
    ensures bytes { IfOk result (λ reply. IsTrue (holds_bytes reply)) }
{
    match question {
        Question::File(_) => Ok(Reply::Flag(bool::from_json(alloc, told)?)),
        Question::Dir(_) => Ok(Reply::Flag(bool::from_json(alloc, told)?)),
        Question::Exists(_) => Ok(Reply::Flag(bool::from_json(alloc, told)?)),
        Question::Read(_) => Ok(Reply::Bytes(bytes_from(alloc, told)?)),
        Question::Canon(_) => Ok(Reply::Name(name_from(alloc, told)?)),
    }
}

// The bytes of a file, or null for none.
fn bytes_from(alloc: Global, told: &Value) -> Result<Option<Bytes>, FromJsonError>
    ensures read { ReadsAs result (nullable_by bytes_of (view told.now)) }
    ensures bytes { IfOk result (λ o. IsTrue (holds_bytes (BytesReply o))) }
{
    if told.is_null() {
        return Ok(None);
    }
    let bytes = bytes_of_hex(alloc, told.as_str())?;
    bytes_are_bytes(&bytes);
    Ok(Some(bytes))
}

// The bytes of a content are bytes, as the type says.
pub(crate) fn bytes_are_bytes(bytes: &Bytes)
    ensures { IsTrue (list_all (λ b. nat_lt b 256) bytes.now) }
{
    items_are_bytes(bytes.as_slice());
}

fn items_are_bytes(items: &[u8])
    ensures { IsTrue (list_all (λ b. nat_lt b 256) items.now) }
{}

// A canonical name, or null for none.
fn name_from(alloc: Global, told: &Value) -> Result<Option<Text>, FromJsonError>
    ensures { ReadsAs result (nullable_by as_str (view told.now)) }
{
    Option::<Text>::from_json(alloc, told)
}
