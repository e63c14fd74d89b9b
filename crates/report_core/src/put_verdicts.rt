// Puts verdicts behind what is being written.
ghost use Rattle.std.specs.Prelude.{OnOk, string_bytes};
ghost use Rattle.serde_json.specs.Data.{no_members};
ghost use Rattle.report_core.specs.Lines.{trail_member};
ghost use Rattle.report_core.specs.Puts.{IsPut, IsPutBut};
ghost use Rattle.report_core.specs.Verdicts.{answer_value, found_value, name_value, refused_value};
ghost use Rattle.report_core.specs.Verdicts.{verdict_value, via_value};

use crate::puts::{put_member, put_null, put_one, put_optional, put_text, put_value};
use crate::trails::value_of_trail;
use crate::verdicts::value_of_refused;
use resolve_stack::{FileName, Found, Outcome, Refusal, Resolution, Verdict, Via};
use std::alloc::AllocError;

/// Puts the object of a verdict, without a trail.
pub fn put_verdict(out: &mut String, verdict: &Verdict) -> Result<(), AllocError>
    ensures { OnOk result (IsPut (string_bytes out.old) (string_bytes out.new)
        (verdict_value no_members verdict.now)) }
{
    put_front(out, verdict)?;
    out.push_str("}")
}

// Puts the object of a verdict with its trail.
pub(crate) fn put_outcome(out: &mut String, outcome: &Outcome) -> Result<(), AllocError>
    ensures { OnOk result (IsPut (string_bytes out.old) (string_bytes out.new)
        (verdict_value (trail_member outcome.now.trail) outcome.now.verdict)) }
{
    let trail = value_of_trail(*out.allocator(), &outcome.trail)?;
    put_front(out, &outcome.verdict)?;
    put_member(out, true, "trail")?;
    put_value(out, &trail)?;
    out.push_str("}")
}

// Puts a verdict, but for the members behind its own.
fn put_front(out: &mut String, verdict: &Verdict) -> Result<(), AllocError>
    ensures { OnOk result (IsPutBut (string_bytes out.old) (string_bytes out.new)
        (λ last. verdict_value last verdict.now)) }
{
    match verdict {
        Verdict::Answered(answer) => put_answer(out, answer),
        Verdict::Refused(refusal) => {
            out.push_str("{")?;
            put_member(out, false, "refused")?;
            put_refused(out, refusal)
        }
    }
}

// Puts an answer, but for the members behind its own.
fn put_answer(out: &mut String, answer: &Resolution) -> Result<(), AllocError>
    ensures { OnOk result (IsPutBut (string_bytes out.old) (string_bytes out.new)
        (λ last. answer_value last answer.now)) }
{
    out.push_str("{")?;
    put_member(out, false, "answer")?;
    put_name(out, &answer.filename)?;
    put_member(out, true, "found")?;
    put_found(out, &answer.found)?;
    put_member(out, true, "slug")?;
    put_optional(out, &answer.slug)
}

fn put_name(out: &mut String, name: &FileName) -> Result<(), AllocError>
    ensures { OnOk result (IsPut (string_bytes out.old) (string_bytes out.new) (name_value name.now)) }
{
    match name {
        FileName::Real(text) => put_one(out, "real", text.as_str()),
        FileName::Custom(text) => put_one(out, "custom", text.as_str()),
        FileName::Anon => put_null(out),
    }
}

fn put_found(out: &mut String, found: &Option<Found>) -> Result<(), AllocError>
    ensures { OnOk result (IsPut (string_bytes out.old) (string_bytes out.new) (found_value found.now)) }
{
    let Some(found) = found else {
        return put_null(out);
    };
    out.push_str("{")?;
    put_member(out, false, "file")?;
    put_text(out, found.file.as_str())?;
    put_member(out, true, "via")?;
    put_via(out, &found.via)?;
    out.push_str("}")
}

fn put_via(out: &mut String, via: &Option<Via>) -> Result<(), AllocError>
    ensures { OnOk result (IsPut (string_bytes out.old) (string_bytes out.new) (via_value via.now)) }
{
    let Some(via) = via else {
        return put_null(out);
    };
    out.push_str("{")?;
    put_member(out, false, "location")?;
    put_text(out, via.location.as_str())?;
    put_member(out, true, "name")?;
    put_text(out, via.name.as_str())?;
    put_member(out, true, "reference")?;
    put_text(out, via.reference.as_str())?;
    out.push_str("}")
}

// Puts a refusal. It ends a request, so it may be made as a value.
fn put_refused(out: &mut String, refusal: &Refusal) -> Result<(), AllocError>
    ensures { OnOk result (IsPut (string_bytes out.old) (string_bytes out.new) (refused_value refusal.now)) }
{
    let value = value_of_refused(*out.allocator(), refusal)?;
    put_value(out, &value)
}
