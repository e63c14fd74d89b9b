// Writes outcomes as lines.
ghost use Rattle.std.specs.Prelude.{◌≡◌, IfOk, string_bytes};
ghost use Rattle.report_core.specs.Lines.{line_with_trail, outcome_line, verdict_line};

use crate::put_verdicts::{put_outcome, put_verdict};
use resolve_stack::{Outcome, Verdict};
use std::alloc::{AllocError, Global};

/// The line of a verdict, with its line end.
#[tactic(auto, unfolding(crate::specs::Lines::verdict_line))]
pub fn line_of_verdict(alloc: Global, verdict: &Verdict) -> Result<String, AllocError>
    ensures { IfOk result (λ line. string_bytes line ≡ verdict_line verdict.now) }
{
    let mut line = String::new(alloc);
    put_verdict(&mut line, verdict)?;
    line.push_str("\n")?;
    Ok(line)
}

/// The line of a verdict with its trail, and with its line end.
#[tactic(auto, unfolding(crate::specs::Lines::line_with_trail))]
pub fn line_with_trail(alloc: Global, outcome: &Outcome) -> Result<String, AllocError>
    ensures { IfOk result (λ line. string_bytes line ≡ line_with_trail outcome.now) }
{
    let mut line = String::new(alloc);
    put_outcome(&mut line, outcome)?;
    line.push_str("\n")?;
    Ok(line)
}

/// The line of an outcome, with its trail where trails are asked for.
pub fn line_of_outcome(alloc: Global, outcome: &Outcome, trails: bool) -> Result<String, AllocError>
    ensures { IfOk result (λ line. string_bytes line ≡ outcome_line trails outcome.now) }
{
    if trails {
        return line_with_trail(alloc, outcome);
    }
    line_of_verdict(alloc, &outcome.verdict)
}
