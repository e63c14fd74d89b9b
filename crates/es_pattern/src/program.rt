// The steps of parts that are joined. A deque takes steps at both ends, so the parts that stand
// before aren't copied.
ghost use Rattle.std.specs.Prelude.{◌≡◌, ◌<◌, ◌++◌, ◌∷◌, [], IfOk, OnOk, suc, Some, None};
ghost use Rattle.es_pattern.specs.Program.{
  choice_steps,
  copies,
  maybe_steps,
  plus_steps,
  repetition_steps,
  sequence_steps,
  star_steps,
};

use crate::step::{Direction, Step};
use std::alloc::{AllocError, Global};
use std::collections::VecDeque;

// Puts the steps of a part before those of another.
fn prepend(steps: &mut VecDeque<Step>, mut before: VecDeque<Step>) -> Result<(), AllocError>
    ensures { OnOk result (steps.new.items ≡ before.items ++ steps.old.items) }
{
    while let Some(step) = before.pop_back() {
        steps.push_front(step)?;
    }
    Ok(())
}

// The steps of one part and the other, in the order in which a walk comes to them.
pub(crate) fn sequence(
    direction: Direction,
    mut first: VecDeque<Step>,
    mut second: VecDeque<Step>,
) -> Result<VecDeque<Step>, AllocError>
    ensures { IfOk result
        (λ steps. steps.items ≡ sequence_steps direction first.items second.items) }
{
    match direction {
        Direction::Forward => first.append(&mut second)?,
        Direction::Backward => prepend(&mut first, second)?,
    }
    Ok(first)
}

// The steps of one part or the other.
pub(crate) fn choice(
    mut first: VecDeque<Step>,
    mut second: VecDeque<Step>,
) -> Result<VecDeque<Step>, AllocError>
    ensures { IfOk result (λ steps. steps.items ≡ choice_steps first.items second.items) }
{
    let size = first.len();
    first.push_front(Step::Fork(size + 2))?;
    first.push_back(Step::Jump(second.len() + 1))?;
    first.append(&mut second)?;
    Ok(first)
}

// The steps of a part any number of times.
fn star(mut part: VecDeque<Step>) -> Result<VecDeque<Step>, AllocError>
    ensures { IfOk result (λ steps. steps.items ≡ star_steps part.items) }
{
    let size = part.len();
    part.push_front(Step::Fork(size + 2))?;
    part.push_back(Step::Back(size + 1))?;
    Ok(part)
}

// Appends a part so many times.
#[tactic(auto, using(crate::proofs::Walking::copies_more))]
fn repeat(steps: &mut Vec<Step>, part: &[Step], times: u32) -> Result<(), AllocError>
    ensures { OnOk result (steps.new.items ≡ steps.old.items ++ copies times part.now) }
{
    for _time in 0..times {
        steps.extend_from_slice(part)?;
    }
    Ok(())
}

// The steps of a part so many times, and once or more after that: the last copy leads back to its
// start.
fn at_least(alloc: Global, part: &[Step], before: u32) -> Result<Vec<Step>, AllocError>
    ensures { IfOk result (λ steps. steps.items ≡ copies before part.now ++ plus_steps part.now) }
{
    let mut steps = Vec::new(alloc);
    repeat(&mut steps, part, before)?;
    steps.extend_from_slice(part)?;
    steps.push(Step::Fork(2))?;
    steps.push(Step::Back(part.len() + 1))?;
    Ok(steps)
}

// The steps of a part `least` times and up to `more` times more.
fn up_to(alloc: Global, part: &[Step], least: u32, more: u32) -> Result<Vec<Step>, AllocError>
    ensures { IfOk result
        (λ steps. steps.items ≡ copies least part.now ++ copies more (maybe_steps part.now)) }
{
    let mut steps = Vec::new(alloc);
    repeat(&mut steps, part, least)?;
    let mut once = Vec::new(alloc);
    once.push(Step::Fork(part.len() + 1))?;
    once.extend_from_slice(part)?;
    repeat(&mut steps, &once, more)?;
    Ok(steps)
}

// The steps of a part `least` times and up to `more` times more, or any number of times more.
pub(crate) fn repetition(
    alloc: Global,
    part: VecDeque<Step>,
    least: u32,
    more: Option<u32>,
) -> Result<VecDeque<Step>, AllocError>
    ensures { IfOk result (λ steps. steps.items ≡ repetition_steps least more part.items) }
{
    let steps = match more {
        Some(more) => up_to(alloc, &part.into_vec(), least, more)?,
        None if least == 0 => return star(part),
        None => at_least(alloc, &part.into_vec(), least - 1)?,
    };
    Ok(VecDeque::from_vec(steps))
}
