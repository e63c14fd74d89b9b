// The steps of a program that are alive at a place of a text.
ghost use Rattle.std.specs.Prelude.{◌≡◌, ◌/◌, ◌<◌, ◌++◌, ◌∷◌, [], ℕ, IfOk, OnOk, length, false, ◌⊎◌};
ghost use Rattle.es_pattern.specs.NumberSet.{Has, has};
ghost use Rattle.es_pattern.specs.Alive.{next_place, same_place};

use crate::number_set::NumberSet;
use crate::step::Step;
use std::alloc::{AllocError, Global};
use std::mem;

// What a step over a piece does at a place.
#[derive(Clone, Copy, Debug)]
pub(crate) enum Passing {
    // It goes nowhere.
    Stops,
    // It goes on at its place.
    Stays,
    // It goes on at the next place.
    Moves,
}

// The steps that are alive at a place. The sets are used again for each place.
#[derive(Drop)]
pub(crate) struct Alive {
    // Steps that are still to be taken at the place.
    pub waiting: Vec<usize>,
    // Steps that were taken there, and the program's end.
    pub taken: NumberSet,
    // Steps at the next place.
    pub next: Vec<usize>,
}

impl Alive {
    // No step of a program of that size.
    pub(crate) fn new(alloc: Global, size: usize) -> Result<Alive, AllocError>
        ensures room { IfOk result (λ alive. size / 64 < length alive.taken.words.items) }
        ensures waiting { IfOk result (λ alive. alive.waiting.items ≡ []) }
        ensures taken { IfOk result (λ alive. (n : ℕ) → has alive.taken.words.items n ≡ false) }
        ensures next { IfOk result (λ alive. alive.next.items ≡ []) }
    {
        Ok(Alive {
            waiting: Vec::new(alloc),
            taken: NumberSet::new(alloc, size)?,
            next: Vec::new(alloc),
        })
    }

    // Lets a walk begin at the place.
    pub(crate) fn begin(&mut self) -> Result<(), AllocError>
        ensures waiting { OnOk result (self.new.waiting.items ≡ self.old.waiting.items ++ 0 ∷ []) }
        ensures taken { self.new.taken ≡ self.old.taken }
        ensures next { self.new.next ≡ self.old.next }
    {
        self.waiting.push(0)?;
        Ok(())
    }

    // Takes the step `at` of a program of that size: the steps after it wait, or stand at the next
    // place.
    pub(crate) fn take(
        &mut self,
        step: Step,
        passing: Passing,
        at: usize,
        size: usize,
    ) -> Result<(), AllocError>
        requires { at < size }
        ensures waiting { OnOk result
            (self.new.waiting.items ≡ self.old.waiting.items ++ same_place step at size passing) }
        ensures next { OnOk result
            (self.new.next.items ≡ self.old.next.items ++ next_place step at passing) }
        ensures room { length self.new.taken.words.items ≡ length self.old.taken.words.items }
        ensures added { at / 64 < length self.old.taken.words.items
            → Has self.new.taken.words.items at }
        ensures kept { (n : ℕ) → Has self.old.taken.words.items n
            → Has self.new.taken.words.items n }
        ensures none_else { (n : ℕ) → Has self.new.taken.words.items n
            → (at ≡ n) ⊎ Has self.old.taken.words.items n }
    {
        self.taken.insert(at);
        push_onward(step, passing, at, size, &mut self.waiting, &mut self.next)
    }

    // Goes on to the next place.
    pub(crate) fn go_on(&mut self)
        ensures waiting { self.new.waiting ≡ self.old.next }
        ensures next { self.new.next ≡ self.old.waiting }
        ensures room { length self.new.taken.words.items ≡ length self.old.taken.words.items }
        ensures taken { (n : ℕ) → has self.new.taken.words.items n ≡ false }
    {
        mem::swap(&mut self.waiting, &mut self.next);
        self.taken.clear();
    }
}

// Appends the steps after one.
fn push_onward(
    step: Step,
    passing: Passing,
    at: usize,
    size: usize,
    waiting: &mut Vec<usize>,
    next: &mut Vec<usize>,
) -> Result<(), AllocError>
    requires { at < size }
    ensures waiting { OnOk result
        (waiting.new.items ≡ waiting.old.items ++ same_place step at size passing) }
    ensures next { OnOk result (next.new.items ≡ next.old.items ++ next_place step at passing) }
{
    match step {
        Step::Pass(_) => match passing {
            Passing::Stops => {}
            Passing::Stays => waiting.push(at + 1)?,
            Passing::Moves => next.push(at + 1)?,
        },
        Step::Fork(by) => {
            waiting.push(at + 1)?;
            if by <= size - at {
                waiting.push(at + by)?;
            }
        }
        Step::Jump(by) => {
            if by <= size - at {
                waiting.push(at + by)?;
            }
        }
        Step::Back(by) => {
            if by <= at {
                waiting.push(at - by)?;
            }
        }
    }
    Ok(())
}
