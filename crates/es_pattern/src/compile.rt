// From a pattern's pieces to what it is searched with.
ghost use Rattle.std.specs.Prelude.{◌≡◌, Bool, ℕ, ◌<◌, ◌≤◌, ◌++◌, ◌∷◌, [], IfOk, OnOk, length, slice_get, take};
ghost use Rattle.es_pattern.specs.Spans.{fits};
ghost use Rattle.es_pattern.specs.Pieces.{tree_of};
ghost use Rattle.es_pattern.specs.Begins.{may_take};
ghost use Rattle.es_pattern.specs.Size.{AllBounded, most_steps};
ghost use Rattle.es_pattern.specs.Passing.{AllClassed};
ghost use Rattle.es_pattern.specs.Compiled.{
  AllParts,
  IsProgramOf,
  code_below,
  stack_of,
  steps_of,
  top_code,
  with_code,
};

use crate::begins::begin_of;
use crate::passing::fits;
use crate::piece::{CharRange, Piece};
use crate::program::{choice, repetition, sequence};
use crate::step::{Direction, Step};
use std::alloc::{AllocError, Global};
use std::collections::VecDeque;

// What a pattern is searched with. It is made once, when the pattern is parsed.
#[derive(Drop)]
pub(crate) struct Program {
    // The steps of the whole pattern, forward.
    pub steps: Vec<Step>,
    // For each piece that is a lookahead the steps of its part, backward.
    pub lookaheads: Vec<Vec<Step>>,
    // For each piece that is one of some characters which of ASCII those are.
    pub classes: Vec<Vec<bool>>,
    // For each character of ASCII whether a walk may begin with it after the text's start, and,
    // last, whether one may with some character.
    pub begins: Vec<bool>,
    // Whether a walk that spans the empty part may begin there.
    pub may_stay: bool,
}

impl Program {
    // The program of a pattern's pieces.
    #[tactic(auto, using(crate::proofs::Sizes::steps_bounded, crate::proofs::Sizes::parts_bounded))]
    pub(crate) fn new(alloc: Global, pieces: &[Piece]) -> Result<Program, AllocError>
        ensures made { IfOk result (IsProgramOf pieces.now) }
        ensures bounded { IfOk result
            (λ program. length program.steps.items ≤ most_steps (tree_of pieces.now)) }
        ensures lookaheads_bounded { IfOk result
            (λ program. AllBounded pieces.now program.lookaheads.items) }
    {
        Ok(Program {
            steps: steps_of(alloc, pieces)?,
            lookaheads: lookaheads_of(alloc, pieces)?,
            classes: classes_of(alloc, pieces)?,
            begins: begins_of(alloc, pieces)?,
            may_stay: begin_of(alloc, pieces, 128)?.stays,
        })
    }
}

// The steps of the whole, forward.
fn steps_of(alloc: Global, pieces: &[Piece]) -> Result<Vec<Step>, AllocError>
    ensures { IfOk result (λ steps. steps.items ≡ steps_of Direction.Forward pieces.now) }
{
    let mut programs = Vec::new(alloc);
    for number in 0..pieces.len() {
        let _part = take_piece(
            alloc,
            Direction::Forward,
            &pieces[number],
            number,
            &mut programs,
        )?;
    }
    Ok(pop_last(alloc, &mut programs).into_vec())
}

// For each lookahead the steps of its part, backward.
fn lookaheads_of(alloc: Global, pieces: &[Piece]) -> Result<Vec<Vec<Step>>, AllocError>
    ensures { IfOk result (λ lookaheads. AllParts pieces.now lookaheads.items) }
{
    let mut programs = Vec::new(alloc);
    let mut lookaheads = Vec::new(alloc);
    for number in 0..pieces.len() {
        let part = take_piece(
            alloc,
            Direction::Backward,
            &pieces[number],
            number,
            &mut programs,
        )?;
        lookaheads.push(part)?;
    }
    Ok(lookaheads)
}

// Takes a piece, and gives the steps of a lookahead's part.
fn take_piece(
    alloc: Global,
    direction: Direction,
    piece: &Piece,
    number: usize,
    programs: &mut Vec<VecDeque<Step>>,
) -> Result<Vec<Step>, AllocError>
    ensures taken { OnOk result
        (stack_of programs.new.items ≡ with_code direction piece.now number
        (stack_of programs.old.items)) }
    ensures part { IfOk result (λ part. (negated : Bool) → piece.now ≡ Piece.Lookahead negated
        → part.items ≡ top_code (stack_of programs.old.items)) }
{
    if let Piece::Lookahead { .. } = piece {
        let part = pop_last(alloc, programs);
        programs.push(single(alloc, number)?)?;
        return Ok(part.into_vec());
    }
    let steps = joined(alloc, direction, piece, number, programs)?;
    programs.push(steps)?;
    Ok(Vec::new(alloc))
}

// The steps of a piece that is no lookahead, made of those that it joins.
fn joined(
    alloc: Global,
    direction: Direction,
    piece: &Piece,
    number: usize,
    programs: &mut Vec<VecDeque<Step>>,
) -> Result<VecDeque<Step>, AllocError>
    requires { (negated : Bool) → piece.now ≡ Piece.Lookahead negated → ⊥ }
    ensures { IfOk result (λ steps. steps.items ∷ stack_of programs.new.items
        ≡ with_code direction piece.now number (stack_of programs.old.items)) }
{
    match piece {
        Piece::Nothing => Ok(VecDeque::new(alloc)),
        Piece::Sequence => {
            let second = pop_last(alloc, programs);
            let first = pop_last(alloc, programs);
            sequence(direction, first, second)
        }
        Piece::Choice => {
            let second = pop_last(alloc, programs);
            let first = pop_last(alloc, programs);
            choice(first, second)
        }
        Piece::Repetition { least, more } => {
            let part = pop_last(alloc, programs);
            repetition(alloc, part, *least, *more)
        }
        Piece::Lookahead { .. } => unreachable!(),
        _ => single(alloc, number),
    }
}

// Takes the last program, which is empty where there is none.
fn pop_last(alloc: Global, programs: &mut Vec<VecDeque<Step>>) -> VecDeque<Step>
    ensures program { result.items ≡ top_code (stack_of programs.old.items) }
    ensures others { stack_of programs.new.items ≡ code_below (stack_of programs.old.items) }
{
    match programs.pop() {
        Some(program) => program,
        None => VecDeque::new(alloc),
    }
}

// The steps of a single piece.
fn single(alloc: Global, number: usize) -> Result<VecDeque<Step>, AllocError>
    ensures { IfOk result (λ steps. steps.items ≡ Step.Pass number ∷ []) }
{
    let mut steps = VecDeque::new(alloc);
    steps.push_back(Step::Pass(number))?;
    Ok(steps)
}

// For each piece that is one of some characters which of ASCII those are.
fn classes_of(alloc: Global, pieces: &[Piece]) -> Result<Vec<Vec<bool>>, AllocError>
    ensures { IfOk result (λ classes. AllClassed pieces.now classes.items) }
{
    let mut classes = Vec::new(alloc);
    for piece in pieces {
        let class = match piece {
            Piece::OneOf { negated, ranges } => class_of(alloc, *negated, ranges)?,
            _ => Vec::new(alloc),
        };
        classes.push(class)?;
    }
    Ok(classes)
}

// Which characters of ASCII fit.
fn class_of(alloc: Global, negated: bool, ranges: &[CharRange]) -> Result<Vec<bool>, AllocError>
    ensures { IfOk result (λ class. (c : ℕ) → c < 128 → slice_get class.items c
        ≡ Some (fits negated ranges.now c)) }
{
    let mut class = Vec::new(alloc);
    for code in 0..128u8 {
        class.push(fits(negated, ranges, char::from(code)))?;
    }
    Ok(class)
}

// For each character of ASCII whether the pattern may begin with it after the text's start, and,
// last, whether it may with some character.
fn begins_of(alloc: Global, pieces: &[Piece]) -> Result<Vec<bool>, AllocError>
    ensures { IfOk result (λ begins. (c : ℕ) → c ≤ 128 → slice_get begins.items c
        ≡ Some (may_take (tree_of pieces.now) c)) }
{
    let mut begins = Vec::new(alloc);
    for code in 0..129u8 {
        begins.push(begin_of(alloc, pieces, code)?.takes)?;
    }
    Ok(begins)
}
