// With what a pattern may begin at a place that isn't the text's start.
ghost use Rattle.std.specs.Prelude.{◌≡◌, ◌≤◌, ◌∷◌, ◌++◌, [], ℕ, IfOk, OnOk, reverse};
ghost use Rattle.es_pattern.specs.Pieces.{tree_of};
ghost use Rattle.es_pattern.specs.Begins.{begins_below, may_stay, may_take, top_begin, with_begin};

use crate::passing::fits;
use crate::piece::Piece;
use std::alloc::{AllocError, Global};

// What a part may do at such a place, before a certain character.
#[derive(Clone, Copy, Debug)]
pub(crate) struct Begin {
    // It may span the empty part.
    pub stays: bool,
    // It may span a part that begins with the character.
    pub takes: bool,
}

// What the pattern of these pieces may do before this character of ASCII, or, where the code is
// above those, before some character.
pub(crate) fn begin_of(alloc: Global, pieces: &[Piece], code: u8) -> Result<Begin, AllocError>
    requires { code ≤ 128 }
    ensures stays { IfOk result (λ begin. begin.stays ≡ may_stay (tree_of pieces.now)) }
    ensures takes { IfOk result (λ begin. begin.takes ≡ may_take (tree_of pieces.now) code) }
{
    let mut begins = Vec::new(alloc);
    for piece in pieces {
        let begin = joined(piece, code, &mut begins);
        begins.push(begin)?;
    }
    Ok(pop_last(&mut begins))
}

// What a piece may do, by what the parts may that it joins.
fn joined(piece: &Piece, code: u8, begins: &mut Vec<Begin>) -> Begin
    requires { code ≤ 128 }
    ensures { result ∷ reverse begins.new.items
        ≡ with_begin code piece.now (reverse begins.old.items) }
{
    let (stays, takes) = match piece {
        Piece::OneOf { negated, ranges } => {
            (
                false,
                code > 127 || fits(*negated, ranges, char::from(code)),
            )
        }
        Piece::TextStart => (false, false),
        Piece::Sequence => {
            let second = pop_last(begins);
            let first = pop_last(begins);
            (
                first.stays && second.stays,
                first.takes || (first.stays && second.takes),
            )
        }
        Piece::Choice => {
            let second = pop_last(begins);
            let first = pop_last(begins);
            (first.stays || second.stays, first.takes || second.takes)
        }
        Piece::Repetition { least, .. } => {
            let part = pop_last(begins);
            (*least == 0 || part.stays, part.takes)
        }
        Piece::Lookahead { .. } => {
            let _part = pop_last(begins);
            (true, false)
        }
        _ => (true, false),
    };
    Begin { stays, takes }
}

// Takes the last of them, which stands for the empty part where there is none.
fn pop_last(begins: &mut Vec<Begin>) -> Begin
    ensures last { result ≡ top_begin (reverse begins.old.items) }
    ensures others { reverse begins.new.items ≡ begins_below (reverse begins.old.items) }
{
    match begins.pop() {
        Some(begin) => begin,
        None => Begin {
            stays: true,
            takes: false,
        },
    }
}
