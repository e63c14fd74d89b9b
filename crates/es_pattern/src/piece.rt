// The pieces of a pattern.
ghost use Rattle.std.specs.Prelude.{◌≡◌};

use std::alloc::{AllocError, Global};

// The characters from one to another, both included.
#[derive(Clone, Copy, Debug, PartialEq, Eq)]
pub(crate) struct CharRange {
    pub first: char,
    pub last: char,
}

// A piece of a pattern. One that joins parts stands after their pieces, so that a pattern of any
// depth is a plain list.
#[derive(Debug, Drop)]
pub(crate) enum Piece {
    // The empty part.
    Nothing,
    // One character of the ranges, or, where `negated`, of none.
    OneOf {
        negated: bool,
        ranges: Vec<CharRange>,
    },
    // The start of the text.
    TextStart,
    // The end of the text.
    TextEnd,
    // A place where a word begins or ends, or, where `negated`, where none does.
    WordBoundary {
        negated: bool,
    },
    // The last two parts, one after the other.
    Sequence,
    // One of the last two parts.
    Choice,
    // The last part `least` times, and up to `more` times more, without a bound where that is
    // `None`.
    Repetition {
        least: u32,
        more: Option<u32>,
    },
    // A place from which the last part is found, or, where `negated`, isn't.
    Lookahead {
        negated: bool,
    },
}
