// A pattern, and whether it is found.
ghost use Rattle.std.specs.Prelude.{◌≡◌, ◌⊎◌, ◌↔◌, List, Some, None, IfOk, IfErr, OnOk, IsTrue};
ghost use Rattle.std.specs.Str.{chars};
ghost use Rattle.es_pattern.specs.Spans.{IsFound};
ghost use Rattle.es_pattern.specs.Tree.{Tree};
ghost use Rattle.es_pattern.specs.Pieces.{tree_of, with_piece};
ghost use Rattle.es_pattern.specs.Accepted.{pattern_of};
ghost use Rattle.es_pattern.specs.declared.error.PatternError.{PatternError};
ghost use Rattle.es_pattern.specs.declared.error.PatternError.TheVariants.{NoMemory};
ghost use Rattle.es_pattern.specs.Faults.{FailsBy, IsCaused, IsClear, IsFirstFault, IsWithinLimits, Succeeds};
ghost use Rattle.es_pattern.specs.Grammar.{IsPattern};

use crate::compile::Program;
use crate::error::PatternError;
use crate::parse::pieces_of;
use crate::piece::Piece;
use crate::search;
use std::alloc::{AllocError, Global};
use std::marker::Model;

/// A regular expression after ECMAScript without flags, seen as its tree.
#[derive(Drop)]
pub struct Pattern {
    pieces: Vec<Piece>,
    // What the pattern is searched with, made of the pieces.
    program: Program,
}

impl Model for Pattern {
    ghost use Rattle.es_pattern.specs.Tree.{Tree};
    ghost use Rattle.es_pattern.specs.Stored.{tree_code};
    ghost use Rattle.es_pattern.specs.Pieces.{tree_of};
    ghost use Rattle.es_pattern.specs.Compiled.{IsProgramOf};

    ghost Value = { Tree };

    ghost coded = { tree_code };

    ghost view = { λ p. tree_of p.pieces.items };

    ghost invariant = { λ p. IsProgramOf p.pieces.items p.program };
}

// An equal piece.
fn copied_piece(alloc: Global, piece: &Piece) -> Result<Piece, AllocError>
    ensures { IfOk result
        (λ copy. (ts : List Tree) → with_piece copy ts ≡ with_piece piece.now ts) }
{
    Ok(match piece {
        Piece::Nothing => Piece::Nothing,
        Piece::OneOf { negated, ranges } => Piece::OneOf {
            negated: *negated,
            ranges: Vec::from_slice(alloc, ranges)?,
        },
        Piece::TextStart => Piece::TextStart,
        Piece::TextEnd => Piece::TextEnd,
        Piece::WordBoundary { negated } => Piece::WordBoundary { negated: *negated },
        Piece::Sequence => Piece::Sequence,
        Piece::Choice => Piece::Choice,
        Piece::Repetition { least, more } => Piece::Repetition {
            least: *least,
            more: *more,
        },
        Piece::Lookahead { negated } => Piece::Lookahead { negated: *negated },
    })
}

// Pieces of the same tree.
fn copied_pieces(alloc: Global, pieces: &[Piece]) -> Result<Vec<Piece>, AllocError>
    ensures { IfOk result (λ copies. tree_of copies.items ≡ tree_of pieces.now) }
{
    let mut copies = Vec::new(alloc);
    for piece in pieces {
        copies.push(copied_piece(alloc, piece)?)?;
    }
    Ok(copies)
}

impl Pattern {
    /// The pattern that a text is.
    pub fn parse(alloc: Global, text: &str) -> Result<Pattern, PatternError>
        // What is accepted is a pattern of the grammar, with the one tree that the grammar gives
        // it, and nothing in it is refused.
        ensures ok { IfOk result (λ pattern. IsPattern (chars text.now) pattern) }
        ensures one_tree { (tree : Tree) → IsPattern (chars text.now) tree
            → IfOk result (λ pattern. pattern ≡ tree) }
        ensures clear { OnOk result (IsClear (chars text.now)) }
        // So it is the text's pattern, and what is refused has none.
        ensures reads { IfOk result (λ pattern. pattern_of (chars text.now) ≡ Some pattern) }
        ensures none { IfErr result
            (λ e. (pattern_of (chars text.now) ≡ None) ⊎ (e ≡ NoMemory)) }
        // Each text of the grammar within the limits is accepted.
        ensures accepts { (tree : Tree) → IsPattern (chars text.now) tree
            → IsWithinLimits (chars text.now) → Succeeds result }
        // A fault is the first one in the text, with its place; and where there is one, it is told.
        ensures fault { IfErr result (IsCaused (chars text.now)) }
        ensures refused { (e : PatternError) → IsFirstFault (chars text.now) e → FailsBy e result }
    {
        let pieces = pieces_of(alloc, text)?;
        let program = Program::new(alloc, &pieces)?;
        Ok(Pattern { pieces, program })
    }

    /// Whether the pattern spans a part of the text, wherever it stands. The part may be empty.
    pub fn is_found(&self, alloc: Global, text: &str) -> Result<bool, AllocError>
        ensures { IfOk result (λ found. IsTrue found ↔ IsFound self.now (chars text.now)) }
    {
        search::is_found(alloc, &self.pieces, &self.program, text)
    }

    /// An equal pattern.
    pub fn try_clone(&self, alloc: Global) -> Result<Pattern, AllocError>
        ensures { IfOk result (λ copy. copy ≡ self.now) }
    {
        let pieces = copied_pieces(alloc, &self.pieces)?;
        let program = Program::new(alloc, &pieces)?;
        Ok(Pattern { pieces, program })
    }
}
