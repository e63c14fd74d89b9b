// Reads a pattern's text, one character at a time.
mod classes;
mod escapes;
mod quantifiers;
mod terms;

use crate::mode::{Mode, Open};
use crate::piece::{CharRange, Piece};
use std::alloc::{AllocError, Global};

// How a reader takes a character.
#[derive(Clone, Copy, Debug, PartialEq, Eq)]
pub(crate) enum Taken {
    // Some pattern begins so.
    Yes,
    // No pattern begins so.
    No,
    // The quantifier that ends here counts too much.
    TooLarge,
}

// An open group, and the greatest product of counts before it in its alternatives.
#[derive(Clone, Copy, Debug)]
pub(crate) struct Group {
    kind: Open,
    product: u32,
}

// A pattern's text so far.
#[derive(Drop)]
pub(crate) struct Reader {
    alloc: Global,
    // For each open group, and for the whole, its alternatives and the terms of its last one, and
    // then an atom that no term follows yet.
    pieces: Vec<Piece>,
    groups: Vec<Group>,
    mode: Mode,
    // The braces so far, from after `{`.
    braces: Vec<char>,
    // The class so far.
    negated: bool,
    ranges: Vec<CharRange>,
    // The greatest products of counts in the alternatives that are read, and in the atom.
    product: u32,
    atom_product: u32,
}

impl Reader {
    ghost use Rattle.std.specs.Prelude.{◌≡◌, ◌+◌, OnOk, IfOk, length, option_map};
    ghost use Rattle.es_pattern.specs.Tree.{one_of};
    ghost use Rattle.es_pattern.specs.Grammar.{char};
    ghost use Rattle.es_pattern.specs.Reading.{
      at,
      ended,
      finished,
      joined,
      overcounts_at,
      settled,
      start,
      step,
      with_atom,
    };
    ghost use Rattle.es_pattern.specs.Pieces.{tree_of};
    ghost use Rattle.es_pattern.specs.ReaderView.{EndsAs, Takes, pushed, reading};
    ghost use Rattle.es_pattern.specs.Refusals.{may_escape, may_open, pending};

    // A reader of a whole text.
    pub(crate) fn new(alloc: Global) -> Result<Reader, AllocError>
        ensures { IfOk result (λ reader. reading reader ≡ start) }
    {
        let mut reader = Reader {
            alloc,
            pieces: Vec::new(alloc),
            groups: Vec::new(alloc),
            mode: Mode::Term,
            braces: Vec::new(alloc),
            negated: false,
            ranges: Vec::new(alloc),
            product: 1,
            atom_product: 1,
        };
        reader.begin_alternatives()?;
        Ok(reader)
    }

    // Takes the next character of the text.
    pub(crate) fn take(&mut self, c: char) -> Result<Taken, AllocError>
        ensures { IfOk result (λ taken. Takes (step c (reading self.old))
            (overcounts_at c (reading self.old)) (reading self.old) taken (reading self.new)) }
    {
        match self.mode {
            Mode::Term => self.take_plain(false, false, c),
            Mode::Atom => self.take_plain(true, false, c),
            Mode::Quantified => self.take_plain(false, true, c),
            Mode::Zero if c.is_ascii_digit() => Ok(Taken::No),
            Mode::Zero => self.take_plain(true, false, c),
            Mode::Braces { after_atom } => self.take_in_braces(after_atom, c),
            Mode::Escape => self.take_escape(c),
            Mode::Hex { value, left } => self.take_hex(value, left, c),
            Mode::Paren => self.take_after_paren(c),
            Mode::ParenQuestion => self.take_after_question(c),
            _ => self.take_in_class(c),
        }
    }

    // The pieces of the whole text, if it is a pattern.
    pub(crate) fn finish(mut self) -> Result<Option<Vec<Piece>>, AllocError>
        ensures { IfOk result (λ pieces. option_map (λ p. tree_of p.items) pieces
            ≡ finished (reading self)) }
    {
        if self.end_text()? {
            Ok(Some(self.pieces))
        } else {
            Ok(None)
        }
    }

    // Ends the text, and answers whether it is a pattern.
    fn end_text(&mut self) -> Result<bool, AllocError>
        ensures { IfOk result (λ is_whole. EndsAs (finished (reading self.old)) is_whole
            (reading self.new)) }
    {
        match self.mode {
            Mode::Term | Mode::Quantified => self.end(),
            Mode::Atom | Mode::Zero => {
                self.settle(true)?;
                self.end()
            }
            Mode::Braces { after_atom } => {
                self.flush_braces(after_atom)?;
                self.settle(true)?;
                self.end()
            }
            _ => Ok(false),
        }
    }

    // Joins all that was read, where no group is open.
    fn end(&mut self) -> Result<bool, AllocError>
        ensures { IfOk result (λ is_whole. EndsAs (ended (reading self.old).groups
            (reading self.old)) is_whole (reading self.new)) }
    {
        if !self.groups.is_empty() {
            return Ok(false);
        }
        self.push(Piece::Choice)?;
        Ok(true)
    }

    // How many groups are open.
    #[tactic(auto, using(crate::proofs::Readers::same_depth))]
    pub(crate) fn depth(&self) -> usize
        ensures { result ≡ length (reading self.now).groups + pending (reading self.now).mode }
    {
        if self.mode == Mode::Paren {
            self.groups.len() + 1
        } else {
            self.groups.len()
        }
    }

    // How many characters of the braces were read.
    pub(crate) fn braces_len(&self) -> usize
        ensures { result ≡ length (reading self.now).braces }
    {
        self.braces.len()
    }

    // Whether an escape may begin here, as far as the text before tells.
    pub(crate) fn may_escape(&self) -> bool
        ensures { result ≡ may_escape (reading self.now).mode }
    {
        !matches!(
            self.mode,
            Mode::Escape
                | Mode::Hex { .. }
                | Mode::ParenQuestion
                | Mode::ClassEscape { .. }
                | Mode::ClassHex { .. }
        )
    }

    // Whether a group may begin here.
    pub(crate) fn may_open(&self) -> bool
        ensures { result ≡ may_open (reading self.now).mode }
    {
        matches!(
            self.mode,
            Mode::Term
                | Mode::Atom
                | Mode::Quantified
                | Mode::Zero
                | Mode::Braces { .. }
                | Mode::Paren
        )
    }

    // Appends a piece.
    #[tactic(auto, using(crate::proofs::Readers::push_piece))]
    fn push(&mut self, piece: Piece) -> Result<(), AllocError>
        ensures { OnOk result (reading self.new ≡ pushed piece (reading self.old)) }
    {
        self.pieces.push(piece)?;
        Ok(())
    }

    fn goes_to(&mut self, mode: Mode)
        ensures { reading self.new ≡ at mode (reading self.old) }
    {
        self.mode = mode;
    }

    // Joins an atom to the terms before it.
    fn settle(&mut self, after_atom: bool) -> Result<(), AllocError>
        ensures { OnOk result (reading self.new ≡ settled after_atom (reading self.old)) }
    {
        if after_atom {
            self.push(Piece::Sequence)?;
            self.product = self.product.max(self.atom_product);
        }
        Ok(())
    }

    fn push_assertion(&mut self, piece: Piece) -> Result<(), AllocError>
        ensures { OnOk result (reading self.new ≡ at Mode.Term
            (joined (pushed piece (reading self.old)))) }
    {
        self.push(piece)?;
        self.push(Piece::Sequence)?;
        self.goes_to(Mode::Term);
        Ok(())
    }

    fn push_atom(&mut self, negated: bool, ranges: Vec<CharRange>) -> Result<(), AllocError>
        ensures { OnOk result (reading self.new ≡ with_atom (one_of negated ranges.items)
            (reading self.old)) }
    {
        self.push(Piece::OneOf { negated, ranges })?;
        self.atom_product = 1;
        self.goes_to(Mode::Atom);
        Ok(())
    }

    fn push_char(&mut self, c: char) -> Result<(), AllocError>
        ensures { OnOk result (reading self.new ≡ with_atom (char c) (reading self.old)) }
    {
        let ranges = Vec::from_slice(self.alloc, &[CharRange { first: c, last: c }])?;
        self.push_atom(false, ranges)
    }
}
