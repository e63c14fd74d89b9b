// Terms, and the groups that they stand in.

use super::{Group, Reader, Taken};
use crate::mode::{Mode, Open};
use crate::piece::{CharRange, Piece};
use std::alloc::AllocError;
use std::vec::Vec;

impl Reader {
    ghost use Rattle.std.specs.Prelude.{◌≡◌, OnOk, IfOk};
    ghost use Rattle.es_pattern.specs.Grammar.{any};
    ghost use Rattle.es_pattern.specs.Reading.{begun, closed_by, opened, plain, step, term_begun, with_atom};
    ghost use Rattle.es_pattern.specs.ReaderView.{Steps, reading};

    // Takes a character where a term may begin, or, after an atom, a quantifier.
    pub(super) fn take_plain(
        &mut self,
        after_atom: bool,
        may_be_lazy: bool,
        c: char,
    ) -> Result<Taken, AllocError>
        ensures { IfOk result (λ taken. Steps (plain after_atom may_be_lazy c (reading self.old))
            taken (reading self.new)) }
    {
        match c {
            '*' => self.take_mark(after_atom, 0, None),
            '+' => self.take_mark(after_atom, 1, None),
            '?' if may_be_lazy => {
                self.goes_to(Mode::Term);
                Ok(Taken::Yes)
            }
            '?' => self.take_mark(after_atom, 0, Some(1)),
            '{' => {
                self.braces.clear();
                self.goes_to(Mode::Braces { after_atom });
                Ok(Taken::Yes)
            }
            _ => {
                self.settle(after_atom)?;
                self.take_term(c)
            }
        }
    }

    // Takes a character where a term may begin, that is no quantifier.
    fn take_term(&mut self, c: char) -> Result<Taken, AllocError>
        ensures { IfOk result (λ taken. Steps (term_begun c (reading self.old)) taken
            (reading self.new)) }
    {
        match c {
            '^' => self.push_assertion(Piece::TextStart)?,
            '$' => self.push_assertion(Piece::TextEnd)?,
            '|' => {
                self.push(Piece::Choice)?;
                self.push(Piece::Nothing)?;
                self.goes_to(Mode::Term);
            }
            ')' => return self.close_group(),
            '(' => self.goes_to(Mode::Paren),
            '[' => {
                self.negated = false;
                self.ranges.clear();
                self.goes_to(Mode::ClassOpen);
            }
            '\\' => self.goes_to(Mode::Escape),
            '.' => self.push_any()?,
            _ => self.push_char(c)?,
        }
        Ok(Taken::Yes)
    }

    fn push_any(&mut self) -> Result<(), AllocError>
        ensures { OnOk result (reading self.new ≡ with_atom any (reading self.old)) }
    {
        let line_ends = [
            CharRange {
                first: '\n',
                last: '\n',
            },
            CharRange {
                first: '\r',
                last: '\r',
            },
            CharRange {
                first: '\u{2028}',
                last: '\u{2028}',
            },
            CharRange {
                first: '\u{2029}',
                last: '\u{2029}',
            },
        ];
        let ranges = Vec::from_slice(self.alloc, &line_ends)?;
        self.push_atom(true, ranges)
    }

    // Begins the alternatives of a group or of the whole.
    pub(super) fn begin_alternatives(&mut self) -> Result<(), AllocError>
        ensures { OnOk result (reading self.new ≡ begun (reading self.old)) }
    {
        self.push(Piece::OneOf {
            negated: false,
            ranges: Vec::new(self.alloc),
        })?;
        self.push(Piece::Nothing)?;
        self.goes_to(Mode::Term);
        Ok(())
    }

    // Takes what follows `(`.
    pub(super) fn take_after_paren(&mut self, c: char) -> Result<Taken, AllocError>
        requires { (reading self.old).mode ≡ Mode.Paren }
        ensures { IfOk result (λ taken. Steps (step c (reading self.old)) taken
            (reading self.new)) }
    {
        if c == '?' {
            self.goes_to(Mode::ParenQuestion);
            return Ok(Taken::Yes);
        }
        self.open_group(Open::Group)?;
        self.take_plain(false, false, c)
    }

    // Takes what follows `(?`.
    pub(super) fn take_after_question(&mut self, c: char) -> Result<Taken, AllocError>
        requires { (reading self.old).mode ≡ Mode.ParenQuestion }
        ensures { IfOk result (λ taken. Steps (step c (reading self.old)) taken
            (reading self.new)) }
    {
        match c {
            ':' => self.open_group(Open::Group)?,
            '=' => self.open_group(Open::Ahead { negated: false })?,
            '!' => self.open_group(Open::Ahead { negated: true })?,
            _ => return Ok(Taken::No),
        }
        Ok(Taken::Yes)
    }

    // Opens a group.
    #[tactic(auto, using(crate::proofs::Readers::push_group, crate::proofs::Readers::push_product))]
    fn open_group(&mut self, kind: Open) -> Result<(), AllocError>
        ensures { OnOk result (reading self.new ≡ opened kind (reading self.old)) }
    {
        self.groups.push(Group {
            kind,
            product: self.product,
        })?;
        self.product = 1;
        self.begin_alternatives()
    }

    // Closes the last group, if one is open.
    fn close_group(&mut self) -> Result<Taken, AllocError>
        ensures { IfOk result (λ taken. Steps (closed_by (reading self.old).groups
            (reading self.old)) taken (reading self.new)) }
    {
        let Some(group) = self.groups.pop() else {
            return Ok(Taken::No);
        };
        self.push(Piece::Choice)?;
        match group.kind {
            Open::Group => {
                self.atom_product = self.product;
                self.product = group.product;
                self.goes_to(Mode::Atom);
            }
            Open::Ahead { negated } => {
                self.product = self.product.max(group.product);
                self.push_assertion(Piece::Lookahead { negated })?;
            }
        }
        Ok(Taken::Yes)
    }
}
