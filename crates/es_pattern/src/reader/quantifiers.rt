// Quantifiers, and braces that are none.
ghost use Rattle.std.specs.Prelude.{◌≡◌};
ghost use Rattle.es_pattern.specs.Reading.{is_inner};

use super::{Reader, Taken};
use crate::braces::{Bounds, LIMIT, bounds_of};
use crate::mode::Mode;
use crate::piece::Piece;
use std::alloc::AllocError;
use std::mem;

// The greatest product of the counts of nested quantifiers.
const PRODUCT_LIMIT: u32 = 100_000;

impl Reader {
    ghost use Rattle.std.specs.Prelude.{◌≡◌, ◌+◌, ◌==◌, ◌&&◌, OnOk, IfOk, Some, option_map};
    ghost use Rattle.es_pattern.specs.Reading.{
      bounds_of,
      flushed,
      flushed_chars,
      in_braces,
      in_braces_end,
      marked,
      overcounts,
      quantified,
    };
    ghost use Rattle.es_pattern.specs.ReaderView.{Steps, Takes, reading};
    ghost use Rattle.es_pattern.specs.Bounds.{Bounded};

    // Takes a quantifier without braces.
    pub(super) fn take_mark(
        &mut self,
        after_atom: bool,
        least: u32,
        more: Option<u32>,
    ) -> Result<Taken, AllocError>
        ensures { IfOk result (λ taken. Steps (marked after_atom (reading self.old).atom_product
            least (option_map (λ n. least + n) more) (reading self.old)) taken (reading self.new)) }
    {
        if !after_atom {
            return Ok(Taken::No);
        }
        self.product = self.product.max(self.atom_product);
        self.repeat(least, more)?;
        Ok(Taken::Yes)
    }

    // Takes a character after `{`.
    pub(super) fn take_in_braces(&mut self, after_atom: bool, c: char) -> Result<Taken, AllocError>
        requires { (reading self.old).mode ≡ Mode.Braces after_atom }
        ensures { IfOk result (λ taken. Takes (in_braces after_atom c (reading self.old))
            ((c == 125) && overcounts (bounds_of (reading self.old).braces) after_atom
            (reading self.old)) (reading self.old) taken (reading self.new)) }
    {
        if is_inner(&self.braces, c) {
            self.braces.push(c)?;
            return Ok(Taken::Yes);
        }
        if c == '}' {
            if let Some(bounds) = bounds_of(&self.braces) {
                return self.take_bounds(after_atom, bounds);
            }
        }
        self.flush_braces(after_atom)?;
        self.take_plain(true, false, c)
    }

    // Takes a quantifier in braces.
    fn take_bounds(&mut self, after_atom: bool, bounds: Bounds) -> Result<Taken, AllocError>
        requires mode { (reading self.old).mode ≡ Mode.Braces after_atom }
        requires bounds { Bounded (bounds_of (reading self.old).braces) (Some bounds) }
        ensures { IfOk result (λ taken. Takes (in_braces_end (bounds_of (reading self.old).braces)
            after_atom 125 (reading self.old)) (overcounts (bounds_of (reading self.old).braces)
            after_atom (reading self.old)) (reading self.old) taken (reading self.new)) }
    {
        let most = bounds.most.unwrap_or(bounds.least);
        if most > LIMIT || bounds.least > LIMIT {
            return Ok(Taken::TooLarge);
        }
        if !after_atom {
            return Ok(Taken::No);
        }
        let product = self.atom_product.saturating_mul(most.max(1));
        if product > PRODUCT_LIMIT {
            return Ok(Taken::TooLarge);
        }
        self.product = self.product.max(product);
        self.repeat(bounds.least, bounds.more())?;
        Ok(Taken::Yes)
    }

    // Repeats the atom.
    fn repeat(&mut self, least: u32, more: Option<u32>) -> Result<(), AllocError>
        ensures { OnOk result (reading self.new ≡ quantified least
            (option_map (λ n. least + n) more) (reading self.old)) }
    {
        self.push(Piece::Repetition { least, more })?;
        self.push(Piece::Sequence)?;
        self.goes_to(Mode::Quantified);
        Ok(())
    }

    // Reads the braces so far as characters that stand for themselves.
    pub(super) fn flush_braces(&mut self, after_atom: bool) -> Result<(), AllocError>
        ensures { OnOk result (reading self.new ≡ flushed after_atom (reading self.old)) }
    {
        self.settle(after_atom)?;
        self.push_char('{')?;
        let braces = mem::replace(&mut self.braces, Vec::new(self.alloc));
        self.push_chars(&braces)
    }

    // Appends characters that stand for themselves, each after an atom.
    fn push_chars(&mut self, characters: &[char]) -> Result<(), AllocError>
        ensures { OnOk result (reading self.new ≡ flushed_chars characters.now (reading self.old)) }
    {
        for c in characters {
            self.settle(true)?;
            self.push_char(*c)?;
        }
        Ok(())
    }
}

// Whether the braces, of which this much is read, may go on with the character as a quantifier.
fn is_inner(braces: &[char], c: char) -> bool
    ensures { result ≡ is_inner braces.now c }
{
    c.is_ascii_digit() || c == ',' && !braces.is_empty() && !braces.contains(&',')
}
