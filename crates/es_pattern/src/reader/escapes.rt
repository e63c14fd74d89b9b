// Escapes outside classes.

use super::{Reader, Taken};
use crate::escape::{escaped, greatest_from, hex_value, set_of};
use crate::mode::Mode;
use crate::piece::Piece;
use std::alloc::AllocError;

impl Reader {
    ghost use Rattle.std.specs.Prelude.{IfOk};
    ghost use Rattle.es_pattern.specs.Escapes.{hex_value, set_of};
    ghost use Rattle.es_pattern.specs.Reading.{hex_by, with_set};
    ghost use Rattle.es_pattern.specs.ReaderView.{Steps, reading};

    // Takes the rest of an escape after its backslash.
    pub(super) fn take_escape(&mut self, c: char) -> Result<Taken, AllocError>
        ensures { IfOk result (λ taken. Steps (with_set (set_of c) c (reading self.old)) taken
            (reading self.new)) }
    {
        if let Some(ranges) = set_of(self.alloc, c)? {
            self.push_atom(false, ranges)?;
            return Ok(Taken::Yes);
        }
        match c {
            'b' => self.push_assertion(Piece::WordBoundary { negated: false })?,
            'B' => self.push_assertion(Piece::WordBoundary { negated: true })?,
            'x' => self.goes_to(Mode::Hex { value: 0, left: 2 }),
            'u' => self.goes_to(Mode::Hex { value: 0, left: 4 }),
            '0' => {
                self.push_char('\0')?;
                self.goes_to(Mode::Zero);
            }
            _ => match escaped(c) {
                Some(value) => self.push_char(value)?,
                None => return Ok(Taken::No),
            },
        }
        Ok(Taken::Yes)
    }

    // Takes a hexadecimal digit.
    pub(super) fn take_hex(&mut self, value: u32, left: u32, c: char) -> Result<Taken, AllocError>
        ensures { IfOk result (λ taken. Steps (hex_by (hex_value c) value left (reading self.old))
            taken (reading self.new)) }
    {
        let Some(digit) = hex_value(c) else {
            return Ok(Taken::No);
        };
        if value > 0xfff || left == 0 {
            return Ok(Taken::No);
        }
        let value = value * 16 + digit;
        let left = left.saturating_sub(1);
        let Some(greatest) = greatest_from(value, left) else {
            return Ok(Taken::No);
        };
        if left == 0 {
            self.push_char(greatest)?;
        } else {
            self.goes_to(Mode::Hex { value, left });
        }
        Ok(Taken::Yes)
    }
}
