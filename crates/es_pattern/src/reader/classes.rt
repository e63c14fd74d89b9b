// Classes, with the escapes in them.
ghost use Rattle.std.specs.Prelude.{◌≡◌};
ghost use Rattle.es_pattern.specs.Reading.{can_end};

use super::{Reader, Taken};
use crate::escape::{escaped, greatest_from, hex_value, set_of};
use crate::mode::Mode;
use crate::piece::CharRange;
use std::alloc::AllocError;
use std::mem;

impl Reader {
    ghost use Rattle.std.specs.Prelude.{◌≡◌, false, OnOk, IfOk, Some, None, if◌then◌else◌};
    ghost use Rattle.es_pattern.specs.Escapes.{hex_value, set_of};
    ghost use Rattle.es_pattern.specs.Reading.{
      after_char,
      after_dash,
      at,
      can_end,
      class_char,
      class_end,
      class_hex_by,
      class_set,
      class_zero,
      item,
      next_dash,
      next_item,
      overcounts_at,
      range_end,
      ranged,
      step,
      with_ranges,
    };
    ghost use Rattle.es_pattern.specs.ReaderView.{IsClass, Steps, reading};

    // Takes the next character of a class.
    pub(super) fn take_in_class(&mut self, c: char) -> Result<Taken, AllocError>
        requires { IsClass (reading self.old).mode }
        ensures no_bounds { overcounts_at c (reading self.old) ≡ false }
        ensures taken { IfOk result (λ taken. Steps (step c (reading self.old)) taken
            (reading self.new)) }
    {
        match self.mode {
            Mode::ClassOpen if c == '^' => {
                self.negated = true;
                self.goes_to(Mode::ClassFirst);
                Ok(Taken::Yes)
            }
            Mode::ClassOpen | Mode::ClassFirst => self.take_item(c),
            Mode::ClassNext => self.take_next_item(c),
            Mode::ClassNextDash => self.take_next_dash(c),
            Mode::ClassNextDashes if c == ']' => Ok(Taken::No),
            Mode::ClassNextDashes => self.take_range_end('-', c),
            Mode::ClassChar { first } => self.take_after_char(first, c),
            Mode::ClassDash { first } => self.take_after_dash(first, c),
            Mode::ClassZero { .. } if c.is_ascii_digit() => Ok(Taken::No),
            Mode::ClassZero { is_last: true } => self.take_next_item(c),
            Mode::ClassZero { is_last: false } => self.take_after_char('\0', c),
            Mode::ClassEscape { first } => self.take_class_escape(first, c),
            Mode::ClassHex { first, value, left } => self.take_class_hex(first, value, left, c),
            _ => Ok(Taken::No),
        }
    }

    // Takes the first character of an item of a class.
    fn take_item(&mut self, c: char) -> Result<Taken, AllocError>
        ensures { IfOk result (λ taken. Steps (item c (reading self.old)) taken
            (reading self.new)) }
    {
        match c {
            ']' => self.end_class()?,
            '\\' => self.goes_to(Mode::ClassEscape { first: None }),
            _ => self.goes_to(Mode::ClassChar { first: c }),
        }
        Ok(Taken::Yes)
    }

    // Takes the first character of an item after a range or a set.
    fn take_next_item(&mut self, c: char) -> Result<Taken, AllocError>
        ensures { IfOk result (λ taken. Steps (next_item c (reading self.old)) taken
            (reading self.new)) }
    {
        if c == '-' {
            self.goes_to(Mode::ClassNextDash);
            return Ok(Taken::Yes);
        }
        self.take_item(c)
    }

    // Takes what follows `-` after a range or a set: such a `-` is the last item, or begins a range.
    fn take_next_dash(&mut self, c: char) -> Result<Taken, AllocError>
        ensures { IfOk result (λ taken. Steps (next_dash c (reading self.old)) taken
            (reading self.new)) }
    {
        match c {
            ']' => {
                self.push_range('-', '-')?;
                self.end_class()?;
            }
            '-' => self.goes_to(Mode::ClassNextDashes),
            _ => return Ok(Taken::No),
        }
        Ok(Taken::Yes)
    }

    // Takes what follows a character of a class.
    fn take_after_char(&mut self, first: char, c: char) -> Result<Taken, AllocError>
        ensures { IfOk result (λ taken. Steps (after_char first c (reading self.old)) taken
            (reading self.new)) }
    {
        if c == '-' {
            self.goes_to(Mode::ClassDash { first });
            return Ok(Taken::Yes);
        }
        self.push_range(first, first)?;
        self.take_item(c)
    }

    // Takes what follows a character of a class and `-`.
    fn take_after_dash(&mut self, first: char, c: char) -> Result<Taken, AllocError>
        ensures { IfOk result (λ taken. Steps (after_dash first c (reading self.old)) taken
            (reading self.new)) }
    {
        if c != ']' {
            return self.take_range_end(first, c);
        }
        self.push_range(first, first)?;
        self.push_range('-', '-')?;
        self.end_class()?;
        Ok(Taken::Yes)
    }

    // Takes the first character of a range's end, which `]` isn't.
    fn take_range_end(&mut self, first: char, c: char) -> Result<Taken, AllocError>
        ensures { IfOk result (λ taken. Steps (range_end first c (reading self.old)) taken
            (reading self.new)) }
    {
        match c {
            '\\' if first <= '\u{ffff}' => self.goes_to(Mode::ClassEscape { first: Some(first) }),
            '-' if first <= '-' => {
                self.push_range(first, '-')?;
                self.goes_to(Mode::ClassNext);
            }
            '\\' | '-' => return Ok(Taken::No),
            _ => return self.take_class_char(Some(first), c),
        }
        Ok(Taken::Yes)
    }

    // Ends a range, or begins one where there is no first character yet.
    fn take_class_char(&mut self, first: Option<char>, c: char) -> Result<Taken, AllocError>
        ensures { IfOk result (λ taken. Steps (class_char first c (reading self.old)) taken
            (reading self.new)) }
    {
        match first {
            None => self.goes_to(Mode::ClassChar { first: c }),
            Some(first) if first <= c => {
                self.push_range(first, c)?;
                self.goes_to(Mode::ClassNext);
            }
            Some(_) => return Ok(Taken::No),
        }
        Ok(Taken::Yes)
    }

    // Takes the rest of an escape in a class after its backslash.
    fn take_class_escape(&mut self, first: Option<char>, c: char) -> Result<Taken, AllocError>
        ensures { IfOk result (λ taken. Steps (class_set (set_of c) first c (reading self.old))
            taken (reading self.new)) }
    {
        if let Some(set) = set_of(self.alloc, c)? {
            if first.is_some() {
                return Ok(Taken::No);
            }
            self.take_class_set(&set)?;
            return Ok(Taken::Yes);
        }
        match c {
            'b' => self.take_class_char(first, '\u{8}'),
            'x' => Ok(self.begin_class_hex(first, '\u{ff}', 2)),
            'u' => Ok(self.begin_class_hex(first, '\u{ffff}', 4)),
            '0' => self.take_class_zero(first),
            _ => match escaped(c) {
                Some(value) => self.take_class_char(first, value),
                None => Ok(Taken::No),
            },
        }
    }

    // Takes a set of characters in a class.
    fn take_class_set(&mut self, set: &[CharRange]) -> Result<(), AllocError>
        ensures { OnOk result (reading self.new ≡ with_ranges set.now (reading self.old)) }
    {
        self.ranges.extend_from_slice(set)?;
        self.goes_to(Mode::ClassNext);
        Ok(())
    }

    // Takes `0` after a backslash in a class.
    fn take_class_zero(&mut self, first: Option<char>) -> Result<Taken, AllocError>
        ensures { IfOk result (λ taken. Steps (class_zero first (reading self.old)) taken
            (reading self.new)) }
    {
        match first {
            None => self.goes_to(Mode::ClassZero { is_last: false }),
            Some('\0') => {
                self.push_range('\0', '\0')?;
                self.goes_to(Mode::ClassZero { is_last: true });
            }
            Some(_) => return Ok(Taken::No),
        }
        Ok(Taken::Yes)
    }

    // Begins the digits of an escape in a class, if the range that has begun can end at one of
    // them.
    fn begin_class_hex(&mut self, first: Option<char>, greatest: char, left: u32) -> Taken
        ensures { Steps (if can_end first greatest then Some
            (at (Mode.ClassHex first 0 left) (reading self.old)) else None) result
            (reading self.new) }
    {
        if !can_end(first, greatest) {
            return Taken::No;
        }
        self.goes_to(Mode::ClassHex {
            first,
            value: 0,
            left,
        });
        Taken::Yes
    }

    // Takes a hexadecimal digit in a class.
    fn take_class_hex(
        &mut self,
        first: Option<char>,
        value: u32,
        left: u32,
        c: char,
    ) -> Result<Taken, AllocError>
        ensures { IfOk result (λ taken. Steps (class_hex_by (hex_value c) first value left
            (reading self.old)) taken (reading self.new)) }
    {
        let Some(digit) = hex_value(c) else {
            return Ok(Taken::No);
        };
        if value > 0xfff || left == 0 {
            return Ok(Taken::No);
        }
        let value = value * 16 + digit;
        let left = left.saturating_sub(1);
        let Some(greatest) = greatest_from(value, left) else {
            return Ok(Taken::No);
        };
        if !can_end(first, greatest) {
            return Ok(Taken::No);
        }
        if left == 0 {
            return self.take_class_char(first, greatest);
        }
        self.goes_to(Mode::ClassHex { first, value, left });
        Ok(Taken::Yes)
    }

    fn push_range(&mut self, first: char, last: char) -> Result<(), AllocError>
        ensures { OnOk result (reading self.new ≡ ranged first last (reading self.old)) }
    {
        self.ranges.push(CharRange { first, last })?;
        Ok(())
    }

    fn end_class(&mut self) -> Result<(), AllocError>
        ensures { OnOk result (reading self.new ≡ class_end (reading self.old)) }
    {
        let ranges = mem::replace(&mut self.ranges, Vec::new(self.alloc));
        let negated = self.negated;
        self.push_atom(negated, ranges)
    }
}

// Whether the range, if one has begun, can end at the character.
fn can_end(first: Option<char>, c: char) -> bool
    ensures { result ≡ can_end first c }
{
    match first {
        None => true,
        Some(first) => first <= c,
    }
}
