// A walk over a text, as far as it has come.
use crate::step::{Direction, Step};

// A walk that stands at a place.
#[derive(Clone, Copy)]
pub(crate) struct Walk<'a> {
    pub direction: Direction,
    // The program that it goes by.
    pub steps: &'a [Step],
    // For each lookahead that was told whether it holds, by the number of characters behind the
    // place.
    pub tables: &'a [Option<Vec<bool>>],
    pub place: usize,
}

impl<'a> Walk<'a> {
    ghost use Rattle.std.specs.Prelude.{◌≡◌};
    ghost use Rattle.es_pattern.specs.Passing.{ahead_of};

    // The next character on the way.
    pub(crate) fn ahead(&self, text: &[char]) -> Option<char>
        ensures { result ≡ ahead_of self.now.direction text.now self.now.place }
    {
        match self.direction {
            Direction::Forward => text.get(self.place).copied(),
            Direction::Backward if self.place == 0 => None,
            Direction::Backward => text.get(self.place - 1).copied(),
        }
    }
}
