// Two texts that belong together.

use std::marker::Model;
use std::{fmt, slice};

/// A name, and what stands with it: a requirement or a version.
#[derive(Drop)]
pub(crate) struct Pair<'a> {
    pub(crate) name: &'a str,
    pub(crate) value: &'a str,
}

impl<'a> Model for Pair<'a> {
    ghost use Rattle.std.specs.Prelude.{List, ℕ};

    ghost Value = { List ℕ × List ℕ };

    ghost view = { λ p. (p.name.now, p.value.now) };
}

/// Pairs of an entry, in order: names of packages, each with a requirement.
#[derive(Drop)]
pub struct Pairs<'e, 'a> {
    pairs: &'e [Pair<'a>],
}

impl<'e, 'a> Model for Pairs<'e, 'a> {
    ghost use Rattle.std.specs.Prelude.{List, ℕ};

    ghost Value = { List (List ℕ × List ℕ) };

    ghost view = { λ p. p.pairs.now };
}

impl<'e, 'a> Pairs<'e, 'a> {
    ghost use Rattle.std.specs.Prelude.{◌≡◌, ◌↔◌, [], IsTrue, length, option_map, slice_get};

    pub(crate) fn of(pairs: &'e [Pair<'a>]) -> Self
        ensures { result ≡ pairs.now }
    {
        Pairs { pairs }
    }

    pub(crate) fn none() -> Self
        ensures { result ≡ [] }
    {
        Pairs { pairs: &[] }
    }

    pub(crate) fn as_slice(&self) -> &'e [Pair<'a>]
        ensures { result.now ≡ self.now }
    {
        self.pairs
    }

    pub fn len(&self) -> usize
        ensures { result ≡ length self.now }
    {
        self.pairs.len()
    }

    /// Whether there is no pair.
    pub fn is_empty(&self) -> bool
        ensures { IsTrue result ↔ (self.now ≡ []) }
    {
        self.pairs.is_empty()
    }

    /// The pairs, in order.
    pub fn iter(&self) -> PairsIter<'e, 'a>
        ensures { result ≡ self.now }
    {
        PairsIter {
            rest: self.pairs.iter(),
        }
    }

    /// The pair at an index.
    pub fn get(&self, index: usize) -> Option<(&'a str, &'a str)>
        ensures { option_map (λ x. (x.0.now, x.1.now)) result ≡ slice_get self.now index }
    {
        let pair = self.pairs.get(index)?;
        Some((pair.name, pair.value))
    }
}

impl<'e, 'a> fmt::Debug for Pairs<'e, 'a> {
    fn fmt<W: fmt::Write>(&self, f: &mut fmt::Formatter<W>) -> fmt::Result {
        f.debug_map().entries(self.iter()).finish()
    }
}

/// An iterator over pairs. What it shows is the pairs that are left.
#[derive(Drop)]
pub struct PairsIter<'e, 'a> {
    rest: slice::Iter<'e, Pair<'a>>,
}

impl<'e, 'a> Model for PairsIter<'e, 'a> {
    ghost use Rattle.std.specs.Prelude.{List, ℕ};

    ghost Value = { List (List ℕ × List ℕ) };

    ghost use Rattle.std.specs.Slice.Iter.{iter_rest};

    ghost view = { λ p. iter_rest p.rest };
}

impl<'e, 'a> Iterator for PairsIter<'e, 'a> {
    ghost use Rattle.std.specs.Iterator.{YieldsFirstBy, item_count};

    type Item = (&'a str, &'a str);

    ghost next_gives = { YieldsFirstBy (λ x. (x.0.now, x.1.now)) (λ rest. rest) };

    ghost remaining = { item_count (λ rest. rest) };

    fn next(&mut self) -> Option<(&'a str, &'a str)> {
        let first = self.rest.next()?;
        Some((first.name, first.value))
    }
}
