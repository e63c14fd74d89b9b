// The patterns of a mapping with look-ups, by which the one that decides is found without a scan.
ghost use Rattle.std.specs.Prelude.{◌≡◌, List, [], ◌∷◌, ◌++◌, length, reverse, IfOk, OnOk, find, filter};
ghost use Rattle.std.specs.Prelude.{slice_get};
ghost use Rattle.std.specs.List.Sorted.{IsStrictlySortedBy};
ghost use Rattle.std.specs.Option.{option_copied};
ghost use Rattle.std.specs.Ordering.{nat_cmp};
ghost use Rattle.resolver_core.specs.declared.pattern.Pattern.{Pattern as ThePattern};
ghost use Rattle.resolver_core.specs.Pattern.{deciding, first_longest, fits, is_exactly};
ghost use Rattle.resolver_core.specs.Lookups.{by_lengths, first_passing, fits_behind, that_passes};
ghost use Rattle.resolver_core.specs.Lookups.{IsFalling, IsKeptFor};

use crate::Pattern;
use crate::places::PlacesByText;
use std::alloc::{AllocError, Global};
use std::collections::BTreeSet;
use std::marker::Model;
use sugar_path::List;
use swc_loader::TsVersion;

/// Patterns in the order given. They are looked up by places.
#[derive(Drop)]
pub struct Patterns {
    given: List<Pattern>,
    lookups: Lookups,
}

// The places of exact patterns by their texts, those of wildcards by the texts before their `*`, and the lengths of
// these texts, the greatest first.
#[derive(Drop)]
struct Lookups {
    exact: PlacesByText,
    starred: PlacesByText,
    lengths: Vec<usize>,
}

// The places that are noted while the patterns are gone over, and the lengths.
#[derive(Drop)]
struct Noted {
    exact: PlacesByText,
    starred: PlacesByText,
    lengths: BTreeSet<usize>,
}

impl Model for Patterns {
    ghost use Rattle.std.specs.Prelude.{List};
    ghost use Rattle.resolver_core.specs.declared.pattern.Pattern.{Pattern};
    ghost use Rattle.resolver_core.specs.Lookups.{IsKeptFor, IsFalling};

    ghost Value = { List Pattern };

    ghost view = { λ p. p.given };

    ghost invariant = { λ p.
        IsKeptFor p.given p.lookups.exact p.lookups.starred p.lookups.lengths.items
        × IsFalling p.lookups.lengths.items };
}

impl Patterns {
    /// Patterns in the order given.
    pub(crate) fn new(alloc: Global, given: List<Pattern>) -> Result<Patterns, AllocError>
        ensures { IfOk result (λ patterns. patterns ≡ given) }
    {
        let lookups = Lookups::of(alloc, given.as_slice())?;
        Ok(Patterns { given, lookups })
    }

    /// Of these patterns the one that decides for a specifier.
    pub(crate) fn deciding(&self, version: TsVersion, specifier: &str) -> Option<&Pattern>
        ensures { option_copied result ≡ deciding version self.now specifier.now }
    {
        match self.exactly(specifier) {
            Some(pattern) => Some(pattern),
            None => self.longest(version, specifier),
        }
    }

    // The first exact pattern that is the specifier.
    fn exactly(&self, specifier: &str) -> Option<&Pattern>
        ensures { option_copied result ≡ find (is_exactly specifier.now) self.now }
    {
        let places = self.lookups.exact.at(specifier.as_bytes());
        match places.first() {
            Some(place) => pattern_at(self.given.as_slice(), *place),
            None => None,
        }
    }

    // Of the wildcards that match the first with the longest text before its `*`.
    fn longest(&self, version: TsVersion, specifier: &str) -> Option<&Pattern>
        ensures { option_copied result ≡ first_longest (filter (fits version specifier.now) self.now) }
    {
        self.by_lengths(self.lookups.lengths.as_slice(), version, specifier)
    }

    // The first wildcard that matches, by the lengths of the texts before the `*` in this order.
    fn by_lengths(&self, lengths: &[usize], version: TsVersion, specifier: &str) -> Option<&Pattern>
        ensures { option_copied result ≡ by_lengths version specifier.now self.now lengths.now }
    {
        for length in lengths {
            let found = self.behind(version, specifier, *length);
            if found.is_some() {
                return found;
            }
        }
        None
    }

    // The first wildcard that matches, of those with a text of this length before their `*`.
    fn behind(&self, version: TsVersion, specifier: &str, length: usize) -> Option<&Pattern>
        ensures { option_copied result ≡ find (fits_behind version specifier.now length) self.now }
    {
        match specifier.as_bytes().get(..length) {
            Some(front) => {
                let places = self.lookups.starred.at(front);
                first_that_fits(self.given.as_slice(), places, version, specifier)
            }
            None => None,
        }
    }
}

impl Lookups {
    // The look-ups of patterns.
    fn of(alloc: Global, patterns: &[Pattern]) -> Result<Lookups, AllocError>
        ensures kept { IfOk result (λ l. IsKeptFor patterns.now l.exact l.starred l.lengths.items) }
        ensures falls { IfOk result (λ l. IsFalling l.lengths.items) }
    {
        let mut noted = Noted {
            exact: PlacesByText::new(alloc),
            starred: PlacesByText::new(alloc),
            lengths: BTreeSet::new(alloc),
        };
        for (place, pattern) in patterns.iter().enumerate() {
            noted.note(alloc, place, pattern)?;
        }
        let lengths = falling(alloc, &noted.lengths)?;
        Ok(Lookups {
            exact: noted.exact,
            starred: noted.starred,
            lengths,
        })
    }
}

impl Noted {
    // Notes the pattern at a place.
    fn note(&mut self, alloc: Global, place: usize, pattern: &Pattern) -> Result<(), AllocError>
        ensures { OnOk result ((ps : List ThePattern) → length ps ≡ place
            → IsKeptFor ps self.old.exact self.old.starred self.old.lengths.keys
            → IsKeptFor (ps ++ pattern.now ∷ []) self.new.exact self.new.starred self.new.lengths.keys) }
    {
        match pattern {
            Pattern::Exact { text, .. } => {
                self.exact.add(alloc, text.as_str(), place)?;
                Ok(())
            }
            Pattern::Starred(wildcard) => {
                let prefix = wildcard.prefix.as_str();
                self.starred.add(alloc, prefix, place)?;
                self.lengths.insert(prefix.len())?;
                Ok(())
            }
        }
    }
}

// Numbers, the greatest first.
fn falling(alloc: Global, numbers: &BTreeSet<usize>) -> Result<Vec<usize>, AllocError>
    ensures alike { IfOk result (λ v. v.items ≡ reverse numbers.now.keys) }
    ensures rising { IsStrictlySortedBy nat_cmp numbers.now.keys }
{
    numbers.iter().rev().copied().collect(alloc)
}

// The first pattern at these places that is a wildcard and matches.
fn first_that_fits<'p>(
    patterns: &'p [Pattern],
    places: &[usize],
    version: TsVersion,
    specifier: &str,
) -> Option<&'p Pattern>
    ensures { option_copied result
        ≡ first_passing (fits version specifier.now) patterns.now places.now }
{
    for place in places {
        let found = fitting_at(patterns, *place, version, specifier);
        if found.is_some() {
            return found;
        }
    }
    None
}

// The pattern at a place, if it is a wildcard and matches.
fn fitting_at<'p>(
    patterns: &'p [Pattern],
    place: usize,
    version: TsVersion,
    specifier: &str,
) -> Option<&'p Pattern>
    ensures { option_copied result ≡ that_passes (fits version specifier.now) (slice_get patterns.now place) }
{
    match pattern_at(patterns, place) {
        Some(pattern) if pattern.fits(version, specifier) => Some(pattern),
        _ => None,
    }
}

fn pattern_at(patterns: &[Pattern], place: usize) -> Option<&Pattern>
    ensures { option_copied result ≡ slice_get patterns.now place }
{
    patterns.get(place)
}
