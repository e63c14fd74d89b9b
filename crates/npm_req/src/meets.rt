// Which versions meet comparators and alternatives of them.
ghost use Rattle.std.specs.Prelude.{◌≡◌};
ghost use Rattle.std.specs.List.{list_all, list_any};
ghost use Rattle.npm_req.specs.Meets.{is_within, meets_all, names_pre_release, stands};

use crate::comparator::{Comparator, Relation};
use crate::version::Version;
use std::cmp::Ordering;

// Whether the version meets all the comparators; a pre-release does so only where one of them names one of its numbers.
pub(crate) fn meets_all(version: &Version, comparators: &[Comparator]) -> bool
    ensures { result ≡ meets_all version.now comparators.now }
{
    is_within_each(version, comparators)
        && (!version.is_pre_release() || is_named(version, comparators))
}

fn is_within_each(version: &Version, comparators: &[Comparator]) -> bool
    ensures { result ≡ list_all (is_within version.now) comparators.now }
{
    comparators.iter().all(|c| is_within(version, c))
}

// Whether some comparator names a pre-release of the version's three numbers.
fn is_named(version: &Version, comparators: &[Comparator]) -> bool
    ensures { result ≡ list_any (names_pre_release version.now) comparators.now }
{
    comparators.iter().any(|c| names_pre_release(version, c))
}

fn is_within(version: &Version, comparator: &Comparator) -> bool
    ensures { result ≡ is_within version.now comparator.now }
{
    match comparator {
        Comparator::Never => false,
        Comparator::Bound(relation, bound) => stands(*relation, version.cmp_precedence(bound)),
    }
}

fn stands(relation: Relation, order: Ordering) -> bool
    ensures { result ≡ stands relation order }
{
    match relation {
        Relation::Equal => order.is_eq(),
        Relation::AtLeast => order.is_ge(),
        Relation::Above => order.is_gt(),
        Relation::Below => order.is_lt(),
        Relation::AtMost => order.is_le(),
    }
}

// Whether the comparator names a pre-release of the version's three numbers.
fn names_pre_release(version: &Version, comparator: &Comparator) -> bool
    ensures { result ≡ names_pre_release version.now comparator.now }
{
    match comparator {
        Comparator::Never => false,
        Comparator::Bound(_, bound) => {
            bound.major() == version.major()
                && bound.minor() == version.minor()
                && bound.patch() == version.patch()
                && bound.is_pre_release()
        }
    }
}
