// Comparators, and which of them an operator before a partial version stands for.
ghost use Rattle.std.specs.Prelude.{◌≡◌, ◌≤◌, ◌+◌, [], ◌∷◌, IfOk};
ghost use Rattle.npm_req.specs.Comparators.{between, comparators, end_of_minor, end_of_patch, first_of, release};
ghost use Rattle.npm_req.specs.Number.{largest_number};
ghost use Rattle.npm_req.specs.Partial.{IsCounted};
ghost use Rattle.npm_req.specs.declared.comparator.Operator.TheVariants as op;

use crate::partial::Partial;
use crate::version::Version;
use std::alloc::{AllocError, Global};

// What stands before a partial version; nothing counts as `=`.
#[derive(Clone, Copy, PartialEq, Eq)]
pub(crate) enum Operator {
    Equal,
    Caret,
    Tilde,
    AtLeast,
    Above,
    Below,
    AtMost,
}

// How a version stands to a bound.
#[derive(Clone, Copy, PartialEq, Eq)]
pub(crate) enum Relation {
    Equal,
    AtLeast,
    Above,
    Below,
    AtMost,
}

// What each version of an alternative has to meet.
#[derive(Drop)]
pub(crate) enum Comparator {
    // No version meets it.
    Never,
    Bound(Relation, Version),
}

impl PartialEq for Comparator {
    ghost use Rattle.npm_req.specs.Same.{same_comparator, same_comparator-equivalence};
    ghost use Rattle.std.specs.Cmp.{partial_equiv_from_equiv};

    ghost eq = { same_comparator };

    ghost laws = { partial_equiv_from_equiv same_comparator-equivalence };

    fn eq(&self, other: &Self) -> bool {
        match (self, other) {
            (Comparator::Never, Comparator::Never) => true,
            (Comparator::Bound(relation, bound), Comparator::Bound(other_relation, other_bound)) =>
                { relation == other_relation && bound == other_bound }
            _ => false,
        }
    }
}

impl Eq for Comparator {
    ghost use Rattle.npm_req.specs.Same.{same_comparator-equivalence};

    ghost laws = { same_comparator-equivalence };
}

pub(crate) fn comparators(
    alloc: Global,
    operator: Operator,
    partial: Partial,
) -> Result<Vec<Comparator>, AllocError>
    requires { IsCounted partial }
    ensures { IfOk result (λ made. made.items ≡ comparators operator partial) }
{
    match operator {
        Operator::Equal => equal(alloc, partial),
        Operator::Caret => caret(alloc, partial),
        Operator::Tilde => tilde(alloc, partial),
        Operator::AtLeast => at_least(alloc, partial),
        Operator::Above => above(alloc, partial),
        Operator::Below => below(alloc, partial),
        Operator::AtMost => at_most(alloc, partial),
    }
}

fn equal(alloc: Global, partial: Partial) -> Result<Vec<Comparator>, AllocError>
    requires { IsCounted partial }
    ensures { IfOk result (λ made. made.items ≡ comparators op.Equal partial) }
{
    match partial {
        Partial::Full(version) => only(alloc, Relation::Equal, version),
        Partial::Minor(a, b) => within_minor(alloc, a, b),
        Partial::Major(a) => within_major(alloc, a),
        Partial::Any => Ok(Vec::new(alloc)),
    }
}

fn caret(alloc: Global, partial: Partial) -> Result<Vec<Comparator>, AllocError>
    requires { IsCounted partial }
    ensures { IfOk result (λ made. made.items ≡ comparators op.Caret partial) }
{
    match partial {
        Partial::Full(version) => {
            let high = end_of_patch(alloc, version.major(), version.minor(), version.patch())?;
            between(alloc, version, high)
        }
        Partial::Minor(a, b) => between(
            alloc,
            Version::release(a, b, 0),
            end_of_minor(alloc, a, b)?,
        ),
        Partial::Major(a) => within_major(alloc, a),
        Partial::Any => Ok(Vec::new(alloc)),
    }
}

fn tilde(alloc: Global, partial: Partial) -> Result<Vec<Comparator>, AllocError>
    requires { IsCounted partial }
    ensures { IfOk result (λ made. made.items ≡ comparators op.Tilde partial) }
{
    match partial {
        Partial::Full(version) => {
            let high = Version::first_of(alloc, version.major(), version.minor() + 1, 0)?;
            between(alloc, version, high)
        }
        Partial::Minor(a, b) => within_minor(alloc, a, b),
        Partial::Major(a) => within_major(alloc, a),
        Partial::Any => Ok(Vec::new(alloc)),
    }
}

fn at_least(alloc: Global, partial: Partial) -> Result<Vec<Comparator>, AllocError>
    ensures { IfOk result (λ made. made.items ≡ comparators op.AtLeast partial) }
{
    match partial {
        Partial::Full(version) => only(alloc, Relation::AtLeast, version),
        Partial::Minor(a, b) => only(alloc, Relation::AtLeast, Version::release(a, b, 0)),
        Partial::Major(a) => only(alloc, Relation::AtLeast, Version::release(a, 0, 0)),
        Partial::Any => Ok(Vec::new(alloc)),
    }
}

fn above(alloc: Global, partial: Partial) -> Result<Vec<Comparator>, AllocError>
    requires { IsCounted partial }
    ensures { IfOk result (λ made. made.items ≡ comparators op.Above partial) }
{
    match partial {
        Partial::Full(version) => only(alloc, Relation::Above, version),
        Partial::Minor(a, b) => only(alloc, Relation::AtLeast, Version::release(a, b + 1, 0)),
        Partial::Major(a) => only(alloc, Relation::AtLeast, Version::release(a + 1, 0, 0)),
        Partial::Any => Ok(vec![in alloc; Comparator::Never]?),
    }
}

fn below(alloc: Global, partial: Partial) -> Result<Vec<Comparator>, AllocError>
    ensures { IfOk result (λ made. made.items ≡ comparators op.Below partial) }
{
    match partial {
        Partial::Full(version) => only(alloc, Relation::Below, version),
        Partial::Minor(a, b) => only(alloc, Relation::Below, Version::first_of(alloc, a, b, 0)?),
        Partial::Major(a) => only(alloc, Relation::Below, Version::first_of(alloc, a, 0, 0)?),
        Partial::Any => Ok(vec![in alloc; Comparator::Never]?),
    }
}

fn at_most(alloc: Global, partial: Partial) -> Result<Vec<Comparator>, AllocError>
    requires { IsCounted partial }
    ensures { IfOk result (λ made. made.items ≡ comparators op.AtMost partial) }
{
    match partial {
        Partial::Full(version) => only(alloc, Relation::AtMost, version),
        Partial::Minor(a, b) => only(
            alloc,
            Relation::Below,
            Version::first_of(alloc, a, b + 1, 0)?,
        ),
        Partial::Major(a) => only(
            alloc,
            Relation::Below,
            Version::first_of(alloc, a + 1, 0, 0)?,
        ),
        Partial::Any => Ok(Vec::new(alloc)),
    }
}

// All versions that begin with this number.
fn within_major(alloc: Global, a: u64) -> Result<Vec<Comparator>, AllocError>
    requires { a ≤ largest_number }
    ensures { IfOk result (λ made. made.items ≡ between (release a 0 0) (first_of (a + 1) 0 0)) }
{
    between(
        alloc,
        Version::release(a, 0, 0),
        Version::first_of(alloc, a + 1, 0, 0)?,
    )
}

// All versions that begin with these two numbers.
fn within_minor(alloc: Global, a: u64, b: u64) -> Result<Vec<Comparator>, AllocError>
    requires { b ≤ largest_number }
    ensures { IfOk result (λ made. made.items ≡ between (release a b 0) (first_of a (b + 1) 0)) }
{
    between(
        alloc,
        Version::release(a, b, 0),
        Version::first_of(alloc, a, b + 1, 0)?,
    )
}

// Where `^a.b` ends: the leftmost number that isn't 0 stays.
fn end_of_minor(alloc: Global, a: u64, b: u64) -> Result<Version, AllocError>
    requires major { a ≤ largest_number }
    requires minor { b ≤ largest_number }
    ensures { IfOk result (λ made. made ≡ end_of_minor a b) }
{
    if a == 0 {
        Version::first_of(alloc, 0, b + 1, 0)
    } else {
        Version::first_of(alloc, a + 1, 0, 0)
    }
}

// Where `^a.b.c` ends.
fn end_of_patch(alloc: Global, a: u64, b: u64, c: u64) -> Result<Version, AllocError>
    requires major { a ≤ largest_number }
    requires minor { b ≤ largest_number }
    requires patch { c ≤ largest_number }
    ensures { IfOk result (λ made. made ≡ end_of_patch a b c) }
{
    if a == 0 && b == 0 {
        Version::first_of(alloc, 0, 0, c + 1)
    } else {
        end_of_minor(alloc, a, b)
    }
}

fn only(alloc: Global, relation: Relation, version: Version) -> Result<Vec<Comparator>, AllocError>
    ensures { IfOk result (λ made. made.items ≡ Comparator.Bound relation version ∷ []) }
{
    Ok(vec![in alloc; Comparator::Bound(relation, version)]?)
}

// From the first bound on, and before the second.
fn between(alloc: Global, low: Version, high: Version) -> Result<Vec<Comparator>, AllocError>
    ensures { IfOk result (λ made. made.items ≡ between low high) }
{
    let low = Comparator::Bound(Relation::AtLeast, low);
    let high = Comparator::Bound(Relation::Below, high);
    Ok(vec![in alloc; low, high]?)
}
