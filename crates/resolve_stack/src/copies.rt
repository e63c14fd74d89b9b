// Copies of outcomes, with all that they tell.
ghost use Rattle.std.specs.Prelude.{◌≡◌, IfOk};

use crate::{JoinRefusal, Outcome, Refusal, Verdict};
use pnp_core::{MissingPeerDependency, PackageLocator, UndeclaredDependency};
use resolver_core::TsRefusal;
use std::alloc::{AllocError, Global};
use sugar_path::{List, Text};

impl Outcome {
    /// An equal outcome.
    pub fn try_clone(&self, alloc: Global) -> Result<Outcome, AllocError>
        ensures { IfOk result (λ outcome. outcome ≡ self.now) }
    {
        let verdict = self.verdict.try_clone(alloc)?;
        let trail = self.trail.try_clone(alloc)?;
        Ok(Outcome { verdict, trail })
    }
}

impl Verdict {
    /// An equal verdict.
    pub fn try_clone(&self, alloc: Global) -> Result<Verdict, AllocError>
        ensures { IfOk result (λ verdict. verdict ≡ self.now) }
    {
        match self {
            Verdict::Answered(answer) => Ok(Verdict::Answered(answer.try_clone(alloc)?)),
            Verdict::Refused(refusal) => Ok(Verdict::Refused(copy_of_refusal(alloc, refusal)?)),
        }
    }
}

// An equal refusal, of a request or of a pattern with its inner ones.
fn copy_of_refusal(alloc: Global, refusal: &Refusal) -> Result<Refusal, AllocError>
    ensures { IfOk result (λ copy. copy ≡ refusal.now) }
{
    match refusal {
        TsRefusal::Inner(refusal) => Ok(TsRefusal::Inner(refusal.try_clone(alloc)?)),
        TsRefusal::TsFault { pattern, inner } => {
            let pattern = pattern.try_clone(alloc)?;
            let inner = copies_of(alloc, inner.as_slice())?;
            Ok(TsRefusal::TsFault { pattern, inner })
        }
    }
}

fn copies_of(alloc: Global, refusals: &[JoinRefusal]) -> Result<List<JoinRefusal>, AllocError>
    ensures { IfOk result (λ copies. copies ≡ refusals.now) }
{
    let mut copies = Vec::new(alloc);
    for refusal in refusals {
        copies.push(refusal.try_clone(alloc)?)?;
    }
    Ok(List::from(copies))
}

impl JoinRefusal {
    /// An equal refusal.
    pub fn try_clone(&self, alloc: Global) -> Result<JoinRefusal, AllocError>
        ensures { IfOk result (λ refusal. refusal ≡ self.now) }
    {
        match self {
            JoinRefusal::BadSpecifier { specifier } => {
                let specifier = specifier.try_clone(alloc)?;
                Ok(JoinRefusal::BadSpecifier { specifier })
            }
            JoinRefusal::FailedManifestHydration { cause, manifest } => {
                let manifest = manifest.try_clone(alloc)?;
                let cause = *cause;
                Ok(JoinRefusal::FailedManifestHydration { cause, manifest })
            }
            JoinRefusal::UndeclaredDependency(told) => {
                let told = copy_of_undeclared(alloc, told)?;
                Ok(JoinRefusal::UndeclaredDependency(told))
            }
            JoinRefusal::MissingPeerDependency(told) => {
                let told = copy_of_missing_peer(alloc, told)?;
                Ok(JoinRefusal::MissingPeerDependency(told))
            }
            JoinRefusal::NotInRegistry { name, reference } => {
                let (name, reference) = copies_of_two(alloc, name, reference)?;
                Ok(JoinRefusal::NotInRegistry { name, reference })
            }
            JoinRefusal::NotLocked { name, reference } => {
                let (name, reference) = copies_of_two(alloc, name, reference)?;
                Ok(JoinRefusal::NotLocked { name, reference })
            }
            JoinRefusal::MalformedPackage { path } => {
                let path = path.try_clone(alloc)?;
                Ok(JoinRefusal::MalformedPackage { path })
            }
            JoinRefusal::OutOfRange { range, version } => {
                let (range, version) = copies_of_two(alloc, range, version)?;
                Ok(JoinRefusal::OutOfRange { range, version })
            }
            JoinRefusal::Archive { location } => {
                let location = location.try_clone(alloc)?;
                Ok(JoinRefusal::Archive { location })
            }
            JoinRefusal::NotExported { location, key } => {
                let (location, key) = copies_of_two(alloc, location, key)?;
                Ok(JoinRefusal::NotExported { location, key })
            }
            JoinRefusal::Outside { file, location } => {
                let (file, location) = copies_of_two(alloc, file, location)?;
                Ok(JoinRefusal::Outside { file, location })
            }
            JoinRefusal::NotFound { text } => {
                let text = text.try_clone(alloc)?;
                Ok(JoinRefusal::NotFound { text })
            }
            JoinRefusal::BaseNotAFile => Ok(JoinRefusal::BaseNotAFile),
        }
    }
}

fn copies_of_two(alloc: Global, first: &Text, second: &Text) -> Result<(Text, Text), AllocError>
    ensures { IfOk result (λ copies. copies ≡ (first.now, second.now)) }
{
    let first = first.try_clone(alloc)?;
    let second = second.try_clone(alloc)?;
    Ok((first, second))
}

fn copy_of_undeclared(
    alloc: Global,
    told: &UndeclaredDependency,
) -> Result<UndeclaredDependency, AllocError>
    ensures { IfOk result (λ copy. copy ≡ told.now) }
{
    Ok(UndeclaredDependency {
        message: told.message.try_clone(alloc)?,
        request: told.request.try_clone(alloc)?,
        dependency_name: told.dependency_name.try_clone(alloc)?,
        issuer_locator: told.issuer_locator.try_clone(alloc)?,
        issuer_path: told.issuer_path.try_clone(alloc)?,
    })
}

fn copy_of_missing_peer(
    alloc: Global,
    told: &MissingPeerDependency,
) -> Result<MissingPeerDependency, AllocError>
    ensures { IfOk result (λ copy. copy ≡ told.now) }
{
    Ok(MissingPeerDependency {
        message: told.message.try_clone(alloc)?,
        request: told.request.try_clone(alloc)?,
        dependency_name: told.dependency_name.try_clone(alloc)?,
        issuer_locator: told.issuer_locator.try_clone(alloc)?,
        issuer_path: told.issuer_path.try_clone(alloc)?,
        broken_ancestors: copies_of_locators(alloc, told.broken_ancestors.as_slice())?,
    })
}

fn copies_of_locators(
    alloc: Global,
    locators: &[PackageLocator],
) -> Result<List<PackageLocator>, AllocError>
    ensures { IfOk result (λ copies. copies ≡ locators.now) }
{
    let mut copies = Vec::new(alloc);
    for locator in locators {
        copies.push(locator.try_clone(alloc)?)?;
    }
    Ok(List::from(copies))
}
