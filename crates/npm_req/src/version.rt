// The versions that npm reads.
ghost use Rattle.std.specs.Prelude.{◌≡◌, [], ◌∷◌, IfOk, Some, None};
ghost use Rattle.npm_req.specs.Comparators.{first_of, release};
ghost use Rattle.npm_req.specs.Meets.{is_pre_release, numbers_order, precedence};
ghost use Rattle.npm_req.specs.Partial.{without_build};
ghost use Rattle.semver.specs.Identifiers.{parts_of};
ghost use Rattle.npm_req.specs.Number.{is_number};
ghost use Rattle.npm_req.specs.Version.{are_numbers, semver_of, version_of, without_sign};

use crate::error::NpmVersionParseError;
use crate::front::{after_char, trimmed};
use semver::{BuildMetadata, Prerelease};
use std::alloc::{AllocError, Global};
use std::cmp::Ordering;
use std::fmt;
use std::marker::Model;

// The largest integer that JavaScript counts exactly.
pub(crate) const LARGEST_NUMBER: u64 = 9007199254740991;

/// A version as npm reads it, seen as its three numbers, its pre-release and its build.
#[derive(Drop)]
pub struct Version {
    semver: semver::Version,
}

impl Model for Version {
    ghost use Rattle.semver.specs.Parse.{Parts};

    ghost Value = { Parts };

    ghost use Rattle.semver.specs.Identifiers.{parts_of};

    ghost view = { λ v. parts_of v.semver };
}

impl PartialEq for Version {
    ghost use Rattle.npm_req.specs.Same.{same_version, same_version-equivalence};
    ghost use Rattle.std.specs.Cmp.{partial_equiv_from_equiv};

    ghost eq = { same_version };

    ghost laws = { partial_equiv_from_equiv same_version-equivalence };

    fn eq(&self, other: &Self) -> bool {
        self.semver == other.semver
    }
}

impl Eq for Version {
    ghost use Rattle.npm_req.specs.Same.{same_version-equivalence};

    ghost laws = { same_version-equivalence };
}

impl fmt::Display for Version {
    ghost use Rattle.std.specs.Prelude.{Some};
    ghost use Rattle.semver.specs.Identifiers.{parts_text};

    ghost output = { λ version. Some (parts_text version) };

    fn fmt<W: fmt::Write>(&self, f: &mut fmt::Formatter<W>) -> fmt::Result {
        fmt::Display::fmt(&self.semver, f)
    }
}

impl Version {
    /// Reads a version of npm: a text of Semantic Versioning 2.0.0 whose numbers are at most 9007199254740991.
    /// Spaces and tabs around it don't count, nor does one `v` or `=` in front.
    pub fn parse_npm(alloc: Global, text: &str) -> Result<Version, NpmVersionParseError>
        ensures read { IfOk result (λ version. version_of text.now ≡ Some version) }
        ensures refused { result ≡ Err NpmVersionParseError.NotAVersion
            → version_of text.now ≡ None }
    {
        match semver_of(alloc, without_sign(trimmed(text)))? {
            Some(version) => Ok(version),
            None => Err(NpmVersionParseError::NotAVersion),
        }
    }

    pub fn major(&self) -> u64
        ensures { result ≡ self.now.0 }
    {
        self.semver.major
    }

    pub fn minor(&self) -> u64
        ensures { result ≡ self.now.1 }
    {
        self.semver.minor
    }

    pub fn patch(&self) -> u64
        ensures { result ≡ self.now.2 }
    {
        self.semver.patch
    }

    /// Whether a pre-release follows the numbers, as in `1.0.0-alpha`.
    pub fn is_pre_release(&self) -> bool
        ensures { result ≡ is_pre_release self.now }
    {
        !self.semver.pre.is_empty()
    }

    /// The order of Semantic Versioning, in which builds don't count.
    pub fn cmp_precedence(&self, other: &Version) -> Ordering
        ensures { result ≡ precedence self.now other.now }
    {
        // The pre-releases are compared only where the numbers are equal.
        match self.cmp_numbers(other) {
            Ordering::Equal => self.semver.pre.cmp(&other.semver.pre),
            order => order,
        }
    }

    fn cmp_numbers(&self, other: &Version) -> Ordering
        ensures { result ≡ numbers_order self.now other.now }
    {
        let (one, other) = (&self.semver, &other.semver);
        one.major
            .cmp(&other.major)
            .then(one.minor.cmp(&other.minor))
            .then(one.patch.cmp(&other.patch))
    }

    // The version `major.minor.patch`.
    pub(crate) fn release(major: u64, minor: u64, patch: u64) -> Version
        ensures { result ≡ release major minor patch }
    {
        Version {
            semver: semver::Version::new(major, minor, patch),
        }
    }

    // The version `major.minor.patch-0`, which comes before all others of these numbers.
    pub(crate) fn first_of(
        alloc: Global,
        major: u64,
        minor: u64,
        patch: u64,
    ) -> Result<Version, AllocError>
        ensures { IfOk result (λ made. made ≡ first_of major minor patch) }
    {
        let Ok(pre) = Prerelease::new(alloc, "0") else {
            return Err(AllocError);
        };
        Ok(Version {
            semver: semver::Version {
                major,
                minor,
                patch,
                pre,
                build: BuildMetadata::empty(),
            },
        })
    }

    pub(crate) fn without_build(self) -> Version
        ensures { result ≡ without_build self }
    {
        let Version { semver } = self;
        let semver::Version {
            major,
            minor,
            patch,
            pre,
            build: _,
        } = semver;
        Version {
            semver: semver::Version {
                major,
                minor,
                patch,
                pre,
                build: BuildMetadata::empty(),
            },
        }
    }
}

// What follows one `v` or `=`, if the text begins with it.
#[tactic(auto, unfolding(sugar_path::specs::Front::after))]
fn without_sign(text: &str) -> &str
    ensures { result.now ≡ without_sign text.now }
{
    match after_char(text, 'v') {
        Some(rest) => rest,
        None => after_char(text, '=').unwrap_or(text),
    }
}

/// The version that a text of Semantic Versioning writes, if its numbers aren't too large.
pub(crate) fn semver_of(alloc: Global, text: &str) -> Result<Option<Version>, AllocError>
    ensures { IfOk result (λ found. found ≡ semver_of text.now) }
{
    match semver::Version::parse(alloc, text) {
        Ok(semver) => Ok(are_numbers(&semver).then_some(Version { semver })),
        Err(e) if e == semver::Error::from(AllocError) => Err(AllocError),
        Err(_) => Ok(None),
    }
}

fn are_numbers(version: &semver::Version) -> bool
    ensures { result ≡ are_numbers (parts_of version.now) }
{
    is_number(version.major) && is_number(version.minor) && is_number(version.patch)
}

pub(crate) fn is_number(n: u64) -> bool
    ensures { result ≡ is_number n }
{
    n <= LARGEST_NUMBER
}
