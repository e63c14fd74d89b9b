// What a text requires of a version.
ghost use Rattle.std.specs.Prelude.{◌≡◌, ◌==◌, None, IfOk, IfErr, option_map};
ghost use Rattle.std.specs.List.{list_all};
ghost use Rattle.npm_req.specs.Meets.{meets};
ghost use Rattle.npm_req.specs.Requirement.{
  IsPlaceIn,
  IsRefused,
  is_tag,
  is_tag_byte,
  meaning_of,
  meets_meaning,
  place_of,
  tag_of,
};

use crate::comparator::Comparator;
use crate::error::{NpmVersionReqParseError, Refusal};
use crate::front::{after_blanks, before_blanks};
use crate::meets::meets_all;
use crate::range::range;
use crate::version::Version;
use std::alloc::Global;
use std::marker::Model;
use sugar_path::{List, Text};

// What the text of a requirement means.
#[derive(Drop)]
pub(crate) enum Meaning {
    // Alternatives, of which one has to be met.
    Range(List<List<Comparator>>),
    // A name that the registry gives to a version.
    Tag(Text),
}

/// What a text requires of a version: a range, or a tag, which is a name that a registry gives to a version.
#[derive(Drop)]
pub struct VersionReq {
    text: Text,
    meaning: Meaning,
}

impl Model for VersionReq {
    ghost use Rattle.npm_req.specs.Requirement.{Requirement};

    ghost Value = { Requirement };

    ghost view = { λ req. record { text = req.text; meaning = req.meaning } };
}

impl PartialEq for VersionReq {
    ghost use Rattle.npm_req.specs.Same.{same_requirement, same_requirement-equivalence};
    ghost use Rattle.std.specs.Cmp.{partial_equiv_from_equiv};

    ghost eq = { same_requirement };

    ghost laws = { partial_equiv_from_equiv same_requirement-equivalence };

    /// Two requirements are equal where their comparators, alternative by alternative, or their tags are equal, however
    /// they are written.
    fn eq(&self, other: &Self) -> bool {
        match (&self.meaning, &other.meaning) {
            (Meaning::Range(a), Meaning::Range(b)) => a == b,
            (Meaning::Tag(a), Meaning::Tag(b)) => a == b,
            _ => false,
        }
    }
}

impl Eq for VersionReq {
    ghost use Rattle.npm_req.specs.Same.{same_requirement-equivalence};

    ghost laws = { same_requirement-equivalence };
}

impl VersionReq {
    /// Reads a range or a tag of npm. A text that is both is a range.
    pub fn parse_from_npm(alloc: Global, text: &str) -> Result<VersionReq, NpmVersionReqParseError>
        ensures text { IfOk result (λ req. req.text ≡ text.now) }
        ensures read { IfOk result (λ req. meaning_of text.now ≡ Ok req.meaning) }
        ensures refused { IfErr result (IsRefused (meaning_of text.now)) }
        ensures place { IfErr result (IsPlaceIn text.now) }
    {
        let meaning = meaning_of(alloc, text)?;
        Ok(VersionReq {
            text: Text::of(alloc, text)?,
            meaning,
        })
    }

    /// The trimmed text of a tag.
    pub fn tag(&self) -> Option<&str>
        ensures { option_map (λ t. t.now) result ≡ tag_of self.now.meaning }
    {
        match &self.meaning {
            Meaning::Range(_) => None,
            Meaning::Tag(name) => Some(name.as_str()),
        }
    }

    /// The text as it was given.
    pub fn text(&self) -> &str
        ensures { result.now ≡ self.now.text }
    {
        self.text.as_str()
    }

    /// Whether the version meets the range.
    pub fn matches(&self, version: &Version) -> bool
        requires { tag_of self.now.meaning ≡ None }
        ensures { result ≡ meets_meaning version.now self.now.meaning }
    {
        match &self.meaning {
            Meaning::Range(alternatives) => meets(version, alternatives.as_slice()),
            Meaning::Tag(_) => false,
        }
    }
}

// Whether the version meets some alternative.
fn meets(version: &Version, alternatives: &[List<Comparator>]) -> bool
    ensures { result ≡ meets version.now alternatives.now }
{
    alternatives
        .iter()
        .any(|comparators| meets_all(version, comparators.as_slice()))
}

fn meaning_of(alloc: Global, text: &str) -> Result<Meaning, NpmVersionReqParseError>
    ensures read { IfOk result (λ meaning. meaning_of text.now ≡ Ok meaning) }
    ensures refused { IfErr result (IsRefused (meaning_of text.now)) }
    ensures place { IfErr result (IsPlaceIn text.now) }
{
    let from = after_blanks(text);
    let trimmed = before_blanks(from);
    match range(alloc, trimmed) {
        Ok(alternatives) => Ok(Meaning::Range(alternatives)),
        Err(Refusal::NoMemory) => Err(NpmVersionReqParseError::NoMemory),
        Err(Refusal::Unexpected { left }) => {
            if is_tag(trimmed) {
                return Ok(Meaning::Tag(Text::of(alloc, trimmed)?));
            }
            let place = (text.len() - from.len()) + (trimmed.len() - left);
            Err(NpmVersionReqParseError::Unexpected { place })
        }
    }
}

fn is_tag(text: &str) -> bool
    ensures { result ≡ is_tag text.now }
{
    match text.as_bytes() {
        [] => false,
        [first, rest @ ..] => first.is_ascii_alphabetic() && are_tag_bytes(rest),
    }
}

fn are_tag_bytes(bytes: &[u8]) -> bool
    ensures { result ≡ list_all is_tag_byte bytes.now }
{
    bytes.iter().all(|b| is_tag_byte(*b))
}

fn is_tag_byte(c: u8) -> bool
    ensures { result ≡ is_tag_byte c }
{
    c.is_ascii_alphabetic() || c.is_ascii_digit() || c == b'-' || c == b'_' || c == b'.'
}
