// The patterns of a mapping: their reading, and which specifiers they match.
ghost use Rattle.std.specs.Prelude.{◌≡◌, ◌≢◌, [], IsTrue, option_map};
ghost use Rattle.star_texts.specs.Star.{rest_between};
ghost use Rattle.resolver_core.specs.Pattern.{IsReadAs, pattern_of, pattern_without_star, patterns_of};
ghost use Rattle.resolver_core.specs.Pattern.{ending, fits, matches_wildcard, rest_of};

use star_texts::{around_star, rest_between};
use std::alloc::{AllocError, Global};
use sugar_path::{List, Text};
use swc_loader::TsVersion;
use thiserror::Error;

/// Why the settings of a mapping are refused: the first cause, in the order of the patterns.
#[derive(Clone, Copy, Debug, PartialEq, Eq, Error)]
pub enum TsError {
    /// The pattern at this place, from 0, has no target.
    #[error("the pattern at {at} has no target")]
    EmptyTargets { at: usize },
    /// It holds more than one `*`.
    #[error("the pattern at {at} holds more than one `*`")]
    TwoWildcards { at: usize },
    /// It holds no `*`, and has more than one target.
    #[error("the pattern at {at} holds no `*` and has more than one target")]
    ExactNeedsOne { at: usize },
    /// No memory was found.
    #[error("no memory was found")]
    NoMemory,
}

impl From<AllocError> for TsError {
    ghost use Rattle.resolver_core.specs.declared.pattern.TsError.TheVariants.{NoMemory};

    ghost from_gives = { λ _ e. e ≡ NoMemory };

    fn from(_: AllocError) -> Self {
        TsError::NoMemory
    }
}

/// A pattern of a mapping with what stands for it.
#[derive(Drop)]
pub enum Pattern {
    /// A text without `*`, and its target.
    Exact { text: Text, target: Text },
    /// A text with a `*`.
    Starred(Wildcard),
}

/// A pattern with a `*`: its text, what stands before the `*` and behind it, and the targets.
#[derive(Drop)]
pub struct Wildcard {
    pub text: Text,
    pub prefix: Text,
    pub suffix: Text,
    pub targets: List<Text>,
}

impl Pattern {
    // Whether it is a wildcard that stands for a specifier.
    pub(crate) fn fits(&self, version: TsVersion, specifier: &str) -> bool
        ensures { result ≡ fits version specifier.now self.now }
    {
        match self {
            Pattern::Exact { .. } => false,
            Pattern::Starred(wildcard) => wildcard.rest(version, specifier).is_some(),
        }
    }
}

impl Wildcard {
    // What of a specifier the `*` stands for, where this stands for it.
    pub(crate) fn rest<'s>(&self, version: TsVersion, specifier: &'s str) -> Option<&'s str>
        ensures { option_map (λ rest. rest.now) result
            ≡ rest_between specifier.now self.now.prefix (ending version self.now) }
    {
        rest_between(specifier, self.prefix.as_str(), self.ending(version))
    }

    // What of a specifier the `*` stands for, since this stands for it.
    pub(crate) fn rest_of<'s>(&self, version: TsVersion, specifier: &'s str) -> &'s str
        requires { IsTrue (matches_wildcard version specifier.now self.now) }
        ensures { result.now ≡ rest_of version specifier.now self.now }
    {
        match self.rest(version, specifier) {
            Some(rest) => rest,
            None => unreachable!(),
        }
    }

    // What a specifier must end in.
    fn ending(&self, version: TsVersion) -> &str
        ensures { result.now ≡ ending version self.now }
    {
        match version {
            TsVersion::V1 => "",
            TsVersion::V2 => self.suffix.as_str(),
        }
    }
}

// The patterns of settings as given, or the first cause for which one is refused.
pub(crate) fn read_patterns(
    alloc: Global,
    paths: List<(Text, List<Text>)>,
) -> Result<List<Pattern>, TsError>
    ensures { IsReadAs result (patterns_of paths) }
{
    let mut patterns = Vec::new(alloc);
    for (text, targets) in Vec::from(paths) {
        let pattern = read_pattern(alloc, patterns.len(), text, targets)?;
        if patterns.push(pattern).is_err() {
            return Err(TsError::NoMemory);
        }
    }
    Ok(List::from(patterns))
}

// The pattern at a place of the settings.
fn read_pattern(
    alloc: Global,
    at: usize,
    text: Text,
    targets: List<Text>,
) -> Result<Pattern, TsError>
    ensures { IsReadAs result (pattern_of at text targets) }
{
    if targets.as_slice().is_empty() {
        return Err(TsError::EmptyTargets { at });
    }
    let Some((prefix, behind)) = around_star(text.as_str()) else {
        return exact(at, text, targets);
    };
    if around_star(behind).is_some() {
        return Err(TsError::TwoWildcards { at });
    }
    let prefix = Text::of(alloc, prefix)?;
    let suffix = Text::of(alloc, behind)?;
    Ok(Pattern::Starred(Wildcard {
        text,
        prefix,
        suffix,
        targets,
    }))
}

// A pattern without `*`, which has one target.
fn exact(at: usize, text: Text, targets: List<Text>) -> Result<Pattern, TsError>
    requires { targets ≢ [] }
    ensures { IsReadAs result (pattern_without_star at text targets) }
{
    let mut targets = Vec::from(targets);
    match targets.pop() {
        Some(target) if targets.is_empty() => Ok(Pattern::Exact { text, target }),
        _ => Err(TsError::ExactNeedsOne { at }),
    }
}
