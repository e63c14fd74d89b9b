// A whole lock file.
ghost use Rattle.std.specs.Prelude.{◌≡◌, Ok, IfOk, IfErr, length, option_map};
ghost use Rattle.yarn_lock_parser.specs.Front.{IsRest};
ghost use Rattle.yarn_lock_parser.specs.Cut.{entry_texts};
ghost use Rattle.yarn_lock_parser.specs.Lock.{entries_from, Explains, lock_of, metadata_after, place_in};
ghost use Rattle.yarn_lock_parser.specs.Slices.{IsLockOf};

use crate::cut::entry_text;
use crate::entry::{Entry, entry_of};
use crate::error::{LockCause, YarnLockError};
use crate::header::{Generator, header_at};
use crate::metadata::{Metadata, metadata_at};
use std::alloc::Global;
use std::marker::Model;

/// A lock file. Its texts are parts of the text that it was read from.
#[derive(Drop)]
pub struct Lockfile<'a> {
    entries: Vec<Entry<'a>>,
    generator: Generator,
    version: u8,
    cache_key: Option<&'a str>,
}

impl<'a> Model for Lockfile<'a> {
    ghost use Rattle.std.specs.Prelude.{option_map};
    ghost use Rattle.yarn_lock_parser.specs.Lock as specs;

    ghost Value = { specs.Lock };

    ghost view = { λ l. record {
      generator = l.generator;
      version = l.version;
      cache_key = option_map (λ key. key.now) l.cache_key;
      entries = l.entries.items;
    } };
}

impl<'a> Lockfile<'a> {
    ghost use Rattle.std.specs.Prelude.{◌≡◌, option_map};

    pub fn entries(&self) -> &[Entry<'a>]
        ensures { result.now ≡ self.now.entries }
    {
        self.entries.as_slice()
    }

    pub fn generator(&self) -> Generator
        ensures { result ≡ self.now.generator }
    {
        self.generator
    }

    /// The format's version.
    pub fn version(&self) -> u8
        ensures { result ≡ self.now.version }
    {
        self.version
    }

    /// The version of the cache that the checksums belong to.
    pub fn cache_key(&self) -> Option<&'a str>
        ensures { option_map (λ key. key.now) result ≡ self.now.cache_key }
    {
        self.cache_key
    }
}

/// Reads a lock file as Yarn or Bun writes it: version 1, or with metadata.
pub fn parse_str(alloc: Global, content: &str) -> Result<Lockfile<'_>, YarnLockError>
    ensures read { IfOk result (λ lock. lock_of content.now ≡ Ok lock) }
    ensures refused { IfErr result (Explains (lock_of content.now)) }
    ensures slices { IfOk result (IsLockOf content.now) }
{
    lock_of(alloc, content)
}

#[tactic(auto, unfolding(crate::specs::Lock::lock_of))]
fn lock_of(alloc: Global, content: &str) -> Result<Lockfile<'_>, YarnLockError>
    ensures read { IfOk result (λ lock. lock_of content.now ≡ Ok lock) }
    ensures refused { IfErr result (Explains (lock_of content.now)) }
{
    let Some((header, body)) = header_at(content) else {
        return Err(YarnLockError::Parser {
            place: 0,
            cause: LockCause::Header,
        });
    };
    let Some((metadata, body)) = metadata_after(header.is_first_version, body) else {
        return Err(YarnLockError::Parser {
            place: place_in(content, body),
            cause: LockCause::Metadata,
        });
    };
    let entries = entries_of(alloc, content, body)?;
    Ok(Lockfile {
        entries,
        generator: header.generator,
        version: metadata.version,
        cache_key: metadata.cache_key,
    })
}

#[tactic(auto, unfolding(crate::specs::Lock::metadata_after))]
fn metadata_after(is_first_version: bool, text: &str) -> Option<(Metadata<'_>, &str)>
    ensures { option_map (λ x. (x.0, x.1.now)) result ≡ metadata_after is_first_version text.now }
{
    if is_first_version {
        let metadata = Metadata {
            version: 1,
            cache_key: None,
        };
        return Some((metadata, text));
    }
    metadata_at(text)
}

fn place_in(content: &str, rest: &str) -> usize
    requires { IsRest content.now rest.now }
    ensures { result ≡ place_in content.now rest.now }
{
    content.len() - rest.len()
}

// The entries of a rest of the text.
fn entries_of<'a>(
    alloc: Global,
    content: &str,
    text: &'a str,
) -> Result<Vec<Entry<'a>>, YarnLockError>
    requires { IsRest content.now text.now }
    ensures read { IfOk result (λ found.
        entries_from (place_in content.now text.now) (entry_texts text.now) ≡ Ok found.items) }
    ensures refused { IfErr result (Explains
        (entries_from (place_in content.now text.now) (entry_texts text.now))) }
{
    let mut found = Vec::with_capacity(alloc, entry_count(text))?;
    let mut rest = text;
    while let Some((one, behind)) = entry_text(rest) {
        match entry_of(alloc, one) {
            Ok(entry) => found.push(entry)?,
            Err(e) => {
                let place = place_in(content, rest);
                return Err(e.at(place));
            }
        }
        rest = behind;
    }
    Ok(found)
}

// How many entries there are: room for just as many is made, since a vector that grows takes more memory than it keeps.
fn entry_count(text: &str) -> usize
    ensures { result ≡ length (entry_texts text.now) }
{
    let mut count = 0;
    let mut rest = text;
    while let Some((_, behind)) = entry_text(rest) {
        count += 1;
        rest = behind;
    }
    count
}
