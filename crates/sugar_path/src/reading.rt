// A path read part by part, and its text edited in its own room.
ghost use Rattle.std.specs.Prelude.{
  ◌≡◌,
  ◌<◌,
  ◌≤◌,
  ◌+◌,
  ◌∷◌,
  ◌++◌,
  [],
  ◌||◌,
  List,
  ℕ,
  OnOk,
  IsTrue,
  bytes_eq,
  drop,
  length,
  not,
  slice_set,
  take,
  vec_len,
};
ghost use Rattle.sugar_path.specs.Path.{has_no_slash, ends_in_slash, with_slash, is_absolute, parts, IsName};
ghost use Rattle.sugar_path.specs.Route.{Route, route_up, route_by_part, route_by_parts, route_start, route_of};
ghost use Rattle.sugar_path.specs.Reading.{HasRead, HasPassed, IsAhead, IsPartEnd, StandsOn, part_in, read_text};

use crate::part::{Lead, lead_of};
use memchr::{memchr, memrchr};
use std::alloc::AllocError;

/// A path being read in its own room: what was read stands at the front, as text, and what is
/// still to be read stands where it stood.
#[derive(Drop)]
pub(crate) struct Reading {
    text: Vec<u8>,
    // how much of the text is what was read
    len: usize,
    // the length of the root or of the leading `..`, which no later `..` takes away
    base: usize,
    rooted: bool,
}

impl Reading {
    /// A path, read to its end.
    pub(crate) fn of(text: Vec<u8>) -> Reading
        ensures read { HasRead (route_of text.items) result }
        ensures size { vec_len result.text ≡ vec_len text }
        ensures room { IsTrue (ends_in_slash text.items) →
            length (with_slash (read_text result)) ≤ vec_len text }
    {
        let mut reading = Reading::begin(text);
        reading.follow_all();
        reading
    }

    // Begins at `/`, or in some folder.
    fn begin(text: Vec<u8>) -> Reading
        ensures begun { HasRead (route_start text.items) result }
        ensures text { result.text.items ≡ text.items }
        ensures size { vec_len result.text ≡ vec_len text }
        ensures room { length (with_slash (read_text result)) ≤ result.len }
        ensures route { route_by_parts (route_start text.items)
            (parts (drop result.len text.items)) ≡ route_of text.items }
    {
        let rooted = is_absolute(text.as_slice());
        let base = if rooted { 1 } else { 0 };
        Reading {
            text,
            len: base,
            base,
            rooted,
        }
    }

    // Goes on by the parts behind what was read.
    fn follow_all(&mut self)
        requires room { length (with_slash (read_text self.old)) ≤ self.old.len }
        requires within { self.old.len ≤ vec_len self.old.text }
        ensures read { (r : Route) → HasRead r self.old →
            HasRead (route_by_parts r (parts (drop self.old.len self.old.text.items))) self.new }
        ensures size { vec_len self.new.text ≡ vec_len self.old.text }
        ensures room { IsTrue (ends_in_slash self.old.text.items) →
            length (with_slash (read_text self.new)) ≤ vec_len self.old.text }
    {
        let mut at = self.len;
        while at < self.text.len() {
            let end = part_end(self.text.as_slice(), at);
            self.follow(at, end);
            at = end + 1;
        }
    }

    // Goes on by one part.
    fn follow(&mut self, at: usize, end: usize)
        requires ahead { IsAhead at end self.old }
        requires part { IsTrue (has_no_slash (part_in at end self.old.text.items)) }
        ensures read { (r : Route) → HasRead r self.old →
            HasRead (route_by_part r (part_in at end self.old.text.items)) self.new }
        ensures passed { HasPassed end self.old self.new }
    {
        match lead_of(&self.text[at..end]) {
            Lead::Nowhere => {}
            Lead::Up => self.go_up(at, end),
            Lead::Down => self.go_down(at, end),
        }
    }

    // Goes on by `..`.
    fn go_up(&mut self, at: usize, end: usize)
        requires ahead { IsAhead at end self.old }
        requires dots { part_in at end self.old.text.items ≡ 46 ∷ 46 ∷ [] }
        ensures read { (r : Route) → HasRead r self.old → HasRead (route_up r) self.new }
        ensures passed { HasPassed end self.old self.new }
    {
        if self.base < self.len {
            self.len = front_len(&self.text[..self.len], self.base);
        } else if !self.rooted {
            self.go_down(at, end);
            self.base = self.len;
        }
    }

    // Moves a part behind what was read.
    fn go_down(&mut self, at: usize, end: usize)
        requires { IsAhead at end self.old }
        ensures read { read_text self.new ≡
            with_slash (read_text self.old) ++ part_in at end self.old.text.items }
        ensures passed { HasPassed end self.old self.new }
        ensures base { self.new.base ≡ self.old.base }
        ensures rooted { self.new.rooted ≡ self.old.rooted }
    {
        self.put_slash(at);
        self.text.copy_within(at..end, self.len);
        self.len += end - at;
    }

    // Puts a slash behind what was read, where a part needs one.
    fn put_slash(&mut self, at: usize)
        requires { IsAhead at at self.old }
        ensures read { read_text self.new ≡ with_slash (read_text self.old) }
        ensures passed { HasPassed at self.old self.new }
        ensures base { self.new.base ≡ self.old.base }
        ensures rooted { self.new.rooted ≡ self.old.rooted }
    {
        if needs_slash(self.as_slice()) {
            self.put(b'/');
        }
    }

    /// Puts a byte behind what was read.
    pub(crate) fn put(&mut self, byte: u8)
        requires { self.old.len < vec_len self.old.text }
        ensures read { read_text self.new ≡ read_text self.old ++ byte ∷ [] }
        ensures len { self.new.len ≡ self.old.len + 1 }
        ensures text { self.new.text.items ≡ slice_set self.old.text.items self.old.len byte }
        ensures base { self.new.base ≡ self.old.base }
        ensures rooted { self.new.rooted ≡ self.old.rooted }
    {
        self.text[self.len] = byte;
        self.len += 1;
    }

    /// What was read.
    pub(crate) fn as_slice(&self) -> &[u8]
        requires { self.now.len ≤ vec_len self.now.text }
        ensures { result.now ≡ read_text self.now }
    {
        &self.text[..self.len]
    }

    /// What was read, alone.
    pub(crate) fn into_bytes(self) -> Vec<u8>
        ensures { result.items ≡ read_text self }
    {
        let Reading { mut text, len, .. } = self;
        text.truncate(len);
        text
    }
}

/// Whether a path stands under the root.
pub(crate) fn is_absolute(path: &[u8]) -> bool
    ensures { result ≡ is_absolute path.now }
{
    path.first() == Some(&b'/')
}

/// Puts a part at the end of a text, behind a slash where one is needed.
pub(crate) fn push_part(text: &mut Vec<u8>, part: &[u8]) -> Result<(), AllocError>
    ensures { OnOk result (text.new.items ≡ with_slash text.old.items ++ part.now) }
{
    if needs_slash(text.as_slice()) {
        text.push(b'/')?;
    }
    text.extend_from_slice(part)
}

// Whether a text ends in a name.
fn needs_slash(text: &[u8]) -> bool
    ensures { result ≡ not (bytes_eq text.now [] || ends_in_slash text.now) }
{
    !text.is_empty() && !ends_in_slash(text)
}

/// Whether the last byte of a path is a separator.
pub(crate) fn ends_in_slash(path: &[u8]) -> bool
    ensures { result ≡ ends_in_slash path.now }
{
    match path.last() {
        None => false,
        Some(last) => *last == b'/',
    }
}

// The length of a text without its last name, but of no less than its first `base` bytes.
fn front_len(text: &[u8], base: usize) -> usize
    requires { base ≤ length text.now }
    ensures within { result ≤ length text.now }
    ensures front { (front n : List ℕ) → StandsOn base front → IsName n →
        text.now ≡ with_slash front ++ n → take result text.now ≡ front }
{
    let slash = memrchr(b'/', text).unwrap_or(0);
    base.max(slash)
}

// Where the part ends that begins at some place of a path.
fn part_end(path: &[u8], at: usize) -> usize
    requires { at < length path.now }
    ensures { IsPartEnd path.now at result }
{
    match memchr(b'/', &path[at..]) {
        None => path.len(),
        Some(slash) => at + slash,
    }
}
