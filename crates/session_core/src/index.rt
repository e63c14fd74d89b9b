// Where the numbers of entries are noted: by a hash of an entry's request, and by one of each path that its trail
// asks on.
ghost use Rattle.std.specs.Prelude.{◌≡◌, ◌<◌, ◌^◌, ℕ, [], false, nat_eq, bytes_eq, IsTrue, IfNone, IfSome, OnOk};
ghost use Rattle.std.specs.List.{AllByRecursion, IsDistinct};
ghost use Rattle.std.specs.Map.{keys_of};
ghost use Rattle.tree_core.specs.declared.question.Question.{Question};
ghost use Rattle.tree_core.specs.declared.question.Reply.{Reply};
ghost use Rattle.session_core.specs.declared.latest.Entry.{Entry as TheEntry};
ghost use Rattle.session_core.specs.Entries.{is_for, asks};
ghost use Rattle.session_core.specs.Numbered.{IsNumberOf};
ghost use Rattle.session_core.specs.Index.{name_number, name_text, request_hash, path_hash, fits, hash_of, is_noted};
ghost use Rattle.session_core.specs.Index.{noted_under, AreNoted, IsNotedEntry, StayNoted, OthersStayNoted, FailsAt};

use crate::latest::Entry;
use lru::LruCache;
use resolve_stack::FileName;
use std::alloc::{AllocError, Global};
use std::collections::BTreeSet;
use std::hash::{BuildHasher, BuildHasherDefault, FoldHasher};
use std::marker::Model;
use std::ops::Bound;
use tree_core::Trail;

/// What entries are looked up by: their request, or a path that their trail asks on.
#[derive(Clone, Copy)]
pub(crate) enum Sought<'a> {
    Request {
        importer: &'a FileName,
        specifier: &'a str,
    },
    Path(&'a str),
}

/// That the entry with a number may be found under a hash.
#[derive(Clone, Copy, PartialEq, Eq, PartialOrd, Ord)]
pub(crate) struct Noted {
    hash: u64,
    number: u64,
}

/// The numbers of entries. No entry is missing; what is noted beyond that costs time alone, since what is found is
/// compared.
#[derive(Drop)]
pub(crate) struct EntryIndex {
    noted: BTreeSet<Noted>,
}

impl Model for EntryIndex {
    ghost use Rattle.std.specs.Prelude.{List};
    ghost use Rattle.session_core.specs.declared.index.Noted.{Noted};

    ghost Value = { List Noted };

    ghost view = { λ i. i.noted.keys };
}

impl EntryIndex {
    /// The index of no entries.
    pub(crate) fn new(alloc: Global) -> EntryIndex
        ensures { result ≡ [] }
    {
        EntryIndex {
            noted: BTreeSet::new(alloc),
        }
    }

    /// Notes the number of an entry.
    pub(crate) fn note(&mut self, number: u64, entry: &Entry) -> Result<(), AllocError>
        ensures ok { OnOk result (IsNotedEntry self.new number entry.now) }
        ensures kept { (n : ℕ) (e : TheEntry) → IsNotedEntry self.old n e → IsNotedEntry self.new n e }
    {
        let hash = request_hash(&entry.importer, entry.specifier.as_str());
        note(&mut self.noted, hash, number)?;
        note_paths(&mut self.noted, number, &entry.outcome.trail)
    }

    /// Forgets the number of an entry. It takes no memory.
    pub(crate) fn forget(&mut self, number: u64, entry: &Entry)
        ensures kept { (n : ℕ) (e : TheEntry) → nat_eq number n ≡ false →
            IsNotedEntry self.old n e → IsNotedEntry self.new n e }
    {
        let hash = request_hash(&entry.importer, entry.specifier.as_str());
        forget(&mut self.noted, hash, number);
        forget_paths(&mut self.noted, number, &entry.outcome.trail);
    }

    /// The number of an entry that is sought.
    pub(crate) fn first_of(
        &self,
        entries: &LruCache<u64, Entry>,
        sought: &Sought<'_>,
    ) -> Option<u64>
        requires noted { AllByRecursion (λ e. IsNotedEntry self.now e.0 e.1) entries.now.entries }
        requires numbers { IsDistinct nat_eq (keys_of entries.now.entries) }
        requires small { AllByRecursion (λ e. e.0 < 2 ^ 64) entries.now.entries }
        ensures number { IfSome result (IsNumberOf (fits sought.now) entries.now.entries) }
        ensures none { IfNone result
            (AllByRecursion (λ e. fits sought.now e.1 ≡ false) entries.now.entries) }
    {
        first_under(&self.noted, entries, sought)
    }
}

// The first number under the hash of what is sought whose entry is that.
fn first_under(
    all: &BTreeSet<Noted>,
    entries: &LruCache<u64, Entry>,
    sought: &Sought<'_>,
) -> Option<u64>
    ensures number { IfSome result (IsNumberOf (fits sought.now) entries.now.entries) }
    ensures none { IfNone result (AllByRecursion (λ x. FailsAt (fits sought.now)
        entries.now.entries x.number) (noted_under (hash_of sought.now) all.now.keys)) }
{
    let hash = hash_of(sought);
    let from = Noted { hash, number: 0 };
    let to = Noted {
        hash,
        number: u64::MAX,
    };
    for noted in all.range((Bound::Included(from), Bound::Included(to))) {
        if fits_at(entries, sought, noted.number) {
            return Some(noted.number);
        }
    }
    None
}

// Whether an entry with the number is what is sought.
fn fits_at(entries: &LruCache<u64, Entry>, sought: &Sought<'_>, number: u64) -> bool
    ensures found { IsTrue result → IsNumberOf (fits sought.now) entries.now.entries number }
    ensures failed { result ≡ false → FailsAt (fits sought.now) entries.now.entries number }
{
    match entries.peek(&number) {
        Some(entry) => fits(sought, entry),
        None => false,
    }
}

// Whether an entry is what is sought.
fn fits(sought: &Sought<'_>, entry: &Entry) -> bool
    ensures { result ≡ fits sought.now entry.now }
{
    match sought {
        Sought::Request {
            importer,
            specifier,
        } => is_for(entry, importer, specifier),
        Sought::Path(path) => has_asked(&entry.outcome.trail, path),
    }
}

/// Whether an entry is that of a request.
pub(crate) fn is_for(entry: &Entry, importer: &FileName, specifier: &str) -> bool
    ensures { result ≡ is_for importer.now specifier.now entry.now }
{
    entry.importer == *importer && entry.specifier.as_str() == specifier
}

// Whether a trail has a question on a path.
fn has_asked(trail: &Trail, path: &str) -> bool
    ensures { result ≡ asks (λ asked. bytes_eq asked path.now) trail.now }
{
    trail.iter().any(|step| step.0.path() == path)
}

// The hash of what is sought.
fn hash_of(sought: &Sought<'_>) -> u64
    ensures { result ≡ hash_of sought.now }
{
    match sought {
        Sought::Request {
            importer,
            specifier,
        } => request_hash(importer, specifier),
        Sought::Path(path) => path_hash(path),
    }
}

// A hash of an importer and a specifier.
fn request_hash(importer: &FileName, specifier: &str) -> u64
    ensures { result ≡ request_hash importer.now specifier.now }
{
    let key = (name_number(importer), name_text(importer), specifier);
    BuildHasherDefault::<FoldHasher>::new().hash_one(key)
}

// A hash of a path.
fn path_hash(path: &str) -> u64
    ensures { result ≡ path_hash path.now }
{
    BuildHasherDefault::<FoldHasher>::new().hash_one(path)
}

// Which kind a name is of.
fn name_number(name: &FileName) -> u8
    ensures { result ≡ name_number name.now }
{
    match name {
        FileName::Real(_) => 0,
        FileName::Custom(_) => 1,
        FileName::Anon => 2,
    }
}

// Its text.
fn name_text(name: &FileName) -> &str
    ensures { result.now ≡ name_text name.now }
{
    match name {
        FileName::Real(text) => text.as_str(),
        FileName::Custom(text) => text.as_str(),
        FileName::Anon => "",
    }
}

// Notes a number under a hash.
fn note(noted: &mut BTreeSet<Noted>, hash: u64, number: u64) -> Result<(), AllocError>
    ensures ok { OnOk result (IsTrue (is_noted noted.new.keys hash number)) }
    ensures kept { StayNoted noted.old.keys noted.new.keys }
{
    noted.insert(Noted { hash, number })?;
    Ok(())
}

// Notes a number under the path of each question.
fn note_paths(noted: &mut BTreeSet<Noted>, number: u64, trail: &Trail) -> Result<(), AllocError>
    ensures ok { OnOk result (AreNoted noted.new.keys number trail.now) }
    ensures kept { StayNoted noted.old.keys noted.new.keys }
{
    for step in trail.iter() {
        note(noted, path_hash(step.0.path()), number)?;
    }
    Ok(())
}

// Forgets a number under a hash.
fn forget(noted: &mut BTreeSet<Noted>, hash: u64, number: u64)
    ensures { OthersStayNoted number noted.old.keys noted.new.keys }
{
    let _there = noted.remove(&Noted { hash, number });
}

// Forgets a number under the path of each question.
fn forget_paths(noted: &mut BTreeSet<Noted>, number: u64, trail: &Trail)
    ensures { OthersStayNoted number noted.old.keys noted.new.keys }
{
    for step in trail.iter() {
        forget(noted, path_hash(step.0.path()), number);
    }
}
