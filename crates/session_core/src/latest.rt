// The latest outcomes, the most recently used first.
ghost use Rattle.std.specs.Prelude.{◌≡◌, ◌<◌, ◌≤◌, ◌-◌, ℕ, [], ◌∷◌, None, Some, true, false, bytes_eq, is_some, not};
ghost use Rattle.std.specs.Prelude.{length, take, slice_get, count_by, filter, nat_eq, IfOk, OnOk, OnErr, IfNone};
ghost use Rattle.std.specs.Prelude.{IfSome, option_copied};
ghost use Rattle.std.specs.List.{IsDistinct, AllByRecursion};
ghost use Rattle.std.specs.Map.{remove_entry};
ghost use Rattle.session_core.specs.Entries.{is_for, kept_for, same_request, is_asking, is_touched, untouched};
ghost use Rattle.session_core.specs.Entries.{moved_first, put_first};
ghost use Rattle.session_core.specs.Numbered.{kept_in, IsNumberOf};
ghost use Rattle.session_core.specs.Index.{IsNotedEntry};
ghost use Rattle.session_core.specs.declared.latest.Entry.{Entry as TheEntry};

use crate::index::{EntryIndex, Sought, is_for};
use lru::LruCache;
use resolve_stack::{FileName, Outcome};
use std::alloc::{AllocError, Global};
use std::marker::Model;
use std::num::NonZeroUsize;
use sugar_path::Text;

/// An outcome that is kept, with its request.
pub(crate) struct Entry {
    pub(crate) importer: FileName,
    pub(crate) specifier: Text,
    pub(crate) outcome: Outcome,
}

// Written out, so that the end of an entry is one call to the proofs of what holds it.
impl Drop for Entry {
    fn drop(self) {
        let Entry {
            importer: _,
            specifier: _,
            outcome: _,
        } = self;
    }
}

/// Entries by numbers of their own.
#[derive(Drop)]
pub(crate) struct Latest {
    entries: LruCache<u64, Entry>,
    // the number of the next entry: those that are there have lower ones
    next: u64,
    index: EntryIndex,
}

impl Model for Latest {
    ghost use Rattle.std.specs.List.{AllByRecursion};
    ghost use Rattle.session_core.specs.Numbered.{Latest as Numbered, IsNumbered};
    ghost use Rattle.session_core.specs.Index.{IsNotedEntry};

    ghost Value = { Numbered };

    ghost view = { λ l. record { entries = l.entries.entries; capacity = l.entries.cap } };

    ghost invariant = { λ l. IsNumbered l.next l.entries.entries
        × AllByRecursion (λ e. IsNotedEntry l.index e.0 e.1) l.entries.entries };
}

impl Latest {
    /// No outcomes, and room for as many as this.
    pub(crate) fn new(alloc: Global, capacity: usize) -> Result<Latest, AllocError>
        requires { 0 < capacity }
        ensures { IfOk result (λ l. l ≡ record { entries = []; capacity = capacity }) }
    {
        let entries = LruCache::new(alloc, NonZeroUsize::new(capacity).unwrap())?;
        Ok(Latest {
            entries,
            next: 0,
            index: EntryIndex::new(alloc),
        })
    }

    /// Moves the entry of a request to the front, and tells whether there is one. It takes no memory.
    pub(crate) fn recall(&mut self, importer: &FileName, specifier: &str) -> bool
        ensures there { result ≡ is_some (kept_for importer.now specifier.now (kept_in self.old)) }
        ensures moved { kept_in self.new ≡ moved_first importer.now specifier.now (kept_in self.old)
            (kept_for importer.now specifier.now (kept_in self.old)) }
        ensures capacity { self.new.capacity ≡ self.old.capacity }
    {
        let sought = Sought::Request {
            importer,
            specifier,
        };
        match self.index.first_of(&self.entries, &sought) {
            None => false,
            Some(number) => self.entries.promote(&number),
        }
    }

    /// Moves the entry of a request to the front, as `recall` does. It is looked for at a number first, which needs no
    /// search where the entry has it.
    pub(crate) fn recall_at(
        &mut self,
        hint: Option<u64>,
        importer: &FileName,
        specifier: &str,
    ) -> bool
        ensures there { result ≡ is_some (kept_for importer.now specifier.now (kept_in self.old)) }
        ensures moved { kept_in self.new ≡ moved_first importer.now specifier.now (kept_in self.old)
            (kept_for importer.now specifier.now (kept_in self.old)) }
        ensures capacity { self.new.capacity ≡ self.old.capacity }
    {
        match self.number_at(hint, importer, specifier) {
            None => self.recall(importer, specifier),
            Some(number) => self.entries.promote(&number),
        }
    }

    // A number, where the entry with it is that of a request.
    fn number_at(&self, hint: Option<u64>, importer: &FileName, specifier: &str) -> Option<u64>
        ensures { IfSome result (λ n. IsNumberOf (is_for importer.now specifier.now) self.now.entries n) }
    {
        let number = hint?;
        let entry = self.entries.peek(&number)?;
        if is_for(entry, importer, specifier) {
            return Some(number);
        }
        None
    }

    /// The number of the entry in front. It is a hint: no promise reads it.
    pub(crate) fn front(&self) -> Option<u64> {
        match self.entries.iter().next() {
            None => None,
            Some((number, _)) => Some(*number),
        }
    }

    /// Puts an entry in front; the last of a full list goes.
    pub(crate) fn put_first(&mut self, entry: Entry) -> Result<(), AllocError>
        requires { kept_for entry.importer entry.specifier (kept_in self.old) ≡ None }
        ensures ok { OnOk result
            (kept_in self.new ≡ put_first self.old.capacity entry (kept_in self.old)) }
        ensures err { OnErr result (self.new ≡ self.old) }
        ensures capacity { self.new.capacity ≡ self.old.capacity }
    {
        // so many entries are never made
        let next = self.next.checked_add(1).ok_or(AllocError)?;
        if let Err(e) = self.index.note(self.next, &entry) {
            self.index.forget(self.next, &entry);
            return Err(e);
        }
        match self.entries.push(self.next, entry) {
            Ok(last) => {
                self.next = next;
                forget_last(&mut self.index, last);
                Ok(())
            }
            Err(e) => {
                let (number, entry) = e.value;
                self.index.forget(number, &entry);
                Err(AllocError)
            }
        }
    }

    /// Drops what an edit of a path touches, and tells how many that were. It takes no memory.
    pub(crate) fn drop_touched(&mut self, path: &str) -> usize
        ensures left { kept_in self.new ≡ untouched path.now (kept_in self.old) }
        ensures dropped { result ≡ count_by (is_touched path.now) (kept_in self.old) }
        ensures capacity { self.new.capacity ≡ self.old.capacity }
    {
        let before = self.len();
        // `/` stands above every other path, but cutting a path at its slashes never leaves it
        self.drop_asking("/");
        self.drop_asking(path);
        let mut folder = path;
        while let Some(at) = folder.rfind('/') {
            folder = &folder[..at];
            self.drop_asking(folder);
        }
        before - self.len()
    }

    // Drops the entries whose trail has a question on a path.
    fn drop_asking(&mut self, path: &str)
        ensures left { kept_in self.new
            ≡ filter (λ e. not (is_asking path.now e)) (kept_in self.old) }
        ensures capacity { self.new.capacity ≡ self.old.capacity }
    {
        while let Some(number) = self.number_asking(path) {
            self.take_out(number);
        }
    }

    // The number of an entry whose trail has a question on a path.
    fn number_asking(&self, path: &str) -> Option<u64>
        ensures number { IfSome result (λ n. IsNumberOf (is_asking path.now) self.now.entries n) }
        ensures none { IfNone result
            (AllByRecursion (λ e. is_asking path.now e ≡ false) (kept_in self.now)) }
    {
        self.index.first_of(&self.entries, &Sought::Path(path))
    }

    // Takes out the entry with a number.
    fn take_out(&mut self, number: u64)
        ensures entries { self.new.entries ≡ remove_entry (nat_eq number) self.old.entries }
        ensures capacity { self.new.capacity ≡ self.old.capacity }
    {
        if let Some(entry) = self.entries.pop(&number) {
            self.index.forget(number, &entry);
        }
    }

    /// How many there are.
    pub(crate) fn len(&self) -> usize
        ensures len { result ≡ length (kept_in self.now) }
        ensures apart { IsDistinct same_request (kept_in self.now) }
        ensures few { length (kept_in self.now) ≤ self.now.capacity }
        ensures some { 0 < self.now.capacity }
    {
        self.entries.len()
    }

    /// The entry at a place.
    pub(crate) fn get(&self, i: usize) -> Option<&Entry>
        ensures { option_copied result ≡ slice_get (kept_in self.now) i }
    {
        match self.entries.iter().nth(i) {
            None => None,
            Some((_, entry)) => Some(entry),
        }
    }
}

// Forgets the entry that went as the last one.
fn forget_last(index: &mut EntryIndex, last: Option<(u64, Entry)>)
    ensures { (n : ℕ) (e : TheEntry) → IfSome last (λ gone. nat_eq gone.0 n ≡ false) →
        IsNotedEntry index.old n e → IsNotedEntry index.new n e }
{
    if let Some((number, entry)) = last {
        index.forget(number, &entry);
    }
}
