// A tree in memory, which stands for exactly its files.
ghost use Rattle.std.specs.Prelude.{◌≡◌, ◌≢◌, ◌++◌, ◌∷◌, ◌+◌, ◌<◌, ◌≤◌, ◌||◌, if◌then◌else◌, [], false, None, Some};
ghost use Rattle.std.specs.Prelude.{IsOk, OnOk, OnErr, IfOk, IfErr, IfNone, IsTrue, IfSome};
ghost use Rattle.std.specs.Prelude.{is_some, nat_eq, length, option_map, string_bytes, string_capacity};
ghost use Rattle.std.specs.FinMap as map;
ghost use Rattle.std.specs.List.{find, starts_with};
ghost use Rattle.std.specs.Option.{option_copied};
ghost use Rattle.std.specs.Ordering.{nat_cmp};
ghost use Rattle.std.specs.Cmp.Lexicographic.{slice_cmp};
ghost use Rattle.sugar_path.specs.Path.{IsCleanPath};
ghost use Rattle.std.specs.declared.cmp.Ordering.TheVariants.{Less};
ghost use Rattle.tree_core.specs.Before.{HasNoLater, SharesNoFile};
ghost use Rattle.tree_core.specs.Memory.{files_of, conflict, refusal, with_file, NoneAbove, HasBelow, IsReplied};
ghost use Rattle.tree_core.specs.declared.memory.PutError.TheVariants.{Conflict, NoMemory};
ghost use Rattle.tree_core.specs.Tree.{IsValidTree, bytes_at, one_more, is_root_text, is_file, is_folder, is_file_path};
ghost use Rattle.tree_core.specs.Tree.{stands_above};
ghost use Rattle.tree_core.specs.declared.question.Question.TheVariants.{File, Dir, Exists, Read, Canon};
ghost use Rattle.tree_core.specs.declared.question.Reply.TheVariants.{Flag, Bytes as BytesReply, Name};

use crate::{FailingTree, ReadError, Tree, TreeFile};
use std::alloc::{AllocError, AllocFailed, Global};
use std::collections::BTreeMap;
use std::marker::Model;
use std::ops::Bound;
use sugar_path::{Bytes, List, Text, common_prefix_len, is_clean};
use thiserror::Error;

/// Files by their paths. Its questions are answered without memory, but for the copies of bytes and names.
pub struct MemoryTree {
    alloc: Global,
    files: BTreeMap<String, TreeFile>,
    // holds a path and a `/`, for any path that has fewer bytes than a file's
    prefix: String,
    questions: u64,
}

impl Model for MemoryTree {
    ghost use Rattle.std.specs.Prelude.{string_capacity};
    ghost use Rattle.tree_core.specs.Memory.{Memory, memory_code, files_of, IsStore};

    ghost Value = { Memory };

    ghost coded = { memory_code };

    ghost view = { λ m. record { files = files_of m.files.entries; questions = m.questions } };

    ghost invariant = { λ m. IsStore (files_of m.files.entries) (string_capacity m.prefix) };
}

impl Drop for MemoryTree {
    fn drop(self) {
        let MemoryTree {
            alloc: _,
            files,
            prefix,
            questions: _,
        } = self;
        drop(files);
        drop(prefix);
    }
}

/// Why a file is refused.
#[derive(Debug, Drop, Error)]
pub enum PutError {
    /// The path or the canonical name isn't a clean absolute path other than `/`.
    #[error("a path is not clean")]
    Unclean,
    /// Another file stands above or below the path: the first one in byte order.
    #[error("the file {other} is in the way")]
    Conflict { other: Text },
    #[error("no memory")]
    NoMemory,
}

impl From<AllocError> for PutError {
    ghost from_gives = { λ _ e. e ≡ NoMemory };

    fn from(_: AllocError) -> Self {
        PutError::NoMemory
    }
}

impl<T: Drop> From<AllocFailed<T>> for PutError {
    ghost from_gives = { λ _ e. e ≡ NoMemory };

    fn from(_: AllocFailed<T>) -> Self {
        PutError::NoMemory
    }
}

impl MemoryTree {
    /// The tree with no files.
    pub fn new(alloc: Global) -> MemoryTree
        ensures { result ≡ record { files = map.empty; questions = 0 } }
    {
        MemoryTree {
            alloc,
            files: BTreeMap::new(alloc),
            prefix: String::new(alloc),
            questions: 0,
        }
    }

    /// How many questions were put.
    pub fn questions(&self) -> u64
        ensures count { result ≡ self.now.questions }
        // The files of a tree are a valid tree at any time.
        ensures valid { IsValidTree self.now.files }
    {
        self.questions
    }

    /// Puts a file, in place of an earlier one at the path.
    pub fn put(&mut self, path: &str, bytes: &[u8], canonical: &str) -> Result<(), PutError>
        ensures ok { OnOk result (self.new ≡ record self.old {
          files = with_file self.old.files path.now
              (record { content = bytes.now; canonical = canonical.now });
        }) }
        ensures fits { OnOk result (refusal self.old.files path.now canonical.now ≡ None) }
        ensures refused { IfErr result (λ e.
            e ≢ NoMemory → refusal self.old.files path.now canonical.now ≡ Some e) }
        ensures err { OnErr result (self.new ≡ self.old) }
        ensures valid { IsValidTree self.new.files }
    {
        let file = TreeFile {
            content: Bytes::of(self.alloc, bytes)?,
            canonical: Text::shared(self.alloc, canonical)?,
        };
        self.put_file(path, file)
    }

    /// Puts a file, in place of an earlier one at the path. Its bytes and its name are shared with the caller: where
    /// their copies share, nothing of them is copied.
    pub fn put_shared(
        &mut self,
        path: &Text,
        content: &Bytes,
        canonical: &Text,
    ) -> Result<(), PutError>
        ensures ok { OnOk result (self.new ≡ record self.old {
          files = with_file self.old.files path.now
              (record { content = content.now; canonical = canonical.now });
        }) }
        ensures fits { OnOk result (refusal self.old.files path.now canonical.now ≡ None) }
        ensures refused { IfErr result (λ e.
            e ≢ NoMemory → refusal self.old.files path.now canonical.now ≡ Some e) }
        ensures err { OnErr result (self.new ≡ self.old) }
        ensures valid { IsValidTree self.new.files }
    {
        let file = TreeFile {
            content: content.try_clone(self.alloc)?,
            canonical: canonical.try_clone(self.alloc)?,
        };
        self.put_file(path.as_str(), file)
    }

    // Puts a file at a path.
    fn put_file(&mut self, path: &str, file: TreeFile) -> Result<(), PutError>
        ensures ok { OnOk result (self.new ≡ record self.old {
          files = with_file self.old.files path.now file;
        }) }
        ensures fits { OnOk result (refusal self.old.files path.now file.canonical ≡ None) }
        ensures refused { IfErr result (λ e.
            e ≢ NoMemory → refusal self.old.files path.now file.canonical ≡ Some e) }
        ensures err { OnErr result (self.new ≡ self.old) }
        ensures valid { IsValidTree self.new.files }
    {
        let alloc = self.alloc;
        let canonical = file.canonical.as_str();
        if !is_file_path(path) || !is_file_path(canonical) {
            return Err(PutError::Unclean);
        }
        let key = String::from_str(alloc, path)?;
        ensure_no_conflict(alloc, &self.files, path, &mut self.prefix)?;
        put_at(&mut self.files, key, file)
    }

    /// Takes a file out, and tells whether it was there.
    pub fn remove(&mut self, path: &str) -> bool
        ensures was { result ≡ is_file self.old.files path.now }
        ensures gone { self.new ≡ record self.old { files = map.remove self.old.files path.now } }
        ensures valid { IsValidTree self.new.files }
    {
        self.files.remove(path).is_some()
    }

    /// The bytes of the file at a path, where there is one. That is no question: none is counted.
    pub fn file(&self, path: &str) -> Option<&[u8]>
        ensures { option_copied result ≡ bytes_at self.now.files path.now }
    {
        match self.files.get(path) {
            Some(file) => Some(file.content.as_slice()),
            None => None,
        }
    }

    /// This tree, but it refuses the questions with these numbers. The first question has the number 1.
    pub fn fail_at(self, calls: List<u64>) -> FailingTree
        ensures { result ≡ record { memory = self; calls = calls; faults = 0 } }
    {
        FailingTree::of(self, calls)
    }

    // Counts a question.
    pub(crate) fn count(&mut self)
        ensures { self.new ≡ record self.old { questions = one_more self.old.questions } }
    {
        self.questions = self.questions.saturating_add(1);
    }

    pub(crate) fn has_file(&self, p: &str) -> bool
        ensures { result ≡ is_file self.now.files p.now }
    {
        self.files.contains_key(p)
    }

    pub(crate) fn has_folder(&mut self, p: &str) -> bool
        ensures value { result ≡ is_folder self.old.files p.now }
        ensures same { self.new ≡ self.old }
    {
        if p == "/" {
            return true;
        }
        finds_below(&self.files, p, &mut self.prefix)
    }

    pub(crate) fn has_path(&mut self, p: &str) -> bool
        ensures value { result ≡ (is_file self.old.files p.now || is_folder self.old.files p.now) }
        ensures same { self.new ≡ self.old }
    {
        self.has_file(p) || self.has_folder(p)
    }

    pub(crate) fn content_at(&self, alloc: Global, p: &str) -> Result<Option<Bytes>, AllocError>
        ensures { IfOk result (λ o.
            o ≡ option_map (λ f. f.content) (map.get self.now.files p.now)) }
    {
        match self.files.get(p) {
            None => Ok(None),
            Some(file) => Ok(Some(file.content.try_clone(alloc)?)),
        }
    }

    pub(crate) fn canonical_at(&self, alloc: Global, p: &str) -> Result<Option<Text>, AllocError>
        ensures { IfOk result (λ o.
            o ≡ option_map (λ f. f.canonical) (map.get self.now.files p.now)) }
    {
        match self.files.get(p) {
            None => Ok(None),
            Some(file) => Ok(Some(file.canonical.try_clone(alloc)?)),
        }
    }
}

impl Tree for MemoryTree {
    ghost use Rattle.tree_core.specs.Memory.{memory_state};

    ghost state = { memory_state };

    fn is_file(&mut self, p: &str) -> Result<bool, ReadError>
        requires { IsCleanPath p.now }
        ensures replied { IsReplied Flag (File p.now) self.old self.new result }
        ensures always { IsOk result }
    {
        self.count();
        Ok(self.has_file(p))
    }

    fn is_dir(&mut self, p: &str) -> Result<bool, ReadError>
        requires { IsCleanPath p.now }
        ensures replied { IsReplied Flag (Dir p.now) self.old self.new result }
        ensures always { IsOk result }
    {
        self.count();
        Ok(self.has_folder(p))
    }

    fn exists(&mut self, p: &str) -> Result<bool, ReadError>
        requires { IsCleanPath p.now }
        ensures replied { IsReplied Flag (Exists p.now) self.old self.new result }
        ensures always { IsOk result }
    {
        self.count();
        Ok(self.has_path(p))
    }

    fn read(&mut self, alloc: Global, p: &str) -> Result<Option<Bytes>, ReadError>
        requires { IsCleanPath p.now }
        ensures { IsReplied BytesReply (Read p.now) self.old self.new result }
    {
        self.count();
        Ok(self.content_at(alloc, p)?)
    }

    fn canonical(&mut self, alloc: Global, p: &str) -> Result<Option<Text>, ReadError>
        requires { IsCleanPath p.now }
        ensures { IsReplied Name (Canon p.now) self.old self.new result }
    {
        self.count();
        Ok(self.canonical_at(alloc, p)?)
    }
}

// Whether a text is a clean absolute path other than `/`.
fn is_file_path(text: &str) -> bool
    ensures { result ≡ is_file_path text.now }
{
    text != "/" && is_clean(text)
}

// Makes a text that of a path with an ending behind it.
fn fill(prefix: &mut String, path: &str, end: &str) -> Result<(), AllocError>
    ensures ok { OnOk result (string_bytes prefix.new ≡ path.now ++ end.now) }
    ensures room { OnOk result (length path.now + length end.now ≤ string_capacity prefix.new) }
    ensures full { OnErr result (string_capacity prefix.old < length path.now + length end.now) }
    ensures grows { string_capacity prefix.old ≤ string_capacity prefix.new }
{
    prefix.clear();
    prefix.push_str(path)?;
    prefix.push_str(end)?;
    Ok(())
}

// Puts a file in the map.
fn put_at(
    files: &mut BTreeMap<String, TreeFile>,
    path: String,
    file: TreeFile,
) -> Result<(), PutError>
    ensures ok { OnOk result (files_of files.new.entries
        ≡ with_file (files_of files.old.entries) (string_bytes path) file) }
    ensures err { OnErr result (files_of files.new.entries ≡ files_of files.old.entries) }
    ensures memory { IfErr result (λ e. e ≡ NoMemory) }
{
    files.insert(path, file)?;
    Ok(())
}

// The first path of a file, in byte order, that begins with a text.
fn first_with_prefix<'a>(files: &'a BTreeMap<String, TreeFile>, prefix: &String) -> Option<&'a str>
    ensures { option_map (λ p. p.now) result
        ≡ find (λ p. starts_with nat_eq p (string_bytes prefix.now))
        (map.keys (files_of files.now.entries)) }
{
    match files
        .range((Bound::Included(prefix), Bound::Unbounded))
        .next()
    {
        None => None,
        Some((path, _)) => {
            if path.as_bytes().starts_with(prefix.as_bytes()) {
                Some(path.as_str())
            } else {
                None
            }
        }
    }
}

// Whether a file is found below a path other than `/`. The buffer takes the text before those below; where that finds
// no room, none is found.
fn finds_below(files: &BTreeMap<String, TreeFile>, path: &str, prefix: &mut String) -> bool
    requires { is_root_text path.now ≡ false }
    ensures found { IsTrue result → HasBelow (files_of files.now.entries) path.now }
    ensures missed { result ≡ false → HasBelow (files_of files.now.entries) path.now
        → string_capacity prefix.old ≤ length path.now }
    ensures room { string_capacity prefix.old ≤ string_capacity prefix.new }
{
    if fill(prefix, path, "/").is_err() {
        return false;
    }
    first_with_prefix(files, prefix).is_some()
}

// The last path of a file, in byte order, in front of a text.
fn last_before<'a>(files: &'a BTreeMap<String, TreeFile>, text: &String) -> Option<&'a str>
    ensures file { IfSome result (λ p. IsTrue (is_file (files_of files.now.entries) p.now)) }
    ensures before { IfSome result (λ p. slice_cmp nat_cmp p.now (string_bytes text.now) ≡ Less) }
    ensures last { HasNoLater (files_of files.now.entries) (string_bytes text.now)
        (option_map (λ p. p.now) result) }
{
    match files
        .range((Bound::Unbounded, Bound::Excluded(text)))
        .next_back()
    {
        None => None,
        Some((path, _)) => Some(path.as_str()),
    }
}

// The file above a path, whose text before those below is given. In byte order, what stands between that file and the
// path begins with the file's path too; so the file's path is what the path shares with the last one in front of it.
fn nearest_above<'a>(
    files: &BTreeMap<String, TreeFile>,
    path: &'a str,
    prefix: &String,
) -> Option<&'a str>
    requires valid { IsValidTree (files_of files.now.entries) }
    requires prefix { string_bytes prefix.now ≡ path.now ++ 47 ∷ [] }
    ensures file { IfSome result (λ p. IsTrue (is_file (files_of files.now.entries) p.now)) }
    ensures above { IfSome result (λ p. IsTrue (stands_above p.now path.now)) }
    ensures none { IfNone result (NoneAbove (files_of files.now.entries) path.now) }
{
    let before = last_before(files, prefix)?;
    shared_file(files, path, before)
}

// The file above a path that is what the path shares with another path, where that is one.
fn shared_file<'a>(
    files: &BTreeMap<String, TreeFile>,
    path: &'a str,
    other: &str,
) -> Option<&'a str>
    requires { IsValidTree (files_of files.now.entries) }
    ensures file { IfSome result (λ p. IsTrue (is_file (files_of files.now.entries) p.now)) }
    ensures above { IfSome result (λ p. IsTrue (stands_above p.now path.now)) }
    ensures none { IfNone result (SharesNoFile (files_of files.now.entries) path.now other.now) }
{
    let shared = common_prefix_len(path.as_bytes(), other.as_bytes());
    match path.as_bytes().get(shared) {
        Some(byte) if *byte == b'/' => file_at(files, &path[..shared]),
        _ => None,
    }
}

// A path, where it is that of a file.
fn file_at<'a>(files: &BTreeMap<String, TreeFile>, path: &'a str) -> Option<&'a str>
    ensures { option_map (λ p. p.now) result ≡ (if is_file (files_of files.now.entries) path.now
        then Some path.now else None) }
{
    if files.contains_key(path) {
        return Some(path);
    }
    None
}

// The first file in byte order that stands above or below a path other than `/`, whose text before those below is
// given. A path with files below has none above.
fn conflicting<'a>(
    files: &'a BTreeMap<String, TreeFile>,
    path: &'a str,
    prefix: &String,
) -> Option<&'a str>
    requires valid { IsValidTree (files_of files.now.entries) }
    requires path { is_root_text path.now ≡ false }
    requires prefix { string_bytes prefix.now ≡ path.now ++ 47 ∷ [] }
    ensures { option_map (λ p. p.now) result ≡ conflict (files_of files.now.entries) path.now }
{
    match first_with_prefix(files, prefix) {
        Some(below) => Some(below),
        None => nearest_above(files, path, prefix),
    }
}

// Whether a path other than `/` stands above another: that begins with it and a `/`.
fn stands_above(path: &str, other: &str) -> bool
    requires { is_root_text path.now ≡ false }
    ensures { result ≡ stands_above path.now other.now }
{
    let above = path.as_bytes();
    let below = other.as_bytes();
    below.starts_with(above) && below[above.len()..].starts_with(b"/")
}

// Whether a file stands above or below a path other than `/`, by one search. The text past those below is given: the
// path and a `0`, the byte that follows `/`. In byte order, the last file in front of that text is below if any is;
// else it shares with the path the file above.
fn has_conflict(files: &BTreeMap<String, TreeFile>, path: &str, past: &String) -> bool
    requires valid { IsValidTree (files_of files.now.entries) }
    requires path { is_root_text path.now ≡ false }
    requires past { string_bytes past.now ≡ path.now ++ 48 ∷ [] }
    ensures { result ≡ is_some (conflict (files_of files.now.entries) path.now) }
{
    match last_before(files, past) {
        None => false,
        Some(before) => stands_above(path, before) || shared_file(files, path, before).is_some(),
    }
}

// Refuses a path other than `/` that a file stands above or below. The buffer takes the texts that stand past and
// before those below.
fn ensure_no_conflict(
    alloc: Global,
    files: &BTreeMap<String, TreeFile>,
    path: &str,
    buffer: &mut String,
) -> Result<(), PutError>
    requires valid { IsValidTree (files_of files.now.entries) }
    requires path { is_root_text path.now ≡ false }
    ensures free { OnOk result (conflict (files_of files.now.entries) path.now ≡ None) }
    ensures room { OnOk result (length path.now < string_capacity buffer.new) }
    ensures grows { string_capacity buffer.old ≤ string_capacity buffer.new }
    ensures refused { IfErr result (λ e. e ≢ NoMemory
        → option_map Conflict (conflict (files_of files.now.entries) path.now) ≡ Some e) }
{
    fill(buffer, path, "0")?;
    if !has_conflict(files, path, buffer) {
        return Ok(());
    }
    fill(buffer, path, "/")?;
    match conflicting(files, path, buffer) {
        None => unreachable!(),
        Some(other) => Err(PutError::Conflict {
            other: Text::of(alloc, other)?,
        }),
    }
}
