// Paths that are virtual, or lead into an archive.
ghost use Rattle.std.specs.Prelude.{
  ◌≡◌,
  ℕ,
  ◌≤◌,
  List,
  length,
  take,
  drop,
  IfOk,
  IfSome,
  option_map,
  option_and_then,
  slice_get,
};
ghost use Rattle.sugar_path.specs.Path.{join};
ghost use Rattle.pnp_core.specs.VirtualPath.{
  virtual_path,
  zip_physical,
  virtual_physical,
  behind_root,
  segments,
  is_archive,
  is_drive,
  through_archive,
  before_mark,
  depth_of,
  fixed,
  staying,
  parts_of,
  plain_parts,
  virtual_parts,
  base_text,
  virtual_texts,
  special,
  special_of,
};
ghost use Rattle.pnp_core.specs.PhysicalPlace.{physical_place};
ghost use Rattle.pnp_core.specs.Segments.{texts, both_texts, parts_seen};

use crate::initialize::joined_texts;
use crate::normalize::{join_names, normalize_path};
use std::alloc::{AllocError, Global};
use sugar_path::{CleanPath, Text};

/// A place inside an archive: where the archive lies, what of that is virtual, and the path in it.
#[derive(PartialEq, Eq, Drop)]
pub struct ZipInfo {
    pub base_path: Text,
    pub virtual_segments: Option<(Text, Text)>,
    pub zip_path: Text,
}

/// A virtual place: its base, all that follows it, and the inner path with which that ends.
#[derive(PartialEq, Eq, Drop)]
pub struct VirtualInfo {
    pub base_path: Text,
    pub virtual_segments: (Text, Text),
}

/// What the text of a path means.
#[derive(PartialEq, Eq, Drop)]
pub enum VPath {
    Zip(ZipInfo),
    Virtual(VirtualInfo),
    Native(Text),
}

/// Where a path's bytes lie.
pub trait VPathInfo {
    ghost physical: { Self → List ℕ };

    /// The base path, and behind it the inner path of a virtual place.
    fn physical_base_path(&self, alloc: Global) -> Result<Text, AllocError>
        ensures { IfOk result (λ t. t ≡ physical self.now) };
}

impl VPathInfo for ZipInfo {
    ghost physical = { zip_physical };

    fn physical_base_path(&self, alloc: Global) -> Result<Text, AllocError> {
        match &self.virtual_segments {
            None => self.base_path.try_clone(alloc),
            Some((_, inner)) => base_and_inner(alloc, &self.base_path, inner),
        }
    }
}

impl VPathInfo for VirtualInfo {
    ghost physical = { virtual_physical };

    fn physical_base_path(&self, alloc: Global) -> Result<Text, AllocError> {
        base_and_inner(alloc, &self.base_path, &self.virtual_segments.1)
    }
}

// The inner path of a virtual place behind its base.
fn base_and_inner(alloc: Global, base: &Text, inner: &Text) -> Result<Text, AllocError>
    ensures { IfOk result (λ t. t ≡ join base.now inner.now) }
{
    let joined = joined_texts(alloc, base.as_str(), inner.as_str())?;
    Ok(Text::from(joined))
}

/// The place of a row's location, which is None for one inside an archive.
#[tactic(auto, unfolding(crate::specs::PhysicalPlace::physical_place))]
pub fn physical_place(alloc: Global, location: &str) -> Result<Option<CleanPath>, AllocError>
    ensures { IfOk result (λ place. place ≡ physical_place location.now) }
{
    let text = match VPath::from(alloc, location)? {
        VPath::Zip(_) => return Ok(None),
        VPath::Virtual(info) => info.physical_base_path(alloc)?,
        VPath::Native(text) => text,
    };
    let place = CleanPath::read(alloc, &CleanPath::root(alloc), text.as_str())?;
    Ok(Some(place))
}

impl VPath {
    /// The place inside an archive, or the virtual place, that the text of a path means; else the path in its normal
    /// form.
    #[tactic(auto, unfolding(crate::specs::VirtualPath::virtual_path))]
    pub fn from(alloc: Global, p: &str) -> Result<VPath, AllocError>
        ensures { IfOk result (λ path. path ≡ virtual_path p.now) }
    {
        let normal = normalize_path(alloc, p)?;
        match special_of(alloc, normal.as_str())? {
            Some(path) => Ok(path),
            None => Ok(VPath::Native(normal)),
        }
    }
}

// The path that a text in its normal form means, where it isn't the text itself.
fn special_of(alloc: Global, text: &str) -> Result<Option<VPath>, AllocError>
    ensures { IfOk result (λ path. path ≡ special_of text.now) }
{
    let is_rooted = text.starts_with('/');
    let segments = segments(alloc, text)?;
    special(alloc, is_rooted, parts_of(is_rooted, &segments))
}

// The segments of a text behind its root.
fn segments(alloc: Global, text: &str) -> Result<Vec<&str>, AllocError>
    ensures { IfOk result (λ found. texts found.items ≡ segments text.now) }
{
    let behind = behind_root(text);
    if behind.is_empty() {
        return Ok(Vec::new(alloc));
    }
    behind.split('/').collect(alloc)
}

fn behind_root(text: &str) -> &str
    ensures { result.now ≡ behind_root text.now }
{
    match text.strip_prefix('/') {
        Some(behind) => behind,
        None => text,
    }
}

// The segments of a path, parted.
#[derive(Clone, Copy)]
struct Parted<'a, 's> {
    // where the path lies, but for the inner path of a virtual one
    base: &'a [&'s str],
    // of a virtual path all that isn't the base, and the inner path
    virtual_part: Option<(&'a [&'s str], &'a [&'s str])>,
    // what follows the archive
    archived: &'a [&'s str],
}

// The parts of a path: virtual where `__virtual__` stands before every archive.
#[tactic(auto, unfolding(crate::specs::VirtualPath::parts_of))]
fn parts_of<'a, 's>(is_rooted: bool, segments: &'a [&'s str]) -> Parted<'a, 's>
    ensures { parts_seen result ≡ parts_of is_rooted (texts segments.now) }
{
    match before_mark(segments) {
        None => plain_parts(segments),
        Some(at) => virtual_parts(is_rooted, segments, at),
    }
}

fn plain_parts<'a, 's>(segments: &'a [&'s str]) -> Parted<'a, 's>
    ensures { parts_seen result ≡ plain_parts (texts segments.now) }
{
    let (base, archived) = segments.split_at(through_archive(segments));
    Parted {
        base,
        virtual_part: None,
        archived,
    }
}

// The parts of a path with `__virtual__` behind that many segments.
fn virtual_parts<'a, 's>(is_rooted: bool, segments: &'a [&'s str], at: usize) -> Parted<'a, 's>
    requires { at ≤ length segments.now }
    ensures { parts_seen result
        ≡ virtual_parts is_rooted (take at (texts segments.now)) (drop at (texts segments.now)) }
{
    let (front, marked) = segments.split_at(at);
    let (base, _) = front.split_at(staying(is_rooted, front, marked_depth(marked)));
    let (_, behind) = marked.split_at(marked.len().min(3));
    let (inner, archived) = behind.split_at(through_archive(behind));
    let whole = &segments[base.len()..segments.len() - archived.len()];
    Parted {
        base,
        virtual_part: Some((whole, inner)),
        archived,
    }
}

// How many segments there are through the first archive; all, where there is none.
fn through_archive(segments: &[&str]) -> usize
    ensures through { result ≡ through_archive (texts segments.now) }
    ensures within { result ≤ length segments.now }
{
    for (index, segment) in segments.iter().enumerate() {
        if is_archive(segment) {
            return index + 1;
        }
    }
    segments.len()
}

// How many segments stand before `__virtual__`, where it comes before every archive.
fn before_mark(segments: &[&str]) -> Option<usize>
    ensures before { result ≡ before_mark (texts segments.now) }
    ensures within { IfSome result (λ at. at ≤ length segments.now) }
{
    for (index, segment) in segments.iter().enumerate() {
        if *segment == "__virtual__" {
            return Some(index);
        }
        if is_archive(segment) {
            return None;
        }
    }
    None
}

// Whether a segment ends in `.zip`, behind at least one other byte.
fn is_archive(segment: &str) -> bool
    ensures { result ≡ is_archive segment.now }
{
    segment.len() > 4 && segment.ends_with(".zip")
}

// How many of the segments before `__virtual__` are the base: a depth takes that many from their end, but never the
// letter of a drive.
fn staying(is_rooted: bool, front: &[&str], depth: Option<usize>) -> usize
    ensures staying { result ≡ staying is_rooted (texts front.now) depth }
    ensures within { result ≤ length front.now }
{
    let Some(depth) = depth else {
        return front.len();
    };
    front
        .len()
        .saturating_sub(depth)
        .max(fixed(is_rooted, front))
}

// The first segment under a root stays there where it is the letter of a drive.
fn fixed(is_rooted: bool, front: &[&str]) -> usize
    ensures fixed { result ≡ fixed is_rooted (texts front.now) }
    ensures within { result ≤ length front.now }
{
    match front.first() {
        Some(first) if is_rooted && is_drive(first) => 1,
        _ => 0,
    }
}

// An ASCII letter and `:`.
fn is_drive(segment: &str) -> bool
    ensures { result ≡ is_drive segment.now }
{
    match segment.as_bytes() {
        [letter, b':'] => letter.is_ascii_alphabetic(),
        _ => false,
    }
}

// The depth behind `__virtual__` and a hash.
fn marked_depth(marked: &[&str]) -> Option<usize>
    ensures { result ≡ option_and_then depth_of (slice_get (texts marked.now) 2) }
{
    match marked.get(2) {
        None => None,
        Some(depth) => depth_of(depth),
    }
}

// The number that a segment says, behind a `+` or not.
fn depth_of(segment: &str) -> Option<usize>
    ensures { result ≡ depth_of segment.now }
{
    segment.parse::<usize>().ok()
}

// The path that parts mean, where it isn't the text itself.
#[tactic(auto, unfolding(crate::specs::VirtualPath::special))]
fn special(
    alloc: Global,
    is_rooted: bool,
    path: Parted<'_, '_>,
) -> Result<Option<VPath>, AllocError>
    ensures { IfOk result (λ found. found ≡ special is_rooted (parts_seen path.entry)) }
{
    let virtual_segments = virtual_texts(alloc, path.virtual_part)?;
    if !path.archived.is_empty() {
        return Ok(Some(VPath::Zip(ZipInfo {
            base_path: base_text(alloc, is_rooted, path.base)?,
            virtual_segments,
            zip_path: Text::from(join_names(alloc, path.archived)?),
        })));
    }
    match virtual_segments {
        None => Ok(None),
        Some(virtual_segments) => Ok(Some(VPath::Virtual(VirtualInfo {
            base_path: base_text(alloc, is_rooted, path.base)?,
            virtual_segments,
        }))),
    }
}

// The texts of a virtual part, and of the inner path with which it ends.
fn virtual_texts(
    alloc: Global,
    virtual_part: Option<(&[&str], &[&str])>,
) -> Result<Option<(Text, Text)>, AllocError>
    ensures { IfOk result (λ found.
        found ≡ option_map virtual_texts (option_map both_texts virtual_part.entry)) }
{
    let Some((whole, inner)) = virtual_part else {
        return Ok(None);
    };
    let whole = join_names(alloc, whole)?;
    let inner = join_names(alloc, inner)?;
    Ok(Some((Text::from(whole), Text::from(inner))))
}

// The text of a base, with its root.
fn base_text(alloc: Global, is_rooted: bool, base: &[&str]) -> Result<Text, AllocError>
    ensures { IfOk result (λ t. t ≡ base_text is_rooted (texts base.now)) }
{
    let mut text = join_names(alloc, base)?;
    if is_rooted {
        text.insert_str(0, "/")?;
    }
    Ok(Text::from(text))
}
