// The way from one place to another, by the names that lead there.
ghost use Rattle.std.specs.Prelude.{
  ◌≡◌,
  ◌||◌,
  List,
  ℕ,
  length,
  IfOk,
  IfSome,
  IsTrue,
  not,
  bytes_eq,
  replicate,
  reverse,
  ◌≤◌,
  ◌∷◌,
  [],
};
ghost use Rattle.std.specs.List.{common_prefix_len, join_with_byte};
ghost use Rattle.sugar_path.specs.ComponentTypes.{parts_if};
ghost use Rattle.sugar_path.specs.Path.{is_absolute, parts, path_in};
ghost use Rattle.sugar_path.specs.PathTypes.{cow_bytes};
ghost use Rattle.sugar_path.specs.Reading.{IsPlaceOf, ups_of};
ghost use Rattle.sugar_path.specs.Relative.{between, needs_folder, relative_from, way};
ghost use Rattle.sugar_path.specs.Names.{closed, texts};
ghost use Rattle.sugar_path.specs.SharedTexts.{SharesSlash};
ghost use Rattle.sugar_path.specs.Route.{Route, route_of, route_parts, place, from_folder};

use crate::normal::is_place;
use crate::part::{Lead, lead_of};
use crate::path::{Path, PathBuf, PathCow};
use crate::path_parts::{Parts, part_count, split_first_part};
use crate::places::{place_below, place_of};
use crate::prefix::common_prefix_len;
use crate::reading::is_absolute;
use memchr::memrchr;
use smallvec::SmallVec;
use std::alloc::{AllocError, Global};

/// The relative path from a base to a target, which are read from a folder where they don't begin
/// at one.
pub(crate) fn relative_of(
    alloc: Global,
    cwd: &[u8],
    base: &[u8],
    target: &[u8],
) -> Result<Vec<u8>, AllocError>
    requires { IsTrue (not (needs_folder base.now target.now) || is_absolute cwd.now) }
    ensures { IfOk result (λ v. v.items ≡ relative_from cwd.now base.now target.now) }
{
    if is_absolute(target) == is_absolute(base) {
        if is_absolute(base) {
            return way_from_root(alloc, base, target);
        }
        let from = place_alone(alloc, base)?;
        let to = place_alone(alloc, target)?;
        let (from, to) = (from.as_path().bytes(), to.as_path().bytes());
        // the places tell how far both go up, so that neither path is walked for it
        if ups_of_place(to) == ups_of_place(from) {
            return way_between(alloc, from, to);
        }
    }
    let from = place_from(alloc, cwd, base)?;
    let to = place_from(alloc, cwd, target)?;
    way_between(alloc, from.as_path().bytes(), to.as_path().bytes())
}

// The way between two absolute paths. Where one isn't its own place both are read by their names,
// so that the text of neither place is made.
fn way_from_root(alloc: Global, base: &[u8], target: &[u8]) -> Result<Vec<u8>, AllocError>
    requires base { IsTrue (is_absolute base.now) }
    requires target { IsTrue (is_absolute target.now) }
    ensures { IfOk result (λ v. v.items ≡ way (route_of base.now) (route_of target.now)) }
{
    if is_place(target) && is_place(base) {
        return way_between(alloc, base, target);
    }
    let from = names_of(alloc, base)?;
    let to = names_of(alloc, target)?;
    way_by_names(alloc, from.as_slice(), to.as_slice(), target.len())
}

// The names of an absolute path, in order.
fn names_of<'a>(alloc: Global, path: &'a [u8]) -> Result<SmallVec<&'a [u8], 8>, AllocError>
    ensures { IfOk result (λ names. texts names.items ≡ reverse (path_in path.now)) }
{
    let mut names = SmallVec::new(alloc);
    for part in Parts::of(path) {
        match lead_of(part) {
            Lead::Nowhere => {}
            Lead::Up => {
                let _last = names.pop();
            }
            Lead::Down => names.push(part)?,
        }
    }
    Ok(names)
}

// The way from the names of a base to those of a target, which fit in some room.
fn way_by_names(
    alloc: Global,
    base: &[&[u8]],
    target: &[&[u8]],
    room: usize,
) -> Result<Vec<u8>, AllocError>
    ensures { IfOk result (λ v. v.items ≡
        join_with_byte 47 (between (texts base.now) (texts target.now))) }
{
    let shared = shared_names(base, target);
    let mut text = ups_text(alloc, base.len() - shared, room)?;
    for name in &target[shared..] {
        text.extend_from_slice(name)?;
        text.push(b'/')?;
    }
    let _slash = text.pop();
    Ok(text)
}

// How many names a base and a target both begin with.
fn shared_names(base: &[&[u8]], target: &[&[u8]]) -> usize
    ensures shared { result ≡ common_prefix_len bytes_eq (texts target.now) (texts base.now) }
    ensures base { result ≤ length base.now }
    ensures target { result ≤ length target.now }
{
    target
        .iter()
        .zip(base)
        .take_while(|(a, b)| **a == **b)
        .count()
}

// How many folders a place goes up.
fn ups_of_place(place: &[u8]) -> usize
    ensures { (r : Route) → IsPlaceOf r place.now → result ≡ ups_of r }
{
    place
        .split(|b| *b == b'/')
        .take_while(|part| *part == b"..".as_slice())
        .count()
}

// The place of a path that is read from a folder.
fn place_from<'a>(alloc: Global, folder: &[u8], path: &'a [u8]) -> Result<PathCow<'a>, AllocError>
    ensures { IfOk result (λ p. cow_bytes p ≡ from_folder folder.now path.now) }
{
    if is_absolute(path) {
        return place_alone(alloc, path);
    }
    Ok(PathCow::Owned(PathBuf::from(place_below(alloc, folder, path)?)))
}

// The place of a path, borrowed where the path is its own.
fn place_alone<'a>(alloc: Global, path: &'a [u8]) -> Result<PathCow<'a>, AllocError>
    ensures { IfOk result (λ p. cow_bytes p ≡ place path.now) }
{
    if is_place(path) {
        return Ok(PathCow::Borrowed(Path::of_bytes(path)));
    }
    Ok(PathCow::Owned(PathBuf::from(place_of(alloc, path)?)))
}

// The way from a base to a target, both places: one `..` for each part of the base that they
// don't share, then what is left of the target.
fn way_between(alloc: Global, base: &[u8], target: &[u8]) -> Result<Vec<u8>, AllocError>
    ensures { (r s : Route) → IsPlaceOf r base.now → IsPlaceOf s target.now →
        IfOk result (λ v. v.items ≡ join_with_byte 47 (between (route_parts r) (route_parts s))) }
{
    let (left, rest) = past_shared(parts_of_place(base), parts_of_place(target));
    let mut text = ups_text(alloc, parts_left(left), target.len())?;
    match rest {
        Some(rest) => text.extend_from_slice(rest)?,
        None => {
            let _slash = text.pop();
        }
    }
    Ok(text)
}

// The parts of a place, joined by slashes, if there are any.
fn parts_of_place(place: &[u8]) -> Option<&[u8]>
    ensures { (r : Route) → IsPlaceOf r place.now → parts_if result ≡ route_parts r }
{
    match place.strip_prefix(b"/") {
        Some(names) if names.is_empty() => None,
        Some(names) => Some(names),
        None if place == b".".as_slice() => None,
        None => Some(place),
    }
}

// What is left of a base and a target behind the parts that both begin with.
#[tactic(auto, using(crate::proofs::SharedTexts::apart_none))]
fn past_shared<'a, 'b>(
    base: Option<&'a [u8]>,
    target: Option<&'b [u8]>,
) -> (Option<&'a [u8]>, Option<&'b [u8]>)
    ensures way { between (parts_if result.0) (parts_if result.1) ≡
        between (parts_if base.entry) (parts_if target.entry) }
    ensures apart { common_prefix_len bytes_eq (parts_if result.1) (parts_if result.0) ≡ 0 }
{
    let Some(from) = base else {
        return (None, target);
    };
    let Some(to) = target else {
        return (base, None);
    };
    let (from, to) = past_shared_text(from, to);
    let mut left = Some(from);
    let mut rest = Some(to);
    while let (Some(from), Some(to)) = (left, rest) {
        let (part, behind) = split_first_part(from);
        let (other, beyond) = split_first_part(to);
        if part != other {
            break;
        }
        left = behind;
        rest = beyond;
    }
    (left, rest)
}

// What is left of a base and a target behind the last slash in the text that both begin with.
fn past_shared_text<'a, 'b>(base: &'a [u8], target: &'b [u8]) -> (&'a [u8], &'b [u8])
    ensures { between (parts result.0.now) (parts result.1.now) ≡
        between (parts base.now) (parts target.now) }
{
    match last_shared_slash(base, target) {
        None => (base, target),
        Some(slash) => {
            let left = &base[slash + 1..];
            let rest = &target[slash + 1..];
            (left, rest)
        }
    }
}

// The last slash in the text that a base and a target both begin with.
fn last_shared_slash(base: &[u8], target: &[u8]) -> Option<usize>
    ensures { IfSome result (SharesSlash base.now target.now) }
{
    let shared = common_prefix_len(base, target);
    memrchr(b'/', &base[..shared])
}

// A text of so many `..`, each with a slash behind it, and with room for what follows.
fn ups_text(alloc: Global, ups: usize, room: usize) -> Result<Vec<u8>, AllocError>
    ensures { IfOk result (λ v. v.items ≡ closed (replicate ups (46 ∷ 46 ∷ []))) }
{
    let mut text = Vec::with_capacity(alloc, ups.saturating_mul(3).saturating_add(room))?;
    for _ in 0..ups {
        text.extend_from_slice(b"../")?;
    }
    Ok(text)
}

// How many parts are left of a path.
fn parts_left(path: Option<&[u8]>) -> usize
    ensures { result ≡ length (parts_if path.entry) }
{
    match path {
        None => 0,
        Some(text) => part_count(text),
    }
}
