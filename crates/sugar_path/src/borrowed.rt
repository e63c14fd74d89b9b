// A relative path that stands in the text of its target, so that nothing is copied.
ghost use Rattle.std.specs.Prelude.{◌≡◌, ◌↔◌, ◌⊎◌, [], List, ℕ, IfSome, IsSome, IsTrue, option_map};
ghost use Rattle.sugar_path.specs.Route.{place};
ghost use Rattle.sugar_path.specs.Relative.{relative_from};
ghost use Rattle.sugar_path.specs.Borrowed.{without_last_slashes, IsInOrder, IsWayBorrowed};
ghost use Rattle.sugar_path.specs.BorrowedParts.{IsRestBehind};

use crate::normal::is_place;
use crate::prefix::common_prefix_len;
use crate::reading::is_absolute;

/// The relative path from a base to a target, if it stands at the end of the target.
pub(crate) fn borrowed_way<'a>(base: &[u8], target: &'a [u8]) -> Option<&'a [u8]>
    ensures without_memory { IsSome result ↔ IsWayBorrowed base.now target.now }
    ensures way { IfSome result (λ w. (cwd : List ℕ) →
        w.now ≡ relative_from cwd base.now target.now) }
{
    match rest_behind(without_last_slashes(base), without_last_slashes(target)) {
        // such a base is in order where its target is
        Some(way) if is_absolute(base) && is_in_order(target) => Some(way),
        _ => None,
    }
}

// What follows a front in a text: nothing, or what stands behind a slash.
fn rest_behind<'a>(front: &[u8], text: &'a [u8]) -> Option<&'a [u8]>
    ensures { IsRestBehind front.now text.now (option_map (λ r. r.now) result) }
{
    // most texts go on otherwise behind the front's length, and aren't compared
    if front.len() < text.len() && text[front.len()] != b'/' {
        return None;
    }
    if common_prefix_len(front, text) < front.len() {
        return None;
    }
    Some(&text[text.len().min(front.len() + 1)..])
}

// Whether a path is absolute, UTF-8, and in order but for the separators at its end.
fn is_in_order(path: &[u8]) -> bool
    ensures { IsTrue result ↔ IsInOrder path.now }
{
    is_absolute(path)
        && is_empty_or_place(without_last_slashes(path))
        && std::str::from_utf8(path).is_ok()
}

// Whether nothing is left of a path, or it is its own place.
fn is_empty_or_place(path: &[u8]) -> bool
    ensures { IsTrue result ↔ ((path.now ≡ []) ⊎ (place path.now ≡ path.now)) }
{
    path.is_empty() || is_place(path)
}

// The path without the separators at its end.
fn without_last_slashes(path: &[u8]) -> &[u8]
    ensures { result.now ≡ without_last_slashes path.now }
{
    let mut front = path;
    while let Some(shorter) = front.strip_suffix(b"/") {
        front = shorter;
    }
    front
}
