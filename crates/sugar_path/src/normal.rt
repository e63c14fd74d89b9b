// Tests that a path is in order as it stands, so that nothing is copied.
ghost use Rattle.std.specs.Prelude.{◌≡◌, ◌∷◌, [], bytes_eq};
ghost use Rattle.sugar_path.specs.Path.{parts};
ghost use Rattle.sugar_path.specs.Route.{Relative, route_by_parts, route_of, place, normal};
ghost use Rattle.sugar_path.specs.Reading.{HasClimb, are_steps, is_start, ups_of};
ghost use Rattle.sugar_path.specs.Relative.{needs_folder};

use crate::part::{Lead, lead_of};
use crate::path_parts::Parts;
use crate::plain_names::has_plain_names;
use crate::reading::{ends_in_slash, is_absolute};

/// Whether a path is its own normal form.
pub(crate) fn is_normal(path: &[u8]) -> bool
    ensures { result ≡ bytes_eq (normal path.now) path.now }
{
    match path.strip_suffix(b"/") {
        None => is_place(path),
        Some(front) => front.is_empty() || (front != b"/".as_slice() && is_place(front)),
    }
}

/// Whether a path is its own place.
pub(crate) fn is_place(path: &[u8]) -> bool
    ensures { result ≡ bytes_eq (place path.now) path.now }
{
    match path.strip_prefix(b"/") {
        None => path == b".".as_slice() || are_steps(path, true),
        Some(names) => names.is_empty() || are_steps(names, false),
    }
}

/// Whether the normal form of a path is `.`.
pub(crate) fn is_here(path: &[u8]) -> bool
    ensures { result ≡ bytes_eq (normal path.now) (46 ∷ []) }
{
    !ends_in_slash(path) && leads_back(path)
}

// Whether a path leads back to the folder that it is read from.
fn leads_back(path: &[u8]) -> bool
    ensures { result ≡ is_start (route_of path.now) }
{
    if is_absolute(path) {
        return false;
    }
    let climb = climb_of(path);
    climb.ups == 0 && climb.depth == 0
}

/// Whether two paths begin at different folders, so that only a working folder tells the way between them.
pub(crate) fn needs_folder(base: &[u8], target: &[u8]) -> bool
    ensures { result ≡ needs_folder base.now target.now }
{
    is_absolute(target) != is_absolute(base) || ups_of(target) != ups_of(base)
}

// How many folders a path first goes up.
fn ups_of(path: &[u8]) -> usize
    ensures { result ≡ ups_of (route_of path.now) }
{
    if is_absolute(path) {
        return 0;
    }
    climb_of(path).ups
}

/// How many folders a relative path goes up, and then down.
#[derive(Clone, Copy)]
struct Climb {
    ups: usize,
    depth: usize,
}

fn climb_of(path: &[u8]) -> Climb
    ensures { HasClimb (route_by_parts (Relative 0 []) (parts path.now)) result }
{
    let mut climb = Climb { ups: 0, depth: 0 };
    for part in Parts::of(path) {
        match lead_of(part) {
            Lead::Nowhere => {}
            Lead::Down => climb.depth += 1,
            Lead::Up if climb.depth > 0 => climb.depth -= 1,
            Lead::Up => climb.ups += 1,
        }
    }
    climb
}

/// Whether the parts of a path are names, behind some `..` where the path may go up.
pub(crate) fn are_steps(path: &[u8], may_go_up: bool) -> bool
    ensures { result ≡ are_steps may_go_up (parts path.now) }
{
    has_plain_names(path) || are_steps_in_turn(path, may_go_up)
}

// Whether the parts are such steps, told by one part after the other.
fn are_steps_in_turn(path: &[u8], may_go_up: bool) -> bool
    ensures { result ≡ are_steps may_go_up (parts path.now) }
{
    let mut up = may_go_up;
    for part in Parts::of(path) {
        match lead_of(part) {
            Lead::Nowhere => return false,
            Lead::Up if !up => return false,
            Lead::Up => {}
            Lead::Down => up = false,
        }
    }
    true
}
