// Paths of names alone, told without taking the names apart.
ghost use Rattle.std.specs.Prelude.{◌≡◌, ◌+◌, ◌<◌, ◌≤◌, Bool, true, IsTrue, ℕ, get_or, length};
ghost use Rattle.sugar_path.specs.Path.{parts};
ghost use Rattle.sugar_path.specs.Reading.{are_steps};
ghost use Rattle.sugar_path.specs.Starts.{IsStart, IsStartAt};

use crate::reading::ends_in_slash;
use std::simd::prelude::*;

// How many bytes are looked at side by side, each with the one behind it.
const BLOCK: usize = 16;

/// Whether the parts of a path are seen to be names, none of which begins with a dot. Short paths are left to who reads
/// them part by part.
pub(crate) fn has_plain_names(path: &[u8]) -> bool
    ensures { IsTrue result → (up : Bool) → are_steps up (parts path.now) ≡ true }
{
    if path.len() <= BLOCK || !begins_with_name(path) || ends_in_slash(path) {
        return false;
    }
    let last = path.len() - BLOCK - 1;
    let mut at = 0;
    while at < last {
        if !begin_behind_slashes(path, at) {
            return false;
        }
        at += BLOCK;
    }
    begin_behind_slashes(path, last)
}

// Whether a path begins with a name that doesn't begin with a dot.
fn begins_with_name(path: &[u8]) -> bool
    requires { 0 < length path.now }
    ensures { IsTrue result → IsStart (get_or path.now 0 0) }
{
    path[0] != b'/' && path[0] != b'.'
}

// Whether such a name begins behind each slash of a block.
#[inline(always)]
fn begin_behind_slashes(path: &[u8], at: usize) -> bool
    requires { at + 17 ≤ length path.now }
    ensures { IsTrue result → (k : ℕ) → at ≤ k → k < at + 16 → IsStartAt path.now k }
{
    let slash = u8x16::splat(b'/');
    let slashes = u8x16::from_slice(&path[at..]).simd_eq(slash);
    // a dot is the byte below the slash, which is odd
    let others = (u8x16::from_slice(&path[at + 1..]) | u8x16::splat(1)).simd_eq(slash);
    (slashes & others).to_bitmask() == 0
}
