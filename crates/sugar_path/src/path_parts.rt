// The parts of a path, one after the other.
ghost use Rattle.std.specs.Prelude.{◌≡◌, ◌==◌, ◌∷◌, ◌≤◌, length, map, take};
ghost use Rattle.std.specs.Simd.Lanes.{mask_l};
ghost use Rattle.memchr.specs.Find.{IsFirstByte, is_byte};
ghost use Rattle.sugar_path.specs.Path.{parts};
ghost use Rattle.sugar_path.specs.ComponentTypes.{parts_if};

use memchr::memchr;
use std::marker::Model;
use std::simd::prelude::*;

/// What stands between the slashes of a path, in order.
#[derive(Drop)]
pub(crate) struct Parts<'a> {
    // what stands behind the parts that were read
    rest: Option<&'a [u8]>,
}

impl<'a> Model for Parts<'a> {
    ghost use Rattle.std.specs.Prelude.{List, ℕ};
    ghost use Rattle.sugar_path.specs.ComponentTypes.{parts_if};

    ghost Value = { List (List ℕ) };

    ghost view = { λ p. parts_if p.rest };
}

impl<'a> Parts<'a> {
    /// The parts of a path.
    pub(crate) fn of(path: &'a [u8]) -> Parts<'a>
        ensures { result ≡ parts path.now }
    {
        Parts { rest: Some(path) }
    }
}

impl<'a> Iterator for Parts<'a> {
    ghost use Rattle.std.specs.Iterator.{YieldsFirstBy, item_count};

    type Item = &'a [u8];

    ghost next_gives = { YieldsFirstBy (λ part. part.now) (λ left. left) };

    ghost remaining = { item_count (λ left. left) };

    #[inline]
    fn next(&mut self) -> Option<&'a [u8]> {
        let text = self.rest?;
        let (part, behind) = split_first_part(text);
        self.rest = behind;
        Some(part)
    }
}

/// How many parts a path has.
pub(crate) fn part_count(path: &[u8]) -> usize
    ensures { result ≡ length (parts path.now) }
{
    Parts::of(path).count()
}

/// The first part of a path, and what stands behind its slash.
#[inline]
pub(crate) fn split_first_part(path: &[u8]) -> (&[u8], Option<&[u8]>)
    ensures { parts path.now ≡ result.0.now ∷ parts_if result.1 }
{
    match first_slash(path) {
        None => (path, None),
        Some(at) => (&path[..at], Some(&path[at + 1..])),
    }
}

// How many bytes are looked at side by side: most names end within them, and a longer search costs more to begin.
const BLOCK: usize = 16;

// Where the first slash of a path stands.
#[inline]
fn first_slash(path: &[u8]) -> Option<usize>
    ensures { IsFirstByte (is_byte 47) path.now result }
{
    if path.len() < BLOCK {
        return path.iter().position(|b| *b == b'/');
    }
    let slashes = slashes_in_block(path);
    if slashes != 0 {
        return Some(slashes.trailing_zeros() as usize);
    }
    Some(memchr(b'/', &path[BLOCK..])? + BLOCK)
}

// The slashes in the first block of a path, a bit each.
#[inline(always)]
fn slashes_in_block(path: &[u8]) -> u64
    requires { 16 ≤ length path.now }
    ensures { result ≡ mask_l (map (λ b. b == 47) (take 16 path.now)) }
{
    u8x16::from_slice(path)
        .simd_eq(u8x16::splat(b'/'))
        .to_bitmask()
}
