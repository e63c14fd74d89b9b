// What two byte strings begin with alike, 32 bytes at a time.
ghost use Rattle.std.specs.Prelude.{◌≡◌, ◌+◌, ◌≤◌, nat_eq, length, take, drop};
ghost use Rattle.std.specs.List.{common_prefix_len};

use std::simd::prelude::*;

/// How many leading bytes two byte strings share.
pub fn common_prefix_len(left: &[u8], right: &[u8]) -> usize
    ensures { result ≡ common_prefix_len nat_eq left.now right.now }
{
    let end = left.len().min(right.len());
    let mut at = 0;
    while 32 <= end - at {
        let equal = equal_lanes(left, right, at);
        if equal < 32 {
            return at + equal;
        }
        at += 32;
    }
    at + equal_bytes(&left[at..], &right[at..])
}

// How many bytes are equal from a place on, up to 32.
#[inline(always)]
fn equal_lanes(left: &[u8], right: &[u8], at: usize) -> usize
    requires left { at + 32 ≤ length left.now }
    requires right { at + 32 ≤ length right.now }
    ensures { result ≡ common_prefix_len nat_eq
        (take 32 (drop at left.now)) (take 32 (drop at right.now)) }
{
    let differ = u8x32::from_slice(&left[at..]).simd_ne(u8x32::from_slice(&right[at..]));
    differ.to_bitmask().trailing_zeros().min(32) as usize
}

// How many first bytes two slices share, told one after the other: for the last ones.
fn equal_bytes(left: &[u8], right: &[u8]) -> usize
    ensures { result ≡ common_prefix_len nat_eq left.now right.now }
{
    left.iter().zip(right).take_while(|(a, b)| a == b).count()
}
