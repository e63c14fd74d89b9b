// Where the entries of a lock stand, by what they are looked up by.
ghost use Rattle.std.specs.Prelude.{◌≡◌, ◌&&◌, ℕ, List, IfOk, OnOk, OnErr, bytes_eq};
ghost use Rattle.std.specs.HashMap.{get_by};
ghost use Rattle.lock_checks.specs.Places.{earlier, first_place, is_released_as};

use std::alloc::{AllocError, Global};
use std::collections::HashMap;
use yarn_lock_parser::Entry;

// By the text that an entry is resolved to, the place of the first such entry.
pub(crate) fn places_of_resolutions<'l>(
    alloc: Global,
    entries: &[Entry<'l>],
) -> Result<HashMap<&'l str, usize>, AllocError>
    ensures { IfOk result (λ places. (text : List ℕ) →
        get_by (λ k. bytes_eq text k.now) places
        ≡ first_place (λ e. bytes_eq text e.resolved) entries.now) }
{
    let mut places = HashMap::new(alloc);
    for (place, entry) in entries.iter().enumerate() {
        let text = entry.resolved();
        if !places.contains_key(text) {
            places.insert(text, place)?;
        }
    }
    Ok(places)
}

// By name and version, the place of the first entry of a lock that is released so. Only locks of version 1 have
// releases.
pub(crate) fn places_of_releases<'l>(
    alloc: Global,
    lock_version: u8,
    entries: &[Entry<'l>],
) -> Result<HashMap<(&'l str, &'l str), usize>, AllocError>
    ensures { IfOk result (λ places. (name version : List ℕ) →
        get_by (λ k. bytes_eq name k.0.now && bytes_eq version k.1.now) places
        ≡ first_place (is_released_as lock_version name version) entries.now) }
{
    if lock_version == 1 {
        return places_by_version(alloc, entries);
    }
    Ok(HashMap::new(alloc))
}

// By name and version, the place of the first entry that has both.
fn places_by_version<'l>(
    alloc: Global,
    entries: &[Entry<'l>],
) -> Result<HashMap<(&'l str, &'l str), usize>, AllocError>
    ensures { IfOk result (λ places. (name version : List ℕ) →
        get_by (λ k. bytes_eq name k.0.now && bytes_eq version k.1.now) places
        ≡ first_place (λ e. bytes_eq name e.name && bytes_eq version e.version) entries.now) }
{
    let mut places = HashMap::new(alloc);
    for (place, entry) in entries.iter().enumerate() {
        let release = (entry.name(), entry.version());
        if !places.contains_key(&release) {
            places.insert(release, place)?;
        }
    }
    Ok(places)
}

// The first of two places.
pub(crate) fn earlier(one: Option<usize>, other: Option<usize>) -> Option<usize>
    ensures { result ≡ earlier one other }
{
    match (one, other) {
        (Some(i), Some(j)) => Some(i.min(j)),
        (Some(i), None) => Some(i),
        (None, place) => place,
    }
}
