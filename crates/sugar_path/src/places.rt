// The place and the normal form of a path, written in the room of a copy or of the path itself.
ghost use Rattle.std.specs.Prelude.{◌≡◌, ◌≢◌, ◌<◌, ◌≤◌, ◌∷◌, ◌++◌, [], IfOk, IsTrue, false, vec_len};
ghost use Rattle.sugar_path.specs.Path.{ends_in_slash, is_absolute, join, with_slash};
ghost use Rattle.sugar_path.specs.Route.{or_dot, place, normal};
ghost use Rattle.sugar_path.specs.Reading.{read_text};

use crate::reading::{Reading, ends_in_slash, push_part};
use std::alloc::{AllocError, Global};

/// The place of a path.
pub(crate) fn place_of(alloc: Global, path: &[u8]) -> Result<Vec<u8>, AllocError>
    ensures { IfOk result (λ v. v.items ≡ place path.now) }
{
    let text = Vec::from_slice(alloc, or_here(path))?;
    Ok(place_in(text))
}

/// The place of a relative path that is read from a folder.
pub(crate) fn place_below(alloc: Global, folder: &[u8], path: &[u8]) -> Result<Vec<u8>, AllocError>
    requires { is_absolute path.now ≡ false }
    ensures { IfOk result (λ v. v.items ≡ place (join folder.now path.now)) }
{
    let folder = or_here(folder);
    let room = folder.len().saturating_add(path.len()).saturating_add(1);
    let mut text = Vec::with_capacity(alloc, room)?;
    text.extend_from_slice(folder)?;
    push_part(&mut text, path)?;
    Ok(place_in(text))
}

/// The normal form of a path.
pub(crate) fn normal_of(alloc: Global, path: &[u8]) -> Result<Vec<u8>, AllocError>
    ensures { IfOk result (λ v. v.items ≡ normal path.now) }
{
    let text = Vec::from_slice(alloc, or_here(path))?;
    Ok(normal_in(text))
}

// The path, or `.` where it is empty: both lead nowhere.
fn or_here(path: &[u8]) -> &[u8]
    ensures { result.now ≡ or_dot path.now }
{
    if path.is_empty() { b"." } else { path }
}

// The place of a path, in the path's own room.
fn place_in(text: Vec<u8>) -> Vec<u8>
    requires { 0 < vec_len text }
    ensures { result.items ≡ place text.items }
{
    placed(text).into_bytes()
}

/// The normal form of a path, in the path's own room.
#[tactic(auto, unfolding(crate::specs::Route::normal))]
pub(crate) fn normal_in(text: Vec<u8>) -> Vec<u8>
    requires { 0 < vec_len text }
    ensures { result.items ≡ normal text.items }
{
    let slash = ends_in_slash(text.as_slice());
    let mut reading = placed(text);
    if slash && reading.as_slice() != b"/".as_slice() {
        reading.put(b'/');
    }
    reading.into_bytes()
}

// A path read to its end, with `.` where nothing is left of it.
fn placed(text: Vec<u8>) -> Reading
    requires { 0 < vec_len text }
    ensures place { read_text result ≡ place text.items }
    ensures within { result.len ≤ vec_len result.text }
    ensures room { IsTrue (ends_in_slash text.items) → place text.items ≢ 47 ∷ [] →
        result.len < vec_len result.text }
{
    let mut reading = Reading::of(text);
    if reading.as_slice().is_empty() {
        reading.put(b'.');
    }
    reading
}
