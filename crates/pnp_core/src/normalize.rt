// The normal form of the paths in a manifest.
ghost use Rattle.std.specs.Prelude.{◌≡◌, [], List, ℕ, IfOk, OnOk, string_bytes, map, reverse};
ghost use Rattle.sugar_path.specs.Path.{parts, text_of};
ghost use Rattle.sugar_path.specs.Route.{Route, Relative, route_by_part, route_by_parts, route_text};
ghost use Rattle.pnp_core.specs.NormalizePath.{normalize_path, normal_names, location_path, with_end};
ghost use Rattle.pnp_core.specs.Slashed.{ArePartsOf, slashed, names_of};
ghost use Rattle.pnp_core.specs.VirtualPath.{joined};

use std::alloc::{AllocError, Global};
use sugar_path::{CleanPath, Text};

/// A path's text with `.`, `..` and repeated separators resolved; `\` separates names as `/` does.
/// A `/` at the end stays, and where nothing is left of a relative text, it is `.`.
pub fn normalize_path(alloc: Global, text: &str) -> Result<Text, AllocError>
    ensures { IfOk result (λ t. t ≡ normalize_path text.now) }
{
    let names = normal_names(alloc, text)?;
    if names.is_empty() {
        return Text::of(alloc, ".");
    }
    let ended = with_end(text, names)?;
    Ok(Text::from(ended))
}

// Keeps the `/` at the end of a text.
fn with_end(text: &str, mut names: String) -> Result<String, AllocError>
    ensures { IfOk result (λ s. string_bytes s ≡ with_end text.now (string_bytes names)) }
{
    if !text.ends_with('/') {
        return Ok(names);
    }
    if names.as_str().ends_with('/') {
        return Ok(names);
    }
    names.push_str("/")?;
    Ok(names)
}

// The names of a text behind its root, if it has one.
fn normal_names(alloc: Global, text: &str) -> Result<String, AllocError>
    ensures { IfOk result (λ s. string_bytes s ≡ normal_names text.now) }
{
    if text.starts_with('/') {
        let absolute = location(alloc, text)?.into_string(alloc)?;
        return Ok(absolute);
    }
    let slashed = with_slashes(alloc, text)?;
    let names = relative_text(alloc, slashed.as_str())?;
    Ok(names)
}

// The text of a path, with the `/` that another text has at its end.
pub(crate) fn text_with_end(alloc: Global, text: &str, path: &CleanPath) -> Result<Text, AllocError>
    ensures { IfOk result (λ t. t ≡ with_end text.now (text_of path.now)) }
{
    let names = with_room(alloc, path.as_str(), 1)?;
    let ended = with_end(text, names)?;
    Ok(Text::from(ended))
}

// A copy of a text, with room for some more bytes.
pub(crate) fn with_room(alloc: Global, text: &str, room: usize) -> Result<String, AllocError>
    ensures { IfOk result (λ s. string_bytes s ≡ text.now) }
{
    let mut copy = String::with_capacity(alloc, text.len().saturating_add(room))?;
    copy.push_str(text)?;
    Ok(copy)
}

// The path that an absolute text names.
pub(crate) fn location(alloc: Global, text: &str) -> Result<CleanPath, AllocError>
    ensures { IfOk result (λ p. p ≡ location_path text.now) }
{
    let Some(_) = text.split_once('\\') else {
        let clean = CleanPath::read(alloc, &CleanPath::root(alloc), text)?;
        return Ok(clean);
    };
    let slashed = with_slashes(alloc, text)?;
    let path = CleanPath::read(alloc, &CleanPath::root(alloc), slashed.as_str())?;
    Ok(path)
}

// The text with `/` in place of `\`.
fn with_slashes(alloc: Global, text: &str) -> Result<String, AllocError>
    ensures { IfOk result (λ s. string_bytes s ≡ slashed text.now) }
{
    let mut slashed = String::new(alloc);
    let mut rest = text;
    while let Some((front, behind)) = rest.split_once('\\') {
        slashed.push_str(front)?;
        slashed.push_str("/")?;
        rest = behind;
    }
    slashed.push_str(rest)?;
    Ok(slashed)
}

// The text of the route of a relative text.
fn relative_text(alloc: Global, text: &str) -> Result<String, AllocError>
    ensures { IfOk result (λ s.
        string_bytes s ≡ route_text (route_by_parts (Relative 0 []) (parts text.now))) }
{
    let mut names = Vec::new(alloc);
    for part in text.split('/') {
        follow_relative(&mut names, part)?;
    }
    let text = join_names(alloc, &names)?;
    Ok(text)
}

// Goes on by one part of a relative text.
fn follow_relative<'a>(names: &mut Vec<&'a str>, part: &'a str) -> Result<(), AllocError>
    ensures { OnOk result ((r : Route) → ArePartsOf names.old.items r
        → ArePartsOf names.new.items (route_by_part r part.now)) }
{
    if part == "" || part == "." {
        return Ok(());
    }
    if part != ".." {
        names.push(part)?;
        return Ok(());
    }
    match names.last() {
        Some(name) if *name != ".." => {
            let _ = names.pop();
        }
        _ => names.push(part)?,
    }
    Ok(())
}

// Names with a `/` between each two.
pub(crate) fn join_names(alloc: Global, names: &[&str]) -> Result<String, AllocError>
    ensures { IfOk result (λ s. string_bytes s ≡ joined (names_of names.now)) }
{
    let mut text = String::new(alloc);
    for (index, name) in names.iter().enumerate() {
        if index > 0 {
            text.push_str("/")?;
        }
        text.push_str(name)?;
    }
    Ok(text)
}
