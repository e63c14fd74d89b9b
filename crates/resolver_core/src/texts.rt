// Texts that a mapping makes and reads.
ghost use Rattle.std.specs.Prelude.{◌≡◌, ◌||◌, [], IfOk, bytes_eq, string_bytes};
ghost use Rattle.std.specs.List.{after_last, before_first};
ghost use Rattle.std.specs.Option.{option_copied};
ghost use Rattle.sugar_path.specs.Path.{join, with_slash, ends_in_slash};
ghost use Rattle.resolver_core.specs.Mapping.{is_slash, is_dot, is_modules, is_in_modules, is_passed};
ghost use Rattle.resolver_core.specs.Mapping.{here, slug_of, with_rest};

use star_texts::replaced;
use std::alloc::{AllocError, Global};
use sugar_path::Text;
use swc_loader::FileName;

// Whether a request goes to the inner resolver as it is: by a relative specifier, or from below `node_modules`.
pub(crate) fn is_passed(base: &FileName, specifier: &str) -> bool
    ensures { result ≡ is_passed base.now specifier.now }
{
    specifier == ".."
        || specifier.starts_with("./")
        || specifier.starts_with("../")
        || is_in_modules(base)
}

// Whether a name is a path with a component `node_modules`.
pub(crate) fn is_in_modules(name: &FileName) -> bool
    ensures { result ≡ is_in_modules name.now }
{
    match name {
        FileName::Real(path) => path.as_str().split('/').any(is_modules),
        FileName::Custom(_) | FileName::Anon => false,
    }
}

fn is_modules(part: &str) -> bool
    ensures { result ≡ is_modules part.now }
{
    part == "node_modules"
}

// A target with the rest of the specifier in place of each `*`.
pub(crate) fn with_rest(alloc: Global, rest: &str, target: &str) -> Result<Text, AllocError>
    ensures { IfOk result (λ text. text ≡ with_rest rest.now target.now) }
{
    Ok(Text::from(replaced(alloc, target, rest)?))
}

// A text behind `./`.
pub(crate) fn here(alloc: Global, text: &str) -> Result<Text, AllocError>
    ensures { IfOk result (λ t. t ≡ here text.now) }
{
    let mut behind = String::from_str(alloc, "./")?;
    behind.push_str(text)?;
    Ok(Text::from(behind))
}

// A text behind a folder; an absolute one stands alone.
pub(crate) fn joined(alloc: Global, folder: &str, text: &str) -> Result<Text, AllocError>
    ensures { IfOk result (λ t. t ≡ join folder.now text.now) }
{
    if text.starts_with('/') {
        return Text::of(alloc, text);
    }
    let mut joined = with_slash(alloc, folder)?;
    joined.push_str(text)?;
    Ok(Text::from(joined))
}

// A folder with a `/` at its end, unless it is empty.
fn with_slash(alloc: Global, folder: &str) -> Result<String, AllocError>
    ensures { IfOk result (λ s. string_bytes s ≡ with_slash folder.now) }
{
    let mut text = String::from_str(alloc, folder)?;
    if !is_closed(folder) {
        text.push_str("/")?;
    }
    Ok(text)
}

// Whether a folder is empty or ends in `/`.
fn is_closed(folder: &str) -> bool
    ensures { result ≡ bytes_eq folder.now [] || ends_in_slash folder.now }
{
    folder.is_empty() || folder.ends_with('/')
}

// What stands behind the last `/` of a text.
pub(crate) fn last_part(text: &str) -> &str
    ensures { result.now ≡ after_last is_slash text.now }
{
    match text.rfind('/') {
        Some(at) => &text[at + 1..],
        None => text,
    }
}

// The slug of an exact pattern's answer: its target's last part up to the first dot. The name of an index file gives
// none.
pub(crate) fn slug_of(target: &str) -> Option<&str>
    ensures { option_copied result ≡ slug_of target.now }
{
    let name = last_part(target);
    if name == "index.ts" || name == "index.tsx" {
        return None;
    }
    Some(before_dot(name))
}

fn before_dot(name: &str) -> &str
    ensures { result.now ≡ before_first is_dot name.now }
{
    match name.split_once('.') {
        Some((stem, _)) => stem,
        None => name,
    }
}
