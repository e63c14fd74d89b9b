// Random manifests, locks and package.jsons: what the join refuses, binding by binding, is what the audit finds.
ghost use Rattle.std.specs.Prelude.{◌<◌};

use crate::audited::{audited, project_of};
use crate::joined::joined;
use std::alloc::{AllocError, Global};
use std::test::Fail;
use tree_core::MemoryTree;

// The packages' names, and the references that each has; the last name is of no package.
fn names() -> &'static str {
    "a b c d"
}

fn references() -> &'static str {
    "npm:1.0.0 npm:2.0.0 virtual:x#npm:1.0.0 workspace:w patch:a#f"
}

// What locks have in place of those: without a virtual part, and one of no package.
fn locked_references() -> &'static str {
    "npm:1.0.0 npm:2.0.0 npm:3.0.0 workspace:w patch:a#f"
}

// The next number of a plain generator, and one below `count` of its high bits.
fn pick(state: &mut u64, count: u64) -> usize
    requires { 0 < count }
    ensures { result < count }
{
    *state = state
        .wrapping_mul(6364136223846793005)
        .wrapping_add(1442695040888963407);
    ((*state >> 33) % count) as usize
}

fn word_at(words: &'static str, place: usize) -> &'static str {
    let mut left = place;
    for word in words.split_whitespace() {
        if left == 0 {
            return word;
        }
        left = left.wrapping_sub(1);
    }
    ""
}

// The folder of a name's package by the place of its reference. The virtual one lies in that of the first.
fn folder_of(alloc: Global, name: &str, place: usize) -> Result<String, AllocError> {
    match place {
        2 => format!(in alloc; "__virtual__/{name}-x/0/{name}0"),
        4 => format!(in alloc; "cache/{name}.zip/{name}4"),
        _ => format!(in alloc; "{name}{place}"),
    }
}

// A manifest in which the top-level package has a row, and some of the packages.
fn manifest(alloc: Global, state: &mut u64) -> Result<String, AllocError> {
    let mut text = String::from_str(
        alloc,
        r#"const RAW_RUNTIME_STATE =
'{"dependencyTreeRoots":[],"enableTopLevelFallback":true,"ignorePatternData":null,"fallbackExclusionList":[],"fallbackPool":[["d","npm:9.0.0"]],"packageRegistryData":[[null,[[null"#,
    )?;
    put_row(alloc, &mut text, "./", state)?;
    text.push_str("]]")?;
    for name in "a b c".split_whitespace() {
        put_name(alloc, &mut text, name, state)?;
    }
    text.push_str("]}';\n")?;
    Ok(text)
}

// A name's rows: that of the first reference, and some others.
fn put_name(
    alloc: Global,
    text: &mut String,
    name: &str,
    state: &mut u64,
) -> Result<(), AllocError> {
    put(text, &[r#",[""#, name, r#"",[["npm:1.0.0""#])?;
    put_row_at(alloc, text, name, 0, state)?;
    for place in 1..5usize {
        if pick(state, 2) == 0 {
            put(text, &[r#",[""#, word_at(references(), place), r#"""#])?;
            put_row_at(alloc, text, name, place, state)?;
        }
    }
    text.push_str("]]")
}

fn put_row_at(
    alloc: Global,
    text: &mut String,
    name: &str,
    place: usize,
    state: &mut u64,
) -> Result<(), AllocError> {
    let folder = folder_of(alloc, name, place)?;
    let location = format!(in alloc; "./{folder}/")?;
    put_row(alloc, text, location.as_str(), state)
}

// What a row says: its location and its bindings, of which the first is null.
fn put_row(
    alloc: Global,
    text: &mut String,
    location: &str,
    state: &mut u64,
) -> Result<(), AllocError> {
    put(
        text,
        &[
            r#",{"packageLocation":""#,
            location,
            r#"","packageDependencies":[["peer",null]"#,
        ],
    )?;
    for name in names().split_whitespace() {
        put_binding(alloc, text, name, state)?;
    }
    text.push_str("]}]")
}

// A binding of a name, if it has one: null, a reference, or another package.
fn put_binding(
    alloc: Global,
    text: &mut String,
    name: &str,
    state: &mut u64,
) -> Result<(), AllocError> {
    let kind = pick(state, 5);
    let reference = word_at(references(), pick(state, 5));
    let other = word_at(names(), pick(state, 4));
    let binding = match kind {
        0 => return Ok(()),
        1 => String::from_str(alloc, "null")?,
        2 => format!(in alloc; "[\"{other}\",\"{reference}\"]")?,
        _ => format!(in alloc; "\"{reference}\"")?,
    };
    put(text, &[r#",[""#, name, r#"","#, binding.as_str(), "]"])
}

fn put(text: &mut String, parts: &[&str]) -> Result<(), AllocError> {
    for part in parts {
        text.push_str(part)?;
    }
    Ok(())
}

// A lock of version 6 or 1 that has some of the packages.
fn lock(alloc: Global, state: &mut u64) -> Result<String, AllocError> {
    let head = if pick(state, 3) == 0 {
        "# a\n# yarn lockfile v1\n\n\n"
    } else {
        "# a\n# b\n\n__metadata:\n  version: 6\n\n"
    };
    let mut text = String::from_str(alloc, head)?;
    for name in "a b c".split_whitespace() {
        put_entries(&mut text, name, state)?;
    }
    text.push_str("last@npm:1:\n  version: 1\n")?;
    Ok(text)
}

fn put_entries(text: &mut String, name: &str, state: &mut u64) -> Result<(), AllocError> {
    for reference in locked_references().split_whitespace() {
        if pick(state, 4) != 0 {
            put_entry(text, name, reference, state)?;
        }
    }
    Ok(())
}

fn put_entry(
    text: &mut String,
    name: &str,
    reference: &str,
    state: &mut u64,
) -> Result<(), AllocError> {
    put(text, &["\"", name, "@", reference, "\":\n  version: "])?;
    text.push_str(word_at("1.0.0 2.0.0 latest", pick(state, 3)))?;
    put_resolution(text, name, reference, state)
}

// Where an entry's package comes from, which some leave out.
fn put_resolution(
    text: &mut String,
    name: &str,
    reference: &str,
    state: &mut u64,
) -> Result<(), AllocError> {
    if pick(state, 5) == 0 {
        return text.push_str("\n\n");
    }
    put(
        text,
        &["\n  resolution: \"", name, "@", reference, "\"\n\n"],
    )
}

// A package.json, or nothing where there is none.
fn package_json(alloc: Global, state: &mut u64) -> Result<Option<String>, AllocError> {
    match pick(state, 6) {
        0 => Ok(None),
        1 => Ok(Some(String::from_str(alloc, "{")?)),
        2 => Ok(Some(String::from_str(alloc, " ")?)),
        _ => Ok(Some(dependencies(alloc, state)?)),
    }
}

fn dependencies(alloc: Global, state: &mut u64) -> Result<String, AllocError> {
    let mut text = String::from_str(alloc, r#"{"dependencies":{"peer":"*""#)?;
    for name in names().split_whitespace() {
        let range = word_at("^1.0.0 ^2.0.0 * latest >=1.0.0 npm:x@1", pick(state, 6));
        put(&mut text, &[r#",""#, name, r#"":""#, range, r#"""#])?;
    }
    text.push_str("}}")?;
    Ok(text)
}

// The files of a manifest's packages.
fn tree(alloc: Global, state: &mut u64) -> Result<MemoryTree, Fail> {
    let mut tree = MemoryTree::new(alloc);
    let manifest = manifest(alloc, state)?;
    tree.put("/w/.pnp.cjs", manifest.as_bytes(), "/w/.pnp.cjs")?;
    put_files(alloc, &mut tree, "/w", state)?;
    for name in "a b c".split_whitespace() {
        put_packages(alloc, &mut tree, name, state)?;
    }
    Ok(tree)
}

fn put_packages(
    alloc: Global,
    tree: &mut MemoryTree,
    name: &str,
    state: &mut u64,
) -> Result<(), Fail> {
    for place in [0, 1, 3, 4usize] {
        let folder = folder_of(alloc, name, place)?;
        let folder = format!(in alloc; "/w/{folder}")?;
        put_files(alloc, tree, folder.as_str(), state)?;
    }
    Ok(())
}

fn put_files(
    alloc: Global,
    tree: &mut MemoryTree,
    folder: &str,
    state: &mut u64,
) -> Result<(), Fail> {
    put_file(alloc, tree, folder, "m.js", "")?;
    match package_json(alloc, state)? {
        Some(text) => put_file(alloc, tree, folder, "package.json", text.as_str()),
        None => Ok(()),
    }
}

fn put_file(
    alloc: Global,
    tree: &mut MemoryTree,
    folder: &str,
    name: &str,
    text: &str,
) -> Result<(), Fail> {
    let path = format!(in alloc; "{folder}/{name}")?;
    Ok(tree.put(path.as_str(), text.as_bytes(), path.as_str())?)
}

// What the audit finds and what the join refuses, on a manifest and a lock of a state's numbers.
fn found_and_refused(alloc: Global, state: &mut u64) -> Result<(String, String), Fail> {
    let lock = lock(alloc, state)?;
    let project = project_of(alloc, lock.as_str())?;
    let mut tree = tree(alloc, state)?;
    let found = audited(alloc, &mut tree, &project)?;
    Ok((found, joined(alloc, &mut tree, &project)?))
}

#[test]
fn what_the_join_refuses_is_found(rt: HostRuntime) -> Result<(), Fail> {
    let mut state = 1;
    for turn in 0..20u8 {
        let (found, refused) = found_and_refused(rt.alloc(), &mut state)?;
        assert_eq!(rt; found, refused, "at {turn}");
    }
    Ok(())
}
