// Tries of locations: the nearest location of a path, and their nodes.
use crate::rows::{Told, rows_come};
use pnp_core::Trie;
use std::alloc::{AllocError, Global};
use std::test::Fail;
use sugar_path::Text;

// Puts a value at a location.
fn put(trie: &mut Trie<u32>, location: &str, value: u32) -> Result<(), Fail> {
    if !location.starts_with('/') {
        return Err(Fail::from("a relative location"));
    }
    match trie.insert(location, value) {
        Ok(()) => Ok(()),
        Err(_) => Err(Fail::from("no memory")),
    }
}

// The value at the location nearest to a path.
fn value_at(alloc: Global, trie: &Trie<u32>, path: &str) -> Result<Option<u32>, Fail> {
    if !path.starts_with('/') {
        return Err(Fail::from("a relative path"));
    }
    Ok(trie.get_ancestor_value(alloc, path)?.copied())
}

// Puts values at locations: each a location, a colon and a number, apart by blanks.
fn put_all(trie: &mut Trie<u32>, entries: &str) -> Result<(), Fail> {
    for entry in entries.split_whitespace() {
        put_entry(trie, entry)?;
    }
    Ok(())
}

fn put_entry(trie: &mut Trie<u32>, entry: &str) -> Result<(), Fail> {
    let (location, value) = entry.split_once(':').ok_or("no value")?;
    put(trie, location, value.parse()?)
}

/// The value at the location that is nearest to a path, of values at locations.
pub(crate) fn nearest_told(alloc: Global, given: &str) -> Result<Text, Fail> {
    let (entries, path) = given.split_once(" at ").ok_or("no path")?;
    let mut trie = Trie::new(alloc);
    put_all(&mut trie, entries)?;
    let value = value_at(alloc, &trie, path)?;
    Ok(value_told(alloc, value)?)
}

fn value_told(alloc: Global, value: Option<u32>) -> Result<Text, AllocError> {
    match value {
        Some(value) => Ok(Text::from(value.to_string(alloc)?)),
        None => Text::of(alloc, "nothing"),
    }
}

fn nearest() -> &'static str {
    "# a later value at an equal location counts
/w/:0 /w/foo/:2 /w/./:1 at /w/foobar = 1
/w/:0 /w/foo/:2 /w/./:1 at /w/foo/x = 2
/w/:0 /w/foo/:2 /w/./:1 at /w/foo = 2
/w/:0 /w/foo/:2 /w/./:1 at /w = 1
/w/:0 /w/foo/:2 /w/./:1 at /x = nothing"
}

#[test]
fn a_trie_finds_the_nearest_location(rt: HostRuntime) -> Result<(), Fail> {
    rows_come(&rt, rt.alloc(), Told::Nearest, nearest())
}

/// How many nodes there are for values at locations.
pub(crate) fn nodes_told(alloc: Global, entries: &str) -> Result<Text, Fail> {
    let mut trie = Trie::new(alloc);
    put_all(&mut trie, entries)?;
    Ok(Text::from(trie.nodes().to_string(alloc)?))
}

fn nodes() -> &'static str {
    " = 1
/w/:0 = 2
/w/:0 /w/foo/:0 = 3
/w/:0 /w/foo/:0 /w/foobar/:0 = 4
# the folder in which two locations part has a node
/x/a/:0 = 2
/x/a/:0 /x/b/:0 = 4
/x/a/:0 /x/b/:0 /x/:0 = 4
/x/a/:0 /:0 = 2"
}

#[test]
fn a_trie_has_a_node_for_each_location_and_parting(rt: HostRuntime) -> Result<(), Fail> {
    rows_come(&rt, rt.alloc(), Told::Nodes, nodes())
}

fn put_many(alloc: Global, trie: &mut Trie<u32>) -> Result<(), Fail> {
    for i in 100001..200001 {
        put_number(alloc, trie, i)?;
    }
    Ok(())
}

fn put_number(alloc: Global, trie: &mut Trie<u32>, i: u32) -> Result<(), Fail> {
    let location = format!(in alloc; "/w/p/{i}/")?;
    put(trie, location.as_str(), i)
}

fn finds_many(alloc: Global, trie: &Trie<u32>) -> Result<bool, Fail> {
    for i in 100001..200001 {
        if !finds_number(alloc, trie, i)? {
            return Ok(false);
        }
    }
    Ok(true)
}

fn finds_number(alloc: Global, trie: &Trie<u32>, i: u32) -> Result<bool, Fail> {
    let path = format!(in alloc; "/w/p/{i}/x")?;
    Ok(value_at(alloc, trie, path.as_str())? == Some(i))
}

#[test]
fn a_trie_has_a_hundred_thousand_locations(rt: HostRuntime) -> Result<(), Fail> {
    let mut trie: Trie<u32> = Trie::new(rt.alloc());
    put_many(rt.alloc(), &mut trie)?;
    assert_eq!(rt; trie.nodes(), 100002);
    assert!(rt; finds_many(rt.alloc(), &trie)?);
    Ok(())
}
