// Names of any bytes, and rules that lead to themselves.
use crate::faults::manifest;
use crate::requests::{came, came_for_node, put, settings, tree_of};
use resolve_stack::{Project, TargetEnv};
use std::alloc::Global;
use std::test::Fail;
use tree_core::MemoryTree;

// Whether the file beside the importer is found in a folder of this name.
fn is_found_in(alloc: Global, name: &str) -> Result<bool, Fail> {
    let from = format!(in alloc; "/w/{name}/a.js")?;
    let file = format!(in alloc; "/w/{name}/x.js")?;
    is_found_from(alloc, from.as_str(), file.as_str())
}

fn is_found_from(alloc: Global, from: &str, file: &str) -> Result<bool, Fail> {
    let mut tree = MemoryTree::new(alloc);
    put(&mut tree, from, "")?;
    put(&mut tree, file, "")?;
    let told = came_for_node(alloc, &mut tree, from, "./x")?;
    Ok(told.strip_prefix("real ") == Some(file))
}

fn is_found_at(alloc: Global, byte: u8) -> Result<bool, Fail> {
    let name = format!(in alloc; "n{}", char::from(byte))?;
    is_found_in(alloc, name.as_str())
}

// Each byte from 1 to 127 but the separator, and the longest and the last characters.
#[test]
fn a_name_has_any_characters(rt: HostRuntime) -> Result<(), Fail> {
    for byte in 1..128u8 {
        assert!(rt; byte == b'/' || is_found_at(rt.alloc(), byte)?, "at {byte}");
    }
    for name in "\u{10000} \u{10ffff}\u{1f600} \u{ffff}".split(' ') {
        assert!(rt; is_found_in(rt.alloc(), name)?, "at {name}");
    }
    Ok(())
}

// A backslash parts no names in a tree. An owner is looked for as if it did.
#[test]
fn an_importer_has_a_backslash(rt: HostRuntime) -> Result<(), Fail> {
    let mut tree = tree_of(rt.alloc(), "/w/.yarn/foo/index.js")?;
    put(&mut tree, "/w/.pnp.cjs", manifest())?;
    let text = came_for_node(rt.alloc(), &mut tree, "/w/x\\y.js", "foo")?;
    assert_eq!(rt; text.as_str(), "real /w/.yarn/foo/index.js");
    Ok(())
}

// Files with rules, and a specifier and what it comes to, on each line.
fn ruled() -> &'static str {
    r#"/w/package.json {"browser":{"./a.js":"./a.js","./b.js":"./c.js","./c.js":"./b.js","q":"q"}}
/w/a.js
/w/b.js
/w/c.js"#
}

fn led() -> &'static str {
    "./a.js = real /w/a.js
./b.js = real /w/c.js
./c.js = real /w/b.js
q = nothing is found at q"
}

fn is_led(alloc: Global, project: &Project<'_>, row: &str) -> Result<bool, Fail> {
    let (specifier, wanted) = row.split_once(" = ").ok_or("no answer")?;
    let mut tree = tree_of(alloc, ruled())?;
    let told = came(alloc, &mut tree, project, "/w/a.js", specifier)?;
    Ok(told.as_str() == wanted)
}

// A rule that leads to its own file leaves it, and two that lead to each other are followed once.
#[test]
fn rules_lead_to_themselves(rt: HostRuntime) -> Result<(), Fail> {
    let settings = settings(rt.alloc(), TargetEnv::Browser, None)?;
    let project = Project::new(rt.alloc(), settings)?;
    for row in led().lines() {
        assert!(rt; is_led(rt.alloc(), &project, row)?, "{row}");
    }
    Ok(())
}
