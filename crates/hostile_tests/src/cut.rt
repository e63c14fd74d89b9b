// Manifests and locks that end too early.
use crate::requests::{came_for_node, put, settings, tree_of};
use resolve_stack::{Project, ProjectError, TargetEnv};
use std::alloc::Global;
use std::test::Fail;

// A manifest whose top-level package binds `foo`.
fn manifest() -> &'static str {
    r#"const RAW_RUNTIME_STATE =
'{"dependencyTreeRoots":[],"enableTopLevelFallback":true,"ignorePatternData":null,"fallbackExclusionList":[],"fallbackPool":[],"packageRegistryData":[[null,[[null,{"packageLocation":"./","packageDependencies":[["foo","npm:1.0.0"]]}]]],["foo",[["npm:1.0.0",{"packageLocation":"./.yarn/foo/","packageDependencies":[]}]]]]}';
"#
}

// What `foo` comes to where the manifest ends behind so many bytes.
fn came_by_a_front(alloc: Global, end: usize) -> Result<String, Fail> {
    let front = manifest().get(..end).ok_or("a front")?;
    let mut tree = tree_of(alloc, "/w/a.js\n/w/.yarn/foo/index.js")?;
    put(&mut tree, "/w/.pnp.cjs", front)?;
    came_for_node(alloc, &mut tree, "/w/a.js", "foo")
}

// The quote that opens the payload has 26 bytes before it. Behind the payload's last byte nothing is needed.
#[test]
fn a_manifest_is_cut(rt: HostRuntime) -> Result<(), Fail> {
    let json = manifest().rfind('}').ok_or("a payload")?;
    for end in 0..manifest().len() {
        let text = came_by_a_front(rt.alloc(), end)?;
        let wanted = match end {
            0..27 => "NoPayload",
            _ if end <= json => "BadJson",
            _ => "real /w/.yarn/foo/index.js",
        };
        assert_eq!(rt; text.as_str(), wanted, "behind {end}");
    }
    Ok(())
}

fn lock() -> &'static str {
    "# a\n# b\n\n__metadata:\n  version: 6\n  cacheKey: 8\n\n\"lodash@npm:^4.17.0\":\n  version: 4.17.20\n  resolution: \"lodash@npm:4.17.20\"\n  checksum: 00\n  languageName: node\n  linkType: hard\n"
}

// Whether a front of the lock is read, or nothing where a project is refused for another cause.
fn is_read(alloc: Global, end: usize) -> Result<Option<bool>, Fail> {
    let mut settings = settings(alloc, TargetEnv::Node, None)?;
    settings.lock = lock().get(..end);
    match Project::new(alloc, settings) {
        Ok(_) => Ok(Some(true)),
        Err(ProjectError::LockParser { .. }) => Ok(Some(false)),
        Err(_) => Ok(None),
    }
}

#[test]
fn a_lock_is_cut(rt: HostRuntime) -> Result<(), Fail> {
    for end in 0..lock().len() {
        assert!(rt; is_read(rt.alloc(), end)?.is_some(), "behind {end}");
    }
    assert_eq!(rt; is_read(rt.alloc(), 0)?, Some(false));
    assert_eq!(rt; is_read(rt.alloc(), lock().len())?, Some(true));
    Ok(())
}
