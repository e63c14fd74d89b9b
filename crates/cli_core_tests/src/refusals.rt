// The exact line of each refusal that a report can have today.
use crate::documents::{comes_to, ended};
use std::alloc::{AllocError, Global};
use std::test::Fail;

// The root `app`, which binds `foo`, `gone`, which has no row, and `zipped`, which lies in an archive; and `foo`,
// which binds itself alone, has the peer `peer`, and may not fall back.
fn whole_manifest() -> &'static str {
    r#""text":"const RAW_RUNTIME_STATE =\n'{\"dependencyTreeRoots\":[{\"name\":\"app\",\"reference\":\"workspace:.\"}],\"enableTopLevelFallback\":false,\"fallbackExclusionList\":[],\"fallbackPool\":[],\"packageRegistryData\":[[null,[[null,{\"packageLocation\":\"./\",\"packageDependencies\":[[\"foo\",\"npm:1.0.0\"],[\"gone\",\"npm:1.0.0\"],[\"zipped\",\"npm:1.0.0\"]]}]]],[\"app\",[[\"workspace:.\",{\"packageLocation\":\"./\",\"packageDependencies\":[[\"foo\",\"npm:1.0.0\"],[\"gone\",\"npm:1.0.0\"],[\"zipped\",\"npm:1.0.0\"]]}]]],[\"foo\",[[\"npm:1.0.0\",{\"packageLocation\":\"./.yarn/foo/\",\"packageDependencies\":[[\"foo\",\"npm:1.0.0\"],[\"peer\",null]]}]]],[\"zipped\",[[\"npm:1.0.0\",{\"packageLocation\":\"./c/z.zip/node_modules/z/\",\"packageDependencies\":[]}]]]]}';\n""#
}

// The content of a manifest, a request for Node and the line that it comes to.
fn rows() -> &'static str {
    r##""hex":"ff"|"from":"/w/a.js","specifier":"foo"|{"refused":{"cause":"NotText","kind":"FailedManifestHydration","manifest":"/w/.pnp.cjs"}}
"text":"module.exports = {};"|"from":"/w/a.js","specifier":"foo"|{"refused":{"cause":"NoPayload","kind":"FailedManifestHydration","manifest":"/w/.pnp.cjs"}}
"text":"const RAW_RUNTIME_STATE =\n'{\"dependencyTreeRoots\":["|"from":"/w/a.js","specifier":"foo"|{"refused":{"cause":"BadJson","kind":"FailedManifestHydration","manifest":"/w/.pnp.cjs"}}
"text":"const RAW_RUNTIME_STATE = '{\"dependencyTreeRoots\":[],\"enableTopLevelFallback\":true,\"fallbackExclusionList\":[],\"fallbackPool\":[],\"packageRegistryData\":[]}'"|"from":"/w/a.js","specifier":"foo"|{"refused":{"cause":"NoTopLevel","kind":"FailedManifestHydration","manifest":"/w/.pnp.cjs"}}
"text":"const RAW_RUNTIME_STATE = '{\"dependencyTreeRoots\":[],\"enableTopLevelFallback\":true,\"ignorePatternData\":\"(\",\"fallbackExclusionList\":[],\"fallbackPool\":[],\"packageRegistryData\":[]}'"|"from":"/w/a.js","specifier":"foo"|{"refused":{"cause":"BadPattern","kind":"FailedManifestHydration","manifest":"/w/.pnp.cjs"}}
whole|"from":"/w/a.js","specifier":"@scope"|{"refused":{"kind":"BadSpecifier","specifier":"@scope"}}
whole|"from":"/w/a.js","specifier":"gone/x"|{"refused":{"kind":"NotInRegistry","name":"gone","reference":"npm:1.0.0"}}
whole|"from":"/w/a.js","specifier":"zipped"|{"refused":{"kind":"Archive","location":"/w/c/z.zip/node_modules/z/"}}
whole|"from":"/w/.yarn/foo/a.js","specifier":"peer/p"|{"refused":{"dependency":"peer","issuer":{"name":"foo","reference":"npm:1.0.0"},"kind":"MissingPeerDependency","message":"foo tried to access peer (a peer dependency) but it isn't provided by its ancestors; this makes the require call ambiguous and unsound.\n\nRequired package: peer (via \"peer/p\")\nRequired by: foo@npm:1.0.0 (via /w/.yarn/foo/a.js)","path":"/w/.yarn/foo/a.js","request":"peer/p"}}
whole|"from":"/w/a.js","specifier":"bar"|{"refused":{"dependency":"bar","issuer":{"name":"app","reference":"workspace:."},"kind":"UndeclaredDependency","message":"Your application tried to access bar, but it isn't declared in your dependencies; this makes the require call ambiguous and unsound.\n\nRequired package: bar\nRequired by: /w/a.js","path":"/w/a.js","request":"bar"}}
whole|"from":"/w/.yarn/foo/a.js","specifier":"bar/b"|{"refused":{"dependency":"bar","issuer":{"name":"foo","reference":"npm:1.0.0"},"kind":"UndeclaredDependency","message":"foo tried to access bar, but it isn't declared in its dependencies; this makes the require call ambiguous and unsound.\n\nRequired package: bar (via \"bar/b\")\nRequired by: foo@npm:1.0.0 (via /w/.yarn/foo/a.js)","path":"/w/.yarn/foo/a.js","request":"bar/b"}}
whole|"from":"/w/a.js","specifier":"foo/b"|{"refused":{"kind":"NotFound","text":"/w/.yarn/foo/b"}}
whole|"from":"/w/a.js","specifier":"foo/../../.pnp.cjs"|{"refused":{"file":"/w/.pnp.cjs","kind":"Outside","location":"/w/.yarn/foo"}}"##
}

// Requests for browsers: a module of Node's own is a package like any other, and told as one where it isn't declared.
fn rows_for_browsers() -> &'static str {
    r##"whole|"from":"/w/a.js","specifier":"fs"|{"refused":{"dependency":"fs","issuer":{"name":"app","reference":"workspace:."},"kind":"UndeclaredDependency","message":"Your application tried to access fs. While this module is usually interpreted as a Node builtin, your resolver is running inside a non-Node resolution context where such builtins are ignored. Since fs isn't otherwise declared in your dependencies, this makes the require call ambiguous and unsound.\n\nRequired package: fs\nRequired by: /w/a.js","path":"/w/a.js","request":"fs"}}
whole|"from":"/w/.yarn/foo/a.js","specifier":"fs"|{"refused":{"dependency":"fs","issuer":{"name":"foo","reference":"npm:1.0.0"},"kind":"UndeclaredDependency","message":"foo tried to access fs. While this module is usually interpreted as a Node builtin, your resolver is running inside a non-Node resolution context where such builtins are ignored. Since fs isn't otherwise declared in foo's dependencies, this makes the require call ambiguous and unsound.\n\nRequired package: fs\nRequired by: /w/.yarn/foo/a.js","path":"/w/.yarn/foo/a.js","request":"fs"}}"##
}

fn document(
    alloc: Global,
    target: &str,
    manifest: &str,
    request: &str,
) -> Result<String, AllocError> {
    let content = if manifest == "whole" {
        whole_manifest()
    } else {
        manifest
    };
    let front = r#""files":[{"path":"/w/.pnp.cjs","#;
    let middle = r#"}],"requests":[{"#;
    format!(in alloc;
        r#"{{"cwd":"/w","target":"{target}",{front}{content}{middle}{request}{}"#,
        "}]}"
    )
}

// How many rows come to their lines; the first that doesn't ends it.
fn rows_that_come(alloc: Global, target: &str, rows: &str) -> Result<u8, Fail> {
    let mut tried = 0u8;
    for row in rows.lines() {
        let (manifest, asked) = row.split_once('|').ok_or("a manifest")?;
        let (request, line) = asked.split_once('|').ok_or("a request")?;
        let document = document(alloc, target, manifest, request)?;
        let line = ended(alloc, line)?;
        if !comes_to(alloc, "resolve", document.as_bytes(), 0, line.as_str())? {
            return Ok(tried);
        }
        tried = tried.saturating_add(1);
    }
    Ok(tried)
}

#[test]
fn each_refusal_has_its_line(rt: HostRuntime) -> Result<(), Fail> {
    assert_eq!(rt; rows_that_come(rt.alloc(), "node", rows())?, 13);
    Ok(())
}

#[test]
fn an_undeclared_builtin_has_its_line(rt: HostRuntime) -> Result<(), Fail> {
    assert_eq!(rt;
        rows_that_come(rt.alloc(), "browser", rows_for_browsers())?,
        2
    );
    Ok(())
}
