// Audit documents that are refused, and the lines of small ones.
use crate::documents::documents_that_come;
use std::test::Fail;

// What is against an audit document.
fn refused() -> &'static str {
    r##"# the bytes are no JSON
|refused: not-json
# a value that is no object
[]|refused: bad-field cwd
# the fields that all documents have go first
{"manifest":1}|refused: bad-field cwd
{"cwd":"/w","lock":1,"manifest":1}|refused: bad-field lock
{"cwd":"/w","manifest":1}|refused: bad-field files
# no manifest, and requests in its place
{"cwd":"/w","files":[]}|refused: bad-field manifest
{"cwd":"/w","files":[],"requests":[]}|refused: bad-field manifest
# no text
{"cwd":"/w","files":[],"manifest":null}|refused: bad-field manifest
{"cwd":"/w","files":[],"manifest":["/w/.pnp.cjs"]}|refused: bad-field manifest
# no clean absolute path, and `/`
{"cwd":"/w","files":[],"manifest":""}|refused: bad-field manifest
{"cwd":"/w","files":[],"manifest":".pnp.cjs"}|refused: bad-field manifest
{"cwd":"/w","files":[],"manifest":"/w//.pnp.cjs"}|refused: bad-field manifest
{"cwd":"/w","files":[],"manifest":"/w/../.pnp.cjs"}|refused: bad-field manifest
{"cwd":"/w","files":[],"manifest":"/w/"}|refused: bad-field manifest
{"cwd":"/w","files":[],"manifest":"/"}|refused: bad-field manifest
# then the tree
{"cwd":"w","files":[{"path":"a","text":""}],"manifest":"/w/.pnp.cjs"}|refused: bad-tree "a"
# then the project
{"cwd":"w","files":[],"manifest":"/w/.pnp.cjs"}|refused: bad-project SettingsFault cwd
{"cwd":"/w","lock":"","files":[],"manifest":"/w/.pnp.cjs"}|refused: bad-project LockParser
# then the lock, and last the manifest
{"cwd":"/w","files":[],"manifest":"/w/.pnp.cjs"}|refused: no-lock
{"cwd":"/w","lock":null,"files":[],"manifest":"/w/.pnp.cjs"}|refused: no-lock
{"cwd":"/w","lock":"# a\n# b\n\n__metadata:\n  version: 6\n\n","files":[{"path":"/w/.pnp.cjs","hex":"ff"}],"manifest":"/w/.pnp.cjs"}|refused: hydration NotText
{"cwd":"/w","lock":"# a\n# b\n\n__metadata:\n  version: 6\n\n","files":[{"path":"/w/.pnp.cjs/a","text":""}],"manifest":"/w/.pnp.cjs"}|refused: hydration NotText
{"cwd":"/w","lock":"# a\n# b\n\n__metadata:\n  version: 6\n\n","files":[{"path":"/w/.pnp.cjs","text":""}],"manifest":"/w/.pnp.cjs"}|refused: hydration NoPayload
{"cwd":"/w","lock":"# a\n# b\n\n__metadata:\n  version: 6\n\n","files":[{"path":"/w/.pnp.cjs","text":"const RAW_RUNTIME_STATE = '{}';"}],"manifest":"/w/.pnp.cjs"}|refused: hydration BadJson
{"cwd":"/w","lock":"# a\n# b\n\n__metadata:\n  version: 6\n\n","files":[{"path":"/w/.pnp.cjs","text":"const RAW_RUNTIME_STATE = '{\"dependencyTreeRoots\":[],\"enableTopLevelFallback\":true,\"ignorePatternData\":\"(\",\"fallbackExclusionList\":[],\"fallbackPool\":[],\"packageRegistryData\":[]}';"}],"manifest":"/w/.pnp.cjs"}|refused: hydration BadPattern
{"cwd":"/w","lock":"# a\n# b\n\n__metadata:\n  version: 6\n\n","files":[{"path":"/w/.pnp.cjs","text":"const RAW_RUNTIME_STATE = '{\"dependencyTreeRoots\":[],\"enableTopLevelFallback\":true,\"fallbackExclusionList\":[],\"fallbackPool\":[],\"packageRegistryData\":[]}';"}],"manifest":"/w/.pnp.cjs"}|refused: hydration NoTopLevel"##
}

// Manifests of one row, beside which other fields are passed over.
fn summed() -> &'static str {
    r##"# no binding
{"cwd":"/w","lock":"# a\n# b\n\n__metadata:\n  version: 6\n\n","files":[{"path":"/w/.pnp.cjs","text":"const RAW_RUNTIME_STATE = '{\"dependencyTreeRoots\":[],\"enableTopLevelFallback\":true,\"fallbackExclusionList\":[],\"fallbackPool\":[],\"packageRegistryData\":[[null,[[null,{\"packageLocation\":\"./\",\"packageDependencies\":[]}]]]]}';"}],"manifest":"/w/.pnp.cjs","requests":1}|{"edges":0,"findings":0,"unused":0}
# a null, and what a fallback may give
{"cwd":"/w","lock":"# a\n# b\n\n__metadata:\n  version: 6\n\n","files":[{"path":"/w/a/m.js","text":"const RAW_RUNTIME_STATE = '{\"dependencyTreeRoots\":[],\"enableTopLevelFallback\":true,\"fallbackExclusionList\":[],\"fallbackPool\":[[\"a\",\"npm:1.0.0\"]],\"packageRegistryData\":[[null,[[null,{\"packageLocation\":\"./\",\"packageDependencies\":[[\"a\",null]]}]]]]}';"}],"manifest":"/w/a/m.js"}|{"edges":0,"findings":0,"unused":0}"##
}

#[test]
fn each_cause_against_an_audit_has_its_line(rt: HostRuntime) -> Result<(), Fail> {
    assert_eq!(rt; documents_that_come(rt.alloc(), "audit", refused())?, 26);
    Ok(())
}

#[test]
fn an_audit_of_nothing_has_a_line(rt: HostRuntime) -> Result<(), Fail> {
    assert_eq!(rt; documents_that_come(rt.alloc(), "audit", summed())?, 2);
    Ok(())
}
