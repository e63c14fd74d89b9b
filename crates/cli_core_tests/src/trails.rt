// Lines with their trails.
use crate::documents::documents_that_come;
use std::test::Fail;

// Documents, and the line with its trail.
fn lines() -> &'static str {
    r##"{"cwd":"/w","target":"node","files":[{"path":"/w/a.js","text":""},{"path":"/w/b.js","text":"","canonical":"/r/b.js"}],"requests":[{"from":"/w/a.js","specifier":"./b"}]}|{"answer":{"real":"/r/b.js"},"found":{"file":"/w/b.js","via":null},"slug":null,"trail":[["file","/w/a.js",true],["file","/w/b.js",true],["canon","/w/b.js","/r/b.js"]]}
{"cwd":"/w","target":"node","files":[{"path":"/w/a.js","text":""},{"path":"/w/kit/package.json","text":"{}"},{"path":"/w/kit/index.tsx","text":""}],"requests":[{"from":"/w/a.js","specifier":"./kit"}]}|{"answer":{"real":"/w/kit/index.tsx"},"found":{"file":"/w/kit/index.tsx","via":null},"slug":null,"trail":[["file","/w/a.js",true],["file","/w/kit.js",false],["file","/w/kit",false],["file","/w/kit.ts",false],["file","/w/kit.tsx",false],["file","/w/kit.jsx",false],["file","/w/kit.node",false],["file","/w/kit/package.json",true],["read","/w/kit/package.json","7b7d"],["file","/w/kit/index.ts",false],["file","/w/kit/index.tsx",true],["canon","/w/kit/index.tsx","/w/kit/index.tsx"]]}
{"cwd":"/w","target":"node","files":[],"requests":[{"from":null,"specifier":"./b"}]}|{"refused":{"kind":"BaseNotAFile"},"trail":[]}
{"cwd":"/w","target":"node","node_modules":false,"files":[{"path":"/.pnp.cjs/a","text":""}],"requests":[{"from":"/a.js","specifier":"b"}]}|{"refused":{"cause":"NotText","kind":"FailedManifestHydration","manifest":"/.pnp.cjs"},"trail":[["exists","/a.js/.pnp.cjs",false],["exists","/.pnp.cjs",true],["read","/.pnp.cjs",null]]}"##
}

#[test]
fn lines_tell_their_trails(rt: HostRuntime) -> Result<(), Fail> {
    assert_eq!(rt;
        documents_that_come(rt.alloc(), "resolve --trail", lines())?,
        4
    );
    Ok(())
}
