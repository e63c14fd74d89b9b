// Requests in which several rows read package.jsons: each content is parsed once, and counts for each root as if
// it were parsed there. Worked out by hand from docs/ORDER.md.
use crate::rows::rows_come;
use std::test::Fail;

// As the tables of browser maps.
fn requests() -> &'static str {
    r#"# the importer's rules, the entry and the rules of the file that is found stand in one package.json
browser |  | /w/src/a.js; /w/lib/main.js; /w/lib/b.js; /w/package.json {"main": "lib/main.js", "browser": {"./lib/main.js": "./lib/b.js"}} | /w/src/a.js .. = /w/lib/b.js | /w/lib/b.js | /w/src/package.json /w/package.json read:/w/package.json /w/lib/main.js /w/lib/b.js /w/src/a.js /w/lib/package.json canon:/w/lib/b.js
# two package.jsons of different content
browser |  | /w/a.js; /w/lib.js; /w/node_modules/q/lib.js; /w/node_modules/q/b.js; /w/package.json {"main": "a.js", "browser": {"./lib.js": false}}; /w/node_modules/q/package.json {"main": "lib.js", "browser": {"./lib.js": "./b.js"}} | /w/a.js q = /w/node_modules/q/b.js | /w/node_modules/q/b.js | /w/q.js /w/q /w/q.ts /w/q.tsx /w/q.jsx /w/q.node /w/q/index.ts /w/q/index.tsx /w/q/index.js /w/q/index.jsx /w/q/index.node /w/package.json read:/w/package.json /w/lib.js /w/a.js dir:/w/node_modules /w/node_modules/q.js /w/node_modules/q /w/node_modules/q.ts /w/node_modules/q.tsx /w/node_modules/q.jsx /w/node_modules/q.node /w/node_modules/q/package.json read:/w/node_modules/q/package.json /w/node_modules/q/lib.js /w/node_modules/q/b.js canon:/w/node_modules/q/b.js
# two of equal content: each is read, and its rules are about the files behind its own root
browser |  | /w/a.js; /w/lib.js; /w/b.js; /w/node_modules/q/lib.js; /w/node_modules/q/b.js; /w/package.json {"main": "lib.js", "browser": {"./lib.js": "./b.js"}}; /w/node_modules/q/package.json {"main": "lib.js", "browser": {"./lib.js": "./b.js"}} | /w/a.js q = /w/node_modules/q/b.js | /w/node_modules/q/b.js | /w/q.js /w/q /w/q.ts /w/q.tsx /w/q.jsx /w/q.node /w/q/index.ts /w/q/index.tsx /w/q/index.js /w/q/index.jsx /w/q/index.node /w/package.json read:/w/package.json /w/lib.js /w/b.js /w/a.js dir:/w/node_modules /w/node_modules/q.js /w/node_modules/q /w/node_modules/q.ts /w/node_modules/q.tsx /w/node_modules/q.jsx /w/node_modules/q.node /w/node_modules/q/package.json read:/w/node_modules/q/package.json /w/node_modules/q/lib.js /w/node_modules/q/b.js canon:/w/node_modules/q/b.js
# two of equal content that is no JSON: the importer has no rules by it, and the walk goes on past the package
browser |  | /w/a.js; /w/node_modules/q/index.js; /w/package.json {; /w/node_modules/q/package.json { | /w/a.js q = nothing q |  | /w/q.js /w/q /w/q.ts /w/q.tsx /w/q.jsx /w/q.node /w/q/index.ts /w/q/index.tsx /w/q/index.js /w/q/index.jsx /w/q/index.node /w/package.json read:/w/package.json /w/a.js dir:/w/node_modules /w/node_modules/q.js /w/node_modules/q /w/node_modules/q.ts /w/node_modules/q.tsx /w/node_modules/q.jsx /w/node_modules/q.node /w/node_modules/q/package.json read:/w/node_modules/q/package.json dir:/node_modules
# calls that take readings share them too
browser |  | /w/a.js; /w/lib.js; /w/b.js; /p/lib.js; /p/b.js; /w/package.json {"main": "lib.js", "browser": {"./lib.js": "./b.js"}}; /p/package.json {"main": "lib.js", "browser": {"./lib.js": "./b.js"}} | with_readings: /p ./lib.js = target p, rewritten /p/b.js, /w/b.js | /w/b.js | /w/package.json read:/w/package.json /w/lib.js /w/b.js /p/package.json read:/p/package.json /p/lib.js /p/b.js /w/a.js canon:/w/b.js"#
}

#[test]
fn each_root_has_its_own_rules(rt: HostRuntime) -> Result<(), Fail> {
    rows_come(&rt, rt.alloc(), requests())
}
