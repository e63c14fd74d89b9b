// Searches and entries, worked out by hand from docs/ORDER.md.
use crate::calls::{tell_entries, tell_entry_of};
use crate::rows::rows_come;
use std::test::Fail;
use swc_loader::TargetEnv;

// Searches of a folder: what each comes to, and its questions in order.
fn folders() -> &'static str {
    r#"# its first index file
node |  | /p/index.jsx; /p/index.node | folder: /p = /p/index.jsx | /p/package.json /p/index.ts /p/index.tsx /p/index.js /p/index.jsx
node |  | /p/lib.js | folder: /p = nothing | /p/package.json /p/index.ts /p/index.tsx /p/index.js /p/index.jsx /p/index.node
# no entry
node |  | /p/package.json {}; /p/index.ts | folder: /p = /p/index.ts | /p/package.json read:/p/package.json /p/index.ts
node |  | /p/package.json {"main": "lib/a"}; /p/lib/a.ts; /p/index.ts | folder: /p = /p/lib/a.ts | /p/package.json read:/p/package.json /p/lib/a.js /p/lib/a /p/lib/a.ts
# an entry is searched without entry
node |  | /p/package.json {"main": "./q"}; /p/q/package.json {"main": "x.js"}; /p/q/x.js; /p/q/index.js | folder: /p = /p/q/index.js | /p/package.json read:/p/package.json /p/q.js /p/q /p/q.ts /p/q.tsx /p/q.jsx /p/q.node /p/q/index.ts /p/q/index.tsx /p/q/index.js
# the index files follow an entry that is nowhere
node |  | /p/package.json {"main": "a.mjs"}; /p/index.ts | folder: /p = /p/index.ts | /p/package.json read:/p/package.json /p/a.mjs /p/a.mjs.ts /p/a.mjs.tsx /p/a.mjs.js /p/a.mjs.jsx /p/a.mjs.node /p/a.mts /p/a.mjs/index.ts /p/a.mjs/index.tsx /p/a.mjs/index.js /p/a.mjs/index.jsx /p/a.mjs/index.node /p/index.ts
# an entry may lead anywhere
node |  | /p/package.json {"main": "../o.js"}; /o.js | folder: /p = /o.js | /p/package.json read:/p/package.json /o.js
node |  | /p/package.json {"main": "/q/o.js"}; /q/o.js | folder: /p = /q/o.js | /p/package.json read:/p/package.json /q/o.js
# an empty entry is the folder with a `/` behind it, and so is `.`
node |  | /p/package.json {"main": ""}; /p/index.tsx | folder: /p = /p/index.tsx | /p/package.json read:/p/package.json /p.js /p.ts /p.tsx /p.jsx /p.node /p/index.ts /p/index.tsx
node |  | /p/package.json {"main": "."}; /p.tsx | folder: /p = /p.tsx | /p/package.json read:/p/package.json /p.js /p.ts /p.tsx
# `..` has no file candidates
node |  | /p/package.json {"main": ".."}; /index.tsx | folder: /p = /index.tsx | /p/package.json read:/p/package.json /index.ts /index.tsx
# a malformed file ends the search
node |  | /p/package.json {"main": 1}; /p/index.ts | folder: /p = malformed /p/package.json | /p/package.json read:/p/package.json"#
}

#[test]
fn a_folder_is_searched_by_its_entry(rt: HostRuntime) -> Result<(), Fail> {
    rows_come(&rt, rt.alloc(), folders())
}

// Searches of the place of a text, likewise.
fn places() -> &'static str {
    r#"# files before the folder
node |  | /p.ts; /p/index.js | place: /p = /p.ts | /p.js /p /p.ts
node |  | /p/package.json {"module": "m"}; /p/m.js | place: /p = /p/m.js | /p.js /p /p.ts /p.tsx /p.jsx /p.node /p/package.json read:/p/package.json /p/m.js
node |  | /p.js; /p/index.ts | place: /p/a/.. = /p/index.ts | /p/package.json /p/index.ts
node |  | /package.json {"main": "p"}; /p | place: / = /p | /package.json read:/package.json /p.js /p
# file candidates, and the index files
node |  |  | place: /d/a = nothing | /d/a.js /d/a /d/a.ts /d/a.tsx /d/a.jsx /d/a.node /d/a/package.json /d/a/index.ts /d/a/index.tsx /d/a/index.js /d/a/index.jsx /d/a/index.node
node |  |  | place: /d/a.js = nothing | /d/a.js /d/a.js.ts /d/a.js.tsx /d/a.js.js /d/a.js.jsx /d/a.js.node /d/a.ts /d/a.tsx /d/a.js/package.json /d/a.js/index.ts /d/a.js/index.tsx /d/a.js/index.js /d/a.js/index.jsx /d/a.js/index.node
node |  |  | place: /d/a.jsx = nothing | /d/a.jsx /d/a.jsx.ts /d/a.jsx.tsx /d/a.jsx.js /d/a.jsx.jsx /d/a.jsx.node /d/a.ts /d/a.tsx /d/a.jsx/package.json /d/a.jsx/index.ts /d/a.jsx/index.tsx /d/a.jsx/index.js /d/a.jsx/index.jsx /d/a.jsx/index.node
node |  |  | place: /d/a.mjs = nothing | /d/a.mjs /d/a.mjs.ts /d/a.mjs.tsx /d/a.mjs.js /d/a.mjs.jsx /d/a.mjs.node /d/a.mts /d/a.mjs/package.json /d/a.mjs/index.ts /d/a.mjs/index.tsx /d/a.mjs/index.js /d/a.mjs/index.jsx /d/a.mjs/index.node
node |  |  | place: /d/a.cjs = nothing | /d/a.cjs /d/a.cjs.ts /d/a.cjs.tsx /d/a.cjs.js /d/a.cjs.jsx /d/a.cjs.node /d/a.cts /d/a.cjs/package.json /d/a.cjs/index.ts /d/a.cjs/index.tsx /d/a.cjs/index.js /d/a.cjs/index.jsx /d/a.cjs/index.node
node |  |  | place: /d/a.d.ts = nothing | /d/a.d.ts /d/a.d.ts.ts /d/a.d.ts.tsx /d/a.d.ts.js /d/a.d.ts.jsx /d/a.d.ts.node /d/a.d.ts/package.json /d/a.d.ts/index.ts /d/a.d.ts/index.tsx /d/a.d.ts/index.js /d/a.d.ts/index.jsx /d/a.d.ts/index.node
node |  |  | place: /d/.rc = nothing | /d/.rc.js /d/.rc /d/.rc.ts /d/.rc.tsx /d/.rc.jsx /d/.rc.node /d/.rc/package.json /d/.rc/index.ts /d/.rc/index.tsx /d/.rc/index.js /d/.rc/index.jsx /d/.rc/index.node
node |  |  | place: /d/a. = nothing | /d/a. /d/a..ts /d/a..tsx /d/a..js /d/a..jsx /d/a..node /d/a./package.json /d/a./index.ts /d/a./index.tsx /d/a./index.js /d/a./index.jsx /d/a./index.node
node |  |  | place: /d/a/ = nothing | /d/a.js /d/a.ts /d/a.tsx /d/a.jsx /d/a.node /d/a/package.json /d/a/index.ts /d/a/index.tsx /d/a/index.js /d/a/index.jsx /d/a/index.node
node |  |  | place: /d/a.js/. = nothing | /d/a.js.ts /d/a.js.tsx /d/a.js.js /d/a.js.jsx /d/a.js.node /d/a.ts /d/a.tsx /d/a.js/package.json /d/a.js/index.ts /d/a.js/index.tsx /d/a.js/index.js /d/a.js/index.jsx /d/a.js/index.node
node |  |  | place: /d/a/.. = nothing | /d/package.json /d/index.ts /d/index.tsx /d/index.js /d/index.jsx /d/index.node
node |  |  | place: / = nothing | /package.json /index.ts /index.tsx /index.js /index.jsx /index.node"#
}

#[test]
fn a_place_is_a_file_before_it_is_a_folder(rt: HostRuntime) -> Result<(), Fail> {
    rows_come(&rt, rt.alloc(), places())
}

// The entries that contents name, for a browser and for Node.
fn entries() -> &'static str {
    r#"# `module`, or else `main`
entry_of: {} = missing;missing;
entry_of: {"main": "c.js"} = at c.js;at c.js;
entry_of: {"main": "c.js", "module": "m.mjs"} = at m.mjs;at m.mjs;
entry_of: {"module": null, "main": "c.js"} = at c.js;at c.js;
entry_of: {"main": null} = missing;missing;
entry_of: {"main": "", "name": 1} = at ;at ;
entry_of: {"main": "\u006c.js"} = at l.js;at l.js;
entry_of: {"browser": null, "main": "c.js"} = at c.js;at c.js;
entry_of: {"browser": {}} = missing;missing;
entry_of: {"browser": {"./a": "./b", "fs": false}, "main": "c.js"} = at c.js;at c.js;
# a repeated key has its last value
entry_of: {"main": "c.js", "main": "d.js"} = at d.js;at d.js;
entry_of: {"main": 1, "main": "d.js"} = at d.js;at d.js;
entry_of: {"x": 1.5, "x": 1, "main": "c.js"} = at c.js;at c.js;
# only a browser takes the text of `browser`
entry_of: {"browser": "b.js"} = at b.js;missing;
entry_of: {"browser": "b.js", "main": "c.js"} = at b.js;at c.js;
entry_of: {"browser": "", "module": "m.mjs"} = at ;at m.mjs;
# what cannot be read is malformed
entry_of:  = malformed;malformed;
entry_of: { = malformed;malformed;
entry_of: main = malformed;malformed;
entry_of: null = malformed;malformed;
entry_of: [] = malformed;malformed;
entry_of: "c.js" = malformed;malformed;
entry_of: {} {} = malformed;malformed;
entry_of: {"main": 1} = malformed;malformed;
entry_of: {"main": false} = malformed;malformed;
entry_of: {"main": ["c.js"]} = malformed;malformed;
entry_of: {"main": {}, "module": "m.mjs"} = malformed;malformed;
entry_of: {"module": 1, "main": "c.js"} = malformed;malformed;
entry_of: {"main": "c.js", "main": 1} = malformed;malformed;
entry_of: {"browser": 1} = malformed;malformed;
entry_of: {"browser": true} = malformed;malformed;
entry_of: {"browser": ["b.js"]} = malformed;malformed;
entry_of: {"browser": {"a": 1}} = malformed;malformed;
entry_of: {"browser": {"a": null}} = malformed;malformed;
entry_of: {"browser": "b.js", "main": 1} = malformed;malformed;
entry_of: {"main": "c.js", "version": 1.5} = malformed;malformed;
entry_of: {"main": "c.js", "a": [{"b": 1e2}]} = malformed;malformed;"#
}

#[test]
fn an_entry_is_the_text_of_a_field(rt: HostRuntime) -> Result<(), Fail> {
    rows_come(&rt, rt.alloc(), entries())
}

// Bytes that no row can hold, and a file that can't be read.
#[test]
fn what_is_no_text_is_malformed(rt: HostRuntime) -> Result<(), Fail> {
    let alloc = rt.alloc();
    let mut told = String::new(alloc);
    tell_entries(alloc, &mut told, b"{\"main\": \"\xff\"}")?;
    tell_entries(alloc, &mut told, b"\xef\xbb\xbf{}")?;
    tell_entry_of(alloc, &mut told, TargetEnv::Node, None)?;
    assert_eq!(rt;
        told.as_str(),
        "malformed;malformed;malformed;malformed;malformed;"
    );
    Ok(())
}
