// Requests under Node's conventions, each answered by Node 20 itself: `createRequire(IMPORTER).resolve(SPECIFIER)` over
// the files of its tree. A row tells the file that Node found, a builtin module by its name with the scheme, that nothing
// is found, or that a package.json is malformed.
use crate::rows::tree_of;
use indexmap::IndexMap;
use std::alloc::Global;
use std::process::Abort;
use std::test::Fail;
use sugar_path::{Text, is_clean};
use swc_loader::{Conventions, FileName, NodeModulesResolver, NodeRefusal, Resolution, TargetEnv};
use tree_core::{Recorder, ResolveError};

// The files of a tree, by its name.
fn files_of(name: &str) -> &'static str {
    match name {
        "plain" => {
            r#"/w/main.js;
/w/a.js;
/w/b.json;
/w/c.node;
/w/d.ts;
/w/d;
/w/e/index.json;
/w/e.js/index.js;
/w/f/index.js;
/w/f.js;
/w/g/index.ts;
/w/h.js.js;
/w/i/x.js;
/w/i.json/y.js;
/w/.k.js"#
        }
        "entries" => {
            r#"/w/main.js;
/w/p/package.json {"module": "m.js", "main": "n.js"};
/w/p/m.js;
/w/p/n.js;
/w/q/package.json {"main": ""};
/w/q/index.js;
/w/q.json;
/w/r/package.json {"main": "lib"};
/w/r/lib/index.node;
/w/r/index.js;
/w/s/package.json {"main": "gone"};
/w/s/index.js;
/w/t/package.json {"main": "gone"};
/w/t/x.js;
/w/u/package.json {"main": "./v"};
/w/u/v.json;
/w/x/package.json {"main": "lib"};
/w/x/lib/package.json {"main": "z.js"};
/w/x/lib/z.js;
/w/x/lib/index.js;
/w/y/package.json {"main": "", "name": "y"};
/w/y/y.js;
/w/node_modules/n/package.json {"main": ""};
/w/node_modules/n/index.js;
/w/node_modules/n.json/x.js"#
        }
        "lenient" => {
            r#"/w/main.js;
/w/p/package.json {"version": 1.5, "main": "n"};
/w/p/n.js;
/w/q/package.json {"main": 1};
/w/q/index.js;
/w/r/package.json {"main": ["x.js"]};
/w/r/x.js;
/w/r/index.json;
/w/s/package.json {"browser": 1, "main": "n"};
/w/s/n.js;
/w/t/package.json {"browser": {"./a": 1}, "main": "n"};
/w/t/n.js;
/w/u/package.json {"main": null};
/w/u/index.js;
/w/v/package.json {"module": 1, "main": "n"};
/w/v/n.js"#
        }
        "mark" => {
            r#"/w/main.js;
/w/p/package.json ~{"main": "n"};
/w/p/n.js;
/w/p/index.js;
/w/q/package.json ~{};
/w/q/index.js;
/w/node_modules/r/package.json ~{"main": "n"};
/w/node_modules/r/n.js;
/w/s/package.json ~;
/w/s/index.js"#
        }
        "malformed" => {
            r#"/w/main.js;
/w/node_modules/p/package.json {;
/w/node_modules/p/x.txt;
/node_modules/p/index.js;
/w/bad/package.json {"main": };
/w/bad/index.js;
/w/node_modules/q/package.json x;
/node_modules/q.js"#
        }
        "unfound" => {
            r#"/w/a/main.js;
/w/a/node_modules/p/package.json {"main": "gone"};
/w/node_modules/p/index.js;
/w/a/node_modules/q/x.js;
/w/node_modules/q/index.js;
/w/a/node_modules/r/package.json {"main": "gone"};
/w/a/node_modules/r/index.js;
/w/node_modules/r/index.js;
/w/a/node_modules/s/package.json {};
/w/node_modules/s.js;
/w/a/node_modules/t/package.json {"main": "gone"};
/w/a/node_modules/t.js"#
        }
        "modules" => {
            r#"/w/node_modules/main.js;
/w/node_modules/node_modules/p/index.js;
/node_modules/p.js;
/w/node_modules/q/main.js;
/w/node_modules/node_modules/r.js;
/w/node_modules/node_modules/main.js;
/w/node_modules/s.js;
/w/x_node_modules/main.js;
/w/x_node_modules/node_modules/t.js"#
        }
        "core" => {
            r#"/w/main.js;
/w/fs.js;
/w/node_modules/fs/index.js;
/w/node_modules/test.js;
/w/node_modules/sea/index.js;
/w/node_modules/node:nope/index.js;
/w/node_modules/wasi.js;
/w/node_modules/sqlite.js"#
        }
        "probe" => {
            r#"/w/src/main.js;
/w/lib.js;
/w/src/lib/index.js;
/w/src/node_modules/own/x.json;
/w/own/x.js;
/own/x.js"#
        }
        _ => "",
    }
}

// Rows of a tree's name, an importer, a specifier, and what Node came to.
fn requests() -> &'static str {
    r#"plain /w/main.js ./a = /w/a.js
plain /w/main.js ./a.js = /w/a.js
plain /w/main.js ./b = /w/b.json
plain /w/main.js ./b.json = /w/b.json
plain /w/main.js ./c = /w/c.node
plain /w/main.js ./d = /w/d
plain /w/main.js ./d.ts = /w/d.ts
plain /w/main.js ./e = /w/e/index.json
plain /w/main.js ./e/ = /w/e/index.json
plain /w/main.js ./e.js = /w/e.js/index.js
plain /w/main.js ./e.js/ = /w/e.js/index.js
plain /w/main.js ./f = /w/f.js
plain /w/main.js ./f/ = /w/f/index.js
plain /w/main.js ./f/. = /w/f/index.js
plain /w/main.js ./f/../f = /w/f.js
plain /w/main.js ./g = nothing
plain /w/main.js ./h = nothing
plain /w/main.js ./h.js = /w/h.js.js
plain /w/main.js ./i/x = /w/i/x.js
plain /w/main.js ./i = nothing
plain /w/main.js ./i.json = nothing
plain /w/main.js ./.k = /w/.k.js
plain /w/main.js . = nothing
plain /w/main.js ./ = nothing
plain /w/main.js /w/a = /w/a.js
plain /w/main.js /w/f/ = /w/f/index.js
plain /w/main.js ./main.js/ = nothing
plain /w/main.js ./a/ = nothing
plain /w/main.js ./a/. = nothing
plain /w/main.js ./f/.. = nothing
entries /w/main.js ./p = /w/p/n.js
entries /w/main.js ./p/ = /w/p/n.js
entries /w/main.js ./q = /w/q.json
entries /w/main.js ./q/ = /w/q/index.js
entries /w/main.js ./r = /w/r/lib/index.node
entries /w/main.js ./s = /w/s/index.js
entries /w/main.js ./t = nothing
entries /w/main.js ./u = /w/u/v.json
entries /w/main.js ./x = /w/x/lib/index.js
entries /w/main.js ./x/lib = /w/x/lib/z.js
entries /w/main.js ./y = nothing
entries /w/main.js n = /w/node_modules/n/index.js
entries /w/main.js n/ = /w/node_modules/n/index.js
entries /w/main.js ./p/m = /w/p/m.js
entries /w/main.js ./t/x = /w/t/x.js
lenient /w/main.js ./p = /w/p/n.js
lenient /w/main.js ./q = /w/q/index.js
lenient /w/main.js ./r = /w/r/index.json
lenient /w/main.js ./s = /w/s/n.js
lenient /w/main.js ./t = /w/t/n.js
lenient /w/main.js ./u = /w/u/index.js
lenient /w/main.js ./v = /w/v/n.js
mark /w/main.js ./p = /w/p/n.js
mark /w/main.js ./q = /w/q/index.js
mark /w/main.js r = /w/node_modules/r/n.js
mark /w/main.js ./s = malformed
malformed /w/main.js p = malformed
malformed /w/main.js ./bad = malformed
malformed /w/main.js q = malformed
unfound /w/a/main.js p = nothing
unfound /w/a/main.js q = /w/node_modules/q/index.js
unfound /w/a/main.js r = /w/a/node_modules/r/index.js
unfound /w/a/main.js s = /w/node_modules/s.js
unfound /w/a/main.js t = /w/a/node_modules/t.js
unfound /w/a/main.js p/ = nothing
modules /w/node_modules/main.js p = /node_modules/p.js
modules /w/node_modules/main.js r = nothing
modules /w/node_modules/main.js s = /w/node_modules/s.js
modules /w/node_modules/q/main.js p = /node_modules/p.js
modules /w/node_modules/q/main.js r = nothing
modules /w/node_modules/q/main.js s = /w/node_modules/s.js
modules /w/node_modules/node_modules/main.js p = /node_modules/p.js
modules /w/node_modules/node_modules/main.js r = nothing
modules /w/x_node_modules/main.js t = /w/x_node_modules/node_modules/t.js
core /w/main.js fs = custom node:fs
core /w/main.js fs/ = /w/node_modules/fs/index.js
core /w/main.js ./fs = /w/fs.js
core /w/main.js node:fs = custom node:fs
core /w/main.js node:test = custom node:test
core /w/main.js test = /w/node_modules/test.js
core /w/main.js node:sea = custom node:sea
core /w/main.js sea = /w/node_modules/sea/index.js
core /w/main.js node:nope = /w/node_modules/node:nope/index.js
core /w/main.js node:nope/ = /w/node_modules/node:nope/index.js
core /w/main.js wasi = custom node:wasi
core /w/main.js node:wasi = custom node:wasi
core /w/main.js inspector/promises = custom node:inspector/promises
core /w/main.js node:sqlite = nothing
core /w/main.js sqlite = /w/node_modules/sqlite.js
core /w/main.js node: = nothing
probe /w/src/main.js lib = nothing
probe /w/src/main.js own/x = /w/src/node_modules/own/x.json
probe /w/src/main.js ./lib = /w/src/lib/index.js
probe /w/src/main.js w/lib = nothing"#
}

// A resolver for Node, with its conventions.
fn resolver(alloc: Global) -> Result<NodeModulesResolver, Fail> {
    let cwd = Text::of(alloc, "/w")?;
    if !is_clean(cwd.as_str()) {
        return Err(Fail::from("a clean working folder"));
    }
    let resolver = NodeModulesResolver::new(cwd, TargetEnv::Node, IndexMap::new(alloc), false);
    Ok(resolver.with_conventions(Conventions::of_node()))
}

// What a request comes to, in the words of the rows.
fn told(alloc: Global, given: &str) -> Result<String, Fail> {
    let (name, request) = given.split_once(' ').ok_or("no tree")?;
    let (importer, specifier) = request.split_once(' ').ok_or("no request")?;
    let mut tree = tree_of(alloc, files_of(name))?;
    let mut recorder = Recorder::new(alloc, &mut tree);
    let base = FileName::Real(Text::of(alloc, importer)?);
    let came = resolver(alloc)?.node_order(alloc, &mut recorder, &base, specifier);
    told_of(alloc, &came)
}

fn told_of(
    alloc: Global,
    came: &Result<Resolution, ResolveError<NodeRefusal>>,
) -> Result<String, Fail> {
    let mut out = String::new(alloc);
    match came {
        Ok(resolution) => match (&resolution.filename, &resolution.found) {
            (_, Some(found)) => out.push_str(found.file.as_str())?,
            (FileName::Custom(name), None) => {
                out.push_str("custom ")?;
                out.push_str(name.as_str())?;
            }
            (_, None) => return Err(Fail::from("no answer")),
        },
        Err(ResolveError::Refused(NodeRefusal::NotFound { text: _ })) => out.push_str("nothing")?,
        Err(ResolveError::Refused(NodeRefusal::MalformedPackage { path: _ })) => {
            out.push_str("malformed")?;
        }
        Err(_) => return Err(Fail::from("another refusal")),
    }
    Ok(out)
}

fn requests_come(rt: &impl Abort, alloc: Global, rows: &str) -> Result<(), Fail> {
    for line in rows.lines() {
        let (given, wanted) = line.split_once(" = ").ok_or("no answer")?;
        let told = told(alloc, given)?;
        assert_eq!(rt; told.as_str(), wanted, "{given}");
    }
    Ok(())
}

#[test]
fn requests_come_to_what_node_says(rt: HostRuntime) -> Result<(), Fail> {
    requests_come(&rt, rt.alloc(), requests())
}
