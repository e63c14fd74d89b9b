// What is told of refused documents, by tables: a row has the format by a command's name, the document, and each line
// that is told of it, with ` => ` before the first and ` & ` between them.
use document_faults::{Format, told_of};
use std::alloc::Global;
use std::test::Fail;

pub(crate) fn fields() -> &'static str {
    r##"resolve [] => the document: an object, not a list
resolve 7 => the document: an object, not 7
resolve {} => the document: no field "cwd"
resolve {"cwdd":"/w"} => the document: no field "cwd" ("cwdd" is there: a slip?)
resolve {"cwd":5} => cwd: a text, not 5
resolve {"cwd":"/w","target":"nod"} => target: "node" or "browser", not "nod"
resolve {"cwd":"/w","node_modules":"yes"} => node_modules: true or false, not "yes"
resolve {"cwd":"/w","preserve_symlinks":null} => preserve_symlinks: true or false, not null
resolve {"cwd":"/w","alias":[]} => alias: an object of texts, not a list
resolve {"cwd":"/w","alias":{"@a/b":1}} => alias["@a/b"]: a text, not 1
resolve {"cwd":"/w","ts":[]} => ts: an object, or null, not a list
resolve {"cwd":"/w","ts":{"baseUrl":"/w"}} => ts: no field "base_url" ("baseUrl" is there: a slip?)
resolve {"cwd":"/w","ts":{"base_url":"/w","paths":{"a":["b"]}}} => ts.paths: a list of [pattern, [targets]], not an object
resolve {"cwd":"/w","ts":{"base_url":"/w","paths":[["a"]]}} => ts.paths[0]: a list [pattern, [targets]] of two, not of 1
resolve {"cwd":"/w","ts":{"base_url":"/w","paths":[["a",["b"]],[2,["b"]]]}} => ts.paths[1][0]: a text, not 2
resolve {"cwd":"/w","ts":{"base_url":"/w","paths":[["a","b"]]}} => ts.paths[0][1]: a list of texts, the targets, not "b"
resolve {"cwd":"/w","ts":{"base_url":"/w","paths":[["a",["b",{}]]]}} => ts.paths[0][1][1]: a text, not an object
resolve {"cwd":"/w","ts":{"base_url":"/w","paths":[],"version":3}} => ts.version: 1 or 2, not 3
resolve {"cwd":"/w","lock":false} => lock: the text of a lock file, or null, not false
resolve {"cwd":"/w","conditions":"node"} => conditions: a list of texts, or null, not "node"
resolve {"cwd":"/w","conditions":["node",1]} => conditions[1]: a text, not 1
resolve {"cwd":"/w"} => the document: no field "files"
resolve {"cwd":"/w","files":{}} => files: a list of files, not an object
resolve {"cwd":"/w","files":["/w/a.js"]} => files[0]: an object, not "/w/a.js"
resolve {"cwd":"/w","files":[{"path":"/w/a.js"}]} => files[0]: no field "text"
resolve {"cwd":"/w","files":[{"path":"/w/a.js","txt":""}]} => files[0]: no field "text" ("txt" is there: a slip?)
resolve {"cwd":"/w","files":[{"path":"/w/a.js","text":"","hex":""}]} => files[0]: one of the fields "text" and "hex", not both
resolve {"cwd":"/w","files":[{"path":"/w/a.js","text":null}]} => files[0].text: a text, not null
resolve {"cwd":"/w","files":[{"path":"/w/a.js","hex":"0A"}]} => files[0].hex: digits of hex in lower case, two for each byte, not "0A"
resolve {"cwd":"/w","files":[{"path":"/w/a.js","hex":"0"}]} => files[0].hex: digits of hex in lower case, two for each byte, not "0"
resolve {"cwd":"/w","files":[{"path":"/w/a.js","text":"","canonical":1}]} => files[0].canonical: a text, not 1
resolve {"cwd":"/w","files":[],"requests":0} => requests: a list of requests, not 0
resolve {"cwd":"/w","files":[],"requests":[{"from":null,"specifer":"a"}]} => requests[0]: no field "specifier" ("specifer" is there: a slip?)
resolve {"cwd":"/w","files":[],"requests":[{"specifier":"a"}]} => requests[0]: no field "from"
resolve {"cwd":"/w","files":[],"requests":[{"from":1,"specifier":"a"}]} => requests[0].from: a path's text, {"custom": text}, or null, not 1
resolve {"cwd":"/w","files":[],"requests":[{"from":{"name":"a"},"specifier":"a"}]} => requests[0].from: no field "custom" & requests[0].from: the field "name" isn't known
resolve {"cwd":"/w","files":[],"requests":[{"from":null,"specifier":["a"]}]} => requests[0].specifier: a text, not a list
bundle {"cwd":"/w","files":[]} => the document: no field "requests"
session {"cwd":"/w","files":[]} => the document: no field "capacity"
session {"cwd":"/w","files":[],"capacity":0} => capacity: a number from 1 to 65,536, not 0
session {"cwd":"/w","files":[],"capacity":65537} => capacity: a number from 1 to 65,536, not 65537
session {"cwd":"/w","files":[],"capacity":1.5} => capacity: a number from 1 to 65,536, not 1.5
session {"cwd":"/w","files":[],"capacity":1,"steps":null} => steps: a list of steps, not null
session {"cwd":"/w","files":[],"capacity":1,"steps":["ask"]} => steps[0]: an object, not "ask"
session {"cwd":"/w","files":[],"capacity":1,"steps":[{}]} => steps[0]: exactly one of the fields "ask", "put", "remove"
session {"cwd":"/w","files":[],"capacity":1,"steps":[{"put":1,"remove":"a"}]} => steps[0]: exactly one of the fields "ask", "put", "remove"
session {"cwd":"/w","files":[],"capacity":1,"steps":[{"ask":{"from":null}}]} => steps[0].ask: no field "specifier"
session {"cwd":"/w","files":[],"capacity":1,"steps":[{"put":{"path":"/w/a"}}]} => steps[0].put: no field "text"
session {"cwd":"/w","files":[],"capacity":1,"steps":[{"remove":null}]} => steps[0].remove: a text, not null
session {"cwd":"/w","files":[],"capacity":1,"steps":[{"graph":null}]} => steps[0]: exactly one of the fields "ask", "put", "remove" & steps[0]: the field "graph" isn't known
graph {"cwd":"/w","files":[]} => the document: no field "entries"
graph {"cwd":"/w","files":[],"entries":"/w/a.js"} => entries: a list of clean absolute paths, not "/w/a.js"
graph {"cwd":"/w","files":[],"entries":["/w/a.js","b.js"]} => entries[1]: a clean absolute path other than "/", not "b.js"
graph {"cwd":"/w","files":[],"entries":[1]} => entries[0]: a text, not 1
graph {"cwd":"/w","files":[],"entries":[]} => the document: no field "capacity"
graph {"cwd":"/w","files":[],"entries":[],"capacity":1} => the document: no field "steps"
graph {"cwd":"/w","files":[],"entries":[],"capacity":1,"steps":[{"graph":true}]} => steps[0].graph: null, not true
graph {"cwd":"/w","files":[],"entries":[],"capacity":1,"steps":[{"ask":1}]} => steps[0]: exactly one of the fields "graph", "put", "remove" & steps[0]: the field "ask" isn't known
graph {"cwd":"/w","files":[],"entries":[],"capacity":1,"steps":[],"scanner":"js"} => scanner: "lines" or "es", not "js"
audit {"cwd":"/w","files":[]} => the document: no field "manifest"
audit {"cwd":"/w","files":[],"manifest":"/"} => manifest: a clean absolute path other than "/", not "/"
audit {"cwd":"/w","files":[],"manifest":"/w/.pnp.cjs"} => the document: an audit needs the field "lock", the text of a lock file
replay {"cwd":"/w"} => the document: no field "bundle"
replay {"cwd":"/w","bundle":[]} => bundle: a text, not a list"##
}

pub(crate) fn projects() -> &'static str {
    r##"resolve {"cwd":"w","files":[],"requests":[]} => cwd: a clean absolute path, not "w"
resolve {"cwd":"/w/","files":[],"requests":[]} => cwd: a clean absolute path, not "/w/"
resolve {"cwd":"/w","ts":{"base_url":".","paths":[]},"files":[],"requests":[]} => ts.base_url: a clean absolute path, not "."
resolve {"cwd":"/w","ts":{"base_url":"/w","paths":[["a*",["b"]],["c",[]]]},"files":[],"requests":[]} => ts.paths[1]: the pattern "c" has no target
resolve {"cwd":"/w","ts":{"base_url":"/w","paths":[["a*b*",["b"]]]},"files":[],"requests":[]} => ts.paths[0]: the pattern "a*b*" holds 2 times "*", and at most one may stand there
resolve {"cwd":"/w","ts":{"base_url":"/w","paths":[["a",["b","c"]]]},"files":[],"requests":[]} => ts.paths[0]: the pattern "a" holds no "*", and has 2 targets in place of one
resolve {"cwd":"/w","lock":"x","files":[],"requests":[]} => lock, line 1: a lock file begins with two whole lines of comments
resolve {"cwd":"/w","lock":"# a\n# b\nfoo:\n","files":[],"requests":[]} => lock, line 3: "# yarn lockfile v1" should stand in the second line, or here "__metadata:" and its version
resolve {"cwd":"/w","lock":"# a\n# yarn lockfile v1\n\n\na@1:\n  version \"1.0.0\"\n\nb\n","files":[],"requests":[]} => lock, line 8: an entry should begin here, as name@range and a colon
resolve {"cwd":"/w","lock":"# a\n# yarn lockfile v1\n\n\na@1:\n  resolved \"b\"\n","files":[],"requests":[]} => lock, line 5: this entry should have a version
resolve {"cwd":"/w","lock":"# a\n# yarn lockfile v1\n\n\na@1:\n","files":[],"requests":[]} => lock, line 5: behind the first line of this entry its items should stand, as its version
resolve {"cwd":"/w","lock":"# a\n# yarn lockfile v1\n\n\na@1:\n  version \"1.0.0\"\n ","files":[],"requests":[]} => lock, line 5: the last line of this entry has no end, and should not end in a blank
resolve {"cwd":"/w","lock":"# a\n# yarn lockfile v1\n\n\na@1:\n  version \"1.0.0\"\n  dependenciesMeta:\n    b:\n      optional: maybe\n","files":[],"requests":[]} => lock, line 5: "optional" should be true or false in this entry
resolve {"cwd":"/w","files":[{"path":"a.js","text":""}],"requests":[]} => files[0].path: a clean absolute path other than "/", not "a.js"
resolve {"cwd":"/w","files":[{"path":"/a.js","text":"","canonical":"/b/../a.js"}],"requests":[]} => files[0].canonical: a clean absolute path other than "/", not "/b/../a.js"
resolve {"cwd":"/w","files":[{"path":"/a","text":""},{"path":"/a/b","text":""}],"requests":[]} => files[1].path: a path neither above nor below that of another file, "/a", not "/a/b""##
}

fn unknown() -> &'static str {
    r##"resolve {"cwd":"w","Target":"node","x":1,"files":[],"requests":[]} => cwd: a clean absolute path, not "w" & the document: the field "Target" isn't known; is "target" meant? & the document: the field "x" isn't known
resolve {"cwd":"w","ts":{"base_url":"/w","paths":[],"path":[]},"files":[{"path":"/a","text":"","realpath":"/b"}],"requests":[{"from":null,"specifier":"a","kind":"import"}]} => cwd: a clean absolute path, not "w" & ts: the field "path" isn't known; is "paths" meant? & files[0]: the field "realpath" isn't known & requests[0]: the field "kind" isn't known
session {"cwd":"w","files":[],"capacity":1,"steps":[{"put":{"path":"/a","text":"","mode":1}},{"ask":{"from":{"custom":"a","b":1},"specifier":"a"},"trail":true}]} => cwd: a clean absolute path, not "w" & steps[0].put: the field "mode" isn't known & steps[1]: the field "trail" isn't known & steps[1].ask.from: the field "b" isn't known
replay {"cwd":"w","bundle":"","files":[]} => cwd: a clean absolute path, not "w" & the document: the field "files" isn't known
resolve {"a":1,"b":1,"c":1,"d":1,"e":1,"f":1,"g":1,"h":1,"i":1} => the document: no field "cwd" & the document: the field "a" isn't known & the document: the field "b" isn't known & the document: the field "c" isn't known & the document: the field "d" isn't known & the document: the field "e" isn't known & the document: the field "f" isn't known & the document: the field "g" isn't known & the document: the field "h" isn't known
replay {"cwd":"/w","bundle":""} => "##
}

// Documents with each field that docs/FORMATS.md has: nothing is told of them.
fn whole() -> &'static str {
    r##"resolve {"cwd":"/w","target":"node","preserve_symlinks":false,"node_modules":true,"alias":{"a":"b"},"ts":{"base_url":"/w","paths":[["a*",["b*"]]],"version":2},"lock":null,"conditions":["node"],"files":[{"path":"/w/a.js","text":"x"},{"path":"/w/b.js","hex":"0aff","canonical":"/w/c.js"}],"requests":[{"from":"/w/a.js","specifier":"./b"},{"from":{"custom":"x"},"specifier":"b"},{"from":null,"specifier":"b"}]} => 
bundle {"cwd":"/w","target":"node","preserve_symlinks":false,"node_modules":true,"alias":{"a":"b"},"ts":{"base_url":"/w","paths":[["a*",["b*"]]],"version":2},"lock":null,"conditions":["node"],"files":[{"path":"/w/a.js","text":"x"},{"path":"/w/b.js","hex":"0aff","canonical":"/w/c.js"}],"requests":[{"from":"/w/a.js","specifier":"./b"},{"from":{"custom":"x"},"specifier":"b"},{"from":null,"specifier":"b"}]} => 
session {"cwd":"/w","target":"node","preserve_symlinks":false,"node_modules":true,"alias":{"a":"b"},"ts":{"base_url":"/w","paths":[["a*",["b*"]]],"version":2},"lock":null,"conditions":["node"],"files":[{"path":"/w/a.js","text":"x"},{"path":"/w/b.js","hex":"0aff","canonical":"/w/c.js"}],"capacity":3,"steps":[{"ask":{"from":{"custom":"x"},"specifier":"b"}},{"put":{"path":"/w/d.js","text":"","canonical":"/w/d.js"}},{"remove":"/w/d.js"}]} => 
graph {"cwd":"/w","target":"node","preserve_symlinks":false,"node_modules":true,"alias":{"a":"b"},"ts":{"base_url":"/w","paths":[["a*",["b*"]]],"version":2},"lock":null,"conditions":["node"],"files":[{"path":"/w/a.js","text":"x"},{"path":"/w/b.js","hex":"0aff","canonical":"/w/c.js"}],"entries":["/w/a.js"],"capacity":3,"steps":[{"graph":null},{"put":{"path":"/w/d.js","text":"","canonical":"/w/d.js"}},{"remove":"/w/d.js"}],"scanner":"es"} => 
audit {"cwd":"/w","target":"node","preserve_symlinks":false,"node_modules":true,"alias":{"a":"b"},"ts":{"base_url":"/w","paths":[["a*",["b*"]]],"version":2},"lock":"# a\n# yarn lockfile v1\n\n\na@1:\n  version \"1.0.0\"\n","conditions":["node"],"files":[{"path":"/w/a.js","text":"x"},{"path":"/w/b.js","hex":"0aff","canonical":"/w/c.js"}],"manifest":"/w/.pnp.cjs"} => 
replay {"cwd":"/w","target":"node","preserve_symlinks":false,"node_modules":true,"alias":{"a":"b"},"ts":{"base_url":"/w","paths":[["a*",["b*"]]],"version":2},"lock":null,"conditions":["node"],"bundle":""} => "##
}

fn texts() -> &'static str {
    r##"resolve  => no JSON: EOF while parsing at line 1 column 0
resolve {"cwd": => no JSON: EOF while parsing at line 1 column 7
resolve {"cwd":"/w",} => no JSON: invalid JSON at line 1 column 13
resolve {"cwd":"/w"} x => no JSON: invalid JSON at line 1 column 14"##
}

// The lines that a row expects.
pub(crate) fn lines_in(row: &str) -> &str {
    match row.split_once(" => ") {
        Some((_, lines)) => lines,
        None => "",
    }
}

// What is told of the document of a row, with ` & ` between lines.
fn told_in(alloc: Global, row: &str) -> Result<String, Fail> {
    let (given, _) = row.split_once(" => ").ok_or("a row without lines")?;
    let (command, document) = given.split_once(' ').ok_or("a row without a document")?;
    let format = Format::read_by(command).ok_or("no command")?;
    let told = told_of(alloc, format, document.as_bytes())?;
    let told = told.replace(alloc, "\n", " & ")?;
    Ok(String::from_str(alloc, told.strip_suffix(" & ").unwrap_or(told.as_str()))?)
}

#[test]
fn fields_are_told(rt: HostRuntime) -> Result<(), Fail> {
    for row in fields().lines() {
        assert_eq!(rt; told_in(rt.alloc(), row)?.as_str(), lines_in(row));
    }
    Ok(())
}

#[test]
fn projects_and_trees_are_told(rt: HostRuntime) -> Result<(), Fail> {
    for row in projects().lines() {
        assert_eq!(rt; told_in(rt.alloc(), row)?.as_str(), lines_in(row));
    }
    Ok(())
}

#[test]
fn unknown_fields_are_told(rt: HostRuntime) -> Result<(), Fail> {
    for row in unknown().lines() {
        assert_eq!(rt; told_in(rt.alloc(), row)?.as_str(), lines_in(row));
    }
    Ok(())
}

#[test]
fn each_field_is_known(rt: HostRuntime) -> Result<(), Fail> {
    for row in whole().lines() {
        assert_eq!(rt; told_in(rt.alloc(), row)?.as_str(), "", "{row}");
    }
    Ok(())
}

// A field that the table of a format has is one that is read, or known behind others.
#[test]
fn each_format_has_its_fields(rt: HostRuntime) -> Result<(), Fail> {
    for row in whole().lines() {
        let (command, document) = row.split_once(' ').ok_or("no document")?;
        let format = Format::read_by(command).ok_or("no command")?;
        for field in format.fields() {
            let key = format!(in rt.alloc(); "\"{field}\":")?;
            assert!(rt; document.contains(key.as_str()), "{command} {field}");
        }
    }
    Ok(())
}

#[test]
fn texts_that_are_no_json_are_told(rt: HostRuntime) -> Result<(), Fail> {
    for row in texts().lines() {
        assert_eq!(rt; told_in(rt.alloc(), row)?.as_str(), lines_in(row));
    }
    Ok(())
}

// Bytes that aren't a line of a table: line ends, no UTF-8, many levels.
#[test]
fn places_count_lines_and_bytes(rt: HostRuntime) -> Result<(), Fail> {
    let alloc = rt.alloc();
    let told = told_of(alloc, Format::Requests, b"{\n  \"cwd\": /w\n}")?;
    assert_eq!(rt;
        told.as_str(),
        "no JSON: invalid JSON at line 2 column 10\n"
    );
    let told = told_of(alloc, Format::Requests, b"{\n\"a\": \"\xff\"}")?;
    assert_eq!(rt; told.as_str(), "no UTF-8 at line 2 column 7\n");
    Ok(())
}

#[test]
fn many_levels_are_no_json(rt: HostRuntime) -> Result<(), Fail> {
    let alloc = rt.alloc();
    let lists = "[".repeat(alloc, 128)?;
    let told = told_of(alloc, Format::Requests, lists.as_bytes())?;
    assert_eq!(rt;
        told.as_str(),
        "no JSON: more than 127 levels at line 1 column 128\n"
    );
    let objects = "{\"[\\\"[\":\n".repeat(alloc, 128)?;
    let told = told_of(alloc, Format::Requests, objects.as_bytes())?;
    assert_eq!(rt;
        told.as_str(),
        "no JSON: more than 127 levels at line 128 column 1\n"
    );
    Ok(())
}

#[test]
fn long_texts_are_told_by_their_length(rt: HostRuntime) -> Result<(), Fail> {
    let alloc = rt.alloc();
    let long = "x".repeat(alloc, 100)?;
    let document = format!(in alloc; "{{\"cwd\":\"/w\",\"target\":\"{long}\"}}")?;
    let told = told_of(alloc, Format::Requests, document.as_bytes())?;
    assert_eq!(rt;
        told.as_str(),
        "target: \"node\" or \"browser\", not a text of 100 bytes\n"
    );
    Ok(())
}
