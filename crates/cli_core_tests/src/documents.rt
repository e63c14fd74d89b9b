// The bare name from an owned file, and what each cause and each fault comes to.
use cli_core::{BytesSink, BytesSource, PlainSink, PlainSource, Sink, Source, SourceFault, run};
use std::alloc::{AllocError, Global};
use std::test::Fail;
use sugar_path::{Bytes, List};
use tree_core::MemoryTree;

// A file that its manifest's top-level package owns imports a package by its bare name.
pub(crate) fn bare_name() -> &'static str {
    r#"{"cwd": "/w", "target": "node", "files": [{"path": "/w/a.js", "text": ""}, {"path": "/w/.pnp.cjs", "text": "const RAW_RUNTIME_STATE =\n'{\"dependencyTreeRoots\":[{\"name\":\"app\",\"reference\":\"workspace:.\"}],\"enableTopLevelFallback\":true,\"ignorePatternData\":null,\"fallbackExclusionList\":[[\"app\",[\"workspace:.\"]]],\"fallbackPool\":[],\"packageRegistryData\":[[null,[[null,{\"packageLocation\":\"./\",\"packageDependencies\":[[\"foo\",\"npm:1.0.0\"]]}]]],[\"app\",[[\"workspace:.\",{\"packageLocation\":\"./\",\"packageDependencies\":[[\"foo\",\"npm:1.0.0\"]]}]]],[\"foo\",[[\"npm:1.0.0\",{\"packageLocation\":\"./.yarn/foo/\",\"packageDependencies\":[[\"foo\",\"npm:1.0.0\"]]}]]]]}';\n"}, {"path": "/w/.yarn/foo/index.js", "hex": ""}], "requests": [{"from": "/w/a.js", "specifier": "foo"}]}"#
}

fn its_line() -> &'static str {
    r#"{"answer":{"real":"/w/.yarn/foo/index.js"},"found":{"file":"/w/.yarn/foo/index.js","via":{"location":"/w/.yarn/foo","name":"foo","reference":"npm:1.0.0"}},"slug":null}
"#
}

// Documents, and what is written for each.
fn documents() -> &'static str {
    r##"|refused: not-json
{"cwd":"/w"}x|refused: not-json
[]|refused: bad-field cwd
{"cwd":"/w","target":"deno","preserve_symlinks":1}|refused: bad-field target
{"cwd":"/w","target":null}|refused: bad-field target
{"cwd":"/w","preserve_symlinks":"true","node_modules":0}|refused: bad-field preserve_symlinks
{"cwd":"/w","preserve_symlinks":null}|refused: bad-field preserve_symlinks
{"cwd":"/w","node_modules":1,"alias":[]}|refused: bad-field node_modules
{"cwd":"/w","node_modules":null}|refused: bad-field node_modules
{"cwd":"/w","alias":{"a":"b","c":1},"files":1}|refused: bad-field alias
{"cwd":"/w","alias":null}|refused: bad-field alias
{"cwd":"/w","alias":{"a":"b"},"files":null,"requests":null}|refused: bad-field files
{"cwd":"/w","target":"node"}|refused: bad-field files
{"cwd":"/w","files":[{"path":"/w/a","hex":"0A"}],"requests":[]}|refused: bad-field files
{"cwd":"/w","files":[{"path":"/w/a","text":"","hex":""}],"requests":[]}|refused: bad-field files
{"cwd":"/w","files":[],"requests":[{"specifier":"a"}]}|refused: bad-field requests
{"cwd":"/w","ts":{},"files":null,"requests":[]}|refused: bad-field ts
{"cwd":"/w","ts":{"base_url":"/w"},"files":[],"requests":[]}|refused: bad-field ts
{"cwd":"/w","ts":{"base_url":"/w","paths":[["a"]]},"files":[],"requests":[]}|refused: bad-field ts
{"cwd":"/w","ts":{"base_url":"/w","paths":[["a",["b",1]]]},"files":[],"requests":[]}|refused: bad-field ts
{"cwd":"/w","ts":{"base_url":"w","paths":[["a",[]]]},"files":[],"requests":[]}|refused: bad-project SettingsFault base_url
{"cwd":"w","ts":{"base_url":"w","paths":[]},"files":[],"requests":[]}|refused: bad-project SettingsFault cwd
{"cwd":"/w","ts":{"base_url":"/w","paths":[["a",["b"]],["b",[]],["*/*",["c"]]]},"files":[],"requests":[]}|refused: bad-project EmptyTargets 1
{"cwd":"/w","ts":{"base_url":"/w","paths":[["*/*",["c"]]]},"files":[],"requests":[]}|refused: bad-project TwoWildcards 0
{"cwd":"/w","ts":{"base_url":"/w","paths":[["a",["b","c"]]]},"files":[],"requests":[]}|refused: bad-project ExactNeedsOne 0
{"cwd":"/w","target":"browser","files":[],"requests":[]}|
{"cwd":"/w","target":"node","ts":{"base_url":"/w","paths":[]},"files":[],"requests":[]}|
{"cwd":"/w","target":"node","ts":{},"lock":"","files":[],"requests":[]}|refused: bad-field ts
{"cwd":"/w","target":"node","lock":1,"files":1,"requests":[]}|refused: bad-field lock
{"cwd":"/w","target":"node","lock":["# a"],"files":[{"path":"a","text":""}],"requests":[]}|refused: bad-field lock
{"cwd":"/w","target":"node","lock":null,"conditions":"x","files":1,"requests":[]}|refused: bad-field conditions
{"cwd":"/w","target":"node","conditions":["import",1],"files":[],"requests":[]}|refused: bad-field conditions
{"cwd":"/w","target":"node","lock":1,"conditions":1,"files":[],"requests":[]}|refused: bad-field lock
{"cwd":"/w","target":"node","lock":"","files":[],"requests":[]}|refused: bad-project LockParser
{"cwd":"/w","target":"node","lock":"","files":[{"path":"a","text":""}],"requests":[]}|refused: bad-tree "a"
{"cwd":"/w","ts":{"base_url":"/w","paths":[["*/*",["c"]]]},"lock":"# a","files":[],"requests":[]}|refused: bad-project TwoWildcards 0
{"cwd":"/w","ts":{"base_url":"/w","paths":[]},"lock":"# a\n# b\n","files":[],"requests":[]}|refused: bad-project LockParser
{"cwd":"/w","lock":"# a\n# yarn lockfile v1\n\n","files":[],"requests":[]}|
{"cwd":"w","target":"node","files":[{"path":"a","text":""}],"requests":[]}|refused: bad-tree "a"
{"cwd":"w","target":"node","files":[{"path":"/a","text":"","canonical":"/"}],"requests":[]}|refused: bad-tree "/a"
{"cwd":"w","target":"node","files":[{"path":"/a/b","text":""},{"path":"/a","text":""}],"requests":[]}|refused: bad-tree "/a" "/a/b"
{"cwd":"w","target":"node","files":[{"path":"/a","text":""}],"requests":[]}|refused: bad-project SettingsFault cwd
{"cwd":"/w","target":"node","preserve_symlinks":true,"node_modules":false,"alias":{"a":"b"},"ts":null,"lock":null,"conditions":null,"files":[],"requests":[]}|
{"cwd":"/w","target":"node","files":[{"path":"/a","text":""},{"path":"/a","hex":"0a"}],"requests":[]}|
{"cwd":"/w","preserve_symlinks":true,"files":[{"path":"/w/node_modules/q/package.json","text":"{\"main\":\"m.js\",\"browser\":\"b.js\"}"},{"path":"/w/node_modules/q/m.js","text":""},{"path":"/w/node_modules/q/b.js","text":""}],"requests":[{"from":"q","specifier":"q"}]}|{"answer":{"real":"node_modules/q/b.js"},"found":{"file":"/w/node_modules/q/b.js","via":null},"slug":null}
{"cwd":"/w","target":"browser","files":[{"path":"/w/package.json","text":"{\"browser\":{\"fs\":false}}"}],"requests":[{"from":"/w/a.js","specifier":"fs"}]}|{"answer":{"custom":"fs"},"found":null,"slug":null}
{"cwd":"/w","target":"browser","files":[{"path":"/w/a.js","text":""},{"path":"/w/package.json","text":"{\"browser\":{\"./b.js\":\"./gone.js\"}}"},{"path":"/w/b.js","text":""}],"requests":[{"from":"/w/a.js","specifier":"./b.js"}]}|{"answer":{"real":"/w/b.js"},"found":{"file":"/w/b.js","via":null},"slug":null}
{"cwd":"/w","files":[{"path":"/w/.pnp.cjs","text":"hydrateRuntimeState(JSON.parse('{\"dependencyTreeRoots\":[],\"enableTopLevelFallback\":false,\"fallbackExclusionList\":[],\"fallbackPool\":[],\"packageRegistryData\":[[null,[[null,{\"packageLocation\":\"./\",\"packageDependencies\":[[\"q\",\"1\"]]}]]],[\"q\",[[\"1\",{\"packageLocation\":\"./q/\",\"packageDependencies\":[]}]]]]}'"},{"path":"/w/q/index.js","text":""},{"path":"/w/q/package.json","text":"{\"browser\":{\"./index.js\":\"../b.js\"}}"},{"path":"/w/b.js","text":""}],"requests":[{"from":"/w/a.js","specifier":"q"}]}|{"refused":{"file":"/w/b.js","kind":"Outside","location":"/w/q"}}
{"cwd":"/w","preserve_symlinks":true,"files":[{"path":"/w/.pnp.cjs","text":"hydrateRuntimeState(JSON.parse('{\"dependencyTreeRoots\":[],\"enableTopLevelFallback\":false,\"fallbackExclusionList\":[],\"fallbackPool\":[],\"packageRegistryData\":[[null,[[null,{\"packageLocation\":\"./\",\"packageDependencies\":[[\"q\",\"1\"]]}]]],[\"q\",[[\"1\",{\"packageLocation\":\"./q/\",\"packageDependencies\":[]}]]]]}'"},{"path":"/w/q/index.js","text":""},{"path":"/w/q/package.json","text":"{\"browser\":{\"./index.js\":\"./c.js\"}}"},{"path":"/w/q/c.js","text":""}],"requests":[{"from":"/w/a.js","specifier":"q"}]}|{"answer":{"real":"q/c.js"},"found":{"file":"/w/q/c.js","via":{"location":"/w/q","name":"q","reference":"1"}},"slug":null}
{"cwd":"/w","files":[{"path":"/w/.pnp.cjs","text":"hydrateRuntimeState(JSON.parse('{\"dependencyTreeRoots\":[],\"enableTopLevelFallback\":false,\"fallbackExclusionList\":[],\"fallbackPool\":[],\"packageRegistryData\":[[null,[[null,{\"packageLocation\":\"./\",\"packageDependencies\":[[\"q\",\"1\"]]}]]],[\"q\",[[\"1\",{\"packageLocation\":\"./q/\",\"packageDependencies\":[]}]]]]}'"},{"path":"/w/q/index.js","text":""},{"path":"/w/q/package.json","text":"{\"browser\":{\"./index.js\":false}}"}],"requests":[{"from":"/w/a.js","specifier":"q"}]}|{"answer":{"custom":"/w/q/index.js"},"found":null,"slug":null}"##
}

fn words_of(alloc: Global, words: &str) -> Result<Vec<String>, AllocError> {
    let mut split = Vec::new(alloc);
    for word in words.split_whitespace() {
        split.push(String::from_str(alloc, word)?)?;
    }
    Ok(split)
}

// The status of a run on some words.
fn code_of<S: Source, K: Sink>(
    alloc: Global,
    words: &str,
    source: &mut S,
    sink: &mut K,
) -> Result<u8, AllocError> {
    let split = words_of(alloc, words)?;
    let mut tree = MemoryTree::new(alloc);
    Ok(run(alloc, &split, source, sink, &mut tree).code())
}

// Whether a run on some words and a document ends with a status and has written a text.
pub(crate) fn comes_to(
    alloc: Global,
    words: &str,
    document: &[u8],
    code: u8,
    written: &str,
) -> Result<bool, AllocError> {
    let mut source = PlainSource::new(Bytes::of(alloc, document)?);
    ends_with(alloc, words, &mut source, code, written)
}

fn ends_with(
    alloc: Global,
    words: &str,
    source: &mut PlainSource,
    code: u8,
    written: &str,
) -> Result<bool, AllocError> {
    let mut sink = PlainSink::new(alloc, 4096)?;
    writes(alloc, words, source, &mut sink, code, written)
}

fn writes(
    alloc: Global,
    words: &str,
    source: &mut PlainSource,
    sink: &mut PlainSink,
    code: u8,
    written: &str,
) -> Result<bool, AllocError> {
    let came = code_of(alloc, words, source, sink)?;
    Ok(came == code && sink.written() == written.as_bytes())
}

// A line as it is written; nothing for no line.
pub(crate) fn ended(alloc: Global, line: &str) -> Result<String, AllocError> {
    if line.is_empty() {
        return Ok(String::new(alloc));
    }
    format!(in alloc; "{line}\n")
}

#[test]
fn a_bare_name_is_answered(rt: HostRuntime) -> Result<(), Fail> {
    let document = bare_name().as_bytes();
    assert!(rt; comes_to(rt.alloc(), "resolve", document, 0, its_line())?);
    Ok(())
}

// How many rows come to their lines by a command; the first that doesn't ends it.
pub(crate) fn documents_that_come(alloc: Global, words: &str, rows: &str) -> Result<u8, Fail> {
    let mut tried = 0u8;
    for row in rows.lines() {
        if row.starts_with('#') {
            continue;
        }
        let (document, line) = row.split_once('|').ok_or("a document")?;
        let code = u8::from(line.starts_with("refused: "));
        let line = ended(alloc, line)?;
        if !comes_to(alloc, words, document.as_bytes(), code, line.as_str())? {
            return Ok(tried);
        }
        tried = tried.saturating_add(1);
    }
    Ok(tried)
}

#[test]
fn each_cause_has_its_line(rt: HostRuntime) -> Result<(), Fail> {
    assert_eq!(rt;
        documents_that_come(rt.alloc(), "resolve", documents())?,
        50
    );
    Ok(())
}

// Whatever the byte behind which the document of the bare name ends, it isn't JSON.
#[test]
fn a_document_is_cut(rt: HostRuntime) -> Result<(), Fail> {
    let document = bare_name().as_bytes();
    for end in 0..document.len() {
        let came = comes_to(
            rt.alloc(),
            "resolve",
            &document[..end],
            1,
            "refused: not-json\n",
        )?;
        assert!(rt; came, "at {end}");
    }
    Ok(())
}

// The bare name's document, whose source refuses one read.
fn source_with_read_refused(alloc: Global, read: u64) -> Result<BytesSource, AllocError> {
    let refused = vec![in alloc; read]?;
    let document = Bytes::of(alloc, bare_name().as_bytes())?;
    Ok(BytesSource::new(document, List::from(refused)))
}

// The status of the bare name with such a source.
fn code_with_read_refused(
    alloc: Global,
    read: u64,
    sink: &mut PlainSink,
) -> Result<u8, AllocError> {
    let mut source = source_with_read_refused(alloc, read)?;
    code_of(alloc, "resolve", &mut source, sink)
}

// Two reads take the document and find its end, and a third is not made.
#[test]
fn a_source_fails_at_each_read(rt: HostRuntime) -> Result<(), Fail> {
    for read in 1..4u64 {
        let mut sink = PlainSink::new(rt.alloc(), 4096)?;
        let code = code_with_read_refused(rt.alloc(), read, &mut sink)?;
        assert_eq!(rt; code, if read < 3 { 3 } else { 0 }, "at read {read}");
        assert_eq!(rt; sink.written().is_empty(), read < 3, "at read {read}");
    }
    Ok(())
}

// A sink that has some room and refuses one write.
fn sink_with_write_refused(
    alloc: Global,
    room: usize,
    write: u64,
) -> Result<BytesSink, AllocError> {
    let refused = vec![in alloc; write]?;
    BytesSink::new(alloc, room, List::from(refused))
}

// The status of the bare name with such a sink, where it has a text written.
fn code_with_write_refused(
    alloc: Global,
    room: usize,
    write: u64,
    written: &str,
) -> Result<Option<u8>, AllocError> {
    let mut sink = sink_with_write_refused(alloc, room, write)?;
    code_where_written(alloc, &mut sink, written)
}

fn code_where_written(
    alloc: Global,
    sink: &mut BytesSink,
    written: &str,
) -> Result<Option<u8>, AllocError> {
    let mut source = PlainSource::new(Bytes::of(alloc, bare_name().as_bytes())?);
    code_and_text(alloc, &mut source, sink, written)
}

fn code_and_text(
    alloc: Global,
    source: &mut PlainSource,
    sink: &mut BytesSink,
    written: &str,
) -> Result<Option<u8>, AllocError> {
    let code = code_of(alloc, "resolve", source, sink)?;
    Ok((sink.written() == written.as_bytes()).then_some(code))
}

// A room for less than the line ends in a fault, and so does a refused write: a front of the line was written.
#[test]
fn a_sink_fails_at_each_write(rt: HostRuntime) -> Result<(), Fail> {
    for room in 0..its_line().len() {
        for write in 1..4u64 {
            let front = its_line().get(..if write == 1 { 0 } else { room });
            let came = code_with_write_refused(rt.alloc(), room, write, front.ok_or("a front")?)?;
            assert_eq!(rt; came, Some(4), "at room {room}");
        }
    }
    Ok(())
}

// With room for the whole line there is one write, so that a second can't be refused.
#[test]
fn a_sink_with_room_fails_at_the_first_write(rt: HostRuntime) -> Result<(), Fail> {
    let room = its_line().len();
    for (write, line, code) in [(1, "", 4), (2, its_line(), 0)] {
        let came = code_with_write_refused(rt.alloc(), room, write, line)?;
        assert_eq!(rt; came, Some(code), "at write {write}");
        let came = code_with_write_refused(rt.alloc(), room.saturating_add(1), write, line)?;
        assert_eq!(rt; came, Some(code), "at write {write}");
    }
    Ok(())
}

// A source without an end.
#[derive(Drop)]
struct Endless;

impl Source for Endless {
    ghost use Rattle.std.specs.Prelude.{None};

    ghost state = { λ _. record { left = None; faults = 0 } };

    fn read(&mut self, buffer: &mut [u8]) -> Result<usize, SourceFault> {
        Ok(buffer.len())
    }
}

#[test]
fn a_source_without_an_end_is_too_long(rt: HostRuntime) -> Result<(), Fail> {
    let mut sink = PlainSink::new(rt.alloc(), 4096)?;
    assert_eq!(rt; code_of(rt.alloc(), "resolve", &mut Endless, &mut sink)?, 5);
    assert!(rt; sink.written().is_empty());
    Ok(())
}
