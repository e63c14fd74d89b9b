// The command `disk`, over a tree in memory and over real files.
use crate::requests::{put, tree_of};
use cli_core::{PlainSink, PlainSource, Status, run};
use disk_tree::DiskTree;
use std::alloc::{AllocError, Global};
use std::rt::{Env, Files};
use std::test::Fail;
use std::{env, fs, io};
use sugar_path::{Bytes, List};
use tree_core::{MemoryTree, Tree};

fn words_of(alloc: Global, words: &str) -> Result<Vec<String>, AllocError> {
    let mut all = Vec::new(alloc);
    for word in words.split(' ') {
        all.push(String::from_str(alloc, word)?)?;
    }
    Ok(all)
}

// The status of some words over a disk, and behind it what was written.
fn told_by<T: Tree>(alloc: Global, words: &str, disk: &mut T) -> Result<String, Fail> {
    let words = words_of(alloc, words)?;
    let mut sink = PlainSink::new(alloc, 4096)?;
    let status = status_of(alloc, &words, &mut sink, disk)?;
    let written = str::from_utf8(sink.written()).unwrap_or("no text");
    Ok(format!(in alloc; "{} {written}", status.code())?)
}

fn status_of<T: Tree>(
    alloc: Global,
    words: &[String],
    sink: &mut PlainSink,
    disk: &mut T,
) -> Result<Status, AllocError> {
    let mut source = PlainSource::new(Bytes::of(alloc, b"")?);
    Ok(run(alloc, words, &mut source, sink, disk))
}

fn bound(alloc: Global) -> Result<MemoryTree, Fail> {
    let manifest =
        "const RAW_RUNTIME_STATE = '{\"dependencyTreeRoots\":[],\"enableTopLevelFallback\":true,\"ignorePatternData\":null,\"fallbackExclusionList\":[],\"fallbackPool\":[],\"packageRegistryData\":[[null,[[null,{\"packageLocation\":\"./\",\"packageDependencies\":[[\"foo\",\"npm:1.0.0\"]]}]]],[\"foo\",[[\"npm:1.0.0\",{\"packageLocation\":\"./.yarn/foo/\",\"packageDependencies\":[]}]]]]}';";
    let mut tree = tree_of(alloc, "/w/a.js\n/w/.yarn/foo/index.js")?;
    put(&mut tree, "/w/.pnp.cjs", manifest)?;
    Ok(tree)
}

fn its_line() -> &'static str {
    "0 {\"answer\":{\"real\":\"/w/.yarn/foo/index.js\"},\"found\":{\"file\":\"/w/.yarn/foo/index.js\",\"via\":{\"location\":\"/w/.yarn/foo\",\"name\":\"foo\",\"reference\":\"npm:1.0.0\"}},\"slug\":null}\n"
}

fn is_told(alloc: Global, words: &str, told: &str) -> Result<bool, Fail> {
    let mut disk = bound(alloc)?;
    Ok(told_by(alloc, words, &mut disk)?.as_str() == told)
}

#[test]
fn a_tree_in_memory_is_a_disk(rt: HostRuntime) -> Result<(), Fail> {
    let alloc = rt.alloc();
    let refused = "1 refused: bad-project SettingsFault cwd\n";
    assert!(rt; is_told(alloc, "disk /w node /w/a.js foo", its_line())?);
    assert!(rt; is_told(alloc, "disk w node /w/a.js foo", refused)?);
    assert!(rt; is_told(alloc, "disk /w deno /w/a.js foo", "2 ")?);
    Ok(())
}

// Each form tells the specifiers in order; words that name two forms, or no specifier, are no command.
#[test]
fn requests_are_told_in_a_form(rt: HostRuntime) -> Result<(), Fail> {
    let alloc = rt.alloc();
    let trailed = "disk --trail /w node /w/a.js foo foo";
    assert_eq!(rt; lines_told(alloc, "disk /w node /w/a.js foo foo")?, 2);
    assert_eq!(rt; lines_told(alloc, trailed)?, 2);
    assert!(rt;
        begins(
            alloc,
            trailed,
            "0 {\"answer\":{\"real\":\"/w/.yarn/foo/index.js\"},"
        )?
    );
    assert!(rt;
        begins(
            alloc,
            "disk --explain /w node /w/a.js foo",
            "0 foo from /w/a.js\n"
        )?
    );
    assert!(rt; is_told(alloc, "disk --trail --bundle /w node /w/a.js foo", "2 ")?);
    assert!(rt; is_told(alloc, "disk --bundle /w node /w/a.js", "2 ")?);
    Ok(())
}

// A request that is asked twice stands twice in the bundle, and its replies once.
#[test]
fn requests_are_bundled(rt: HostRuntime) -> Result<(), Fail> {
    let alloc = rt.alloc();
    let once = lines_told(alloc, "disk --bundle /w node /w/a.js foo")?;
    let twice = "disk --bundle /w node /w/a.js foo foo";
    assert_eq!(rt; lines_told(alloc, twice)?, once.saturating_add(1));
    assert!(rt; begins(alloc, twice, "0 trail-bundle 1 2 ")?);
    Ok(())
}

fn begins(alloc: Global, words: &str, front: &str) -> Result<bool, Fail> {
    let mut disk = bound(alloc)?;
    Ok(
        told_by(alloc, words, &mut disk)?
            .as_str()
            .starts_with(front),
    )
}

fn lines_told(alloc: Global, words: &str) -> Result<usize, Fail> {
    let mut disk = bound(alloc)?;
    Ok(told_by(alloc, words, &mut disk)?.as_str().lines().count())
}

#[test]
fn a_disk_that_fails_has_no_answer(rt: HostRuntime) -> Result<(), Fail> {
    let mut disk = bound(rt.alloc())?.fail_at(List::from(vec![in rt.alloc(); 3u64]?));
    let words = "disk /w node /w/a.js foo";
    assert_eq!(rt; told_by(rt.alloc(), words, &mut disk)?.as_str(), "7 ");
    assert_eq!(rt; told_by(rt.alloc(), words, &mut disk)?.as_str(), its_line());
    Ok(())
}

// Its first question would be refused.
#[test]
fn a_refused_project_asks_no_disk(rt: HostRuntime) -> Result<(), Fail> {
    let mut disk = bound(rt.alloc())?.fail_at(List::from(vec![in rt.alloc(); 1u64]?));
    let refused = "1 refused: bad-project SettingsFault cwd\n";
    let words = "disk w node /w/a.js foo";
    assert_eq!(rt; told_by(rt.alloc(), words, &mut disk)?.as_str(), refused);
    assert_eq!(rt; disk.questions(), 0);
    Ok(())
}

// Writes a package below the folder that the test runs in, and answers that folder.
fn written<R: Files + Env + AllocGlobal>(rt: &R) -> io::Result<String> {
    fs::create_dir_all(rt, "shop/node_modules/q/lib")?;
    fs::write(rt, "shop/main.js", b"")?;
    fs::write(
        rt,
        "shop/node_modules/q/package.json",
        b"{\"main\":\"lib/q\"}",
    )?;
    fs::write(rt, "shop/node_modules/q/lib/q.js", b"")?;
    let folder = env::current_dir(rt)?;
    Ok(String::from_str(rt.alloc(), folder.as_str())?)
}

// What is told of the package where the folder is known.
fn wanted_in(alloc: Global, folder: &str) -> Result<String, AllocError> {
    let file = format!(in alloc; "{folder}/shop/node_modules/q/lib/q.js")?;
    format!(in alloc;
        "0 {{\"answer\":{{\"real\":\"{file}\"}},\"found\":{{\"file\":\"{file}\",\"via\":null}},\"slug\":null}}\n"
    )
}

fn told_in<R: Files + AllocGlobal>(rt: &R, folder: &str) -> Result<String, Fail> {
    let words = format!(in rt.alloc(); "disk {folder} node {folder}/shop/main.js q")?;
    told_by(rt.alloc(), words.as_str(), &mut DiskTree::new(rt))
}

#[test]
fn real_files_are_a_disk(rt: HostRuntime) -> Result<(), Fail> {
    let folder = written(&rt)?;
    let told = told_in(&rt, folder.as_str())?;
    let wanted = wanted_in(rt.alloc(), folder.as_str())?;
    assert_eq!(rt; told.as_str(), wanted.as_str());
    Ok(())
}
