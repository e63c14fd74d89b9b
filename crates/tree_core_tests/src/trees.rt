// Values from outside, and that calls succeed.
use std::alloc::{AllocError, Global};
use std::test::Fail;
use sugar_path::{Bytes, CleanPath, List, Text, is_clean};
use tree_core::{
    FailingTree, MemoryTree, NODE_BUILTINS, PutError, Question, ReadError, Recorder, Reply, Trail,
    Tree, is_node_builtin,
};

// Each file's bytes are its path, and its canonical name is `/real` before that.
fn sample(alloc: Global) -> Result<MemoryTree, PutError> {
    let mut tree = MemoryTree::new(alloc);
    for (path, canonical) in [
        ("/w/a.js", "/real/w/a.js"),
        ("/w/lib/index.js", "/real/w/lib/index.js"),
        ("/w-2/a.js", "/real/w-2/a.js"),
    ] {
        tree.put(path, path.as_bytes(), canonical)?;
    }
    Ok(tree)
}

// A path of the sample, and what is there, on each line.
fn kinds() -> &'static str {
    "/ folder
/w folder
/w/lib folder
/w/a.js file
/w/lib/index.js file
/w/a nothing
/w/a.js/b nothing
/w- nothing
/x nothing
/w/a/path/longer/than/that/of/each/file nothing"
}

// What a tree says of a path by its three flags.
fn kind_at(tree: &mut MemoryTree, path: &str) -> Result<&'static str, ReadError> {
    if !is_clean(path) {
        return Ok("no clean path");
    }
    Ok(
        match (tree.is_file(path)?, tree.is_dir(path)?, tree.exists(path)?) {
            (true, false, true) => "file",
            (false, true, true) => "folder",
            (false, false, false) => "nothing",
            _ => "flags that differ",
        },
    )
}

#[test]
fn a_tree_tells_files_from_folders(rt: HostRuntime) -> Result<(), Fail> {
    let mut tree = sample(rt.alloc())?;
    for line in kinds().lines() {
        let (path, kind) = line.split_once(' ').ok_or("no kind")?;
        assert_eq!(rt; kind_at(&mut tree, path)?, kind, "at {path}");
    }
    assert_eq!(rt; tree.questions(), 30);
    Ok(())
}

// Whether a path of the sample is read and named as its file, or has neither bytes nor name.
fn is_read_as(alloc: Global, path: &str, canonical: Option<&str>) -> Result<bool, Fail> {
    let mut tree = sample(alloc)?;
    if !is_clean(path) {
        return Ok(false);
    }
    let content = tree.read(alloc, path)?;
    let name = tree.canonical(alloc, path)?;
    Ok(match (content, name) {
        (Some(content), Some(name)) => {
            content.as_slice() == path.as_bytes() && canonical == Some(name.as_str())
        }
        (None, None) => canonical.is_none(),
        _ => false,
    })
}

#[test]
fn a_tree_reads_and_names_files(rt: HostRuntime) -> Result<(), Fail> {
    assert!(rt; is_read_as(rt.alloc(), "/w/a.js", Some("/real/w/a.js"))?);
    assert!(rt; is_read_as(rt.alloc(), "/w", None)?);
    Ok(())
}

// A path and a canonical name of a file, and why it isn't put into the sample, on each line.
fn refusals() -> &'static str {
    "a | /a | unclean
/ | /a | unclean
 | /a | unclean
/a/ | /a | unclean
/a//b | /a | unclean
/a/../b | /a | unclean
/a | / | unclean
/a | b | unclean
/w | /w | in the way of /w/a.js
/w/lib | /w/lib | in the way of /w/lib/index.js
/w/a.js/b/c | /b | in the way of /w/a.js
/w/lib/index.js/b/c/d | /b | in the way of /w/lib/index.js"
}

// Why a file isn't put, in words.
fn refusal_told(
    alloc: Global,
    tree: &mut MemoryTree,
    path: &str,
    canonical: &str,
) -> Result<String, AllocError> {
    match tree.put(path, b"", canonical) {
        Err(PutError::Unclean) => String::from_str(alloc, "unclean"),
        Err(PutError::Conflict { other }) => format!(in alloc; "in the way of {other}"),
        _ => String::from_str(alloc, "put"),
    }
}

#[test]
fn a_file_is_refused(rt: HostRuntime) -> Result<(), Fail> {
    let mut tree = sample(rt.alloc())?;
    for line in refusals().lines() {
        let (path, behind) = line.split_once(" | ").ok_or("no canonical name")?;
        let (canonical, wanted) = behind.split_once(" | ").ok_or("no refusal")?;
        let told = refusal_told(rt.alloc(), &mut tree, path, canonical)?;
        assert_eq!(rt; told.as_str(), wanted, "{line}");
    }
    assert!(rt; tree.put("/w/b", b"b", "/w/b").is_ok());
    Ok(())
}

#[test]
fn a_file_is_replaced_and_removed(rt: HostRuntime) -> Result<(), Fail> {
    let mut tree = sample(rt.alloc())?;
    let path = "/w/a.js";
    assert!(rt; is_clean(path));
    tree.put(path, b"new", path)?;
    let content = tree.read(rt.alloc(), path)?.ok_or("no file")?;
    assert_eq!(rt; content.as_slice(), b"new".as_slice());
    assert!(rt; tree.remove(path));
    assert!(rt; !tree.remove(path));
    assert!(rt; !tree.exists(path)?);
    assert!(rt; tree.put("/w/a.js/b", b"", "/b").is_ok());
    Ok(())
}

#[test]
fn a_repeated_question_is_put_once(rt: HostRuntime) -> Result<(), Fail> {
    let mut tree = sample(rt.alloc())?;
    let path = "/w/a.js";
    assert!(rt; is_clean(path));
    let mut recorder = Recorder::new(rt.alloc(), &mut tree);
    for _ in 0..2 {
        assert!(rt; recorder.is_file(path)?);
        assert!(rt; !recorder.is_dir(path)?);
        assert!(rt; recorder.exists(path)?);
        assert!(rt; recorder.read(path)?.is_some());
        assert!(rt; recorder.canonical(path)?.is_some());
    }
    assert_eq!(rt; recorder.trail().len(), 5);
    let trail = recorder.into_trail();
    match trail.get(3) {
        Some((Question::Read(p), Reply::Bytes(Some(_)))) => assert_eq!(rt; p.as_str(), path),
        _ => assert!(rt; false, "another question"),
    }
    assert!(rt; trail.get(5).is_none());
    assert_eq!(rt; tree.questions(), 5);
    Ok(())
}

// The question of a number about a file of the sample, and whether the tree refused it.
fn is_refused(alloc: Global, tree: &mut FailingTree, number: u64) -> bool {
    let path = "/w/a.js";
    if !is_clean(path) {
        return false;
    }
    let refused = match number {
        1 => tree.is_file(path).err(),
        2 => tree.is_dir(path).err(),
        3 => tree.exists(path).err(),
        4 => tree.read(alloc, path).err(),
        _ => tree.canonical(alloc, path).err(),
    };
    refused == Some(ReadError::Fault)
}

// A sample that fails at one question.
fn failing_at(alloc: Global, number: u64) -> Result<FailingTree, Fail> {
    let calls = List::from(vec![in alloc; number]?);
    Ok(sample(alloc)?.fail_at(calls))
}

#[test]
fn a_tree_fails_at_each_question(rt: HostRuntime) -> Result<(), Fail> {
    for failing in 1..6 {
        let mut tree = failing_at(rt.alloc(), failing)?;
        for number in 1..6 {
            let refused = is_refused(rt.alloc(), &mut tree, number);
            assert_eq!(rt; refused, number == failing, "question {number}");
        }
        assert_eq!(rt; (tree.faults(), tree.questions()), (1, 5));
    }
    Ok(())
}

#[test]
fn a_fault_leaves_the_trail(rt: HostRuntime) -> Result<(), Fail> {
    let path = CleanPath::root(rt.alloc()).child(rt.alloc(), "w")?;
    let mut calls = List::new(rt.alloc());
    assert!(rt; calls.push(2).is_ok());
    let mut tree = sample(rt.alloc())?.fail_at(calls);
    let mut recorder = Recorder::new(rt.alloc(), &mut tree);
    assert!(rt; recorder.is_dir(path.as_str())?);
    assert_eq!(rt; recorder.is_file(path.as_str()), Err(ReadError::Fault));
    assert_eq!(rt; recorder.trail().len(), 1);
    assert_eq!(rt; recorder.is_file(path.as_str()), Ok(false));
    assert_eq!(rt; recorder.into_parts().0.len(), 2);
    Ok(())
}

#[test]
fn questions_and_replies_are_copied(rt: HostRuntime) -> Result<(), Fail> {
    let question = Question::Canon(Text::of(rt.alloc(), "/w")?);
    let other = Question::Read(Text::of(rt.alloc(), "/w")?);
    let copy = question.try_clone(rt.alloc())?;
    assert!(rt; copy == question);
    assert!(rt; copy != other);
    assert_eq!(rt; copy.path(), "/w");
    let reply = Reply::Bytes(Some(Bytes::of(rt.alloc(), b"x")?));
    let mut trail = Trail::new(rt.alloc());
    assert!(rt; trail.push(other, reply.try_clone(rt.alloc())?).is_ok());
    assert!(rt; trail.reply_to(&question).is_none());
    Ok(())
}

const SIZE: usize = 1_000_000;

// A tree with one file of many bytes, which it shares with its caller.
fn large(alloc: Global) -> Result<MemoryTree, PutError> {
    let path = Text::shared(alloc, "/w/a.bin")?;
    let content = Bytes::from_vec(vec![in alloc; 7; SIZE]?)?;
    let mut tree = MemoryTree::new(alloc);
    tree.put_shared(&path, &content, &path)?;
    Ok(tree)
}

#[test]
fn a_shared_file_is_read_and_its_trail_copied(rt: HostRuntime) -> Result<(), Fail> {
    let path = "/w/a.bin";
    assert!(rt; is_clean(path));
    let mut tree = large(rt.alloc())?;
    let mut recorder = Recorder::new(rt.alloc(), &mut tree);
    for _ in 0..1_000 {
        let bytes = recorder.read(path)?.ok_or("no file")?;
        assert_eq!(rt; bytes.as_slice().len(), SIZE);
    }
    let trail = recorder.into_trail().try_clone(rt.alloc())?;
    assert_eq!(rt; trail.len(), 1);
    match trail.get(0) {
        Some((_, Reply::Bytes(Some(bytes)))) => assert_eq!(rt; bytes.as_slice().len(), SIZE),
        _ => assert!(rt; false, "another reply"),
    }
    Ok(())
}

#[test]
fn names_of_modules(rt: HostRuntime) {
    assert_eq!(rt; NODE_BUILTINS.len(), 66);
    for name in "fs fs/promises _tls_wrap zlib".split(' ') {
        assert!(rt; is_node_builtin(name), "{name}");
    }
    for name in "node:fs fs/ test  fs2".split(' ') {
        assert!(rt; !is_node_builtin(name), "{name}");
    }
}
