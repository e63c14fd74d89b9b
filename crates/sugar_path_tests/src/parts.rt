// Paths taken apart and put together, clean texts, and the plain values.
use std::alloc::{AllocError, Global};
use std::test::Fail;
use sugar_path::{
    Bytes, CleanPath, Component, List, Path, PathCow, SugarPath, Text, clean_text,
    common_prefix_len, components, is_clean, join, parent,
};

// A path and its parent, as `std::path` has it, on each line; `-` where there is none.
fn parents() -> &'static str {
    " | -
/ | -
// | -
/. | -
a | 
a/ | 
./ | 
. | 
.. | 
/a | /
//a | /
/a/ | /
a/b | a
a//b// | a
./a | .
a/./b | a
a/.. | a
../.. | ..
/a/b/c | /a/b
/./a | /"
}

#[test]
fn paths_have_parents(rt: HostRuntime) -> Result<(), Fail> {
    for line in parents().lines() {
        let (path, above) = line.split_once(" | ").ok_or("no parent")?;
        let found = parent(Path::of_text(path)).map_or(b"-".as_slice(), |p| p.bytes());
        assert_eq!(rt; found, above.as_bytes(), "of {path}");
    }
    Ok(())
}

// A path and its components, on each line, each behind a blank: `/` for the root, and else as in the path.
fn component_lists() -> &'static str {
    " |
/ | /
// | /
. | .
./ | .
./. | .
./a | . a
a/. | a
a/./b | a b
/./a | / a
.. | ..
a/../b | a .. b
a//b/ | a b
/a/b/c | / a b c
... | ..."
}

fn told<'a>(component: Component<'a>) -> &'a [u8] {
    match component {
        Component::RootDir => b"/",
        Component::CurDir => b".",
        Component::ParentDir => b"..",
        Component::Normal(name) => name.bytes(),
    }
}

fn listed(alloc: Global, path: &str) -> Result<Vec<u8>, AllocError> {
    let mut list = Vec::new(alloc);
    for component in components(Path::of_text(path)) {
        list.push(b' ')?;
        list.extend_from_slice(told(component))?;
    }
    Ok(list)
}

#[test]
fn paths_are_taken_apart(rt: HostRuntime) -> Result<(), Fail> {
    for line in component_lists().lines() {
        let (path, list) = line.split_once(" |").ok_or("no components")?;
        let found = listed(rt.alloc(), path)?;
        assert_eq!(rt; found.as_slice(), list.as_bytes(), "in {path}");
    }
    Ok(())
}

// A folder, a path, and the path behind the folder, on each line.
fn joins() -> &'static str {
    "d |  | d/
d | a | d/a
d/ | a | d/a
 | a | a
 |  | 
d | /a | /a
/ | a | /a
d | ../a | d/../a"
}

#[test]
fn paths_are_joined(rt: HostRuntime) -> Result<(), Fail> {
    for line in joins().lines() {
        let (base, behind) = line.split_once(" | ").ok_or("no path")?;
        let (path, joined) = behind.split_once(" | ").ok_or("no join")?;
        let found = join(rt.alloc(), Path::of_text(base), Path::of_text(path))?;
        assert_eq!(rt; found.as_path().bytes(), joined.as_bytes(), "of {line}");
    }
    Ok(())
}

// A text read from `/w` and the clean path that it names, on each line, and whether the text is clean itself.
fn clean_texts() -> &'static str {
    "a/../b/ | /w/b | not
/w/b/ | /w/b | not
/w/b | /w/b | clean
/ | / | clean
 | /w | not
../.. | / | not
/a//b | /a/b | not
/a/./b | /a/b | not
/a/.. | / | not
/... | /... | clean"
}

// Whether a text, read from `/w`, comes to the clean text and the word of a row.
fn is_cleaned_to(alloc: Global, text: &str, wanted: &str) -> Result<bool, Fail> {
    let folder = "/w";
    let (clean, word) = wanted.split_once(" | ").ok_or("no word")?;
    if !is_clean(folder) || is_clean(text) != (word == "clean") {
        return Ok(false);
    }
    Ok(clean_text(alloc, folder, text)?.as_str() == clean)
}

#[test]
fn texts_are_cleaned(rt: HostRuntime) -> Result<(), Fail> {
    for line in clean_texts().lines() {
        let (text, wanted) = line.split_once(" | ").ok_or("no clean text")?;
        assert!(rt; is_cleaned_to(rt.alloc(), text, wanted)?, "{line}");
    }
    Ok(())
}

// So many mixed bytes, behind some others.
fn mixed_bytes(alloc: Global, offset: usize, len: usize) -> Result<Vec<u8>, AllocError> {
    let mut bytes = Vec::new(alloc);
    for _ in 0..offset {
        bytes.push(255)?;
    }
    for i in 0..len {
        bytes.push((i.wrapping_mul(37).wrapping_add(11) % 251) as u8)?;
    }
    Ok(bytes)
}

// The same bytes, but for one, in which each bit is another.
fn inverted_at(alloc: Global, bytes: &[u8], at: usize) -> Result<Vec<u8>, AllocError> {
    let mut other = Vec::new(alloc);
    for (i, byte) in bytes.iter().enumerate() {
        other.push(if i == at { !*byte } else { *byte })?;
    }
    Ok(other)
}

#[test]
fn equal_bytes_are_counted(rt: HostRuntime) -> Result<(), Fail> {
    for len in 0..257 {
        let bytes = mixed_bytes(rt.alloc(), 0, len)?;
        let same = mixed_bytes(rt.alloc(), 0, len)?;
        assert_eq!(rt; common_prefix_len(&bytes, &same), len);
        for at in 0..len {
            let other = inverted_at(rt.alloc(), &bytes, at)?;
            assert_eq!(rt; common_prefix_len(&bytes, &other), at, "of {len} bytes");
        }
    }
    Ok(())
}

#[test]
fn bytes_are_counted_as_far_as_the_shorter_end(rt: HostRuntime) -> Result<(), Fail> {
    for left in 0..257 {
        let bytes = mixed_bytes(rt.alloc(), 0, left)?;
        for right in 0..257 {
            let others = mixed_bytes(rt.alloc(), 0, right)?;
            assert_eq!(rt; common_prefix_len(&bytes, &others), left.min(right));
        }
    }
    Ok(())
}

#[test]
fn bytes_are_counted_at_each_offset(rt: HostRuntime) -> Result<(), Fail> {
    for left in 0..16 {
        let bytes = mixed_bytes(rt.alloc(), left, 300)?;
        for right in 0..16 {
            let others = mixed_bytes(rt.alloc(), right, 300)?;
            for len in 0..257 {
                let (Some(part), Some(other)) = (
                    bytes.as_slice().get(left..left + len),
                    others.as_slice().get(right..right + len),
                ) else {
                    panic!(rt; "a list of {len} bytes is too short");
                };
                assert_eq!(rt;
                    common_prefix_len(part, other),
                    len,
                    "at {left} and {right}"
                );
            }
        }
    }
    Ok(())
}

#[test]
fn plain_values_keep_what_they_hold(rt: HostRuntime) -> Result<(), Fail> {
    let text = Text::of(rt.alloc(), "a")?.try_clone(rt.alloc())?;
    assert_eq!(rt; text.as_str(), "a");
    let bytes = Bytes::of(rt.alloc(), b"\xff")?.try_clone(rt.alloc())?;
    assert_eq!(rt; bytes.as_slice(), b"\xff".as_slice());
    let path = PathCow::Borrowed(Path::of_text("a").as_path()).into_owned(rt.alloc())?;
    assert_eq!(rt; path.as_path().bytes(), b"a".as_slice());
    Ok(())
}

#[test]
fn shared_texts_are_equal_texts(rt: HostRuntime) -> Result<(), Fail> {
    let text = Text::shared(rt.alloc(), "/a/b")?;
    let copy = text.try_clone(rt.alloc())?;
    let own = Text::of(rt.alloc(), "/a/b")?.into_shared()?;
    assert!(rt; copy == text && own == text);
    assert_eq!(rt; own.into_string(rt.alloc())?.as_str(), "/a/b");
    assert!(rt; is_clean(copy.as_str()));
    let mut path = CleanPath::from_clean(copy);
    assert!(rt; path.go_up());
    path.go_down("c")?;
    assert_eq!(rt; path.into_string(rt.alloc())?.as_str(), "/a/c");
    assert_eq!(rt; text.as_str(), "/a/b");
    Ok(())
}

#[test]
fn bytes_are_those_of_a_vector(rt: HostRuntime) -> Result<(), Fail> {
    let bytes = Bytes::from_vec(Vec::from_slice(rt.alloc(), b"ab")?)?;
    assert_eq!(rt; bytes.as_slice(), b"ab".as_slice());
    Ok(())
}

#[test]
fn lists_grow(rt: HostRuntime) -> Result<(), Fail> {
    let mut list = List::new(rt.alloc());
    assert!(rt; list.push(7).is_ok());
    assert_eq!(rt; list.as_slice(), [7].as_slice());
    Ok(())
}

#[test]
fn clean_paths_are_read(rt: HostRuntime) -> Result<(), Fail> {
    let path = CleanPath::read(rt.alloc(), &CleanPath::root(rt.alloc()), "a/./b")?;
    assert_eq!(rt; path.to_text(rt.alloc())?.as_str(), "/a/b");
    assert_eq!(rt; path.last_name(), Some("b"));
    let copy = path.try_clone(rt.alloc())?;
    assert!(rt; copy == path && !path.is_root());
    assert_eq!(rt; copy.into_text()?.as_str(), "/a/b");
    Ok(())
}

#[test]
fn clean_paths_are_walked(rt: HostRuntime) -> Result<(), Fail> {
    let folder = CleanPath::read(rt.alloc(), &CleanPath::root(rt.alloc()), "/a")?;
    let mut path = folder.child(rt.alloc(), "b")?;
    assert_eq!(rt; path.as_str(), "/a/b");
    assert!(rt; path.is_below(&folder) && !folder.is_below(&path));
    assert!(rt; path.go_up() && path == folder);
    path.go_down("c")?;
    assert_eq!(rt; path.as_str(), "/a/c");
    Ok(())
}

#[test]
fn clean_paths_are_told_from_a_base(rt: HostRuntime) -> Result<(), Fail> {
    let root = CleanPath::root(rt.alloc());
    let base = CleanPath::read(rt.alloc(), &root, "/a/b/c")?;
    let path = CleanPath::read(rt.alloc(), &root, "/a/d/e")?;
    assert_eq!(rt; path.relative_to(rt.alloc(), &base)?.as_str(), "../../d/e");
    assert_eq!(rt; path.relative_to(rt.alloc(), &root)?.as_str(), "a/d/e");
    assert_eq!(rt; root.relative_to(rt.alloc(), &path)?.as_str(), "../../..");
    assert_eq!(rt; path.relative_to(rt.alloc(), &path)?.as_str(), "");
    Ok(())
}
