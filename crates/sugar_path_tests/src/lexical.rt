// Paths from outside: Node's and the Rust crate's own cases, with what they make of them on Unix.
use std::alloc::Global;
use std::test::Fail;
use sugar_path::{CwdAnswer, Path, PathBuf, PathCow, SugarPath, SugarPathBuf, TryError};

// Whether a path is the text of a row, and `borrowed` or `made` as the row says behind it.
fn is_as(found: &PathCow<'_>, wanted: &str) -> bool {
    match wanted.rsplit_once(" | ") {
        Some((text, how)) => { found.as_path().bytes() == text.as_bytes() && how_of(found) == how }
        None => false,
    }
}

fn how_of(found: &PathCow<'_>) -> &'static str {
    match found {
        PathCow::Borrowed(_) => "borrowed",
        PathCow::Owned(_) => "made",
    }
}

// A path and its normal form, on each line, and whether that is borrowed.
fn normal_forms() -> &'static str {
    "workspace/src/../dist/assets | workspace/dist/assets | made
 | . | borrowed
./ | ./ | borrowed
a/../ | ./ | made
/a//b/ | /a/b/ | made
/foo/../../../bar | /bar | made
a//b//../b | a/b | made
a//b//./c | a/b/c | made
a//b//. | a/b | made
/a/b/c/../../../x/y/z | /x/y/z | made
///..//./foo/.//bar | /foo/bar | made
bar/foo../../ | bar/ | made
bar/foo../.. | bar | made
bar/foo../../baz | bar/baz | made
bar/foo../ | bar/foo../ | borrowed
bar/foo.. | bar/foo.. | borrowed
../foo../../../bar | ../../bar | made
../.../.././.../../../bar | ../../bar | made
../../../foo/../../../bar | ../../../../../bar | made
../../../foo/../../../bar/../../ | ../../../../../../ | made
../foobar/barfoo/foo/../../../bar/../../ | ../../ | made
../../../foobar/../../../bar/../../baz | ../../../../../../baz | made
fixtures///b/../b/c.js | fixtures/b/c.js | made
/ | / | borrowed
// | / | made
/// | / | made
. | . | borrowed
.. | .. | borrowed
../ | ../ | borrowed
../.. | ../.. | borrowed
/.. | / | made
/../ | / | made
/. | / | made
/./ | / | made
./a | a | made
a/. | a | made
a/./ | a/ | made
a/.. | . | borrowed
a/../.. | .. | made
./.. | .. | made
./. | . | borrowed
.// | ./ | made
... | ... | borrowed
a | a | borrowed
a/ | a/ | borrowed
a/b/c | a/b/c | borrowed
/a/b | /a/b | borrowed
é/../ü | ü | made"
}

#[test]
fn paths_are_normalized(rt: HostRuntime) -> Result<(), Fail> {
    for line in normal_forms().lines() {
        let (path, wanted) = line.split_once(" | ").ok_or("no normal form")?;
        let found = Path::of_text(path).normalize(rt.alloc())?;
        assert!(rt; is_as(&found, wanted), "{line}");
    }
    Ok(())
}

// Whether an owned path has a normal form, which says whether it is borrowed from a borrowed path.
fn is_normalized_to(alloc: Global, path: &str, wanted: &str) -> Result<bool, Fail> {
    let (normal, _) = wanted.split_once(" | ").ok_or("no normal form")?;
    let owned = PathBuf::of(alloc, Path::of_text(path))?;
    Ok(match owned.into_normalized(alloc) {
        Ok(found) => found.as_path().bytes() == normal.as_bytes(),
        Err(_) => false,
    })
}

#[test]
fn owned_paths_are_normalized(rt: HostRuntime) -> Result<(), Fail> {
    for line in normal_forms().lines() {
        let (path, wanted) = line.split_once(" | ").ok_or("no normal form")?;
        assert!(rt; is_normalized_to(rt.alloc(), path, wanted)?, "{line}");
    }
    Ok(())
}

// A path read from `/w/x` and its place, on each line, and whether that is borrowed.
fn places() -> &'static str {
    "src/lib.rs | /w/x/src/lib.rs | made
 | /w/x | made
. | /w/x | made
./ | /w/x | made
.. | /w | made
../.. | / | made
../../.. | / | made
../b | /w/b | made
a/../../b/ | /w/b | made
./a/./b//c/ | /w/x/a/b/c | made
/a/b/../c/ | /a/c | made
/ | / | borrowed
/.. | / | made
/a/b | /a/b | borrowed
/a/b/ | /a/b | made
//a | /a | made"
}

#[test]
fn paths_are_made_absolute(rt: HostRuntime) -> Result<(), Fail> {
    let folder = Path::of_text("/w/x");
    for line in places().lines() {
        let (path, wanted) = line.split_once(" | ").ok_or("no place")?;
        let found = Path::of_text(path).absolutize_with(rt.alloc(), folder)?;
        assert!(rt; is_as(&found, wanted), "{line}");
    }
    Ok(())
}

#[test]
fn the_working_folder_is_asked_where_needed(rt: HostRuntime) -> Result<(), Fail> {
    let folder = PathBuf::of(rt.alloc(), Path::of_text("/workspace"))?;
    let found = Path::of_text("src/lib.rs").absolutize(rt.alloc(), &CwdAnswer::Known(folder))?;
    assert_eq!(rt;
        found.as_path().bytes(),
        b"/workspace/src/lib.rs".as_slice()
    );
    let found = Path::of_text("/a/").try_absolutize(rt.alloc(), &CwdAnswer::Unknown)?;
    assert_eq!(rt; found.as_path().bytes(), b"/a".as_slice());
    match Path::of_text("a").try_absolutize(rt.alloc(), &CwdAnswer::Unknown) {
        Err(TryError::NoCwd) => {}
        _ => panic!(rt; "a relative path has no place without a folder"),
    }
    Ok(())
}

// A target, a base, and the way from the base to the target, where both are read from `/w/x`, on each line, and whether
// that is borrowed.
fn ways() -> &'static str {
    "/var | /var/lib | .. | made
/bin | /var/lib | ../../bin | made
/var/lib | /var/lib |  | borrowed
/var/apache | /var/lib | ../apache | made
/var/lib | /var/ | lib | borrowed
/var/lib | / | var/lib | borrowed
/ | /var/lib | ../.. | made
/foo/test/bar/package.json | /foo/test | bar/package.json | borrowed
/Users/a/web/b | /Users/a/web/b/test/mails | ../.. | made
/foo/bar/baz | /foo/bar/baz-quux | ../baz | made
/foo/bar/baz-quux | /foo/bar/baz | ../baz-quux | made
/baz | /baz-quux | ../baz | made
/a/b | /a/c/d | ../../b | made
/a/../b | /b/./ |  | made
//a//b | /a/ | b | made
/.. | / |  | made
src/lib.rs | /w/x | src/lib.rs | made
/w/y | z | ../../y | made
workspace/dist | workspace | dist | made
a | b | ../a | made
./a | a/ |  | made
../a | ../b | ../a | made
../a/b | ../a | b | made
../a | b | ../../a | made
b | ../a | ../x/b | made
.. | a | ../.. | made
 |  |  | made
a/b |  | a/b | made
 | a/b | ../.. | made
a/../b | c/../b |  | made
../../a | ../.. | a | made
../../.. | a | ../../.. | made
/a/b/c | /a | b/c | borrowed
/a/./b | /a | b | made
/a/b | /a/. | b | made
/a//b | /a | b | made
/a/b// | /a// | b | borrowed
/a/é | /a | é | borrowed
/ | // |  | borrowed
/ab | /a | ../ab | made
a/b | a | b | made"
}

#[test]
fn ways_lead_from_base_to_target(rt: HostRuntime) -> Result<(), Fail> {
    let folder = Path::of_text("/w/x");
    for line in ways().lines() {
        let (target, behind) = line.split_once(" | ").ok_or("no base")?;
        let (base, wanted) = behind.split_once(" | ").ok_or("no way")?;
        let found = Path::of_text(target).relative_with(rt.alloc(), Path::of_text(base), folder)?;
        assert!(rt; is_as(&found, wanted), "{line}");
    }
    Ok(())
}

#[test]
fn a_way_may_need_the_working_folder(rt: HostRuntime) -> Result<(), Fail> {
    let known = CwdAnswer::Known(PathBuf::of(rt.alloc(), Path::of_text("/workspace"))?);
    let base = Path::of_text("/workspace");
    let found = Path::of_text("src/lib.rs").relative(rt.alloc(), base, &known)?;
    assert_eq!(rt; found.as_path().bytes(), b"src/lib.rs".as_slice());
    let base = Path::of_text("workspace");
    let target = Path::of_text("workspace/dist");
    let found = target.try_relative(rt.alloc(), base, &CwdAnswer::Unknown)?;
    assert_eq!(rt; found.as_path().bytes(), b"dist".as_slice());
    let base = Path::of_text("b");
    match Path::of_text("../a").try_relative(rt.alloc(), base, &CwdAnswer::Unknown) {
        Err(TryError::NoCwd) => {}
        _ => panic!(rt; "no way tells which folder `..` leaves"),
    }
    Ok(())
}

// Bytes, and the text with U+FFFD in place of what is no UTF-8.
fn lossy_texts() -> [(&'static [u8], &'static str); 5] {
    [
        (b"a/b", "a/b"),
        (b"\xff", "\u{FFFD}"),
        (b"a/\xff/b", "a/\u{FFFD}/b"),
        (b"\xc3\xa9", "é"),
        (b"", ""),
    ]
}

#[test]
fn bytes_are_read_as_text(rt: HostRuntime) -> Result<(), Fail> {
    for (bytes, lossy) in lossy_texts() {
        let path = Path::of_bytes(bytes);
        assert_eq!(rt;
            path.try_to_slash(),
            std::str::from_utf8(bytes).ok(),
            "of {lossy}"
        );
        let found = path.to_slash_lossy(rt.alloc())?;
        assert_eq!(rt; found.as_str(), lossy);
    }
    Ok(())
}

#[test]
fn text_is_borrowed(rt: HostRuntime) {
    let path = Path::of_text("src/lib.rs");
    assert!(rt; path.try_to_slash().is_some());
    assert_eq!(rt; path.to_slash(), "src/lib.rs");
}

#[test]
fn owned_bytes_become_text(rt: HostRuntime) -> Result<(), Fail> {
    for (bytes, lossy) in lossy_texts() {
        let path = Path::of_bytes(bytes);
        match PathBuf::of(rt.alloc(), path)?.try_into_slash() {
            Ok(text) => assert_eq!(rt; text.as_str(), lossy),
            Err(back) => assert_eq!(rt; back.as_path().bytes(), bytes, "of {lossy}"),
        }
        match PathBuf::of(rt.alloc(), path)?.into_slash_lossy(rt.alloc()) {
            Ok(text) => assert_eq!(rt; text.as_str(), lossy),
            Err(_) => panic!(rt; "no memory for {lossy}"),
        }
    }
    Ok(())
}

#[test]
fn other_bytes_stay_in_paths(rt: HostRuntime) -> Result<(), Fail> {
    let path = Path::of_bytes(b"a/\xff");
    let found = path.normalize(rt.alloc())?;
    assert_eq!(rt; found.as_path().bytes(), b"a/\xff".as_slice());
    assert!(rt; matches!(&found, PathCow::Owned(_)));
    let path = Path::of_bytes(b"/\xff/../\xfe/");
    let found = path.absolutize_with(rt.alloc(), Path::of_text(""))?;
    assert_eq!(rt; found.as_path().bytes(), b"/\xfe".as_slice());
    Ok(())
}
