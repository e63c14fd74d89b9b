// Lock files from outside, and that calls succeed.
use crate::fixtures::{berry_lock, berry_told, first_lock, first_told};
use std::alloc::{AllocError, Global};
use std::fmt::Write;
use std::test::Fail;
use yarn_lock_parser::{Entry, LockCause, Metas, Pairs, YarnLockError, parse_str};

// What a lock file says, or why it was refused: a line for the file, and one for each entry.
fn told(alloc: Global, text: &str) -> Result<String, Fail> {
    let mut out = String::new(alloc);
    match parse_str(alloc, text) {
        Err(e) => write!(out, "{e:?}")?,
        Ok(lock) => {
            let generator = lock.generator();
            let version = lock.version();
            let key = lock.cache_key().unwrap_or("none");
            write!(out, "{generator:?} {version} {key}")?;
            for entry in lock.entries() {
                tell_entry(&mut out, entry)?;
            }
        }
    }
    Ok(out)
}

fn tell_entry(out: &mut String, entry: &Entry<'_>) -> Result<(), AllocError> {
    let name = entry.name();
    let version = entry.version();
    write!(out, "\n{name} {version}")?;
    for (label, text) in [
        ("resolved", entry.resolved()),
        ("integrity", entry.integrity()),
    ] {
        if !text.is_empty() {
            write!(out, " {label} {text}")?;
        }
    }
    tell_pairs(out, "for", entry.descriptors())?;
    tell_pairs(out, "needs", entry.dependencies())?;
    tell_pairs(out, "may", entry.optional_dependencies())?;
    tell_pairs(out, "peer", entry.peer_dependencies())?;
    tell_metas(out, "meta", entry.dependencies_meta())?;
    tell_metas(out, "peermeta", entry.peer_dependencies_meta())
}

fn tell_pairs(out: &mut String, label: &str, pairs: Pairs<'_, '_>) -> Result<(), AllocError> {
    for index in 0..pairs.len() {
        if let Some((name, value)) = pairs.get(index) {
            write!(out, " {label} {name}={value}")?;
        }
    }
    Ok(())
}

fn tell_metas(out: &mut String, label: &str, metas: Metas<'_, '_>) -> Result<(), AllocError> {
    for index in 0..metas.len() {
        if let Some((name, meta)) = metas.get(index) {
            let optional = match meta.optional {
                None => "unsaid",
                Some(true) => "optional",
                Some(false) => "needed",
            };
            write!(out, " {label} {name}={optional}")?;
        }
    }
    Ok(())
}

// The text with the line ends of Windows.
fn with_returns(alloc: Global, text: &str) -> Result<String, AllocError> {
    let mut out = String::new(alloc);
    for line in text.split('\n') {
        if !out.is_empty() {
            out.push_str("\r\n")?;
        }
        out.push_str(line)?;
    }
    Ok(out)
}

#[test]
fn whole_locks_are_read(rt: HostRuntime) -> Result<(), Fail> {
    for (text, want) in [(berry_lock(), berry_told()), (first_lock(), first_told())] {
        assert_eq!(rt; told(rt.alloc(), text)?.as_str(), want);
        let other = with_returns(rt.alloc(), text)?;
        assert_eq!(rt; told(rt.alloc(), other.as_str())?.as_str(), want);
    }
    Ok(())
}

// Texts of an entry of a version 1 file, and what they say.
fn entries() -> [(&'static str, &'static str); 26] {
    [
        ("", ""),
        (
            "foo@1:\n  version \"1\"\n  version \"2\"\n",
            "\nfoo 2 for foo=1",
        ),
        ("foo@1:\n  \"version\" \"1\"\n", "\nfoo 1 for foo=1"),
        ("foo@1:\n  version: 1\n", "\nfoo 1 for foo=1"),
        (
            "foo@1:\n  version 1\n \t\r\nbar@2:\n  version 2\n\n",
            "\nfoo 1 for foo=1\nbar 2 for bar=2",
        ),
        (
            "\"foo@1\", bar@2 baz, \"@q/x@3\":\n  version 1\n",
            "\nfoo 1 for foo=1 for bar=2 baz for @q/x=3",
        ),
        ("foo@1,bar@2:\n  version 1\n", "\nfoo 1 for foo=1"),
        ("foo@1, :\n  version 1\n", "\nfoo 1 for foo=1"),
        ("fôo@é:\n  version 1\n", "\nfôo 1 for fôo=é"),
        ("foo@:\n  version 1\n", "\nfoo 1 for foo="),
        (
            "foo@1:\n  version 1\n  dependencies:\n    a\n    b 2\n",
            "\nfoo 1 for foo=1 needs a\n=b 2",
        ),
        (
            "foo@1:\n  version 1\n  dependencies:\n    a \"x\ny\"\n    b 2\n",
            "\nfoo 1 for foo=1 needs a=x\ny needs b=2",
        ),
        (
            "foo@1:\n  version 1\n  dependencies:\n    a \"x\n",
            "\nfoo 1 for foo=1 needs a=\"x",
        ),
        (
            "foo@1:\n  version 1\n  dependencies:\n    a x\ry\n",
            "\nfoo 1 for foo=1",
        ),
        (
            "foo@1:\n  version 1\n\tdependencies:\n\t\ta 1\n    b 2\n",
            "\nfoo 1 for foo=1 needs a=1",
        ),
        (
            "foo@1:\n  version 1\n  dependencies:\n  a 1\n",
            "\nfoo 1 for foo=1",
        ),
        (
            "foo@1:\n  version 1\n  dependencies:\n    \"\"a\"\" 1\n",
            "\nfoo 1 for foo=1 needs a=1",
        ),
        (
            "foo@1:\n  version 1\n  dependencies:\n    a 1\n  dependencies:\n    b 2\n",
            "\nfoo 1 for foo=1 needs b=2",
        ),
        (
            "foo@1:\n  version 1\n  checksum: \"abc\" def\n",
            "\nfoo 1 integrity abc for foo=1",
        ),
        (
            "foo@1:\n  version 1\n  resolved https://x\n",
            "\nfoo 1 for foo=1",
        ),
        ("foo@1:\n  version 1\n  resolved \"x\"", "\nfoo 1 for foo=1"),
        (
            "foo@1:\n  version 1\n  integrity sha512-x",
            "\nfoo 1 integrity sha512-x for foo=1",
        ),
        (
            "foo@1:\n  version 1\n  dependenciesMeta:\n    \"a:b\":\n      optional: true\n      built: false\n    c:\n      built: true\n",
            "\nfoo 1 for foo=1 meta a:b=optional meta c=unsaid",
        ),
        (
            "foo@1:\n  version 1\n  dependenciesMeta:\n    a:\n      optional: true\n      optional: false\n",
            "\nfoo 1 for foo=1 meta a=needed",
        ),
        (
            "foo@1:\n  version 1\n  dependenciesMeta:\n    a:\n",
            "\nfoo 1 for foo=1",
        ),
        (
            "foo@1:\n  version 1\n  linkType: hard\n\n",
            "\nfoo 1 for foo=1",
        ),
    ]
}

#[test]
fn entries_are_read_by_the_first_form_that_fits(rt: HostRuntime) -> Result<(), Fail> {
    for (text, want) in entries() {
        let file = format!(in rt.alloc(); "# a\n# yarn lockfile v1\n\n{text}")?;
        let want = format!(in rt.alloc(); "Yarn 1 none{want}")?;
        assert_eq!(rt;
            told(rt.alloc(), file.as_str())?.as_str(),
            want.as_str(),
            "{text:?}"
        );
    }
    Ok(())
}

// Whole texts, and what they say.
fn files() -> [(&'static str, &'static str); 9] {
    [
        (
            "# a\n# b\n\n__metadata:\n  version: 6\n\n\"a@npm:^1, a@npm:^2\":\n  version: 2.0.0\n  resolution: \"a@npm:2.0.0\"\n  dependencies:\n    b: ^1\n  peerDependencies:\n    \"@c/d\": ^7\n  peerDependenciesMeta:\n    \"@c/d\":\n      optional: true\n  checksum: 00\n",
            "Yarn 6 none\na 2.0.0 resolved a@npm:2.0.0 integrity 00 for a=npm:^1 for a=npm:^2 needs b=^1 peer @c/d=^7 peermeta @c/d=optional",
        ),
        (
            "# a\r\n# yarn lockfile v1\r\n\r\n\r\n\"@babel/code-frame@^7.0.0\":\r\n  version \"7.12.13\"\r\n  dependencies:\r\n    \"@babel/highlight\" \"^7.12.13\"\r\n\r\n",
            "Yarn 1 none\n@babel/code-frame 7.12.13 for @babel/code-frame=^7.0.0 needs @babel/highlight=^7.12.13",
        ),
        (
            "# a\n# b\n\n__metadata:\n  version: 6\n  cacheKey: 8\n\n\"lodash@npm:^4.17.0\":\n  version: 4.17.20\n  resolution: \"lodash@npm:4.17.20\"\n  checksum: 00\n  languageName: node\n  linkType: hard\n",
            "Yarn 6 8\nlodash 4.17.20 resolved lodash@npm:4.17.20 integrity 00 for lodash=npm:^4.17.0",
        ),
        (
            "# a\n# b\n\n__metadata:\n  version: 8\n  cacheKey: 10c0\n\n\"lodash@npm:^4.17.21\":\n  version: 4.17.21\n  resolution: \"lodash@npm:4.17.21\"\n\n\"react-dom@npm:^18.2.0\":\n  version: 18.2.0\n  resolution: \"react-dom@npm:18.2.0\"\n\n\"react@npm:^18.2.0\":\n  version: 18.2.0\n  resolution: \"react@npm:18.2.0\"\n",
            "Yarn 8 10c0\nlodash 4.17.21 resolved lodash@npm:4.17.21 for lodash=npm:^4.17.21\nreact-dom 18.2.0 resolved react-dom@npm:18.2.0 for react-dom=npm:^18.2.0\nreact 18.2.0 resolved react@npm:18.2.0 for react=npm:^18.2.0",
        ),
        (
            "# a\n# yarn lockfile v1\n# bun ./bun.lockb --hash: 1\n\n\nfoo@1:\n  version \"1\"\n",
            "Bun 1 none\nfoo 1 for foo=1",
        ),
        ("# a\n# yarn lockfile v1, by hand\n", "Yarn 1 none"),
        (
            "\n\n__metadata:\r\n\tversion: 0255\r\n \tcacheKey: 10c0\r\n\r\n",
            "Yarn 255 10c0",
        ),
        (
            "# a\n# b\n__metadata:\n  version: 6\n  cacheKey: 10c\n  more: 1\n  \n \n",
            "Yarn 6 10",
        ),
        (
            "# a\n# b\n__metadata:\n  version: 6\n  cacheKey: none\n\n",
            "Yarn 6 none",
        ),
    ]
}

#[test]
fn header_and_metadata_are_read(rt: HostRuntime) -> Result<(), Fail> {
    for (text, want) in files() {
        assert_eq!(rt; told(rt.alloc(), text)?.as_str(), want, "{text:?}");
    }
    Ok(())
}

// Texts that are no lock file: place and cause.
fn refused() -> [(&'static str, usize, LockCause); 24] {
    [
        ("", 0, LockCause::Header),
        ("x\n", 0, LockCause::Header),
        ("# a\n# yarn lockfile v1", 0, LockCause::Header),
        ("# a\n# b\n", 8, LockCause::Metadata),
        (
            "# a\n# b\n\n__metadata:\n  version: 256\n\n",
            9,
            LockCause::Metadata,
        ),
        (
            "# a\n# b\n\n__metadata:\n  version: 6\n",
            9,
            LockCause::Metadata,
        ),
        (
            "# a\n# b\n\n__metadata:\nversion: 6\n\n",
            9,
            LockCause::Metadata,
        ),
        (
            "# a\n# b\n# bun\n\nfoo@1:\n  version 1\n",
            15,
            LockCause::Metadata,
        ),
        ("# a\n# yarn lockfile v1\n# bun", 23, LockCause::Descriptors),
        (
            "# a\n# yarn lockfile v1\n\nfoo@1:\n  version \"1\"\n ",
            24,
            LockCause::LastLine,
        ),
        (
            "# a\n# yarn lockfile v1\n\nfoo\n  version 1\t",
            24,
            LockCause::LastLine,
        ),
        (
            "# a\n# yarn lockfile v1\n\nfoo@1\n  version \"1\"\n",
            24,
            LockCause::Descriptors,
        ),
        (
            "# a\n# yarn lockfile v1\n\nfoo@1:",
            24,
            LockCause::Descriptors,
        ),
        (
            "# a\n# yarn lockfile v1\n\nfoo:\n  version 1\n",
            24,
            LockCause::Descriptors,
        ),
        (
            "# a\n# yarn lockfile v1\n\n@foo:\n  version 1\n",
            24,
            LockCause::Descriptors,
        ),
        (
            "# a\n# yarn lockfile v1\n\nfoo@1, bar:\n  version 1\n",
            24,
            LockCause::Descriptors,
        ),
        (
            "# a\n# yarn lockfile v1\n\n,foo@1:\n  version 1\n",
            24,
            LockCause::Descriptors,
        ),
        (
            "# a\n# yarn lockfile v1\n\nfoo@1:\n  version \"1\"\n\n\nbar@1:\n  version 1\n",
            46,
            LockCause::Descriptors,
        ),
        ("# a\n# yarn lockfile v1\n\nfoo@1:\n", 24, LockCause::NoItem),
        (
            "# a\n# yarn lockfile v1\n\nfoo@1:\n  version 1",
            24,
            LockCause::NoItem,
        ),
        (
            "# a\n# yarn lockfile v1\n\nfoo@1:\n  dependenciesMeta:\n    a:\n      optional: yes\n      optional: true\n  dependenciesMeta:\n    a:\n      optional: true\n",
            24,
            LockCause::Optional,
        ),
        (
            "# a\n# yarn lockfile v1\n\n\nfoo@1:\n  resolved \"x\"\n",
            25,
            LockCause::NoVersion,
        ),
        (
            "# a\n# yarn lockfile v1\n\nfoo@1:\n  version 1\n  version \"\"\n",
            24,
            LockCause::NoVersion,
        ),
        (
            "# a\n# yarn lockfile v1\n\nfoo@1:\n  version \"1 \"\n\nbar\n ",
            24,
            LockCause::NoVersion,
        ),
    ]
}

#[test]
fn the_first_fault_is_told_with_its_place(rt: HostRuntime) -> Result<(), Fail> {
    for (text, place, cause) in refused() {
        match parse_str(rt.alloc(), text) {
            Ok(_) => assert!(rt; false, "read: {text:?}"),
            Err(e) => assert!(rt;
                e == YarnLockError::Parser { place, cause },
                "{e:?} of {text:?}"
            ),
        }
    }
    Ok(())
}

#[test]
fn pairs_and_metas_are_listed(rt: HostRuntime) -> Result<(), Fail> {
    let text =
        "# a\n# yarn lockfile v1\n\nfoo@1:\n  version 1\n  dependencies:\n    a 1\n    b 2\n  dependenciesMeta:\n    a:\n      optional: true\n    b:\n      built: true\n";
    let lock = parse_str(rt.alloc(), text)?;
    for entry in lock.entries() {
        let pairs = entry.dependencies();
        let metas = entry.dependencies_meta();
        assert!(rt; !pairs.is_empty() && !metas.is_empty());
        assert!(rt; entry.peer_dependencies().is_empty());
        assert!(rt; entry.peer_dependencies_meta().is_empty());
        let mut listed = String::new(rt.alloc());
        for ((name, value), (said, meta)) in pairs.iter().zip(metas.iter()) {
            write!(listed, "{name}={value} {said}={meta:?} ")?;
        }
        assert_eq!(rt;
            listed.as_str(),
            "a=1 a=DepMeta { optional: Some(true) } b=2 b=DepMeta { optional: None } "
        );
        let shown = format!(in rt.alloc(); "{pairs:?} {metas:?}")?;
        assert_eq!(rt;
            shown.as_str(),
            r#"{"a": "1", "b": "2"} {"a": DepMeta { optional: Some(true) }, "b": DepMeta { optional: None }}"#
        );
    }
    Ok(())
}

// Entries that differ in one thing each.
fn distinct() -> [&'static str; 9] {
    [
        "foo@1:\n  version 1\n",
        "foo@2:\n  version 1\n",
        "foo@1:\n  version 2\n",
        "foo@1:\n  version 1\n  resolved \"x\"\n",
        "foo@1:\n  version 1\n  checksum x\n",
        "foo@1:\n  version 1\n  dependencies:\n    a 1\n",
        "foo@1:\n  version 1\n  peerDependencies:\n    a 1\n",
        "foo@1:\n  version 1\n  dependenciesMeta:\n    a:\n      optional: true\n",
        "foo@1:\n  version 1\n  dependenciesMeta:\n    a:\n      built: true\n",
    ]
}

fn say_the_same<'a>(alloc: Global, one: &'a str, other: &'a str) -> Result<bool, YarnLockError> {
    let one = parse_str(alloc, one)?;
    let other = parse_str(alloc, other)?;
    Ok(one.entries() == other.entries())
}

#[test]
fn entries_are_equal_by_what_they_say(rt: HostRuntime) -> Result<(), Fail> {
    for (at, one) in distinct().iter().enumerate() {
        for (other_at, other) in distinct().iter().enumerate() {
            let one = format!(in rt.alloc(); "# a\n# yarn lockfile v1\n\n{one}")?;
            let other = format!(in rt.alloc(); "# b\r\n# yarn lockfile v1\n\n{other}\n")?;
            let are_equal = say_the_same(rt.alloc(), one.as_str(), other.as_str())?;
            assert_eq!(rt; are_equal, at == other_at);
        }
    }
    Ok(())
}

#[test]
fn many_entries_and_an_endless_line_are_read_in_time(rt: HostRuntime) -> Result<(), Fail> {
    let mut text = String::from_str(rt.alloc(), "# a\n# yarn lockfile v1\n\n")?;
    for index in 0..10_000u32 {
        write!(
            text,
            "p{index}@1:\n  version \"1\"\n  dependencies:\n    a \"1\"\n\n"
        )?;
    }
    text.push_str("foo@1:\n  version 1\n  dependencies:\n    a \"")?;
    for _ in 0..500_000u32 {
        text.push_str(" x\"\"")?;
    }
    let lock = parse_str(rt.alloc(), text.as_str())?;
    assert_eq!(rt; lock.entries().len(), 10_001);
    Ok(())
}
