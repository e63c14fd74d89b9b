// Values from outside, and that calls succeed.
use crate::vectors::answers;
use npm_req::{
    NpmVersionParseError, NpmVersionReqParseError, PackageReq, PackageReqParseError, Version,
    VersionReq,
};
use std::alloc::{AllocError, Global};
use std::test::Fail;

// A text and the version that it is, on each line, or `none`.
fn versions() -> &'static str {
    "v1.2.3 -> 1.2.3
 =1.2.3-alpha.1+b1\t -> 1.2.3-alpha.1+b1
9007199254740991.0.0 -> 9007199254740991.0.0
9007199254740992.0.0 -> none
vv1.2.3 -> none
v 1.2.3 -> none
1.2 -> none
01.2.3 -> none
 -> none"
}

fn version_told(alloc: Global, text: &str) -> Result<String, AllocError> {
    match Version::parse_npm(alloc, text) {
        Ok(version) => version.to_string(alloc),
        Err(NpmVersionParseError::NotAVersion) => String::from_str(alloc, "none"),
        Err(NpmVersionParseError::NoMemory) => Err(AllocError),
    }
}

#[test]
fn versions_are_read(rt: HostRuntime) -> Result<(), Fail> {
    for line in versions().lines() {
        let (text, wanted) = line.split_once(" -> ").ok_or("no version")?;
        assert_eq!(rt;
            version_told(rt.alloc(), text)?.as_str(),
            wanted,
            "of {text}"
        );
    }
    Ok(())
}

#[test]
fn versions_have_parts(rt: HostRuntime) -> Result<(), Fail> {
    let version = Version::parse_npm(rt.alloc(), "1.2.3-a")?;
    let release = Version::parse_npm(rt.alloc(), "1.2.3+b")?;
    assert_eq!(rt;
        (version.major(), version.minor(), version.patch()),
        (1, 2, 3)
    );
    assert!(rt; version.is_pre_release());
    assert!(rt; !release.is_pre_release());
    assert!(rt; version.cmp_precedence(&release).is_lt());
    assert!(rt; version != release);
    Ok(())
}

// Whether a version meets a range, in a word.
fn met_told(alloc: Global, range: &str, version: &str) -> Result<&'static str, Fail> {
    let range = VersionReq::parse_from_npm(alloc, range)?;
    let version = Version::parse_npm(alloc, version)?;
    if range.tag().is_some() {
        return Ok("no range");
    }
    Ok(if range.matches(&version) {
        "met"
    } else {
        "not"
    })
}

#[test]
fn versions_meet_ranges_as_npm_says(rt: HostRuntime) -> Result<(), Fail> {
    for line in answers().lines() {
        let (range, behind) = line.split_once(" -> ").ok_or("no version")?;
        let (version, wanted) = behind.split_once(' ').ok_or("no answer")?;
        assert_eq!(rt; met_told(rt.alloc(), range, version)?, wanted, "{line}");
    }
    Ok(())
}

// As the answers of npm.
fn more_answers() -> &'static str {
    "^1.2 -> 1.9.0 met
^1.2 -> 2.0.0 not
^1.2 -> 1.3.0-a not
^0.0.3 -> 0.0.4 not
1 - 2.0.0 -> 2.0.0 met
 -> 0.0.0 met
 -> 0.0.0-0 not
<x -> 0.0.0 not
>=9007199254740991 -> 9007199254740991.0.0 met"
}

#[test]
fn some_versions_meet_some_ranges(rt: HostRuntime) -> Result<(), Fail> {
    for line in more_answers().lines() {
        let (range, behind) = line.split_once(" -> ").ok_or("no version")?;
        let (version, wanted) = behind.split_once(' ').ok_or("no answer")?;
        assert_eq!(rt; met_told(rt.alloc(), range, version)?, wanted, "{line}");
    }
    Ok(())
}

// Two requirements, on each line, and whether they are equal: `same` or `not`.
fn equalities() -> &'static str {
    "1.x - 1.3 -> >=1.0.0 <1.4.0-0 -> same
^1.2 -> >=1.2.0 <2.0.0-0 -> same
^0.0.3-b -> >=0.0.3-b <0.0.4-0 -> same
~> v1 -> >=1.0.0 <2.0.0-0 -> same
 1.2.3+b|| -> =1.2.3 || x -> same
<x -> >* -> same
1 2 -> 2 1 -> not
* -> latest -> not
 latest -> latest\t -> same"
}

fn are_equal(alloc: Global, one: &str, other: &str) -> Result<bool, Fail> {
    let one = VersionReq::parse_from_npm(alloc, one)?;
    let other = VersionReq::parse_from_npm(alloc, other)?;
    Ok(one == other)
}

#[test]
fn ranges_are_their_comparators(rt: HostRuntime) -> Result<(), Fail> {
    for line in equalities().lines() {
        let (one, behind) = line.split_once(" -> ").ok_or("no other")?;
        let (other, word) = behind.split_once(" -> ").ok_or("no word")?;
        assert_eq!(rt;
            are_equal(rt.alloc(), one, other)?,
            word == "same",
            "{line}"
        );
    }
    Ok(())
}

// A requirement and its tag, on each line, or `-` where it is a range.
fn tags() -> &'static str {
    "latest -> latest
\tv1-next_2.x  -> v1-next_2.x
xyz -> xyz
x -> -
v1 -> -"
}

#[test]
fn names_are_tags(rt: HostRuntime) -> Result<(), Fail> {
    for line in tags().lines() {
        let (text, wanted) = line.split_once(" -> ").ok_or("no tag")?;
        let requirement = VersionReq::parse_from_npm(rt.alloc(), text)?;
        assert_eq!(rt; requirement.tag().unwrap_or("-"), wanted, "of {text}");
    }
    Ok(())
}

// A text that is no requirement, and the place of the fault, on each line.
fn refused() -> &'static str {
    "%*(#$%() -> 0
\t 1 | 2 -> 4
1 -  || 2 -> 5
1 -  -> 2
1 - 2 3 -> 6
v1 - v2 -> 3
^1 >= || 2 -> 3
1||2||x.y -> 6
1.2.3.4 -> 0
1.x-a -> 0
9007199254740992 -> 0
1 \u{fc} -> 2
a b -> 0"
}

// The place at which a text is refused, in digits.
fn place_told(alloc: Global, text: &str) -> Result<String, AllocError> {
    match VersionReq::parse_from_npm(alloc, text) {
        Err(NpmVersionReqParseError::Unexpected { place }) => place.to_string(alloc),
        _ => String::from_str(alloc, "read"),
    }
}

#[test]
fn refusals_tell_the_place(rt: HostRuntime) -> Result<(), Fail> {
    for line in refused().lines() {
        let (text, place) = line.split_once(" -> ").ok_or("no place")?;
        assert_eq!(rt; place_told(rt.alloc(), text)?.as_str(), place, "of {text}");
    }
    Ok(())
}

#[test]
fn refusals_have_a_message(rt: HostRuntime) -> Result<(), Fail> {
    let refusal = NpmVersionReqParseError::Unexpected { place: 2 };
    assert_eq!(rt;
        refusal.message(rt.alloc(), "1 \u{fc}")?.as_str(),
        "Invalid npm version requirement. Unexpected character.\n  \u{fc}\n  ~"
    );
    Ok(())
}

// A text, and the name and the range that it is, on each line, or why it is refused.
fn packages() -> &'static str {
    "package@~1.3 -> package requires ~1.3
@s/n@ ^1 -> @s/n requires  ^1
@s/n -> @s/n requires *
a@b@c -> a@b requires c
a@ -> a requires 
@ -> @ requires *
 -> no name
a@1 % -> refused at 2"
}

fn package_told(alloc: Global, text: &str) -> Result<String, AllocError> {
    match PackageReq::from_str(alloc, text) {
        Ok(package) => format!(in alloc;
            "{} requires {}",
            package.name,
            package.version_req.text()
        ),
        Err(PackageReqParseError::EmptyName) => String::from_str(alloc, "no name"),
        Err(PackageReqParseError::Req { place }) => format!(in alloc; "refused at {place}"),
        Err(PackageReqParseError::NoMemory) => Err(AllocError),
    }
}

#[test]
fn packages_are_read(rt: HostRuntime) -> Result<(), Fail> {
    for line in packages().lines() {
        let (text, wanted) = line.split_once(" -> ").ok_or("no package")?;
        assert_eq!(rt;
            package_told(rt.alloc(), text)?.as_str(),
            wanted,
            "of {text}"
        );
    }
    Ok(())
}
