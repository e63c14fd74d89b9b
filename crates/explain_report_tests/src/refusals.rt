// What each refusal says to people.
use explain_report::explained;
use pnp_core::{HydrationCause, PackageLocator, UndeclaredDependency};
use resolve_stack::{FileName, JoinRefusal, Outcome, Refusal, Verdict};
use resolver_core::TsRefusal;
use std::alloc::{AllocError, Global};
use std::test::Fail;
use sugar_path::{List, Text};
use tree_core::Trail;

// A refusal's kind and the sentence that it has.
fn rows() -> &'static str {
    "\
BadSpecifier|@s names no package: behind a scope a name has to stand\n\
NotText|/w/.pnp.cjs can't be read: there is no text\n\
NoPayload|/w/.pnp.cjs can't be read: it has no payload\n\
BadJson|/w/.pnp.cjs can't be read: its payload is no JSON of a manifest\n\
BadPattern|/w/.pnp.cjs can't be read: its ignore pattern is refused\n\
NoTopLevel|/w/.pnp.cjs can't be read: it has no row for the top-level package\n\
Undeclared|app lacks foo: add it to its dependencies\n\
TopLevelUndeclared|the project lacks foo: add it to its dependencies\n\
NotInRegistry|foo@npm:1.0.0 has no row in the manifest: install again\n\
NotLocked|foo@npm:1.0.0 has no entry in the lock: install again\n\
MalformedPackage|/w/package.json is malformed: no JSON object, or a field is of another kind\n\
OutOfRange|2.0.0 is locked, which isn't within ^1.0.0\n\
Archive|./foo.zip/ lies inside an archive, and none is read: unplug the package\n\
NotExported|/w/foo exports under the project's conditions no ./x\n\
Outside|/w/bar.js was found, which isn't below /w/foo\n\
NotFound|nothing is found at ./x\n\
BaseNotAFile|what asks is no file, and the specifier is read from one"
}

fn undeclared(alloc: Global, issuer: &str) -> Result<JoinRefusal, AllocError> {
    Ok(JoinRefusal::UndeclaredDependency(UndeclaredDependency {
        message: Text::of(alloc, "")?,
        request: Text::of(alloc, "foo/x")?,
        dependency_name: Text::of(alloc, "foo")?,
        issuer_locator: PackageLocator {
            name: Text::of(alloc, issuer)?,
            reference: Text::of(alloc, "")?,
        },
        issuer_path: Text::of(alloc, "/w/a.js")?,
    }))
}

fn unread(alloc: Global, cause: HydrationCause) -> Result<JoinRefusal, AllocError> {
    Ok(JoinRefusal::FailedManifestHydration {
        cause,
        manifest: Text::of(alloc, "/w/.pnp.cjs")?,
    })
}

// A refusal about a bound package.
fn of_bound(alloc: Global, kind: &str) -> Result<JoinRefusal, AllocError> {
    let name = Text::of(alloc, "foo")?;
    let reference = Text::of(alloc, "npm:1.0.0")?;
    let location = Text::of(alloc, "/w/foo")?;
    Ok(match kind {
        "NotInRegistry" => JoinRefusal::NotInRegistry { name, reference },
        "NotLocked" => JoinRefusal::NotLocked { name, reference },
        "NotExported" => JoinRefusal::NotExported {
            location,
            key: Text::of(alloc, "./x")?,
        },
        _ => JoinRefusal::Outside {
            file: Text::of(alloc, "/w/bar.js")?,
            location,
        },
    })
}

// A refusal of this kind.
fn refusal_of(alloc: Global, kind: &str) -> Result<JoinRefusal, AllocError> {
    match kind {
        "BadSpecifier" => Ok(JoinRefusal::BadSpecifier {
            specifier: Text::of(alloc, "@s")?,
        }),
        "NotText" => unread(alloc, HydrationCause::NotText),
        "NoPayload" => unread(alloc, HydrationCause::NoPayload),
        "BadJson" => unread(alloc, HydrationCause::BadJson),
        "BadPattern" => unread(alloc, HydrationCause::BadPattern),
        "NoTopLevel" => unread(alloc, HydrationCause::NoTopLevel),
        "Undeclared" => undeclared(alloc, "app"),
        "TopLevelUndeclared" => undeclared(alloc, ""),
        "MalformedPackage" => Ok(JoinRefusal::MalformedPackage {
            path: Text::of(alloc, "/w/package.json")?,
        }),
        "OutOfRange" => Ok(JoinRefusal::OutOfRange {
            range: Text::of(alloc, "^1.0.0")?,
            version: Text::of(alloc, "2.0.0")?,
        }),
        "Archive" => Ok(JoinRefusal::Archive {
            location: Text::of(alloc, "./foo.zip/")?,
        }),
        "NotFound" => Ok(JoinRefusal::NotFound {
            text: Text::of(alloc, "./x")?,
        }),
        "BaseNotAFile" => Ok(JoinRefusal::BaseNotAFile),
        _ => of_bound(alloc, kind),
    }
}

// The text on an outcome that is this refusal, without questions.
fn told(alloc: Global, refusal: Refusal) -> Result<String, AllocError> {
    let outcome = Outcome {
        verdict: Verdict::Refused(refusal),
        trail: Trail::new(alloc),
    };
    explained(alloc, &FileName::Anon, "foo", &outcome)
}

#[test]
fn refusals_have_their_sentences(rt: HostRuntime) -> Result<(), Fail> {
    for row in rows().lines() {
        let (kind, sentence) = row.split_once('|').ok_or("no sentence")?;
        let refusal = TsRefusal::Inner(refusal_of(rt.alloc(), kind)?);
        let told = told(rt.alloc(), refusal)?;
        let wanted = format!(in rt.alloc();
            "foo from a source without a name\nrefused: {sentence}\n"
        )?;
        assert_eq!(rt; told.as_str(), wanted.as_str());
    }
    Ok(())
}

#[test]
fn a_mapping_tells_each_target(rt: HostRuntime) -> Result<(), Fail> {
    let mut inner = Vec::new(rt.alloc());
    inner.push(refusal_of(rt.alloc(), "NotFound")?)?;
    inner.push(JoinRefusal::BaseNotAFile)?;
    let refusal = TsRefusal::TsFault {
        pattern: Text::of(rt.alloc(), "@/*")?,
        inner: List::from(inner),
    };
    assert_eq!(rt;
        told(rt.alloc(), refusal)?.as_str(),
        "foo from a source without a name\n\
refused: no target of @/* is found\n  nothing is found at ./x\n  what asks is no file, and the specifier is read from one\n"
    );
    Ok(())
}
