// Where bare specifiers lead by a manifest alone.
ghost use Rattle.pnp_core.specs.Owner.{IsReady};

use crate::answers::answers;
use crate::manifests::{found_manifest, manifest_text, path};
use pnp_core::{
    Error, Manifest, Resolution, ResolutionConfig, ResolutionHost, resolve_to_unqualified,
    resolve_to_unqualified_via_manifest,
};
use std::alloc::{AllocError, Global};
use std::test::Fail;
use sugar_path::Text;

// A resolution or a refusal in few words.
fn shown(alloc: Global, answer: &Result<Resolution, Error>) -> Result<String, AllocError> {
    match answer {
        Ok(Resolution::Resolved(location, None)) => format!(in alloc; "{location}"),
        Ok(Resolution::Resolved(location, Some(subpath))) => {
            format!(in alloc; "{location} {subpath}")
        }
        Ok(Resolution::Skipped) => String::from_str(alloc, "skipped"),
        Err(Error::NotInRegistry { locator }) => {
            format!(in alloc; "no row of {}", locator.reference)
        }
        Err(Error::BadSpecifier(refused)) => format!(in alloc; "bad {}", refused.specifier),
        Err(Error::UndeclaredDependency(told)) => {
            format!(in alloc; "undeclared {}", told.dependency_name)
        }
        Err(Error::MissingPeerDependency(told)) => {
            format!(in alloc; "missing peer {}", told.dependency_name)
        }
        Err(_) => String::from_str(alloc, "another error"),
    }
}

/// Where a specifier leads that a file asks.
pub(crate) fn resolved_told(alloc: Global, manifest: &Manifest, given: &str) -> Result<Text, Fail>
    requires { IsReady manifest.now }
{
    let (specifier, parent) = given.split_once(' ').ok_or("no file")?;
    let parent = path(alloc, parent)?;
    let answer = resolve_to_unqualified_via_manifest(alloc, manifest, specifier, parent.as_str());
    Ok(Text::from(shown(alloc, &answer)?))
}

// A specifier, the file that asks, and the answer, on each line.
fn asked() -> &'static str {
    "resolved foo/x /w/a.js = /w/.yarn/foo/ x
resolved other /w/a.js = /w/.yarn/foo/
resolved lost/x /w/a.js = undeclared lost
resolved peer/x /w/.yarn/foo/a.js = missing peer peer
resolved top /w/.yarn/foo/a.js = no row of npm:4.0.0
resolved foo /a.js = skipped
resolved @s /a.js = bad @s"
}

#[test]
fn specifiers_lead_to_locations(rt: HostRuntime) -> Result<(), Fail> {
    answers(&rt, rt.alloc(), manifest_text(), asked())
}

#[test]
fn a_host_without_manifests_skips(rt: HostRuntime) -> Result<(), Fail> {
    let config = ResolutionConfig {
        host: ResolutionHost::new(|_: &str| Ok(None)),
    };
    let parent = path(rt.alloc(), "/w/a.js")?;
    let answer = resolve_to_unqualified(rt.alloc(), "foo", parent.as_str(), &config);
    assert_eq!(rt; shown(rt.alloc(), &answer)?.as_str(), "skipped");
    Ok(())
}

#[test]
fn a_host_finds_the_manifest(rt: HostRuntime) -> Result<(), Fail> {
    let alloc = rt.alloc();
    let config = ResolutionConfig {
        host: ResolutionHost::new(|_: &str| found_manifest(alloc)),
    };
    let parent = path(alloc, "/w/lib/a.js")?;
    let answer = resolve_to_unqualified(alloc, "foo/x", parent.as_str(), &config);
    assert_eq!(rt; shown(alloc, &answer)?.as_str(), "/w/.yarn/foo/ x");
    Ok(())
}
