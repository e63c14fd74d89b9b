// Writes refusals as values of JSON.
ghost use Rattle.std.specs.Prelude.{◌≡◌, IfOk, map};
ghost use Rattle.serde_json.specs.Data.{array};
ghost use Rattle.serde_json.specs.View.{items_of, view};
ghost use Rattle.report_core.specs.Verdicts.{cause_name, locator_value, package_value};
ghost use Rattle.report_core.specs.Verdicts.{refusal_value, refused_value};
ghost use Rattle.resolve_stack.specs.declared.verdict.JoinRefusal.TheVariants as refusal;

use pnp_core::{HydrationCause, MissingPeerDependency, PackageLocator, UndeclaredDependency};
use resolve_stack::{JoinRefusal, Refusal, TsRefusal};
use serde_json::{Value, json};
use std::alloc::{AllocError, Global};
use sugar_path::Text;

// The refusal of a request.
pub(crate) fn value_of_refused(alloc: Global, refusal: &Refusal) -> Result<Value, AllocError>
    ensures { IfOk result (λ value. view value ≡ refused_value refusal.now) }
{
    match refusal {
        TsRefusal::Inner(refusal) => value_of_refusal(alloc, refusal),
        TsRefusal::TsFault { pattern, inner } => {
            let inner = value_of_refusals(alloc, inner.as_slice())?;
            json!(in alloc; {"inner": inner, "kind": "TsFault", "pattern": pattern.as_str()})
        }
    }
}

fn value_of_refusals(alloc: Global, refusals: &[JoinRefusal]) -> Result<Value, AllocError>
    ensures { IfOk result (λ value. view value ≡ array (items_of (map refusal_value refusals.now))) }
{
    let mut values = Vec::new(alloc);
    for refusal in refusals {
        values.push(value_of_refusal(alloc, refusal)?)?;
    }
    Ok(Value::Array(values))
}

fn value_of_refusal(alloc: Global, refusal: &JoinRefusal) -> Result<Value, AllocError>
    ensures { IfOk result (λ value. view value ≡ refusal_value refusal.now) }
{
    match refusal {
        JoinRefusal::BadSpecifier { specifier } => value_of_specifier(alloc, specifier),
        JoinRefusal::FailedManifestHydration { cause, manifest } => {
            value_of_manifest(alloc, *cause, manifest)
        }
        JoinRefusal::UndeclaredDependency(told) => value_of_undeclared(alloc, told),
        JoinRefusal::MissingPeerDependency(told) => value_of_missing_peer(alloc, told),
        JoinRefusal::NotInRegistry { name, reference } => {
            value_of_package(alloc, "NotInRegistry", name, reference)
        }
        JoinRefusal::NotLocked { name, reference } => {
            value_of_package(alloc, "NotLocked", name, reference)
        }
        JoinRefusal::MalformedPackage { path } => value_of_malformed(alloc, path),
        JoinRefusal::OutOfRange { range, version } => {
            value_of_out_of_range(alloc, range, version)
        }
        JoinRefusal::Archive { location } => value_of_archive(alloc, location),
        JoinRefusal::NotExported { location, key } => value_of_unexported(alloc, location, key),
        JoinRefusal::Outside { file, location } => value_of_outside(alloc, file, location),
        JoinRefusal::NotFound { text } => value_of_unfound(alloc, text),
        JoinRefusal::BaseNotAFile => json!(in alloc; {"kind": "BaseNotAFile"}),
    }
}

fn value_of_specifier(alloc: Global, specifier: &Text) -> Result<Value, AllocError>
    ensures { IfOk result (λ value.
        view value ≡ refusal_value (refusal.BadSpecifier specifier.now)) }
{
    json!(in alloc; {"kind": "BadSpecifier", "specifier": specifier.as_str()})
}

fn value_of_manifest(
    alloc: Global,
    cause: HydrationCause,
    manifest: &Text,
) -> Result<Value, AllocError>
    ensures { IfOk result (λ value.
        view value ≡ refusal_value (refusal.FailedManifestHydration cause manifest.now)) }
{
    json!(in alloc; {
        "cause": name_of_cause(cause),
        "kind": "FailedManifestHydration",
        "manifest": manifest.as_str()
    })
}

fn value_of_undeclared(alloc: Global, told: &UndeclaredDependency) -> Result<Value, AllocError>
    ensures { IfOk result (λ value.
        view value ≡ refusal_value (refusal.UndeclaredDependency told.now)) }
{
    let issuer = value_of_locator(alloc, &told.issuer_locator)?;
    json!(in alloc; {
        "dependency": told.dependency_name.as_str(),
        "issuer": issuer,
        "kind": "UndeclaredDependency",
        "message": told.message.as_str(),
        "path": told.issuer_path.as_str(),
        "request": told.request.as_str()
    })
}

fn value_of_missing_peer(alloc: Global, told: &MissingPeerDependency) -> Result<Value, AllocError>
    ensures { IfOk result (λ value.
        view value ≡ refusal_value (refusal.MissingPeerDependency told.now)) }
{
    let issuer = value_of_locator(alloc, &told.issuer_locator)?;
    json!(in alloc; {
        "dependency": told.dependency_name.as_str(),
        "issuer": issuer,
        "kind": "MissingPeerDependency",
        "message": told.message.as_str(),
        "path": told.issuer_path.as_str(),
        "request": told.request.as_str()
    })
}

// A bound package that has no row or no entry.
fn value_of_package(
    alloc: Global,
    kind: &str,
    name: &Text,
    reference: &Text,
) -> Result<Value, AllocError>
    ensures { IfOk result (λ value.
        view value ≡ package_value kind.now name.now reference.now) }
{
    json!(in alloc; {"kind": kind, "name": name.as_str(), "reference": reference.as_str()})
}

/// The object of a version that isn't within a range.
pub fn value_of_out_of_range(
    alloc: Global,
    range: &Text,
    version: &Text,
) -> Result<Value, AllocError>
    ensures { IfOk result (λ value.
        view value ≡ refusal_value (refusal.OutOfRange range.now version.now)) }
{
    json!(in alloc; {
        "kind": "OutOfRange",
        "range": range.as_str(),
        "version": version.as_str()
    })
}

/// The object of a package.json that can't be read.
pub fn value_of_malformed(alloc: Global, path: &Text) -> Result<Value, AllocError>
    ensures { IfOk result (λ value.
        view value ≡ refusal_value (refusal.MalformedPackage path.now)) }
{
    json!(in alloc; {"kind": "MalformedPackage", "path": path.as_str()})
}

fn value_of_archive(alloc: Global, location: &Text) -> Result<Value, AllocError>
    ensures { IfOk result (λ value. view value ≡ refusal_value (refusal.Archive location.now)) }
{
    json!(in alloc; {"kind": "Archive", "location": location.as_str()})
}

fn value_of_unexported(alloc: Global, location: &Text, key: &Text) -> Result<Value, AllocError>
    ensures { IfOk result (λ value.
        view value ≡ refusal_value (refusal.NotExported location.now key.now)) }
{
    json!(in alloc; {
        "key": key.as_str(),
        "kind": "NotExported",
        "location": location.as_str()
    })
}

fn value_of_outside(alloc: Global, file: &Text, location: &Text) -> Result<Value, AllocError>
    ensures { IfOk result (λ value.
        view value ≡ refusal_value (refusal.Outside file.now location.now)) }
{
    json!(in alloc; {
        "file": file.as_str(),
        "kind": "Outside",
        "location": location.as_str()
    })
}

fn value_of_unfound(alloc: Global, text: &Text) -> Result<Value, AllocError>
    ensures { IfOk result (λ value. view value ≡ refusal_value (refusal.NotFound text.now)) }
{
    json!(in alloc; {"kind": "NotFound", "text": text.as_str()})
}

/// The object of a package, by its name and its reference.
pub fn value_of_locator(alloc: Global, locator: &PackageLocator) -> Result<Value, AllocError>
    ensures { IfOk result (λ value. view value ≡ locator_value locator.now) }
{
    json!(in alloc; {"name": locator.name.as_str(), "reference": locator.reference.as_str()})
}

/// The name of why a file is no manifest.
pub fn name_of_cause(cause: HydrationCause) -> &'static str
    ensures { result.now ≡ cause_name cause }
{
    match cause {
        HydrationCause::NotText => "NotText",
        HydrationCause::NoPayload => "NoPayload",
        HydrationCause::BadJson => "BadJson",
        HydrationCause::BadPattern => "BadPattern",
        HydrationCause::NoTopLevel => "NoTopLevel",
    }
}
