// What a refusal says, and what would help.
ghost use Rattle.std.specs.Prelude.{◌≡◌, ◌++◌, IfOk, OnOk, string_bytes};
ghost use Rattle.explain_report.specs.Refusals.{bound_line, cause_told, fault_lines, issuer_told, lacking_line};
ghost use Rattle.explain_report.specs.Refusals.{refusal_line, refusal_lines};

use crate::joined::joined;
use pnp_core::{HydrationCause, PackageLocator};
use resolve_stack::{JoinRefusal, Refusal};
use resolver_core::TsRefusal;
use std::alloc::{AllocError, Global};
use sugar_path::Text;

// The lines of a refusal.
pub(crate) fn refusal_lines(alloc: Global, refusal: &Refusal) -> Result<String, AllocError>
    ensures { IfOk result (λ lines. string_bytes lines ≡ refusal_lines refusal.now) }
{
    let mut lines = String::from_str(alloc, "refused: ")?;
    match refusal {
        TsRefusal::Inner(inner) => lines.push_str(refusal_line(alloc, inner)?.as_str())?,
        TsRefusal::TsFault { pattern, inner } => {
            lines.push_str("no target of ")?;
            lines.push_str(pattern.as_str())?;
            lines.push_str(" is found\n")?;
            put_faults(alloc, &mut lines, inner.as_slice())?;
        }
    }
    Ok(lines)
}

// Puts a line for each target's refusal.
fn put_faults(alloc: Global, lines: &mut String, refusals: &[JoinRefusal]) -> Result<(), AllocError>
    ensures { OnOk result (string_bytes lines.new
        ≡ string_bytes lines.old ++ fault_lines refusals.now) }
{
    for refusal in refusals {
        lines.push_str("  ")?;
        lines.push_str(refusal_line(alloc, refusal)?.as_str())?;
    }
    Ok(())
}

// What a refusal of the join says, and what would help, in one line.
fn refusal_line(alloc: Global, refusal: &JoinRefusal) -> Result<String, AllocError>
    ensures { IfOk result (λ line. string_bytes line ≡ refusal_line refusal.now) }
{
    match refusal {
        JoinRefusal::BadSpecifier { specifier } => {
            joined(
                alloc,
                specifier.as_str(),
                " names no package: behind a scope a name has to stand",
                "",
                "\n",
            )
        }
        JoinRefusal::FailedManifestHydration { cause, manifest } => {
            joined(
                alloc,
                manifest.as_str(),
                " can't be read: ",
                cause_told(*cause),
                "\n",
            )
        }
        JoinRefusal::UndeclaredDependency(told) => {
            lacking_line(
                alloc,
                &told.issuer_locator,
                &told.dependency_name,
                ": add it to its dependencies\n",
            )
        }
        JoinRefusal::MissingPeerDependency(told) => {
            lacking_line(
                alloc,
                &told.issuer_locator,
                &told.dependency_name,
                ", its peer: add it where that is installed\n",
            )
        }
        JoinRefusal::NotInRegistry { name, reference } => {
            bound_line(
                alloc,
                name,
                reference,
                " has no row in the manifest: install again\n",
            )
        }
        JoinRefusal::NotLocked { name, reference } => {
            bound_line(
                alloc,
                name,
                reference,
                " has no entry in the lock: install again\n",
            )
        }
        JoinRefusal::MalformedPackage { path } => {
            joined(
                alloc,
                path.as_str(),
                " is malformed: no JSON object, or a field is of another kind",
                "",
                "\n",
            )
        }
        JoinRefusal::OutOfRange { range, version } => {
            joined(
                alloc,
                version.as_str(),
                " is locked, which isn't within ",
                range.as_str(),
                "\n",
            )
        }
        JoinRefusal::Archive { location } => {
            joined(
                alloc,
                location.as_str(),
                " lies inside an archive, and none is read: unplug the package",
                "",
                "\n",
            )
        }
        JoinRefusal::NotExported { location, key } => {
            joined(
                alloc,
                location.as_str(),
                " exports under the project's conditions no ",
                key.as_str(),
                "\n",
            )
        }
        JoinRefusal::Outside { file, location } => {
            joined(
                alloc,
                file.as_str(),
                " was found, which isn't below ",
                location.as_str(),
                "\n",
            )
        }
        JoinRefusal::NotFound { text } => joined(
            alloc,
            "nothing is found at ",
            text.as_str(),
            "",
            "\n",
        ),
        JoinRefusal::BaseNotAFile => joined(
            alloc,
            "what asks is no file, and the specifier is read from one",
            "",
            "",
            "\n",
        ),
    }
}

// That a package lacks another one, and where to add it.
fn lacking_line(
    alloc: Global,
    issuer: &PackageLocator,
    dependency: &Text,
    help: &str,
) -> Result<String, AllocError>
    ensures { IfOk result (λ line. string_bytes line
        ≡ lacking_line issuer.now dependency.now help.now) }
{
    joined(
        alloc,
        issuer_told(issuer),
        " lacks ",
        dependency.as_str(),
        help,
    )
}

// The package that asks; the top-level one has no name.
fn issuer_told(issuer: &PackageLocator) -> &str
    ensures { result.now ≡ issuer_told issuer.now }
{
    if issuer.name.as_str().is_empty() {
        "the project"
    } else {
        issuer.name.as_str()
    }
}

// What is wrong with a package that is bound.
fn bound_line(
    alloc: Global,
    name: &Text,
    reference: &Text,
    wrong: &str,
) -> Result<String, AllocError>
    ensures { IfOk result (λ line. string_bytes line ≡ bound_line name.now reference.now wrong.now) }
{
    joined(alloc, name.as_str(), "@", reference.as_str(), wrong)
}

fn cause_told(cause: HydrationCause) -> &'static str
    ensures { result.now ≡ cause_told cause }
{
    match cause {
        HydrationCause::NotText => "there is no text",
        HydrationCause::NoPayload => "it has no payload",
        HydrationCause::BadJson => "its payload is no JSON of a manifest",
        HydrationCause::BadPattern => "its ignore pattern is refused",
        HydrationCause::NoTopLevel => "it has no row for the top-level package",
    }
}
