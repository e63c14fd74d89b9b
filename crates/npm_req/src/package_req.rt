// A package with the requirement on its version.
ghost use Rattle.std.specs.Prelude.{◌≡◌, ◌↔◌, [], IfOk, IfErr};
ghost use Rattle.npm_req.specs.Package.{name_and_range};
ghost use Rattle.npm_req.specs.Requirement.{meaning_of};
ghost use Rattle.npm_req.specs.PackageRefusal.{IsPlaceInRange, IsRefused};

use crate::error::{NpmVersionReqParseError, PackageReqParseError};
use crate::requirement::VersionReq;
use std::alloc::Global;
use sugar_path::Text;

/// A package's name and the requirement on its version.
#[derive(PartialEq, Eq, Drop)]
pub struct PackageReq {
    pub name: Text,
    pub version_req: VersionReq,
}

impl PackageReq {
    /// Reads `name@range`. The name ends at the last `@` that isn't the first byte; where there is none, the
    /// requirement is `*`.
    pub fn from_str(alloc: Global, text: &str) -> Result<PackageReq, PackageReqParseError>
        ensures name { IfOk result (λ made. made.name ≡ (name_and_range text.now).0) }
        ensures text { IfOk result (λ made. made.version_req.text ≡ (name_and_range text.now).1) }
        ensures read { IfOk result (λ made.
            meaning_of (name_and_range text.now).1 ≡ Ok made.version_req.meaning) }
        ensures empty { (result ≡ Err PackageReqParseError.EmptyName) ↔ (text.now ≡ []) }
        ensures refused { IfErr result (IsRefused text.now) }
        ensures place { IfErr result (IsPlaceInRange text.now) }
    {
        if text.is_empty() {
            return Err(PackageReqParseError::EmptyName);
        }
        let (name, range) = name_and_range(text);
        let version_req = VersionReq::parse_from_npm(alloc, range)?;
        Ok(PackageReq {
            name: Text::of(alloc, name)?,
            version_req,
        })
    }
}

/// The name and the requirement of `name@range`, as they stand: the name reaches to the last `@` behind its first byte,
/// and without one the requirement is `*`.
pub fn name_and_range(text: &str) -> (&str, &str)
    ensures { (result.0.now, result.1.now) ≡ name_and_range text.now }
{
    let Some((name, range)) = text.rsplit_once('@') else {
        return (text, "*");
    };
    if name.is_empty() {
        return (text, "*");
    }
    (name, range)
}
