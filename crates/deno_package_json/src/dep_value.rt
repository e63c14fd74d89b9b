// What a package requires under a name.
ghost use Rattle.std.specs.Prelude.{◌≡◌, ◌++◌, IfOk, codes, string_bytes};
ghost use Rattle.deno_package_json.specs.Message.{IsMessage};

use indexmap::IndexMap;
use npm_req::{NpmVersionReqParseError, PackageReq, VersionReq};
use std::alloc::{AllocError, Global};
use sugar_path::Text;
use thiserror::Error;

/// What is required: a package of the registry, or one of the workspace.
#[derive(PartialEq, Eq, Drop)]
pub enum PackageJsonDepValue {
    Req(PackageReq),
    Workspace(VersionReq),
}

/// Why a text says nothing that is supported.
#[derive(Debug, Drop, Error)]
pub enum PackageJsonDepValueParseError {
    /// The text is neither a range nor a tag of npm. The place counts its bytes before the first part that doesn't
    /// read.
    #[error("Invalid npm version requirement. Unexpected character.")]
    VersionReq { text: Text, place: usize },
    /// The value begins with this text and `:`.
    #[error("Not implemented scheme '{scheme}'")]
    Unsupported { scheme: Text },
}

/// Requirements by the names under which a package asks for them.
pub type PackageJsonDeps = IndexMap<
    Text,
    Result<PackageJsonDepValue, PackageJsonDepValueParseError>,
>;

impl PackageJsonDepValueParseError {
    /// The message in full. On a range it shows the range from the place on.
    pub fn message(&self, alloc: Global) -> Result<Text, AllocError>
        ensures { IfOk result (IsMessage self.now) }
    {
        match self {
            PackageJsonDepValueParseError::VersionReq { text, place } => {
                let refused = NpmVersionReqParseError::Unexpected { place: *place };
                refused.message(alloc, text.as_str())
            }
            PackageJsonDepValueParseError::Unsupported { scheme } => {
                Ok(Text::from(unsupported_message(alloc, scheme.as_str())?))
            }
        }
    }
}

fn unsupported_message(alloc: Global, scheme: &str) -> Result<String, AllocError>
    ensures { IfOk result (λ made.
        string_bytes made ≡ codes "Not implemented scheme '" ++ scheme.now ++ codes "'") }
{
    format!(in alloc; "Not implemented scheme '{scheme}'")
}
