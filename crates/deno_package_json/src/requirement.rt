// The requirements of a package.
ghost use Rattle.std.specs.Prelude.{◌≡◌, Err, IfOk, OnOk, fold, option_map};
ghost use Rattle.deno_package_json.specs.Message.{ArePlaced, IsPlaced};
ghost use Rattle.deno_package_json.specs.Package.{package_of};
ghost use Rattle.deno_package_json.specs.Requirements.{
  around_colon,
  is_unsupported,
  of_package,
  of_workspace,
  required,
  requirements_of,
  with_new,
  with_table,
};

use crate::dep_value::{PackageJsonDepValue, PackageJsonDepValueParseError, PackageJsonDeps};
use crate::package_json::PackageJson;
use indexmap::IndexMap;
use npm_req::{NpmVersionReqParseError, PackageReq, VersionReq, name_and_range};
use std::alloc::{AllocError, Global};
use sugar_path::Text;

// A requirement, or why there is none.
type Required = Result<PackageJsonDepValue, PackageJsonDepValueParseError>;

impl PackageJson {
    /// The requirements in order: those of `dependencies`, then those of `devDependencies` under further names.
    pub fn resolve_local_package_json_deps(
        &self,
        alloc: Global,
    ) -> Result<PackageJsonDeps, AllocError>
        ensures in_order { IfOk result (λ deps.
            deps.entries ≡ requirements_of (package_of self.now)) }
        ensures placed { IfOk result (λ deps. ArePlaced deps.entries) }
    {
        let mut deps = IndexMap::new(alloc);
        if let Some(table) = &self.dependencies {
            insert_deps(alloc, &mut deps, table)?;
        }
        if let Some(table) = &self.dev_dependencies {
            insert_deps(alloc, &mut deps, table)?;
        }
        Ok(deps)
    }
}

// Puts the requirements of a table behind the others, but for names that are there.
fn insert_deps(
    alloc: Global,
    deps: &mut PackageJsonDeps,
    table: &IndexMap<Text, Text>,
) -> Result<(), AllocError>
    ensures with_table { OnOk result (
        deps.new.entries ≡ fold with_new deps.old.entries table.now.entries) }
    ensures placed { OnOk result (ArePlaced deps.old.entries → ArePlaced deps.new.entries) }
{
    for (name, value) in table.iter() {
        insert_dep(alloc, deps, name, value)?;
    }
    Ok(())
}

fn insert_dep(
    alloc: Global,
    deps: &mut PackageJsonDeps,
    name: &Text,
    value: &Text,
) -> Result<(), AllocError>
    ensures with_new { OnOk result (
        deps.new.entries ≡ with_new deps.old.entries (name.now, value.now)) }
    ensures placed { OnOk result (ArePlaced deps.old.entries → ArePlaced deps.new.entries) }
{
    if deps.contains_key(name) {
        return Ok(());
    }
    let found = required(alloc, name.as_str(), value.as_str())?;
    deps.insert(name.try_clone(alloc)?, found)?;
    Ok(())
}

// What a value requires under a name.
fn required(alloc: Global, name: &str, value: &str) -> Result<Required, AllocError>
    ensures required { IfOk result (λ found. found ≡ required name.now value.now) }
    ensures placed { IfOk result IsPlaced }
{
    match around_colon(value) {
        None => of_package(alloc, name, value),
        Some((scheme, rest)) => match scheme {
            "workspace" => of_workspace(alloc, rest),
            "npm" => {
                let (aliased, range) = name_and_range(rest);
                of_package(alloc, aliased, range)
            }
            _ => if is_unsupported(scheme) {
                let scheme = Text::of(alloc, scheme)?;
                Ok(Err(PackageJsonDepValueParseError::Unsupported { scheme }))
            } else {
                of_package(alloc, name, value)
            },
        },
    }
}

fn around_colon(text: &str) -> Option<(&str, &str)>
    ensures { option_map (λ x. (x.0.now, x.1.now)) result ≡ around_colon text.now }
{
    text.split_once(':')
}

fn is_unsupported(scheme: &str) -> bool
    ensures { result ≡ is_unsupported scheme.now }
{
    scheme == "file" || scheme == "git" || scheme == "http" || scheme == "https"
}

// A package and the range of its version.
fn of_package(alloc: Global, name: &str, range: &str) -> Result<Required, AllocError>
    ensures read { IfOk result (λ found. found ≡ of_package (name.now, range.now)) }
    ensures placed { IfOk result IsPlaced }
{
    match VersionReq::parse_from_npm(alloc, range) {
        Ok(version_req) => {
            let name = Text::of(alloc, name)?;
            Ok(Ok(PackageJsonDepValue::Req(PackageReq { name, version_req })))
        }
        Err(NpmVersionReqParseError::Unexpected { place }) => refused(alloc, range, place),
        Err(NpmVersionReqParseError::NoMemory) => Err(AllocError),
    }
}

// The range of a version of the workspace.
fn of_workspace(alloc: Global, range: &str) -> Result<Required, AllocError>
    ensures read { IfOk result (λ found. found ≡ of_workspace range.now) }
    ensures placed { IfOk result IsPlaced }
{
    match VersionReq::parse_from_npm(alloc, range) {
        Ok(version_req) => Ok(Ok(PackageJsonDepValue::Workspace(version_req))),
        Err(NpmVersionReqParseError::Unexpected { place }) => refused(alloc, range, place),
        Err(NpmVersionReqParseError::NoMemory) => Err(AllocError),
    }
}

fn refused(alloc: Global, range: &str, place: usize) -> Result<Required, AllocError>
    ensures { IfOk result (λ found.
        found ≡ Err (PackageJsonDepValueParseError.VersionReq range.now place)) }
{
    let text = Text::of(alloc, range)?;
    Ok(Err(PackageJsonDepValueParseError::VersionReq { text, place }))
}
