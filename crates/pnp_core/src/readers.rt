// A manifest read from the value of its payload.
ghost use Rattle.std.specs.Prelude.{◌≡◌, [], IfOk, map, option_map, option_and_then};
ghost use Rattle.json.specs.Value.{value_view};
ghost use Rattle.serde_json.specs.Find.{as_str};
ghost use Rattle.serde_json.specs.Read.{read};
ghost use Rattle.serde_json.specs.View.{items_of, view};
ghost use Rattle.json_reading.specs.Borrowed.{data_of};
ghost use Rattle.json_reading.specs.Reading.{ReadsAs, items_by, nullable_by, pair_by};
ghost use Rattle.pnp_core.specs.ManifestReading.{
  IsReadAs,
  entries_of,
  fields_but_registry,
  fields_in,
  from_data,
  from_fields,
  manifest_in,
  named,
  references_in,
  registry_in,
  with_pattern_text,
  with_registry,
};

use crate::entries::{Entries, Members, NullableEntries, name_or_empty};
use crate::{
    Manifest, PackageDependency, PackageInformation, PackageLocator, ReadManifestError, RegexDef,
    Trie, physical_place,
};
use es_pattern::Pattern;
use indexmap::{IndexMap, IndexSet};
use json::Scratch;
use json_reading::{
    FromJson, FromJsonError, JsonValue, ReadJson, field, field_or, holds_float, into_items,
    into_member, read_text,
};
use serde_json::Value;
use std::alloc::{AllocError, Global};
use std::marker::Model;
use sugar_path::{List, Text};

/// The manifest that a JSON value says. It has no folder and no path yet, and its locations are as they were written.
/// `BadJson` comes for a value of another kind and for one that holds a float, and `BadPattern` for an ignore pattern
/// that is refused.
pub fn read_manifest(alloc: Global, value: &Value) -> Result<Manifest, ReadManifestError>
    ensures { IsReadAs result (manifest_in (view value.now)) }
{
    if holds_float(value) {
        return Err(ReadManifestError::BadJson);
    }
    manifest_of_fields(alloc, value)
}

/// The manifest that a text of JSON says.
pub(crate) fn manifest_of_json(alloc: Global, text: &str) -> Result<Manifest, ReadManifestError>
    ensures { IsReadAs result (from_data (read text.now)) }
{
    let mut scratch = Scratch::new(alloc);
    match read_text(alloc, text, &mut scratch)? {
        ReadJson::Borrowed(value) => manifest_of_borrowed(alloc, value),
        ReadJson::Owned(value) => read_manifest(alloc, &value),
    }
}

// The manifest that the fields of a value with borrowed texts say.
fn manifest_of_borrowed(
    alloc: Global,
    value: json::Value<'_>,
) -> Result<Manifest, ReadManifestError>
    ensures { IsReadAs result (from_fields (fields_in (data_of (value_view value.entry)))) }
{
    let (manifest, pattern) = fields_given_up(alloc, value)?;
    with_pattern(alloc, manifest, pattern)
}

// The manifest that the fields of a value say.
fn manifest_of_fields<J: JsonValue>(alloc: Global, value: &J) -> Result<Manifest, ReadManifestError>
    ensures { IsReadAs result (from_fields (fields_in (J.stands_for value.now))) }
{
    let (manifest, pattern) = fields(alloc, value)?;
    with_pattern(alloc, manifest, pattern)
}

// The manifest with the pattern that the text is, where it has one.
fn with_pattern(
    alloc: Global,
    manifest: Manifest,
    pattern: Option<Text>,
) -> Result<Manifest, ReadManifestError>
    ensures { IsReadAs result (with_pattern_text manifest pattern) }
{
    let Some(text) = pattern else {
        return Ok(manifest);
    };
    let mut manifest = manifest;
    manifest.ignore_pattern_data = Some(RegexDef(Pattern::parse(alloc, text.as_str())?));
    Ok(manifest)
}

// The fields of a manifest, and the text of its ignore pattern.
fn fields<J: JsonValue>(alloc: Global, value: &J) -> Result<(Manifest, Option<Text>), FromJsonError>
    ensures { ReadsAs result (fields_in (J.stands_for value.now)) }
{
    let (manifest, pattern) = fields_but_registry(alloc, value)?;
    let registry: Registry = field(alloc, value, "packageRegistryData")?;
    Ok((with_registry(manifest, registry), pattern))
}

// The fields of a manifest whose value is given up: what is made of a row takes the room of the rows before it.
fn fields_given_up(
    alloc: Global,
    value: json::Value<'_>,
) -> Result<(Manifest, Option<Text>), FromJsonError>
    ensures { ReadsAs result (fields_in (data_of (value_view value.entry))) }
{
    let (manifest, pattern) = fields_but_registry(alloc, &value)?;
    let registry = registry_given_up(alloc, into_member(value, "packageRegistryData"))?;
    Ok((with_registry(manifest, registry), pattern))
}

// The fields of a manifest but its registry, and the text of its ignore pattern; others are passed over.
fn fields_but_registry<J: JsonValue>(
    alloc: Global,
    value: &J,
) -> Result<(Manifest, Option<Text>), FromJsonError>
    ensures read { ReadsAs result (fields_but_registry (J.stands_for value.now)) }
    ensures folder { IfOk result (λ read. read.0.manifest_dir ≡ []) }
{
    let enable_top_level_fallback: bool = field(alloc, value, "enableTopLevelFallback")?;
    let pattern: Option<Text> = field_or(alloc, value, "ignorePatternData", None)?;
    let roots: Members<PackageLocator> = field(alloc, value, "dependencyTreeRoots")?;
    let pool: Entries<Option<PackageDependency>> = field(alloc, value, "fallbackPool")?;
    let exclusions: Exclusions = field(alloc, value, "fallbackExclusionList")?;
    let manifest = Manifest {
        manifest_dir: Text::from(String::new(alloc)),
        manifest_path: Text::from(String::new(alloc)),
        location_trie: Trie::new(alloc),
        enable_top_level_fallback,
        ignore_pattern_data: None,
        dependency_tree_roots: roots.set,
        fallback_pool: pool.map,
        fallback_exclusion_list: exclusions.map,
        package_registry_data: IndexMap::new(alloc),
    };
    Ok((manifest, pattern))
}

// A manifest that has no folder yet, with a registry.
fn with_registry(mut manifest: Manifest, registry: Registry) -> Manifest
    requires { manifest.manifest_dir ≡ [] }
    ensures { result ≡ with_registry manifest registry }
{
    manifest.package_registry_data = registry.map;
    manifest
}

impl FromJson for PackageLocator {
    ghost use Rattle.pnp_core.specs.ManifestReading.{locator_in};

    ghost reads = { locator_in };

    fn from_json<J: JsonValue>(alloc: Global, value: &J) -> Result<Self, FromJsonError> {
        let name: Text = field(alloc, value, "name")?;
        let reference: Text = field(alloc, value, "reference")?;
        Ok(PackageLocator { name, reference })
    }
}

impl FromJson for PackageDependency {
    ghost use Rattle.pnp_core.specs.ManifestReading.{dependency_in};

    ghost reads = { dependency_in };

    fn from_json<J: JsonValue>(alloc: Global, value: &J) -> Result<Self, FromJsonError> {
        if let Some(reference) = value.as_str() {
            return Ok(PackageDependency::Reference(Text::of(alloc, reference)?));
        }
        let (name, reference) = <(Text, Text)>::from_json(alloc, value)?;
        Ok(PackageDependency::Alias(name, reference))
    }
}

impl FromJson for PackageInformation {
    ghost use Rattle.pnp_core.specs.ManifestReading.{package_in};

    ghost reads = { package_in };

    fn from_json<J: JsonValue>(alloc: Global, value: &J) -> Result<Self, FromJsonError> {
        let package_location: Text = field(alloc, value, "packageLocation")?;
        let discard_from_lookup: bool = field_or(alloc, value, "discardFromLookup", false)?;
        let dependencies: Entries<Option<PackageDependency>> = field(
            alloc,
            value,
            "packageDependencies",
        )?;
        let package_place = physical_place(alloc, package_location.as_str())?;
        Ok(PackageInformation {
            package_location,
            package_place,
            discard_from_lookup,
            package_dependencies: dependencies.map,
        })
    }
}

// References by name, seen as lists.
#[derive(Drop)]
struct Exclusions {
    map: IndexMap<Text, IndexSet<Text>>,
}

impl Model for Exclusions {
    ghost use Rattle.std.specs.Prelude as prelude;

    ghost Value = { prelude.List (prelude.List prelude.ℕ × prelude.List (prelude.List prelude.ℕ)) };

    ghost view = { λ e. prelude.map (λ named. (named.0, named.1.keys)) e.map.entries };
}

impl FromJson for Exclusions {
    ghost use Rattle.pnp_core.specs.ManifestReading.{exclusions_in};

    ghost reads = { exclusions_in };

    fn from_json<J: JsonValue>(alloc: Global, value: &J) -> Result<Self, FromJsonError> {
        let pairs = List::<(Text, Members<Text>)>::from_json(alloc, value)?;
        let exclusions = collect_exclusions(alloc, pairs.into())?;
        Ok(exclusions)
    }
}

fn collect_exclusions(
    alloc: Global,
    pairs: Vec<(Text, Members<Text>)>,
) -> Result<Exclusions, AllocError>
    ensures { IfOk result (λ read. read ≡ entries_of pairs.items) }
{
    let mut map = IndexMap::new(alloc);
    for (name, references) in pairs {
        let Members { set } = references;
        map.insert(name, set)?;
    }
    Ok(Exclusions { map })
}

// Rows by reference by name, seen as lists.
#[derive(Drop)]
struct Registry {
    map: IndexMap<Text, IndexMap<Text, PackageInformation>>,
}

impl Model for Registry {
    ghost use Rattle.std.specs.Prelude as prelude;
    ghost use Rattle.pnp_core.specs.Manifest as manifest;

    ghost Value = { manifest.Registry };

    ghost view = { λ r. prelude.map (λ named. (named.0, named.1.entries)) r.map.entries };
}

impl FromJson for Registry {
    ghost use Rattle.pnp_core.specs.ManifestReading.{registry_in};

    ghost reads = { registry_in };

    fn from_json<J: JsonValue>(alloc: Global, value: &J) -> Result<Self, FromJsonError> {
        let pairs = List::<(Option<Text>, NullableEntries<PackageInformation>)>::from_json(
            alloc, value,
        )?;
        let registry = collect_registry(alloc, pairs.into())?;
        Ok(registry)
    }
}

// The registry that a member is, where there is that member.
fn registry_given_up(
    alloc: Global,
    member: Option<json::Value<'_>>,
) -> Result<Registry, FromJsonError>
    ensures { ReadsAs result (option_and_then registry_in (option_map (λ v. data_of (value_view v)) member.entry)) }
{
    let Some(member) = member else {
        return Err(FromJsonError::OtherKind);
    };
    match into_items(member) {
        Some(rows) => registry_of_rows(alloc, rows),
        None => Err(FromJsonError::OtherKind),
    }
}

// The registry of rows, each of which goes once it is read.
fn registry_of_rows(alloc: Global, rows: Vec<json::Value<'_>>) -> Result<Registry, FromJsonError>
    ensures { ReadsAs result (option_map (λ pairs. entries_of (map named pairs))
        (items_by (pair_by (nullable_by as_str) references_in)
        (items_of (map (λ v. data_of (value_view v)) rows.entry.items)))) }
{
    let mut map = IndexMap::with_capacity(alloc, rows.len())?;
    for row in rows {
        let (name, references) = row_given_up(alloc, row)?;
        map.insert(name, references.map)?;
    }
    Ok(Registry { map })
}

// What a row says: the package's name, and what it says of each reference.
fn row_given_up(
    alloc: Global,
    row: json::Value<'_>,
) -> Result<(Text, NullableEntries<PackageInformation>), FromJsonError>
    ensures { ReadsAs result (option_map named
        (pair_by (nullable_by as_str) references_in (data_of (value_view row.entry)))) }
{
    let (name, references) = <(Option<Text>, NullableEntries<PackageInformation>)>::from_json(
        alloc, &row,
    )?;
    Ok((name_or_empty(alloc, name), references))
}

fn collect_registry(
    alloc: Global,
    pairs: Vec<(Option<Text>, NullableEntries<PackageInformation>)>,
) -> Result<Registry, AllocError>
    ensures { IfOk result (λ read. read ≡ entries_of (map named pairs.items)) }
{
    let mut map = IndexMap::with_capacity(alloc, pairs.len())?;
    for (name, references) in pairs {
        let NullableEntries { map: packages } = references;
        map.insert(name_or_empty(alloc, name), packages)?;
    }
    Ok(Registry { map })
}
