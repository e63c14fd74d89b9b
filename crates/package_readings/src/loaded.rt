// The packages that contents were loaded to, kept by their bytes.
ghost use Rattle.std.specs.Prelude.{◌≡◌, IfOk, codes, map, option_and_then, option_map, slice_get};
ghost use Rattle.std.specs.Str.Lossy.{utf8_lossy};
ghost use Rattle.json_reading.specs.Bytes.{json_of};
ghost use Rattle.deno_package_json.specs.Loading.{Loads, from_json, from_text};
ghost use Rattle.deno_package_json.specs.Package.{package_of};
ghost use Rattle.deno_package_json.specs.Requirements.{requirements_of};
ghost use Rattle.package_readings.specs.Kept.{ArePackages, IsPackageAt, IsTakenFrom};
ghost use Rattle.package_readings.specs.Readings.{IsReadTo};

use crate::ReadPackage;
use deno_package_json::{PackageJson, PackageJsonLoadError};
use indexmap::IndexMap;
use std::alloc::{AllocError, Global};
use std::marker::Model;
use sugar_path::{Bytes, Text};
use swc_loader::{ContentKey, Readings, make_room};

// The packages of contents, or none for a content that is refused. A content that is one too many takes the place of
// all.
#[derive(Drop)]
pub(crate) struct LoadedPackages {
    kept: IndexMap<ContentKey, Option<ReadPackage>>,
}

impl Model for LoadedPackages {
    ghost use Rattle.package_readings.specs.Kept.{ArePackages};

    ghost Value = { Unit {0} };

    ghost view = { λ _. tt };

    ghost invariant = { λ p. ArePackages p.kept.entries };
}

impl LoadedPackages {
    // None is loaded yet.
    pub(crate) fn new(alloc: Global) -> LoadedPackages {
        LoadedPackages {
            kept: IndexMap::new(alloc),
        }
    }

    // The package that a content is. Only a new content is loaded.
    pub(crate) fn package_of(
        &mut self,
        alloc: Global,
        values: &mut Readings,
        content: Bytes,
    ) -> Result<Option<&ReadPackage>, AllocError>
        ensures { IfOk result (λ found. IsReadTo content (option_map (λ p. p.now) found)) }
    {
        let place = place_of(alloc, &mut self.kept, values, ContentKey::of(content))?;
        Ok(package_at(&self.kept, place))
    }
}

// The package that stands at a place.
fn package_at(
    kept: &IndexMap<ContentKey, Option<ReadPackage>>,
    place: usize,
) -> Option<&ReadPackage>
    ensures { option_map (λ p. p.now) result
        ≡ option_and_then (λ o. o) (slice_get (map (λ e. e.1) kept.now.entries) place) }
{
    match kept.get_index(place) {
        Some((_, Some(package))) => Some(package),
        _ => None,
    }
}

// The place of the package that a content is. A new content is loaded, and its package kept at the end.
fn place_of(
    alloc: Global,
    kept: &mut IndexMap<ContentKey, Option<ReadPackage>>,
    values: &mut Readings,
    key: ContentKey,
) -> Result<usize, AllocError>
    requires { ArePackages kept.old.entries }
    ensures kept { ArePackages kept.new.entries }
    ensures place { IfOk result (λ place. IsPackageAt kept.new.entries place key) }
{
    if let Some(place) = kept.get_index_of(&key) {
        return Ok(place);
    }
    let package = package_in(alloc, values, key.content())?;
    make_room(kept);
    let (place, _) = kept.insert_full(key, package)?;
    Ok(place)
}

// The package that a content is, with its requirements.
fn package_in(
    alloc: Global,
    values: &mut Readings,
    content: &Bytes,
) -> Result<Option<ReadPackage>, AllocError>
    ensures { IfOk result (IsReadTo content.now) }
{
    match unless_refused(loaded(alloc, values, content))? {
        Some(package_json) => Ok(Some(with_requirements(alloc, package_json)?)),
        None => Ok(None),
    }
}

// The package of a load, or none where the text was refused.
fn unless_refused(
    loaded: Result<PackageJson, PackageJsonLoadError>,
) -> Result<Option<PackageJson>, AllocError>
    ensures { IfOk result (IsTakenFrom loaded) }
{
    match loaded {
        Ok(package_json) => Ok(Some(package_json)),
        Err(PackageJsonLoadError::NoMemory) => Err(AllocError),
        Err(_) => Ok(None),
    }
}

// A package with its requirements.
fn with_requirements(alloc: Global, package_json: PackageJson) -> Result<ReadPackage, AllocError>
    ensures same { IfOk result (λ read. read.package_json ≡ package_json) }
    ensures required { IfOk result (λ read.
        read.requirements.entries ≡ requirements_of (package_of package_json)) }
{
    let requirements = package_json.resolve_local_package_json_deps(alloc)?;
    Ok(ReadPackage {
        package_json,
        requirements,
    })
}

// The package of the text that a content is, or is nearest to.
fn loaded(
    alloc: Global,
    values: &mut Readings,
    content: &Bytes,
) -> Result<PackageJson, PackageJsonLoadError>
    ensures { Loads result (from_text (codes "") (utf8_lossy content.now)) }
{
    let path = Text::of(alloc, "")?;
    match str::from_utf8(content.as_slice()) {
        Ok(text) => if text.trim().is_empty() {
            PackageJson::load_from_string(alloc, path, text)
        } else {
            loaded_value(alloc, values, content, path)
        },
        Err(_) => {
            let text = String::from_utf8_lossy(alloc, content.as_slice())?;
            PackageJson::load_from_string(alloc, path, text.as_str())
        }
    }
}

// The package of the value that a content is. The value is parsed once, whoever asks for it.
fn loaded_value(
    alloc: Global,
    values: &mut Readings,
    content: &Bytes,
    path: Text,
) -> Result<PackageJson, PackageJsonLoadError>
    ensures { Loads result (from_json path (json_of content.now)) }
{
    match values.value_of(alloc, content.try_clone(alloc)?)? {
        Some(value) => PackageJson::load_from_value(alloc, path, value),
        None => Err(PackageJsonLoadError::Deserialize { path }),
    }
}
