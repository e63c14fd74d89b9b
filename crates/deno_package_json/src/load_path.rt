// A package.json from its file.
ghost use Rattle.std.specs.Prelude.{◌≡◌, OnOk, OnErr, option_map};
ghost use Rattle.std.specs.FinMap as finite;
ghost use Rattle.deno_package_json.specs.Cache.{shared};
ghost use Rattle.deno_package_json.specs.PathLoading.{
  HasLoadCause,
  KeepsAnswer,
  KeepsIfBorrowed,
  LoadsFile,
  LoadsKept,
  held,
  kept_at,
  left,
};

use crate::cache::PackageJsonCache;
use crate::error::PackageJsonLoadError;
use crate::fs::DenoPkgJsonFs;
use crate::package_json::PackageJson;
use crate::rc::{PackageJsonRc, new_rc};
use std::alloc::{AllocError, Global};
use sugar_path::Text;
use tree_core::ReadError;

impl PackageJson {
    /// The package of a file: the one that the cache keeps under the path, else that of the file's text, which the
    /// cache then keeps.
    pub fn load_from_path<F: DenoPkgJsonFs, C: PackageJsonCache>(
        alloc: Global,
        path: &str,
        fs: &mut F,
        cache: Option<&mut C>,
    ) -> Result<PackageJsonRc, PackageJsonLoadError>
        ensures loads { LoadsKept (kept_at path.now (option_map C.kept (held cache.entry)))
            (F.files fs.old) path.now result }
        ensures keeps { KeepsIfBorrowed (option_map C.kept (held cache.entry))
            (option_map C.kept (left cache.exit)) path.now result }
        ensures files { F.files fs.new ≡ F.files fs.old }
        ensures cause { HasLoadCause (F.faults fs.old) (F.faults fs.new) result }
    {
        match cache {
            Some(cache) => load_kept(alloc, path, fs, cache),
            None => load_file(alloc, path, fs),
        }
    }
}

// By way of a cache.
fn load_kept<F: DenoPkgJsonFs, C: PackageJsonCache>(
    alloc: Global,
    path: &str,
    fs: &mut F,
    cache: &mut C,
) -> Result<PackageJsonRc, PackageJsonLoadError>
    ensures loads { LoadsKept (finite.get (C.kept cache.old) path.now)
        (F.files fs.old) path.now result }
    ensures keeps { KeepsAnswer (C.kept cache.old) (C.kept cache.new) path.now result }
    ensures files { F.files fs.new ≡ F.files fs.old }
    ensures cause { HasLoadCause (F.faults fs.old) (F.faults fs.new) result }
{
    if let Some(found) = cache.get(path)? {
        return Ok(found);
    }
    let loaded = load_file(alloc, path, fs)?;
    keep(alloc, path, cache, &loaded)?;
    Ok(loaded)
}

// Keeps a package that was loaded.
fn keep<C: PackageJsonCache>(
    alloc: Global,
    path: &str,
    cache: &mut C,
    loaded: &PackageJsonRc,
) -> Result<(), AllocError>
    ensures put { OnOk result (C.kept cache.new
        ≡ finite.insert (C.kept cache.old) path.now (shared loaded.now)) }
    ensures same { OnErr result (C.kept cache.new ≡ C.kept cache.old) }
{
    let key = Text::of(alloc, path)?;
    let copy = loaded.clone()?;
    cache.set(key, copy)
}

// By way of the reader alone.
fn load_file<F: DenoPkgJsonFs>(
    alloc: Global,
    path: &str,
    fs: &mut F,
) -> Result<PackageJsonRc, PackageJsonLoadError>
    ensures loads { LoadsFile (F.files fs.old) path.now result }
    ensures files { F.files fs.new ≡ F.files fs.old }
    ensures cause { HasLoadCause (F.faults fs.old) (F.faults fs.new) result }
{
    let told = Text::of(alloc, path)?;
    match fs.read_to_string_lossy(alloc, path) {
        Ok(text) => {
            let loaded = PackageJson::load_from_string(alloc, told, text.as_str())?;
            Ok(new_rc(alloc, loaded)?)
        }
        Err(ReadError::Fault) => Err(PackageJsonLoadError::Io { path: told }),
        Err(ReadError::NoMemory) => Err(PackageJsonLoadError::NoMemory),
    }
}
