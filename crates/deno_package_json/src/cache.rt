// Packages that are kept by the paths of their files.
ghost use Rattle.std.specs.Prelude.{◌≡◌, IfOk, OnOk, OnErr, option_map, string_bytes};
ghost use Rattle.std.specs.FinMap as finite;
ghost use Rattle.deno_package_json.specs.Cache.{Kept, shared};

use crate::rc::PackageJsonRc;
use std::alloc::{AllocError, Global};
use std::collections::BTreeMap;
use sugar_path::Text;

/// A cache of packages that were loaded.
pub trait PackageJsonCache {
    /// The packages that are kept, by the paths of their files.
    ghost kept: { Self → Kept };

    /// The package that is kept under a path.
    fn get(&self, path: &str) -> Result<Option<PackageJsonRc>, AllocError>
        ensures { IfOk result (λ found.
            option_map shared found ≡ finite.get (kept self.now) path.now) };

    /// Keeps a package under a path, in place of an earlier one.
    fn set(&mut self, path: Text, package_json: PackageJsonRc) -> Result<(), AllocError>
        ensures put { OnOk result (kept self.new
            ≡ finite.insert (kept self.old) path (shared package_json)) }
        ensures same { OnErr result (kept self.new ≡ kept self.old) };
}

/// A cache over an ordered map.
#[derive(Drop)]
pub struct BTreeMapCache {
    alloc: Global,
    packages: BTreeMap<String, PackageJsonRc>,
}

impl BTreeMapCache {
    /// A cache that keeps nothing.
    pub fn new(alloc: Global) -> BTreeMapCache
        ensures { ⟦<BTreeMapCache as PackageJsonCache>⟧.kept result ≡ finite.empty }
    {
        BTreeMapCache {
            alloc,
            packages: BTreeMap::new(alloc),
        }
    }
}

impl PackageJsonCache for BTreeMapCache {
    ghost use Rattle.deno_package_json.specs.Cache.{kept_by, shared};

    ghost kept = { λ c. kept_by c.packages.entries shared };

    fn get(&self, path: &str) -> Result<Option<PackageJsonRc>, AllocError> {
        match self.packages.get(path) {
            Some(found) => Ok(Some(found.clone()?)),
            None => Ok(None),
        }
    }

    fn set(&mut self, path: Text, package_json: PackageJsonRc) -> Result<(), AllocError> {
        let path = path.into_string(self.alloc)?;
        self.packages.insert(path, package_json)?;
        Ok(())
    }
}
