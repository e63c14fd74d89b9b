// What contents of package.jsons were read to.
ghost use Rattle.std.specs.Prelude.{IfOk, option_map};
ghost use Rattle.package_readings.specs.Readings.{IsReadTo};

use crate::loaded::LoadedPackages;
use deno_package_json::{PackageJson, PackageJsonDeps};
use std::alloc::{AllocError, Global};
use sugar_path::Bytes;
use swc_loader::Readings;

/// What a package.json was read to.
#[derive(Drop)]
pub struct ReadPackage {
    /// What it says. Where the file lies isn't told: the path is one that no file has.
    pub package_json: PackageJson,
    /// What it requires under each name.
    pub requirements: PackageJsonDeps,
}

/// What contents of package.jsons were read to, so that a content that several requests read is read once. They
/// change no answer: contracts see nothing of what is kept.
#[derive(Drop)]
pub struct PackageReadings {
    /// What the contents are as JSON.
    pub values: Readings,
    loaded: LoadedPackages,
}

impl PackageReadings {
    /// Readings that keep nothing yet.
    pub fn new(alloc: Global) -> PackageReadings {
        PackageReadings {
            values: Readings::new(alloc),
            loaded: LoadedPackages::new(alloc),
        }
    }

    /// The package that a content is, as `load_from_string` loads its text with U+FFFD for what is no UTF-8; none
    /// where that refuses it. Where memory is wanting, it isn't kept.
    pub fn package_of(
        &mut self,
        alloc: Global,
        content: Bytes,
    ) -> Result<Option<&ReadPackage>, AllocError>
        ensures { IfOk result (λ found. IsReadTo content (option_map (λ p. p.now) found)) }
    {
        self.loaded.package_of(alloc, &mut self.values, content)
    }
}
