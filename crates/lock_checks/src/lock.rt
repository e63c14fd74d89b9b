// A lock whose entries are looked up.
ghost use Rattle.std.specs.Prelude.{◌≡◌, ◌==◌, ◌&&◌, IfOk, slice_get};

use crate::places::{earlier, places_of_releases, places_of_resolutions};
use crate::reference::plain_reference;
use pnp_core::PackageLocator;
use std::alloc::{AllocError, Global};
use std::collections::HashMap;
use std::marker::Model;
use sugar_path::after;
use yarn_lock_parser::{Entry, Lockfile};

/// A lock that finds the entry of a package by a look-up. What it shows is the lock file.
#[derive(Drop)]
pub struct Lock<'l> {
    file: Lockfile<'l>,
    // Where each resolution stands first, and in a lock of version 1 each name with its version. A look-up goes over no
    // entry.
    resolutions: HashMap<&'l str, usize>,
    releases: HashMap<(&'l str, &'l str), usize>,
}

impl<'l> Model for Lock<'l> {
    ghost use Rattle.yarn_lock_parser.specs.Lock as specs;

    ghost Value = { specs.Lock };

    ghost use Rattle.lock_checks.specs.PlacesView.{HoldsPlaces};

    ghost view = { λ l. l.file };

    ghost invariant = { HoldsPlaces };
}

impl<'l> Lock<'l> {
    ghost use Rattle.std.specs.Option.{option_copied};
    ghost use Rattle.lock_checks.specs.Naming.{first_naming, has_release, names};
    ghost use Rattle.lock_checks.specs.Places.{first_place};

    /// The lock of a file.
    pub fn of(alloc: Global, file: Lockfile<'l>) -> Result<Lock<'l>, AllocError>
        ensures { IfOk result (λ lock. lock ≡ file.entry) }
    {
        let resolutions = places_of_resolutions(alloc, file.entries())?;
        let releases = places_of_releases(alloc, file.version(), file.entries())?;
        Ok(Lock {
            file,
            resolutions,
            releases,
        })
    }

    /// The lock's file.
    pub fn file(&self) -> &Lockfile<'l>
        ensures { result.now ≡ self.now }
    {
        &self.file
    }

    /// The first entry that names a package.
    pub fn first_naming(
        &self,
        alloc: Global,
        locator: &PackageLocator,
    ) -> Result<Option<&Entry<'l>>, AllocError>
        ensures { IfOk result (λ found. option_copied found ≡ first_naming self.now locator.now) }
    {
        let name = locator.name.as_str();
        let reference = plain_reference(locator.reference.as_str());
        match self.place_of(alloc, name, reference)? {
            Some(place) => Ok(self.entry_at(place)),
            None => Ok(None),
        }
    }

    fn entry_at(&self, place: usize) -> Option<&Entry<'l>>
        ensures { option_copied result ≡ slice_get self.now.entries place }
    {
        self.file.entries().get(place)
    }

    // The place of the first entry that names a package by its name and plain reference.
    fn place_of(
        &self,
        alloc: Global,
        name: &str,
        reference: &str,
    ) -> Result<Option<usize>, AllocError>
        ensures { IfOk result (λ place. place
            ≡ first_place (λ e. names e self.now.version name.now reference.now) self.now.entries) }
    {
        let resolution = format!(in alloc; "{name}@{reference}")?;
        let resolved = self.resolutions.get(resolution.as_str()).copied();
        Ok(earlier(resolved, self.place_of_release(name, reference)))
    }

    // The place of the first entry of a lock of version 1 that has the name and the version that the reference tells.
    fn place_of_release(&self, name: &str, reference: &str) -> Option<usize>
        ensures { result ≡ first_place
            (λ e. (self.now.version == 1) && has_release e name.now reference.now) self.now.entries }
    {
        let version = after("npm:", reference)?;
        self.releases.get(&(name, version)).copied()
    }
}
