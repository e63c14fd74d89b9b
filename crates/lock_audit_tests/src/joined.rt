// What the join refuses of a manifest's bindings by its registry row and its lock row.
use crate::audited::{put_count, put_line};
use indexmap::IndexMap;
use pnp_core::{Manifest, PackageDependency, PackageInformation, PackageLocator, loaded_manifest};
use resolve_stack::{FileName, JoinRefusal, Project, Resolver, TsRefusal, Verdict};
use std::alloc::{AllocError, Global};
use std::test::Fail;
use sugar_path::{CleanPath, Text};
use tree_core::{MemoryTree, Recorder};

/// What the join refuses of the bindings of the manifest in `/w`, a line each, and then how many bindings there are.
/// Each is asked for by a file of its owner.
pub(crate) fn joined(
    alloc: Global,
    tree: &mut MemoryTree,
    project: &Project<'_>,
) -> Result<String, Fail> {
    let manifest = manifest_in(alloc, tree)?;
    Ok(lines_of(alloc, tree, project, &manifest)?)
}

fn manifest_in(alloc: Global, tree: &mut MemoryTree) -> Result<Manifest, Fail> {
    let path = CleanPath::read(alloc, &CleanPath::root(alloc), "/w/.pnp.cjs")?;
    let mut recorder = Recorder::new(alloc, tree);
    Ok(loaded_manifest(alloc, &mut recorder, &path)?)
}

fn lines_of(
    alloc: Global,
    tree: &mut MemoryTree,
    project: &Project<'_>,
    manifest: &Manifest,
) -> Result<String, AllocError> {
    let mut join = Join {
        alloc,
        resolver: Resolver::new(alloc, project),
        lines: String::new(alloc),
        bindings: 0,
    };
    for (name, references) in manifest.package_registry_data.iter() {
        join.ask_rows(tree, name, references)?;
    }
    join.into_lines()
}

// What was asked so far.
#[derive(Drop)]
struct Join<'p, 'l> {
    alloc: Global,
    resolver: Resolver<'p, 'l>,
    lines: String,
    bindings: u64,
}

impl Join<'_, '_> {
    fn ask_rows(
        &mut self,
        tree: &mut MemoryTree,
        name: &Text,
        references: &IndexMap<Text, PackageInformation>,
    ) -> Result<(), AllocError> {
        for (reference, row) in references.iter() {
            self.ask_row(tree, name, reference, row)?;
        }
        Ok(())
    }

    fn ask_row(
        &mut self,
        tree: &mut MemoryTree,
        name: &Text,
        reference: &Text,
        row: &PackageInformation,
    ) -> Result<(), AllocError> {
        let owner = PackageLocator {
            name: name.try_clone(self.alloc)?,
            reference: reference.try_clone(self.alloc)?,
        };
        for (asked, dependency) in row.package_dependencies.iter() {
            if let Some(dependency) = dependency {
                let bound = bound_to(self.alloc, asked, dependency)?;
                let location = row.package_location.as_str();
                self.ask(tree, &owner, location, asked.as_str(), &bound)?;
            }
        }
        Ok(())
    }

    // Asks for a name that the package at a location binds.
    fn ask(
        &mut self,
        tree: &mut MemoryTree,
        owner: &PackageLocator,
        location: &str,
        name: &str,
        bound: &PackageLocator,
    ) -> Result<(), AllocError> {
        self.bindings = self.bindings.wrapping_add(1);
        match self.refused(tree, location, name)? {
            Some(told) => put_line(
                self.alloc,
                &mut self.lines,
                owner,
                name,
                bound,
                told.as_str(),
            ),
            None => Ok(()),
        }
    }

    // Why the join refuses the file `m.js` of the package that a name means at a location, which is an absolute one.
    fn refused(
        &mut self,
        tree: &mut MemoryTree,
        location: &str,
        name: &str,
    ) -> Result<Option<String>, AllocError> {
        let from = format!(in self.alloc; "{location}m.js")?;
        let importer = FileName::Real(Text::from(from));
        let specifier = format!(in self.alloc; "{name}/m.js")?;
        let outcome = self
            .resolver
            .resolve_import(self.alloc, tree, &importer, specifier.as_str());
        match outcome {
            Ok(outcome) => told(self.alloc, &outcome.verdict),
            Err(_) => Err(AllocError),
        }
    }

    fn into_lines(self) -> Result<String, AllocError> {
        let Join {
            alloc,
            resolver: _,
            mut lines,
            bindings,
        } = self;
        put_count(alloc, &mut lines, bindings)?;
        Ok(lines)
    }
}

// The package that a name is bound to.
fn bound_to(
    alloc: Global,
    name: &Text,
    dependency: &PackageDependency,
) -> Result<PackageLocator, AllocError> {
    let (name, reference) = match dependency {
        PackageDependency::Reference(reference) => (name, reference),
        PackageDependency::Alias(name, reference) => (name, reference),
    };
    Ok(PackageLocator {
        name: name.try_clone(alloc)?,
        reference: reference.try_clone(alloc)?,
    })
}

// A refusal by one of the two rows. The file that is asked for is there, so no package.json of a bound package is
// read.
fn told(alloc: Global, verdict: &Verdict) -> Result<Option<String>, AllocError> {
    match verdict {
        Verdict::Refused(TsRefusal::Inner(refusal)) => told_refusal(alloc, refusal),
        _ => Ok(None),
    }
}

fn told_refusal(alloc: Global, refusal: &JoinRefusal) -> Result<Option<String>, AllocError> {
    match refusal {
        JoinRefusal::NotInRegistry { .. } => Ok(Some(String::from_str(alloc, "not in registry")?)),
        JoinRefusal::NotLocked { .. } => Ok(Some(String::from_str(alloc, "not locked")?)),
        JoinRefusal::MalformedPackage { path } => {
            Ok(Some(format!(in alloc; "malformed {path}")?))
        }
        JoinRefusal::OutOfRange { range, version } => {
            Ok(Some(format!(in alloc; "{version} out of [{range}]")?))
        }
        _ => Ok(None),
    }
}
