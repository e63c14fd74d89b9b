// Names of files, and what a specifier is answered with.
ghost use Rattle.std.specs.Prelude.{◌≡◌, IfOk};

use std::alloc::{AllocError, Global};
use sugar_path::Text;

/// What a request comes from, or is answered with: a path, a name that is no path, or nothing.
#[derive(Debug, Drop, PartialEq, Eq, Hash)]
pub enum FileName {
    /// A path, read from the project's working folder where it is relative.
    Real(Text),
    /// A name that isn't looked for as a file: a builtin module, or what a rule for browsers ignores.
    Custom(Text),
    /// A source without a name.
    Anon,
}

impl FileName {
    /// An equal name.
    pub fn try_clone(&self, alloc: Global) -> Result<FileName, AllocError>
        ensures { IfOk result (λ name. name ≡ self.now) }
    {
        match self {
            FileName::Real(path) => Ok(FileName::Real(path.try_clone(alloc)?)),
            FileName::Custom(name) => Ok(FileName::Custom(name.try_clone(alloc)?)),
            FileName::Anon => Ok(FileName::Anon),
        }
    }
}

/// The row of a manifest through which a file was found.
#[derive(Debug, Drop, PartialEq, Eq)]
pub struct Via {
    /// The name of the package that the asking package binds.
    pub name: Text,
    /// Its reference.
    pub reference: Text,
    /// The folder in which its files lie, a clean absolute path.
    pub location: Text,
}

impl Via {
    // An equal row.
    fn try_clone(&self, alloc: Global) -> Result<Via, AllocError>
        ensures { IfOk result (λ via. via ≡ self.now) }
    {
        Ok(Via {
            name: self.name.try_clone(alloc)?,
            reference: self.reference.try_clone(alloc)?,
            location: self.location.try_clone(alloc)?,
        })
    }
}

/// The file that was found, before its canonical name.
#[derive(Debug, Drop, PartialEq, Eq)]
pub struct Found {
    /// A clean absolute path.
    pub file: Text,
    pub via: Option<Via>,
}

impl Found {
    // An equal file.
    fn try_clone(&self, alloc: Global) -> Result<Found, AllocError>
        ensures { IfOk result (λ found. found ≡ self.now) }
    {
        let via = match &self.via {
            Some(via) => Some(via.try_clone(alloc)?),
            None => None,
        };
        let file = self.file.try_clone(alloc)?;
        Ok(Found { file, via })
    }
}

/// The answer to a request.
#[derive(Debug, Drop, PartialEq, Eq)]
pub struct Resolution {
    pub filename: FileName,
    /// What a mapping keeps of the file's name.
    pub slug: Option<Text>,
    /// None where the answer is no file.
    pub found: Option<Found>,
}

impl Resolution {
    ghost use Rattle.swc_loader.specs.Spelling.{custom};

    /// The answer by a name, without a file.
    pub fn custom(name: Text) -> Resolution
        ensures { result ≡ custom name }
    {
        Resolution {
            filename: FileName::Custom(name),
            slug: None,
            found: None,
        }
    }

    /// An equal answer.
    pub fn try_clone(&self, alloc: Global) -> Result<Resolution, AllocError>
        ensures { IfOk result (λ answer. answer ≡ self.now) }
    {
        let slug = match &self.slug {
            Some(slug) => Some(slug.try_clone(alloc)?),
            None => None,
        };
        let found = match &self.found {
            Some(found) => Some(found.try_clone(alloc)?),
            None => None,
        };
        let filename = self.filename.try_clone(alloc)?;
        Ok(Resolution {
            filename,
            slug,
            found,
        })
    }
}
