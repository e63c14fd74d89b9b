// Paths as bytes: borrowed, owned, or either.
ghost use Rattle.std.specs.Prelude.{◌≡◌, IfOk, IsOk, false};
ghost use Rattle.sugar_path.specs.PathTypes.{path_bytes, cow_bytes, is_borrowed};

use std::alloc::{AllocError, Global};
use std::marker::Model;

/// The bytes of a path, borrowed. They need not be UTF-8.
#[derive(Clone, Copy)]
pub struct Path<'a> {
    bytes: &'a [u8],
}

impl<'a> Path<'a> {
    pub fn of_text(text: &'a str) -> Path<'a>
        ensures { path_bytes result ≡ text.now }
    {
        Path {
            bytes: text.as_bytes(),
        }
    }

    pub fn of_bytes(bytes: &'a [u8]) -> Path<'a>
        ensures { path_bytes result ≡ bytes.now }
    {
        Path { bytes }
    }

    pub fn bytes(self) -> &'a [u8]
        ensures { result.now ≡ path_bytes self.entry }
    {
        self.bytes
    }
}

/// The bytes of a path, owned.
pub struct PathBuf {
    bytes: Vec<u8>,
}

impl Model for PathBuf {
    ghost use Rattle.std.specs.Prelude.{List, ℕ};

    ghost Value = { List ℕ };

    ghost view = { λ p. p.bytes.items };
}

impl Drop for PathBuf {
    fn drop(self) {
        let PathBuf { bytes } = self;
        drop(bytes);
    }
}

impl PathBuf {
    pub fn of(alloc: Global, path: Path<'_>) -> Result<PathBuf, AllocError>
        ensures { IfOk result (λ p. p ≡ path_bytes path.entry) }
    {
        Ok(PathBuf {
            bytes: Vec::from_slice(alloc, path.bytes)?,
        })
    }

    pub fn as_path(&self) -> Path<'_>
        ensures { path_bytes result ≡ self.now }
    {
        Path::of_bytes(self.bytes.as_slice())
    }

    // What it holds.
    fn into_bytes(self) -> Vec<u8>
        ensures { result.items ≡ self }
    {
        let PathBuf { bytes } = self;
        bytes
    }
}

impl From<Vec<u8>> for PathBuf {
    ghost from_gives = { λ vec path. path ≡ vec.items };

    fn from(bytes: Vec<u8>) -> PathBuf {
        PathBuf { bytes }
    }
}

impl From<PathBuf> for Vec<u8> {
    ghost from_gives = { λ path vec. vec.items ≡ path };

    fn from(path: PathBuf) -> Vec<u8> {
        path.into_bytes()
    }
}

/// A path that is borrowed where it already stands, and owned where it had to be made.
#[derive(Drop)]
pub enum PathCow<'a> {
    Borrowed(Path<'a>),
    Owned(PathBuf),
}

impl<'a> PathCow<'a> {
    pub fn as_path(&self) -> Path<'_>
        ensures { path_bytes result ≡ cow_bytes self.now }
    {
        match self {
            PathCow::Borrowed(path) => *path,
            PathCow::Owned(path) => path.as_path(),
        }
    }

    /// The path as owned bytes, which copies a borrowed one.
    pub fn into_owned(self, alloc: Global) -> Result<PathBuf, AllocError>
        ensures path { IfOk result (λ p. p ≡ cow_bytes self.entry) }

        // An owned path takes no memory.
        ensures same { is_borrowed self.entry ≡ false → IsOk result }
    {
        match self {
            PathCow::Borrowed(path) => PathBuf::of(alloc, path),
            PathCow::Owned(path) => Ok(path),
        }
    }
}

/// The answer to a question for the process's working folder.
#[derive(Drop)]
pub enum CwdAnswer {
    Known(PathBuf),
    Unknown,
}
