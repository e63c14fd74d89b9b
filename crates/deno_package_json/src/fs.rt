// Readers of files.
ghost use Rattle.std.specs.Prelude.{◌≡◌, ℕ, None, Some, IfOk, IsErrOf, Option, option_map, string_bytes};
ghost use Rattle.std.specs.FinMap as finite;
ghost use Rattle.std.specs.Option.{option_copied};
ghost use Rattle.std.specs.Str.Lossy.{utf8_lossy};
ghost use Rattle.tree_core.specs.Tree.{HasCause};
ghost use Rattle.tree_core.specs.declared.tree.ReadError.TheVariants.{Fault};
ghost use Rattle.deno_package_json.specs.Reader.{Files, IsTextAt};

use indexmap::IndexMap;
use std::alloc::{AllocError, Global};
use std::fs;
use std::io::ErrorKind;
use std::marker::Model;
use std::rt::Files;
use sugar_path::{Bytes, Text};
use tree_core::ReadError;

/// A reader of the files of packages.
pub trait DenoPkgJsonFs {
    /// The files, where the reader tells them.
    ghost files: { Self → Option Files };

    /// How often a file couldn't be read. It never falls.
    ghost faults: { Self → ℕ };

    /// The text of a file, with U+FFFD for what is no UTF-8. A file that isn't there is a fault.
    fn read_to_string_lossy(&mut self, alloc: Global, path: &str) -> Result<String, ReadError>
        ensures text { IfOk result (λ text.
            IsTextAt (files self.old) path.now (string_bytes text)) }
        ensures files { files self.new ≡ files self.old }
        ensures cause { HasCause (faults self.old) (faults self.new) result };
}

/// Files in memory.
#[derive(Drop)]
pub struct MapFs {
    files: IndexMap<Text, Bytes>,
    faults: u64,
}

impl Model for MapFs {
    ghost use Rattle.std.specs.FinMap as finite;
    ghost use Rattle.deno_package_json.specs.Reader.{MemoryFiles, memory_files_code};

    ghost Value = { MemoryFiles };

    ghost coded = { memory_files_code };

    ghost view = { λ m. record { files = finite.from_entries m.files.entries; faults = m.faults } };
}

impl MapFs {
    /// A reader of these files, by their paths.
    pub fn new(files: IndexMap<Text, Bytes>) -> MapFs
        ensures { result ≡ record { files = finite.from_entries files.entries; faults = 0 } }
    {
        MapFs { files, faults: 0 }
    }

    /// How often a file that isn't there was asked for.
    pub fn faults(&self) -> u64
        ensures { result ≡ self.now.faults }
    {
        self.faults
    }

    fn bytes_at(&self, path: &Text) -> Option<&Bytes>
        ensures { option_copied result ≡ finite.get self.now.files path.now }
    {
        self.files.get(path)
    }
}

impl DenoPkgJsonFs for MapFs {
    ghost use Rattle.std.specs.Prelude.{Some};

    ghost files = { λ m. Some m.files };

    ghost faults = { λ m. m.faults };

    fn read_to_string_lossy(&mut self, alloc: Global, path: &str) -> Result<String, ReadError>
        ensures text { IfOk result (λ text.
            option_map utf8_lossy (finite.get self.old.files path.now) ≡ Some (string_bytes text)) }
        ensures files { Some self.new.files ≡ Some self.old.files }
        ensures cause { HasCause self.old.faults self.new.faults result }
        ensures absent { IsErrOf result Fault → finite.get self.old.files path.now ≡ None }
    {
        let path = Text::of(alloc, path)?;
        match self.bytes_at(&path) {
            Some(bytes) => Ok(String::from_utf8_lossy(alloc, bytes.as_slice())?),
            None => {
                self.faults = self.faults.saturating_add(1);
                Err(ReadError::Fault)
            }
        }
    }
}

/// The files of the runtime. It tells nothing of what they hold.
#[derive(Drop)]
pub struct RealDenoPkgJsonFs<'r, R: Files + AllocGlobal> {
    rt: &'r R,
    faults: u64,
}

impl<'r, R: Files + AllocGlobal> RealDenoPkgJsonFs<'r, R> {
    /// A reader of the runtime's files.
    pub fn new(rt: &'r R) -> RealDenoPkgJsonFs<'r, R>
        ensures { ⟦<RealDenoPkgJsonFs<'r, R> as DenoPkgJsonFs>⟧.faults result ≡ 0 }
    {
        RealDenoPkgJsonFs { rt, faults: 0 }
    }
}

impl<'r, R: Files + AllocGlobal> DenoPkgJsonFs for RealDenoPkgJsonFs<'r, R> {
    ghost use Rattle.std.specs.Prelude.{None};

    ghost files = { λ m. None };

    ghost faults = { λ m. m.faults };

    fn read_to_string_lossy(&mut self, alloc: Global, path: &str) -> Result<String, ReadError> {
        match fs::read(self.rt, path) {
            Ok(bytes) => Ok(lossy_text(alloc, bytes)?),
            Err(e) => {
                if e.kind() == ErrorKind::OutOfMemory {
                    return Err(ReadError::NoMemory);
                }
                self.faults = self.faults.saturating_add(1);
                Err(ReadError::Fault)
            }
        }
    }
}

// The text of bytes. Bytes that are UTF-8 are taken as they stand.
fn lossy_text(alloc: Global, bytes: Vec<u8>) -> Result<String, AllocError>
    ensures { IfOk result (λ text. string_bytes text ≡ utf8_lossy bytes.items) }
{
    match String::from_utf8(bytes) {
        Ok(text) => Ok(text),
        Err(e) => {
            let bytes = e.into_bytes();
            String::from_utf8_lossy(alloc, bytes.as_slice())
        }
    }
}
