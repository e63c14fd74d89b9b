// The files of the runtime, as a tree.
ghost use Rattle.std.specs.Prelude.{◌≡◌, ◌≢◌, ◌≤◌, IfOk, IfSome, Ok, None, length, vec_len};
ghost use Rattle.std.specs.IoError.{error_kind};
ghost use Rattle.tree_core.specs.Tree.{HasCause, one_more};
ghost use Rattle.disk_tree.specs.Entry.{failed, of_file};
ghost use Rattle.disk_tree.specs.declared.fault.TheConstants.{LARGEST_FILE};

use crate::entry::{Entry, failed, kind_of};
use crate::fault::{DiskFault, FaultReason, LARGEST_FILE};
use std::alloc::{AllocError, Global};
use std::fs::OpenFile;
use std::io::Read;
use std::rt::Files;
use std::{fs, io};
use sugar_path::{Bytes, Text};
use tree_core::{ReadError, Tree};

/// The real disk, asked on absolute paths as they are written: what a link leads to stands where the link does. It
/// tells nothing of what the files hold, so it stands for no tree. A path is absent where nothing is there, or where a
/// name on the way is no folder; any other error of the system is a fault, and counted, and so is a file of more than
/// `LARGEST_FILE` bytes that is to be read.
#[derive(Drop)]
pub struct DiskTree<'r, R: Files + AllocGlobal> {
    rt: &'r R,
    faults: u64,
    questions: u64,
    fault: Option<DiskFault>,
}

impl<'r, R: Files + AllocGlobal> DiskTree<'r, R> {
    /// The disk of a runtime, which nothing was asked yet.
    pub fn new(rt: &'r R) -> DiskTree<'r, R>
        ensures faults { (⟦<DiskTree<'r, R> as Tree>⟧.state result).faults ≡ 0 }
        ensures questions { (⟦<DiskTree<'r, R> as Tree>⟧.state result).questions ≡ 0 }
    {
        DiskTree {
            rt,
            faults: 0,
            questions: 0,
            fault: None,
        }
    }

    /// The latest question that the disk refused.
    pub fn fault(&self) -> Option<&DiskFault> {
        self.fault.as_ref()
    }

    // What stands at a path. This is a question to the disk.
    fn look(&mut self, p: &str) -> Result<Entry, ReadError>
        ensures cause { HasCause self.old.faults self.new.faults result }
        ensures counted { self.new.questions ≡ one_more self.old.questions }
    {
        self.questions = self.questions.saturating_add(1);
        match fs::metadata(self.rt, p) {
            Ok(metadata) => Ok(kind_of(&metadata)),
            Err(e) => self.failed(p, e),
        }
    }

    // What an error of the system says of a path; a fault is counted and kept.
    fn failed(&mut self, p: &str, e: io::Error) -> Result<Entry, ReadError>
        ensures cause { HasCause self.old.faults self.new.faults result }
        ensures same { result ≡ failed (error_kind e) }
        ensures put { self.new.questions ≡ self.old.questions }
    {
        let answer = failed(e.kind());
        if let Err(ReadError::Fault) = answer {
            self.refuse(p, FaultReason::System(e));
        }
        answer
    }

    // Counts a fault, and keeps it.
    fn refuse(&mut self, p: &str, reason: FaultReason)
        ensures counted { self.new.faults ≡ one_more self.old.faults }
        ensures put { self.new.questions ≡ self.old.questions }
    {
        self.faults = self.faults.saturating_add(1);
        self.fault = Some(DiskFault {
            path: Text::of(self.rt.alloc(), p).ok(),
            reason,
        });
    }

    // The bytes of what stands at a path: those of a file, and none of anything else.
    fn content(&mut self, entry: Entry, p: &str) -> Result<Option<Bytes>, ReadError>
        ensures cause { HasCause self.old.faults self.new.faults result }
        ensures put { self.new.questions ≡ self.old.questions }
        ensures none { entry ≢ Entry.File → result ≡ Ok None }
        ensures within { IfOk result (λ content. IfSome content (λ bytes. length bytes ≤ LARGEST_FILE)) }
    {
        match entry {
            Entry::File => self.content_of_file(p),
            _ => Ok(None),
        }
    }

    // The bytes of a file. It may be gone by now.
    fn content_of_file(&mut self, p: &str) -> Result<Option<Bytes>, ReadError>
        ensures cause { HasCause self.old.faults self.new.faults result }
        ensures put { self.new.questions ≡ self.old.questions }
        ensures within { IfOk result (λ content. IfSome content (λ bytes. length bytes ≤ LARGEST_FILE)) }
    {
        match bytes_of_file(self.rt, p) {
            Ok(Some(bytes)) => Ok(Some(Bytes::from_vec(bytes)?)),
            Ok(None) => {
                self.refuse(p, FaultReason::TooLarge);
                Err(ReadError::Fault)
            }
            Err(e) => match self.failed(p, e) {
                Ok(_) => Ok(None),
                Err(e) => Err(e),
            },
        }
    }
}

// The bytes of a file, and none of one that has too many. Where its length says that, it isn't read.
fn bytes_of_file<R: Files + AllocGlobal>(rt: &R, p: &str) -> io::Result<Option<Vec<u8>>>
    ensures within { IfOk result (λ read. IfSome read (λ bytes. vec_len bytes ≤ LARGEST_FILE)) }
{
    let file = fs::open(rt, p)?;
    if file.metadata()?.len() > LARGEST_FILE {
        return Ok(None);
    }
    let mut bytes = Vec::new(rt.alloc());
    // It may have grown, and of some files the system tells no length.
    file.take(LARGEST_FILE + 1).read_to_end(&mut bytes)?;
    if bytes.len() as u64 > LARGEST_FILE {
        return Ok(None);
    }
    Ok(Some(bytes))
}

impl<'r, R: Files + AllocGlobal> Tree for DiskTree<'r, R> {
    ghost use Rattle.std.specs.Prelude.{false, None};

    ghost state = { λ t. record {
      stands_for = λ _. false;
      faults = t.faults;
      questions = t.questions;
      told = None;
    } };

    fn is_file(&mut self, p: &str) -> Result<bool, ReadError> {
        Ok(self.look(p)? == Entry::File)
    }

    fn is_dir(&mut self, p: &str) -> Result<bool, ReadError> {
        Ok(self.look(p)? == Entry::Folder)
    }

    fn exists(&mut self, p: &str) -> Result<bool, ReadError> {
        let entry = self.look(p)?;
        Ok(entry == Entry::File || entry == Entry::Folder)
    }

    fn read(&mut self, _alloc: Global, p: &str) -> Result<Option<Bytes>, ReadError> {
        let entry = self.look(p)?;
        self.content(entry, p)
    }

    fn canonical(&mut self, alloc: Global, p: &str) -> Result<Option<Text>, ReadError> {
        let entry = self.look(p)?;
        Ok(name_of(alloc, entry, p)?)
    }
}

// The canonical name of what stands at a path: a file's is its path, and nothing else has one.
fn name_of(alloc: Global, entry: Entry, p: &str) -> Result<Option<Text>, AllocError>
    ensures { IfOk result (λ name. name ≡ of_file entry p.now) }
{
    match entry {
        Entry::File => Ok(Some(Text::of(alloc, p)?)),
        Entry::Absent | Entry::Folder | Entry::Other => Ok(None),
    }
}
