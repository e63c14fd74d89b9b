// What asks a tree, and keeps the replies.
ghost use Rattle.tree_core.specs.Asks.{Asking, Asks};
ghost use Rattle.tree_core.specs.Plan.{file, folder_there, exists, read, canon};

use crate::{ReadError, Recorder, Tree};
use sugar_path::{Bytes, CleanPath, Text};

/// What puts questions on clean paths. Each call asks by a plan of one question.
pub trait Asker {
    /// What contracts see of it.
    ghost asking: { Self → Asking };

    /// Whether there is a file.
    fn is_file(&mut self, p: &CleanPath) -> Result<bool, ReadError>
        ensures { Asks (asking self.old) (asking self.new) result (file p.now) };

    /// Whether there is a folder.
    fn is_dir(&mut self, p: &CleanPath) -> Result<bool, ReadError>
        ensures { Asks (asking self.old) (asking self.new) result (folder_there p.now) };

    /// Whether there is a file or a folder.
    fn exists(&mut self, p: &CleanPath) -> Result<bool, ReadError>
        ensures { Asks (asking self.old) (asking self.new) result (exists p.now) };

    /// The bytes of a file.
    fn read(&mut self, p: &CleanPath) -> Result<Option<Bytes>, ReadError>
        ensures { Asks (asking self.old) (asking self.new) result (read p.now) };

    /// The canonical name of a file.
    fn canonical(&mut self, p: &CleanPath) -> Result<Option<Text>, ReadError>
        ensures { Asks (asking self.old) (asking self.new) result (canon p.now) };
}

impl<'t, T: Tree> Asker for Recorder<'t, T> {
    ghost use Rattle.tree_core.specs.RecorderView.{asking_of};

    ghost asking = { λ r. asking_of r };

    fn is_file(&mut self, p: &CleanPath) -> Result<bool, ReadError> {
        Recorder::is_file(self, p.as_str())
    }

    fn is_dir(&mut self, p: &CleanPath) -> Result<bool, ReadError> {
        Recorder::is_dir(self, p.as_str())
    }

    fn exists(&mut self, p: &CleanPath) -> Result<bool, ReadError> {
        Recorder::exists(self, p.as_str())
    }

    fn read(&mut self, p: &CleanPath) -> Result<Option<Bytes>, ReadError> {
        Recorder::read(self, p.as_str())
    }

    fn canonical(&mut self, p: &CleanPath) -> Result<Option<Text>, ReadError> {
        Recorder::canonical(self, p.as_str())
    }
}
