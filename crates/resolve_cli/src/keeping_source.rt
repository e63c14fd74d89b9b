// A source whose bytes are kept, so that people can be told what is wrong with them.
ghost use Rattle.std.specs.Prelude.{◌≡◌};

use cli_core::{Source, SourceFault};
use std::alloc::Global;

// A source that keeps what was read of it, while memory is found for that.
#[derive(Drop)]
pub(crate) struct KeepingSource<S: Source + Drop> {
    source: S,
    kept: Option<Vec<u8>>,
}

impl<S: Source + Drop> KeepingSource<S> {
    pub(crate) fn new(alloc: Global, source: S) -> KeepingSource<S> {
        KeepingSource {
            source,
            kept: Some(Vec::new(alloc)),
        }
    }

    // All that was read; None where no memory was found for it.
    pub(crate) fn kept(&self) -> Option<&[u8]> {
        match &self.kept {
            Some(bytes) => Some(bytes.as_slice()),
            None => None,
        }
    }

    fn keep(&mut self, bytes: &[u8])
        ensures { self.new.source ≡ self.old.source }
    {
        let is_lost = match &mut self.kept {
            Some(kept) => kept.extend_from_slice(bytes).is_err(),
            None => false,
        };
        if is_lost {
            self.kept = None;
        }
    }
}

// What contracts see of it is what they see of the source itself.
impl<S: Source + Drop> Source for KeepingSource<S> {
    ghost state = { λ s. S.state s.source };

    fn read(&mut self, buffer: &mut [u8]) -> Result<usize, SourceFault> {
        let n = self.source.read(buffer)?;
        self.keep(&buffer[..n]);
        Ok(n)
    }
}
