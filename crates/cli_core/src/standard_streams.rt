// Any reader as a source and any writer as a sink, so that `run` can be given the standard streams. They tell nothing
// of content.
use crate::sink::{Sink, SinkFault};
use crate::source::{Source, SourceFault};
use std::io::{Read, Write};

/// A reader of the system, such as the standard input.
#[derive(Drop)]
pub struct ReaderSource<R: Read + Drop> {
    reader: R,
    faults: u64,
}

impl<R: Read + Drop> ReaderSource<R> {
    pub fn new(reader: R) -> ReaderSource<R> {
        ReaderSource { reader, faults: 0 }
    }
}

impl<R: Read + Drop> Source for ReaderSource<R> {
    ghost use Rattle.std.specs.Prelude.{None};

    ghost state = { λ s. record { left = None; faults = s.faults } };

    fn read(&mut self, buffer: &mut [u8]) -> Result<usize, SourceFault> {
        match self.reader.read(buffer) {
            Ok(n) => Ok(n),
            Err(_) => {
                self.faults = self.faults.saturating_add(1);
                Err(SourceFault)
            }
        }
    }
}

/// A writer of the system, such as the standard output.
#[derive(Drop)]
pub struct WriterSink<W: Write + Drop> {
    writer: W,
    faults: u64,
}

impl<W: Write + Drop> WriterSink<W> {
    pub fn new(writer: W) -> WriterSink<W> {
        WriterSink { writer, faults: 0 }
    }
}

impl<W: Write + Drop> Sink for WriterSink<W> {
    ghost use Rattle.std.specs.Prelude.{None};

    ghost state = { λ s. record { written = None; faults = s.faults } };

    fn write(&mut self, piece: &[u8]) -> Result<usize, SinkFault> {
        match self.writer.write(piece) {
            Ok(n) => {
                if n == 0 && !piece.is_empty() {
                    self.faults = self.faults.saturating_add(1);
                }
                Ok(n)
            }
            Err(_) => {
                self.faults = self.faults.saturating_add(1);
                Err(SinkFault)
            }
        }
    }
}
