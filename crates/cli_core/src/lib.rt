//! What a command-line program does with a document: it reads it, resolves its requests and writes a line for each.
#![tactic(auto)]

mod command;
mod disk_words;
mod document_kind;
mod generating;
mod importing;
mod memory_sinks;
mod memory_sources;
mod on_disk;
mod reading;
mod replaying;
mod report;
mod resolving;
mod running;
mod sink;
mod source;
mod standard_streams;
mod status;
mod writing;

pub use command::{Command, LARGEST, command_of};
pub use disk_report::{DiskForm, DiskRequest, OutcomeForm};
pub use document_core::{Cause, DocumentError, Field};
pub use document_kind::{DocumentKind, report_of};
pub use memory_sinks::{BytesSink, PlainSink};
pub use memory_sources::{BytesSource, PlainSource};
pub use reading::{CHUNK, LONGEST};
pub use report::report_for;
pub use running::run;
pub use sink::{Sink, SinkFault};
pub use source::{Source, SourceFault};
pub use standard_streams::{ReaderSource, WriterSink};
pub use status::Status;
