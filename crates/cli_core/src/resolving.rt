// The commands that read a document: from a source's bytes to a status and a text.
ghost use Rattle.std.specs.Prelude.{◌≡◌, true, IfOk, string_bytes};
ghost use Rattle.cli_core.specs.Reports.{Reports};
ghost use Rattle.cli_core.specs.Run.{is_of_sink, is_of_source, is_silent, reply_for};
ghost use Rattle.cli_core.specs.Streams.{CountsFault};

use crate::document_kind::{DocumentKind, report_of};
use crate::reading::{ReadAllError, read_all};
use crate::sink::Sink;
use crate::source::Source;
use crate::status::Status;
use crate::writing::write_all;
use document_core::{DocumentError, line_of_cause};
use std::alloc::{AllocError, Global};

// Reads one document from the source, and writes a line for each of its requests or steps to the sink, or the line of
// the first cause against the document.
pub(crate) fn resolve<S: Source, K: Sink>(
    alloc: Global,
    kind: DocumentKind,
    source: &mut S,
    sink: &mut K,
) -> Status
    ensures reports { Reports kind result (S.state source.old) (S.state source.new)
        (K.state sink.old) (K.state sink.new) }
    ensures source_faults { CountsFault (is_of_source result)
        (S.state source.old).faults (S.state source.new).faults }
    ensures sink_faults { CountsFault (is_of_sink result)
        (K.state sink.old).faults (K.state sink.new).faults }
    ensures silent { is_silent result ≡ true →
        (K.state sink.new).written ≡ (K.state sink.old).written }
{
    let bytes = match read_all(alloc, source) {
        Ok(bytes) => bytes,
        Err(ReadAllError::Fault) => return Status::ReadFault,
        Err(ReadAllError::TooLong) => return Status::TooLong,
        Err(ReadAllError::NoMemory) => return Status::NoMemory,
    };
    let Ok(reply) = reply_to(alloc, kind, &bytes) else {
        return Status::NoMemory;
    };
    match write_all(sink, reply.text.as_bytes()) {
        Ok(()) => reply.status,
        Err(_) => Status::WriteFault,
    }
}

// How a run ends, and what it writes first.
#[derive(Drop)]
pub(crate) struct Reply {
    pub(crate) status: Status,
    pub(crate) text: String,
}

// The whole text is made here, before the first write.
fn reply_to(alloc: Global, kind: DocumentKind, bytes: &[u8]) -> Result<Reply, AllocError>
    ensures { IfOk result (λ reply. (reply.status, string_bytes reply.text) ≡ reply_for kind bytes.now) }
{
    match report_of(alloc, kind, bytes) {
        Ok(text) => Ok(Reply {
            status: Status::Done,
            text,
        }),
        Err(DocumentError::Refused(cause)) => Ok(Reply {
            status: Status::Refused,
            text: line_of_cause(alloc, &cause)?,
        }),
        Err(DocumentError::NoMemory) => Err(AllocError),
    }
}
