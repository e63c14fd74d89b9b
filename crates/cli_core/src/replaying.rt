// The command `replay`: from a source's bytes to a status and a text.
ghost use Rattle.std.specs.Prelude.{◌≡◌, true, IfOk, string_bytes};
ghost use Rattle.cli_core.specs.Replays.{IsTold, Replays};
ghost use Rattle.cli_core.specs.Run.{is_of_sink, is_of_source, is_silent};
ghost use Rattle.cli_core.specs.Streams.{CountsFault};

use crate::reading::{ReadAllError, read_all};
use crate::resolving::Reply;
use crate::sink::Sink;
use crate::source::Source;
use crate::status::Status;
use crate::writing::write_all;
use bundle_report::replay_report_for;
use document_core::{DocumentError, line_of_cause};
use std::alloc::{AllocError, Global};

// Reads one replay document from the source, and writes the lines of its bundle's verdicts to the sink, or the line of
// the first cause against the document.
pub(crate) fn replay<S: Source, K: Sink>(alloc: Global, source: &mut S, sink: &mut K) -> Status
    ensures replays { Replays result (S.state source.old) (S.state source.new)
        (K.state sink.old) (K.state sink.new) }
    ensures source_faults { CountsFault (is_of_source result)
        (S.state source.old).faults (S.state source.new).faults }
    ensures sink_faults { CountsFault (is_of_sink result)
        (K.state sink.old).faults (K.state sink.new).faults }
    ensures silent { is_silent result ≡ true →
        (K.state sink.new).written ≡ (K.state sink.old).written }
{
    let bytes = match read_all(alloc, source) {
        Ok(bytes) => bytes,
        Err(ReadAllError::Fault) => return Status::ReadFault,
        Err(ReadAllError::TooLong) => return Status::TooLong,
        Err(ReadAllError::NoMemory) => return Status::NoMemory,
    };
    let Ok(reply) = reply_to(alloc, &bytes) else {
        return Status::NoMemory;
    };
    match write_all(sink, reply.text.as_bytes()) {
        Ok(()) => reply.status,
        Err(_) => Status::WriteFault,
    }
}

// The whole text is made here, before the first write.
fn reply_to(alloc: Global, bytes: &[u8]) -> Result<Reply, AllocError>
    ensures { IfOk result (λ reply. IsTold bytes.now (λ ends text.
        (ends ≡ reply.status) × (text ≡ string_bytes reply.text))) }
{
    match replay_report_for(alloc, bytes) {
        Ok(text) => Ok(Reply {
            status: Status::Done,
            text,
        }),
        Err(DocumentError::Refused(cause)) => Ok(Reply {
            status: Status::Refused,
            text: line_of_cause(alloc, &cause)?,
        }),
        Err(DocumentError::NoMemory) => Err(AllocError),
    }
}
