// The command `imports`: from a source's bytes to a status and a text.
ghost use Rattle.std.specs.Prelude.{◌≡◌, true, IfOk, string_bytes};
ghost use Rattle.cli_core.specs.ListsImports.{ListsImports, imports_reply};
ghost use Rattle.cli_core.specs.Run.{is_of_sink, is_of_source, is_silent};
ghost use Rattle.cli_core.specs.Streams.{CountsFault};

use crate::reading::{ReadAllError, read_all};
use crate::resolving::Reply;
use crate::sink::Sink;
use crate::source::Source;
use crate::status::Status;
use crate::writing::write_all;
use imports_report::{SourceError, imports_report_for, line_of_source_cause};
use std::alloc::{AllocError, Global};

// Reads one source text from the source, and writes the lines of its imports to the sink, or the line of what is wrong
// with it.
pub(crate) fn list_imports<S: Source, K: Sink>(
    alloc: Global,
    jsx: bool,
    source: &mut S,
    sink: &mut K,
) -> Status
    ensures imports { ListsImports jsx result (S.state source.old) (S.state source.new)
        (K.state sink.old) (K.state sink.new) }
    ensures source_faults { CountsFault (is_of_source result)
        (S.state source.old).faults (S.state source.new).faults }
    ensures sink_faults { CountsFault (is_of_sink result)
        (K.state sink.old).faults (K.state sink.new).faults }
    ensures silent { is_silent result ≡ true →
        (K.state sink.new).written ≡ (K.state sink.old).written }
{
    let bytes = match read_all(alloc, source) {
        Ok(bytes) => bytes,
        Err(ReadAllError::Fault) => return Status::ReadFault,
        Err(ReadAllError::TooLong) => return Status::TooLong,
        Err(ReadAllError::NoMemory) => return Status::NoMemory,
    };
    let Ok(reply) = reply_to(alloc, jsx, &bytes) else {
        return Status::NoMemory;
    };
    match write_all(sink, reply.text.as_bytes()) {
        Ok(()) => reply.status,
        Err(_) => Status::WriteFault,
    }
}

// The whole text is made here, before the first write.
fn reply_to(alloc: Global, jsx: bool, bytes: &[u8]) -> Result<Reply, AllocError>
    ensures { IfOk result (λ reply. (reply.status, string_bytes reply.text) ≡ imports_reply jsx bytes.now) }
{
    match imports_report_for(alloc, bytes, jsx) {
        Ok(text) => Ok(Reply {
            status: Status::Done,
            text,
        }),
        Err(SourceError::Refused(cause)) => Ok(Reply {
            status: Status::Refused,
            text: line_of_source_cause(alloc, cause)?,
        }),
        Err(SourceError::NoMemory) => Err(AllocError),
    }
}
