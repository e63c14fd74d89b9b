// The command `generate`: from a size to the line of a generated project's counts.
ghost use Rattle.std.specs.Prelude.{◌≡◌, true};
ghost use Rattle.cli_core.specs.Generates.{Generates};
ghost use Rattle.cli_core.specs.Run.{is_of_sink, is_silent};
ghost use Rattle.cli_core.specs.Streams.{CountsFault};

use crate::sink::Sink;
use crate::status::Status;
use crate::writing::write_all;
use generated_project::line_of_size;
use std::alloc::Global;

// Resolves the generated project of a size, and writes the line of its counts.
pub(crate) fn generate<K: Sink>(alloc: Global, size: u16, sink: &mut K) -> Status
    ensures generates { Generates size result (K.state sink.old) (K.state sink.new) }
    ensures sink_faults { CountsFault (is_of_sink result)
        (K.state sink.old).faults (K.state sink.new).faults }
    ensures silent { is_silent result ≡ true →
        (K.state sink.new).written ≡ (K.state sink.old).written }
{
    let Ok(line) = line_of_size(alloc, usize::from(size)) else {
        return Status::NoMemory;
    };
    match write_all(sink, line.as_bytes()) {
        Ok(()) => Status::Done,
        Err(_) => Status::WriteFault,
    }
}
