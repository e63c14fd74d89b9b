// Writes a text to a sink.
ghost use Rattle.std.specs.Prelude.{◌≤◌, ℕ, OnOk, OnErr, is_err, length, take};
ghost use Rattle.cli_core.specs.Streams.{Appends, CountsFault};
ghost use Rattle.cli_core.specs.Writing.{AppendsFront};

use crate::sink::{Sink, SinkFault};

/// Writes all of a text, or a front of it where the sink refuses. A sink that takes nothing of a piece refuses it.
pub fn write_all<K: Sink>(sink: &mut K, text: &[u8]) -> Result<(), SinkFault>
    ensures all { OnOk result (Appends text.now
        (K.state sink.old).written (K.state sink.new).written) }
    ensures front { OnErr result (AppendsFront text.now
        (K.state sink.old).written (K.state sink.new).written) }
    ensures counted { CountsFault (is_err result)
        (K.state sink.old).faults (K.state sink.new).faults }
{
    let mut done = 0;
    while done < text.len() {
        let n = sink.write(&text[done..])?;
        if n == 0 {
            return Err(SinkFault);
        }
        done += n;
    }
    Ok(())
}
