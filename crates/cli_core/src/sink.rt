// Where a report's bytes go.
ghost use Rattle.std.specs.Prelude.{◌≡◌, ◌≤◌, IfOk, OnErr, length, take};
ghost use Rattle.cli_core.specs.Streams.{Appends, CountsFault, SinkState, is_fault_of_sink};

/// A write was refused.
#[derive(Clone, Copy, Debug, PartialEq, Eq)]
pub struct SinkFault;

/// Bytes that are written one behind the other.
pub trait Sink {
    /// What contracts see of it: what was written, where the sink tells that, and how often a write was refused or took
    /// nothing of a piece, as a `u64` that never falls.
    ghost state: { Self → SinkState };

    /// Writes the first bytes of a piece, and tells how many.
    fn write(&mut self, piece: &[u8]) -> Result<usize, SinkFault>
        ensures bound { IfOk result (λ n. n ≤ length piece.now) }
        ensures appended { IfOk result (λ n.
            Appends (take n piece.now) (state self.old).written (state self.new).written) }
        ensures kept { OnErr result ((state self.new).written ≡ (state self.old).written) }
        ensures counted { CountsFault (is_fault_of_sink piece.now result)
            (state self.old).faults (state self.new).faults };
}
