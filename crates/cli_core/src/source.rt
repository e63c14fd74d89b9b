// Where a document's bytes come from.
ghost use Rattle.std.specs.Prelude.{◌≡◌, ◌≤◌, IfOk, OnErr, is_err, length};
ghost use Rattle.std.specs.Option.{ForSome};
ghost use Rattle.cli_core.specs.Streams.{CountsFault, SourceState, Takes};

/// A read was refused.
#[derive(Clone, Copy, Debug, PartialEq, Eq)]
pub struct SourceFault;

/// Bytes that are read from front to end.
pub trait Source {
    /// What contracts see of it: what is left to be read, where the source tells that, and how often a read was
    /// refused, as a `u64` that never falls.
    ghost state: { Self → SourceState };

    /// Puts the next bytes at the front of the buffer, and tells how many. None for a buffer that isn't empty means the
    /// end.
    fn read(&mut self, buffer: &mut [u8]) -> Result<usize, SourceFault>
        ensures bound { IfOk result (λ n. n ≤ length buffer.new) }
        ensures taken { IfOk result (λ n. ForSome (state self.old).left (λ bytes.
            Takes n buffer.new bytes (state self.new).left)) }
        ensures kept { OnErr result ((state self.new).left ≡ (state self.old).left) }
        ensures counted { CountsFault (is_err result)
            (state self.old).faults (state self.new).faults };
}
