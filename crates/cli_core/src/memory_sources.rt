// Sources in memory.
ghost use Rattle.std.specs.Prelude.{◌≡◌, ◌≤◌, Some, min, IfOk, OnErr, is_err, length, take, drop};
ghost use Rattle.std.specs.Option.{ForSome};
ghost use Rattle.cli_core.specs.Streams.{CountsFault, Takes};
ghost use Rattle.cli_core.specs.MemoryStreams.{is_listed};
ghost use Rattle.tree_core.specs.Tree.{one_more};

use crate::source::{Source, SourceFault};
use std::marker::Model;
use sugar_path::{Bytes, List};

/// Bytes in memory that are never refused, seen as what is left of them.
#[derive(Drop)]
pub struct PlainSource {
    bytes: Bytes,
    taken: usize,
}

impl Model for PlainSource {
    ghost use Rattle.std.specs.Prelude.{List, ℕ, ◌≤◌, length, drop};

    ghost Value = { List ℕ };

    ghost view = { λ s. drop s.taken s.bytes };

    ghost invariant = { λ s. s.taken ≤ length s.bytes };
}

impl PlainSource {
    pub fn new(bytes: Bytes) -> PlainSource
        ensures { result ≡ bytes }
    {
        PlainSource { bytes, taken: 0 }
    }

    // Puts as many of the next bytes at the front of the buffer as it holds or are left, and tells how many.
    fn take_into(&mut self, buffer: &mut [u8]) -> usize
        ensures count { result ≡ min (length self.old) (length buffer.new) }
        ensures left { self.new ≡ drop result self.old }
        ensures front { take result buffer.new ≡ take result self.old }
    {
        let rest = &self.bytes.as_slice()[self.taken..];
        let n = rest.len().min(buffer.len());
        buffer[..n].copy_from_slice(&rest[..n]);
        self.taken += n;
        n
    }
}

impl Source for PlainSource {
    ghost use Rattle.std.specs.Prelude.{Some};

    ghost state = { λ s. record { left = Some s; faults = 0 } };

    /// Fills the buffer from the front of what is left, as far as either goes.
    fn read(&mut self, buffer: &mut [u8]) -> Result<usize, SourceFault>
        ensures fills { result ≡ Ok (min (length self.old) (length buffer.new)) }
        ensures after { IfOk result (λ n. self.new ≡ drop n self.old) }
        ensures front { IfOk result (λ n. take n buffer.new ≡ take n self.old) }

        // What every source owes.
        ensures bound { IfOk result (λ n. n ≤ length buffer.new) }
        ensures taken { IfOk result (λ n. ForSome (Some self.old) (λ bytes.
            Takes n buffer.new bytes (Some self.new))) }
        ensures kept { OnErr result (self.new ≡ self.old) }
        ensures counted { CountsFault (is_err result) 0 0 }
    {
        Ok(self.take_into(buffer))
    }
}

/// Bytes in memory that are refused at the calls with given numbers, the first being 1.
#[derive(Drop)]
pub struct BytesSource {
    source: PlainSource,
    fail_at: List<u64>,
    calls: u64,
    faults: u64,
}

impl Model for BytesSource {
    ghost use Rattle.cli_core.specs.MemoryStreams.{FailingReads};

    ghost Value = { FailingReads };

    ghost view = { λ s.
        record { left = s.source; fail_at = s.fail_at; calls = s.calls; faults = s.faults } };
}

impl BytesSource {
    pub fn new(bytes: Bytes, fail_at: List<u64>) -> BytesSource
        ensures { result ≡ record { left = bytes; fail_at = fail_at; calls = 0; faults = 0 } }
    {
        BytesSource {
            source: PlainSource::new(bytes),
            fail_at,
            calls: 0,
            faults: 0,
        }
    }
}

impl Source for BytesSource {
    ghost use Rattle.std.specs.Prelude.{Some};

    ghost state = { λ s. record { left = Some s.left; faults = s.faults } };

    /// Refuses exactly the calls whose numbers are listed. Any other call fills the buffer from the front
    /// of what is left, as far as either goes.
    fn read(&mut self, buffer: &mut [u8]) -> Result<usize, SourceFault>
        ensures fails { is_err result ≡ is_listed self.old.fail_at (one_more self.old.calls) }
        ensures after_fault { OnErr result (self.new ≡ record self.old {
          calls = one_more self.old.calls;
          faults = one_more self.old.faults;
        }) }
        ensures fills { IfOk result (λ n. n ≡ min (length self.old.left) (length buffer.new)) }
        ensures after { IfOk result (λ n. self.new ≡ record self.old {
          left = drop n self.old.left;
          calls = one_more self.old.calls;
        }) }
        ensures front { IfOk result (λ n. take n buffer.new ≡ take n self.old.left) }

        // What every source owes.
        ensures bound { IfOk result (λ n. n ≤ length buffer.new) }
        ensures taken { IfOk result (λ n. ForSome (Some self.old.left) (λ bytes.
            Takes n buffer.new bytes (Some self.new.left))) }
        ensures kept { OnErr result (self.new.left ≡ self.old.left) }
        ensures counted { CountsFault (is_err result) self.old.faults self.new.faults }
    {
        self.calls = self.calls.saturating_add(1);
        if self.fail_at.as_slice().contains(&self.calls) {
            self.faults = self.faults.saturating_add(1);
            return Err(SourceFault);
        }
        Ok(self.source.take_into(buffer))
    }
}
