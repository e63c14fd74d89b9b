// Sinks in memory.
ghost use Rattle.std.specs.Prelude.{
  ◌≡◌,
  ◌-◌,
  ◌≤◌,
  ◌++◌,
  [],
  Some,
  true,
  if◌then◌else◌,
  min,
  IfOk,
  OnErr,
  is_err,
  length,
  take,
};
ghost use Rattle.cli_core.specs.Streams.{Appends, CountsFault, is_fault_of_sink, takes_nothing};
ghost use Rattle.cli_core.specs.MemoryStreams.{is_listed};
ghost use Rattle.tree_core.specs.Tree.{one_more};

use crate::sink::{Sink, SinkFault};
use std::alloc::{AllocError, Global};
use std::marker::Model;
use sugar_path::List;

// Bytes that grow up to a limit, within memory that is taken at once.
#[derive(Drop)]
struct Room {
    written: Vec<u8>,
    room: usize,
}

impl Model for Room {
    ghost use Rattle.std.specs.Prelude.{◌≤◌, length, vec_capacity};
    ghost use Rattle.cli_core.specs.MemoryStreams as seen;

    ghost Value = { seen.Room };

    ghost view = { λ r. record { written = r.written.items; room = r.room } };

    ghost invariant = { λ r.
        (length r.written.items ≤ r.room) × (r.room ≤ vec_capacity r.written) };
}

impl Room {
    fn new(alloc: Global, room: usize) -> Result<Room, AllocError>
        ensures { IfOk result (λ r. r ≡ record { written = []; room = room }) }
    {
        let written = Vec::with_capacity(alloc, room)?;
        Ok(Room { written, room })
    }

    // Appends as many of the first bytes of the piece as there is room for, and tells how many.
    fn append(&mut self, piece: &[u8]) -> usize
        ensures count { result ≡ min (length piece.now) (self.old.room - length self.old.written) }
        ensures after { self.new
            ≡ record self.old { written = self.old.written ++ take result piece.now } }
    {
        let n = piece.len().min(self.room - self.written.len());
        self.written.extend_from_slice(&piece[..n]).unwrap();
        n
    }

    fn written(&self) -> &[u8]
        ensures { result.now ≡ self.now.written }
    {
        self.written.as_slice()
    }
}

/// A room of bytes, which takes all of a piece or as much as it has room for. A piece that finds it full is counted.
#[derive(Drop)]
pub struct PlainSink {
    room: Room,
    faults: u64,
}

impl Model for PlainSink {
    ghost use Rattle.cli_core.specs.MemoryStreams.{CountingRoom};

    ghost Value = { CountingRoom };

    ghost view = { λ s.
        record { written = s.room.written; room = s.room.room; faults = s.faults } };
}

impl PlainSink {
    /// Takes the whole room at once.
    pub fn new(alloc: Global, room: usize) -> Result<PlainSink, AllocError>
        ensures { IfOk result (λ s. s ≡ record { written = []; room = room; faults = 0 }) }
    {
        Ok(PlainSink {
            room: Room::new(alloc, room)?,
            faults: 0,
        })
    }

    /// What was written.
    pub fn written(&self) -> &[u8]
        ensures { result.now ≡ self.now.written }
    {
        self.room.written()
    }

    // Takes as much of a piece as there is room for, and tells how much. A piece that finds no room is counted.
    fn append(&mut self, piece: &[u8]) -> usize
        ensures count { result ≡ min (length piece.now) (self.old.room - length self.old.written) }
        ensures after { self.new ≡ record self.old {
          written = self.old.written ++ take result piece.now;
          faults =
              if takes_nothing piece.now result then one_more self.old.faults
              else self.old.faults;
        } }
        ensures counted { CountsFault (takes_nothing piece.now result)
            self.old.faults self.new.faults }
    {
        let n = self.room.append(piece);
        if n == 0 && !piece.is_empty() {
            self.faults = self.faults.saturating_add(1);
        }
        n
    }

    // Counts a write that is refused.
    fn refuse(&mut self) -> SinkFault
        ensures after { self.new ≡ record self.old { faults = one_more self.old.faults } }
        ensures counted { CountsFault true self.old.faults self.new.faults }
    {
        self.faults = self.faults.saturating_add(1);
        SinkFault
    }
}

impl Sink for PlainSink {
    ghost use Rattle.std.specs.Prelude.{Some};

    ghost state = { λ s. record { written = Some s.written; faults = s.faults } };

    fn write(&mut self, piece: &[u8]) -> Result<usize, SinkFault>
        ensures fills { result
            ≡ Ok (min (length piece.now) (self.old.room - length self.old.written)) }
        ensures after { IfOk result (λ n. self.new ≡ record self.old {
          written = self.old.written ++ take n piece.now;
          faults =
              if is_fault_of_sink piece.now result then one_more self.old.faults
              else self.old.faults;
        }) }

        // What every sink owes.
        ensures bound { IfOk result (λ n. n ≤ length piece.now) }
        ensures appended { IfOk result (λ n.
            Appends (take n piece.now) (Some self.old.written) (Some self.new.written)) }
        ensures kept { OnErr result (self.new.written ≡ self.old.written) }
        ensures counted { CountsFault (is_fault_of_sink piece.now result)
            self.old.faults self.new.faults }
    {
        Ok(self.append(piece))
    }
}

/// A room of bytes that refuses the calls with given numbers, the first being 1.
#[derive(Drop)]
pub struct BytesSink {
    sink: PlainSink,
    fail_at: List<u64>,
    calls: u64,
}

impl Model for BytesSink {
    ghost use Rattle.cli_core.specs.MemoryStreams.{FailingRoom};

    ghost Value = { FailingRoom };

    ghost view = { λ s. record {
      written = s.sink.written;
      room = s.sink.room;
      fail_at = s.fail_at;
      calls = s.calls;
      faults = s.sink.faults;
    } };
}

impl BytesSink {
    /// Takes the whole room at once.
    pub fn new(alloc: Global, room: usize, fail_at: List<u64>) -> Result<BytesSink, AllocError>
        ensures { IfOk result (λ s.
            s ≡ record { written = []; room = room; fail_at = fail_at; calls = 0; faults = 0 }) }
    {
        Ok(BytesSink {
            sink: PlainSink::new(alloc, room)?,
            fail_at,
            calls: 0,
        })
    }

    /// What was written.
    pub fn written(&self) -> &[u8]
        ensures { result.now ≡ self.now.written }
    {
        self.sink.written()
    }
}

impl Sink for BytesSink {
    ghost use Rattle.std.specs.Prelude.{Some};

    ghost state = { λ s. record { written = Some s.written; faults = s.faults } };

    /// Refuses exactly the calls whose numbers are listed, and else takes all of the piece or as much as there is room
    /// for.
    fn write(&mut self, piece: &[u8]) -> Result<usize, SinkFault>
        ensures fails { is_err result ≡ is_listed self.old.fail_at (one_more self.old.calls) }
        ensures after_fault { OnErr result (self.new ≡ record self.old {
          calls = one_more self.old.calls;
          faults = one_more self.old.faults;
        }) }
        ensures fills { IfOk result (λ n.
            n ≡ min (length piece.now) (self.old.room - length self.old.written)) }
        ensures after { IfOk result (λ n. self.new ≡ record self.old {
          written = self.old.written ++ take n piece.now;
          calls = one_more self.old.calls;
          faults =
              if is_fault_of_sink piece.now result then one_more self.old.faults
              else self.old.faults;
        }) }

        // What every sink owes.
        ensures bound { IfOk result (λ n. n ≤ length piece.now) }
        ensures appended { IfOk result (λ n.
            Appends (take n piece.now) (Some self.old.written) (Some self.new.written)) }
        ensures kept { OnErr result (self.new.written ≡ self.old.written) }
        ensures counted { CountsFault (is_fault_of_sink piece.now result)
            self.old.faults self.new.faults }
    {
        self.calls = self.calls.saturating_add(1);
        if self.fail_at.as_slice().contains(&self.calls) {
            return Err(self.sink.refuse());
        }
        Ok(self.sink.append(piece))
    }
}
