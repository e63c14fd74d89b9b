// The command `disk`: from requests over a tree to a status and a text.
ghost use Rattle.std.specs.Prelude.{◌≡◌, ◌⊎◌, true};
ghost use Rattle.document_core.specs.CauseLine.{cause_line};
ghost use Rattle.cli_core.specs.OnDisk.{AsksDisk};
ghost use Rattle.cli_core.specs.Run.{CountsTreeFault, is_of_sink, is_of_tree, is_silent};
ghost use Rattle.cli_core.specs.Streams.{Appends, CountsFault};
ghost use Rattle.cli_core.specs.Writing.{AppendsFront};

use crate::sink::Sink;
use crate::status::Status;
use crate::writing::write_all;
use disk_report::{DiskError, DiskRequest, text_on_tree};
use document_core::{Cause, line_of_cause};
use std::alloc::Global;
use tree_core::Tree;

// Resolves requests over a tree, and writes what is told of them, or the line of the cause against their project.
pub(crate) fn ask_disk<K: Sink, T: Tree>(
    alloc: Global,
    request: &DiskRequest<'_>,
    sink: &mut K,
    disk: &mut T,
) -> Status
    ensures asks { AsksDisk request.now result (K.state sink.old) (K.state sink.new)
        (T.state disk.old) (T.state disk.new) }
    ensures sink_faults { CountsFault (is_of_sink result)
        (K.state sink.old).faults (K.state sink.new).faults }
    ensures tree_faults { CountsTreeFault (is_of_tree result)
        (T.state disk.old).faults (T.state disk.new).faults }
    ensures silent { is_silent result ≡ true →
        (K.state sink.new).written ≡ (K.state sink.old).written }
    ensures stands { (T.state disk.new).stands_for ≡ (T.state disk.old).stands_for }
{
    let text = match text_on_tree(alloc, disk, request) {
        Ok(text) => text,
        Err(DiskError::Refused(cause)) => return tell_cause(alloc, &cause, sink),
        Err(DiskError::TreeFault) => return Status::TreeFault,
        Err(DiskError::TwoReplies) => return Status::TwoReplies,
        Err(DiskError::NoMemory) => return Status::NoMemory,
    };
    match write_all(sink, text.as_bytes()) {
        Ok(()) => Status::Done,
        Err(_) => Status::WriteFault,
    }
}

// Writes the line of the cause against a project.
fn tell_cause<K: Sink>(alloc: Global, cause: &Cause, sink: &mut K) -> Status
    ensures refused { result ≡ Status.Refused → Appends (cause_line cause.now)
        (K.state sink.old).written (K.state sink.new).written }
    ensures cut { result ≡ Status.WriteFault → AppendsFront (cause_line cause.now)
        (K.state sink.old).written (K.state sink.new).written }
    ensures ends { (result ≡ Status.Refused)
        ⊎ ((result ≡ Status.WriteFault) ⊎ (result ≡ Status.NoMemory)) }
    ensures sink_faults { CountsFault (is_of_sink result)
        (K.state sink.old).faults (K.state sink.new).faults }
    ensures silent { is_silent result ≡ true →
        (K.state sink.new).written ≡ (K.state sink.old).written }
{
    let Ok(line) = line_of_cause(alloc, cause) else {
        return Status::NoMemory;
    };
    match write_all(sink, line.as_bytes()) {
        Ok(()) => Status::Refused,
        Err(_) => Status::WriteFault,
    }
}
