// Sinks that refuse a write, or have room for a front of the text alone.
use cli_core::{BytesSink, PlainSource, Status, run};
use std::alloc::{AllocError, Global};
use sugar_path::{Bytes, List};
use tree_core::MemoryTree;

/// Whether each such sink ends the run, with the front of the text that it took.
pub fn ends_at_each_sink(
    alloc: Global,
    words: &[String],
    document: &Bytes,
    text: &[u8],
) -> Result<bool, AllocError> {
    let rooms = [0, 1, text.len() / 2, text.len().saturating_sub(1)];
    for room in rooms {
        if !ends_at_each_write(alloc, words, document, text, room)? {
            return Ok(false);
        }
    }
    Ok(true)
}

// The second write finds the room full, and takes nothing.
fn ends_at_each_write(
    alloc: Global,
    words: &[String],
    document: &Bytes,
    text: &[u8],
    room: usize,
) -> Result<bool, AllocError> {
    for write in 1..4u64 {
        let taken = if write == 1 { 0 } else { room };
        let front = text.get(..taken).unwrap_or(text);
        if !ends(alloc, words, document, room, write, front)? {
            return Ok(false);
        }
    }
    Ok(true)
}

// Whether a sink with this room, which refuses one write, ends the run and has taken a front of the text.
fn ends(
    alloc: Global,
    words: &[String],
    document: &Bytes,
    room: usize,
    write: u64,
    front: &[u8],
) -> Result<bool, AllocError> {
    let refused = List::from(vec![in alloc; write]?);
    let mut sink = BytesSink::new(alloc, room, refused)?;
    let mut source = PlainSource::new(document.try_clone(alloc)?);
    let mut disk = MemoryTree::new(alloc);
    let status = run(alloc, words, &mut source, &mut sink, &mut disk);
    Ok(status == Status::WriteFault && sink.written() == front)
}
