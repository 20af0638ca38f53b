//! Whole runs over sources and sinks in memory: the status and the bytes that are written. What each command says of
//! logs stands in `examples/`; here is what no file shows.

mod commands;
mod failing;
mod long;
mod usage;

use bbm_io::{MemSink, MemSource};
use bbm_session::run;
use bbm_texts::number;
use std::alloc::{AllocError, Global};

/// The calls of the source and of the sink that fail, counted from 1 (0: none does), and the room of the
/// sink in bytes.
#[derive(Clone, Copy)]
struct Faults {
    read: u64,
    write: u64,
    room: usize,
}

const NO_FAULTS: Faults = Faults {
    read: 0,
    write: 0,
    room: 600,
};

/// The words of a command with one space between them; no words for an empty text.
fn words_of(alloc: Global, command: &str) -> Result<Vec<String>, AllocError> {
    let mut words = Vec::new(alloc);
    for word in command.split(' ') {
        if !word.is_empty() {
            words.push(String::from_str(alloc, word)?)?;
        }
    }
    Ok(words)
}

/// Runs the command over the log, and answers the number of its status and the sink.
fn judged(
    alloc: Global,
    command: &str,
    log: Vec<u8>,
    faults: Faults,
) -> Result<(u8, MemSink), AllocError> {
    let words = words_of(alloc, command)?;
    let mut source = MemSource::new(log, vec![in alloc; faults.read]?);
    let room = Vec::with_capacity(alloc, faults.room)?;
    let mut sink = MemSink::new(room, vec![in alloc; faults.write]?);
    let status = run(alloc, &words, &mut source, &mut sink);
    Ok((number(status), sink))
}

/// What is expected of a run: its text and the number of its status.
type Said = (&'static [u8], u8);

/// Whether the command says this of the log.
fn says(
    alloc: Global,
    command: &str,
    log: &[u8],
    faults: Faults,
    said: Said,
) -> Result<bool, AllocError> {
    let (status, sink) = judged(alloc, command, log.to_vec(alloc)?, faults)?;
    Ok(status == said.1 && sink.bytes() == said.0)
}

/// The words, the log, the read and the write that fail with the sink's room, what is written, and the status.
type Row = (&'static str, &'static [u8], (u64, u64, usize), Said);

/// The first row of which its command says something else.
fn first_other(alloc: Global, rows: &[Row]) -> Result<Option<usize>, AllocError> {
    for (at, row) in rows.iter().enumerate() {
        let (read, write, room) = row.2;
        let faults = Faults { read, write, room };
        if !says(alloc, row.0, row.1, faults, row.3)? {
            return Ok(Some(at));
        }
    }
    Ok(None)
}

/// A header and no event.
const EMPTY: &[u8] = b"bbmlog 1 hyp 2 1 1 1
end 0
";

/// A block is written, cleared, and flushed, and then another one is written.
const REMAP: &[u8] = b"bbmlog 1 hyp 2 1 1 1
init 0 0x40000000
root 0 el2 - 0x40000000
w 0 0x40000008 0x80000701
w 0 0x40000008 0x0
dsb 0 ish
tlbi 0 alle2is
dsb 0 ish
w 0 0x40000008 0xc0000701
end 8
";

/// The same without the flush.
const NOT_FLUSHED: &[u8] = b"bbmlog 1 hyp 2 1 1 1
init 0 0x40000000
root 0 el2 - 0x40000000
w 0 0x40000008 0x80000701
w 0 0x40000008 0x0
w 1 0x40000008 0xc0000701
end 5
";
