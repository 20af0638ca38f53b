//! Lines, pieces and failing calls over sources and sinks in memory and over std.

use arrayvec::ArrayVec;
use bbm_io::*;
use std::alloc::{AllocError, Global};
use std::io;
use std::io::{ErrorKind, Read, Write};
use std::test::Fail;

/// This many letters `a`, and then the text.
fn letters(alloc: Global, count: usize, text: &str) -> Result<Vec<u8>, AllocError> {
    let mut bytes = Vec::new(alloc);
    bytes.resize(count, b'a')?;
    bytes.extend_from_slice(text.as_bytes())?;
    Ok(bytes)
}

#[test]
fn reads_lines_in_memory(rt: HostRuntime) -> Result<(), Fail> {
    let mut source = CleanSource::new(letters(rt.alloc(), 2, "\nb")?);
    let mut lines = Lines::new();
    assert!(rt; matches!(lines.next(&mut source), Ok(LineOrEnd::Line)));
    assert!(rt; lines.bytes() == b"aa".as_slice());
    assert!(rt; source.ahead() == b"b".as_slice());
    assert!(rt; put(&mut CleanSink::new(), b"abc").is_ok());
    Ok(())
}

/// What one call of a reader or a writer does: it passes so many bytes at most, or fails.
#[derive(Clone, Copy)]
enum Turn {
    Pass(usize),
    Fail(ErrorKind),
}

/// A reader and writer whose calls go by their turns, and then pass all bytes.
#[derive(Drop)]
struct Wire<'a> {
    bytes: &'a [u8],
    turns: &'a [Turn],
    sent: ArrayVec<u8, 16>,
}

/// How many bytes the next call passes.
fn next_turn(turns: &mut &[Turn]) -> io::Result<usize> {
    let Some((turn, rest)) = turns.split_first() else {
        return Ok(usize::MAX);
    };
    *turns = rest;
    match *turn {
        Turn::Pass(count) => Ok(count),
        Turn::Fail(kind) => Err(io::Error::new(kind, "as the test asks")),
    }
}

impl Read for Wire<'_> {
    fn read(&mut self, buf: &mut [u8]) -> io::Result<usize> {
        let count = next_turn(&mut self.turns)?.min(buf.len());
        self.bytes.read(&mut buf[..count])
    }
}

impl Write for Wire<'_> {
    fn write(&mut self, buf: &[u8]) -> io::Result<usize> {
        let count = next_turn(&mut self.turns)?.min(buf.len());
        let _fits = self.sent.try_extend_from_slice(&buf[..count]);
        Ok(count)
    }

    fn flush(&mut self) -> io::Result<()> {
        Ok(())
    }
}

/// The first four lines and pieces that are read, each with its end: a newline, a point for the end of the input, or an
/// exclamation mark for a fault.
fn read_by(turns: &[Turn]) -> ArrayVec<u8, 32> {
    let mut source = StdSource::new(Wire {
        bytes: b"ab\ncde\nf",
        turns,
        sent: ArrayVec::new(),
    });
    let mut lines = Lines::new();
    let mut told = ArrayVec::new();
    for _ in 0..4 {
        if lines.failed() {
            return told;
        }
        let end = match lines.next(&mut source) {
            Ok(LineOrEnd::Line) => b'\n',
            Ok(_) => b'.',
            Err(_) => b'!',
        };
        let _fits = told.try_extend_from_slice(lines.bytes());
        let _fits = told.try_push(end);
    }
    told
}

const AGAIN: Turn = Turn::Fail(ErrorKind::Interrupted);

const FAULT: Turn = Turn::Fail(ErrorKind::Other);

#[test]
fn reads_lines_in_pieces(rt: HostRuntime) {
    use Turn::Pass;

    let whole = b"ab\ncde\nf..".as_slice();
    assert!(rt; read_by(&[]).as_slice() == whole);
    assert!(rt; read_by(&[Pass(1), AGAIN, Pass(1)]).as_slice() == whole);
    assert!(rt; read_by(&[AGAIN, Pass(4), AGAIN]).as_slice() == whole);
    assert!(rt; read_by(&[Pass(0), Pass(2)]).as_slice() == b".ab\ncde\nf.".as_slice());
    assert!(rt; read_by(&[FAULT, AGAIN]).as_slice() == b"!".as_slice());
    assert!(rt; read_by(&[Pass(4), FAULT]).as_slice() == b"ab\n!".as_slice());
}

/// How many of its three turns a reader has left after an empty line and one of letters that is too long were asked
/// for, where its first call passes so many bytes. The second call fails, so it would wait on a pipe.
fn turns_left(alloc: Global, passed: usize) -> Result<usize, AllocError> {
    let mut bytes = letters(alloc, 0, "\n")?;
    bytes.resize(passed, b'a')?;
    let mut wire = Wire {
        bytes: &bytes,
        turns: &[Turn::Pass(1000), FAULT, FAULT],
        sent: ArrayVec::new(),
    };
    let mut source = StdSource::new(&mut wire);
    let mut lines = Lines::new();
    let _first = lines.next(&mut source);
    if !lines.failed() {
        let _second = lines.next(&mut source);
    }
    drop(source);
    Ok(wire.turns.len())
}

#[test]
fn asks_for_no_byte_behind_a_line_that_is_too_long(rt: HostRuntime) -> Result<(), Fail> {
    assert!(rt; turns_left(rt.alloc(), 201)? == 1);
    assert!(rt; turns_left(rt.alloc(), 202)? == 2);
    Ok(())
}

#[test]
fn reads_ahead(rt: HostRuntime) {
    let mut source = StdSource::new(Wire {
        bytes: b"abc",
        turns: &[Turn::Pass(2), FAULT],
        sent: ArrayVec::new(),
    });
    assert!(rt; source.more() == Ok(true));
    assert!(rt; source.more() == Err(Failed));
    assert!(rt; source.ahead() == b"ab".as_slice());
}

/// Whether this piece goes out, and this is what the writer was sent.
fn puts(turns: &[Turn], goes: bool, sent: &[u8]) -> bool {
    let mut wire = Wire {
        bytes: b"",
        turns,
        sent: ArrayVec::new(),
    };
    let put = put(&mut StdSink::new(&mut wire), b"abcde");
    put.is_ok() == goes && wire.sent.as_slice() == sent
}

#[test]
fn puts_pieces_over_std(rt: HostRuntime) {
    use Turn::Pass;

    assert!(rt; puts(&[Pass(1), AGAIN, Pass(2)], true, b"abcde"));
    assert!(rt; puts(&[Pass(2), Pass(0), Pass(9)], false, b"ab"));
    assert!(rt;
        puts(
            &[Pass(4), Turn::Fail(ErrorKind::BrokenPipe)],
            false,
            b"abcd"
        )
    );
}
