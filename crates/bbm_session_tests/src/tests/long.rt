//! Logs that repeat a piece: lines of many bytes, and many lines.

use super::{EMPTY, NO_FAULTS, Said, says};
use std::alloc::{AllocError, Global};
use std::test::Fail;

const HEADER: &[u8] = b"bbmlog 1 hyp 2 1 1 1\n";

/// How a log begins, so many times the byte `a`, what stands after it, and what `check` says. 200 bytes are read as a
/// line, and behind the `end` line no line is too long.
const BYTES: [(&[u8], u32, &[u8], Said); 7] = [
    (b"", 200, b"", (b"malformed line 1 cause 9 NoEnd\n", 2)),
    (HEADER, 200, b"", (b"malformed line 2 cause 9 NoEnd\n", 2)),
    (
        HEADER,
        200,
        b"\nend 0\n",
        (b"malformed line 2 cause 3 UnknownWord\n", 2),
    ),
    (HEADER, 201, b"", (b"limit line 2 line-bytes\n", 7)),
    (HEADER, 201, b"\nend 0\n", (b"limit line 2 line-bytes\n", 7)),
    (
        EMPTY,
        201,
        b"",
        (b"malformed line 3 cause 11 AfterEnd\n", 2),
    ),
    (
        EMPTY,
        300,
        b"\n",
        (b"malformed line 3 cause 11 AfterEnd\n", 2),
    ),
];

/// The words, what stands behind the header and 2,000 lines `isb 0`, and what is said. What is malformed and a broken
/// rule come before the limit of events in the same line.
const LINES: [(&str, &[u8], Said); 16] = [
    (
        "check",
        b"isb 0\nend 2000\n",
        (b"malformed line 2003 cause 10 WrongCount\n", 2),
    ),
    (
        "check",
        b"isb 0\nroot 1 el2 - 0x40001000\n",
        (b"refused line 2003 rule 10 page-in-use at 0x40001000\n", 1),
    ),
    ("slow", b"end 2000\n", (b"accepted 2000 events\n", 0)),
    ("slow", b"", (b"malformed line 2002 cause 9 NoEnd\n", 2)),
    (
        "slow",
        b"end 2001\n",
        (b"malformed line 2002 cause 10 WrongCount\n", 2),
    ),
    (
        "slow",
        b"dsb 0 full\n",
        (b"malformed line 2002 cause 3 UnknownWord\n", 2),
    ),
    (
        "slow",
        b"root 1 el2 - 0x40001000\n",
        (b"refused line 2002 rule 10 page-in-use at 0x40001000\n", 1),
    ),
    ("idle", b"isb 0\n", (b"limit line 2002 events\n", 7)),
    ("counterrun", b"isb 0\n", (b"limit line 2002 events\n", 7)),
    ("cert", b"isb 0\n", (b"limit line 2002 events\n", 7)),
    ("verify", b"isb 0\n", (b"limit line 2002 events\n", 7)),
    (
        "verify",
        b"dsb 0 full\n",
        (b"malformed line 2002 cause 3 UnknownWord\n", 2),
    ),
    (
        "verify",
        b"end 2000\nbbmcert 1\n",
        (b"malformed line 2004 cause 9 NoEnd\n", 2),
    ),
    ("follow", b"end 2000\n", (b"run 2000 steps\n", 0)),
    // A line of the machine is a step, too.
    ("follow", b"m drop 1\n", (b"limit line 2002 steps\n", 7)),
    (
        "follow",
        b"dsb 0 full\n",
        (b"malformed line 2002 cause 3 UnknownWord\n", 2),
    ),
];

/// A log of these bytes, of the piece so many times, and of the bytes after it.
fn log(
    alloc: Global,
    before: &[u8],
    piece: &[u8],
    count: u32,
    after: &[u8],
) -> Result<Vec<u8>, AllocError> {
    let mut bytes = before.to_vec(alloc)?;
    for _ in 0..count {
        bytes.extend_from_slice(piece)?;
    }
    bytes.extend_from_slice(after)?;
    Ok(bytes)
}

/// The first row of bytes of which `check` says something else.
fn other_bytes(alloc: Global) -> Result<Option<usize>, AllocError> {
    for (at, row) in BYTES.iter().enumerate() {
        let bytes = log(alloc, row.0, b"a", row.1, row.2)?;
        if !says(alloc, "check", &bytes, NO_FAULTS, row.3)? {
            return Ok(Some(at));
        }
    }
    Ok(None)
}

/// The first row of lines of which its command says something else.
fn other_lines(alloc: Global) -> Result<Option<usize>, AllocError> {
    for (at, row) in LINES.iter().enumerate() {
        let bytes = log(alloc, HEADER, b"isb 0\n", 2000, row.1)?;
        if !says(alloc, row.0, &bytes, NO_FAULTS, row.2)? {
            return Ok(Some(at));
        }
    }
    Ok(None)
}

#[test]
fn limits_are_kept(rt: HostRuntime) -> Result<(), Fail> {
    assert_eq!(rt; other_bytes(rt.alloc())?, None);
    assert_eq!(rt; other_lines(rt.alloc())?, None);
    Ok(())
}
