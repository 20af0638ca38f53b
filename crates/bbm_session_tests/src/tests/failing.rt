//! Reads of a log and writes of a text that fail.

use super::{Faults, NO_FAULTS, NOT_FLUSHED, REMAP, Row, first_other, judged, says};
use std::alloc::{AllocError, Global};
use std::test::Fail;

/// Whether `check` ends with the status of a fault and no text, where this read of the log fails.
fn is_cut_at(alloc: Global, read: u64) -> Result<bool, AllocError> {
    says(
        alloc,
        "check",
        REMAP,
        Faults { read, ..NO_FAULTS },
        (b"", 4),
    )
}

/// The first read at which it doesn't.
fn first_taken(alloc: Global) -> Result<Option<u64>, AllocError> {
    for read in 1..=200 {
        if !is_cut_at(alloc, read)? {
            return Ok(Some(read));
        }
    }
    Ok(None)
}

/// The log of 175 bytes is read byte by byte, so its end is found by read 176, and no further one is made.
#[test]
fn each_read_fails_in_turn(rt: HostRuntime) -> Result<(), Fail> {
    assert_eq!(rt; first_taken(rt.alloc())?, Some(177));
    Ok(())
}

/// A run whose second step is none.
const BAD: &[u8] = b"bbmlog 1 hyp 2 1 1 1
isb 0
m drop 1
end 1
";

const OF_A_LOG: [Row; 7] = [
    ("check", REMAP, (177, 0, 200), (b"accepted 8 events\n", 0)),
    ("check", REMAP, (0, 1, 200), (b"", 5)),
    ("check", REMAP, (0, 2, 200), (b"accepted 8 events\n", 0)),
    ("check", REMAP, (0, 0, 0), (b"", 5)),
    ("check", REMAP, (0, 0, 5), (b"accep", 5)),
    ("check", REMAP, (0, 0, 18), (b"accepted 8 events\n", 0)),
    // The fault of the read comes first.
    ("check", REMAP, (5, 1, 200), (b"", 4)),
];

/// Texts of several writes, each of which fails in turn, and a sink that is full before their end.
const OF_LINES: [Row; 8] = [
    ("explain", NOT_FLUSHED, (0, 1, 200), (b"", 5)),
    (
        "explain",
        NOT_FLUSHED,
        (0, 2, 200),
        (
            b"refused line 6 rule 4 break-before-make at 0x40000008\n",
            5,
        ),
    ),
    (
        "explain",
        NOT_FLUSHED,
        (0, 3, 200),
        (
            b"refused line 6 rule 4 break-before-make at 0x40000008\npe 0 broken\n",
            5,
        ),
    ),
    (
        "explain",
        NOT_FLUSHED,
        (0, 0, 60),
        (
            b"refused line 6 rule 4 break-before-make at 0x40000008\npe 0 b",
            5,
        ),
    ),
    (
        "walk el2 0x40000000 0x40001234",
        REMAP,
        (0, 2, 200),
        (b"accepted 8 events\n", 5),
    ),
    (
        "walk el2 0x40000000 0x40001234",
        REMAP,
        (0, 3, 200),
        (b"accepted 8 events\nwalk out 0xc0001234 level 1\n", 0),
    ),
    (
        "selftest 0 10",
        b"",
        (1, 2, 200),
        (b"accepted 10 events\n", 5),
    ),
    (
        "selftest 0 10",
        b"",
        (1, 0, 36),
        (b"accepted 10 events\npages 2 restless ", 5),
    ),
];

/// Of the 42 bytes of the run the end is found by read 43.
const OF_A_RUN: [Row; 5] = [
    ("follow", BAD, (30, 1, 200), (b"", 4)),
    ("follow", BAD, (43, 0, 200), (b"", 4)),
    ("follow", BAD, (44, 0, 200), (b"bad step line 3\n", 1)),
    ("follow", BAD, (0, 1, 200), (b"", 5)),
    ("follow", BAD, (0, 0, 5), (b"bad s", 5)),
];

#[test]
fn faults_are_told(rt: HostRuntime) -> Result<(), Fail> {
    assert_eq!(rt; first_other(rt.alloc(), &OF_A_LOG)?, None);
    assert_eq!(rt; first_other(rt.alloc(), &OF_LINES)?, None);
    assert_eq!(rt; first_other(rt.alloc(), &OF_A_RUN)?, None);
    Ok(())
}

/// The status and the number of bytes written, where this write of a generated log fails, or the sink has this room.
fn written(
    alloc: Global,
    command: &str,
    write: u64,
    room: usize,
) -> Result<(u8, usize), AllocError> {
    let faults = Faults {
        read: 1,
        write,
        room,
    };
    let (status, sink) = judged(alloc, command, Vec::new(alloc), faults)?;
    Ok((status, sink.bytes().len()))
}

/// A write takes 4 KiB at least, but for the last.
#[test]
fn faults_of_a_generated_log_are_told(rt: HostRuntime) -> Result<(), Fail> {
    assert!(rt; written(rt.alloc(), "gen 7 4294967293", 1, 200)? == (5, 0));
    assert!(rt; written(rt.alloc(), "gen 3 8", 0, 5)? == (5, 5));
    let (status, bytes) = written(rt.alloc(), "gen 7 5000", 2, 100000)?;
    assert!(rt; status == 5 && bytes >= 4096 && bytes <= 79000);
    Ok(())
}
