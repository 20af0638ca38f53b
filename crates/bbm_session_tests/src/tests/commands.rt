//! Each command once. The texts were worked out by hand.

use super::{Faults, NO_FAULTS, NOT_FLUSHED, REMAP, Row, first_other, says};
use std::alloc::{AllocError, Global};
use std::test::Fail;

/// A block is replaced while PE 1 may read it.
const REPLACED: &[u8] = b"bbmlog 1 hyp 2 1 1 1
init 0 0x40000000
root 0 el2 - 0x40000000
msr 1 ttbr0_el2 0x40000000
w 0 0x40000008 0x80000701
w 0 0x40000008 0xc0000701
end 5
";

/// PE 1 has read it.
const RUN: &[u8] = b"bbmlog 1 hyp 2 1 1 1
init 0 0x40000000
root 0 el2 - 0x40000000
msr 1 ttbr0_el2 0x40000000
w 0 0x40000008 0x80000701
m start 1 el2 0 0x40000008 0x80000701
w 0 0x40000008 0xc0000701
end 5
";

/// What `cert` says of the log of the first row, behind it.
const CERTIFIED: &[u8] = b"bbmlog 1 hyp 2 1 1 1
init 0 0x40000000
root 0 el2 - 0x40000000
w 0 0x40000008 0x80000701
w 0 0x40000008 0x0
dsb 0 ish
tlbi 0 alle2is
dsb 0 ish
w 0 0x40000008 0xc0000701
end 8
bbmcert 1
c place 0 0x40000008 5 6 7
c place 1 0x40000008 5 6 7
end 2
";

/// Nothing fails, and the sink has room.
const ROOM: (u64, u64, usize) = (0, 0, 600);

/// No contract says that there is memory: with ample memory the log of the first row is accepted, so a body that always
/// answers want of memory fails here.
const RUNS: [Row; 9] = [
    ("check", REMAP, ROOM, (b"accepted 8 events\n", 0)),
    ("slow", REMAP, ROOM, (b"accepted 8 events\n", 0)),
    (
        "explain",
        NOT_FLUSHED,
        ROOM,
        (
            b"refused line 6 rule 4 break-before-make at 0x40000008\npe 0 broken\npe 1 broken\n",
            1,
        ),
    ),
    (
        "walk el2 0x40000000 0x40001234",
        REMAP,
        ROOM,
        (b"accepted 8 events\nwalk out 0xc0001234 level 1\n", 0),
    ),
    (
        "idle",
        b"bbmlog 1 hyp 2 1 1 1\ndmb 0 ish\nisb 0\nend 2\n",
        ROOM,
        (b"accepted 2 events\nidle line 2\nidle line 3\n", 0),
    ),
    ("counterrun", REPLACED, ROOM, (RUN, 1)),
    ("follow", RUN, ROOM, (b"run 6 steps conflict line 7\n", 0)),
    (
        "cert",
        REMAP,
        ROOM,
        (
            b"bbmcert 1\nc place 0 0x40000008 5 6 7\nc place 1 0x40000008 5 6 7\nend 2\n",
            0,
        ),
    ),
    (
        "verify",
        CERTIFIED,
        ROOM,
        (b"verified 8 events 2 claims\n", 0),
    ),
];

#[test]
fn each_command_judges(rt: HostRuntime) -> Result<(), Fail> {
    assert_eq!(rt; first_other(rt.alloc(), &RUNS)?, None);
    Ok(())
}

/// Whether these words say this without a read, which would fail.
fn says_unread(alloc: Global, command: &str, text: &'static [u8]) -> Result<bool, AllocError> {
    let unread = Faults {
        read: 1,
        ..NO_FAULTS
    };
    says(alloc, command, b"", unread, (text, 0))
}

#[test]
fn generated_logs_are_made_without_a_read(rt: HostRuntime) -> Result<(), Fail> {
    assert!(rt; says_unread(rt.alloc(), "gen 0 0", b"bbmlog 1 hyp 4 1 1 1\nend 0\n")?);
    assert!(rt;
        says_unread(
            rt.alloc(),
            "selftest 0 10",
            b"accepted 10 events\npages 2 restless 1\n"
        )?
    );
    Ok(())
}
