//! What the words say.

use super::{Faults, NO_FAULTS, REMAP, says};
use std::alloc::{AllocError, Global};
use std::test::Fail;

/// The usage line.
const USAGE: &[u8] =
    b"usage: bbm check | slow | explain | walk KIND ROOT ADDR | gen N COUNT | selftest N COUNT | follow | counterrun \
        | cert | verify | idle\n";

/// Words that ask for nothing: too few, too many, nearly a command, and nearly a number.
const NO_REQUESTS: [&str; 38] = [
    "",
    "check check",
    "check -",
    "slow slow",
    "explain explain",
    "follow follow",
    "counterrun counterrun",
    "cert cert",
    "verify verify",
    "idle idle",
    "chec",
    "checks",
    "Check",
    "walk",
    "walk el2 0x40000000",
    "walk el2 0x40000000 0x0 0x0",
    "Walk el2 0x40000000 0x0",
    "walk EL2 0x40000000 0x0",
    "walk el3 0x40000000 0x0",
    "walk el2 0x40000008 0x0",
    "walk el2 0x1000000000000 0x0",
    "walk el2 0x040000000 0x0",
    "walk el2 40000000 0x0",
    "walk el2 0x40000000 0xA",
    "walk el2 0x40000000 0x10000000000000000",
    "gen 7",
    "gen 7 1 1",
    "gen 07 1",
    "gen 0x7 1",
    "gen +7 1",
    "gen 18446744073709551616 1",
    "gen 7 4294967294",
    "selftest 7",
    "selftest 7 1 1",
    "selftest 07 1",
    "selftest 7 -1",
    "selftest 18446744073709551616 1",
    "selftest 7 4294967294",
];

/// The first words that the usage line doesn't answer, though the first read would fail.
fn first_unanswered(alloc: Global) -> Result<Option<usize>, AllocError> {
    let unread = Faults {
        read: 1,
        ..NO_FAULTS
    };
    for (at, command) in NO_REQUESTS.iter().enumerate() {
        if !says(alloc, *command, REMAP, unread, (USAGE, 3))? {
            return Ok(Some(at));
        }
    }
    Ok(None)
}

#[test]
fn tells_the_usage(rt: HostRuntime) -> Result<(), Fail> {
    assert_eq!(rt; first_unanswered(rt.alloc())?, None);
    Ok(())
}
