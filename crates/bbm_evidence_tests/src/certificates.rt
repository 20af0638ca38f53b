//! Logs judged by claims alone, with what was worked out by hand.

use crate::lines::{claims_of, events_of};
use bbm_cert::{Judged, verify};
use bbm_log_grammar::read_header;
use bbm_rules::Rule;
use std::alloc::Global;

/// What the claims make of the events; None where a line is none of the header, or there is no memory.
fn judged(alloc: Global, header: &[u8], lines: &[&[u8]], claims: &[&[u8]]) -> Option<Judged> {
    let header = read_header(header).ok()?;
    let events = events_of(alloc, &header, lines)?;
    let claims = claims_of(alloc, &header, claims)?;
    if events.len() > 100 {
        return None;
    }
    verify(alloc, &header, &events, &claims).ok()
}

/// The write of 0x40000008 at the position must come after a break.
const fn refused(position: u32) -> Judged {
    Judged::No {
        position,
        rule: Rule::BreakBeforeMake,
        at: 0x4000_0008,
    }
}

const HYP: &[u8] = b"bbmlog 1 hyp 2 1 1 1";

// A block is made, cleared and flushed, and a block at another output address is made.
const MOVED: [&[u8]; 9] = [
    b"init 0 0x40000000",
    b"root 0 el2 - 0x40000000",
    b"w 0 0x40000008 0x80000701",
    b"dsb 0 ishst",
    b"w 0 0x40000008 0x0",
    b"dsb 0 ishst",
    b"tlbi 0 vae2is 0x40000",
    b"dsb 0 ish",
    b"w 0 0x40000008 0xc0000701",
];

// The same, with the TLBI before the clear is published.
const EARLY: [&[u8]; 9] = [
    b"init 0 0x40000000",
    b"root 0 el2 - 0x40000000",
    b"w 0 0x40000008 0x80000701",
    b"dsb 0 ishst",
    b"w 0 0x40000008 0x0",
    b"tlbi 0 vae2is 0x40000",
    b"dsb 0 ishst",
    b"dsb 0 ish",
    b"w 0 0x40000008 0xc0000701",
];

// The same as the first, with a DSB of another PE behind the TLBI.
const OTHER_PE: [&[u8]; 9] = [
    b"init 0 0x40000000",
    b"root 0 el2 - 0x40000000",
    b"w 0 0x40000008 0x80000701",
    b"dsb 0 ishst",
    b"w 0 0x40000008 0x0",
    b"dsb 0 ishst",
    b"tlbi 0 vae2is 0x40000",
    b"dsb 1 ish",
    b"w 0 0x40000008 0xc0000701",
];

const UNBROKEN: Judged = Judged::No {
    position: 9,
    rule: Rule::BreakBeforeMake,
    at: 0x4000_0008,
};

// Claims of PE 0 and of PE 1 that are true of the first.
const ZERO: &[u8] = b"c place 0 0x40000008 6 7 8";

const ONE: &[u8] = b"c place 1 0x40000008 6 7 8";

// A log, claims, and what these make of it.
const EL2: [(&[&[u8]], &[&[u8]], Judged); 11] = [
    (&MOVED, &[ZERO, ONE], Judged::Yes),
    // In another order.
    (&MOVED, &[ONE, ZERO], Judged::Yes),
    // No claim of PE 1.
    (&MOVED, &[ZERO], UNBROKEN),
    // The publication before the clear, and no barrier that publishes.
    (&MOVED, &[ZERO, b"c place 1 0x40000008 4 7 8"], UNBROKEN),
    (&MOVED, &[ZERO, b"c place 1 0x40000008 5 7 8"], UNBROKEN),
    // No TLBI, no answer, position 0, and one behind the log.
    (&MOVED, &[ZERO, b"c place 1 0x40000008 6 6 8"], UNBROKEN),
    (&MOVED, &[ZERO, b"c place 1 0x40000008 6 7 9"], UNBROKEN),
    (&MOVED, &[ZERO, b"c place 1 0x40000008 0 7 8"], UNBROKEN),
    (&MOVED, &[ZERO, b"c place 1 0x40000008 6 7 10"], UNBROKEN),
    (
        &EARLY,
        &[b"c place 0 0x40000008 7 6 8", b"c place 1 0x40000008 7 6 8"],
        UNBROKEN,
    ),
    (&OTHER_PE, &[ZERO, ONE], UNBROKEN),
];

#[test]
fn places_of_el2(rt: HostRuntime) {
    for (log, claims, expected) in EL2 {
        assert!(rt; judged(rt.alloc(), HYP, log, claims) == Some(expected));
    }
}

// A page of stage 2 is made, cleared and flushed in two steps, and one at another output address is made.
const TWO_STEPS: [&[u8]; 12] = [
    b"init 0 0x40000000",
    b"root 0 s2 - 0x40000000",
    b"msr 0 vttbr_el2 0x5000040000000",
    b"isb 0",
    b"w 0 0x40000008 0x800007fd",
    b"w 0 0x40000008 0x0",
    b"dsb 0 ishst",
    b"tlbi 0 ipas2e1is 0x40000",
    b"dsb 0 ish",
    b"tlbi 0 vmalle1is",
    b"dsb 0 ish",
    b"w 0 0x40000008 0xc00007fd",
];

// The same, with the second TLBI before the answer of the first.
const BOTH_AT_ONCE: [&[u8]; 12] = [
    b"init 0 0x40000000",
    b"root 0 s2 - 0x40000000",
    b"msr 0 vttbr_el2 0x5000040000000",
    b"isb 0",
    b"w 0 0x40000008 0x800007fd",
    b"w 0 0x40000008 0x0",
    b"dsb 0 ishst",
    b"tlbi 0 ipas2e1is 0x40000",
    b"tlbi 0 vmalle1is",
    b"dsb 0 ish",
    b"dsb 0 ish",
    b"w 0 0x40000008 0xc00007fd",
];

#[test]
fn places_of_stage_2(rt: HostRuntime) {
    let rows: [(&[&[u8]], &[&[u8]], Judged); 3] = [
        (
            &TWO_STEPS,
            &[
                b"c two 0 0x40000008 7 8 9 10 11",
                b"c two 1 0x40000008 7 8 9 10 11",
            ],
            Judged::Yes,
        ),
        // One step alone.
        (
            &TWO_STEPS,
            &[
                b"c two 0 0x40000008 7 8 9 10 11",
                b"c place 1 0x40000008 7 10 11",
            ],
            refused(12),
        ),
        (
            &BOTH_AT_ONCE,
            &[
                b"c two 0 0x40000008 7 8 10 9 10",
                b"c two 1 0x40000008 7 8 10 9 10",
            ],
            refused(12),
        ),
    ];
    for (log, claims, expected) in rows {
        assert!(rt; judged(rt.alloc(), HYP, log, claims) == Some(expected));
    }
}

// PE 0 uses a root of EL2, leaves it and flushes its tag, and then uses another root.
const SWITCHED: [&[u8]; 11] = [
    b"init 0 0x40000000",
    b"root 0 el2 - 0x40000000",
    b"init 0 0x40001000",
    b"root 0 el2 - 0x40001000",
    b"msr 0 ttbr0_el2 0x40000000",
    b"isb 0",
    b"msr 0 ttbr0_el2 0x0",
    b"isb 0",
    b"tlbi 0 alle2is",
    b"dsb 0 ish",
    b"msr 0 ttbr0_el2 0x40001000",
];

// The same, with the tag readable at the TLBI.
const READABLE: [&[u8]; 11] = [
    b"init 0 0x40000000",
    b"root 0 el2 - 0x40000000",
    b"init 0 0x40001000",
    b"root 0 el2 - 0x40001000",
    b"msr 0 ttbr0_el2 0x40000000",
    b"isb 0",
    b"msr 0 ttbr0_el2 0x0",
    b"tlbi 0 alle2is",
    b"isb 0",
    b"dsb 0 ish",
    b"msr 0 ttbr0_el2 0x40001000",
];

#[test]
fn tags(rt: HostRuntime) {
    let conflict = Judged::No {
        position: 11,
        rule: Rule::TagConflict,
        at: 0x4000_0000,
    };
    let rows: [(&[&[u8]], &[&[u8]], Judged); 4] = [
        (&SWITCHED, &[b"c tag 0 el2 0 9 10"], Judged::Yes),
        (&SWITCHED, &[b"c tag 0 el2 0 8 10"], conflict),
        (&SWITCHED, &[b"c tag 1 el2 0 9 10"], conflict),
        (&READABLE, &[b"c tag 0 el2 0 8 10"], conflict),
    ];
    for (log, claims, expected) in rows {
        assert!(rt; judged(rt.alloc(), HYP, log, claims) == Some(expected));
    }
}

// A block of stage 2 is made, cleared and flushed in two steps. Then its first page becomes a table of EL2.
const ISOLATED: &[u8] = b"bbmlog 5 hyp 1 1 1 1 isolated";

const GIVEN_BACK: [&[u8]; 13] = [
    b"init 0 0x40000000",
    b"root 0 s2 - 0x40000000",
    b"msr 0 vttbr_el2 0x5000040000000",
    b"isb 0",
    b"w 0 0x40000008 0x800007fd",
    b"w 0 0x40000008 0x0",
    b"dsb 0 ishst",
    b"tlbi 0 ipas2e1is 0x40000",
    b"dsb 0 ish",
    b"tlbi 0 vmalle1is",
    b"dsb 0 ish",
    b"init 0 0x80000000",
    b"root 0 el2 - 0x80000000",
];

#[test]
fn table_pages(rt: HostRuntime) {
    let mapped = Judged::No {
        position: 13,
        rule: Rule::TableMapped,
        at: 0x8000_0000,
    };
    let rows: [(&[&[u8]], Judged); 3] = [
        (&[b"c two 0 0x40000008 7 8 9 10 11"], Judged::Yes),
        // No claim, and one step alone: the block still maps the page.
        (&[], mapped),
        (&[b"c place 0 0x40000008 7 10 11"], mapped),
    ];
    for (claims, expected) in rows {
        assert!(rt; judged(rt.alloc(), ISOLATED, &GIVEN_BACK, claims) == Some(expected));
    }
}
