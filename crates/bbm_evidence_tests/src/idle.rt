//! Which events of a log are idle. The first three logs come from outside; the others were worked out by hand.

use crate::lines::events_of;
use bbm_idle::find;
use bbm_log_grammar::read_header;
use std::alloc::Global;

/// The numbers of the lines of the idle events; the header is line 1.
fn idle_lines(alloc: Global, header: &[u8], lines: &[&[u8]]) -> Option<Vec<usize>> {
    let header = read_header(header).ok()?;
    let events = events_of(alloc, &header, lines)?;
    let marks = find(alloc, &header, &events).ok()?;
    let mut found = Vec::new(alloc);
    for (index, idle) in marks.iter().enumerate() {
        if *idle {
            found.push(index + 2).ok()?;
        }
    }
    Some(found)
}

const HYP: &[u8] = b"bbmlog 1 hyp 2 1 1 1";

const KERNEL: &[u8] = b"bbmlog 1 kernel 2 1 1 ttbr0";

// The publication of a first write is idle.
const REMAP: [&[u8]; 9] = [
    b"init 0 0x40000000",
    b"root 0 el2 - 0x40000000",
    b"w 0 0x40000008 0x80000701",
    b"dsb 0 ishst",
    b"w 0 0x40000008 0x0",
    b"dsb 0 ishst",
    b"tlbi 0 vae2is 0x40000",
    b"dsb 0 ish",
    b"w 0 0x40000008 0xc0000701",
];

// No event of the same log without it.
const WITHOUT_IT: [&[u8]; 8] = [
    b"init 0 0x40000000",
    b"root 0 el2 - 0x40000000",
    b"w 0 0x40000008 0x80000701",
    b"w 0 0x40000008 0x0",
    b"dsb 0 ishst",
    b"tlbi 0 vae2is 0x40000",
    b"dsb 0 ish",
    b"w 0 0x40000008 0xc0000701",
];

const BARRIERS: [&[u8]; 2] = [b"dmb 0 ish", b"isb 0"];

// An ISB of the PE that wrote a register, another one of it, and one of another PE.
const SYNCHRONISED: [&[u8]; 4] = [b"msr 0 ttbr0_el2 0x40000000", b"isb 1", b"isb 0", b"isb 0"];

// A TLBI that isn't broadcast reaches its own PE alone. The clear is published to PE 0, so that of PE 1 adds nothing;
// nor does the second one of PE 0, and the barrier behind it answers nothing that was needed.
const LOCAL: [&[u8]; 10] = [
    b"init 0 0x40000000",
    b"root 0 el2 - 0x40000000",
    b"w 0 0x40000008 0x80000701",
    b"w 0 0x40000008 0x0",
    b"dsb 0 nsh",
    b"tlbi 1 alle2",
    b"tlbi 0 alle2",
    b"dsb 0 nsh",
    b"tlbi 0 alle2",
    b"dsb 0 nsh",
];

// A place of stage 2 is flushed in two steps, and the first one again before the second.
const TWO_STEPS: [&[u8]; 13] = [
    b"init 0 0x40002000",
    b"root 0 s2 - 0x40002000",
    b"msr 0 vttbr_el2 0x5000040002000",
    b"isb 0",
    b"w 0 0x40002008 0x800007fd",
    b"w 0 0x40002008 0x0",
    b"dsb 0 ishst",
    b"tlbi 0 ipas2e1is 0x40000",
    b"dsb 0 ish",
    b"tlbi 0 ipas2e1is 0x40000",
    b"tlbi 0 vmalle1is",
    b"dsb 0 ish",
    b"dsb 0 ish",
];

// The ASID of a root that no register names any more is flushed, twice.
const TAGS: [&[u8]; 9] = [
    b"init 0 0x40000000",
    b"root 0 ttbr0 - 0x40000000",
    b"msr 0 ttbr0_el1 0x1000040000000",
    b"msr 0 ttbr0_el1 0x0",
    b"isb 0",
    b"tlbi 0 aside1is 0x1000000000000",
    b"dsb 0 ish",
    b"tlbi 0 aside1is 0x1000000000000",
    b"dsb 0 ish",
];

#[test]
fn marks_what_a_log_can_do_without(rt: HostRuntime) {
    let cases: [(&[u8], &[&[u8]], &[usize]); 7] = [
        (HYP, &REMAP, &[5]),
        (HYP, &WITHOUT_IT, &[]),
        (HYP, &BARRIERS, &[2, 3]),
        (HYP, &SYNCHRONISED, &[3, 5]),
        (HYP, &LOCAL, &[7, 10, 11]),
        (HYP, &TWO_STEPS, &[11, 14]),
        (KERNEL, &TAGS, &[9, 10]),
    ];
    for (header, lines, idle) in cases {
        let found = idle_lines(rt.alloc(), header, lines).expect(
            &rt,
            "the lines are those of a log",
        );
        assert_eq!(rt; found.as_slice(), idle);
    }
}
