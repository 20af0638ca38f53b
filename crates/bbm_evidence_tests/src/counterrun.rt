//! Which run is found for a refused write. The first two logs come from outside; the others were worked out by hand.

use crate::lines::events_of;
use bbm_counterrun::find;
use bbm_events::{Header, Item};
use bbm_log_grammar::{read_event, read_header, read_machine};
use bbm_tlb_machine::Step;
use std::alloc::Global;

/// The step of the line; None where it is none.
fn step_of(header: &Header, line: &[u8]) -> Option<Step> {
    match read_machine(header, line) {
        Ok(step) => Some(Step::Machine(step)),
        Err(_) => match read_event(header, line) {
            Ok(Item::Event(event, _)) => Some(Step::Event(event)),
            _ => None,
        },
    }
}

/// Whether the steps are those of the lines.
fn is_run(header: &Header, steps: &[Step], lines: &[&[u8]]) -> bool {
    if steps.len() != lines.len() {
        return false;
    }
    for i in 0..lines.len() {
        if step_of(header, lines[i]) != Some(steps[i]) {
            return false;
        }
    }
    true
}

/// The lines of a run that are no steps of the machine; None where there is no memory.
fn log_of<'a>(alloc: Global, lines: &[&'a [u8]]) -> Option<Vec<&'a [u8]>> {
    let mut log = Vec::new(alloc);
    for line in lines {
        if !line.starts_with(b"m ") {
            log.push(*line).ok()?;
        }
    }
    Some(log)
}

/// Whether the run of these lines is what is found for the log of its events, or, where no line is a machine line,
/// whether nothing is found.
fn is_found(alloc: Global, header: &[u8], lines: &[&[u8]]) -> Option<bool> {
    let header = read_header(header).ok()?;
    let log = log_of(alloc, lines)?;
    let events = events_of(alloc, &header, log.as_slice())?;
    match find(alloc, &header, &events).ok()? {
        Some(run) => Some(is_run(&header, run.as_slice(), lines)),
        None => Some(log.len() == lines.len()),
    }
}

const ONE: &[u8] = b"bbmlog 1 hyp 1 1 1 1";

const TWO: &[u8] = b"bbmlog 1 hyp 2 1 1 1";

// PE 1 reads the old value after the TLBI was issued, since no DSB published the clear before it.
const STALE: [&[u8]; 9] = [
    b"init 0 0x40000000",
    b"root 0 el2 - 0x40000000",
    b"msr 1 ttbr0_el2 0x40000000",
    b"w 0 0x40000008 0x80000701",
    b"w 0 0x40000008 0x0",
    b"tlbi 0 vae2is 0x40000",
    b"m start 1 el2 0 0x40000008 0x80000701",
    b"dsb 0 ish",
    b"w 0 0x40000008 0xc0000701",
];

// The stages are joined between the two TLBIs and their DSB.
const COMBINED: [&[u8]; 14] = [
    b"init 0 0x40002000",
    b"root 0 s2 - 0x40002000",
    b"msr 0 vttbr_el2 0x5000040002000",
    b"isb 0",
    b"w 0 0x40002008 0x800007fd",
    b"m start 0 s2 5 0x40002008 0x800007fd",
    b"w 0 0x40002008 0x0",
    b"dsb 0 ishst",
    b"tlbi 0 ipas2e1is 0x40000",
    b"tlbi 0 vmalle1is",
    b"m combine 1",
    b"m drop 1",
    b"dsb 0 ish",
    b"w 0 0x40002008 0xc00007fd",
];

// No register names the root.
const UNREAD: [&[u8]; 7] = [
    b"init 0 0x40000000",
    b"root 0 el2 - 0x40000000",
    b"w 0 0x40000008 0x80000701",
    b"w 0 0x40000008 0x0",
    b"tlbi 0 vae2is 0x40000",
    b"dsb 0 ish",
    b"w 0 0x40000008 0xc0000701",
];

// PE 1 reads under two VMIDs, of which one was flushed.
const SECOND_VMID: [&[u8]; 13] = [
    b"init 0 0x40002000",
    b"root 0 s2 - 0x40002000",
    b"msr 0 vttbr_el2 0x1000040002000",
    b"isb 0",
    b"msr 1 vttbr_el2 0x1000040002000",
    b"msr 1 vttbr_el2 0x2000040002000",
    b"w 0 0x40002008 0x800007fd",
    b"m start 1 s2 2 0x40002008 0x800007fd",
    b"w 0 0x40002008 0x0",
    b"dsb 0 ishst",
    b"tlbi 0 vmalls12e1is",
    b"dsb 0 ish",
    b"w 0 0x40002008 0xc00007fd",
];

// Two descriptors are read, and the entry of the first alone is dropped. Of the values of the table that mean the same,
// the least is read.
const TWO_READS: [&[u8]; 12] = [
    b"init 0 0x40000000",
    b"init 0 0x40001000",
    b"w 0 0x40000008 0x40001403",
    b"w 0 0x40001010 0x80000701",
    b"root 0 el2 - 0x40000000",
    b"w 0 0x40000008 0x40001003",
    b"msr 0 ttbr0_el2 0x40000000",
    b"m start 0 el2 0 0x40000008 0x40001003",
    b"m extend 1 0x40001010 0x80000701",
    b"m drop 1",
    b"w 0 0x40001010 0x0",
    b"w 0 0x40001010 0xc0000701",
];

#[test]
fn finds_the_first_plain_run(rt: HostRuntime) {
    let cases: [(&[u8], &[&[u8]]); 5] = [
        (TWO, &STALE),
        (TWO, &COMBINED),
        (TWO, &UNREAD),
        (TWO, &SECOND_VMID),
        (ONE, &TWO_READS),
    ];
    for (header, lines) in cases {
        let found = is_found(rt.alloc(), header, lines).expect(&rt, "the lines are those of a run");
        assert!(rt; found);
    }
}
