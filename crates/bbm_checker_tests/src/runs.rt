//! One run, from its lines to its text.

use arrayvec::ArrayVec;
use bbm_events::{Header, Malformed};
use bbm_follow::{Followed, follow_run, followed_text, take_line};
use bbm_log_grammar::{LineFault, Turn, read_header};
use bbm_tlb_machine::{Step, follow};
use std::alloc::Global;

/// PE 0 reads a block, which another one replaces.
const RUN: [&[u8]; 6] = [
    b"init 0 0x40000000",
    b"root 0 el2 - 0x40000000",
    b"msr 0 ttbr0_el2 0x40000000",
    b"w 0 0x40000008 0x80000701",
    b"m start 0 el2 0 0x40000008 0x80000701",
    b"w 0 0x40000008 0xc0000701",
];

/// The steps of the lines; None where one is no step.
fn steps_of(alloc: Global, header: &Header, lines: &[&[u8]]) -> Option<Vec<Step>> {
    let mut steps = Vec::new(alloc);
    for line in lines {
        match take_line(header, &mut steps, line) {
            Ok(Turn::Taken) => {}
            _ => return None,
        }
    }
    Some(steps)
}

/// The index of the first step of the run at which a clause of a safe log fails.
fn first_conflict(alloc: Global) -> Option<u64> {
    let header = read_header(b"bbmlog 1 hyp 2 1 1 1").ok()?;
    let steps = steps_of(alloc, &header, &RUN)?;
    follow(alloc, &header, &steps).ok()?.conflict()
}

/// What comes of the run.
fn what_comes(alloc: Global) -> Option<Followed> {
    let header = read_header(b"bbmlog 1 hyp 2 1 1 1").ok()?;
    let steps = steps_of(alloc, &header, &RUN)?;
    if steps.len() > 2000 {
        return None;
    }
    follow_run(alloc, &header, &steps).ok()
}

#[test]
fn a_run_ends_in_a_conflict(rt: HostRuntime) {
    assert!(rt; first_conflict(rt.alloc()) == Some(5));
    let told = Followed::Run {
        steps: 6,
        conflict: Some(7),
    };
    assert!(rt; what_comes(rt.alloc()) == Some(told));
    let mut out = ArrayVec::new();
    followed_text(told, &mut out);
    assert!(rt; out.as_slice() == b"run 6 steps conflict line 7\n".as_slice());
}

/// What two lines say behind no step: the end, and a line that is none.
fn other_turns(alloc: Global) -> Option<[Result<Turn, LineFault>; 2]> {
    let header = read_header(b"bbmlog 1 hyp 2 1 1 1").ok()?;
    let mut steps = Vec::new(alloc);
    let end = take_line(&header, &mut steps, b"end 0");
    Some([end, take_line(&header, &mut steps, b"m nop 1")])
}

#[test]
fn a_line_may_end_the_run_or_be_none(rt: HostRuntime) {
    let turns = [
        Ok(Turn::End),
        Err(LineFault::Malformed(Malformed::UnknownWord)),
    ];
    assert!(rt; other_turns(rt.alloc()) == Some(turns));
}
