//! A log judged event by event by both checkers.

ghost use Rattle.std.specs.Prelude.{◌≡◌, true, List, [], IfSome};
ghost use Rattle.bbm_events.specs.declared.event.Event.{Event as AnEvent};
ghost use Rattle.bbm_events.specs.Fits.{fits_heading};

use bbm_events::{Event, Header, Item, fits};
use bbm_log_grammar::{read_event, read_header};
use bbm_oracle::Oracle;
use bbm_regimes::{Kind, Page, Pe, Place};
use bbm_replay::Replay;
use bbm_rules::{Checker, Fresh, Phase, Rule, StepFault};
use std::alloc::Global;
use std::test::Fail;

fn is_event(header: &Header, event: &Event) -> bool
    ensures { result ≡ fits_heading header.now event.now }
{
    fits(header, *event)
}

/// The event of the line, None where it says none of the header.
fn event_of(header: &Header, line: &[u8]) -> Option<Event>
    ensures { IfSome result (λ event. fits_heading header.now event ≡ true) }
{
    match read_event(header, line) {
        Ok(Item::Event(event, _)) => {
            if is_event(header, &event) {
                Some(event)
            } else {
                None
            }
        }
        _ => None,
    }
}

/// Steps through the lines: the first answer that isn't Ok, or Ok; None where a line is no event of the header.
fn run<C: Checker>(
    alloc: Global,
    header: &Header,
    lines: &[&[u8]],
    checker: &mut C,
) -> Option<Result<(), StepFault>>
    requires { C.stands checker.old header.now [] }
    ensures { (h : List AnEvent) × C.stands checker.new header.now h }
{
    for line in lines {
        let event = event_of(header, line)?;
        match checker.step(alloc, event) {
            Ok(()) => {}
            Err(fault) => return Some(Err(fault)),
        }
    }
    Some(Ok(()))
}

/// What a checker tells after a log: the last answer, how many events it took, the phase of the place at PE 1, the
/// numbers of pages and of restless places, whether the page is a root of EL2, and the value of the place.
#[derive(Clone, Copy, PartialEq)]
struct Told {
    answer: Result<(), StepFault>,
    events: u64,
    phase: Phase,
    pages: u64,
    restless: u64,
    is_root: bool,
    value: u64,
}

/// What the checker tells behind the answer.
fn all_of<C: Checker>(header: &Header, checker: &C, answer: Result<(), StepFault>) -> Option<Told>
    requires { (h : List AnEvent) × C.stands checker.now header.now h }
{
    let place = Place::new(0x4000_0008)?;
    let page = Page::new(0x4000_0000)?;
    let pe = Pe::new(1)?;
    if pe.get() >= header.pes {
        return None;
    }
    Some(Told {
        answer,
        events: checker.events(),
        phase: checker.phase(place, pe),
        pages: checker.pages(),
        restless: checker.restless(),
        is_root: checker.is_root(Kind::El2, page),
        value: checker.value(place),
    })
}

/// None where there is no memory for the checker, or a line is no event.
fn after<C: Fresh + Drop>(alloc: Global, header: &Header, lines: &[&[u8]]) -> Option<Told> {
    let mut checker = match C::fresh(alloc, header) {
        Ok(checker) => checker,
        Err(_) => return None,
    };
    match run(alloc, header, lines, &mut checker) {
        Some(answer) => all_of(header, &checker, answer),
        None => None,
    }
}

/// A block is made, cleared, and made again without a flush.
const LINES: [&[u8]; 6] = [
    b"init 0 0x40000000",
    b"root 0 el2 - 0x40000000",
    b"w 0 0x40000008 0x80000701",
    b"w 0 0x40000008 0x0",
    b"dsb 0 ish",
    b"w 0 0x40000008 0xc0000701",
];

#[test]
fn both_checkers_tell_what_was_worked_out(rt: HostRuntime) -> Result<(), Fail> {
    let header = read_header(b"bbmlog 1 hyp 2 1 1 1")?;
    let told = Some(Told {
        answer: Err(StepFault::Broken(Rule::BreakBeforeMake, 0x4000_0008)),
        events: 5,
        phase: Phase::Seen,
        pages: 1,
        restless: 1,
        is_root: true,
        value: 0,
    });
    assert!(rt; after::<Oracle>(rt.alloc(), &header, &LINES) == told);
    assert!(rt; after::<Replay>(rt.alloc(), &header, &LINES) == told);
    Ok(())
}
