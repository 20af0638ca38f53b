//! A line of each kind, and the words that ask for a walk.

use arrayvec::ArrayVec;
use bbm_descriptor::Walk;
use bbm_events::Label;
use bbm_regimes::{Kind, Level, Page, Pe};
use bbm_report::{
    Question, asked, found_text, idle_text, phase_text, unverified_text, verdict_text,
    verified_text, walk_text,
};
use bbm_rules::{Phase, Rule, Verdict};
use std::alloc::Global;

#[test]
fn a_verdict_is_written(rt: HostRuntime) {
    let verdict = Verdict::Refused {
        line: 5,
        rule: Rule::BreakBeforeMake,
        at: 0x4000_0008,
        label: Label::new(b"map.c:88"),
    };
    let mut out = ArrayVec::new();
    verdict_text(verdict, &mut out);
    let text = b"refused line 5 rule 4 break-before-make at 0x40000008 @map.c:88\n";
    assert!(rt; out.as_slice() == text.as_slice());
}

#[test]
fn what_follows_a_verdict_is_written(rt: HostRuntime) {
    let mut phase = ArrayVec::new();
    phase_text(Pe::new(0).expect(&rt, "a PE"), Phase::Seen, &mut phase);
    assert!(rt; phase.as_slice() == b"pe 0 seen\n".as_slice());
    let mut walk = ArrayVec::new();
    walk_text(Walk::Fault { level: Level::ONE }, &mut walk);
    assert!(rt; walk.as_slice() == b"walk fault level 1\n".as_slice());
    let mut found = ArrayVec::new();
    found_text(None, &mut found);
    assert!(rt; found.as_slice() == b"walk no-root\n".as_slice());
    let mut idle = ArrayVec::new();
    idle_text(5, &mut idle);
    assert!(rt; idle.as_slice() == b"idle line 5\n".as_slice());
}

#[test]
fn what_a_certificate_shows_is_written(rt: HostRuntime) {
    let mut yes = ArrayVec::new();
    verified_text(8, 2, &mut yes);
    assert!(rt; yes.as_slice() == b"verified 8 events 2 claims\n".as_slice());
    let mut no = ArrayVec::new();
    unverified_text(9, Rule::LockNotMine, 3, &mut no);
    assert!(rt; no.as_slice() == b"unverified line 9 rule 17 lock-not-mine at 0x3\n".as_slice());
}

/// What these words ask for.
fn question(alloc: Global) -> Option<Question> {
    let mut words = Vec::new(alloc);
    for word in ["walk", "s2", "0x40010000", "0x7fffffff000"] {
        words.push(String::from_str(alloc, word).ok()?).ok()?;
    }
    asked(&words)
}

#[test]
fn words_ask_for_a_walk(rt: HostRuntime) {
    let wanted = Question {
        kind: Kind::S2,
        root: Page::new(0x4001_0000).expect(&rt, "a page"),
        addr: 0x7ff_ffff_f000,
    };
    assert!(rt; question(rt.alloc()) == Some(wanted));
}
