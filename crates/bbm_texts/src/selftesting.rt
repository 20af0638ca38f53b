//! A generated log, judged event by event and never stored.

ghost use Rattle.std.specs.Prelude.{◌≡◌, ◌+◌, ℕ, [], None, OnOk, IfOk, Err};
ghost use Rattle.bbm_rules.specs.Answers.{Answers};
ghost use Rattle.bbm_rules.specs.Broken.{broken};
ghost use Rattle.bbm_rules.specs.Claims.{Patterns};
ghost use Rattle.bbm_rules.specs.Limits.{limit_of};
ghost use Rattle.bbm_gen.specs.Generated as log;
ghost use Rattle.bbm_texts.specs.Generating.{counts_text as text_of_counts, selftest_text};
ghost use Rattle.bbm_texts.specs.Writing.{Puts, Tested};

use crate::answering::settled;
use crate::status::Status;
use crate::telling::{tell, tell_verdict};
use arrayvec::ArrayVec;
use bbm_gen::{gen_event, gen_header, law_gen};
use bbm_io::{Failed, Sink};
use bbm_log_grammar::{add, add_decimal};
use bbm_regimes::NoMemory;
use bbm_rules::{Checker, Fresh, StepFault, Verdict};
use std::alloc::Global;

/// Why an event wasn't taken that breaks no rule and reaches no limit.
fn want(fault: StepFault) -> NoMemory
    requires { Answers (Err fault) None None }
{
    match fault {
        StepFault::NoMemory => NoMemory,
        StepFault::Broken(_, _) => unreachable!(),
        StepFault::Limit(_) => unreachable!(),
    }
}

/// Takes the event of index i of the log of the number n.
fn take_event<C: Checker>(alloc: Global, n: u64, i: u32, checker: &mut C) -> Result<(), NoMemory>
    requires stands { C.stands checker.old log.heading (log.log_of n i) }
    requires unbroken { broken log.heading Patterns (log.log_of n i) (log.event_at n i) ≡ None }
    requires free { limit_of (log.log_of n i) (log.event_at n i) ≡ None }
    ensures taken { OnOk result (C.stands checker.new log.heading (log.log_of n (i + 1))) }
{
    match checker.step(alloc, gen_event(n, i)) {
        Ok(()) => Ok(()),
        Err(fault) => Err(want(fault)),
    }
}

/// Takes the events of the log of the number n, so many, one after another.
fn take_log<C: Checker>(alloc: Global, n: u64, count: u32, checker: &mut C) -> Result<(), NoMemory>
    requires { C.stands checker.old log.heading [] }
    ensures { OnOk result (C.stands checker.new log.heading (log.log_of n count)) }
{
    law_gen(n, count);
    let mut i = 0;
    'events: while i < count {
        match take_event(alloc, n, i, checker) {
            Ok(()) => i += 1,
            Err(_) => return Err(NoMemory),
        }
    }
    Ok(())
}

/// A checker that took the log of the number n with so many events.
fn judged<C: Fresh + Drop>(alloc: Global, n: u64, count: u32) -> Result<C, NoMemory>
    ensures { IfOk result (λ checker. C.stands checker log.heading (log.log_of n count)) }
{
    let header = gen_header();
    let mut checker = C::fresh(alloc, &header)?;
    take_log(alloc, n, count, &mut checker)?;
    Ok(checker)
}

/// Puts the line with the number of pages and of restless places into `out`, which is empty.
#[tactic(auto, unfolding(crate::specs::Generating::counts_text))]
fn counts_text(pages: u64, restless: u64, out: &mut ArrayVec<u8, 200>)
    requires { out.old.items ≡ [] }
    ensures { out.new.items ≡ text_of_counts pages restless }
{
    add(out, b"pages ");
    add_decimal(out, pages);
    add(out, b" restless ");
    add_decimal(out, restless);
    add(out, b"\n");
}

/// Writes the line of the verdict on the log of so many events that the checker took, and behind it how many pages and
/// restless places there are.
fn tell_counts<C: Checker, K: Sink>(count: u32, checker: &C, out: &mut K) -> Result<(), Failed>
    ensures puts { (n : ℕ) → C.stands checker.now log.heading (log.log_of n count)
        → Puts (selftest_text n count) result (K.held out.old) (K.held out.new) (K.faults out.old) (K.faults out.new) }
{
    let verdict = Verdict::Accepted {
        events: u64::from(count),
    };
    match tell_verdict(&verdict, out) {
        Ok(()) => {
            let mut text = ArrayVec::new();
            counts_text(checker.pages(), checker.restless(), &mut text);
            tell(&text, out)
        }
        Err(failed) => Err(failed),
    }
}

/// Judges the generated log of the number n with so many events by a new checker, which takes one event after another,
/// and writes how many events were accepted, and how many pages and restless places there are then.
pub fn selftest<C: Fresh + Drop, K: Sink>(alloc: Global, n: u64, count: u32, out: &mut K) -> Status
    ensures tested { Tested n count result (K.held out.old) (K.held out.new) (K.faults out.old) (K.faults out.new) }
{
    match judged::<C>(alloc, n, count) {
        Ok(checker) => settled(tell_counts(count, &checker, out), Status::Accepted),
        Err(_) => Status::NoMemory,
    }
}
