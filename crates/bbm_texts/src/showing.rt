//! The texts of the commands that show more of the events of a log.
//! Source: project's own choice, where no other is named.

ghost use Rattle.std.specs.Prelude.{◌<◌, ◌^◌, ◌++◌, List, Some, reverse};
ghost use Rattle.bbm_events.specs.declared.event.Event.{Event};
ghost use Rattle.bbm_rules.specs.Texts.{verdict_text as text_of_verdict};
ghost use Rattle.bbm_texts.specs.declared.commands.Command.TheVariants as command_of;
ghost use Rattle.bbm_texts.specs.declared.commands.Evidence.TheVariants.{Idle};
ghost use Rattle.bbm_texts.specs.Shown.{marked_line, marked_lines};
ghost use Rattle.bbm_texts.specs.Known.{Keeps, KnowsDecided, KnowsThat};
ghost use Rattle.bbm_texts.specs.Writing.{Puts, ReportsDecided, ReportsIdle};

use crate::answering::{settled, status};
use crate::certifying::report_cert;
use crate::commands::Evidence;
use crate::counterrun::report_counterrun;
use crate::decision::Decision;
use crate::status::Status;
use crate::telling::{tell, tell_verdict};
use arrayvec::ArrayVec;
use bbm_events::Header;
use bbm_idle::find;
use bbm_io::{Failed, Sink};
use bbm_report::idle_text;
use bbm_rules::{Logged, Verdict};
use std::alloc::Global;

/// Writes the line of the event behind so many others, where it is marked.
fn tell_marked<K: Sink>(marked: bool, before: usize, out: &mut K) -> Result<(), Failed>
    requires { before < 2 ^ 63 }
    ensures puts { Puts (marked_line marked before) result (K.held out.old) (K.held out.new)
        (K.faults out.old) (K.faults out.new) }
{
    if marked {
        let mut text = ArrayVec::new();
        idle_text(before as u64 + 2, &mut text);
        tell(&text, out)
    } else {
        Ok(())
    }
}

/// Writes the lines of the marked events of a log.
fn tell_marks<K: Sink>(marks: &[bool], out: &mut K) -> Result<(), Failed>
    ensures puts { Puts (marked_lines (reverse marks.now)) result (K.held out.old) (K.held out.new)
        (K.faults out.old) (K.faults out.new) }
{
    let mut before = 0;
    'events: while before < marks.len() {
        match tell_marked(marks[before], before, out) {
            Ok(()) => before += 1,
            Err(failed) => return Err(failed),
        }
    }
    Ok(())
}

/// Writes the line of a verdict, and behind it those of the marked events.
fn tell_idle<K: Sink>(verdict: &Verdict, marks: &[bool], out: &mut K) -> Result<(), Failed>
    ensures puts { Puts (text_of_verdict verdict.now ++ marked_lines (reverse marks.now)) result
        (K.held out.old) (K.held out.new) (K.faults out.old) (K.faults out.new) }
{
    match tell_verdict(verdict, out) {
        Ok(()) => tell_marks(marks, out),
        Err(failed) => Err(failed),
    }
}

/// Says of an accepted log which events it can do without.
fn report_idle<C: Logged, K: Sink>(
    alloc: Global,
    header: &Header,
    checker: &C,
    verdict: &Verdict,
    out: &mut K,
) -> Status
    requires { (h : List Event) × Keeps (C.stands checker.now) header.now h }
    ensures { (h : List Event) → Keeps (C.stands checker.now) header.now h → ReportsIdle header.now h verdict.now result
        (K.held out.old) (K.held out.new) (K.faults out.old) (K.faults out.new) }
{
    match find(alloc, header, checker.log()) {
        Ok(marks) => settled(tell_idle(verdict, &marks, out), status(verdict)),
        Err(_) => Status::NoMemory,
    }
}

/// Says what was decided, and of an accepted log which events it can do without.
fn report_idles<C: Logged, K: Sink>(
    alloc: Global,
    header: &Header,
    checker: &C,
    decision: &Decision,
    out: &mut K,
) -> Status
    requires { (h : List Event) × KnowsThat (Keeps (C.stands checker.now) header.now h) decision.now.verdict }
    ensures { (h : List Event) → KnowsThat (Keeps (C.stands checker.now) header.now h) decision.now.verdict
        → ReportsDecided (command_of.Show Idle) (Some header.now) h decision.now result
        (K.held out.old) (K.held out.new) (K.faults out.old) (K.faults out.new) }
{
    match &decision.verdict {
        Verdict::Accepted { .. } => report_idle(alloc, header, checker, &decision.verdict, out),
        _ => settled(
            tell_verdict(&decision.verdict, out),
            status(&decision.verdict),
        ),
    }
}

/// Says what was decided, and shows what there is to show of the events of a log, which the checker keeps. There may be
/// no memory for that: then nothing is written, and the status is `NoMemory`. Else it is that of the verdict, or
/// `WriteFault`.
pub fn report_evidence<C: Logged, K: Sink>(
    alloc: Global,
    evidence: &Evidence,
    header: &Header,
    checker: &C,
    decision: &Decision,
    out: &mut K,
) -> Status
    requires { (h : List Event) × KnowsDecided (C.stands checker.now) header.now h decision.now }
    ensures { (h : List Event) → KnowsDecided (C.stands checker.now) header.now h decision.now
        → ReportsDecided (command_of.Show evidence.now) (Some header.now) h decision.now result
        (K.held out.old) (K.held out.new) (K.faults out.old) (K.faults out.new) }
{
    match evidence {
        Evidence::Idle => report_idles(alloc, header, checker, decision, out),
        Evidence::Counterrun => report_counterrun(alloc, header, checker, decision, out),
        Evidence::Cert => report_cert(alloc, header, checker, decision, out),
    }
}
