//! The conflict runs that `counterrun` writes.
//! Source: project's own choice, where no other is named.

ghost use Rattle.std.specs.Prelude.{◌≡◌, ◌<◌, ◌^◌, ◌++◌, ◌∷◌, ℕ, List, [], Option, Some, true};
ghost use Rattle.std.specs.Prelude.{length, reverse, All, IfOk};
ghost use Rattle.std.specs.Prelude.{IfSome, option_map};
ghost use Rattle.bbm_counterrun.specs.Plans.{Finds};
ghost use Rattle.bbm_counterrun.specs.RefusedWrite.{IsRefused, ends_at_leaf, holds_leaf};
ghost use Rattle.bbm_events.specs.declared.event.Event.{Event as EventOf};
ghost use Rattle.bbm_events.specs.declared.event.Event.TheVariants.{Write};
ghost use Rattle.bbm_texts.specs.Counterruns as spec;
ghost use Rattle.bbm_texts.specs.declared.commands.Command.TheVariants as command_of;
ghost use Rattle.bbm_texts.specs.declared.commands.Evidence.TheVariants.{Counterrun};
ghost use Rattle.bbm_texts.specs.Generating.{ended};
ghost use Rattle.bbm_texts.specs.Statuses.{status_of};
ghost use Rattle.bbm_texts.specs.RefusedLogs.{EndsRefused, Fits};
ghost use Rattle.bbm_texts.specs.Known.{KnowsDecided};
ghost use Rattle.bbm_texts.specs.Writing.{Buffered, Pours, Puts, ReportsDecided, ReportsText};

use crate::answering::{settled, status};
use crate::buffering::{BUFFER_BYTES, add_header, add_item, add_line, finish};
use crate::decision::Decision;
use crate::status::Status;
use crate::telling::{tell, tell_verdict};
use arrayvec::ArrayVec;
use bbm_counterrun::find_over_leaf;
use bbm_events::{Event, Header, Item};
use bbm_io::{Failed, Sink};
use bbm_log_grammar::write_machine;
use bbm_regimes::NoMemory;
use bbm_rules::{Logged, Rule, Verdict};
use bbm_tlb_machine::Step;
use std::alloc::Global;

/// Adds the line of a step, without a label.
fn add_step<K: Sink>(
    header: &Header,
    step: &Step,
    buffer: &mut ArrayVec<u8, BUFFER_BYTES>,
    out: &mut K,
) -> Result<(), Failed>
    requires fits { Fits header.now step.now }
    ensures poured { (text : List ℕ) (start : Option (List ℕ)) (faults : ℕ)
        → Buffered text buffer.old.items start (K.held out.old) faults (K.faults out.old)
        → Pours (text ++ ended (spec.step_line step.now)) result buffer.new.items start (K.held out.new)
        faults (K.faults out.new) }
{
    match *step {
        Step::Event(event) => add_item(header, Item::Event(event, None), buffer, out),
        Step::Machine(machine) => {
            let mut line = ArrayVec::new();
            write_machine(machine, &mut line);
            add_line(buffer, &line, out)
        }
    }
}

/// Adds the lines of the steps, each of which fits the header.
fn add_steps<K: Sink>(
    header: &Header,
    steps: &[Step],
    buffer: &mut ArrayVec<u8, BUFFER_BYTES>,
    out: &mut K,
) -> Result<(), Failed>
    requires fit { All (Fits header.now) steps.now }
    ensures poured { (text : List ℕ) (start : Option (List ℕ)) (faults : ℕ)
        → Buffered text buffer.old.items start (K.held out.old) faults (K.faults out.old)
        → Pours (text ++ spec.step_lines steps.now) result buffer.new.items start (K.held out.new)
        faults (K.faults out.new) }
{
    let mut i = 0;
    'steps: while i < steps.len() {
        match add_step(header, &steps[i], buffer, out) {
            Ok(()) => i += 1,
            Err(failed) => return Err(failed),
        }
    }
    Ok(())
}

/// Adds the text of a run over so many events to an empty buffer.
fn pour_run<K: Sink>(
    header: &Header,
    count: u32,
    steps: &[Step],
    buffer: &mut ArrayVec<u8, BUFFER_BYTES>,
    out: &mut K,
) -> Result<(), Failed>
    requires fit { All (Fits header.now) steps.now }
    requires empty { buffer.old.items ≡ [] }
    ensures poured { Pours (spec.steps_text header.now count steps.now) result buffer.new.items
        (K.held out.old) (K.held out.new) (K.faults out.old) (K.faults out.new) }
{
    add_header(header, buffer, out)?;
    add_steps(header, steps, buffer, out)?;
    add_item(header, Item::End(count), buffer, out)
}

/// Writes the text of a run over so many events.
fn tell_run<K: Sink>(header: &Header, count: u32, steps: &[Step], out: &mut K) -> Result<(), Failed>
    requires fit { All (Fits header.now) steps.now }
    ensures puts { Puts (spec.steps_text header.now count steps.now) result (K.held out.old) (K.held out.new)
        (K.faults out.old) (K.faults out.new) }
{
    let mut buffer = ArrayVec::new();
    let poured = pour_run(header, count, steps, &mut buffer, out);
    finish(poured, &buffer, out)
}

/// Writes the text of the run that was found, or that there is none.
fn tell_found<K: Sink>(
    header: &Header,
    count: u32,
    found: &Option<Vec<Step>>,
    out: &mut K,
) -> Result<(), Failed>
    requires fit { IfSome found.now (λ steps. All (Fits header.now) steps.items) }
    ensures puts { Puts (spec.found_steps header.now count (option_map (λ steps. steps.items) found.now)) result
        (K.held out.old) (K.held out.new) (K.faults out.old) (K.faults out.new) }
{
    match found {
        Some(steps) => tell_run(header, count, steps, out),
        None => tell(b"none\n", out),
    }
}

/// How many events a log has.
fn event_count(log: &Vec<Event>) -> u32
    requires few { length log.now.items < 2 ^ 32 }
    ensures { result ≡ length log.now.items }
{
    log.len() as u32
}

/// Writes the run that was found for the last event of a log, which break-before-make refuses at a place that holds a
/// leaf.
fn report_run<K: Sink>(
    header: &Header,
    log: &Vec<Event>,
    verdict: &Verdict,
    found: &Option<Vec<Step>>,
    out: &mut K,
) -> Status
    requires few { length log.now.items < 2 ^ 32 }
    requires leaf { ends_at_leaf header.now (reverse log.now.items) ≡ true }
    requires ends { (h : List EventOf) × (e : EventOf) × EndsRefused header.now h e log.now.items }
    requires finds { (h : List EventOf) (pe place value : ℕ) → reverse log.now.items ≡ Write pe place value ∷ h
        → IsRefused header.now h pe place value → holds_leaf header.now h place ≡ true
        → Finds header.now h (Write pe place value) (option_map (λ v. v.items) found.now) }
    ensures { (h : List EventOf) (e : EventOf) → EndsRefused header.now h e log.now.items
        → ReportsText (spec.RunAt true header.now h e verdict.now) (status_of verdict.now) result
        (K.held out.old) (K.held out.new) (K.faults out.old) (K.faults out.new) }
{
    settled(
        tell_found(header, event_count(log), found, out),
        status(verdict),
    )
}

/// Writes what is said of the last event of a log, which break-before-make refuses.
fn report_refused<K: Sink>(
    alloc: Global,
    header: &Header,
    log: &Vec<Event>,
    verdict: &Verdict,
    out: &mut K,
) -> Status
    requires few { length log.now.items < 2 ^ 32 }
    requires ends { (h : List EventOf) × (e : EventOf) × EndsRefused header.now h e log.now.items }
    ensures { (h : List EventOf) (e : EventOf) → EndsRefused header.now h e log.now.items
        → ReportsText (λ text. spec.RunOf header.now h verdict.now text (Some e)) (status_of verdict.now) result
        (K.held out.old) (K.held out.new) (K.faults out.old) (K.faults out.new) }
{
    match find_over_leaf(alloc, header, log) {
        Ok(Some(found)) => report_run(header, log, verdict, &found, out),
        Ok(None) => settled(tell_verdict(verdict, out), status(verdict)),
        Err(_) => Status::NoMemory,
    }
}

/// The event that break-before-make refuses, None where the verdict is another.
fn refused_write(decision: &Decision) -> Option<Event>
    ensures { result ≡ spec.refused_write decision.now.refused decision.now.verdict }
{
    match decision.verdict {
        Verdict::Refused { rule, .. } => {
            if matches!(rule, Rule::BreakBeforeMake) {
                decision.refused
            } else {
                None
            }
        }
        _ => None,
    }
}

/// The events of a log and one more behind them. `NoMemory` where there is none, as for more events than can be counted
/// in a log.
fn log_with(alloc: Global, log: &[Event], event: Event) -> Result<Vec<Event>, NoMemory>
    ensures items { IfOk result (λ all. all.items ≡ log.now ++ event ∷ []) }
    ensures few { IfOk result (λ all. length all.items < 2 ^ 32) }
{
    if log.len() >= 4_294_967_295 {
        return Err(NoMemory);
    }
    let mut all = log.to_vec(alloc).map_err(|_| NoMemory)?;
    all.push(event).map_err(|_| NoMemory)?;
    Ok(all)
}

/// Says what was decided; where break-before-make refuses an event, by a run if it is a write at a place that holds a
/// leaf.
pub fn report_counterrun<C: Logged, K: Sink>(
    alloc: Global,
    header: &Header,
    checker: &C,
    decision: &Decision,
    out: &mut K,
) -> Status
    requires { (h : List EventOf) × KnowsDecided (C.stands checker.now) header.now h decision.now }
    ensures { (h : List EventOf) → KnowsDecided (C.stands checker.now) header.now h decision.now
        → ReportsDecided (command_of.Show Counterrun) (Some header.now) h decision.now result
        (K.held out.old) (K.held out.new) (K.faults out.old) (K.faults out.new) }
{
    match refused_write(decision) {
        Some(event) => match log_with(alloc, checker.log(), event) {
            Ok(log) => report_refused(alloc, header, &log, &decision.verdict, out),
            Err(_) => Status::NoMemory,
        },
        None => settled(
            tell_verdict(&decision.verdict, out),
            status(&decision.verdict),
        ),
    }
}
