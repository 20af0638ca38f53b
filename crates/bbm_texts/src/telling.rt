//! The texts of a command.

ghost use Rattle.std.specs.Prelude.{◌≡◌, ◌<◌, ◌++◌, ℕ, false, List, Option, Some, None};
ghost use Rattle.bbm_events.specs.declared.event.Event.{Event};
ghost use Rattle.bbm_rules.specs.Phases.{phase_of};
ghost use Rattle.bbm_rules.specs.Claims.{Patterns};
ghost use Rattle.bbm_rules.specs.Texts.{verdict_text as text_of_verdict};
ghost use Rattle.bbm_report.specs.ReportLines.{found_text as text_of_found, phase_text as text_of_phase};
ghost use Rattle.bbm_report.specs.Further.{explained, phase_lines as lines_of_phases};
ghost use Rattle.bbm_texts.specs.declared.commands.Command.TheVariants as command_of;
ghost use Rattle.bbm_texts.specs.Says.{IsOutput, shows_evidence};
ghost use Rattle.bbm_texts.specs.Known.{Keeps, Knows};
ghost use Rattle.bbm_texts.specs.Telling.{place_named};
ghost use Rattle.bbm_texts.specs.Writing.{Puts};

use crate::commands::Command;
use arrayvec::ArrayVec;
use bbm_descriptor::Walk;
use bbm_events::Header;
use bbm_io::{Failed, Sink, put};
use bbm_regimes::{Pe, Place};
use bbm_report::{Question, find, found_text, phase_text, verdict_text};
use bbm_rules::{Checker, Rule, Verdict};

/// Writes a text.
pub fn tell<K: Sink>(text: &[u8], out: &mut K) -> Result<(), Failed>
    ensures puts { Puts text.now result (K.held out.old) (K.held out.new) (K.faults out.old) (K.faults out.new) }
{
    put(out, text)
}

/// Writes the line of a verdict.
pub fn tell_verdict<K: Sink>(verdict: &Verdict, out: &mut K) -> Result<(), Failed>
    ensures puts { Puts (text_of_verdict verdict.now) result (K.held out.old) (K.held out.new)
        (K.faults out.old) (K.faults out.new) }
{
    let mut text = ArrayVec::new();
    verdict_text(*verdict, &mut text);
    tell(&text, out)
}

/// Writes the line of a PE, by its number.
fn tell_phase<C: Checker, K: Sink>(
    header: &Header,
    checker: &C,
    place: Place,
    number: u8,
    out: &mut K,
) -> Result<(), Failed>
    requires stands { (h : List Event) × Keeps (C.stands checker.now) header.now h }
    requires number { number < header.now.pes }
    requires pe { number < 128 }
    ensures puts { (h : List Event) → Keeps (C.stands checker.now) header.now h
        → Puts (text_of_phase number (phase_of header.now Patterns h place number)) result
        (K.held out.old) (K.held out.new) (K.faults out.old) (K.faults out.new) }
{
    let pe = Pe::new(number).unwrap();
    let mut text = ArrayVec::new();
    phase_text(pe, checker.phase(place, pe), &mut text);
    tell(&text, out)
}

/// Writes the line of each PE of the header in order.
fn tell_phases<C: Checker, K: Sink>(
    header: &Header,
    checker: &C,
    place: Place,
    out: &mut K,
) -> Result<(), Failed>
    requires { (h : List Event) × Keeps (C.stands checker.now) header.now h }
    ensures puts { (h : List Event) → Keeps (C.stands checker.now) header.now h
        → Puts (lines_of_phases header.now h place header.now.pes) result
        (K.held out.old) (K.held out.new) (K.faults out.old) (K.faults out.new) }
{
    let mut number = 0;
    'pes: while number < header.pes {
        match tell_phase(header, checker, place, number, out) {
            Ok(()) => number += 1,
            Err(failed) => return Err(failed),
        }
    }
    Ok(())
}

/// The place at which break-before-make is broken, None where the verdict is another.
fn broken_place(verdict: &Verdict) -> Option<Place>
    ensures { result ≡ place_named verdict.now }
{
    match *verdict {
        Verdict::Refused { rule, at, .. } => {
            if matches!(rule, Rule::BreakBeforeMake) {
                Place::new(at)
            } else {
                None
            }
        }
        _ => None,
    }
}

/// Writes the line of a verdict, and behind it what explains it.
fn tell_explained<C: Checker, K: Sink>(
    header: &Header,
    checker: &C,
    verdict: &Verdict,
    out: &mut K,
) -> Result<(), Failed>
    requires { (h : List Event) × Knows (C.stands checker.now) header.now h verdict.now }
    ensures puts { (h : List Event) → Knows (C.stands checker.now) header.now h verdict.now
        → Puts (text_of_verdict verdict.now ++ explained header.now h verdict.now) result
        (K.held out.old) (K.held out.new) (K.faults out.old) (K.faults out.new) }
{
    match tell_verdict(verdict, out) {
        Ok(()) => match broken_place(verdict) {
            Some(place) => tell_phases(header, checker, place, out),
            None => Ok(()),
        },
        Err(failed) => Err(failed),
    }
}

/// Writes the line of a verdict, and behind it that of what was found.
fn tell_found<K: Sink>(verdict: &Verdict, found: Option<Walk>, out: &mut K) -> Result<(), Failed>
    ensures puts { Puts (text_of_verdict verdict.now ++ text_of_found found) result
        (K.held out.old) (K.held out.new) (K.faults out.old) (K.faults out.new) }
{
    match tell_verdict(verdict, out) {
        Ok(()) => {
            let mut text = ArrayVec::new();
            found_text(found, &mut text);
            tell(&text, out)
        }
        Err(failed) => Err(failed),
    }
}

/// Writes the line of a verdict, and behind that of an accepted log the line of a walk.
fn tell_walked<C: Checker, K: Sink>(
    header: &Header,
    checker: &C,
    question: &Question,
    verdict: &Verdict,
    out: &mut K,
) -> Result<(), Failed>
    requires { (h : List Event) × Knows (C.stands checker.now) header.now h verdict.now }
    ensures puts { (h : List Event) (refused : Option Event) → Knows (C.stands checker.now) header.now h verdict.now
        → (text : List ℕ) × IsOutput (command_of.Walk question.now) (Some header.now) h refused verdict.now text
        × Puts text result (K.held out.old) (K.held out.new) (K.faults out.old) (K.faults out.new) }
{
    match *verdict {
        Verdict::Accepted { .. } => tell_found(verdict, find(checker, header, *question), out),
        _ => tell_verdict(verdict, out),
    }
}

/// Writes the text of a command for a verdict: its line, and what is said behind it. The command shows no more of the
/// events.
pub fn tell_all<C: Checker, K: Sink>(
    command: &Command,
    header: &Header,
    checker: &C,
    verdict: &Verdict,
    out: &mut K,
) -> Result<(), Failed>
    requires known { (h : List Event) × Knows (C.stands checker.now) header.now h verdict.now }
    requires plain { shows_evidence command.now ≡ false }
    ensures puts { (h : List Event) (refused : Option Event) → Knows (C.stands checker.now) header.now h verdict.now
        → (text : List ℕ) × IsOutput command.now (Some header.now) h refused verdict.now text
        × Puts text result (K.held out.old) (K.held out.new) (K.faults out.old) (K.faults out.new) }
{
    match command {
        Command::Check | Command::Slow | Command::Show(_) => tell_verdict(verdict, out),
        Command::Explain => tell_explained(header, checker, verdict, out),
        Command::Walk(question) => tell_walked(header, checker, question, verdict, out),
    }
}
