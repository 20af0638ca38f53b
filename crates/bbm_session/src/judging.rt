//! The events of a log, judged one after another.

ghost use Rattle.std.specs.Prelude.{◌≡◌, ◌<◌, ◌∷◌, ℕ, suc, List, Option, Some, None, Ok, Err, ok_or, true, false, IfOk};
ghost use Rattle.std.specs.Prelude.{IfSome, OnSome, take};
ghost use Rattle.bbm_regimes.specs.declared.regime.TheConstants.{MAX_LINES};
ghost use Rattle.bbm_regimes.specs.declared.regime.Which.{Which as WhichOf};
ghost use Rattle.bbm_events.specs.declared.event.Event.{Event};
ghost use Rattle.bbm_events.specs.Fits.{fits_heading, item_fits};
ghost use Rattle.bbm_events.specs.Heading.{Heading};
ghost use Rattle.bbm_rules.specs.Answers.{Answers, MayTake};
ghost use Rattle.bbm_rules.specs.Broken.{Breach};
ghost use Rattle.bbm_rules.specs.Claims.{Patterns};
ghost use Rattle.bbm_rules.specs.Fold.{Passes};
ghost use Rattle.bbm_rules.specs.Outcome.{AtEvents, Judged, Progress, limit_after, after_event, after_item};
ghost use Rattle.bbm_log_grammar.specs.InLine.{read_in};
ghost use Rattle.bbm_io.specs.Reading.{LiesWhole};
ghost use Rattle.bbm_session.specs.Reader.{Reader};
ghost use Rattle.bbm_session.specs.Readers.{Judges, event_needs, item_needs};
ghost use Rattle.bbm_session.specs.Stages.{FoldsLine, StopsAt, MayJudge, MayTakeLine, JudgesLine};
ghost use Rattle.bbm_texts.specs.Known.{Keeps};

use crate::reading::{stop_limit, stop_malformed};
use crate::stop::Stop;
use crate::taker::Taker;
use bbm_events::{Event, Header, Malformed};
use bbm_log_grammar::{
    ByWord, Dsbs, Front, Isbs, LabelText, LineItem, Tlbis, Turn, Writes, kept_label, line_ahead,
    read_line,
};
use bbm_regimes::Which;
use bbm_rules::{Checker, Limits, StepFault, Verdict};
use bbm_texts::Decision;
use std::alloc::Global;

/// Stops reading at an event with this label that the checker didn't take.
#[cold]
#[inline(never)]
fn refuse(number: u64, event: &Event, label: Option<LabelText>, fault: StepFault, stop: &mut Stop)
    ensures stops { (breach : Option Breach) (which : Option WhichOf) → Answers (Err fault) breach which
        → StopsAt stop.new number event.now label.entry breach which }
    ensures want { stop.new ≡ Stop.NoMemory → fault ≡ StepFault.NoMemory }
{
    match fault {
        StepFault::Broken(rule, at) => {
            *stop = Stop::Decided(Decision {
                verdict: Verdict::Refused {
                    line: number,
                    rule,
                    at,
                    label: kept_label(&label),
                },
                refused: Some(*event),
            });
        }
        StepFault::Limit(which) => stop_limit(number, which, stop),
        StepFault::NoMemory => *stop = Stop::NoMemory,
    }
}

/// The limit that the last of so many events, on this line, reaches.
fn limit_reached(limits: &Limits, number: u64, taken: u64) -> Option<Which>
    ensures reached { (before : ℕ) → taken ≡ suc before → result ≡ limit_after limits.now number before }
    ensures few { result ≡ None → number < MAX_LINES }
{
    let is_one_too_many = match limits.events {
        Some(most) => taken > most,
        None => false,
    };
    if is_one_too_many {
        Some(Which::Events)
    } else if number >= u64::from(limits.lines) {
        Some(Which::Lines)
    } else {
        None
    }
}

/// Events that are judged by a checker, under these limits.
#[derive(Drop)]
pub struct Judging<C> {
    /// What gives the checker its memory.
    pub alloc: Global,
    /// The limits.
    pub limits: Limits,
    /// The checker, which has taken the events of the lines so far, and maybe the one on the line that decides where it
    /// reaches a limit.
    pub checker: C,
}

/// What an event with this label decides on this line.
#[inline(always)]
fn judge_event<C: Checker>(
    judging: &mut Judging<C>,
    number: u64,
    event: Event,
    label: Option<LabelText>,
    stop: &mut Stop,
) -> Option<Turn>
    requires { MayTake (C.stands judging.old.checker) event }
    ensures judges { (heading : Heading) (h : List Event) → Keeps (C.stands judging.old.checker) heading h
        → fits_heading heading event ≡ true
        → JudgesLine (C.stands judging.new.checker) heading h
        (event_needs (C.frugal judging.old.checker) heading h event ≡ true)
        (ok_or result stop.new)
        (after_event Patterns judging.old.limits number heading h event label.entry) }
    ensures frugal { C.frugal judging.new.checker ≡ C.frugal judging.old.checker }
    ensures limits { judging.new.limits ≡ judging.old.limits }
    ensures few { result ≡ Some Turn.Taken → number < MAX_LINES }
{
    if let Err(fault) = judging.checker.step(judging.alloc, event) {
        refuse(number, &event, label, fault, stop);
        return None;
    }
    match limit_reached(&judging.limits, number, judging.checker.events()) {
        Some(which) => {
            stop_limit(number, which, stop);
            None
        }
        None => Some(Turn::Taken),
    }
}

/// What a line after the header decides, by what was read of it.
#[inline(always)]
fn judge_item<C: Checker>(
    judging: &mut Judging<C>,
    number: u64,
    read: Result<LineItem, Malformed>,
    stop: &mut Stop,
) -> Option<Turn>
    requires { MayJudge (C.stands judging.old.checker) (read_in read) }
    ensures judges { (heading : Heading) (h : List Event) → Keeps (C.stands judging.old.checker) heading h
        → IfOk (read_in read.entry) (λ item. item_fits heading item ≡ true)
        → JudgesLine (C.stands judging.new.checker) heading h
        (item_needs (C.frugal judging.old.checker) heading h (read_in read.entry) ≡ true)
        (ok_or result stop.new)
        (after_item Patterns judging.old.limits number heading h (read_in read.entry)) }
    ensures frugal { C.frugal judging.new.checker ≡ C.frugal judging.old.checker }
    ensures limits { judging.new.limits ≡ judging.old.limits }
    ensures few { result ≡ Some Turn.Taken → number < MAX_LINES }
{
    match read {
        Ok(LineItem::Event(event, label)) => { judge_event(judging, number, event, label, stop) }
        Ok(LineItem::End(count)) => {
            if u64::from(count) == judging.checker.events() {
                Some(Turn::End)
            } else {
                stop_malformed(number, Malformed::WrongCount, stop);
                None
            }
        }
        Err(cause) => {
            stop_malformed(number, cause, stop);
            None
        }
    }
}

/// Whether an event on this line may reach a limit. Where there is a limit of events, any line may.
#[inline(always)]
fn may_reach(limits: &Limits, number: u64) -> bool
    ensures none { result ≡ false → (taken : ℕ) → limit_after limits.now number taken ≡ None }
    ensures few { result ≡ false → number < MAX_LINES }
{
    limits.events.is_some() || number >= u64::from(limits.lines)
}

/// Takes an event on this line that decides nothing. False: the checker is as before, since the event may decide
/// something, or there is no memory for it.
#[inline(always)]
fn take_event<C: Checker>(judging: &mut Judging<C>, number: u64, event: Event) -> bool
    requires { MayTake (C.stands judging.old.checker) event }
    ensures taken { result ≡ true → (heading : Heading) (h : List Event) (label : Option (List ℕ))
        → Keeps (C.stands judging.old.checker) heading h → fits_heading heading event ≡ true
        → (after_event Patterns judging.old.limits number heading h event label ≡ Passes (AtEvents heading (event ∷ h)))
        × Keeps (C.stands judging.new.checker) heading (event ∷ h) }
    ensures few { result ≡ true → number < MAX_LINES }
    ensures untaken { result ≡ false → (heading : Heading) (h : List Event)
        → Keeps (C.stands judging.old.checker) heading h → Keeps (C.stands judging.new.checker) heading h }
    ensures frugal { C.frugal judging.new.checker ≡ C.frugal judging.old.checker }
    ensures limits { judging.new.limits ≡ judging.old.limits }
{
    if may_reach(&judging.limits, number) {
        return false;
    }
    match judging.checker.step(judging.alloc, event) {
        Ok(()) => true,
        Err(_) => false,
    }
}

/// Takes an event line of this kind that lies whole at the front of these bytes and decides nothing: the number of
/// bytes before its newline, and None where nothing was taken of it. None where the bytes begin with no such line.
#[inline(always)]
fn take_kind<C: Checker, F: Front>(
    judging: &mut Judging<C>,
    number: u64,
    header: &Header,
    bytes: &[u8],
) -> Option<Option<usize>>
    requires { MayTakeLine (Judges (C.frugal judging.old.checker) (C.stands judging.old.checker) judging.old.limits)
        header.now number }
    ensures line { IfSome result (λ taken. IfSome taken (λ count. LiesWhole count bytes.now)) }
    ensures takes { IfSome result (λ taken. IfSome taken (λ count. (reader : Reader Progress Judged) (p : Progress)
        → Judges (C.frugal judging.old.checker) (C.stands judging.old.checker) judging.old.limits reader header.now p
        number
        → FoldsLine reader (Judges (C.frugal judging.new.checker) (C.stands judging.new.checker) judging.new.limits
        reader header.now) number p (take count bytes.now) (Ok Turn.Taken))) }
    ensures few { IfSome result (λ taken. OnSome taken (number < MAX_LINES)) }
    ensures untaken { result ≡ Some None → (reader : Reader Progress Judged) (p : Progress)
        → Judges (C.frugal judging.old.checker) (C.stands judging.old.checker) judging.old.limits reader header.now p
        number
        → Judges (C.frugal judging.new.checker) (C.stands judging.new.checker) judging.new.limits reader header.now p
        number }
    ensures other { result ≡ None → judging.new ≡ judging.old }
{
    match line_ahead::<F, C>(header, bytes) {
        Some((event, _label, count)) => Some(take_event(judging, number, event).then_some(count)),
        None => None,
    }
}

impl<C: Checker> Taker for Judging<C> {
    ghost Reached = { Progress };

    ghost Said = { Judged };

    ghost stands = { λ judging. Judges (C.frugal judging.checker) (C.stands judging.checker) judging.limits };

    fn take(&mut self, number: u64, header: &Header, line: &[u8], stop: &mut Stop) -> Option<Turn> {
        judge_item(self, number, read_line(header, line), stop)
    }

    // Each kind has a way of its own, on which it is known which event it is.
    #[inline(always)]
    fn take_ahead(&mut self, number: u64, header: &Header, bytes: &[u8]) -> Option<usize> {
        macro_rules! take_one_of {
            ($($kind:ty),+) => {
                $(if let Some(taken) = take_kind::<C, $kind>(self, number, header, bytes) {
                    return taken;
                })+
            };
        }
        take_one_of!(Writes, Dsbs, Tlbis, Isbs, ByWord);
        None
    }
}
