//! The judging of a whole log.

ghost use Rattle.std.specs.Prelude.{◌≡◌, ◌+◌, ◌*◌, [], Bool, List, MatchResult, length, OnOk, IfErr};
ghost use Rattle.bbm_regimes.specs.declared.regime.TheConstants.{MAX_LINES};
ghost use Rattle.bbm_events.specs.declared.event.Event.{Event};
ghost use Rattle.bbm_events.specs.Heading.{Heading};
ghost use Rattle.bbm_rules.specs.Outcome.{AtEvents};
ghost use Rattle.bbm_session.specs.Reader.{alone};
ghost use Rattle.bbm_session.specs.Readers.{StopsKnown};
ghost use Rattle.bbm_session.specs.JudgedLog.{JudgedLog, Unjudged};
ghost use Rattle.bbm_session.specs.Stages.{Ready, Shrinks};

use crate::judging::Judging;
use crate::reading::{header_line, read_log};
use crate::stop::{Stop, decided};
use bbm_events::{Header, law_item_fits};
use bbm_io::{Lines, Source};
use bbm_rules::{Checker, Fresh, Limits, Verdict};
use std::alloc::Global;

/// A log that was judged by a checker up to the line that decides.
#[derive(Drop)]
pub struct Judgement<C> {
    /// The header, which stands on line 1.
    pub header: Header,
    /// The checker. Where the log is accepted, or an event refused, it has taken the events before the line that
    /// decides.
    pub checker: C,
    /// The verdict with the event that it refuses, or why there is none.
    pub stop: Stop,
}

/// What stands behind the lines up to the end decides an accepted log.
fn judge_end<C: Checker>(checker: &C, read: Result<(), Stop>) -> Stop
    ensures accepted { (heading : Heading) (h : List Event) → C.stands checker.now heading h
        → OnOk read (result ≡ Stop.Decided (alone (Verdict.Accepted (length h)))) }
    ensures stopped { IfErr read (λ stop. result ≡ stop) }
{
    match read {
        Ok(()) => decided(Verdict::Accepted {
            events: checker.events(),
        }),
        Err(stop) => stop,
    }
}

/// Reads the log behind its header up to the line that decides, and answers why reading stopped.
fn judge_lines<C: Checker, S: Source>(
    header: &Header,
    judging: &mut Judging<C>,
    lines: &mut Lines,
    log: &mut S,
) -> Stop
    requires fresh { C.stands judging.old.checker header.now [] }
    requires ready { Ready lines.old 2 }
    ensures known { StopsKnown (C.frugal judging.old.checker) (C.stands judging.new.checker) judging.old.limits
        header.now (AtEvents header.now []) result (S.left log.old) (S.left log.new)
        (S.faults log.old) (S.faults log.new) }
    ensures shrinks { Shrinks (201 * (MAX_LINES + 2)) (S.left log.old) (S.left log.new) }
{
    law_item_fits();
    let read = read_log(header, judging, lines, log);
    judge_end(&judging.checker, read)
}

/// Judges a log by a new checker under these limits, up to the line that decides. An error is why there is nothing to
/// judge: the verdict on line 1, a read that failed, or want of memory for the checker.
pub fn judge_log<C: Fresh + Drop, S: Source>(
    alloc: Global,
    limits: Limits,
    log: &mut S,
) -> Result<Judgement<C>, Stop>
    ensures judged { MatchResult result (λ judgement. (made : C) × JudgedLog (C.frugal made)
        (C.stands judgement.checker) limits judgement.header judgement.stop
        (S.left log.old) (S.left log.new) (S.faults log.old) (S.faults log.new))
        (λ stop. (frugal : Bool) → Unjudged frugal limits stop
        (S.left log.old) (S.left log.new) (S.faults log.old) (S.faults log.new)) }
    ensures shrinks { Shrinks (201 * (MAX_LINES + 3)) (S.left log.old) (S.left log.new) }
{
    let mut lines = Lines::new();
    match header_line::<Judging<C>, S>(&mut lines, log) {
        Ok(header) => match C::fresh(alloc, &header) {
            Ok(checker) => {
                let mut judging = Judging {
                    alloc,
                    limits,
                    checker,
                };
                let stop = judge_lines(&header, &mut judging, &mut lines, log);
                let checker = judging.checker;
                Ok(Judgement {
                    header,
                    checker,
                    stop,
                })
            }
            Err(_) => Err(Stop::NoMemory),
        },
        Err(stop) => Err(stop),
    }
}
