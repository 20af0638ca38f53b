//! The commands that judge a log.

ghost use Rattle.std.specs.Prelude.{◌≡◌, ◌+◌, ◌*◌, false, List, Some};
ghost use Rattle.bbm_regimes.specs.declared.regime.TheConstants.{MAX_LINES};
ghost use Rattle.bbm_events.specs.declared.event.Event.{Event};
ghost use Rattle.bbm_session.specs.Readers.{is_frugal};
ghost use Rattle.bbm_texts.specs.Says.{shows_evidence};
ghost use Rattle.bbm_session.specs.Stages.{KnowsAt, Shrinks};
ghost use Rattle.bbm_session.specs.Serving.{Obeys, Reports, streams_of};
ghost use Rattle.bbm_texts.specs.Says.{IsOutputFor};

use crate::answering::report_stop;
use crate::command::limits;
use crate::judgement::judge_log;
use crate::stop::Stop;
use bbm_events::Header;
use bbm_io::{Sink, Source};
use bbm_rules::{Checker, Fresh};
use bbm_texts::{Command, Status, report};
use std::alloc::Global;

/// Says why reading stopped behind the header.
fn report_stopped<C: Checker, K: Sink>(
    command: &Command,
    header: &Header,
    checker: &C,
    stop: Stop,
    out: &mut K,
) -> Status
    requires known { (h : List Event) × KnowsAt (C.stands checker.now) header.now h stop }
    requires plain { shows_evidence command.now ≡ false }
    ensures { (h : List Event) → KnowsAt (C.stands checker.now) header.now h stop
        → Reports (IsOutputFor command.now (Some header.now) h) stop result (K.held out.old) (K.held out.new)
        (K.faults out.old) (K.faults out.new) }
{
    match stop {
        Stop::Decided(decision) => report(command, header, checker, &decision, out),
        Stop::ReadFault => Status::ReadFault,
        Stop::NoMemory => Status::NoMemory,
    }
}

/// Judges the log by a new checker, under the limits of the command, and writes its text. The command shows no more of
/// the events, and the checker is frugal where that of the command is.
pub fn obey<C: Fresh + Drop, S: Source, K: Sink>(
    alloc: Global,
    command: &Command,
    log: &mut S,
    out: &mut K,
) -> Status
    requires plain { shows_evidence command.now ≡ false }
    ensures obeys { ((checker : C) → C.frugal checker ≡ is_frugal command.now)
        → Obeys command.now result
        (streams_of S.left S.faults log.old log.new K.held K.faults out.old out.new) }
    ensures shrinks { Shrinks (201 * (MAX_LINES + 3)) (S.left log.old) (S.left log.new) }
{
    match judge_log::<C, S>(alloc, limits(command), log) {
        Ok(judgement) => report_stopped(
            command,
            &judgement.header,
            &judgement.checker,
            judgement.stop,
            out,
        ),
        Err(stop) => report_stop(stop, out),
    }
}
