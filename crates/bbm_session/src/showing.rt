//! The commands that show more of the events of a log.

ghost use Rattle.std.specs.Prelude.{◌≡◌, ◌+◌, ◌*◌, false, List, Some};
ghost use Rattle.bbm_regimes.specs.declared.regime.TheConstants.{MAX_LINES};
ghost use Rattle.bbm_events.specs.declared.event.Event.{Event};
ghost use Rattle.bbm_texts.specs.declared.commands.Command.TheVariants as command_of;
ghost use Rattle.bbm_session.specs.Stages.{KnowsAt, Shrinks};
ghost use Rattle.bbm_session.specs.Serving.{Obeys, ReportsShown, streams_of};

use crate::answering::report_stop;
use crate::command::limits;
use crate::judgement::judge_log;
use crate::stop::Stop;
use bbm_events::Header;
use bbm_io::{Sink, Source};
use bbm_rules::{Fresh, Logged};
use bbm_texts::{Command, Evidence, Status, report_evidence};
use std::alloc::Global;

/// Says why reading stopped behind the header, and shows what there is to show.
fn report_shown<C: Logged, K: Sink>(
    alloc: Global,
    evidence: &Evidence,
    header: &Header,
    checker: &C,
    stop: Stop,
    out: &mut K,
) -> Status
    requires { (h : List Event) × KnowsAt (C.stands checker.now) header.now h stop }
    ensures { (h : List Event) → KnowsAt (C.stands checker.now) header.now h stop
        → ReportsShown (command_of.Show evidence.now) (Some header.now) h stop result
        (K.held out.old) (K.held out.new) (K.faults out.old) (K.faults out.new) }
{
    match stop {
        Stop::Decided(decision) => {
            report_evidence(alloc, evidence, header, checker, &decision, out)
        }
        Stop::ReadFault => Status::ReadFault,
        Stop::NoMemory => Status::NoMemory,
    }
}

/// Judges the log by a new checker that keeps its events, under the limits of the command, and writes its text. There
/// may be no memory for what is shown: then nothing is written.
pub fn show<C: Fresh + Logged + Drop, S: Source, K: Sink>(
    alloc: Global,
    evidence: &Evidence,
    log: &mut S,
    out: &mut K,
) -> Status
    ensures obeys { ((checker : C) → C.frugal checker ≡ false)
        → Obeys (command_of.Show evidence.now) result
        (streams_of S.left S.faults log.old log.new K.held K.faults out.old out.new) }
    ensures shrinks { Shrinks (201 * (MAX_LINES + 3)) (S.left log.old) (S.left log.new) }
{
    match judge_log::<C, S>(alloc, limits(&Command::Show(*evidence)), log) {
        Ok(judgement) => report_shown(
            alloc,
            evidence,
            &judgement.header,
            &judgement.checker,
            judgement.stop,
            out,
        ),
        Err(stop) => report_stop(stop, out),
    }
}
