//! What was decided, told by the text of a command, or by the line of the verdict alone.
//! Source: project's own choice, where no other is named.

ghost use Rattle.std.specs.Prelude.{◌≡◌, false, List, Option, Some};
ghost use Rattle.bbm_events.specs.declared.event.Event.{Event};
ghost use Rattle.bbm_events.specs.Heading.{Heading as HeadingOf};
ghost use Rattle.bbm_rules.specs.Texts.{verdict_text};
ghost use Rattle.bbm_texts.specs.declared.commands.Command.{Command as CommandOf};
ghost use Rattle.bbm_texts.specs.Known.{EndsThere, KnowsDecided};
ghost use Rattle.bbm_texts.specs.Says.{IsOutput, IsOutputFor, shows_evidence};
ghost use Rattle.bbm_texts.specs.Statuses.{status_of};
ghost use Rattle.bbm_texts.specs.Writing.{Wrote, WroteSome};

use crate::answering::{settled, status};
use crate::commands::Command;
use crate::decision::Decision;
use crate::status::Status;
use crate::telling::{tell_all, tell_verdict};
use bbm_events::Header;
use bbm_io::Sink;
use bbm_rules::{Checker, Verdict};

/// Says what was decided by the line of the verdict alone. It is the text of every command where a line is malformed or
/// reaches a limit. The status is that of the verdict, or `WriteFault`.
pub fn report_verdict<K: Sink>(verdict: &Verdict, out: &mut K) -> Status
    ensures wrote { Wrote (status_of verdict.now) (verdict_text verdict.now) result
        (K.held out.old) (K.held out.new) (K.faults out.old) (K.faults out.new) }
    ensures alone { EndsThere verdict.now → (command : CommandOf) (heading : Option HeadingOf) (h : List Event)
        (refused : Option Event) → IsOutput command heading h refused verdict.now (verdict_text verdict.now) }
{
    settled(tell_verdict(verdict, out), status(verdict))
}

/// Says what was decided by the text of a command that shows no more of the events. The status is that of the verdict,
/// or `WriteFault`.
pub fn report<C: Checker, K: Sink>(
    command: &Command,
    header: &Header,
    checker: &C,
    decision: &Decision,
    out: &mut K,
) -> Status
    requires known { (h : List Event) × KnowsDecided (C.stands checker.now) header.now h decision.now }
    requires plain { shows_evidence command.now ≡ false }
    ensures { (h : List Event) → KnowsDecided (C.stands checker.now) header.now h decision.now
        → WroteSome (IsOutputFor command.now (Some header.now) h decision.now) (status_of decision.now.verdict) result
        (K.held out.old) (K.held out.new) (K.faults out.old) (K.faults out.new) }
{
    settled(
        tell_all(command, header, checker, &decision.verdict, out),
        status(&decision.verdict),
    )
}
