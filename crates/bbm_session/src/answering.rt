//! How why reading stopped is told.

ghost use Rattle.std.specs.Prelude.{List, Option};
ghost use Rattle.bbm_events.specs.declared.event.Event.{Event};
ghost use Rattle.bbm_events.specs.Heading.{Heading as HeadingOf};
ghost use Rattle.bbm_texts.specs.declared.commands.Command.{Command as CommandOf};
ghost use Rattle.bbm_texts.specs.Says.{IsOutputFor};
ghost use Rattle.bbm_session.specs.Stages.{IsBrief};
ghost use Rattle.bbm_session.specs.Serving.{IsLine, Reports};

use crate::stop::Stop;
use bbm_io::Sink;
use bbm_texts::{Status, report_verdict};

/// Says why reading stopped, by the line of the verdict alone if there is one.
pub fn report_stop<K: Sink>(stop: Stop, out: &mut K) -> Status
    ensures line { Reports IsLine stop result (K.held out.old) (K.held out.new) (K.faults out.old) (K.faults out.new) }
    ensures brief { IsBrief stop → (command : CommandOf) (heading : Option HeadingOf) (h : List Event)
        → Reports (IsOutputFor command heading h) stop result (K.held out.old) (K.held out.new)
        (K.faults out.old) (K.faults out.new) }
{
    match stop {
        Stop::Decided(decision) => report_verdict(&decision.verdict, out),
        Stop::ReadFault => Status::ReadFault,
        Stop::NoMemory => Status::NoMemory,
    }
}
