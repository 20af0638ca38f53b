//! Whether a PE wrote a register since its last ISB.

ghost use Rattle.std.specs.Prelude.{◌≡◌, List, ◌∷◌, reverse};
ghost use Rattle.bbm_events.specs.declared.event.Event.{Event as TheEvent};
ghost use Rattle.bbm_idle.specs.Idle as spec;

use bbm_events::Event;
use bbm_regimes::Pe;

/// Whether the PE wrote a register since its last ISB, after one more event.
fn wrote_after(before: bool, event: &Event, pe: Pe) -> bool
    ensures { (h : List TheEvent) → before ≡ spec.wrote_register pe h
        → result ≡ spec.wrote_register pe (event.now ∷ h) }
{
    match *event {
        Event::Msr { pe: writer, .. } => writer == pe || before,
        Event::Isb { pe: issuer } => { if issuer == pe { false } else { before } }
        _ => before,
    }
}

/// Whether the PE wrote a register since its last ISB. Source: project's own choice, after Arm ARM (DDI 0487), "Context
/// synchronization event".
pub fn wrote_register(events: &[Event], pe: Pe) -> bool
    ensures { result ≡ spec.wrote_register pe (reverse events.now) }
{
    let mut wrote = false;
    for event in events {
        wrote = wrote_after(wrote, event, pe);
    }
    wrote
}
