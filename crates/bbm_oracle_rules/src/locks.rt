//! Who holds a lock.
//! Source: project's own choice, where no other is named.

ghost use Rattle.std.specs.Prelude.{◌≡◌, List, ◌∷◌, None, reverse, if◌then◌else◌};
ghost use Rattle.bbm_events.specs.declared.event.Event.{Event};
ghost use Rattle.bbm_rules.specs.Lists.{is_that};
ghost use Rattle.bbm_rules.specs.Locks as spec;
ghost use Rattle.bbm_rules.specs.Rules.{lacks as pe_lacks};

use bbm_events::Event;
use bbm_regimes::Pe;

/// The holder after an unlock by the PE.
fn released(holder: Option<Pe>, pe: Pe) -> Option<Pe>
    ensures { result ≡ (if is_that holder pe then None else holder) }
{
    match holder {
        Some(other) => { if other == pe { None } else { Some(other) } }
        None => None,
    }
}

/// The holder after one more event.
fn holder_after(holder: Option<Pe>, event: &Event, lock: u16) -> Option<Pe>
    ensures { (h : List Event) → holder ≡ spec.holder_of h lock → result ≡ spec.holder_of (event.now ∷ h) lock }
{
    match *event {
        Event::Lock { pe, lock: number } => { if number == lock { Some(pe) } else { holder } }
        Event::Unlock { pe, lock: number } => {
            if number == lock {
                released(holder, pe)
            } else {
                holder
            }
        }
        _ => holder,
    }
}

/// The PE that took the lock last and hasn't given it back; None where the lock is free.
pub fn holder_of(events: &[Event], lock: u16) -> Option<Pe>
    ensures { result ≡ spec.holder_of (reverse events.now) lock }
{
    let mut holder = None;
    for event in events {
        holder = holder_after(holder, event, lock);
    }
    holder
}

/// Whether the PE doesn't hold the lock.
pub fn lacks(events: &[Event], pe: Pe, lock: u16) -> bool
    ensures { result ≡ pe_lacks (reverse events.now) pe lock }
{
    match holder_of(events, lock) {
        Some(holder) => holder != pe,
        None => true,
    }
}
