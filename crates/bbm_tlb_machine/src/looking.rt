//! Which values of a place a PE may still read.

ghost use Rattle.std.specs.Prelude.{◌≡◌, List, reverse};
ghost use Rattle.bbm_events.specs.declared.event.Event.{Event};
ghost use Rattle.bbm_rules.specs.Values.{is_readable};
ghost use Rattle.bbm_tlb_machine.specs.Looking.{Marks, Says};

use bbm_events::{Event, Header};
use bbm_oracle_tags::publishes_for;
use bbm_regimes::{Pe, PeMask, Place};

/// What a look at one event tells, on the way back through the events.
#[derive(Clone, Copy)]
pub enum Look {
    /// The value can be read.
    Found,
    /// It can't.
    Gone,
    /// The events before it tell. Later events publish writes of these PEs.
    Further(PeMask),
}

/// A look at one event, where later ones publish writes of the marked PEs.
#[tactic(auto, using(crate::proofs::LookBack::looks))]
fn look_at(header: &Header, pe: Pe, place: Place, value: u64, marks: PeMask, event: &Event) -> Look
    ensures { (later older : List Event) → Marks header.now pe later marks
        → Says header.now pe place value later event.now older result }
{
    match *event {
        Event::Write {
            pe: writer,
            place: at,
            value: written,
        } => {
            if at != place {
                Look::Further(marks)
            } else if written == value {
                Look::Found
            } else if marks.has(writer) {
                Look::Gone
            } else {
                Look::Further(marks)
            }
        }
        Event::Init { pe: _, page } => {
            if page != place.page() {
                Look::Further(marks)
            } else if value == 0 {
                Look::Found
            } else {
                Look::Gone
            }
        }
        Event::Dsb { pe: by, .. } => {
            if publishes_for(header, by, pe, event) {
                Look::Further(marks.or(PeMask::one(by)))
            } else {
                Look::Further(marks)
            }
        }
        _ => Look::Further(marks),
    }
}

/// Whether the PE can still read this value of the place, after these events, the oldest first. Source: project's own
/// choice, after Arm ARM (DDI 0487), "Translation table walk coherency".
pub fn can_read(header: &Header, events: &[Event], place: Place, pe: Pe, value: u64) -> bool
    ensures { result ≡ is_readable header.now (reverse events.now) place pe value }
{
    let mut marks = PeMask::none();
    let mut n = events.len();
    'back: while n > 0 {
        n -= 1;
        match look_at(header, pe, place, value, marks, &events[n]) {
            Look::Found => return true,
            Look::Gone => return false,
            Look::Further(more) => marks = more,
        }
    }
    value == 0
}
