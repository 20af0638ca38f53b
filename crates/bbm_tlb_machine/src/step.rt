//! The steps of a run.

use bbm_events::{Event, MachineLine};

/// One step of a run: an event of its log, or what a TLB does between two events. Source: project's own
/// choice.
#[derive(Clone, Copy, PartialEq, Eq)]
pub enum Step {
    /// A TLB starts an entry, reads one descriptor more, joins the stages, copies an entry, or drops one.
    Machine(MachineLine),
    /// The event is taken.
    Event(Event),
}
