//! What is kept of a log and its certificate while they are read.

ghost use Rattle.std.specs.Prelude.{◌≡◌, []};

use bbm_events::{Claim, Event};
use std::alloc::Global;

/// Which part of the text the next line belongs to.
#[derive(Clone, Copy, PartialEq, Eq)]
pub enum Part {
    /// The log, behind its header.
    Events,
    /// The first line of the certificate.
    BehindLog,
    /// The claims.
    Claims,
}

/// The events and the claims of the lines so far, and what comes next. Source: project's own choice.
#[derive(Drop)]
pub struct Kept {
    /// Which part the next line belongs to.
    pub part: Part,
    /// The events, the oldest first.
    pub events: Vec<Event>,
    /// The claims, in their order.
    pub claims: Vec<Claim>,
}

impl Kept {
    /// What is kept where no line behind the header was read.
    pub fn new(alloc: Global) -> Kept
        ensures part { result.part ≡ Part.Events }
        ensures events { result.events.items ≡ [] }
        ensures claims { result.claims.items ≡ [] }
    {
        Kept {
            part: Part::Events,
            events: Vec::new(alloc),
            claims: Vec::new(alloc),
        }
    }
}
