//! What is searched, and what a search finds.

use crate::answers::Answer;
use crate::read::{Goal, Read};
use bbm_events::{Event, Header};
use bbm_regimes::{Kind, Pe, Place};
use std::alloc::Global;
use std::marker::Model;

/// The events before a refused write, the write, and what is known of both. Source: project's own choice.
#[derive(Clone, Copy)]
pub struct Search<'a> {
    /// Where room comes from.
    pub alloc: Global,
    /// The header of the log.
    pub header: &'a Header,
    /// The events before the write.
    pub events: &'a [Event],
    /// The TLBIs among them that a DSB answers.
    pub answers: &'a [Answer],
    /// The way to the place of the write.
    pub way: &'a [Goal],
    /// The kind of the tree of the place.
    pub kind: Kind,
    /// The place.
    pub place: Place,
    /// The value that is written.
    pub value: u64,
}

/// A VMID or ASID, and where the entry is combined. A clause sees it as that of the definitions. Source: project's own
/// choice.
#[derive(Clone, Copy)]
pub struct Choice {
    /// The VMID or ASID.
    pub number: u16,
    /// How many events come before the combine, None where there is none.
    pub combines: Option<u64>,
}

impl Model for Choice {
    ghost use Rattle.bbm_counterrun.specs.Searching.{Choice};

    ghost Value = { Choice };

    ghost view = { λ c. record { number = c.number; combines = c.combines } };

    ghost inverse = { λ c. record { number = c.number; combines = c.combines } };
}

/// What a search finds. A clause sees it as that of the definitions. Source: project's own choice.
#[derive(Drop)]
pub struct Found {
    /// How many events come before the start.
    pub starts: u64,
    /// The PE.
    pub pe: Pe,
    /// The VMID or ASID, and the combine.
    pub choice: Choice,
    /// The reads.
    pub reads: Vec<Read>,
}

impl Model for Found {
    ghost use Rattle.bbm_counterrun.specs.Searching.{Found};

    ghost Value = { Found };

    ghost view = { λ f. record { starts = f.starts; pe = f.pe; choice = f.choice; reads = f.reads.items } };
}
