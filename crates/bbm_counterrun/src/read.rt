//! What a walk reads.

use bbm_regimes::{Kind, Level, Place};
use std::marker::Model;

/// A place and a value that was read there. A clause sees it as that of the definitions. Source: project's own choice.
#[derive(Clone, Copy, PartialEq, Eq)]
pub struct Read {
    /// The place.
    pub place: Place,
    /// The value.
    pub value: u64,
}

impl Model for Read {
    ghost use Rattle.bbm_counterrun.specs.Plans.{Read};

    ghost Value = { Read };

    ghost view = { λ r. record { place = r.place; value = r.value } };

    ghost inverse = { λ r. record { place = r.place; value = r.value } };
}

/// A place of a tree and what it holds. A clause sees it as that of the definitions. Source: project's own choice.
#[derive(Clone, Copy)]
pub struct Goal {
    /// The place.
    pub place: Place,
    /// The kind of the tree.
    pub kind: Kind,
    /// The level of the place.
    pub level: Level,
    /// What it holds.
    pub value: u64,
}

impl Model for Goal {
    ghost use Rattle.bbm_counterrun.specs.Ways.{Goal};

    ghost Value = { Goal };

    ghost view = { λ g. record { place = g.place; kind = g.kind; level = g.level; value = g.value } };

    ghost inverse = { λ g. record { place = g.place; kind = g.kind; level = g.level; value = g.value } };
}
