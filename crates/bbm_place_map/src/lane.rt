//! The lanes in which TLBIs wait for their answers.
//! Source: project's own choice, where no other is named.

ghost use Rattle.std.specs.Prelude.{◌≡◌, ℕ};

use bbm_regimes::Pe;
use std::marker::Model;

/// A lane: the TLBIs of one issuer that are broadcast, or its others. Contracts see its number: twice that of the PE, and
/// one more where they are broadcast.
#[derive(Clone, Copy, PartialEq, Eq)]
pub struct Lane {
    number: u8,
}

impl Model for Lane {
    ghost use Rattle.std.specs.Prelude.{ℕ};

    ghost Value = { ℕ };

    ghost view = { λ lane. lane.number };

    ghost inverse = { λ n. record { number = n } };
}

/// What fills an unused place of a list: the TLBIs of PE 0 that aren't broadcast.
impl Default for Lane {
    fn default() -> Lane {
        Lane { number: 0 }
    }
}

impl Lane {
    ghost use Rattle.bbm_place_map.specs.Entries.{lane_of};

    /// The lane of an issuer's TLBIs that are broadcast, or of its others.
    #[inline(always)]
    pub fn new(issuer: Pe, broadcast: bool) -> Lane
        ensures { result ≡ lane_of issuer broadcast }
    {
        let twice = issuer.get() + issuer.get();
        let number = if broadcast { twice + 1 } else { twice };
        Lane { number }
    }
}
