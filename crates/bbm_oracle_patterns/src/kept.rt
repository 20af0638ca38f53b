//! The events of a log as the oracle keeps them.
//! Source: project's own choice, where no other is named.

ghost use Rattle.std.specs.Prelude.{◌≡◌};
ghost use Rattle.bbm_oracle_patterns.specs.Kept.{cover_in, listed};

use bbm_events::Event;
use bbm_regimes::Place;
use bbm_tlbi_scope::Cover;

/// Which cover of a place is asked of a TLBI.
#[derive(Clone, Copy, PartialEq, Eq)]
pub enum Covering {
    /// Its cover: how far it covers what the place holds.
    Whole,
    /// Its top cover: how far it covers what ends at the place.
    Top,
}

/// How far a TLBI covers a place.
#[derive(Clone, Copy, PartialEq, Eq)]
pub struct Covered {
    /// The place.
    pub place: Place,
    /// How far it is covered.
    pub cover: Cover,
}

/// An event of a log with the places that it covers, and those at which it covers what ends there.
#[derive(Drop)]
pub struct Kept {
    /// The event.
    pub event: Event,
    /// Where it is a TLBI, how far it covers each place; a place that isn't listed isn't covered. Of several
    /// entries for a place the first counts.
    pub covers: Vec<Covered>,
    /// Its top covers, in the same way.
    pub tops: Vec<Covered>,
}

/// How far the place is covered by this list.
fn find(list: &[Covered], place: Place) -> Cover
    ensures { result ≡ cover_in list.now place }
{
    for covered in list {
        if covered.place == place {
            return covered.cover;
        }
    }
    Cover::None
}

impl Kept {
    /// How far the event covers the place.
    pub fn cover(&self, place: Place) -> Cover
        ensures { result ≡ cover_in self.now.covers.items place }
    {
        find(&self.covers, place)
    }

    /// How far it covers the place, or what ends there.
    pub fn cover_for(&self, covering: Covering, place: Place) -> Cover
        ensures { result ≡ cover_in (listed covering self.now) place }
    {
        match covering {
            Covering::Whole => self.cover(place),
            Covering::Top => find(&self.tops, place),
        }
    }
}
