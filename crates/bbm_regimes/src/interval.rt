//! Intervals of input pages.

ghost use Rattle.std.specs.Prelude.{◌≡◌, ◌↔◌, IsTrue};

use std::marker::Model;

/// A closed interval of input page numbers: the page numbers from `lo` to `hi`, both among them, where
/// `lo` is at most `hi`. A clause sees its `Extent`. Source: project's own choice.
#[derive(Clone, Copy, PartialEq, Eq)]
pub struct Interval {
    /// The first input page number.
    pub lo: u64,
    /// The last input page number.
    pub hi: u64,
}

impl Model for Interval {
    ghost use Rattle.std.specs.Prelude.{◌≤◌};
    ghost use Rattle.bbm_regimes.specs.Extent.{Extent};

    ghost Value = { Extent };

    ghost view = { λ i. record { lo = i.lo; hi = i.hi } };

    ghost invariant = { (λ i. i.lo ≤ i.hi) };

    ghost inverse = { λ e. record { lo = e.lo; hi = e.hi } };
}

#[tactic(auto, using(crate::proofs::Intervals::intervals))]
impl Interval {
    ghost use Rattle.bbm_regimes.specs.Extent.{Meets, Holds, meets, holds};

    /// Whether some page number is in both intervals.
    pub fn meets(self, other: Interval) -> bool
        ensures common { IsTrue result ↔ Meets self other }
        ensures ends { result ≡ meets self other }
    {
        self.lo <= other.hi && other.lo <= self.hi
    }

    /// Whether each page number of the other interval is in this one.
    pub fn holds(self, other: Interval) -> bool
        ensures within { IsTrue result ↔ Holds self other }
        ensures ends { result ≡ holds self other }
    {
        self.lo <= other.lo && other.hi <= self.hi
    }
}
