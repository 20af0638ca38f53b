//! Processing elements and sets of them.
//! Source: project's own choice, where no other is named.

ghost use Rattle.std.specs.Prelude.{◌≡◌, ℕ, ◌<◌, ◌≤◌, ◌↔◌, ◌&&◌, ◌||◌, not, nat_eq, nat_lt, ◌==◌, false, IsTrue, IsSome};
ghost use Rattle.std.specs.Prelude.{IfSome};

use std::marker::Model;

/// A processing element: its number in the log, 0 to 127.
#[derive(Clone, Copy, PartialEq, Eq)]
pub struct Pe {
    number: u8,
}

impl Model for Pe {
    ghost Value = { ℕ };

    ghost view = { λ p. p.number };

    ghost invariant = { (λ p. p.number < 128) };

    ghost inverse = { λ n. record { number = n } };
}

impl Pe {
    /// The PE with this number; None exactly where the number is 128 or more.
    pub fn new(n: u8) -> Option<Pe>
        ensures is_one { IsSome result ↔ (n < 128) }
        ensures value { IfSome result (λ pe. pe ≡ n) }
    {
        if n < 128 {
            Some(Pe { number: n })
        } else {
            None
        }
    }

    /// The number of the PE, 0 to 127.
    pub fn get(self) -> u8
        ensures value { result ≡ self }
        ensures below { self < 128 }
    {
        self.number
    }
}

/// The number of processing elements of a log, 1 to 128.
#[derive(Clone, Copy, PartialEq, Eq)]
pub struct PeCount {
    pes: u8,
}

impl Model for PeCount {
    ghost Value = { ℕ };

    ghost view = { λ n. n.pes };

    ghost invariant = { (λ n. (1 ≤ n.pes) × (n.pes ≤ 128)) };

    ghost inverse = { λ n. record { pes = n } };
}

impl PeCount {
    /// So many PEs.
    pub fn new(pes: u8) -> PeCount
        requires some { 1 ≤ pes }
        requires within { pes ≤ 128 }
        ensures { result ≡ pes }
    {
        PeCount { pes }
    }

    /// The number, 1 to 128.
    pub fn get(self) -> u8
        ensures value { result ≡ self }
        ensures some { 1 ≤ self }
        ensures within { self ≤ 128 }
    {
        self.pes
    }
}

/// A set of processing elements, of numbers 0 to 127. Contracts speak of it by its points alone,
/// `pe_in mask p`.
#[derive(Clone, Copy)]
pub struct PeMask {
    bits: u128,
}

#[tactic(auto, using(crate::proofs::Masks::masks), unfolding(crate::specs::PeMask::pe_in))]
impl PeMask {
    ghost use Rattle.bbm_lemmas.specs.EveryPe.{every_pe};
    ghost use Rattle.bbm_regimes.specs.PeMask.{pe_in};

    /// The set of no PE.
    pub fn none() -> PeMask
        ensures { (p : ℕ) → pe_in result p ≡ false }
    {
        PeMask { bits: 0 }
    }

    /// The set of this PE alone.
    pub fn one(pe: Pe) -> PeMask
        ensures { (p : ℕ) → pe_in result p ≡ nat_eq p pe }
    {
        PeMask {
            bits: 1 << pe.number,
        }
    }

    /// The set of the first n PEs.
    pub fn all(n: PeCount) -> PeMask
        ensures { (p : ℕ) → pe_in result p ≡ nat_lt p n }
    {
        PeMask {
            bits: u128::MAX >> (128 - n.pes),
        }
    }

    /// The PEs that are in both sets.
    pub fn and(self, other: PeMask) -> PeMask
        ensures { (p : ℕ) → pe_in result p ≡ (pe_in self p && pe_in other p) }
    {
        PeMask {
            bits: self.bits & other.bits,
        }
    }

    /// The PEs that are in one of the sets.
    pub fn or(self, other: PeMask) -> PeMask
        ensures { (p : ℕ) → pe_in result p ≡ (pe_in self p || pe_in other p) }
    {
        PeMask {
            bits: self.bits | other.bits,
        }
    }

    /// The PEs of this set that aren't in the other.
    pub fn minus(self, other: PeMask) -> PeMask
        ensures { (p : ℕ) → pe_in result p ≡ (pe_in self p && not (pe_in other p)) }
    {
        PeMask {
            bits: self.bits & !other.bits,
        }
    }

    /// The set, with the PE where that is to be added.
    pub fn with(self, pe: Pe, is_added: bool) -> PeMask
        ensures { (p : ℕ) → pe_in result p ≡ ((pe == p && is_added) || pe_in self p) }
    {
        if is_added {
            self.or(PeMask::one(pe))
        } else {
            self
        }
    }

    /// The set, without the PE where that is to be taken out.
    pub fn without(self, pe: Pe, is_out: bool) -> PeMask
        ensures { (p : ℕ) → pe_in result p ≡ (pe_in self p && not (pe == p && is_out)) }
    {
        if is_out {
            self.minus(PeMask::one(pe))
        } else {
            self
        }
    }

    /// Whether the PE is in the set.
    pub fn has(self, pe: Pe) -> bool
        ensures { result ≡ pe_in self pe }
    {
        self.bits >> pe.number & 1 == 1
    }

    /// Whether no PE is in the set.
    pub fn is_empty(self) -> bool
        ensures { IsTrue result ↔ ((p : ℕ) → pe_in self p ≡ false) }
    {
        self.bits == 0
    }

    /// Whether each of the first n PEs is in the set.
    pub fn has_all(self, n: PeCount) -> bool
        ensures { result ≡ every_pe n (λ p. pe_in self p) }
    {
        PeMask::all(n).minus(self).is_empty()
    }
}
