//! What waits for the answers of TLBIs.
//! Source: project's own choice, where no other is named.

ghost use Rattle.std.specs.Prelude.{◌≡◌, ℕ, Bool, false, ◌&&◌, ◌||◌, not};
ghost use Rattle.bbm_regimes.specs.PeMask.{pe_in};
ghost use Rattle.bbm_lemmas.specs.ListWords.{same_flag};
ghost use Rattle.bbm_barriers.specs.Options.{answers};
ghost use Rattle.bbm_tlbi_scope.specs.declared.entry.Cover.{Cover as TheCover};
ghost use Rattle.bbm_entry_state.specs.Points.{waits, waits_in};
ghost use Rattle.bbm_tlbi_scope.specs.SameCover.{same_cover};
ghost use Rattle.bbm_entry_state.specs.Answered.{answered_at};
ghost use Rattle.bbm_entry_state.specs.EntryCalls.{Noted};
ghost use Rattle.bbm_entry_state.specs.Marking.{counts_for};
ghost use Rattle.bbm_entry_state.specs.declared.state.EntryState.TheVariants as state;

use crate::marks::Marks;
use bbm_barriers::{Dsb, completes_broadcast, completes_local};
use bbm_regimes::PeMask;
use bbm_tlbi_scope::Cover;

/// The PEs that wait for the answer of a TLBI, by how far it covers the place.
#[derive(Clone, Copy)]
pub struct Pend {
    /// Those for which it is the first of two steps.
    pub half: PeMask,
    /// Those for which it is the second of two steps.
    pub second: PeMask,
    /// Those for which it takes every entry of the place.
    pub full: PeMask,
}

/// What waits for the answers of one issuer's TLBIs.
#[derive(Clone, Copy)]
pub struct Pends {
    /// Of the TLBIs that are broadcast.
    pub broadcast: Pend,
    /// Of those that aren't.
    pub local: Pend,
}

impl Pend {
    /// No PE waits.
    pub fn none() -> Pend
        ensures { (c : TheCover) (p : ℕ) → waits_in result c p ≡ false }
    {
        Pend {
            half: PeMask::none(),
            second: PeMask::none(),
            full: PeMask::none(),
        }
    }

    /// The PEs that wait in one of the two.
    pub fn or(self, other: Pend) -> Pend
        ensures { (c : TheCover) (p : ℕ) → waits_in result c p ≡ (waits_in self c p || waits_in other c p) }
    {
        Pend {
            half: self.half.or(other.half),
            second: self.second.or(other.second),
            full: self.full.or(other.full),
        }
    }

    /// The PEs that wait, where the flag is true, and else none.
    pub fn only_if(self, flag: bool) -> Pend
        ensures { (c : TheCover) (p : ℕ) → waits_in result c p ≡ (flag && waits_in self c p) }
    {
        if flag { self } else { Pend::none() }
    }

    /// The PEs wait too that a TLBI reaches and for which it counts, as far as it covers the place.
    pub fn note(&mut self, marks: &Marks, reach: PeMask, cover: Cover)
        ensures { (c : TheCover) (p : ℕ) → waits_in self.new c p
            ≡ ((pe_in reach p && (same_cover c cover && counts_for marks.now c p)) || waits_in self.old c p) }
    {
        match cover {
            Cover::None => {}
            Cover::Half => self.half = reach.and(marks.seen).or(self.half),
            Cover::Second => self.second = reach.and(marks.half).or(self.second),
            Cover::Full => self.full = reach.and(marks.seen).or(self.full),
        }
    }
}

impl Pends {
    /// No PE waits.
    pub fn none() -> Pends
        ensures { (b : Bool) (c : TheCover) (p : ℕ) → waits result b c p ≡ false }
    {
        Pends {
            broadcast: Pend::none(),
            local: Pend::none(),
        }
    }

    /// These PEs wait too, for a TLBI that is broadcast or not.
    pub fn with(self, broadcast: bool, more: Pend) -> Pends
        ensures { (b : Bool) (c : TheCover) (p : ℕ) →
            waits result b c p ≡ ((same_flag broadcast b && waits_in more c p) || waits self b c p) }
    {
        Pends {
            broadcast: more.only_if(broadcast).or(self.broadcast),
            local: more.only_if(!broadcast).or(self.local),
        }
    }

    /// What waits too once a TLBI of the issuer is issued over a broken place, as by `EntryState::tlbi`, in place.
    pub fn note(&mut self, marks: &Marks, reach: PeMask, broadcast: bool, cover: Cover)
        ensures { Noted (state.Broken marks.now) self.old reach broadcast cover self.new }
    {
        if broadcast {
            self.broadcast.note(marks, reach, cover);
        } else {
            self.local.note(marks, reach, cover);
        }
    }

    /// The PEs whose answer this DSB of the issuer is.
    pub fn answered(self, dsb: Dsb) -> Pend
        ensures { (c : TheCover) (p : ℕ) → waits_in result c p ≡ answered_at self dsb c p }
    {
        self.broadcast
            .only_if(completes_broadcast(dsb))
            .or(self.local.only_if(completes_local(dsb)))
    }

    /// The PEs that wait on after this DSB of the issuer.
    pub fn left_by(self, dsb: Dsb) -> Pends
        ensures { (b : Bool) (c : TheCover) (p : ℕ) → waits result b c p ≡ (not (answers dsb b) && waits self b c p) }
    {
        let mut left = self;
        left.drop_answered(dsb);
        left
    }

    /// The PEs whose answer this DSB of the issuer is wait no more.
    pub fn drop_answered(&mut self, dsb: Dsb)
        ensures { (b : Bool) (c : TheCover) (p : ℕ) →
            waits self.new b c p ≡ (not (answers dsb b) && waits self.old b c p) }
    {
        if completes_broadcast(dsb) {
            self.broadcast = Pend::none();
        }
        if completes_local(dsb) {
            self.local = Pend::none();
        }
    }
}
