//! The masks of a broken place.

ghost use Rattle.std.specs.Prelude.{◌≡◌, ℕ, true};
ghost use Rattle.bbm_regimes.specs.PeMask.{pe_in};

use crate::pending::Pend;
use bbm_descriptor::Core;
use bbm_regimes::{Pe, PeCount, PeMask};
use bbm_tlbi_scope::Cover;

/// How far a broken place is taken through break-before-make at each PE. Source: project's own choice.
#[derive(Clone, Copy)]
pub struct Marks {
    /// The core that some TLB may still keep.
    pub core: Core,
    /// The PEs that wrote the place since its last valid value.
    pub writers: PeMask,
    /// The PEs to which one of these writes is published.
    pub seen: PeMask,
    /// The PEs that have taken the first of two steps; each has seen the break.
    pub half: PeMask,
    /// The PEs whose TLBs keep nothing of the place any more; each has seen the break.
    pub clean: PeMask,
    ghost half_within: { (p : ℕ) → pe_in half p ≡ true → pe_in seen p ≡ true },
    ghost clean_within: { (p : ℕ) → pe_in clean p ≡ true → pe_in seen p ≡ true },
}

impl Marks {
    ghost use Rattle.std.specs.Prelude.{false, nat_eq, ◌&&◌, ◌||◌, ◌≤◌};
    ghost use Rattle.bbm_lemmas.specs.EveryPe.{every_pe};
    ghost use Rattle.bbm_tlbi_scope.specs.declared.entry.Cover.{Cover};
    ghost use Rattle.bbm_entry_state.specs.Points.{waits_in};
    ghost use Rattle.bbm_entry_state.specs.Marking.{counts_for};
    ghost use Rattle.bbm_tlbi_scope.specs.SameCover.{same_cover};

    /// The masks of a place whose core this PE just broke.
    pub fn broken_by(core: Core, pe: Pe) -> Marks
        ensures core { result.core ≡ core }
        ensures writers { (p : ℕ) → pe_in result.writers p ≡ nat_eq p pe }
        ensures seen { (p : ℕ) → pe_in result.seen p ≡ false }
        ensures half { (p : ℕ) → pe_in result.half p ≡ false }
        ensures clean { (p : ℕ) → pe_in result.clean p ≡ false }
    {
        Marks {
            core,
            writers: PeMask::one(pe),
            seen: PeMask::none(),
            half: PeMask::none(),
            clean: PeMask::none(),
        }
    }

    /// The masks after this PE wrote an invalid value once more.
    pub fn written_by(self, pe: Pe) -> Marks
        ensures core { result.core ≡ self.core }
        ensures writers { (p : ℕ) → pe_in result.writers p ≡ (nat_eq p pe || pe_in self.writers p) }
        ensures seen { (p : ℕ) → pe_in result.seen p ≡ pe_in self.seen p }
        ensures half { (p : ℕ) → pe_in result.half p ≡ pe_in self.half p }
        ensures clean { (p : ℕ) → pe_in result.clean p ≡ pe_in self.clean p }
    {
        Marks {
            core: self.core,
            writers: PeMask::one(pe).or(self.writers),
            seen: self.seen,
            half: self.half,
            clean: self.clean,
        }
    }

    /// The masks after the break was published to these PEs.
    pub fn published_to(self, heard: PeMask) -> Marks
        ensures core { result.core ≡ self.core }
        ensures writers { (p : ℕ) → pe_in result.writers p ≡ pe_in self.writers p }
        ensures seen { (p : ℕ) → pe_in result.seen p ≡ (pe_in heard p || pe_in self.seen p) }
        ensures half { (p : ℕ) → pe_in result.half p ≡ pe_in self.half p }
        ensures clean { (p : ℕ) → pe_in result.clean p ≡ pe_in self.clean p }
    {
        Marks {
            core: self.core,
            writers: self.writers,
            seen: heard.or(self.seen),
            half: self.half,
            clean: self.clean,
        }
    }

    /// Whether each of the first `n` PEs is clean.
    pub fn is_clean(&self, n: PeCount) -> bool
        ensures { result ≡ every_pe n (λ p. pe_in self.now.clean p) }
    {
        self.clean.has_all(n)
    }

    /// What waits for the answer of a TLBI that reaches these PEs and covers the place so far.
    pub fn noted(&self, reach: PeMask, cover: Cover) -> Pend
        ensures { (c : Cover) (p : ℕ) → waits_in result c p
            ≡ (pe_in reach p && (same_cover c cover && counts_for self.now c p)) }
    {
        let mut pend = Pend::none();
        pend.note(self, reach, cover);
        pend
    }

    /// The masks after TLBIs were answered for which these PEs waited, as far as they have seen the break.
    pub fn answered(self, done: Pend) -> Marks
        ensures core { result.core ≡ self.core }
        ensures writers { (p : ℕ) → pe_in result.writers p ≡ pe_in self.writers p }
        ensures seen { (p : ℕ) → pe_in result.seen p ≡ pe_in self.seen p }
        ensures half { (p : ℕ) → pe_in result.half p
            ≡ (pe_in self.half p || (pe_in self.seen p && pe_in done.half p)) }
        ensures clean { (p : ℕ) → pe_in result.clean p
            ≡ (pe_in self.clean p || (pe_in self.seen p && (pe_in done.full p || pe_in done.second p))) }
    {
        let mut marks = self;
        marks.answer(done);
        marks
    }

    /// TLBIs were answered for which these PEs waited: the masks change as far as the PEs have seen the break.
    pub fn answer(&mut self, done: Pend)
        ensures core { self.new.core ≡ self.old.core }
        ensures writers { (p : ℕ) → pe_in self.new.writers p ≡ pe_in self.old.writers p }
        ensures seen { (p : ℕ) → pe_in self.new.seen p ≡ pe_in self.old.seen p }
        ensures half { (p : ℕ) → pe_in self.new.half p
            ≡ (pe_in self.old.half p || (pe_in self.old.seen p && pe_in done.half p)) }
        ensures clean { (p : ℕ) → pe_in self.new.clean p
            ≡ (pe_in self.old.clean p || (pe_in self.old.seen p && (pe_in done.full p || pe_in done.second p))) }
    {
        self.half = self.half.or(self.seen.and(done.half));
        self.clean = self.clean.or(self.seen.and(done.full.or(done.second)));
    }
}
