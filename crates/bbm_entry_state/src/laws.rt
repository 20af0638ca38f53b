//! What a state and its pendings are after any steps of their place.

ghost use Rattle.std.specs.Prelude.{◌≡◌, ℕ, Bool, true, false, ◌&&◌, not, ◌≤◌, Option, None, List, [], ◌∷◌};
ghost use Rattle.bbm_lemmas.specs.EveryPe.{every_pe};
ghost use Rattle.bbm_barriers.specs.Options.{answers};
ghost use Rattle.bbm_regimes.specs.PeMask.{pe_in};
ghost use Rattle.bbm_regimes.specs.declared.pe.PeMask.{PeMask};
ghost use Rattle.bbm_descriptor.specs.declared.desc.Core.{Core};
ghost use Rattle.bbm_barriers.specs.declared.Dsb.{Dsb};
ghost use Rattle.bbm_tlbi_scope.specs.declared.entry.Cover.{Cover};
ghost use Rattle.bbm_entry_state.specs.declared.marks.Marks.{Marks};
ghost use Rattle.bbm_entry_state.specs.declared.pending.Pend.{Pend};
ghost use Rattle.bbm_entry_state.specs.declared.pending.Pends.{Pends};
ghost use Rattle.bbm_entry_state.specs.declared.state.EntryState.{EntryState};
ghost use Rattle.bbm_entry_state.specs.declared.state.EntryState.TheVariants as state;
ghost use Rattle.bbm_entry_state.specs.Points.{core_in, waits};
ghost use Rattle.bbm_entry_state.specs.Answered.{Answered};
ghost use Rattle.bbm_entry_state.specs.EntryCalls.{Written, Published, Noted, Completed};
ghost use Rattle.bbm_entry_state.specs.EntrySteps.{Step, Wrote, Barrier, Flush};
ghost use Rattle.bbm_entry_state.specs.EntryStanding.{IsIdle, Between, Stands, KeepsPends, SetsPends};

/// After any list of steps of one place its masks are the sets of the PEs at which the patterns of these steps
/// hold: `Stands` says so by points. It holds of a clean state with nothing waiting before any step, and each
/// call keeps it for one step more: a write, where the pendings of each issuer are dropped unless the place
/// is then broken; a DSB by `dsb` and then `complete`, with the same for the pendings; a TLBI. The call does
/// nothing; the law is its contract.
pub fn law_steps()
    ensures start { (n : ℕ) (state : EntryState) (pends : ℕ → Pends) →
        core_in state ≡ None → ((q : ℕ) → IsIdle (pends q)) → Stands n state pends [] }
    ensures write { (n : ℕ) (old new : EntryState) (pends pends' : ℕ → Pends) (steps : List Step)
        (pe : ℕ) (value : Option Core) → 1 ≤ n → Written old pe value new → KeepsPends new pends pends' →
        Stands n old pends steps → Stands n new pends' (Wrote pe value ∷ steps) }
    ensures dsb { (n : ℕ) (old new : EntryState) (pends : ℕ → Pends) (steps : List Step)
        (q : ℕ) (dsb : Dsb) → Published old q dsb n new →
        Stands n old pends steps → Between n new pends (Barrier q dsb ∷ steps) steps }
    ensures tlbi { (n : ℕ) (state : EntryState) (pends pends' : ℕ → Pends) (left : Pends) (steps : List Step)
        (q : ℕ) (reach : PeMask) (r : ℕ → Bool) (broadcast : Bool) (cover : Cover) →
        Noted state (pends q) reach broadcast cover left → ((p : ℕ) → pe_in reach p ≡ r p) →
        SetsPends q left pends pends' →
        Stands n state pends steps → Stands n state pends' (Flush q r broadcast cover ∷ steps) }
    ensures complete { (n : ℕ) (old new : EntryState) (pends mid pends' : ℕ → Pends) (left : Pends)
        (steps : List Step) (q : ℕ) (dsb : Dsb) → Completed old (pends q) dsb n new left →
        SetsPends q left pends mid → KeepsPends new mid pends' →
        Between n old pends (Barrier q dsb ∷ steps) steps → Stands n new pends' (Barrier q dsb ∷ steps) }
{}

/// A DSB completes the TLBIs of its issuer at a broken place also where marks and pendings change in place, by
/// `Marks::answer` of what `Pends::answered` says, and `Pends::drop_answered`. Where each of the first `n` PEs is
/// clean then, the place is clean and nothing waits; else it is broken with the new marks. The call does nothing; the
/// law is its contract.
pub fn law_completes()
    ensures clean { (old new : Marks) (pends left : Pends) (dsb : Dsb) (done : Pend) (n : ℕ) →
        Answered old pends dsb done new → every_pe n (λ p. pe_in new.clean p) ≡ true → IsIdle left →
        Completed (state.Broken old) pends dsb n state.Clean left }
    ensures broken { (old new : Marks) (pends left : Pends) (dsb : Dsb) (done : Pend) (n : ℕ) →
        Answered old pends dsb done new → every_pe n (λ p. pe_in new.clean p) ≡ false →
        ((b : Bool) (c : Cover) (p : ℕ) → waits left b c p ≡ (not (answers dsb b) && waits pends b c p)) →
        Completed (state.Broken old) pends dsb n (state.Broken new) left }
{}
