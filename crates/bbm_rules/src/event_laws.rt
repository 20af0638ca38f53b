//! Laws of the definitions on plain events: the tests decide what they name, and what computes says the same as a
//! sentence over all ways to split a history.

ghost use Rattle.std.specs.Prelude.{◌≡◌, ◌↔◌, ℕ, ◌≤◌, true, false, length, Option, None, List, ◌==◌, ◌∷◌, Some};
ghost use Rattle.std.specs.Prelude.{◌++◌, Contains};
ghost use Rattle.bbm_regimes.specs.declared.regime.Kind.{Kind};
ghost use Rattle.bbm_regimes.specs.declared.regime.Reg.{Reg};
ghost use Rattle.bbm_regimes.specs.declared.regime.Reg.TheVariants.{VttbrEl2};
ghost use Rattle.bbm_regimes.specs.declared.regime.Which.TheVariants.{Pages, Roots, Values};
ghost use Rattle.bbm_regimes.specs.declared.regime.HypWorld.{HypWorld};
ghost use Rattle.bbm_regimes.specs.declared.regime.World.TheVariants.{Hyp};
ghost use Rattle.bbm_events.specs.Heading.{Heading};
ghost use Rattle.bbm_events.specs.declared.event.Event.{Event};
ghost use Rattle.bbm_events.specs.declared.event.Event.TheVariants.{Init, Msr, Null, Root};
ghost use Rattle.bbm_rules.specs.Claims.{Trust};
ghost use Rattle.bbm_rules.specs.Limits.{limit_of};
ghost use Rattle.bbm_rules.specs.Lists.{among};
ghost use Rattle.bbm_rules.specs.Locks.{holder_of};
ghost use Rattle.bbm_rules.specs.Pages.{initialised, is_null};
ghost use Rattle.bbm_rules.specs.RegisterValues.{Standing, register_values, standings, tag_number, vmid_of};
ghost use Rattle.bbm_rules.specs.Roots.{roots_of};
ghost use Rattle.bbm_rules.specs.Sentences.{HoldsLock, ReadableRegister, ReadableStanding};
ghost use Rattle.bbm_rules.specs.EventLaws.{ByChanges, PublishedBySentence, RootsBySentence, TestsAreExact};
ghost use Rattle.bbm_rules.specs.TagLaws.{TagSetSays};

/// The tests for equality of tags, registers, kinds and claims hold exactly where the two are equal. The law is
/// `TestsAreExact`.
pub fn law_equality_tests()
    ensures { TestsAreExact }
{}

/// A PE holds a lock exactly where it took it, nobody took it since, and the PE didn't give it back since. The call
/// does nothing; the law is its contract.
#[tactic(auto, using(crate::proofs::LockLaw::laws))]
pub fn law_lock_held()
    ensures sound { (h : List Event) (p lock : ℕ) → holder_of h lock ≡ Some p → HoldsLock h p lock }
    ensures complete { (h : List Event) (p lock : ℕ) → HoldsLock h p lock → holder_of h lock ≡ Some p }
{}

/// The roots are the pages that were declared by a `root`, and since then neither by another nor retired by an
/// `unroot`; the kind and the lock are those of that `root`. The law is `RootsBySentence`.
pub fn law_root()
    ensures { RootsBySentence }
{}

/// A page is a null page exactly where a `null` of it stands in the history. The call does nothing; the law is its
/// contract.
pub fn law_null()
    ensures sound { (h : List Event) (page : ℕ) → is_null h page ≡ true →
        (q : ℕ) × (newer older : List Event) × (h ≡ newer ++ Null q page ∷ older) }
    ensures complete { (h : List Event) (q page : ℕ) (newer older : List Event) → h ≡ newer ++ Null q page ∷ older →
        is_null h page ≡ true }
{}

/// A value is among the readable ones of a register exactly where the register had it at some moment, and after that
/// moment no write of the register by its PE is followed by an `isb` of the PE. The call does nothing; the law is its
/// contract.
#[tactic(auto, using(crate::proofs::RegisterLaw::laws))]
pub fn law_readable_register()
    ensures sound { (h : List Event) (p : ℕ) (reg : Reg) (value : ℕ) →
        among value (register_values h p reg) ≡ true → ReadableRegister h p reg value }
    ensures complete { (h : List Event) (p : ℕ) (reg : Reg) (value : ℕ) →
        ReadableRegister h p reg value → among value (register_values h p reg) ≡ true }
{}

/// A standing is among the readable ones of a PE exactly where the registers stood so at some moment, and after that
/// moment no register write of the PE is followed by an `isb` of it. The call does nothing; the law is its contract.
#[tactic(auto, using(crate::proofs::StandingSentence::laws))]
pub fn law_readable_standing()
    ensures sound { (h : List Event) (p : ℕ) (s : Standing) →
        Contains (standings h p) s → ReadableStanding h p s }
    ensures complete { (h : List Event) (p : ℕ) (s : Standing) →
        ReadableStanding h p s → Contains (standings h p) s }
{}

/// A write is published to a PE exactly where a later DSB of its own PE publishes to that PE. The law is
/// `PublishedBySentence`.
pub fn law_published()
    ensures { (heading : Heading) → PublishedBySentence heading }
{}

/// An event keeps the answer of each definition that its row of the table of changes doesn't name. The law is
/// `ByChanges`.
pub fn law_changes()
    ensures { (heading : Heading) (trust : Trust) → ByChanges heading trust }
{}

/// The tag set of a root says which tags it holds: none; one and no other; or two different ones at least. The law is
/// `TagSetSays`.
pub fn law_tag_set()
    ensures { (heading : Heading) (trust : Trust) → TagSetSays heading trust }
{}

/// An event reaches a limit exactly so: an `init` of a page that wasn't initialised before, after 16,384 pages were; a
/// `root` while 1,024 are declared; a register write where nine values of the register are readable. The call does
/// nothing; the law is its contract.
#[tactic(auto, using(crate::proofs::LimitLaw::laws))]
pub fn law_limits()
    ensures pages { (h : List Event) (pe page : ℕ) → (limit_of h (Init pe page) ≡ Some Pages)
        ↔ ((among page (initialised h) ≡ false) × (16384 ≤ length (initialised h))) }
    ensures roots { (h : List Event) (pe : ℕ) (kind : Kind) (lock : Option ℕ) (page : ℕ) →
        (limit_of h (Root pe kind lock page) ≡ Some Roots) ↔ (1024 ≤ length (roots_of h)) }
    ensures values { (h : List Event) (pe : ℕ) (reg : Reg) (value : ℕ) →
        (limit_of h (Msr pe reg value) ≡ Some Values) ↔ (9 ≤ length (register_values h pe reg)) }
{}

/// In the Hyp world the VMID of a PE is that of each of its readable values of VTTBR_EL2, and it has none exactly where
/// two of them differ. The call does nothing; the law is its contract.
#[tactic(auto, using(crate::proofs::VmidLaw::laws))]
pub fn law_vmid()
    ensures one { (heading : Heading) (world : HypWorld) (h : List Event) (p v value : ℕ) →
        heading.world ≡ Hyp world → vmid_of heading h p ≡ Some v →
        among value (register_values h p VttbrEl2) ≡ true → tag_number value ≡ v }
    ensures several { (heading : Heading) (world : HypWorld) (h : List Event) (p : ℕ) →
        heading.world ≡ Hyp world → vmid_of heading h p ≡ None →
        (a b : ℕ) × (among a (register_values h p VttbrEl2) ≡ true) × (among b (register_values h p VttbrEl2) ≡ true)
        × ((tag_number a == tag_number b) ≡ false) }
{}
