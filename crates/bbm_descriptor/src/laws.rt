//! Laws of descriptors, for the proofs of the crates above. Each function does nothing; its contract is
//! the law.

ghost use Rattle.std.specs.Prelude.{◌≡◌, ◌≢◌, ℕ, true, false, ◌+◌, ◌-◌, ◌*◌, ◌/◌, ◌≤◌, ◌↔◌, List, [], ◌∷◌, is_some};
ghost use Rattle.bbm_regimes.specs.declared.regime.Kind.{Kind};
ghost use Rattle.bbm_descriptor.specs.declared.desc.Core.{Core};
ghost use Rattle.bbm_descriptor.specs.Descriptor.{leaf, desc_of, core_of, core_in, desc_with, is_valid, same_core};
ghost use Rattle.bbm_descriptor.specs.Descriptor.{needs, Fits};
ghost use Rattle.bbm_descriptor.specs.Listing.{WalkRoot, RegionHolds, EndsIn, IsAnswer, IsAligned, ComesTo};
ghost use Rattle.bbm_regimes.specs.Extent.{span_of};
ghost use Rattle.bbm_descriptor.specs.declared.walk.Walk.{Walk};

/// A value has a core exactly where it is valid.
pub fn law_core_where_valid()
    ensures { (kind : Kind) (level value : ℕ) → is_some (core_of kind level value) ≡ is_valid kind level value }
{}

/// The test of two cores tells exactly whether they are equal.
pub fn law_same_core_is_equal()
    ensures { (one other : Core) → (same_core one other ≡ true) ↔ (one ≡ other) }
{}

/// The descriptor with the fields of a core has that core.
pub fn law_core_of_its_descriptor()
    ensures { (core : Core) → core_in (desc_with core) ≡ Some core }
{}

/// A write needs break-before-make exactly where both values are valid and their cores differ.
#[tactic(auto, using(crate::proofs::Cores::needs_told))]
pub fn law_need()
    ensures { (kind : Kind) (level old new : ℕ) →
        (needs kind level old new ≡ true)
        ↔ ((is_valid kind level old ≡ true)
        × (is_valid kind level new ≡ true)
        × (core_of kind level old ≢ core_of kind level new)) }
{}

/// The need is symmetric.
#[tactic(auto, using(crate::proofs::Cores::needs_told))]
pub fn law_need_is_symmetric()
    ensures { (kind : Kind) (level old new : ℕ) → needs kind level old new ≡ needs kind level new old }
{}

/// There is no need between values of equal cores.
pub fn law_no_need_of_equal_cores()
    ensures { (kind : Kind) (level old new : ℕ) →
        core_of kind level old ≡ core_of kind level new → needs kind level old new ≡ false }
{}

/// There is no need of a value over itself.
pub fn law_no_need_over_itself()
    ensures { (kind : Kind) (level value : ℕ) → needs kind level value value ≡ false }
{}

/// Next tables and output addresses fit at every level.
pub fn law_addresses_fit()
    ensures { (kind : Kind) (level value : ℕ) → level ≤ 3 → Fits level (desc_of kind level value) }
{}

/// At most one leaf of the listing has a region that holds an input address.
pub fn law_one_leaf()
    ensures { (value : ℕ → ℕ) (root : WalkRoot) (addr place other : ℕ) (above others : List ℕ) →
        IsAligned root
        → EndsIn value root leaf place above
        → RegionHolds value root (place ∷ above) addr
        → EndsIn value root leaf other others
        → RegionHolds value root (other ∷ others) addr
        → place ∷ above ≡ other ∷ others }
{}

/// An input address has at most one answer.
pub fn law_one_answer()
    ensures { (value : ℕ → ℕ) (root : WalkRoot) (addr : ℕ) (one other : Walk) →
        IsAligned root → IsAnswer value root addr one → IsAnswer value root addr other → one ≡ other }
{}

/// A walk for an address in the input range begins at the place of the root's pages that has as many before it as the
/// address has spans of the start level before it in the range.
pub fn law_walk_begins()
    ensures { (value : ℕ → ℕ) (root : WalkRoot) (addr : ℕ) →
        IsAligned root
        → RegionHolds value root [] addr
        → ComesTo value root addr root.start (root.page + 8 * ((addr - root.first) / span_of root.start)) [] }
{}

/// The answer for an address outside the input range is a fault at the start level.
pub fn law_outside()
    ensures { (value : ℕ → ℕ) (root : WalkRoot) (addr : ℕ) →
        ¬ RegionHolds value root [] addr → IsAnswer value root addr (Walk.Fault root.start) }
{}
