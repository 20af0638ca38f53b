//! Laws of the tables, which hold of every scope, entry and place.

ghost use Rattle.std.specs.Prelude.{◌≡◌, ◌≢◌, ℕ, true, false, Option, ◌≤◌, ◌↔◌};
ghost use Rattle.bbm_regimes.specs.Extent.{Extent, Has};
ghost use Rattle.bbm_regimes.specs.declared.regime.Kind.{Kind};
ghost use Rattle.bbm_regimes.specs.declared.regime.Kind.TheVariants.{Ttbr0};
ghost use Rattle.bbm_tlbi_scope.specs.declared.scope.Scope.{Scope};
ghost use Rattle.bbm_tlbi_scope.specs.declared.entry.EntryHead.{EntryHead};
ghost use Rattle.bbm_tlbi_scope.specs.declared.entry.EntryKind.TheVariants.{Stage2, Combined};
ghost use Rattle.bbm_tlbi_scope.specs.declared.entry.PlaceView.{PlaceView};
ghost use Rattle.bbm_tlbi_scope.specs.declared.entry.Cover.{Cover};
ghost use Rattle.bbm_tlbi_scope.specs.declared.entry.Cover.TheVariants.{None as NoCover, Half, Second, Full};
ghost use Rattle.bbm_tlbi_scope.specs.Agreement.{Agrees, EndsAlone, IsCoverFor, read_through, tag_of};
ghost use Rattle.bbm_tlbi_scope.specs.ScopeCovers.{at_end, cover_of, top_of};
ghost use Rattle.bbm_tlbi_scope.specs.Ranges.{IsOver, AtSomePage, at_page, is_lowest};
ghost use Rattle.bbm_tlbi_scope.specs.ScopeTags.{takes_whole_tag};
ghost use Rattle.bbm_tlbi_scope.specs.Takes.{taken, is_global_leaf};

/// What covers a place takes the entries that were read through it: a full cover takes each of them, the
/// first half of a stage 2 cover takes the stage 2 entries, and the second half those that combine the
/// stages. The call does nothing; the law is its contract.
#[tactic(auto, using(crate::proofs::Agreeing::laws))]
pub fn law_cover_takes()
    ensures full { (s : Scope) (vmid : Option ℕ) (e : EntryHead) (v : PlaceView) →
        Agrees e v → cover_of s vmid v ≡ Full → taken s vmid e ≡ true }
    ensures half { (s : Scope) (vmid : Option ℕ) (e : EntryHead) (v : PlaceView) →
        Agrees e v → e.kind ≡ Stage2 → cover_of s vmid v ≡ Half → taken s vmid e ≡ true }
    ensures second { (s : Scope) (vmid : Option ℕ) (e : EntryHead) (v : PlaceView) →
        Agrees e v → e.kind ≡ Combined → cover_of s vmid v ≡ Second → taken s vmid e ≡ true }
{}

/// What takes an entry covers the place at which the entry ends, where the root of the place holds no tag but
/// that of the entry: in full, or half where the entry is one of stage 2, or the rest where it combines the
/// stages. The call does nothing; the law is its contract.
pub fn law_taken_is_covered()
    ensures { (s : Scope) (vmid : Option ℕ) (e : EntryHead) (v : PlaceView) →
        EndsAlone s.family e v → taken s vmid e ≡ true → IsCoverFor e.kind (cover_of s vmid v) }
{}

/// What covers the end of a place takes the entries that end there: in the leaf that it holds, or in its table. The call
/// does nothing; the law is its contract.
pub fn law_top_takes()
    ensures full { (s : Scope) (vmid : Option ℕ) (e : EntryHead) (v : PlaceView) →
        Agrees e (at_end v) → top_of s vmid v ≡ Full → taken s vmid e ≡ true }
    ensures half { (s : Scope) (vmid : Option ℕ) (e : EntryHead) (v : PlaceView) →
        Agrees e (at_end v) → e.kind ≡ Stage2 → top_of s vmid v ≡ Half → taken s vmid e ≡ true }
    ensures second { (s : Scope) (vmid : Option ℕ) (e : EntryHead) (v : PlaceView) →
        Agrees e (at_end v) → e.kind ≡ Combined → top_of s vmid v ≡ Second → taken s vmid e ≡ true }
{}

/// A TLBI that takes a whole tag takes each entry of the tag, where no entry of the lower range ends in a
/// leaf for every ASID. The call does nothing; the law is its contract.
#[tactic(auto, using(crate::proofs::Agreeing::laws))]
pub fn law_whole_tag_takes()
    ensures { (s : Scope) (vmid : Option ℕ) (e : EntryHead) (kind : Kind) →
        read_through e.kind kind ≡ true → (kind ≡ Ttbr0 → is_global_leaf e ≡ false) →
        takes_whole_tag s vmid (tag_of kind e) ≡ true → taken s vmid e ≡ true }
{}

/// A TLBI for a range of pages takes an entry exactly where the TLBI that is alike but for one page takes
/// it, for some page of the range. It covers a leaf, and a table below which nothing is held, exactly as far
/// as such a TLBI does for some page of the range. At every place it covers as far as the TLBI for any one
/// page of its range; a table with children may need more of the range than one page. The call does
/// nothing; the law is its contract.
pub fn law_range()
    ensures taken { (s : Scope) (pages : Extent) (vmid : Option ℕ) (e : EntryHead) →
        IsOver s pages → e.region.lo ≤ e.region.hi →
        ((taken s vmid e ≡ true) ↔ AtSomePage s pages (λ t. taken t vmid e ≡ true)) }
    ensures covered { (s : Scope) (pages : Extent) (vmid : Option ℕ) (v : PlaceView) (c : Cover) →
        IsOver s pages → v.region.lo ≤ v.region.hi → is_lowest v ≡ true → c ≢ NoCover →
        ((cover_of s vmid v ≡ c) ↔ AtSomePage s pages (λ t. cover_of t vmid v ≡ c)) }
    ensures wider { (s : Scope) (pages : Extent) (n : ℕ) (vmid : Option ℕ) (v : PlaceView) (c : Cover) →
        IsOver s pages → Has pages n → c ≢ NoCover →
        cover_of (at_page s n) vmid v ≡ c → cover_of s vmid v ≡ c }
{}
