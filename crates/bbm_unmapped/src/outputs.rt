//! The pages that a leaf maps.

ghost use Rattle.std.specs.Prelude.{◌≡◌, ◌<◌, ◌+◌, ℕ, ◌%◌, ◌^◌, ◌==◌, true, false, ◌&&◌, nat_le, nat_lt, IfSome, Some};
ghost use Rattle.std.specs.Prelude.{max, min};
ghost use Rattle.bbm_regimes.specs.Extent.{span_of};
ghost use Rattle.std.specs.Option.{option_map_or};
ghost use Rattle.bbm_descriptor.specs.Descriptor.{core_of};
ghost use Rattle.bbm_regimes.specs.SameRegister.{same_kind};
ghost use Rattle.bbm_tree_index.specs.Outputs.{core_maps};
ghost use Rattle.bbm_unmapped.specs.InOutputs.{in_outputs};

use bbm_descriptor::Core;
use bbm_descriptor::laws::law_addresses_fit;
use bbm_regimes::{Kind, Level, PAGE_BYTES, Page};

/// The pages that a leaf of stage 2 maps, by addresses in bytes: from the first on up to the one behind the last. None
/// where `first` isn't below `behind`. Source: project's own choice.
#[derive(Clone, Copy)]
pub struct Outputs {
    /// The first address.
    pub first: u64,
    /// The address behind the last.
    pub behind: u64,
}

/// Whether the kind is that of stage 2.
#[inline(always)]
pub fn is_stage2(kind: Kind) -> bool
    ensures { result ≡ same_kind kind Kind.S2 }
{
    matches!(kind, Kind::S2)
}

/// The outputs that begin at this address, in bytes below 2^48, and are as many as the level spans.
#[inline(always)]
fn spanned(first: u64, level: Level) -> Outputs
    requires { first < 2 ^ 48 }
    ensures first { result.first ≡ first }
    ensures behind { result.behind ≡ first + span_of level }
{
    let _ = level.get();
    Outputs {
        first,
        behind: first + level.span(),
    }
}

/// The pages that a core maps at this kind and level: None where it isn't that of a leaf of stage 2. The core is that
/// of a value.
#[inline(always)]
pub fn outputs_of(kind: Kind, level: Level, core: &Option<Core>) -> Option<Outputs>
    requires { (value : ℕ) × (core.now ≡ core_of kind level value) }
    ensures { (page : ℕ) → option_map_or (λ o. nat_le o.first page && nat_lt page o.behind) result false
        ≡ core_maps kind level core.now page }
{
    law_addresses_fit();
    if !is_stage2(kind) {
        return None;
    }
    match *core {
        Some(Core::Leaf { out, .. }) => Some(spanned(out, level)),
        _ => None,
    }
}

/// Whether a core maps the page at this kind and level.
#[inline(always)]
pub fn maps_page(kind: Kind, level: Level, core: &Option<Core>, page: Page) -> bool
    ensures { result ≡ core_maps kind level core.now page }
{
    if !is_stage2(kind) {
        return false;
    }
    let page = page.get();
    match *core {
        Some(Core::Leaf { out, .. }) => out <= page && page - out < level.span(),
        _ => false,
    }
}

impl Outputs {
    /// Whether the page is among them.
    #[inline(always)]
    pub(crate) fn has(&self, page: Page) -> bool
        ensures { result ≡ in_outputs self.now page }
    {
        let page = page.get();
        self.first <= page && page < self.behind
    }

    /// The one page among them, where they are those of a leaf of level 3.
    #[inline(always)]
    pub(crate) fn only_page(&self) -> Option<Page>
        ensures is_one { self.now.first < 2 ^ 48 → self.now.first % PAGE_BYTES ≡ 0
            → self.now.behind ≡ self.now.first + PAGE_BYTES → result ≡ Some self.now.first }
        ensures only { IfSome result (λ only. (page : ℕ) → page % PAGE_BYTES ≡ 0
            → in_outputs self.now page ≡ (page == only)) }
    {
        if self.behind <= self.first || self.behind - self.first > PAGE_BYTES {
            return None;
        }
        Page::new(self.first)
    }

    /// None.
    pub(crate) const NONE: Outputs = Outputs {
        first: u64::MAX,
        behind: 0,
    };

    /// The page alone.
    #[inline(always)]
    pub(crate) fn of_page(page: Page) -> Outputs
        ensures { in_outputs result page ≡ true }
    {
        let first = page.get();
        Outputs {
            first,
            behind: first + PAGE_BYTES,
        }
    }

    /// Whether the other ones lie within these. False says nothing.
    #[inline(always)]
    pub(crate) fn covers(&self, other: &Outputs) -> bool
        ensures { result ≡ true → (page : ℕ) → in_outputs other.now page ≡ true → in_outputs self.now page ≡ true }
    {
        self.first <= other.first && other.behind <= self.behind
    }

    /// Whether none of the other ones is among these. False says nothing.
    #[inline(always)]
    pub(crate) fn is_apart(&self, other: &Outputs) -> bool
        ensures { result ≡ true → (page : ℕ) → in_outputs other.now page ≡ true → in_outputs self.now page ≡ false }
    {
        other.behind <= self.first || self.behind <= other.first
    }

    /// Bounds of both.
    #[inline(always)]
    pub(crate) fn joined(&self, other: &Outputs) -> Outputs
        ensures first { result.first ≡ min self.now.first other.now.first }
        ensures behind { result.behind ≡ max self.now.behind other.now.behind }
        ensures one { (page : ℕ) → in_outputs self.now page ≡ true → in_outputs result page ≡ true }
        ensures other { (page : ℕ) → in_outputs other.now page ≡ true → in_outputs result page ≡ true }
    {
        Outputs {
            first: self.first.min(other.first),
            behind: self.behind.max(other.behind),
        }
    }
}
