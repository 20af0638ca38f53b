//! The way down to the one input page of a TLBI: only the places that are met there can be covered.

ghost use Rattle.std.specs.Prelude.{◌≡◌, ◌≤◌, ℕ, true, List, Some, OnOk};
ghost use Rattle.std.specs.Prelude.{IfOk};
ghost use Rattle.bbm_events.specs.Heading.{Heading};
ghost use Rattle.bbm_events.specs.declared.event.Event.{Event};
ghost use Rattle.bbm_place_map.specs.Map.{is_tracked};
ghost use Rattle.bbm_regimes.specs.World as spec;
ghost use Rattle.bbm_rules.specs.Places.{page_of};
ghost use Rattle.bbm_rules.specs.Roots.{Declared, root_at};
ghost use Rattle.bbm_tree_index.specs.HeldCores.{core_at, next_in};
ghost use Rattle.bbm_tree_index.specs.Index.{node_in};
ghost use Rattle.bbm_roots.specs.Listed.{nth_in};
ghost use Rattle.bbm_roots.specs.RootsStand.{Stands};
ghost use Rattle.bbm_replay.specs.Covering.{Grows, IsPathOf, IsSettled};
ghost use Rattle.bbm_replay.specs.OnePage.{FitTogether, MetFrom, MetFromAll, covers_kind as spec_covers_kind};

use crate::tlbi_cover::Covering;
use bbm_place_map::{Found, PlaceMap};
use bbm_regimes::{Kind, NoMemory, PAGE_BYTES, Page, Place};
use bbm_tlbi_scope::Family;
use bbm_tree_index::{Path, next_of, place_below};
use smallvec::SmallVec;

/// Whether an operation by address of this family can cover places of a root of this kind.
fn covers_kind(family: Family, kind: Kind) -> bool
    ensures { result ≡ spec_covers_kind family kind }
{
    match family {
        Family::El2Va => matches!(kind, Kind::El2),
        Family::Ipa => matches!(kind, Kind::S2),
        Family::Va | Family::VaAll => matches!(kind, Kind::Ttbr0 | Kind::Ttbr1),
        _ => false,
    }
}

/// The pages of a root. Source: project's own choice.
#[derive(Clone, Copy)]
struct RootPages {
    /// The first page.
    first: Page,
    /// How many pages there are, one after another.
    count: u8,
}

impl Covering<'_> {
    /// Adds the place, which has this path, with its cover, where it is broken and the TLBI covers it. The next page of
    /// the table that it holds; None where it holds none. `NoMemory` where there is none.
    #[inline(always)]
    fn add_met(
        &self,
        map: &PlaceMap,
        place: Place,
        path: &Path,
        found: &mut SmallVec<Found, 4>,
    ) -> Result<Option<Page>, NoMemory>
        requires tracked { is_tracked map.now (page_of place) ≡ true }
        requires path { IsPathOf self.now.index.now place path.now }
        ensures next { IfOk result (λ next. next ≡ next_in (core_at map.now path.now.kind path.now.level place)) }
        ensures grows { OnOk result (Grows map.now self.now found.old.items found.new.items) }
        ensures settled { OnOk result (IsSettled map.now self.now found.new.items place) }
    {
        let position = map.position(place).unwrap();
        match map.restless_number(&position) {
            Some(number) => {
                let core = self.add_broken(map, number, path, found)?;
                Ok(next_of(&core))
            }
            None => match map.live_at(&position, path.kind, path.level) {
                Some(core) => Ok(next_of(&core)),
                None => Ok(None),
            },
        }
    }

    /// Adds the broken places that the TLBI covers and that are met on the way down along the input page from the page
    /// at this address, in bytes, each with its cover. `NoMemory` where there is none.
    fn descend(
        &self,
        map: &PlaceMap,
        input: u64,
        addr: u64,
        found: &mut SmallVec<Found, 4>,
    ) -> Result<(), NoMemory>
        requires fits { FitTogether map.now self.now.index.now }
        ensures grows { OnOk result (Grows map.now self.now found.old.items found.new.items) }
        ensures met { OnOk result (MetFrom (node_in self.now.index.now) (core_at map.now) input addr
            (IsSettled map.now self.now found.new.items)) }
    {
        let Some(page) = Page::new(addr) else {
            return Ok(());
        };
        let mut here = self.index.place_translating(map, page, input);
        for _depth in 0..4_u8 {
            let Some(met) = here else {
                return Ok(());
            };
            let Some(next) = self.add_met(map, met.0, &met.1, found)? else {
                return Ok(());
            };
            here = place_below(&met.1, next, input);
        }
        Ok(())
    }

    /// Adds the broken places that the TLBI covers and that are met on the way down along the input page from the pages
    /// of a root, each with its cover. `NoMemory` where there is none.
    fn descend_pages(
        &self,
        map: &PlaceMap,
        input: u64,
        pages: &RootPages,
        found: &mut SmallVec<Found, 4>,
    ) -> Result<(), NoMemory>
        requires fits { FitTogether map.now self.now.index.now }
        ensures grows { OnOk result (Grows map.now self.now found.old.items found.new.items) }
        ensures met { OnOk result (MetFromAll (node_in self.now.index.now) (core_at map.now) input pages.now.first
            pages.now.count (IsSettled map.now self.now found.new.items)) }
    {
        for part in 0..pages.count {
            let addr = pages.first.get() + PAGE_BYTES * part as u64;
            self.descend(map, input, addr, found)?;
        }
        Ok(())
    }

    /// Adds the broken places that the TLBI covers and that are met on the way down along the input page from the pages
    /// of the root with this number, if there is one and the operation can cover places of its kind, each with its
    /// cover. `NoMemory` where there is none.
    fn descend_root(
        &self,
        map: &PlaceMap,
        input: u64,
        number: usize,
        found: &mut SmallVec<Found, 4>,
    ) -> Result<(), NoMemory>
        requires fits { FitTogether map.now self.now.index.now }
        ensures grows { OnOk result (Grows map.now self.now found.old.items found.new.items) }
        ensures met { OnOk result ((root : Declared) → nth_in self.now.roots.now number ≡ Some root
            → spec_covers_kind self.now.named.now.scope.family root.kind ≡ true
            → MetFromAll (node_in self.now.index.now) (core_at map.now) input root.page
            (spec.page_count self.now.header.now.world root.kind) (IsSettled map.now self.now found.new.items)) }
    {
        let Some(root) = self.roots.nth(number) else {
            return Ok(());
        };
        if !covers_kind(self.named.scope.family, root.kind) {
            return Ok(());
        }
        let pages = RootPages {
            first: root.page,
            count: self.header.page_count(root.kind),
        };
        self.descend_pages(map, input, &pages, found)?;
        Ok(())
    }

    /// Adds the broken places that the TLBI covers and that are met on the way down along the input page from the pages
    /// of each declared root of which the operation can cover places, each with its cover. `NoMemory` where there is
    /// none.
    pub(crate) fn descend_all(
        &self,
        map: &PlaceMap,
        input: u64,
        found: &mut SmallVec<Found, 4>,
    ) -> Result<(), NoMemory>
        requires fits { FitTogether map.now self.now.index.now }
        ensures grows { OnOk result (Grows map.now self.now found.old.items found.new.items) }
        ensures met { OnOk result ((heading : Heading) (h : List Event) (root : Declared)
            → Stands self.now.roots.now heading h
            → root_at h root.page ≡ Some root → spec_covers_kind self.now.named.now.scope.family root.kind ≡ true
            → MetFromAll (node_in self.now.index.now) (core_at map.now) input root.page
            (spec.page_count self.now.header.now.world root.kind) (IsSettled map.now self.now found.new.items)) }
    {
        for number in 0..self.roots.count() {
            self.descend_root(map, input, number, found)?;
        }
        Ok(())
    }
}
