//! The free pages, and the bounds of the outputs of leaves.
//! Source: project's own choice, where no other is named.
#![tactic(auto, unfolding(
// the pages, and whether there is room for one more
crate::specs::Unmapped::pages_in, crate::specs::Unmapped::known_in, crate::specs::Unmapped::has_room,
// which are free, and the bounds
crate::specs::Unmapped::free_in, crate::specs::Unmapped::may_map))]

mod attaching;

ghost use Rattle.std.specs.Prelude.{◌≡◌, ℕ, true};
ghost use Rattle.bbm_tree_index.specs.PageTables.{HasPages};
ghost use Rattle.bbm_unmapped.specs.InOutputs.{in_outputs};
ghost use Rattle.bbm_unmapped.specs.Kept.{free_by, may_by};

use crate::held::holds_over;
use crate::leaves::{Leaves, no_leaves};
use crate::outputs::Outputs;
use bbm_page_map::{PageColumn, PageNumber};
use bbm_place_map::PlaceMap;
use bbm_regimes::{NoMemory, Page};
use bbm_tree_index::{TreeIndex, lesser_page};
use std::alloc::Global;

/// Of each tracked page whether it is free, so that no held leaf of stage 2 maps it, and where the outputs of its
/// leaves lie.
#[derive(Drop)]
pub struct Unmapped {
    /// What is kept of each page.
    pages: PageColumn<Leaves>,
    /// Bounds of the free pages.
    free: Outputs,
    /// Bounds of the outputs of all leaves.
    leaves: Outputs,
    ghost paged: { HasPages pages },
    ghost free_within: { (page : ℕ) → free_by pages page ≡ true → in_outputs free page ≡ true },
    ghost leaves_within: { (table page : ℕ) → may_by pages table page ≡ true → in_outputs leaves page ≡ true },
}

impl Unmapped {
    ghost use Rattle.std.specs.Prelude.{◌≡◌, ◌<◌, ◌↔◌, ◌==◌, ◌++◌, ◌∷◌, [], ℕ, true, false, not, ◌&&◌, Some, None, IsSome, OnOk};
    ghost use Rattle.std.specs.Prelude.{IfSome, is_some, length, nat_le, nat_lt, slice_get, if◌then◌else◌};
    ghost use Rattle.bbm_page_map.specs.PageLists.{number_in};
    ghost use Rattle.bbm_place_map.specs.Map.{pages_of};
    ghost use Rattle.bbm_tree_index.specs.HeldCores.{core_at};
    ghost use Rattle.bbm_tree_index.specs.Index as tree;
    ghost use Rattle.bbm_tree_index.specs.IndexAgreement.{SharesNumbers};
    ghost use Rattle.bbm_tree_index.specs.LeastPages.{LeastOf};
    ghost use Rattle.bbm_tree_index.specs.Outputs.{Grows, HeldOver};
    ghost use Rattle.bbm_unmapped.specs.InOutputs.{in_outputs};
    ghost use Rattle.bbm_unmapped.specs.Targets.{HeldUnder, IsHeldOver, IsUnder};
    ghost use Rattle.bbm_unmapped.specs.Unmapped.{IsNumberedBy, IsSame, SharesPages, free_in, has_room, known_in};
    ghost use Rattle.bbm_unmapped.specs.Unmapped.{may_map, pages_in};

    /// No page. It takes no memory yet.
    pub fn new(alloc: Global) -> Unmapped
        ensures pages { pages_in result ≡ [] }
        ensures free { (page : ℕ) → free_in result page ≡ false }
        ensures may { (table page : ℕ) → may_map result table page ≡ false }
    {
        Unmapped {
            pages: PageColumn::new(alloc),
            free: Outputs::NONE,
            leaves: Outputs::NONE,
        }
    }

    /// Makes room for one page more. `NoMemory` where there is none. All else stays.
    pub fn reserve(&mut self) -> Result<(), NoMemory>
        ensures room { OnOk result (has_room self.new ≡ true) }
        ensures same { IsSame self.old self.new }
    {
        self.pages.reserve()
    }

    /// What is kept of the page that has this number.
    #[inline(always)]
    fn leaves(&self, number: usize, page: Page) -> Leaves
        requires { slice_get (pages_in self.now) number ≡ Some page }
        ensures free { free_in self.now page ≡ result.free }
        ensures may { (p : ℕ) → may_map self.now page p ≡ in_outputs result.bounds p }
    {
        let _ = page;
        *self.pages.at(number).1
    }

    /// The number of the page, where it is free.
    #[inline(always)]
    fn free_number(&self, map: &PlaceMap, page: Page) -> Option<usize>
        requires { IsNumberedBy self.now map.now }
        ensures free { is_some result ≡ free_in self.now page }
        ensures at { IfSome result (λ number. slice_get (pages_in self.now) number ≡ Some page) }
    {
        let Some(known) = map.number(page) else {
            return None;
        };
        let number = known.get();
        if self.leaves(number, page).free {
            Some(number)
        } else {
            None
        }
    }

    /// Whether the page is free.
    #[inline(always)]
    fn is_free(&self, map: &PlaceMap, page: Page) -> bool
        requires { IsNumberedBy self.now map.now }
        ensures { result ≡ free_in self.now page }
    {
        self.free_number(map, page).is_some()
    }

    /// Keeps this of the page that has this number.
    #[inline(always)]
    fn put(&mut self, number: usize, page: Page, leaves: Leaves)
        requires at { slice_get (pages_in self.old) number ≡ Some page }
        requires free { leaves.free ≡ true → in_outputs self.old.free page ≡ true }
        requires leaves { (p : ℕ) → in_outputs leaves.bounds p ≡ true → in_outputs self.old.leaves p ≡ true }
        ensures pages { pages_in self.new ≡ pages_in self.old }
        ensures free { (p : ℕ) → free_in self.new p ≡ (if p == page then leaves.free else free_in self.old p) }
        ensures may { (table p : ℕ) → may_map self.new table p
            ≡ (if table == page then in_outputs leaves.bounds p else may_map self.old table p) }
    {
        let _ = page;
        self.pages.put(number, leaves);
    }

    /// The page that has this number is free or not.
    #[inline(always)]
    fn set_free(&mut self, number: usize, page: Page, free: bool)
        requires { slice_get (pages_in self.old) number ≡ Some page }
        ensures pages { pages_in self.new ≡ pages_in self.old }
        ensures free { (p : ℕ) → free_in self.new p ≡ (if p == page then free else free_in self.old p) }
        ensures may { (table p : ℕ) → may_map self.new table p ≡ may_map self.old table p }
    {
        let bounds = self.leaves(number, page).bounds;
        if free {
            self.free = self.free.joined(&Outputs::of_page(page));
        }
        self.put(number, page, Leaves { free, bounds });
    }

    /// The outputs of a leaf of the page that has this number lie within the bounds.
    #[inline(always)]
    fn widen(&mut self, number: usize, page: Page, outputs: &Outputs)
        requires { slice_get (pages_in self.old) number ≡ Some page }
        ensures pages { pages_in self.new ≡ pages_in self.old }
        ensures free { (p : ℕ) → free_in self.new p ≡ free_in self.old p }
        ensures grows { Grows (may_map self.old) (may_map self.new) }
        ensures own { (p : ℕ) → in_outputs outputs.now p ≡ true → may_map self.new page p ≡ true }
    {
        let Leaves { free, bounds } = self.leaves(number, page);
        if bounds.covers(outputs) {
            return;
        }
        let bounds = bounds.joined(outputs);
        self.leaves = self.leaves.joined(&bounds);
        self.put(number, page, Leaves { free, bounds });
    }

    /// The number of a tracked page. One that is new comes last: it isn't free, and has no leaf.
    fn add(&mut self, map: &PlaceMap, page: Page) -> PageNumber
        requires room { has_room self.old ≡ true }
        requires pages { pages_of map.now
            ≡ (if known_in self.old page then pages_in self.old else pages_in self.old ++ page ∷ []) }
        ensures number { number_in (pages_of map.now) page ≡ Some result }
        ensures pages { pages_in self.new ≡ pages_of map.now }
        ensures free { (p : ℕ) → free_in self.new p ≡ free_in self.old p }
        ensures may { (table p : ℕ) → may_map self.new table p ≡ may_map self.old table p }
    {
        let number = map.number(page).unwrap();
        if number.get() >= self.pages.len() {
            self.pages.push(page, no_leaves());
        }
        number
    }

    /// Whether the page with this number is in a tree, and a place of it holds a leaf that maps another page.
    #[inline(always)]
    fn is_held_under(&self, index: &TreeIndex, map: &PlaceMap, number: usize, page: Page) -> bool
        requires within { number < length (pages_in self.now) }
        requires shares { SharesNumbers index.now map.now }
        requires pages { SharesPages self.now index.now }
        ensures { (result ≡ true) ↔ HeldUnder self.now index.now map.now page number }
    {
        let (table, leaves) = self.pages.at(number);
        if !leaves.bounds.has(page) {
            return false;
        }
        let (_, read) = index.standing(number);
        match read {
            Some(read) => holds_over(map, table, &read, page),
            None => false,
        }
    }

    /// Whether a place of a tree holds a leaf that maps the page.
    fn is_held_over(&self, index: &TreeIndex, map: &PlaceMap, page: Page) -> bool
        requires shares { SharesNumbers index.now map.now }
        requires pages { SharesPages self.now index.now }
        ensures { (result ≡ true) ↔ IsHeldOver self.now index.now map.now page }
    {
        if !self.leaves.has(page) {
            return false;
        }
        for number in 0..self.pages.len() {
            if self.is_held_under(index, map, number, page) {
                return true;
            }
        }
        false
    }

    /// The page was initialised just now; the index and the map track it. It is free where it was, or where no place of
    /// a tree holds a leaf that maps it.
    pub fn init(&mut self, index: &TreeIndex, map: &PlaceMap, page: Page)
        requires room { has_room self.old ≡ true }
        requires shares { SharesNumbers index.now map.now }
        requires pages { tree.pages_in index.now
            ≡ (if known_in self.old page then pages_in self.old else pages_in self.old ++ page ∷ []) }
        ensures pages { pages_in self.new ≡ tree.pages_in index.now }
        ensures others { (p : ℕ) → (p == page) ≡ false → free_in self.new p ≡ free_in self.old p }
        ensures kept { free_in self.old page ≡ true → free_in self.new page ≡ true }
        ensures found { free_in self.old page ≡ false
            → HeldOver (tree.node_in index.now) (core_at map.now) (may_map self.old) page
            → free_in self.new page ≡ false }
        ensures missed { free_in self.old page ≡ false
            → (HeldOver (tree.node_in index.now) (core_at map.now) (may_map self.old) page → ⊥)
            → free_in self.new page ≡ true }
        ensures bounds { (table p : ℕ) → may_map self.new table p ≡ may_map self.old table p }
    {
        let number = self.add(map, page);
        let number = number.get();
        if !self.leaves(number, page).free && !self.is_held_over(index, map, page) {
            self.set_free(number, page, true);
        }
    }

    /// The page with this number, where it is in a tree and among the outputs.
    #[inline(always)]
    fn table_at(&self, index: &TreeIndex, number: usize, outputs: &Outputs) -> Option<Page>
        requires within { number < length (pages_in self.now) }
        requires pages { SharesPages self.now index.now }
        ensures { LeastOf (λ page. (slice_get (pages_in self.now) number ≡ Some page)
            × IsUnder index.now outputs.now page) result }
    {
        let page = self.pages.at(number).0;
        if outputs.has(page) && index.standing(number).1.is_some() {
            Some(page)
        } else {
            None
        }
    }

    /// The least page of a tree among the outputs, of all pages.
    fn table_among(&self, index: &TreeIndex, outputs: &Outputs) -> Option<Page>
        requires { SharesPages self.now index.now }
        ensures { LeastOf (IsUnder index.now outputs.now) result }
    {
        let mut least = None;
        for number in 0..self.pages.len() {
            let found = self.table_at(index, number, outputs);
            least = lesser_page(least, found);
        }
        least
    }

    /// The least page of a tree among the outputs; None where there is none.
    #[inline(always)]
    fn table_under(&self, index: &TreeIndex, map: &PlaceMap, outputs: &Outputs) -> Option<Page>
        requires shares { SharesNumbers index.now map.now }
        requires pages { SharesPages self.now index.now }
        ensures { LeastOf (λ page. ((nat_le outputs.now.first page && nat_lt page outputs.now.behind) ≡ true)
            × (is_some (tree.node_in index.now page) ≡ true)) result }
    {
        match outputs.only_page() {
            Some(page) => {
                if index.is_in_tree(map, page) {
                    Some(page)
                } else {
                    None
                }
            }
            None => self.table_among(index, outputs),
        }
    }

    /// The page isn't free any more.
    #[inline(always)]
    fn cover_page(&mut self, map: &PlaceMap, page: Page)
        requires { IsNumberedBy self.old map.now }
        ensures pages { pages_in self.new ≡ pages_in self.old }
        ensures free { (p : ℕ) → free_in self.new p ≡ (free_in self.old p && not (p == page)) }
        ensures may { (table p : ℕ) → may_map self.new table p ≡ may_map self.old table p }
    {
        if let Some(number) = self.free_number(map, page) {
            self.set_free(number, page, false);
        }
    }

    /// The pages among the outputs aren't free any more.
    fn cover_among(&mut self, outputs: &Outputs)
        ensures pages { pages_in self.new ≡ pages_in self.old }
        ensures free { (p : ℕ) → free_in self.new p ≡ (free_in self.old p && not (in_outputs outputs.now p)) }
        ensures may { (table p : ℕ) → may_map self.new table p ≡ may_map self.old table p }
    {
        for number in 0..self.pages.len() {
            let page = self.pages.at(number).0;
            if outputs.has(page) {
                self.set_free(number, page, false);
            }
        }
    }

    /// A leaf with these outputs comes to be held at a place of the page, which has this number: the pages among the
    /// outputs are free no more.
    #[inline(always)]
    fn cover(&mut self, map: &PlaceMap, table: PageNumber, page: Page, outputs: &Outputs)
        requires numbers { IsNumberedBy self.old map.now }
        requires table { number_in (pages_in self.old) page ≡ Some table }
        ensures free { (p : ℕ) → free_in self.new p ≡ (free_in self.old p && not (in_outputs outputs.now p)) }
        ensures grows { Grows (may_map self.old) (may_map self.new) }
        ensures own { (p : ℕ) → in_outputs outputs.now p ≡ true → may_map self.new page p ≡ true }
        ensures pages { pages_in self.new ≡ pages_in self.old }
    {
        self.widen(table.get(), page, outputs);
        match outputs.only_page() {
            Some(only) => self.cover_page(map, only),
            None => self.cover_among(outputs),
        }
    }

    /// The page isn't free any more, where it is in no tree; else the page.
    #[inline(always)]
    fn take_page(&mut self, index: &TreeIndex, map: &PlaceMap, page: Page) -> Option<Page>
        requires shares { SharesNumbers index.now map.now }
        requires pages { SharesPages self.old index.now }
        requires free { (p : ℕ) → is_some (tree.node_in index.now p) ≡ true → free_in self.old p ≡ true }
        ensures least { LeastOf (λ p. (p ≡ page) × (is_some (tree.node_in index.now p) ≡ true)) result }
        ensures refused { IsSome result → self.new ≡ self.old }
        ensures pages { pages_in self.new ≡ pages_in self.old }
        ensures free { result ≡ None → (p : ℕ) → free_in self.new p ≡ (free_in self.old p && not (p == page)) }
        ensures may { (table p : ℕ) → may_map self.new table p ≡ may_map self.old table p }
    {
        let Some(number) = self.free_number(map, page) else {
            return None;
        };
        if index.standing(number).1.is_some() {
            return Some(page);
        }
        self.set_free(number, page, false);
        None
    }

    /// The pages among the outputs aren't free any more, where none of them is in a tree; else the least that is.
    fn take_among(&mut self, index: &TreeIndex, outputs: &Outputs) -> Option<Page>
        requires { SharesPages self.old index.now }
        ensures least { LeastOf (IsUnder index.now outputs.now) result }
        ensures refused { IsSome result → self.new ≡ self.old }
        ensures pages { pages_in self.new ≡ pages_in self.old }
        ensures free { result ≡ None
            → (p : ℕ) → free_in self.new p ≡ (free_in self.old p && not (in_outputs outputs.now p)) }
        ensures may { (table p : ℕ) → may_map self.new table p ≡ may_map self.old table p }
    {
        let found = self.table_among(index, outputs);
        if found.is_some() {
            return found;
        }
        self.cover_among(outputs);
        None
    }

    /// The pages among the outputs aren't free any more, where none of them is in a tree; else the least that is. Most
    /// outputs have no free page, which is told by few steps.
    #[inline(always)]
    fn take(&mut self, index: &TreeIndex, map: &PlaceMap, outputs: &Outputs) -> Option<Page>
        requires shares { SharesNumbers index.now map.now }
        requires pages { SharesPages self.old index.now }
        requires free { (p : ℕ) → is_some (tree.node_in index.now p) ≡ true → free_in self.old p ≡ true }
        ensures least { LeastOf (IsUnder index.now outputs.now) result }
        ensures refused { IsSome result → self.new ≡ self.old }
        ensures pages { pages_in self.new ≡ pages_in self.old }
        ensures free { result ≡ None
            → (p : ℕ) → free_in self.new p ≡ (free_in self.old p && not (in_outputs outputs.now p)) }
        ensures may { (table p : ℕ) → may_map self.new table p ≡ may_map self.old table p }
    {
        if self.free.is_apart(outputs) {
            return None;
        }
        match outputs.only_page() {
            Some(page) => self.take_page(index, map, page),
            None => self.take_among(index, outputs),
        }
    }

    /// A leaf with these outputs comes to be held at a place of the page, which has this number, where no page of a tree is
    /// among the outputs: they are free no more. Else the least page of a tree among them, and nothing changes. Each page
    /// of a tree is free.
    #[inline(always)]
    pub fn put_leaf(
        &mut self,
        index: &TreeIndex,
        map: &PlaceMap,
        table: PageNumber,
        page: Page,
        outputs: &Outputs,
    ) -> Option<Page>
        requires shares { SharesNumbers index.now map.now }
        requires pages { SharesPages self.old index.now }
        requires table { number_in (pages_in self.old) page ≡ Some table }
        requires free { (p : ℕ) → is_some (tree.node_in index.now p) ≡ true → free_in self.old p ≡ true }
        ensures least { LeastOf (λ p. ((nat_le outputs.now.first p && nat_lt p outputs.now.behind) ≡ true)
            × (is_some (tree.node_in index.now p) ≡ true)) result }
        ensures refused { IsSome result → self.new ≡ self.old }
        ensures pages { pages_in self.new ≡ pages_in self.old }
        ensures free { result ≡ None
            → (p : ℕ) → free_in self.new p ≡ (free_in self.old p && not (in_outputs outputs.now p)) }
        ensures grows { Grows (may_map self.old) (may_map self.new) }
        ensures own { result ≡ None → (p : ℕ) → in_outputs outputs.now p ≡ true → may_map self.new page p ≡ true }
    {
        let met = self.take(index, map, outputs);
        if met.is_some() {
            return met;
        }
        self.widen(table.get(), page, outputs);
        None
    }
}
