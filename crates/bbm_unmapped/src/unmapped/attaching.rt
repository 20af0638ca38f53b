//! Pages that are attached: what keeps them from it, and what their leaves map.

ghost use Rattle.std.specs.Prelude.{◌≡◌, ℕ, Some, true, false};
ghost use Rattle.bbm_page_map.specs.PageLists.{number_in};
ghost use Rattle.bbm_place_map.specs.Map.{value_at};
ghost use Rattle.bbm_rules.specs.Mapped.{maps};
ghost use Rattle.bbm_tree_index.specs.Index as tree;
ghost use Rattle.bbm_tree_index.specs.IndexAgreement.{SharesNumbers};
ghost use Rattle.bbm_tree_index.specs.LeastPages.{LeastOf};
ghost use Rattle.bbm_tree_index.specs.Outputs.{BadTable, CoversAttached, HasListed};
ghost use Rattle.bbm_unmapped.specs.Covering.{Covers};
ghost use Rattle.bbm_unmapped.specs.InOutputs.{in_outputs};
ghost use Rattle.bbm_unmapped.specs.Targets.{IsFreeUnder, IsListed, IsOver, IsTarget, IsUnclean, LeafOver};
ghost use Rattle.bbm_unmapped.specs.Unmapped.{IsNumberedBy, SharesPages, free_in, may_map, pages_in};

use crate::outputs::{Outputs, is_stage2, outputs_of};
use crate::unmapped::Unmapped;
use bbm_descriptor::core;
use bbm_page_map::PageNumber;
use bbm_place_map::PlaceMap;
use bbm_regimes::{PLACES, Page};
use bbm_tree_index::{AttachedPage, Standing, TreeIndex, lesser_page};

impl Unmapped {
    /// The listed page, where it isn't free.
    fn unclean_at(&self, map: &PlaceMap, listed: &AttachedPage) -> Option<Page>
        requires { IsNumberedBy self.now map.now }
        ensures { LeastOf (λ page. (free_in self.now page ≡ false) × (listed.now.page ≡ page)) result }
    {
        if self.is_free(map, listed.page) {
            None
        } else {
            Some(listed.page)
        }
    }

    /// The least listed page that isn't free.
    fn least_unclean(&self, map: &PlaceMap, pages: &[AttachedPage]) -> Option<Page>
        requires { IsNumberedBy self.now map.now }
        ensures { LeastOf (IsUnclean self.now pages.now) result }
    {
        let mut least = None;
        for listed in pages {
            let found = self.unclean_at(map, listed);
            least = lesser_page(least, found);
        }
        least
    }

    /// Whether a free page may be among the outputs.
    #[inline(always)]
    fn may_have_free(&self, map: &PlaceMap, outputs: &Outputs) -> bool
        requires { IsNumberedBy self.now map.now }
        ensures { result ≡ false → (page : ℕ) → in_outputs outputs.now page ≡ true → free_in self.now page ≡ false }
    {
        match outputs.only_page() {
            Some(page) => self.is_free(map, page),
            None => true,
        }
    }

    /// The listed page, where it is free and among the outputs.
    fn listed_at(&self, map: &PlaceMap, listed: &AttachedPage, outputs: &Outputs) -> Option<Page>
        requires { IsNumberedBy self.now map.now }
        ensures { LeastOf (λ page. IsFreeUnder self.now outputs.now page × (listed.now.page ≡ page)) result }
    {
        if outputs.has(listed.page) && self.is_free(map, listed.page) {
            Some(listed.page)
        } else {
            None
        }
    }

    /// The least free listed page among the outputs. The outputs of most leaves have no free page, so the list is
    /// seldom searched.
    fn listed_under(
        &self,
        map: &PlaceMap,
        pages: &[AttachedPage],
        outputs: &Outputs,
    ) -> Option<Page>
        requires { IsNumberedBy self.now map.now }
        ensures { LeastOf (λ page. IsFreeUnder self.now outputs.now page × IsListed pages.now page) result }
    {
        if !self.may_have_free(map, outputs) {
            return None;
        }
        let mut least = None;
        for listed in pages {
            let found = self.listed_at(map, listed, outputs);
            least = lesser_page(least, found);
        }
        least
    }

    /// The least page that is in a tree, or listed and free, and that a leaf of this value maps.
    fn target_under(
        &self,
        index: &TreeIndex,
        map: &PlaceMap,
        pages: &[AttachedPage],
        read: &Standing,
        value: u64,
    ) -> Option<Page>
        requires shares { SharesNumbers index.now map.now }
        requires pages { SharesPages self.now index.now }
        ensures { LeastOf (λ page. (maps read.now.kind read.now.level value page ≡ true)
            × IsTarget self.now pages.now index.now page) result }
    {
        let outputs = outputs_of(read.kind, read.level, &core(read.kind, read.level, value));
        let Some(outputs) = outputs else {
            return None;
        };
        let table = self.table_under(index, map, &outputs);
        let listed = self.listed_under(map, pages, &outputs);
        lesser_page(table, listed)
    }

    /// The least page that is in a tree, or listed and free, and that a leaf of this page maps.
    fn target_below(
        &self,
        index: &TreeIndex,
        map: &PlaceMap,
        pages: &[AttachedPage],
        listed: &AttachedPage,
    ) -> Option<Page>
        requires shares { SharesNumbers index.now map.now }
        requires pages { SharesPages self.now index.now }
        ensures { LeastOf (λ page. LeafOver map.now listed.now page
            × IsTarget self.now pages.now index.now page) result }
    {
        let read = &listed.standing;
        if !is_stage2(read.kind) || map.is_blank(listed.page) {
            return None;
        }
        let position = map.first_position(listed.page);
        let mut least = None;
        for place in 0..PLACES {
            let value = map.value_from(&position, place);
            let found = self.target_under(index, map, pages, read, value);
            least = lesser_page(least, found);
        }
        least
    }

    /// The least page that is in a tree, or listed and free, and that a leaf of a listed page maps.
    fn least_target(
        &self,
        index: &TreeIndex,
        map: &PlaceMap,
        pages: &[AttachedPage],
    ) -> Option<Page>
        requires shares { SharesNumbers index.now map.now }
        requires pages { SharesPages self.now index.now }
        ensures { LeastOf (λ page. IsOver map.now pages.now page × IsTarget self.now pages.now index.now page) result }
    {
        let mut least = None;
        for listed in pages {
            let found = self.target_below(index, map, pages, listed);
            least = lesser_page(least, found);
        }
        least
    }

    /// The least page that keeps these pages from being attached under the rule on table pages: one of them that isn't
    /// free, or one of a tree or of them that a leaf of theirs maps. None where there is none.
    pub fn bad_table(
        &self,
        index: &TreeIndex,
        map: &PlaceMap,
        pages: &[AttachedPage],
    ) -> Option<Page>
        requires shares { SharesNumbers index.now map.now }
        requires pages { SharesPages self.now index.now }
        ensures { LeastOf (BadTable (HasListed pages.now) (value_at map.now) (free_in self.now)
            (tree.node_in index.now)) result }
    {
        let unclean = self.least_unclean(map, pages);
        let target = self.least_target(index, map, pages);
        lesser_page(unclean, target)
    }

    /// A place of the page, which has this number and is read like this, has the value.
    fn cover_value(
        &mut self,
        map: &PlaceMap,
        number: PageNumber,
        page: Page,
        read: &Standing,
        value: u64,
    )
        requires numbers { IsNumberedBy self.old map.now }
        requires table { number_in (pages_in self.old) page ≡ Some number }
        ensures { Covers (λ table p. (table ≡ page) × (maps read.now.kind read.now.level value p ≡ true))
            self.old self.new }
    {
        let outputs = outputs_of(read.kind, read.level, &core(read.kind, read.level, value));
        if let Some(outputs) = outputs {
            self.cover(map, number, page, &outputs);
        }
    }

    /// A page is attached.
    fn cover_listed(&mut self, map: &PlaceMap, listed: &AttachedPage)
        requires { IsNumberedBy self.old map.now }
        ensures { Covers (λ table p. (table ≡ listed.now.page) × LeafOver map.now listed.now p) self.old self.new }
    {
        let read = &listed.standing;
        if !is_stage2(read.kind) || map.is_blank(listed.page) {
            return;
        }
        let position = map.first_position(listed.page);
        for place in 0..PLACES {
            let value = map.value_from(&position, place);
            self.cover_value(map, position.page, listed.page, read, value);
        }
    }

    /// These pages are attached: the pages that their leaves map are free no more.
    pub fn cover_attached(&mut self, map: &PlaceMap, pages: &[AttachedPage])
        requires numbers { IsNumberedBy self.old map.now }
        ensures covers { CoversAttached (HasListed pages.now) (value_at map.now) (free_in self.old) (free_in self.new)
            (may_map self.old) (may_map self.new) }
        ensures pages { pages_in self.new ≡ pages_in self.old }
    {
        for listed in pages {
            self.cover_listed(map, listed);
        }
    }
}
