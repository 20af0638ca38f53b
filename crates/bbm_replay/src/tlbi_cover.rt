//! Which broken places a TLBI covers, and how far, and that it is noted there.

mod each;
mod pages;
mod place;
mod way_down;

ghost use Rattle.std.specs.Prelude.{◌≡◌, ◌<◌, ◌&&◌, ◌||◌, not, nat_eq, ℕ, true, IfOk, OnOk};
ghost use Rattle.std.specs.Option.{option_map};
ghost use Rattle.bbm_place_map.specs.Map.{restless_in, restless_place};
ghost use Rattle.bbm_regimes.specs.PeMask.{pe_in};
ghost use Rattle.bbm_rules.specs.Places.{page_of};
ghost use Rattle.bbm_tree_index.specs.Index.{node_in};
ghost use Rattle.bbm_tree_index.specs.Nodes.{path_at};
ghost use Rattle.bbm_replay.specs.Covering.{Grows, IsNoted, IsSettled};
ghost use Rattle.bbm_replay.specs.OnePage.{FitTogether, FitsSearch};

use crate::laws::laws;
use bbm_events::Header;
use bbm_place_map::{Found, PlaceMap};
use bbm_regimes::{NoMemory, Pe, PeMask, Place};
use bbm_replay_trees::starts::law_starts;
use bbm_roots::{NamedTlbi, Roots};
use bbm_rules::law_notes_keep_the_events;
use bbm_tree_index::{Path, TreeIndex};
use smallvec::SmallVec;
use std::alloc::Global;

/// So many broken places, at most, each TLBI asks one by one. Source: project's own choice.
pub(crate) const ONE_BY_ONE: u64 = 8;

/// What decides, beside the map of places, how far a TLBI covers a place. Source: project's own choice.
#[derive(Clone, Copy)]
pub(crate) struct Covering<'a> {
    /// The header of the log.
    pub(crate) header: &'a Header,
    /// What each page is used for.
    pub(crate) index: &'a TreeIndex,
    /// The roots, and the tags that they hold.
    pub(crate) roots: &'a Roots,
    /// What the TLBI names.
    pub(crate) named: &'a NamedTlbi,
}

/// Where a TLBI looks for the broken places that it covers. Source: project's own choice.
#[derive(Clone, Copy)]
pub(crate) enum Search {
    /// At each broken place, one by one.
    Each,
    /// On the way down to this input page, the only one that it names.
    WayTo(u64),
    /// At the broken places of one page after another.
    Pages,
}

impl Covering<'_> {
    /// The PEs that the TLBI reaches, where this PE issues it.
    pub(crate) fn reach(&self, pe: Pe) -> PeMask
        ensures { (p : ℕ) → p < self.now.header.now.pes
            → pe_in result p ≡ (self.now.named.now.scope.broadcast || (not self.now.header.now.cnp && nat_eq pe p)) }
    {
        let header = self.header;
        if self.named.scope.broadcast {
            PeMask::all(header.pe_count())
        } else if header.cnp {
            PeMask::none()
        } else {
            PeMask::one(pe)
        }
    }

    /// The path of the broken place with this number, which is this one; None where its page is in no tree.
    #[inline(always)]
    pub(crate) fn path_of(&self, map: &PlaceMap, number: u64, place: Place) -> Option<Path>
        requires fits { FitTogether map.now self.now.index.now }
        requires within { number < restless_in map.now }
        requires place { place ≡ restless_place map.now number }
        ensures { result ≡ option_map (λ n. path_at n place) (node_in self.now.index.now (page_of place)) }
    {
        let _ = place;
        self.index.path(&map.restless_position(number))
    }

    /// Where the TLBI looks for the broken places that it covers, of which there are so many: at each where they are
    /// few, then on the way down to the one page of a TLBI of one page, where that is less than to look at each.
    fn search(&self, broken: u64) -> Search
        ensures { FitsSearch self.now.named.now.scope broken result }
    {
        if broken <= ONE_BY_ONE {
            return Search::Each;
        }
        if broken <= self.roots.count() as u64 {
            return Search::Pages;
        }
        match self.named.scope.interval {
            Some(pages) => {
                if pages.lo == pages.hi && self.named.scope.family.has_page() {
                    Search::WayTo(pages.lo)
                } else {
                    Search::Pages
                }
            }
            None => Search::Pages,
        }
    }

    /// Adds broken places that the TLBI covers, each with its cover. After true it covers no other; after false it is
    /// to be asked of one page after another. `NoMemory` where there is none.
    fn find(&self, map: &PlaceMap, found: &mut SmallVec<Found, 4>) -> Result<bool, NoMemory>
        requires fits { FitTogether map.now self.now.index.now }
        ensures grows { OnOk result (Grows map.now self.now found.old.items found.new.items) }
        ensures settled { IfOk result (λ all. all ≡ true → (a : ℕ) → IsSettled map.now self.now found.new.items a) }
    {
        laws();
        law_notes_keep_the_events();
        law_starts();
        match self.search(map.restless()) {
            Search::Each => {
                self.add_each(map, found)?;
                Ok(true)
            }
            Search::WayTo(page) => {
                self.descend_all(map, page, found)?;
                Ok(true)
            }
            Search::Pages => Ok(false),
        }
    }

    /// The issue of a TLBI, which reaches these PEs: it is noted at each broken place that it covers, as far as it
    /// does. `NoMemory` where there is none, and nothing changes then.
    #[inline(always)]
    pub(crate) fn issue(
        &self,
        alloc: Global,
        map: &mut PlaceMap,
        pe: Pe,
        reach: PeMask,
    ) -> Result<(), NoMemory>
        requires fits { FitTogether map.old self.now.index.now }
        ensures { IsNoted self.now pe reach map.old map.new result }
    {
        if map.restless() == 0 {
            return Ok(());
        }
        let mut found = SmallVec::new(alloc);
        let all = self.find(map, &mut found)?;
        if !all {
            return self.issue_by_pages(alloc, map, pe, reach);
        }
        map.issue_at(pe, reach, self.named.scope.broadcast, &found)
    }
}
