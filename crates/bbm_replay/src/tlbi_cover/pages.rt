//! The broken places of one page after another are asked how far a TLBI covers them.

ghost use Rattle.std.specs.Prelude.{◌≡◌, ◌<◌, length, ℕ, true, false, OnOk, []};
ghost use Rattle.bbm_place_map.specs.Map.{restless_in, restless_place};
ghost use Rattle.bbm_replay.specs.Covering.{CoverEach, CoversAlike, IsCovered, IsNoted};
ghost use Rattle.bbm_replay.specs.OnePage.{FitTogether};
ghost use Rattle.bbm_rules.specs.Tree.{Node};
ghost use Rattle.bbm_tlbi_scope.specs.Numbers.{names_some as spec_names_some};
ghost use Rattle.bbm_tree_index.specs.Nodes.{path_at};

use crate::tlbi_cover::Covering;
use bbm_place_map::{Answer, PlaceMap};
use bbm_regimes::{NoMemory, PLACES, Page, Pe, PeMask, Place};
use bbm_rules::law_notes_keep_the_events;
use bbm_tlbi_scope::{Cover, Scope};
use bbm_tree_index::Path;
use smallvec::SmallVec;
use std::alloc::Global;

/// How far a TLBI covers each broken place of a page. Source: project's own choice.
#[derive(Clone, Copy)]
pub(crate) struct PageCover {
    /// The page.
    page: Page,
    /// How far each of them is covered.
    cover: Cover,
}

/// Whether the scope names none of the input pages that places of a page translate, one of which is this place, with
/// this path; false says nothing.
fn names_none(scope: &Scope, place: Place, path: &Path) -> bool
    requires { (n : Node) × (path.now ≡ path_at n place) }
    ensures { result ≡ true → (n : Node) → path.now ≡ path_at n place → (a : ℕ)
        → spec_names_some scope.now.interval (path_at n a).region ≡ false }
{
    let Some(named) = scope.interval else {
        return true;
    };
    let region = path.region;
    let width = region.hi - region.lo + 1;
    let start = region.lo - place.index() as u64 * width;
    if named.lo < start {
        named.hi < start
    } else {
        (named.lo - start) / PLACES >= width
    }
}

impl Covering<'_> {
    /// How far the TLBI covers the broken place with this number; and its page, where each broken place of that is
    /// known to be covered so far.
    fn cover_page(&self, map: &PlaceMap, i: u64) -> (Cover, Option<PageCover>)
        requires fits { FitTogether map.now self.now.index.now }
        requires within { i < restless_in map.now }
        ensures here { IsCovered map.now self.now result.0 (restless_place map.now i) }
        ensures alike { CoversAlike map.now self.now result.1 }
    {
        law_notes_keep_the_events();
        let place = map.restless_at(i);
        let page = place.page();
        let Some(path) = self.path_of(map, i, place) else {
            return (Cover::None, None);
        };
        let cover = self.cover_of(map, place, &path, &map.restless_core(i));
        let scope = &self.named.scope;
        if !scope.family.has_page() {
            return (cover, Some(PageCover { page, cover }));
        }
        match cover {
            Cover::None => {
                if names_none(scope, place, &path) {
                    return (cover, Some(PageCover { page, cover }));
                }
                (cover, None)
            }
            _ => (cover, None),
        }
    }

    /// How far the TLBI covers the broken place with this number; a place of the page of which it is known isn't asked.
    /// `alike` tells then of which page it is known.
    #[inline(always)]
    fn cover_next(&self, map: &PlaceMap, i: u64, alike: &mut Option<PageCover>) -> Cover
        requires fits { FitTogether map.now self.now.index.now }
        requires within { i < restless_in map.now }
        requires alike { CoversAlike map.now self.now alike.old }
        ensures here { IsCovered map.now self.now result (restless_place map.now i) }
        ensures alike { CoversAlike map.now self.now alike.new }
    {
        let page = map.restless_at(i).page();
        if let Some(known) = alike {
            if known.page.get() == page.get() {
                return known.cover;
            }
        }
        let (cover, next) = self.cover_page(map, i);
        *alike = next;
        cover
    }

    /// Adds how far the TLBI covers each of the broken places, in the order of their numbers. Those of a page that it
    /// covers alike are asked once where they follow one another. `NoMemory` where there is none.
    fn covers(&self, map: &PlaceMap, covers: &mut SmallVec<Answer, 8>) -> Result<(), NoMemory>
        requires fits { FitTogether map.now self.now.index.now }
        requires empty { covers.old.items ≡ [] }
        ensures len { OnOk result (length covers.new.items ≡ restless_in map.now) }
        ensures each { OnOk result (CoverEach map.now self.now covers.new.items) }
    {
        let mut alike = None;
        for i in 0..map.restless() {
            let cover = self.cover_next(map, i, &mut alike);
            covers.push(Answer::new(cover))?;
        }
        Ok(())
    }

    /// The issue of a TLBI, which reaches these PEs: it is noted at each broken place that it covers, as far as it
    /// does. Those of one page after another are asked. `NoMemory` where there is none, and nothing changes then.
    #[inline(never)]
    pub(crate) fn issue_by_pages(
        &self,
        alloc: Global,
        map: &mut PlaceMap,
        pe: Pe,
        reach: PeMask,
    ) -> Result<(), NoMemory>
        requires { FitTogether map.old self.now.index.now }
        ensures { IsNoted self.now pe reach map.old map.new result }
    {
        let mut covers = SmallVec::new(alloc);
        self.covers(map, &mut covers)?;
        map.issue_all(pe, reach, self.named.scope.broadcast, &covers)
    }
}
