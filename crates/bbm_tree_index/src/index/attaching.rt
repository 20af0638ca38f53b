//! What can be attached to the trees, by a survey of it, and its attachment.

ghost use Rattle.std.specs.Prelude.{◌≡◌, Contains, nat_eq, IfOk, IfErr};
ghost use Rattle.indexmap.specs.IndexMap.{get};
ghost use Rattle.bbm_rules.specs.Tree.{Node};
ghost use Rattle.bbm_place_map.specs.Map.{value_at};
ghost use Rattle.bbm_tree_index.specs.Attaching.{Judges, MayJudge, names_pages};
ghost use Rattle.bbm_tree_index.specs.Index.{SameTracked, heading_of, fresh_in};
ghost use Rattle.bbm_tree_index.specs.IndexAgreement.{SharesNumbers};
ghost use Rattle.bbm_tree_index.specs.IndexChanges.{Attaches};
ghost use Rattle.bbm_tree_index.specs.LeastPages.{IsSurvey};
ghost use Rattle.bbm_tree_index.specs.Outputs.{Lists};
ghost use Rattle.bbm_tree_index.specs.Paths.{Attached, starts_of};
ghost use Rattle.bbm_tree_index.specs.Prepared.{AreNamedFresh, IsPrepared};
ghost use Rattle.bbm_tree_index.specs.Survey.{Starting, Well};
ghost use Rattle.bbm_tree_index.specs.declared.role.Attach.{Attach as TheAttach};

use crate::attach_prepared::attach_all;
use crate::fault::TreeFault;
use crate::index::{Prepared, TreeIndex};
use crate::judge::{is_named, judge_tables};
use crate::listing::list_levels;
use crate::mark::Mark;
use crate::role::Attach;
use crate::standing::AttachedPage;
use crate::start::{start_below, start_root};
use crate::survey::survey;
use bbm_place_map::PlaceMap;
use bbm_regimes::{Kind, Level, NoMemory};
use indexmap::IndexMap;
use std::alloc::Global;

impl TreeIndex {
    /// The kind and the level at which the paths of what is attached begin.
    fn begin(&self, map: &PlaceMap, at: &Attach) -> (Kind, Level)
        requires same { SharesNumbers self.now map.now }
        requires may { MayJudge self.now at.now }
        ensures same { (s : Node) → Contains (starts_of self.now at.now) s → (s.kind ≡ result.0)
            × (s.level ≡ result.1) }
        ensures some { (s : Node) × Contains (starts_of self.now at.now) s }
    {
        self.header.in_ranges();
        match *at {
            Attach::Root { kind, first: _ } => (kind, self.header.start_level(kind)),
            Attach::Below { place, next: _ } => match self.spot(
                place.page(),
                &self.role(map, place.page()),
            ) {
                Some(spot) => (spot.kind, spot.level.below().unwrap()),
                None => (Kind::El2, Level::THREE),
            },
        }
    }

    /// The table of the pages at which the paths of what is attached begin.
    fn start(
        &self,
        alloc: Global,
        map: &PlaceMap,
        at: &Attach,
    ) -> Result<IndexMap<u64, Mark>, NoMemory>
        requires same { SharesNumbers self.now map.now }
        requires may { MayJudge self.now at.now }
        ensures well { IfOk result (λ table. Well (heading_of self.now) (get nat_eq table)) }
        ensures start { IfOk result
            (λ table. Starting (heading_of self.now) (get nat_eq table) (starts_of self.now at.now)) }
    {
        self.header.in_ranges();
        match *at {
            Attach::Root { kind, first } => {
                start_root(alloc, kind, first, self.header.page_count(kind))
            }
            Attach::Below { place, next } => match self.spot(
                place.page(),
                &self.role(map, place.page()),
            ) {
                Some(spot) => start_below(alloc, &spot, place, next),
                None => Ok(IndexMap::new(alloc)),
            },
        }
    }

    /// The pages that would be attached, a table for each level from the one at which the paths begin.
    fn survey(
        &self,
        alloc: Global,
        map: &PlaceMap,
        at: &Attach,
    ) -> Result<Vec<IndexMap<u64, Mark>>, TreeFault>
        requires same { SharesNumbers self.now map.now }
        requires may { MayJudge self.now at.now }
        ensures tables { IfOk result (λ tables. IsSurvey tables.items self.now map.now at.now) }
        ensures fault { IfErr result (λ fault. fault ≡ TreeFault.NoMemory) }
    {
        let (_, level) = self.begin(map, at);
        let first = self.start(alloc, map, at)?;
        let tables = survey(
            alloc,
            &self.header,
            &self.roles(map),
            map,
            first,
            3 - level.get(),
        )?;
        Ok(tables)
    }

    /// Judges what is attached by its survey.
    fn judge_survey(
        &self,
        map: &PlaceMap,
        at: &Attach,
        tables: &[IndexMap<u64, Mark>],
    ) -> Result<(), TreeFault>
        requires same { SharesNumbers self.now map.now }
        requires may { MayJudge self.now at.now }
        requires survey { IsSurvey tables.now self.now map.now at.now }
        ensures { Judges (fresh_in self.now) (value_at map.now) (starts_of self.now at.now)
            (names_pages at.now) result }
    {
        let (kind, level) = self.begin(map, at);
        judge_tables(&self.roles(map), map, tables, is_named(at), kind, level)
    }

    /// Whether these pages can be attached: `NotFresh` with the least page exactly where a path of the attached pages
    /// ends in a page that isn't fresh, where the named pages of a root don't count, or two different paths end in one
    /// page; else `BadKind` with the least place exactly where an attached page has a leaf with the Contiguous hint;
    /// else `GlobalUser` with the least place exactly where, in a tree of the lower range, it has a leaf for every
    /// ASID. Or `NoMemory` where there is none. It takes time by the number of pages, not of paths. After Ok, what
    /// `attach_prepared` attaches.
    pub fn prepare(&self, alloc: Global, map: &PlaceMap, at: Attach) -> Result<Prepared, TreeFault>
        requires same { SharesNumbers self.now map.now }
        requires may { MayJudge self.now at }
        ensures judged { Judges (fresh_in self.now) (value_at map.now) (starts_of self.now at) (names_pages at) result }
        ensures prepared { IfOk result (λ prepared. IsPrepared prepared self.now map.now at) }
    {
        let tables = self.survey(alloc, map, &at)?;
        self.judge_survey(map, &at, &tables)?;
        Ok(Prepared { tables })
    }

    /// The pages that `attach_prepared` attaches, each with the kind and the level at which it is read. `NoMemory`
    /// where there is none.
    pub fn attached_pages(
        &self,
        alloc: Global,
        map: &PlaceMap,
        prepared: &Prepared,
    ) -> Result<Vec<AttachedPage>, NoMemory>
        requires same { SharesNumbers self.now map.now }
        requires prepared { (at : TheAttach) × IsPrepared prepared.now self.now map.now at × AreNamedFresh self.now at }
        ensures { IfOk result (λ pages. (at : TheAttach) → IsPrepared prepared.now self.now map.now at
            → AreNamedFresh self.now at
            → Lists (Attached (fresh_in self.now) (value_at map.now) (starts_of self.now at)) pages.items) }
    {
        let _ = map;
        list_levels(alloc, &self.header, &prepared.tables)
    }

    /// Attaches pages that can be, as `prepare` found them in this index: those named, and all that paths through fresh
    /// pages reach from them. Named pages of a root are fresh.
    pub fn attach_prepared(&mut self, map: &PlaceMap, prepared: &Prepared)
        requires same { SharesNumbers self.old map.now }
        requires prepared { (at : TheAttach) × IsPrepared prepared.now self.old map.now at × AreNamedFresh self.old at }
        ensures attached { (at : TheAttach) → IsPrepared prepared.now self.old map.now at
            → AreNamedFresh self.old at → Attaches (value_at map.now) at self.old self.new }
        ensures tracked { SameTracked self.old self.new }
    {
        attach_all(&mut self.roles, map, &prepared.tables);
    }
}
