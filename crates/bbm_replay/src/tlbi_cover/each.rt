//! Each broken place is asked whether a TLBI covers it.

ghost use Rattle.std.specs.Prelude.{◌<◌, ◌≤◌, ℕ, IfOk, OnOk};
ghost use Rattle.bbm_place_map.specs.Map.{restless_in, restless_place};
ghost use Rattle.bbm_replay.specs.Covering.{Grows, IsBrokenOver, IsPathOf, IsSettled};
ghost use Rattle.bbm_replay.specs.OnePage.{FitTogether};
ghost use Rattle.bbm_replay.specs.declared.tlbi_cover.TheConstants.{ONE_BY_ONE};

use crate::tlbi_cover::Covering;
use bbm_descriptor::Core;
use bbm_place_map::{Found, PlaceMap};
use bbm_regimes::NoMemory;
use bbm_tlbi_scope::Cover;
use bbm_tree_index::Path;
use smallvec::SmallVec;

impl Covering<'_> {
    /// Adds the broken place with this number, which has this path, with its cover, where the TLBI covers it. The core
    /// that it is broken over; `NoMemory` where there is none.
    #[inline(always)]
    pub(crate) fn add_broken(
        &self,
        map: &PlaceMap,
        number: u32,
        path: &Path,
        found: &mut SmallVec<Found, 4>,
    ) -> Result<Core, NoMemory>
        requires within { number < restless_in map.now }
        requires path { IsPathOf self.now.index.now (restless_place map.now number) path.now }
        ensures core { IfOk result (λ core. IsBrokenOver map.now (restless_place map.now number) core) }
        ensures grows { OnOk result (Grows map.now self.now found.old.items found.new.items) }
        ensures settled { OnOk result
            (IsSettled map.now self.now found.new.items (restless_place map.now number)) }
    {
        let place = map.restless_at(number as u64);
        let core = map.restless_core(number as u64);
        let cover = self.cover_of(map, place, path, &core);
        match cover {
            Cover::None => Ok(core),
            _ => {
                found.push(Found {
                    place,
                    cover,
                    hint: number,
                })?;
                Ok(core)
            }
        }
    }

    /// Adds the broken place with this number, with its cover, where the TLBI covers it. `NoMemory` where there is
    /// none.
    #[inline(always)]
    fn add_numbered(
        &self,
        map: &PlaceMap,
        number: u32,
        found: &mut SmallVec<Found, 4>,
    ) -> Result<(), NoMemory>
        requires fits { FitTogether map.now self.now.index.now }
        requires within { number < restless_in map.now }
        ensures grows { OnOk result (Grows map.now self.now found.old.items found.new.items) }
        ensures settled { OnOk result
            (IsSettled map.now self.now found.new.items (restless_place map.now number)) }
    {
        let place = map.restless_at(number as u64);
        match self.path_of(map, number as u64, place) {
            Some(path) => {
                self.add_broken(map, number, &path, found)?;
                Ok(())
            }
            None => Ok(()),
        }
    }

    /// Adds each broken place that the TLBI covers, with its cover. `NoMemory` where there is none.
    pub(crate) fn add_each(
        &self,
        map: &PlaceMap,
        found: &mut SmallVec<Found, 4>,
    ) -> Result<(), NoMemory>
        requires fits { FitTogether map.now self.now.index.now }
        requires count { restless_in map.now ≤ ONE_BY_ONE }
        ensures grows { OnOk result (Grows map.now self.now found.old.items found.new.items) }
        ensures settled { OnOk result ((a : ℕ) → IsSettled map.now self.now found.new.items a) }
    {
        for i in 0..map.restless() {
            self.add_numbered(map, i as u32, found)?;
        }
        Ok(())
    }
}
