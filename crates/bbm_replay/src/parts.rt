//! The parts of the checker.

ghost use Rattle.std.specs.Prelude.{IfOk, []};
ghost use Rattle.bbm_replay.specs.ReplayStanding.{MayMeet, Meets, PartsStand};

use crate::guard::kept_at_first;
use bbm_events::{Event, Header};
use bbm_place_map::PlaceMap;
use bbm_regimes::NoMemory;
use bbm_roots::Roots;
use bbm_rules::StepFault;
use bbm_tree_index::TreeIndex;
use bbm_unmapped::Unmapped;
use std::alloc::Global;

/// The header of a log, the places, the trees, and the roots with registers, tags and locks. Clauses speak of the
/// history that they stand for. Source: project's own choice.
#[derive(Drop)]
pub struct ReplayState {
    /// The header.
    pub(crate) header: Header,
    /// The values of places, and what is known of broken ones.
    pub(crate) map: PlaceMap,
    /// What each page is used for.
    pub(crate) index: TreeIndex,
    /// The roots, registers, tags and locks.
    pub(crate) roots: Roots,
    /// Which pages no held leaf of stage 2 maps, under a header with `isolated` alone.
    pub(crate) unmapped: Option<Unmapped>,
}

impl ReplayState {
    /// What stands for the empty history of the header.
    pub(crate) fn new(alloc: Global, header: &Header) -> Result<ReplayState, NoMemory>
        ensures { IfOk result (λ parts. PartsStand parts header.now []) }
    {
        header.in_ranges();
        let index = TreeIndex::new(alloc, header);
        let roots = Roots::new(alloc, header)?;
        Ok(ReplayState {
            header: *header,
            map: PlaceMap::new(alloc),
            index,
            roots,
            unmapped: kept_at_first(alloc, header),
        })
    }

    /// Judges and takes an event.
    #[inline(always)]
    pub(crate) fn take(&mut self, alloc: Global, event: Event) -> Result<(), StepFault>
        requires { MayMeet self.old event }
        ensures { Meets self.old self.new event result }
    {
        match event {
            Event::Init { pe, page } => self.init(alloc, pe, page),
            Event::Null { pe, page } => self.null(pe, page),
            Event::Root {
                pe,
                kind,
                lock,
                page,
            } => self.root(alloc, pe, kind, lock, page),
            Event::Unroot { pe, page } => self.unroot(pe, page),
            Event::Write { pe, place, value } => self.write(alloc, pe, place, value),
            Event::Dsb { pe, dsb } => {
                self.dsb(pe, dsb);
                Ok(())
            }
            Event::Dmb { pe, dsb } => {
                self.dmb(pe, dsb);
                Ok(())
            }
            Event::Isb { pe } => {
                self.isb(pe);
                Ok(())
            }
            Event::Tlbi { pe, op, xt } => self.tlbi(alloc, pe, op, xt),
            Event::Msr { pe, reg, value } => self.msr(alloc, pe, reg, value),
            Event::Lock { pe, lock } => self.lock(pe, lock),
            Event::Unlock { pe, lock } => self.unlock(pe, lock),
        }
    }
}
