//! Roots that are declared and retired.

ghost use Rattle.std.specs.Prelude.{◌≡◌, ◌+◌, ◌*◌, ◌≤◌, ◌<◌, ◌%◌, ◌^◌, not, filter};
ghost use Rattle.bbm_events.specs.declared.event.Event.TheVariants.{Root, Unroot};
ghost use Rattle.bbm_rules.specs.Lists.{least};
ghost use Rattle.bbm_rules.specs.Roots.{pages_from};
ghost use Rattle.bbm_tree_index.specs.Index.{fresh_in};
ghost use Rattle.bbm_tree_index.specs.IndexAgreement.{SharesNumbers};
ghost use Rattle.bbm_replay.specs.ReplayStanding.{MayMeet, Meets};

use crate::faults::step_fault;
use crate::guard::{cover_attached, judge_attached};
use crate::laws::{laws, rules};
use crate::parts::ReplayState;
use bbm_place_map::PlaceMap;
use bbm_regimes::{Kind, PAGE_BYTES, Page, Pe};
use bbm_replay_trees::starts::law_starts;
use bbm_rules::{Rule, StepFault};
use bbm_tree_index::{Attach, TreeIndex};
use std::alloc::Global;

/// Whether the page at the address, in bytes, is fresh.
fn is_fresh_address(index: &TreeIndex, map: &PlaceMap, at: u64) -> bool
    requires same { SharesNumbers index.now map.now }
    requires below { at < 2 ^ 48 }
    requires aligned { at % PAGE_BYTES ≡ 0 }
    ensures { result ≡ fresh_in index.now at }
{
    match Page::new(at) {
        Some(page) => index.is_fresh(map, page),
        None => false,
    }
}

/// The first of so many consecutive pages that isn't fresh.
fn first_unfresh(index: &TreeIndex, map: &PlaceMap, page: Page, count: u8) -> Option<u64>
    requires same { SharesNumbers index.now map.now }
    requires low { page + PAGE_BYTES * count ≤ 2 ^ 48 }
    ensures { result ≡ least (filter (λ p. not (fresh_in index.now p)) (pages_from page count)) }
{
    for i in 0..count {
        let at = page.get() + PAGE_BYTES * u64::from(i);
        if !is_fresh_address(index, map, at) {
            return Some(at);
        }
    }
    None
}

impl ReplayState {
    /// A root is declared.
    pub(crate) fn root(
        &mut self,
        alloc: Global,
        pe: Pe,
        kind: Kind,
        lock: Option<u16>,
        page: Page,
    ) -> Result<(), StepFault>
        requires { MayMeet self.old (Root pe kind lock page) }
        ensures { Meets self.old self.new (Root pe kind lock page) result }
    {
        laws();
        rules();
        if !self.header.has_kind(kind) {
            return Err(StepFault::Broken(Rule::WrongWorld, 0));
        }
        let prepared = match self
            .index
            .prepare(alloc, &self.map, Attach::Root { kind, first: page })
        {
            Ok(prepared) => prepared,
            Err(fault) => return Err(step_fault(fault)),
        };
        match first_unfresh(&self.index, &self.map, page, self.header.page_count(kind)) {
            Some(at) => return Err(StepFault::Broken(Rule::PageInUse, at)),
            None => {}
        }
        let pages = match judge_attached(&self.unmapped, alloc, &self.index, &self.map, &prepared) {
            Ok(pages) => pages,
            Err(fault) => return Err(fault),
        };
        match self.roots.prepare(alloc) {
            Ok(()) => {}
            Err(fault) => return Err(fault),
        }
        self.map.law_idle();
        self.index.attach_prepared(&self.map, &prepared);
        cover_attached(&mut self.unmapped, &self.map, &pages);
        self.roots.declare(kind, page, lock);
        Ok(())
    }

    /// A root is retired.
    pub(crate) fn unroot(&mut self, pe: Pe, page: Page) -> Result<(), StepFault>
        requires { MayMeet self.old (Unroot pe page) }
        ensures { Meets self.old self.new (Unroot pe page) result }
    {
        laws();
        rules();
        law_starts();
        match self.roots.judge_unroot(pe, page) {
            Ok(()) => {
                self.index.detach(&mut self.map, page);
                self.roots.retire(page);
                Ok(())
            }
            Err(fault) => Err(fault),
        }
    }
}
