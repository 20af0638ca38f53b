//! Pages that are made zero, or declared null.

ghost use Rattle.std.specs.Prelude.{◌≡◌, ℕ, ◌&&◌, ◌||◌, not, true, false, is_some};
ghost use Rattle.bbm_regimes.specs.World.{kind_in_world};
ghost use Rattle.bbm_events.specs.Heading as heading;
ghost use Rattle.bbm_tree_index.specs.Index.{node_in, null_in};
ghost use Rattle.bbm_events.specs.declared.event.Event.TheVariants.{Init, Null};
ghost use Rattle.bbm_place_map.specs.Map.{value_at};
ghost use Rattle.bbm_tree_index.specs.IndexAgreement.{SharesNumbers};
ghost use Rattle.bbm_replay_trees.specs.Told.{is_at};
ghost use Rattle.bbm_replay.specs.ReplayStanding.{MayMeet, Meets};

use crate::faults::step_fault;
use crate::guard::{init, reserve};
use crate::laws::{laws, rules};
use crate::parts::ReplayState;
use bbm_events::nulls_everywhere;
use bbm_place_map::PlaceMap;
use bbm_regimes::{Kind, PLACES, Page, Pe};
use bbm_roots::law_others;
use bbm_rules::{Rule, StepFault};
use std::alloc::Global;

/// Whether each place of the page has the value 0.
fn is_zero(map: &PlaceMap, page: Page) -> bool
    ensures zero { result ≡ true → (a : ℕ) → is_at page a ≡ true → value_at map.now a ≡ 0 }
    ensures other { result ≡ false → (a : ℕ) × (is_at page a ≡ true) × (value_at map.now a ≡ 0 → ⊥) }
{
    if map.is_blank(page) {
        return true;
    }
    let position = map.first_position(page);
    for index in 0..PLACES {
        if map.value_from(&position, index) != 0 {
            return false;
        }
    }
    true
}

impl ReplayState {
    /// Whether the page is in a tree or a null page.
    fn is_used(&self, page: Page) -> bool
        requires { SharesNumbers self.now.index self.now.map }
        ensures { result ≡ (is_some (node_in self.now.index page) || null_in self.now.index page) }
    {
        self.index.is_in_tree(&self.map, page) || self.index.is_null(&self.map, page)
    }

    /// A page is made zero.
    pub(crate) fn init(&mut self, alloc: Global, pe: Pe, page: Page) -> Result<(), StepFault>
        requires { MayMeet self.old (Init pe page) }
        ensures { Meets self.old self.new (Init pe page) result }
    {
        laws();
        rules();
        law_others();
        if self.is_used(page) {
            return Err(StepFault::Broken(Rule::PageInUse, page.get()));
        }
        match reserve(&mut self.unmapped) {
            Ok(()) => {}
            Err(fault) => return Err(fault),
        }
        match self.index.track(&mut self.map, page) {
            Ok(()) => {
                init(&mut self.unmapped, &self.index, &self.map, page);
                Ok(())
            }
            Err(fault) => Err(step_fault(fault)),
        }
    }

    /// Whether a `null` breaks the rule wrong-world: the header's world is Hyp, and its version 4 or older.
    fn is_wrong_null(&self) -> bool
        ensures { result ≡ (kind_in_world self.now.header.world Kind.S2
            && not (heading.nulls_everywhere self.now.header.version)) }
    {
        self.header.has_kind(Kind::S2) && !nulls_everywhere(&self.header)
    }

    /// A page is declared a null page.
    pub(crate) fn null(&mut self, pe: Pe, page: Page) -> Result<(), StepFault>
        requires { MayMeet self.old (Null pe page) }
        ensures { Meets self.old self.new (Null pe page) result }
    {
        laws();
        rules();
        law_others();
        if self.is_wrong_null() {
            return Err(StepFault::Broken(Rule::WrongWorld, 0));
        }
        if !self.index.is_fresh(&self.map, page) {
            return Err(StepFault::Broken(Rule::PageInUse, page.get()));
        }
        if !is_zero(&self.map, page) {
            return Err(StepFault::Broken(Rule::PageInUse, page.get()));
        }
        self.index.nullify(&self.map, page);
        Ok(())
    }
}
