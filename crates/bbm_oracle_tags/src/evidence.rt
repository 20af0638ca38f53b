//! What is trusted to take tags away.

ghost use Rattle.std.specs.Prelude.{◌≡◌, ℕ, List, ◌∷◌, reverse, IfOk};
ghost use Rattle.bbm_regimes.specs.declared.regime.Reg.{Reg};
ghost use Rattle.bbm_events.specs.declared.event.Event.{Event};
ghost use Rattle.bbm_events.specs.Heading.{Heading};
ghost use Rattle.bbm_rules.specs.Claims.{Trust};
ghost use Rattle.bbm_oracle_tags.specs.Keepers as keepers;

use crate::holding::Holding;
use crate::keeper::Keeper;
use bbm_events::{Event, Header};
use bbm_regimes::NoMemory;
use std::alloc::Global;

/// It tells which tags a root keeps after the events of a log, by what is trusted to take a tag away. Source: project's
/// own choice.
pub trait TagEvidence {
    /// What it stands for: every pattern of events, or those that claims name.
    ghost trust: { Self → Trust };

    /// It can be asked of these events of a log of this header, the newest first.
    ghost knows: { Self → Heading → List Event → Type 0 };

    /// Whether the root of the page that is asked keeps the tag at the PE after the events, which are oldest first: it
    /// holds it, or left it when it was given up. `NoMemory` where there is none.
    fn keeps_at(
        &self,
        alloc: Global,
        header: &Header,
        events: &[Event],
        asked: &Holding,
        keeper: Keeper,
    ) -> Result<bool, NoMemory>
        requires { knows self.now header.now (reverse events.now) }
        ensures { IfOk result (λ keeps. keeps ≡ keepers.keeps_at header.now (trust self.now) keeper asked.now.pe
            asked.now.root asked.now.tag (reverse events.now)) };

    /// It can then also be asked of these events and a register write behind them, which takes no tag away.
    ghost knows_write: { (evidence : Self) (heading : Heading) (h : List Event) (pe : ℕ) (reg : Reg) (value : ℕ)
        → knows evidence heading h → knows evidence heading (Event.Msr pe reg value ∷ h) };
}
