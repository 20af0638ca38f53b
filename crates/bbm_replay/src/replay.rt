//! The checker.

ghost use Rattle.std.specs.Prelude.{[], true, IfOk};
ghost use Rattle.bbm_place_map.specs.Map as map;
ghost use Rattle.bbm_rules.specs.Values as values;
ghost use Rattle.bbm_replay.specs.ReplayStanding.{StandsFor};

use crate::parts::ReplayState;
use bbm_descriptor::Memory;
use bbm_events::{Event, Header};
use bbm_regimes::{Kind, NoMemory, Page, Pe, Place};
use bbm_rules::{Checker, Fresh, Phase, StepFault};
use std::alloc::Global;

/// A checker of events that keeps no history: it keeps the values and marks of places, the trees, the roots and locks,
/// and how many events it took. Source: project's own choice.
#[derive(Drop)]
pub struct Replay {
    /// What stands for the history.
    parts: ReplayState,
    /// How many events were taken.
    events: u64,
}

impl Replay {
    /// A checker of this header that took no event: it stands for the empty history. `NoMemory` where there is none.
    pub fn new(alloc: Global, header: &Header) -> Result<Replay, NoMemory>
        ensures { IfOk result (λ replay. StandsFor replay header.now []) }
    {
        let parts = ReplayState::new(alloc, header)?;
        Ok(Replay { parts, events: 0 })
    }
}

impl Memory for Replay {
    ghost value_at = { λ replay place. map.value_at replay.parts.map place };

    fn value(&self, place: Place) -> u64 {
        self.parts.map.value(place)
    }
}

impl Checker for Replay {
    ghost stands = { λ replay heading h. StandsFor replay heading h };

    ghost frugal = { λ replay. true };

    #[inline(always)]
    fn step(&mut self, alloc: Global, event: Event) -> Result<(), StepFault> {
        match self.parts.take(alloc, event) {
            Ok(()) => {
                self.events += 1;
                Ok(())
            }
            Err(fault) => Err(fault),
        }
    }

    fn phase(&self, place: Place, pe: Pe) -> Phase {
        self.parts.phase(place, pe)
    }

    fn events(&self) -> u64 {
        self.events
    }

    fn pages(&self) -> u64 {
        self.parts.index.pages()
    }

    fn restless(&self) -> u64 {
        self.parts.restless()
    }

    fn is_root(&self, kind: Kind, page: Page) -> bool {
        self.parts.roots.is_root(kind, page)
    }

    ghost values = { λ replay heading h stands place. stands.parts.told.values place };
}

impl Fresh for Replay {
    fn fresh(alloc: Global, header: &Header) -> Result<Replay, NoMemory> {
        Replay::new(alloc, header)
    }
}
