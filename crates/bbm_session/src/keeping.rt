//! A checker that keeps its events beside another.

ghost use Rattle.std.specs.Prelude.{false};
ghost use Rattle.bbm_session.specs.Keeping.{KeepsLog};

use bbm_descriptor::Memory;
use bbm_events::{Event, Header};
use bbm_regimes::{Kind, NoMemory, Page, Pe, Place};
use bbm_rules::{Checker, Fresh, Logged, Phase, StepFault};
use std::alloc::Global;

/// A checker that judges as another does, and keeps the events that it took. Source: project's own choice.
#[derive(Drop)]
pub struct Keeping<C> {
    /// The checker that judges.
    checker: C,
    /// The events that were taken, the oldest first.
    log: Vec<Event>,
}

impl<C: Checker> Memory for Keeping<C> {
    ghost value_at = { λ keeping place. C.value_at keeping.checker place };

    fn value(&self, place: Place) -> u64 {
        self.checker.value(place)
    }
}

impl<C: Checker> Checker for Keeping<C> {
    ghost stands = { λ keeping. KeepsLog (C.stands keeping.checker) keeping.log.items };

    ghost frugal = { λ keeping. false };

    fn step(&mut self, alloc: Global, event: Event) -> Result<(), StepFault> {
        self.log.reserve(1).map_err(|_| StepFault::NoMemory)?;
        self.checker.step(alloc, event)?;
        let kept = &event;
        self.log.push(*kept).unwrap();
        Ok(())
    }

    fn phase(&self, place: Place, pe: Pe) -> Phase {
        self.checker.phase(place, pe)
    }

    fn events(&self) -> u64 {
        self.checker.events()
    }

    fn pages(&self) -> u64 {
        self.checker.pages()
    }

    fn restless(&self) -> u64 {
        self.checker.restless()
    }

    fn is_root(&self, kind: Kind, page: Page) -> bool {
        self.checker.is_root(kind, page)
    }

    ghost values = { λ keeping heading h stands. C.values keeping.checker heading h stands.below };
}

impl<C: Fresh> Fresh for Keeping<C> {
    fn fresh(alloc: Global, header: &Header) -> Result<Keeping<C>, NoMemory> {
        let checker = C::fresh(alloc, header)?;
        Ok(Keeping {
            checker,
            log: Vec::new(alloc),
        })
    }
}

impl<C: Checker> Logged for Keeping<C> {
    fn log(&self) -> &[Event] {
        &self.log
    }
}
