//! The oracle.

ghost use Rattle.std.specs.Prelude.{◌≡◌, List, [], true, false, IsOk, IfOk};
ghost use Rattle.std.proofs.Common.{ap};
ghost use Rattle.bbm_events.specs.declared.event.Event.{Event};
ghost use Rattle.bbm_events.specs.Fits.{fits_heading};
ghost use Rattle.bbm_events.specs.Heading.{Heading};
ghost use Rattle.bbm_rules.specs.Answers.{Answers};
ghost use Rattle.bbm_rules.specs.Broken.{broken};
ghost use Rattle.bbm_rules.specs.Claims.{Patterns};
ghost use Rattle.bbm_rules.specs.Limits.{limit_of};
ghost use Rattle.bbm_rules.specs.Notes.{events_of};
ghost use Rattle.bbm_rules.specs.Values as values;
ghost use Rattle.bbm_oracle_trees.specs.Past.{notes};
ghost use Rattle.bbm_oracle_trees.specs.ByPatterns.{StandsByPatterns};

use bbm_descriptor::Memory;
use bbm_events::{Event, Header};
use bbm_judge::{admit, count_restless};
use bbm_oracle_tags::pages::count_initialised;
use bbm_oracle_tags::{AllPatterns, roots, values};
use bbm_oracle_trees::History;
use bbm_regimes::{Kind, NoMemory, Page, Pe, Place};
use bbm_rules::{Checker, Fresh, Logged, Phase, StepFault};
use std::alloc::Global;

/// A checker that keeps the header and the events that it took, with each TLBI the places that it covered, and searches
/// them at each call as the rules say. A clause sees it as its history. Source: project's own choice.
#[derive(Drop)]
pub struct Oracle {
    history: History<AllPatterns>,
}

impl Oracle {
    /// An oracle of this header that took no event: it stands for the empty history. It takes room for no event yet, so
    /// it never answers `NoMemory`.
    pub fn new(alloc: Global, header: &Header) -> Result<Oracle, NoMemory>
        ensures made { IsOk result }
        ensures empty { IfOk result (λ oracle. StandsByPatterns oracle.history header.now []) }
    {
        Ok(Oracle {
            history: History::new(alloc, header, AllPatterns),
        })
    }

    /// Judges an event that fits the header: Ok where it breaks no rule and reaches no limit. A broken rule comes
    /// first.
    fn judged(&self, alloc: Global, event: &Event) -> Result<(), StepFault>
        requires { fits_heading self.now.history.heading event.now ≡ true }
        ensures { (heading : Heading) (h : List Event) → StandsByPatterns self.now.history heading h
            → Answers result (broken heading Patterns h event.now) (limit_of h event.now) }
    {
        admit(alloc, &self.history, event)
    }
}

impl Memory for Oracle {
    ghost value_at = { λ oracle place. values.value_of (events_of (notes oracle.history)) place };

    fn value(&self, place: Place) -> u64 {
        values::value_of(self.history.events(), place)
    }
}

impl Checker for Oracle {
    ghost stands = { λ oracle heading h. StandsByPatterns oracle.history heading h };

    ghost frugal = { λ oracle. false };

    fn step(&mut self, alloc: Global, event: Event) -> Result<(), StepFault> {
        match self.judged(alloc, &event) {
            Ok(()) => match self.history.take(alloc, event) {
                Ok(()) => Ok(()),
                Err(_) => Err(StepFault::NoMemory),
            },
            Err(fault) => Err(fault),
        }
    }

    fn phase(&self, place: Place, pe: Pe) -> Phase {
        self.history.phase(place, pe)
    }

    fn events(&self) -> u64 {
        self.history.events().len() as u64
    }

    fn pages(&self) -> u64 {
        count_initialised(self.history.events()) as u64
    }

    fn restless(&self) -> u64 {
        count_restless(&self.history)
    }

    fn is_root(&self, kind: Kind, page: Page) -> bool {
        roots::is_root(self.history.events(), kind, page.get())
    }

    ghost values = { λ oracle heading h stands place.
        ap (λ (events : List Event). values.value_of events place) stands.kept.events_are };
}

impl Fresh for Oracle {
    fn fresh(alloc: Global, header: &Header) -> Result<Oracle, NoMemory> {
        Oracle::new(alloc, header)
    }
}

impl Logged for Oracle {
    fn log(&self) -> &[Event] {
        self.history.events()
    }
}
