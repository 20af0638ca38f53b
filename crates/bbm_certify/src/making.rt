//! The certificate of a log that keeps the rules.
//! Source: project's own choice.

ghost use Rattle.std.specs.Prelude.{◌≡◌, ◌<◌, ◌^◌, ◌∷◌, [], ◌++◌, ℕ, true, List, length, reverse, IfOk, OnOk};
ghost use Rattle.bbm_events.specs.declared.event.Event.{Event as TheEvent};
ghost use Rattle.bbm_events.specs.Fits.{fits_heading};
ghost use Rattle.bbm_rules.specs.Broken.{keeps};
ghost use Rattle.bbm_rules.specs.Claims.Trust.{Patterns};
ghost use Rattle.bbm_rules.specs.Lists.{every};
ghost use Rattle.bbm_rules.specs.Prelude.{Barrier, Dsb as TheDsb};
ghost use Rattle.bbm_certify.specs.LeastClaims.{IsCertificate};
ghost use Rattle.bbm_certify.specs.Made as spec;

use crate::known::known;
use crate::places::{add_places, add_written};
use crate::tags::{add_known, add_tags};
use bbm_events::{Claim, Event, Header};
use bbm_oracle_tags::{AllPatterns, Holding};
use bbm_oracle_trees::History;
use bbm_regimes::{NoMemory, Place};
use std::alloc::Global;

/// The events of a log that were taken, and what is kept of them so that nothing is asked twice.
#[derive(Drop)]
pub struct Making {
    /// The events.
    pub history: History<AllPatterns>,
    /// The places that were ever written, each once, in their order.
    pub places: Vec<Place>,
    /// What was ever readable at a PE.
    pub known: Vec<Holding>,
}

impl Making {
    /// No event yet.
    fn new(alloc: Global, header: &Header) -> Making
        ensures { spec.IsMaking result header.now [] }
    {
        Making {
            history: History::new(alloc, header, AllPatterns),
            places: Vec::new(alloc),
            known: Vec::new(alloc),
        }
    }

    /// The claims that are due at the last event, which is a DSB.
    fn due_at_dsb(
        &self,
        alloc: Global,
        header: &Header,
        event: &Event,
    ) -> Result<Vec<Claim>, NoMemory>
        requires some { spec.IsSome self.now.history }
        requires few { spec.IsFew self.now.history }
        ensures { IfOk result (λ due. (h : List TheEvent) (q : ℕ) (dsb : Barrier) → event.now ≡ TheDsb q dsb →
            spec.HasTaken self.now header.now h event.now → spec.AreDue header.now h event.now due.items) }
    {
        known();
        header.in_ranges();
        let log = self.history.log();
        let last = log.len() - 1;
        let mut due = Vec::new(alloc);
        add_places(&self.history, &log[..last], event, &self.places, &mut due)?;
        add_tags(alloc, header, self.history.events(), &self.known, &mut due)?;
        Ok(due)
    }

    /// The claims that are due at the last event.
    fn due(&self, alloc: Global, header: &Header, event: &Event) -> Result<Vec<Claim>, NoMemory>
        requires some { spec.IsSome self.now.history }
        requires few { spec.IsFew self.now.history }
        ensures { IfOk result (λ due. (h : List TheEvent) → spec.HasTaken self.now header.now h event.now →
            spec.AreDue header.now h event.now due.items) }
    {
        known();
        header.in_ranges();
        match *event {
            Event::Dsb { .. } => self.due_at_dsb(alloc, header, event),
            _ => Ok(Vec::new(alloc)),
        }
    }

    /// Takes one more event, which fits the header: the claims that are due at it, in their order. `NoMemory` where there
    /// is none.
    fn take(
        &mut self,
        alloc: Global,
        header: &Header,
        event: &Event,
    ) -> Result<Vec<Claim>, NoMemory>
        requires fits { fits_heading header.now event.now ≡ true }
        requires heading { self.old.history.heading ≡ header.now }
        requires few { spec.IsFewer self.old.history }
        ensures heading { OnOk result (self.new.history.heading ≡ header.now) }
        ensures stands { OnOk result ((h : List TheEvent) → spec.IsMaking self.old header.now h →
            keeps header.now Patterns (event.now ∷ h) ≡ true → spec.IsMaking self.new header.now (event.now ∷ h)) }
        ensures due { IfOk result (λ due. (h : List TheEvent) → spec.IsMaking self.old header.now h →
            keeps header.now Patterns (event.now ∷ h) ≡ true → spec.AreDue header.now h event.now due.items) }
    {
        known();
        header.in_ranges();
        self.history.take(alloc, *event)?;
        let due = self.due(alloc, header, event)?;
        add_written(&mut self.places, event)?;
        add_known(alloc, header, self.history.events(), event, &mut self.known)?;
        Ok(due)
    }
}

/// Puts the claims behind the others.
fn append(claims: &mut Vec<Claim>, due: &[Claim]) -> Result<(), NoMemory>
    ensures { OnOk result (claims.new.items ≡ claims.old.items ++ due.now) }
{
    claims.extend_from_slice(due).map_err(|_| NoMemory)
}

/// The certificate of a log that keeps the rules, whose events fit the header and are fewer than 2^32: for each event in
/// turn the claims of the places that it cleanses and of the tags that it takes away, each with the least positions that
/// make it true. By these claims alone the log keeps the rules. `NoMemory` where there is none.
pub fn make(alloc: Global, header: &Header, log: &[Event]) -> Result<Vec<Claim>, NoMemory>
    requires fit { every (fits_heading header.now) (reverse log.now) ≡ true }
    requires few { length log.now < 2 ^ 32 }
    requires kept { keeps header.now Patterns (reverse log.now) ≡ true }
    ensures exact { IfOk result (λ claims. IsCertificate header.now (reverse log.now) claims.items) }
{
    let mut making = Making::new(alloc, header);
    let mut claims = Vec::new(alloc);
    for event in log {
        let due = making.take(alloc, header, event)?;
        append(&mut claims, &due)?;
    }
    Ok(claims)
}
