//! Finding the idle events of a log.
//! Source: project's own choice.

ghost use Rattle.std.specs.Prelude.{◌≡◌, ◌++◌, true, [], ◌∷◌, reverse, IfOk, OnOk};
ghost use Rattle.bbm_events.specs.Fits.{fits_heading};
ghost use Rattle.bbm_rules.specs.Lists.{every};
ghost use Rattle.bbm_oracle_trees.specs.ByPatterns.{StandsByPatterns};
ghost use Rattle.bbm_idle.specs.Finding as spec;
ghost use Rattle.bbm_idle.specs.Idle as idle;

use crate::find_needed::{Effect, is_needed, newest_adds};
use crate::find_phases::take_keeping;
use crate::find_places::{add_written, seats_of};
use crate::find_registers::wrote_register;
use crate::find_tags::{add_known, taken_by};
use crate::find_waiting::Waiting;
use bbm_barriers::Dsb;
use bbm_events::{Event, Header};
use bbm_oracle_tags::{AllPatterns, Reading};
use bbm_oracle_trees::History;
use bbm_regimes::{NoMemory, Pe, Place};
use std::alloc::Global;

/// The events of a log that were taken, and what is kept of them so that nothing is asked twice.
#[derive(Drop)]
pub struct Search {
    /// The events.
    pub history: History<AllPatterns>,
    /// The places that were ever written, each once, that of the latest first write in front.
    pub written: Vec<Place>,
    /// What was ever readable at a PE.
    pub known: Vec<Reading>,
    /// The needed TLBIs that aren't answered.
    pub waiting: Waiting,
}

#[tactic(auto, unfolding(crate::specs::Idle::is_idle))]
impl Search {
    ghost use Rattle.bbm_events.specs.declared.event.Event.TheVariants.{Dsb as TheDsb};

    /// No event yet.
    fn new(alloc: Global, header: &Header) -> Search
        ensures { spec.IsSearch result header.now [] }
    {
        Search {
            history: History::new(alloc, header, AllPatterns),
            written: Vec::new(alloc),
            known: Vec::new(alloc),
            waiting: Waiting::none(),
        }
    }

    /// Takes a TLBI into the history, which fits the header: whether it is needed.
    fn take_tlbi(
        &mut self,
        alloc: Global,
        header: &Header,
        before: &[Event],
        event: &Event,
    ) -> Result<bool, NoMemory>
        requires stands { spec.IsSearch self.old header.now (reverse before.now) }
        requires fits { fits_heading header.now event.now ≡ true }
        ensures needed { IfOk result (λ needed. needed ≡ idle.is_needed header.now (reverse before.now) event.now) }
        ensures stands { OnOk result (StandsByPatterns self.new.history header.now (event.now ∷ reverse before.now)) }
        ensures rest { spec.KeepsRest self.old self.new }
    {
        let seats = seats_of(alloc, &self.history, &self.written)?;
        let taken = taken_by(alloc, header, before, event, &self.known)?;
        self.history.take(alloc, *event)?;
        let added = newest_adds(header, self.history.log(), &seats);
        let effect = Effect {
            added,
            taken: &taken,
        };
        is_needed(alloc, header, before, event, &effect)
    }

    /// Takes a DSB into the history: whether it is idle.
    fn take_dsb(
        &mut self,
        alloc: Global,
        header: &Header,
        before: &[Event],
        pe: Pe,
        dsb: Dsb,
    ) -> Result<bool, NoMemory>
        requires stands { spec.IsSearch self.old header.now (reverse before.now) }
        requires fits { fits_heading header.now (TheDsb pe dsb) ≡ true }
        ensures idle { IfOk result (λ is_idle. is_idle ≡ idle.is_idle header.now (reverse before.now) (TheDsb pe dsb)) }
        ensures stands { OnOk result
            (StandsByPatterns self.new.history header.now (TheDsb pe dsb ∷ reverse before.now)) }
        ensures rest { spec.KeepsRest self.old self.new }
    {
        let event = Event::Dsb { pe, dsb };
        if self.waiting.answers(pe, dsb) {
            self.history.take(alloc, event)?;
            Ok(false)
        } else {
            take_keeping(alloc, header, &mut self.history, &self.written, &event)
        }
    }

    /// Takes an event into the history, which fits the header: whether it is idle.
    fn take_event(
        &mut self,
        alloc: Global,
        header: &Header,
        before: &[Event],
        event: &Event,
    ) -> Result<bool, NoMemory>
        requires stands { spec.IsSearch self.old header.now (reverse before.now) }
        requires fits { fits_heading header.now event.now ≡ true }
        ensures idle { IfOk result (λ is_idle. is_idle ≡ idle.is_idle header.now (reverse before.now) event.now) }
        ensures stands { OnOk result (StandsByPatterns self.new.history header.now (event.now ∷ reverse before.now)) }
        ensures rest { spec.KeepsRest self.old self.new }
    {
        match *event {
            Event::Tlbi { .. } => {
                let needed = self.take_tlbi(alloc, header, before, event)?;
                Ok(!needed)
            }
            Event::Dsb { pe, dsb } => self.take_dsb(alloc, header, before, pe, dsb),
            Event::Dmb { .. } => {
                self.history.take(alloc, *event)?;
                Ok(true)
            }
            Event::Isb { pe } => {
                self.history.take(alloc, *event)?;
                Ok(!wrote_register(before, pe))
            }
            _ => {
                self.history.take(alloc, *event)?;
                Ok(false)
            }
        }
    }

    /// Takes one more event, which fits the header and comes after these: whether it is idle. `NoMemory` where there is
    /// none.
    fn take(
        &mut self,
        alloc: Global,
        header: &Header,
        before: &[Event],
        event: &Event,
    ) -> Result<bool, NoMemory>
        requires stands { spec.IsSearch self.old header.now (reverse before.now) }
        requires fits { fits_heading header.now event.now ≡ true }
        ensures idle { IfOk result (λ is_idle. is_idle ≡ idle.is_idle header.now (reverse before.now) event.now) }
        ensures stands { OnOk result (spec.IsSearch self.new header.now (event.now ∷ reverse before.now)) }
    {
        let is_idle = self.take_event(alloc, header, before, event)?;
        add_written(&mut self.written, event)?;
        add_known(alloc, &mut self.known, header, self.history.events(), event)?;
        self.waiting.take(event, is_idle);
        Ok(is_idle)
    }
}

/// Puts one more mark behind the others.
fn push_mark(marks: &mut Vec<bool>, mark: bool) -> Result<(), NoMemory>
    ensures { OnOk result (marks.new.items ≡ marks.old.items ++ mark ∷ []) }
{
    marks.push(mark)?;
    Ok(())
}

/// Which events of the log are idle, where each fits the header: a value for each, the oldest first, which is true
/// where the log can do without the event by what came before it. A DMB is idle; an ISB where its PE wrote no register
/// since its last one; a TLBI that isn't needed; a DSB that changes no phase of a place at a PE and answers no TLBI
/// that was needed. `NoMemory` where there is none.
pub fn find(alloc: Global, header: &Header, log: &[Event]) -> Result<Vec<bool>, NoMemory>
    requires fit { every (fits_heading header.now) (reverse log.now) ≡ true }
    ensures exact { IfOk result (λ marks. marks.items ≡ reverse (idle.idle_marks header.now (reverse log.now))) }
{
    let mut search = Search::new(alloc, header);
    let mut marks = Vec::new(alloc);
    for (index, event) in log.iter().enumerate() {
        let is_idle = search.take(alloc, header, &log[..index], event)?;
        push_mark(&mut marks, is_idle)?;
    }
    Ok(marks)
}
