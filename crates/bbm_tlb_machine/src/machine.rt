//! The machine of TLBs, and the runs that it follows.
//! Source: project's own choice, where no other is named.

ghost use Rattle.std.specs.Prelude.{◌≡◌, ℕ, ◌+◌, ◌-◌, ◌<◌, ◌≤◌, ◌^◌, true, List, [], ◌∷◌, None, Some, Err, length};
ghost use Rattle.std.specs.Prelude.{reverse, IfOk, OnOk, is_some};
ghost use Rattle.bbm_events.specs.Heading.{Heading};
ghost use Rattle.bbm_events.specs.declared.event.Event.{Event as TheEvent};
ghost use Rattle.bbm_events.specs.declared.machine.MachineLine.TheVariants.{Drop as DropLine};
ghost use Rattle.bbm_rules.specs.Lists.{any, if_so};
ghost use Rattle.bbm_tlb_machine.specs.declared.step.Step.{Step as TheStep};
ghost use Rattle.bbm_tlb_machine.specs.declared.step.Step.TheVariants.{Machine as MachineStep, Event as EventStep};
ghost use Rattle.bbm_tlb_machine.specs.Followed.{Follows, GoesOn, entry_made};
ghost use Rattle.bbm_tlb_machine.specs.MachinePendings.{IsPending, leaves_any as spec_leaves};
ghost use Rattle.bbm_tlb_machine.specs.MachineRun.{State, after_event, at_start, follow_steps, leaves_some, step_to};
ghost use Rattle.bbm_tlb_machine.specs.MachineRun.{with_entry};
ghost use Rattle.bbm_tlb_machine.specs.Safe.{conflicts_with, earlier, in_conflict as spec_conflict};

use crate::conflict::in_conflict;
use crate::entry::Entry;
use crate::living::{Living, drop_at, living_at};
use crate::making::made_by;
use crate::pending::{Pending, leaves_any, take_event};
use crate::step::Step;
use bbm_barriers::Dsb;
use bbm_events::{Event, Header, MachineLine};
use bbm_regimes::{NoMemory, Pe};
use std::alloc::Global;
use std::marker::Model;

/// Why a run can't be followed.
#[derive(Clone, Copy, PartialEq, Eq)]
pub enum FollowFault {
    /// The step with this index, counted from 0, is the first that is none of the machine's.
    BadStep(u64),
    /// There was no memory.
    NoMemory,
}

/// The machine where it stands in a run: the events taken, the entries that the TLBs keep, and the first conflict. A
/// clause sees it as what `follow` has.
#[derive(Drop)]
pub struct Machine {
    events: Vec<Event>,
    living: Vec<Living>,
    made: u64,
    pendings: Vec<Pending>,
    conflict: Option<u64>,
}

impl Model for Machine {
    ghost use Rattle.std.specs.Prelude.{reverse};
    ghost use Rattle.bbm_tlb_machine.specs.Followed.{Followed};

    ghost Value = { Followed };

    ghost view = { λ m. record {
      state = record { log = reverse m.events.items; living = m.living.items; made = m.made };
      pending = m.pendings.items;
      conflict = m.conflict;
    } };
}

impl Machine {
    /// The machine before any step.
    fn new(alloc: Global) -> Machine
        ensures { result ≡ record { state = at_start; pending = []; conflict = None } }
    {
        Machine {
            events: Vec::new(alloc),
            living: Vec::new(alloc),
            made: 0,
            pendings: Vec::new(alloc),
            conflict: None,
        }
    }

    /// The index of the first step, counted from 0, at which a clause of a safe log fails: a write of a value at a
    /// place of which some TLB keeps one that needs break-before-make, an `init` of a page that an entry was read
    /// through, or a register write that makes a tag readable for another root than that of an entry under it. None
    /// where it fails at no step of the run.
    pub fn conflict(&self) -> Option<u64>
        ensures { result ≡ self.now.conflict }
    {
        self.conflict
    }

    /// The entry that the line makes, None where it makes none.
    fn entry_of(
        &self,
        alloc: Global,
        header: &Header,
        line: &MachineLine,
    ) -> Result<Option<Entry>, NoMemory>
        ensures { IfOk result (λ made. made
            ≡ entry_made header.now self.now.state.log self.now.state.living line.now) }
    {
        made_by(alloc, header, &self.events, &self.living, line)
    }

    /// Adds an entry.
    fn add(&mut self, entry: Entry) -> Result<(), NoMemory>
        requires { self.old.state.made < 2 ^ 64 - 1 }
        ensures state { OnOk result (self.new.state ≡ with_entry self.old.state entry) }
        ensures pending { self.new.pending ≡ self.old.pending }
        ensures conflict { self.new.conflict ≡ self.old.conflict }
    {
        self.made += 1;
        let living = Living {
            number: self.made,
            entry,
        };
        self.living.insert(0, living)?;
        Ok(())
    }

    /// Drops the entry with this number. False where there is none.
    fn drop_entry(&mut self, number: u32) -> bool
        ensures step { (heading : Heading) → step_to heading self.old.state (MachineStep (DropLine number))
            ≡ if_so result self.new.state }
        ensures log { self.new.state.log ≡ self.old.state.log }
        ensures made { self.new.state.made ≡ self.old.state.made }
        ensures pending { self.new.pending ≡ self.old.pending }
        ensures conflict { self.new.conflict ≡ self.old.conflict }
    {
        let number = u64::from(number);
        if living_at(&self.living, number).is_none() {
            return false;
        }
        drop_at(&mut self.living, number);
        true
    }

    /// Takes the step of a line. False where it is none.
    fn take_line(
        &mut self,
        alloc: Global,
        header: &Header,
        line: &MachineLine,
    ) -> Result<bool, NoMemory>
        requires { self.old.state.made < 2 ^ 64 - 1 }
        ensures step { IfOk result (λ done. step_to header.now self.old.state (MachineStep line.now)
            ≡ if_so done self.new.state) }
        ensures log { OnOk result (self.new.state.log ≡ self.old.state.log) }
        ensures made { OnOk result (self.new.state.made ≤ self.old.state.made + 1) }
        ensures pending { self.new.pending ≡ self.old.pending }
        ensures conflict { self.new.conflict ≡ self.old.conflict }
    {
        if let MachineLine::Drop { entry } = *line {
            return Ok(self.drop_entry(entry));
        }
        match self.entry_of(alloc, header, line)? {
            Some(entry) => {
                self.add(entry)?;
                Ok(true)
            }
            None => Ok(false),
        }
    }

    /// Whether a DSB of the PE answers a TLBI that must have taken an entry which is still there.
    fn leaves(&self, header: &Header, pe: Pe, dsb: Dsb) -> bool
        ensures { result ≡ spec_leaves header.now self.now.state.living pe dsb self.now.pending }
    {
        leaves_any(header, &self.living, pe, dsb, &self.pendings)
    }

    /// Whether the event is such a DSB.
    fn is_left(&self, header: &Header, event: &Event) -> bool
        requires { IsPending header.now self.now.state.log self.now.pending }
        ensures { result ≡ leaves_some header.now self.now.state event.now }
    {
        match *event {
            Event::Dsb { pe, dsb } => self.leaves(header, pe, dsb),
            _ => false,
        }
    }

    /// Takes the event in what is unanswered.
    fn note(&mut self, alloc: Global, header: &Header, event: &Event) -> Result<(), NoMemory>
        ensures pending { OnOk result (IsPending header.now self.old.state.log self.old.pending
            → IsPending header.now (event.now ∷ self.old.state.log) self.new.pending) }
        ensures state { self.new.state ≡ self.old.state }
        ensures conflict { self.new.conflict ≡ self.old.conflict }
    {
        take_event(alloc, header, &self.events, &mut self.pendings, event)
    }

    /// Adds the event to those taken.
    fn push(&mut self, event: &Event) -> Result<(), NoMemory>
        ensures state { OnOk result (self.new.state ≡ after_event self.old.state event.now) }
        ensures pending { self.new.pending ≡ self.old.pending }
        ensures conflict { self.new.conflict ≡ self.old.conflict }
    {
        self.events.push(*event)?;
        Ok(())
    }

    /// Takes the event.
    fn enter(&mut self, alloc: Global, header: &Header, event: &Event) -> Result<(), NoMemory>
        requires { IsPending header.now self.old.state.log self.old.pending }
        ensures state { OnOk result (self.new.state ≡ after_event self.old.state event.now) }
        ensures pending { OnOk result (IsPending header.now self.new.state.log self.new.pending) }
        ensures conflict { self.new.conflict ≡ self.old.conflict }
    {
        self.note(alloc, header, event)?;
        self.push(event)?;
        Ok(())
    }

    /// Whether an entry conflicts with the last event.
    fn meets(&self, alloc: Global, header: &Header, event: &Event) -> Result<bool, NoMemory>
        ensures { IfOk result (λ b. (h : List TheEvent) → self.now.state.log ≡ event.now ∷ h
            → b ≡ any (λ l. conflicts_with header.now h event.now l.entry) self.now.state.living) }
    {
        in_conflict(alloc, header, &self.events, &self.living, event)
    }

    /// Whether the event, which was taken last, is in conflict with the state before it.
    fn conflicts(&self, alloc: Global, header: &Header, event: &Event) -> Result<bool, NoMemory>
        ensures { IfOk result (λ b. (s : State) → self.now.state ≡ after_event s event.now
            → b ≡ spec_conflict header.now s event.now) }
    {
        self.meets(alloc, header, event)
    }

    /// Names the step of the event, which was taken last, where it is the first with a conflict.
    fn mark(
        &mut self,
        alloc: Global,
        header: &Header,
        event: &Event,
        index: u64,
    ) -> Result<(), NoMemory>
        ensures conflict { OnOk result ((s : State) → self.old.state ≡ after_event s event.now
            → self.new.conflict ≡ earlier self.old.conflict (if_so (spec_conflict header.now s event.now) index)) }
        ensures state { self.new.state ≡ self.old.state }
        ensures pending { self.new.pending ≡ self.old.pending }
    {
        if self.conflict.is_some() {
            return Ok(());
        }
        if self.conflicts(alloc, header, event)? {
            self.conflict = Some(index);
        }
        Ok(())
    }

    /// Takes the step of an event. False where it is none.
    fn take(
        &mut self,
        alloc: Global,
        header: &Header,
        event: &Event,
        index: u64,
    ) -> Result<bool, NoMemory>
        requires { IsPending header.now self.old.state.log self.old.pending }
        ensures step { IfOk result (λ done. step_to header.now self.old.state (EventStep event.now)
            ≡ if_so done self.new.state) }
        ensures pending { IfOk result (λ done. done ≡ true → IsPending header.now self.new.state.log self.new.pending) }
        ensures conflict { IfOk result (λ done. done ≡ true → self.new.conflict
            ≡ earlier self.old.conflict (if_so (spec_conflict header.now self.old.state event.now) index)) }
        ensures made { OnOk result (self.new.state.made ≡ self.old.state.made) }
    {
        if self.is_left(header, event) {
            return Ok(false);
        }
        self.enter(alloc, header, event)?;
        self.mark(alloc, header, event, index)?;
        Ok(true)
    }

    /// Takes a step, of which this is the index. False where it is none of the machine's.
    #[tactic(auto, using(crate::proofs::FollowSteps::steps))]
    fn step(
        &mut self,
        alloc: Global,
        header: &Header,
        step: &Step,
        index: u64,
    ) -> Result<bool, NoMemory>
        requires made { self.old.state.made < 2 ^ 64 - 1 }
        requires unanswered { IsPending header.now self.old.state.log self.old.pending }
        ensures follows { IfOk result (λ done. (older : List TheStep) → length older ≡ index
            → Follows header.now older self.old → GoesOn header.now (step.now ∷ older) index self.new done) }
        ensures made { OnOk result (self.new.state.made ≤ self.old.state.made + 1) }
    {
        match step {
            Step::Machine(line) => self.take_line(alloc, header, line),
            Step::Event(event) => self.take(alloc, header, event, index),
        }
    }

    /// Takes a step, of which this is the index, or names it.
    fn go(
        &mut self,
        alloc: Global,
        header: &Header,
        step: &Step,
        index: u64,
    ) -> Result<(), FollowFault>
        requires made { self.old.state.made < 2 ^ 64 - 1 }
        requires unanswered { IsPending header.now self.old.state.log self.old.pending }
        ensures follows { OnOk result ((older : List TheStep) → length older ≡ index
            → Follows header.now older self.old → Follows header.now (step.now ∷ older) self.new) }
        ensures bad_step { (i : ℕ) → result ≡ Err (FollowFault.BadStep i) → (older : List TheStep) → length older
            ≡ index
            → Follows header.now older self.old → follow_steps header.now (step.now ∷ older) ≡ Err i }
        ensures made { OnOk result (self.new.state.made ≤ self.old.state.made + 1) }
    {
        let done = self
            .step(alloc, header, step, index)
            .map_err(|_| FollowFault::NoMemory)?;
        if done {
            Ok(())
        } else {
            Err(FollowFault::BadStep(index))
        }
    }
}

/// Follows a run: its events and what the TLBs do between them, under the header. `BadStep` exactly where a step is
/// none of the machine's, with the index of the first such, counted from 0. The work for a step grows with the number
/// of the entries that are living, and with that of the events taken.
#[tactic(auto, using(crate::proofs::FollowSteps::ends))]
pub fn follow(alloc: Global, header: &Header, steps: &Vec<Step>) -> Result<Machine, FollowFault>
    ensures followed { IfOk result (λ machine. Follows header.now (reverse steps.now.items) machine) }
    ensures bad_step { (i : ℕ) → result ≡ Err (FollowFault.BadStep i) →
        follow_steps header.now (reverse steps.now.items) ≡ Err i }
{
    let mut machine = Machine::new(alloc);
    let mut taken: u64 = 0;
    for step in steps {
        match machine.go(alloc, header, step, taken) {
            Ok(()) => taken += 1,
            Err(fault) => return Err(fault),
        }
    }
    Ok(machine)
}
