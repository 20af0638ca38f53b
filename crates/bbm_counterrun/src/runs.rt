//! The run of a plan, step by step.

ghost use Rattle.std.specs.Prelude.{◌≡◌, ◌≤◌, ◌<◌, ◌-◌, ◌^◌, ◌++◌, ◌∷◌, ℕ, [], Option, length, map, take, drop};
ghost use Rattle.std.specs.Prelude.{IfOk, OnOk};
ghost use Rattle.bbm_counterrun.specs.Plans as spec;
ghost use Rattle.bbm_counterrun.specs.Searching.{plan_found, plan_of};
ghost use Rattle.bbm_tlb_machine.specs.declared.step.Step.TheVariants.{Event as Taken, Machine};
ghost use Rattle.bbm_events.specs.declared.machine.MachineLine.TheVariants.{Start};

use crate::read::Read;
use crate::search::Found;
use bbm_events::{Event, MachineLine};
use bbm_regimes::{Kind, NoMemory, Pe, Place};
use bbm_tlb_machine::Step;
use std::alloc::Global;

/// Adds a step at the end.
fn add(steps: &mut Vec<Step>, step: &Step) -> Result<(), NoMemory>
    ensures { OnOk result (steps.new.items ≡ steps.old.items ++ step.now ∷ []) }
{
    match step {
        Step::Machine(line) => steps.push(Step::Machine(*line))?,
        Step::Event(event) => steps.push(Step::Event(*event))?,
    }
    Ok(())
}

/// The first so many events, or all where there are fewer.
fn first(events: &[Event], count: u64) -> &[Event]
    ensures { result.now ≡ take count events.now }
{
    &events[..(count as usize).min(events.len())]
}

/// The events behind the first so many.
#[tactic(auto, using(crate::proofs::RunCode::behind_first))]
fn behind(events: &[Event], count: u64) -> &[Event]
    ensures { result.now ≡ drop count events.now }
{
    &events[(count as usize).min(events.len())..]
}

/// Adds the events, as they are taken.
fn add_events(steps: &mut Vec<Step>, events: &[Event]) -> Result<(), NoMemory>
    ensures { OnOk result (steps.new.items ≡ steps.old.items ++ map Taken events.now) }
{
    for event in events {
        add(steps, &Step::Event(*event))?;
    }
    Ok(())
}

/// Adds an extend of each entry in its turn, from the first on, by these reads.
#[tactic(auto, using(crate::proofs::RunCode::extend_steps))]
fn add_extends(steps: &mut Vec<Step>, reads: &[Read]) -> Result<(), NoMemory>
    requires { length reads.now < 2 ^ 32 - 1 }
    ensures { OnOk result (steps.new.items ≡ steps.old.items ++ spec.extends 1 reads.now) }
{
    let mut entry = 1;
    for read in reads {
        let (place, value) = (read.place, read.value);
        add(
            steps,
            &Step::Machine(MachineLine::Extend {
                entry,
                place,
                value,
            }),
        )?;
        entry += 1;
    }
    Ok(())
}

/// Adds a drop of each entry with a number below this one.
#[tactic(auto, using(crate::proofs::RunCode::drop_steps))]
fn add_drops(steps: &mut Vec<Step>, made: u32) -> Result<(), NoMemory>
    requires { 1 ≤ made }
    ensures { OnOk result (steps.new.items ≡ steps.old.items ++ spec.drops 1 (made - 1)) }
{
    for entry in 1..made {
        add(steps, &Step::Machine(MachineLine::Drop { entry }))?;
    }
    Ok(())
}

/// Adds a combine of the entry, and its drop.
#[tactic(auto, using(crate::proofs::RunCode::joining))]
fn add_combine(steps: &mut Vec<Step>, entry: u32) -> Result<(), NoMemory>
    ensures { OnOk result (steps.new.items ≡ steps.old.items ++ spec.combine_of entry) }
{
    add(steps, &Step::Machine(MachineLine::Combine { entry }))?;
    add(steps, &Step::Machine(MachineLine::Drop { entry }))
}

/// Adds a start by this read, and then extends and drops by the rest of the reads.
#[tactic(auto, using(crate::proofs::RunCode::joining))]
fn add_start(
    steps: &mut Vec<Step>,
    pe: Pe,
    kind: Kind,
    number: u16,
    first: Read,
    rest: &[Read],
) -> Result<(), NoMemory>
    requires { length rest.now < 2 ^ 32 - 1 }
    ensures { OnOk result (steps.new.items ≡ steps.old.items ++ Machine (Start pe kind number first.place first.value)
        ∷ (spec.extends 1 rest.now ++ spec.drops 1 (length rest.now))) }
{
    let start = MachineLine::Start {
        pe,
        kind,
        tag: number,
        place: first.place,
        value: first.value,
    };
    add(steps, &Step::Machine(start))?;
    add_extends(steps, rest)?;
    add_drops(steps, rest.len() as u32 + 1)
}

/// Adds the walk of a plan.
fn add_walk(
    steps: &mut Vec<Step>,
    pe: Pe,
    kind: Kind,
    number: u16,
    reads: &[Read],
) -> Result<(), NoMemory>
    requires { length reads.now < 2 ^ 32 - 1 }
    ensures { OnOk result ((starts : ℕ) (combines : Option ℕ) → steps.new.items
        ≡ steps.old.items ++ spec.walk_of (plan_of starts pe kind number reads.now combines)) }
{
    match reads {
        [first, rest @ ..] => add_start(steps, pe, kind, number, *first, rest),
        [] => {
            let place = Place::new(0).unwrap();
            add_start(steps, pe, kind, number, Read { place, value: 0 }, &[])
        }
    }
}

/// Adds the events behind the walk of a plan that makes so many entries, with the combine where there is one.
#[tactic(auto, using(crate::proofs::RunCode::joining))]
fn add_behind(
    steps: &mut Vec<Step>,
    starts: u64,
    made: u32,
    combines: Option<u64>,
    log: &[Event],
) -> Result<(), NoMemory>
    ensures { OnOk result ((plan : spec.Plan) → plan.starts ≡ starts → spec.made_by plan ≡ made
        → steps.new.items ≡ steps.old.items ++ spec.behind plan combines log.now) }
{
    match combines {
        Some(joined) => {
            add_events(steps, behind(first(log, joined), starts))?;
            add_combine(steps, made)?;
            add_events(steps, behind(log, joined))
        }
        None => add_events(steps, behind(log, starts)),
    }
}

/// The run over a log of what is found in a tree of the kind. `NoMemory` where there is none.
#[tactic(auto, using(crate::proofs::RunCode::joining))]
pub fn run_of(
    alloc: Global,
    kind: Kind,
    found: &Found,
    log: &[Event],
) -> Result<Vec<Step>, NoMemory>
    requires { length found.now.reads < 2 ^ 32 - 1 }
    ensures { IfOk result (λ steps. steps.items ≡ spec.run_of (plan_found kind found.now) log.now) }
{
    let mut steps = Vec::new(alloc);
    add_events(&mut steps, first(log, found.starts))?;
    add_walk(
        &mut steps,
        found.pe,
        kind,
        found.choice.number,
        &found.reads,
    )?;
    let made = found.reads.len().max(1) as u32;
    add_behind(&mut steps, found.starts, made, found.choice.combines, log)?;
    Ok(steps)
}
