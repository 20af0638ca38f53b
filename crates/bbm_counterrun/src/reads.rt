//! The least values that a PE can read on a way.

ghost use Rattle.std.specs.Prelude.{◌≡◌, ◌∷◌, List, min, filter, reverse, Some, option_map, unwrap_or, IfOk};
ghost use Rattle.bbm_counterrun.specs.Ways as spec;
ghost use Rattle.bbm_events.specs.declared.event.Event.{Event as TheEvent};
ghost use Rattle.bbm_rules.specs.Lists.{least};

use crate::read::{Goal, Read};
use bbm_descriptor::{is_valid, needs_bbm};
use bbm_events::{Event, Header};
use bbm_regimes::{NoMemory, Pe};
use bbm_tlb_machine::can_read;
use std::alloc::Global;

/// Whether the PE can read the value at the place of the goal after these events, and it has the core of what the place
/// holds.
fn is_like(header: &Header, events: &[Event], pe: Pe, goal: Goal, value: u64) -> bool
    ensures { result ≡ spec.is_like header.now (reverse events.now) pe goal value }
{
    is_valid(goal.kind, goal.level, value)
        && !needs_bbm(goal.kind, goal.level, goal.value, value)
        && can_read(header, events, goal.place, pe, value)
}

/// The lesser of a value and the best one so far.
fn lesser(best: Option<u64>, value: u64) -> Option<u64>
    ensures { result ≡ Some (min value (unwrap_or best value)) }
{
    match best {
        Some(least) => Some(value.min(least)),
        None => Some(value),
    }
}

/// The best value so far after a look at one more event.
fn look(
    header: &Header,
    events: &[Event],
    pe: Pe,
    goal: Goal,
    event: &Event,
    best: Option<u64>,
) -> Option<u64>
    ensures { (h : List TheEvent)
        → best ≡ least (filter (spec.is_like header.now (reverse events.now) pe goal) (spec.written_at h goal.place))
        → result ≡ least (filter (spec.is_like header.now (reverse events.now) pe goal)
        (spec.written_at (event.now ∷ h) goal.place)) }
{
    match *event {
        Event::Write { place, value, .. } => {
            if place == goal.place {
                if is_like(header, events, pe, goal, value) {
                    lesser(best, value)
                } else {
                    best
                }
            } else {
                best
            }
        }
        _ => best,
    }
}

/// The least value that the PE can read so, None where there is none.
#[tactic(auto, using(crate::proofs::ReadCode::one_more))]
fn least_read(header: &Header, events: &[Event], pe: Pe, goal: Goal) -> Option<u64>
    ensures { result ≡ spec.least_read header.now (reverse events.now) pe goal }
{
    let mut best = None;
    for event in events {
        best = look(header, events, pe, goal, event, best);
    }
    best
}

/// The least reads of a way that the PE can make after these events, None where it can't read some place of it so.
/// `NoMemory` where there is none.
#[tactic(auto, using(crate::proofs::ReadCode::reads))]
pub fn least_reads(
    alloc: Global,
    header: &Header,
    events: &[Event],
    pe: Pe,
    way: &[Goal],
) -> Result<Option<Vec<Read>>, NoMemory>
    ensures { IfOk result (λ reads. option_map (λ r. r.items) reads
        ≡ spec.least_reads header.now (reverse events.now) pe way.now) }
{
    let mut reads = Vec::new(alloc);
    for goal in way {
        match least_read(header, events, pe, *goal) {
            Some(value) => {
                let place = goal.place;
                reads.push(Read { place, value })?;
            }
            None => return Ok(None),
        }
    }
    Ok(Some(reads))
}
