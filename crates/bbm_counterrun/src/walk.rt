//! The walk of a plan.

ghost use Rattle.std.specs.Prelude.{◌≡◌, ◌≤◌, length, take, reverse, IfOk};
ghost use Rattle.bbm_counterrun.specs.Tested as spec;
ghost use Rattle.bbm_rules.specs.Lists.{if_so};
ghost use Rattle.bbm_tlb_machine.specs.Step.{extended, may_extend};

use crate::read::Read;
use crate::search::Search;
use bbm_events::{Event, Header};
use bbm_regimes::{NoMemory, Pe};
use bbm_tlb_machine::{Entry, FirstRead, extend, start};
use std::alloc::Global;

/// The entry that has one part more than the given one, by this read; None where there may be none.
fn extend_one(
    alloc: Global,
    header: &Header,
    events: &[Event],
    entry: &Entry,
    read: &Read,
) -> Result<Option<Entry>, NoMemory>
    ensures { IfOk result (λ made. made
        ≡ if_so (may_extend header.now (reverse events.now) entry.now read.now.place read.now.value)
        (extended entry.now read.now.place read.now.value)) }
{
    extend(alloc, header, events, entry, read.place, read.value)
}

/// The entry that the extends leave, one after the other; None where one of them can't be made.
fn extend_by(
    alloc: Global,
    header: &Header,
    events: &[Event],
    entry: Entry,
    reads: &[Read],
) -> Result<Option<Entry>, NoMemory>
    ensures { IfOk result (λ made. made ≡ if_so (spec.may_extend_by header.now (reverse events.now) entry reads.now)
        (spec.extended_by entry reads.now)) }
{
    let mut last = entry;
    for read in reads {
        match extend_one(alloc, header, events, &last, read)? {
            Some(next) => last = next,
            None => return Ok(None),
        }
    }
    Ok(Some(last))
}

/// The entry that the walk over these reads leaves, made when so many events were taken; None where it can't be made.
/// `NoMemory` where there is none.
pub fn walk(
    search: &Search,
    starts: usize,
    pe: Pe,
    number: u16,
    reads: &[Read],
) -> Result<Option<Entry>, NoMemory>
    requires { starts ≤ length search.now.events.now }
    ensures { IfOk result (λ made. made ≡ spec.walk_by search.now.header.now
        (reverse (take starts search.now.events.now)) pe search.now.kind number reads.now) }
{
    let [first, rest @ ..] = reads else {
        return Ok(None);
    };
    let (header, events) = (search.header, &search.events[..starts]);
    let read = FirstRead {
        pe,
        kind: search.kind,
        number,
        place: first.place,
        value: first.value,
    };
    match start(search.alloc, header, events, read)? {
        Some(entry) => extend_by(search.alloc, header, events, entry, rest),
        None => Ok(None),
    }
}
