//! The entries that conflict with an event.

ghost use Rattle.std.specs.Prelude.{◌≡◌, ◌==◌, ◌&&◌, not, List, ◌∷◌, reverse, IfOk};
ghost use Rattle.bbm_events.specs.declared.event.Event.{Event as TheEvent};
ghost use Rattle.bbm_rules.specs.Lists.{any};
ghost use Rattle.bbm_rules.specs.Places.{page_of};
ghost use Rattle.bbm_tlb_machine.specs.Entry.{is_given_up as given_up, parts_of};
ghost use Rattle.bbm_tlb_machine.specs.Safe as spec;

use crate::entry::Entry;
use crate::given_up::is_given_up;
use crate::living::Living;
use bbm_events::{Event, Header};
use bbm_oracle_tags::{Reading, readings_at};
use bbm_regimes::{NoMemory, Page, Place, same_tag};
use std::alloc::Global;

/// Whether an entry whose root wasn't given up has a part at the place from which the value needs break-before-make.
fn any_stale(header: &Header, events: &[Event], living: &[Living], place: Place, value: u64) -> bool
    ensures { result ≡ any (λ l. not (given_up header.now (reverse events.now) l.entry)
        && any (spec.is_stale place value) (parts_of l.entry)) living.now }
{
    living.iter().any(|living| {
        !is_given_up(header, events, &living.entry) && living.entry.is_stale(place, value)
    })
}

/// Whether an entry whose root wasn't given up has a part in the page.
fn any_in(header: &Header, events: &[Event], living: &[Living], page: Page) -> bool
    ensures { result ≡ any (λ l. not (given_up header.now (reverse events.now) l.entry)
        && any (λ part. page_of part.place == page) (parts_of l.entry)) living.now }
{
    living.iter().any(|living| {
        !is_given_up(header, events, &living.entry) && living.entry.is_in(page)
    })
}

/// Whether the entry's tag is among the readings for another root than the entry's.
fn has_other_root(header: &Header, events: &[Event], readings: &[Reading], entry: &Entry) -> bool
    ensures { result ≡ any (spec.has_other_root header.now (reverse events.now) entry.now) readings.now }
{
    let tag = entry.tag();
    let root = entry.root;
    readings.iter().any(|reading| {
        same_tag(reading.tag, tag) && (reading.root != root || is_given_up(header, events, entry))
    })
}

/// Whether an entry's tag is.
fn any_other_root(
    header: &Header,
    events: &[Event],
    living: &[Living],
    readings: &[Reading],
) -> bool
    ensures { result ≡ any (λ l. any (spec.has_other_root header.now (reverse events.now) l.entry) readings.now)
        living.now }
{
    living.iter().any(|living| has_other_root(header, events, readings, &living.entry))
}

/// Whether one of the entries conflicts with the event, which is the last of the events. `NoMemory` where there is
/// none.
/// Source: project's own choice.
pub fn in_conflict(
    alloc: Global,
    header: &Header,
    events: &[Event],
    living: &[Living],
    event: &Event,
) -> Result<bool, NoMemory>
    ensures { IfOk result (λ conflicts. (h : List TheEvent) → reverse events.now ≡ event.now ∷ h
        → conflicts ≡ any (λ l. spec.conflicts_with header.now h event.now l.entry) living.now) }
{
    match *event {
        Event::Write {
            pe: _,
            place,
            value,
        } => Ok(any_stale(header, events, living, place, value)),
        Event::Init { pe: _, page } => Ok(any_in(header, events, living, page)),
        Event::Msr { pe, .. } => {
            let readings = readings_at(alloc, header, events, pe)?;
            Ok(any_other_root(header, events, living, &readings))
        }
        _ => Ok(false),
    }
}
