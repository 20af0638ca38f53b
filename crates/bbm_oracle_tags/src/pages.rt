//! Initialised pages and null pages.
//! Source: project's own choice, where no other is named.

ghost use Rattle.std.specs.Prelude.{◌≡◌, not, ◌==◌, ◌+◌, List, ◌∷◌, reverse, length, IfOk, if◌then◌else◌};
ghost use Rattle.bbm_events.specs.declared.event.Event.{Event};
ghost use Rattle.bbm_rules.specs.Lists.{among, any};
ghost use Rattle.bbm_rules.specs.Pages as spec;
ghost use Rattle.bbm_rules.specs.Values as values;

use crate::values::{places_in, value_of};
use bbm_events::Event;
use bbm_regimes::{NoMemory, Page, Place};
use std::alloc::Global;

/// Whether the page is a null page after one more event.
fn null_after(before: bool, event: &Event, page: u64) -> bool
    ensures { (h : List Event) → before ≡ spec.is_null h page → result ≡ spec.is_null (event.now ∷ h) page }
{
    match *event {
        Event::Null { pe: _, page: at } => at.get() == page || before,
        _ => before,
    }
}

/// Whether the page at this address, in bytes, was declared a null page; false where no page is there.
pub fn is_null(events: &[Event], page: u64) -> bool
    ensures { result ≡ spec.is_null (reverse events.now) page }
{
    let mut found = false;
    for event in events {
        found = null_after(found, event, page);
    }
    found
}

/// Whether the page was initialised, after one more event.
fn initialised_after(before: bool, event: &Event, page: Page) -> bool
    ensures { (h : List Event) → before ≡ among page (spec.initialised h)
        → result ≡ among page (spec.initialised (event.now ∷ h)) }
{
    match *event {
        Event::Init { pe: _, page: at } => at == page || before,
        _ => before,
    }
}

/// Whether the page was ever initialised.
pub fn is_initialised(events: &[Event], page: Page) -> bool
    ensures { result ≡ among page (spec.initialised (reverse events.now)) }
{
    let mut found = false;
    for event in events {
        found = initialised_after(found, event, page);
    }
    found
}

/// Whether the event initialises a page for the first time.
fn is_first_init(before: &[Event], event: &Event) -> bool
    ensures { length (spec.initialised (event.now ∷ reverse before.now))
        ≡ (if result then length (spec.initialised (reverse before.now)) + 1
        else length (spec.initialised (reverse before.now))) }
{
    match *event {
        Event::Init { pe: _, page } => !is_initialised(before, page),
        _ => false,
    }
}

/// The number of pages that were ever initialised, each counted once.
pub fn count_initialised(events: &[Event]) -> usize
    ensures { result ≡ length (spec.initialised (reverse events.now)) }
{
    let mut count: usize = 0;
    for (i, event) in events.iter().enumerate() {
        if is_first_init(&events[..i], event) {
            count += 1;
        }
    }
    count
}

/// Whether one of the places has another value than 0.
fn has_other_than_0(events: &[Event], places: &[Place]) -> bool
    ensures { result ≡ any (λ place. not (values.value_of (reverse events.now) place == 0)) places.now }
{
    places.iter().any(|place| value_of(events, *place) != 0)
}

/// Whether some place of the page has another value than 0. `NoMemory` where there is none.
pub fn has_values(alloc: Global, events: &[Event], page: Page) -> Result<bool, NoMemory>
    ensures { IfOk result (λ found. found ≡ any (λ place. not (values.value_of (reverse events.now) place == 0))
        (values.places_in (reverse events.now) page)) }
{
    let places = places_in(alloc, events, page)?;
    Ok(has_other_than_0(events, &places))
}
