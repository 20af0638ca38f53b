//! The values of places.
//! Source: project's own choice, where no other is named.

ghost use Rattle.std.specs.Prelude.{◌≡◌, List, ◌∷◌, reverse, IfOk, OnOk};
ghost use Rattle.bbm_events.specs.declared.event.Event.{Event};
ghost use Rattle.bbm_rules.specs.Lists.{among, with_number};
ghost use Rattle.bbm_rules.specs.Values as spec;

use bbm_events::Event;
use bbm_regimes::{NoMemory, Page, Place};
use std::alloc::Global;

/// The value of the place after one more event.
fn value_after(before: u64, event: &Event, place: Place) -> u64
    ensures { (h : List Event) → before ≡ spec.value_of h place → result ≡ spec.value_of (event.now ∷ h) place }
{
    match *event {
        Event::Write {
            pe: _,
            place: at,
            value,
        } => { if at == place { value } else { before } }
        Event::Init { pe: _, page } => { if page == place.page() { 0 } else { before } }
        _ => before,
    }
}

/// The value of the place: that of its last write since the last `init` of its page, else 0.
pub fn value_of(events: &[Event], place: Place) -> u64
    ensures { result ≡ spec.value_of (reverse events.now) place }
{
    let mut value = 0;
    for event in events {
        value = value_after(value, event, place);
    }
    value
}

/// Whether the place is in the list.
fn has_place(places: &[Place], place: Place) -> bool
    ensures { result ≡ among place places.now }
{
    places.iter().any(|other| *other == place)
}

/// Puts the place in front, unless it is there already.
fn put_place(places: &mut Vec<Place>, place: Place) -> Result<(), NoMemory>
    ensures { OnOk result (places.new.items ≡ with_number place places.old.items) }
{
    if has_place(places, place) {
        Ok(())
    } else {
        places.insert(0, place)?;
        Ok(())
    }
}

/// Puts the place in front that the event writes, where it is one of the page.
fn add_place(places: &mut Vec<Place>, event: &Event, page: Page) -> Result<(), NoMemory>
    ensures { OnOk result ((h : List Event) → places.old.items ≡ spec.places_in h page
        → places.new.items ≡ spec.places_in (event.now ∷ h) page) }
{
    match *event {
        Event::Write {
            pe: _,
            place,
            value: _,
        } => {
            if place.page() == page {
                put_place(places, place)
            } else {
                Ok(())
            }
        }
        _ => Ok(()),
    }
}

/// The places of the page that were ever written, each once, that of the latest first write in front. `NoMemory` where
/// there is none.
pub fn places_in(alloc: Global, events: &[Event], page: Page) -> Result<Vec<Place>, NoMemory>
    ensures { IfOk result (λ places. places.items ≡ spec.places_in (reverse events.now) page) }
{
    let mut places = Vec::new(alloc);
    for event in events {
        add_place(&mut places, event, page)?;
    }
    Ok(places)
}
