//! The places of trees that hold a value and whose value is invalid.

ghost use Rattle.std.specs.Prelude.{◌≡◌, suc, ◌||◌, List, ◌∷◌, reverse, count_by, if◌then◌else◌};
ghost use Rattle.bbm_events.specs.declared.event.Event.{Event};
ghost use Rattle.bbm_events.specs.Heading.{Heading};
ghost use Rattle.bbm_rules.specs.Lists.{among};
ghost use Rattle.bbm_rules.specs.Notes.{events_of};
ghost use Rattle.bbm_rules.specs.Phases as phases;
ghost use Rattle.bbm_rules.specs.Values as values;
ghost use Rattle.bbm_oracle_trees.specs.Past.{notes};
ghost use Rattle.bbm_oracle_trees.specs.HistoryStandsFor.{StandsFor};

use bbm_descriptor::is_valid;
use bbm_events::Event;
use bbm_oracle_patterns::Evidence;
use bbm_oracle_tags::values::value_of;
use bbm_oracle_trees::History;
use bbm_regimes::Place;

/// Whether the place is one of a tree, holds a value and has an invalid one.
fn is_restless<E: Evidence>(history: &History<E>, place: Place) -> bool
    ensures { result ≡ phases.is_restless history.now.heading history.now.trust (notes history.now) place }
{
    match history.node_of(place.page()) {
        Some(node) => {
            let value = value_of(history.events(), place);
            history.held_at(node, place).is_some() && !is_valid(node.kind, node.level, value)
        }
        None => false,
    }
}

/// Whether the event writes the place.
fn writes(event: &Event, place: Place) -> bool
    ensures { (h : List Event) → among place (values.written_places (event.now ∷ h))
        ≡ (result || among place (values.written_places h)) }
{
    match *event {
        Event::Write {
            pe: _,
            place: at,
            value: _,
        } => at == place,
        _ => false,
    }
}

/// Whether the place was written.
fn is_written(events: &[Event], place: Place) -> bool
    ensures { result ≡ among place (values.written_places (reverse events.now)) }
{
    let mut found = false;
    for event in events {
        found = writes(event, place) || found;
    }
    found
}

/// Whether the event, which comes after these, is the first write of a restless place.
fn is_first_write<E: Evidence>(history: &History<E>, before: &[Event], event: &Event) -> bool
    ensures { count_by (phases.is_restless history.now.heading history.now.trust (notes history.now))
        (values.written_places (event.now ∷ reverse before.now))
        ≡ (if result then suc (count_by (phases.is_restless history.now.heading history.now.trust (notes history.now))
        (values.written_places (reverse before.now)))
        else count_by (phases.is_restless history.now.heading history.now.trust (notes history.now))
        (values.written_places (reverse before.now))) }
{
    match *event {
        Event::Write {
            pe: _,
            place,
            value: _,
        } => !is_written(before, place) && is_restless(history, place),
        _ => false,
    }
}

/// The number of restless places among the places that were written.
fn count_written<E: Evidence>(history: &History<E>) -> u64
    ensures { result ≡ count_by (phases.is_restless history.now.heading history.now.trust (notes history.now))
        (values.written_places (events_of (notes history.now))) }
{
    let events = history.events();
    let mut count: u64 = 0;
    for (index, event) in events.iter().enumerate() {
        if is_first_write(history, &events[..index], event) {
            count += 1;
        }
    }
    count
}

/// The number of places of trees that hold a value and whose value is invalid. Source: project's own choice.
pub fn count_restless<E: Evidence>(history: &History<E>) -> u64
    ensures { (heading : Heading) (h : List Event) → StandsFor history.now heading h
        → result ≡ phases.restless_of heading history.now.trust h }
{
    count_written(history)
}
