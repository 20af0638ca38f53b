//! The emptied tables: no entry ends in them any more, and nothing is held below them.
//! Source: project's own choice.

ghost use Rattle.std.specs.Prelude.{◌≡◌, ℕ, ◌&&◌, ◌||◌, ◌==◌, false, not, IfOk, OnOk};
ghost use Rattle.std.specs.Option.{option_map_or};
ghost use Rattle.bbm_regimes.specs.declared.regime.Kind.{Kind as TheKind};
ghost use Rattle.bbm_rules.specs.Held as holding;
ghost use Rattle.bbm_rules.specs.Lists.{any};
ghost use Rattle.bbm_oracle_trees.specs.Emptied as spec;
ghost use Rattle.bbm_oracle_trees.specs.Past.{notes};

use crate::taken::Taken;
use crate::tree::next_page;
use bbm_descriptor::is_valid;
use bbm_events::{Event, Header};
use bbm_oracle_patterns::{Evidence, TreePlace};
use bbm_oracle_tags::places_in;
use bbm_oracle_tags::roots::same_kind;
use bbm_regimes::{Kind, Level, NoMemory, Page, Place};
use std::alloc::Global;

/// The tables of a kind and a level.
#[derive(Clone, Copy)]
struct Tables {
    kind: Kind,
    level: Level,
}

/// Whether a table goes, too, where no entry ends in it any more and nothing is held below it. It waits for the
/// commands: no version does so yet.
fn empties_tables(header: &Header) -> bool
    ensures { result ≡ holding.empties_tables header.now.version }
{
    let _version = header.version;
    false
}

/// Whether the two are one place, at one kind and level.
fn is_same(one: &TreePlace, other: &TreePlace) -> bool
    ensures { result ≡ spec.is_seat other.now.kind other.now.level other.now.place one.now }
{
    same_kind(one.kind, other.kind) && one.level == other.level && one.place == other.place
}

/// Whether the place is one of these, at its kind and level.
pub fn has_seat(seats: &[TreePlace], seat: &TreePlace) -> bool
    ensures { result ≡ spec.is_among seats.now seat.now.kind seat.now.level seat.now.place }
{
    for other in seats {
        if is_same(other, seat) {
            return true;
        }
    }
    false
}

/// Whether the last valid value of the place ends with the event.
fn ends(event: &Event, seat: &TreePlace) -> bool
    ensures { result ≡ spec.ends_last seat.now.kind seat.now.level seat.now.place event.now }
{
    match *event {
        Event::Write {
            pe: _,
            place,
            value,
        } => place == seat.place && is_valid(seat.kind, seat.level, value),
        Event::Init { pe: _, page } => page == seat.place.page(),
        _ => false,
    }
}

/// Those of the places whose last valid values go on after the event.
fn lasting(alloc: Global, seats: &[TreePlace], event: &Event) -> Result<Vec<TreePlace>, NoMemory>
    ensures { IfOk result (λ left. (kind : TheKind) (level place : ℕ) → spec.is_among left.items kind level place
        ≡ (not (spec.ends_last kind level place event.now) && spec.is_among seats.now kind level place)) }
{
    let mut left = Vec::new(alloc);
    for seat in seats {
        if !ends(event, seat) {
            left.push(*seat)?;
        }
    }
    Ok(left)
}

/// Whether the place holds something, where these are the emptied ones.
fn holds<E: Evidence>(taken: &Taken<E>, emptied: &[TreePlace], seat: &TreePlace) -> bool
    ensures { result ≡ spec.holds_by taken.now.heading taken.now.trust emptied.now seat.now.kind seat.now.level
        seat.now.place (notes taken.now) }
{
    taken.held(seat, has_seat(emptied, seat)).is_some()
}

/// Whether one of the places holds something so, at the kind one level deeper than these tables.
fn holds_some<E: Evidence>(
    taken: &Taken<E>,
    emptied: &[TreePlace],
    kind: Kind,
    level: Level,
    places: &[Place],
) -> bool
    ensures { result ≡ any (λ below. spec.holds_by taken.now.heading taken.now.trust emptied.now kind level below
        (notes taken.now)) places.now }
{
    for place in places {
        let seat = TreePlace {
            place: *place,
            kind,
            level,
        };
        if holds(taken, emptied, &seat) {
            return true;
        }
    }
    false
}

/// Whether the place is above at every PE, its last valid value a table, and no place of the next page holds anything,
/// where these are the emptied ones one level deeper.
fn is_empty_above<E: Evidence>(
    alloc: Global,
    taken: &Taken<E>,
    emptied: &[TreePlace],
    seat: &TreePlace,
) -> Result<bool, NoMemory>
    ensures { IfOk result (λ empty. empty ≡ spec.is_empty taken.now.heading taken.now.trust emptied.now seat.now.kind
        seat.now.level seat.now.place (notes taken.now)) }
{
    match taken.value_above(seat) {
        Some(value) => match next_page(seat.kind, seat.level, value) {
            Some(next) => {
                let places = places_in(alloc, taken.events(), next)?;
                let deeper = seat.level.below().unwrap();
                Ok(!holds_some(taken, emptied, seat.kind, deeper, &places))
            }
            None => Ok(false),
        },
        None => Ok(false),
    }
}

/// Adds the place, where it isn't one of the emptied ones, and is empty and above.
fn add_seat<E: Evidence>(
    alloc: Global,
    taken: &Taken<E>,
    emptied: &[TreePlace],
    seat: &TreePlace,
    found: &mut Vec<TreePlace>,
) -> Result<(), NoMemory>
    ensures { OnOk result ((kind : TheKind) (level place : ℕ) → spec.is_among found.new.items kind level place
        ≡ (spec.is_among found.old.items kind level place || (spec.is_seat kind level place seat.now
        && spec.is_new taken.now.heading taken.now.trust emptied.now seat.now.kind seat.now.level seat.now.place
        (notes taken.now)))) }
{
    if has_seat(emptied, seat) {
        return Ok(());
    }
    if is_empty_above(alloc, taken, emptied, seat)? {
        found.push(*seat)?;
    }
    Ok(())
}

/// The place that the event makes such a table; None where it makes none.
fn linked_by(event: &Event, tables: &Tables) -> Option<Place>
    ensures { (place : ℕ) → spec.links tables.now.kind tables.now.level place event.now
        ≡ option_map_or (λ at. at == place) result false }
{
    match *event {
        Event::Write {
            pe: _,
            place,
            value,
        } => {
            if next_page(tables.kind, tables.level, value).is_some() {
                Some(place)
            } else {
                None
            }
        }
        _ => None,
    }
}

/// Adds the place that the event makes such a table, where it isn't one of the emptied ones, and is empty and above.
fn add_linked<E: Evidence>(
    alloc: Global,
    taken: &Taken<E>,
    emptied: &[TreePlace],
    tables: &Tables,
    event: &Event,
    found: &mut Vec<TreePlace>,
) -> Result<(), NoMemory>
    ensures { OnOk result (spec.Adds tables.now.kind tables.now.level (λ kind level place.
        spec.links kind level place event.now && spec.is_new taken.now.heading taken.now.trust emptied.now kind level
        place (notes taken.now)) found.old.items found.new.items) }
{
    match linked_by(event, tables) {
        Some(place) => {
            let seat = TreePlace {
                place,
                kind: tables.kind,
                level: tables.level,
            };
            add_seat(alloc, taken, emptied, &seat, found)?;
            Ok(())
        }
        None => Ok(()),
    }
}

/// Adds such tables as aren't among the emptied ones, and are empty and above.
fn add_tables<E: Evidence>(
    alloc: Global,
    taken: &Taken<E>,
    emptied: &[TreePlace],
    tables: &Tables,
    found: &mut Vec<TreePlace>,
) -> Result<(), NoMemory>
    ensures { OnOk result (spec.Adds tables.now.kind tables.now.level (λ kind level place.
        spec.is_new taken.now.heading taken.now.trust emptied.now kind level place (notes taken.now))
        found.old.items found.new.items) }
{
    let events = taken.events();
    for event in events {
        add_linked(alloc, taken, emptied, tables, event, found)?;
    }
    Ok(())
}

/// The tables of the level that aren't among the emptied ones, and are empty and above.
fn tables_of_level<E: Evidence>(
    alloc: Global,
    taken: &Taken<E>,
    emptied: &[TreePlace],
    level: Level,
) -> Result<Vec<TreePlace>, NoMemory>
    ensures { IfOk result (λ found. (kind : TheKind) (l place : ℕ) → spec.is_among found.items kind l place
        ≡ ((level == l) && spec.is_new taken.now.heading taken.now.trust emptied.now kind l place (notes taken.now))) }
{
    let mut found = Vec::new(alloc);
    add_tables(
        alloc,
        taken,
        emptied,
        &Tables {
            kind: Kind::El2,
            level,
        },
        &mut found,
    )?;
    add_tables(
        alloc,
        taken,
        emptied,
        &Tables {
            kind: Kind::S2,
            level,
        },
        &mut found,
    )?;
    add_tables(
        alloc,
        taken,
        emptied,
        &Tables {
            kind: Kind::Ttbr0,
            level,
        },
        &mut found,
    )?;
    add_tables(
        alloc,
        taken,
        emptied,
        &Tables {
            kind: Kind::Ttbr1,
            level,
        },
        &mut found,
    )?;
    Ok(found)
}

/// Adds the tables of the level that are empty and above, where the emptied ones one level deeper are among these.
fn add_level<E: Evidence>(
    alloc: Global,
    taken: &Taken<E>,
    level: Level,
    emptied: &mut Vec<TreePlace>,
) -> Result<(), NoMemory>
    ensures { OnOk result ((kind : TheKind) (l place : ℕ) → spec.is_among emptied.new.items kind l place
        ≡ (spec.is_among emptied.old.items kind l place || ((level == l) && spec.is_empty taken.now.heading
        taken.now.trust emptied.old.items kind l place (notes taken.now)))) }
{
    let mut found = tables_of_level(alloc, taken, emptied, level)?;
    emptied.append(&mut found)?;
    Ok(())
}

/// Adds the tables that are empty and above now, the deepest first.
fn add_emptied<E: Evidence>(
    alloc: Global,
    taken: &Taken<E>,
    emptied: &mut Vec<TreePlace>,
) -> Result<(), NoMemory>
    ensures { OnOk result (spec.AddsAll taken.now.heading taken.now.trust (notes taken.now) emptied.old.items
        emptied.new.items) }
{
    add_level(alloc, taken, Level::TWO, emptied)?;
    add_level(alloc, taken, Level::ONE, emptied)?;
    add_level(alloc, taken, Level::ZERO, emptied)?;
    Ok(())
}

/// Whether the event is a DSB.
fn is_dsb(event: &Event) -> bool
    ensures { result ≡ spec.is_barrier event.now }
{
    matches!(*event, Event::Dsb { .. })
}

/// The tables that are emptied after the newest event, where these were so before it, and a version that empties tables.
fn emptied_now<E: Evidence>(
    alloc: Global,
    taken: &Taken<E>,
    before: &[TreePlace],
    event: &Event,
) -> Result<Vec<TreePlace>, NoMemory>
    ensures { IfOk result (λ now. spec.Goes taken.now.heading taken.now.trust (notes taken.now) event.now before.now
        now.items) }
{
    let mut now = lasting(alloc, before, event)?;
    if is_dsb(event) {
        add_emptied(alloc, taken, &mut now)?;
    }
    Ok(now)
}

/// The tables that are emptied after the newest event, where these were so before it. `NoMemory` where there is none.
pub fn emptied_after<E: Evidence>(
    alloc: Global,
    taken: &Taken<E>,
    before: &[TreePlace],
    event: &Event,
) -> Result<Vec<TreePlace>, NoMemory>
    requires { spec.WereEmptied taken.now event.now before.now }
    ensures { IfOk result (λ now. spec.AreEmptied taken.now.heading taken.now.trust (notes taken.now) now.items) }
{
    if empties_tables(taken.header()) {
        let now = emptied_now(alloc, taken, before, event)?;
        Ok(now)
    } else {
        Ok(Vec::new(alloc))
    }
}
