//! The claims of the places that a DSB cleanses.
//! Source: project's own choice.

ghost use Rattle.std.specs.Prelude.{◌≡◌, ◌<◌, ◌≤◌, ◌+◌, ◌^◌, ◌||◌, ◌==◌, ℕ, insert, length, reverse, OnOk};
ghost use Rattle.bbm_rules.specs.Lists.{among};
ghost use Rattle.bbm_rules.specs.Notes.{Noted};
ghost use Rattle.bbm_oracle_patterns.specs.Kept.{notes_behind, notes_of};
ghost use Rattle.bbm_oracle_patterns.specs.Walk.{is_write_of};
ghost use Rattle.bbm_oracle_trees.specs.Past.{notes};
ghost use Rattle.bbm_certify.specs.DueAt as spec;
ghost use Rattle.bbm_certify.specs.Orders.{Adds};

use crate::patterns::{claim_of, first_finishing, least_pattern};
use crate::sorted::add_claim;
use crate::steps::Spot;
use bbm_events::{Claim, Event, Header};
use bbm_oracle_patterns::{Kept, Trace, last_valid, trace_of};
use bbm_oracle_tags::AllPatterns;
use bbm_oracle_trees::{History, Node};
use bbm_regimes::{NoMemory, Pe, PeMask, Place};
use bbm_rules::{law_cleansed, law_seen};

/// Adds the claim of the place at the PE that is due at the event, which comes behind the log, where the place was
/// cleansed at these PEs before it. The log begins behind the last valid write of the place.
fn add_spot(
    header: &Header,
    log: &[Kept],
    answer: &Event,
    spot: &Spot,
    cleansed: PeMask,
    due: &mut Vec<Claim>,
) -> Result<(), NoMemory>
    requires { spot.now.before + length log.now + 1 < 2 ^ 32 }
    ensures { OnOk result ((newest : Noted) → spec.IsNewest newest answer.now (spot.now.before + length log.now)
        → spec.Told header.now cleansed spot.now.place spot.now.pe (notes_behind spot.now.before (reverse log.now))
        → Adds (spec.IsDueHere header.now spot.now.place newest
        (notes_behind spot.now.before (reverse log.now)) spot.now.pe)
        due.old.items due.new.items) }
{
    law_cleansed();
    if cleansed.has(spot.pe) {
        return Ok(());
    }
    match least_pattern(header, log, answer, spot) {
        Some(pattern) => {
            let claim = claim_of(&pattern, spot, log.len());
            add_claim(due, &claim)
        }
        None => Ok(()),
    }
}

/// Adds the claim of the place at the PE that is due at the event, by all that is told of the place before the event.
/// None is due at a PE to which no write of the place is published.
fn add_where_seen(
    header: &Header,
    log: &[Kept],
    answer: &Event,
    spot: &Spot,
    trace: &Trace,
    due: &mut Vec<Claim>,
) -> Result<(), NoMemory>
    requires { spot.now.before + length log.now + 1 < 2 ^ 32 }
    ensures { OnOk result ((newest : Noted) → spec.IsNewest newest answer.now (spot.now.before + length log.now)
        → spec.ToldSeen header.now trace.now.seen spot.now.place spot.now.pe
        (notes_behind spot.now.before (reverse log.now))
        → spec.Told header.now trace.now.cleansed spot.now.place spot.now.pe
        (notes_behind spot.now.before (reverse log.now))
        → Adds (spec.IsDueHere header.now spot.now.place newest
        (notes_behind spot.now.before (reverse log.now)) spot.now.pe)
        due.old.items due.new.items) }
{
    law_cleansed();
    law_seen();
    if trace.seen.has(spot.pe) {
        add_spot(header, log, answer, spot, trace.cleansed, due)
    } else {
        Ok(())
    }
}

/// Adds the claims of the place that are due at the event, PE by PE, where so many events came before the log.
fn add_everywhere(
    header: &Header,
    log: &[Kept],
    answer: &Event,
    before: usize,
    place: Place,
    due: &mut Vec<Claim>,
) -> Result<(), NoMemory>
    requires { before + length log.now + 1 < 2 ^ 32 }
    ensures { OnOk result ((newest : Noted) → spec.IsNewest newest answer.now (before + length log.now)
        → Adds (spec.IsDueSince header.now place newest (notes_behind before (reverse log.now)) header.now.pes)
        due.old.items due.new.items) }
{
    let trace = trace_of(header, log, place);
    for number in 0..header.pes {
        let pe = Pe::new(number).unwrap();
        let spot = Spot { place, pe, before };
        add_where_seen(header, log, answer, &spot, &trace, due)?;
    }
    Ok(())
}

/// Adds the claims of the place that are due at the event, at every PE, where so many events came before the log. There
/// are none where no TLBI that covers the place waits for the event.
fn add_since(
    header: &Header,
    log: &[Kept],
    answer: &Event,
    before: usize,
    place: Place,
    due: &mut Vec<Claim>,
) -> Result<(), NoMemory>
    requires { before + length log.now + 1 < 2 ^ 32 }
    ensures { OnOk result ((newest : Noted) → spec.IsNewest newest answer.now (before + length log.now)
        → Adds (spec.IsDueSince header.now place newest (notes_behind before (reverse log.now)) header.now.pes)
        due.old.items due.new.items) }
{
    law_cleansed();
    match first_finishing(log, answer, place) {
        Some(_) => add_everywhere(header, log, answer, before, place, due),
        None => Ok(()),
    }
}

/// Adds the claims of the place of the page that are due at the event, which comes behind the log.
fn add_in(
    header: &Header,
    log: &[Kept],
    answer: &Event,
    node: &Node,
    place: Place,
    due: &mut Vec<Claim>,
) -> Result<(), NoMemory>
    requires { length log.now + 1 < 2 ^ 32 }
    ensures { OnOk result ((newest : Noted) → spec.IsNewest newest answer.now (length log.now)
        → Adds (spec.IsDueIn header.now node.now place newest
        (notes_of (reverse log.now))) due.old.items due.new.items) }
{
    match last_valid(log, node.kind, node.level, place) {
        Some(write) => {
            let from = write.index + 1;
            add_since(header, &log[from..], answer, from, place, due)
        }
        None => Ok(()),
    }
}

/// Adds the claims of the place that are due at the event, which comes behind the log, where this is the history after it.
fn add_at(
    history: &History<AllPatterns>,
    log: &[Kept],
    answer: &Event,
    place: Place,
    due: &mut Vec<Claim>,
) -> Result<(), NoMemory>
    requires { length log.now + 1 < 2 ^ 32 }
    ensures { OnOk result ((newest : Noted) → spec.IsNewest newest answer.now (length log.now)
        → Adds (spec.IsDueAt history.now.heading history.now.trust (notes history.now) newest
        (notes_of (reverse log.now)) place)
        due.old.items due.new.items) }
{
    match history.node_of(place.page()) {
        Some(node) => add_in(history.header(), log, answer, node, place, due),
        None => Ok(()),
    }
}

/// Adds the claims of the places that are due at the event, which comes behind the log, where this is the history after
/// it. `NoMemory` where there is none.
pub fn add_places(
    history: &History<AllPatterns>,
    log: &[Kept],
    answer: &Event,
    places: &[Place],
    due: &mut Vec<Claim>,
) -> Result<(), NoMemory>
    requires { length log.now + 1 < 2 ^ 32 }
    ensures { OnOk result ((newest : Noted) → spec.IsNewest newest answer.now (length log.now)
        → Adds (spec.AreDue history.now.heading history.now.trust (notes history.now) newest
        (notes_of (reverse log.now)) places.now)
        due.old.items due.new.items) }
{
    for place in places {
        add_at(history, log, answer, *place, due)?;
    }
    Ok(())
}

/// The index of the first of the places that isn't below this one; they stand in their order.
fn index_of(places: &[Place], place: Place) -> usize
    ensures { result ≤ length places.now }
{
    let mut index = places.len();
    while index > 0 && places[index - 1].get() >= place.get() {
        index -= 1;
    }
    index
}

/// Puts the place behind so many others.
fn put(places: &mut Vec<Place>, index: usize, place: Place) -> Result<(), NoMemory>
    requires { index ≤ length places.old.items }
    ensures { OnOk result (places.new.items ≡ insert places.old.items index place) }
{
    match places.insert(index, place) {
        Ok(()) => Ok(()),
        Err(_) => Err(NoMemory),
    }
}

/// Adds the place, unless it is there.
fn add_place(places: &mut Vec<Place>, place: Place) -> Result<(), NoMemory>
    ensures { OnOk result ((a : ℕ) → among a places.new.items ≡ ((place == a) || among a places.old.items)) }
{
    let index = index_of(places, place);
    if index < places.len() && places[index] == place {
        return Ok(());
    }
    put(places, index, place)
}

/// Adds the place that the event writes, where it writes one. `NoMemory` where there is none.
pub fn add_written(places: &mut Vec<Place>, event: &Event) -> Result<(), NoMemory>
    ensures { OnOk result ((a : ℕ) → among a places.new.items ≡
        (is_write_of a event.now || among a places.old.items)) }
{
    match *event {
        Event::Write { place, .. } => add_place(places, place),
        _ => Ok(()),
    }
}
