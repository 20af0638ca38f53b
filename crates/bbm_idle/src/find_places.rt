//! The places that were ever written, and at which PEs a TLBI adds something to what they have been through.
//! Source: project's own choice.

ghost use Rattle.std.specs.Prelude.{◌≡◌, ℕ, ◌&&◌, ◌||◌, List, ◌∷◌, length, reverse, IfOk, OnOk, Some};
ghost use Rattle.bbm_events.specs.declared.event.Event.{Event as TheEvent};
ghost use Rattle.bbm_events.specs.Heading.{Heading};
ghost use Rattle.bbm_regimes.specs.PeMask.{pe_in};
ghost use Rattle.bbm_tlbi_scope.specs.declared.entry.Cover.{Cover as Grade};
ghost use Rattle.bbm_rules.specs.Claims.{Patterns};
ghost use Rattle.bbm_rules.specs.Held as holding;
ghost use Rattle.bbm_rules.specs.Lists.{among, any, with_number};
ghost use Rattle.bbm_rules.specs.Notes.{Noted};
ghost use Rattle.bbm_rules.specs.Values as values;
ghost use Rattle.bbm_oracle_patterns.specs.Kept.{note_of, notes_of};
ghost use Rattle.bbm_oracle_patterns.specs.declared.kept.Covering.TheVariants.{Top};
ghost use Rattle.bbm_oracle_trees.specs.Past.{notes};
ghost use Rattle.bbm_idle.specs.Finding as spec;
ghost use Rattle.bbm_idle.specs.Idle as idle;

use bbm_events::{Event, Header};
use bbm_oracle_patterns::{Covering, Kept, Trace, TreePlace, last_valid, trace_for};
use bbm_oracle_tags::AllPatterns;
use bbm_oracle_trees::History;
use bbm_regimes::{NoMemory, PeMask, Place};
use bbm_tlbi_scope::Cover;
use std::alloc::Global;

/// Whether the place is in the list.
fn has_place(places: &[Place], place: Place) -> bool
    ensures { result ≡ among place places.now }
{
    places.iter().any(|other| *other == place)
}

/// Puts the place in front, unless it is there already.
fn put_place(places: &mut Vec<Place>, place: Place) -> Result<(), NoMemory>
    ensures { OnOk result (places.new.items ≡ with_number place places.old.items) }
{
    if has_place(places, place) {
        return Ok(());
    }
    places.insert(0, place)?;
    Ok(())
}

/// The places that were ever written, after one more event. `NoMemory` where there is none.
pub fn add_written(places: &mut Vec<Place>, event: &Event) -> Result<(), NoMemory>
    ensures { OnOk result ((h : List TheEvent) → places.old.items ≡ values.written_places h
        → places.new.items ≡ values.written_places (event.now ∷ h)) }
{
    match *event {
        Event::Write {
            pe: _,
            place,
            value: _,
        } => put_place(places, place),
        _ => Ok(()),
    }
}

/// The place with its kind and level; None where it is in no tree.
fn seat_at(history: &History<AllPatterns>, place: Place) -> Option<TreePlace>
    requires { history.now.trust ≡ Patterns }
    ensures { (p : ℕ) (tlbi : Noted) → spec.seat_adds history.now.heading (notes history.now) tlbi p result
        ≡ idle.adds_with history.now.heading (notes history.now) tlbi p place }
{
    match history.node_of(place.page()) {
        Some(node) => Some(TreePlace {
            place,
            kind: node.kind,
            level: node.level,
        }),
        None => None,
    }
}

/// Adds the seat, where there is one.
fn add_seat(seats: &mut Vec<TreePlace>, found: Option<TreePlace>) -> Result<(), NoMemory>
    ensures { OnOk result ((heading : Heading) (h : List Noted) (p : ℕ) (tlbi : Noted)
        → any (spec.place_adds heading h tlbi p) seats.new.items
        ≡ (any (spec.place_adds heading h tlbi p) seats.old.items || spec.seat_adds heading h tlbi p found)) }
{
    let Some(seat) = found else {
        return Ok(());
    };
    seats.push(seat)?;
    Ok(())
}

/// The seats of those of the places that are in a tree. `NoMemory` where there is none.
pub fn seats_of(
    alloc: Global,
    history: &History<AllPatterns>,
    places: &[Place],
) -> Result<Vec<TreePlace>, NoMemory>
    requires { history.now.trust ≡ Patterns }
    ensures { IfOk result (λ seats. (p : ℕ) (tlbi : Noted)
        → any (spec.place_adds history.now.heading (notes history.now) tlbi p) seats.items
        ≡ any (idle.adds_with history.now.heading (notes history.now) tlbi p) places.now) }
{
    let mut seats = Vec::new(alloc);
    for place in places {
        add_seat(&mut seats, seat_at(history, *place))?;
    }
    Ok(seats)
}

/// The PEs at which a TLBI that covers a place so far adds something to this trace.
fn added(cover: Cover, trace: &Trace) -> PeMask
    ensures { (p : ℕ) → pe_in result p ≡ spec.trace_adds cover p (Some trace.now) }
{
    match cover {
        Cover::Full => trace.seen.minus(trace.cleansed),
        Cover::Half => trace.seen.minus(trace.half),
        Cover::Second => trace.half.minus(trace.cleansed),
        Cover::None => PeMask::none(),
    }
}

/// The trace of a seat since its last valid write, where each event covers it as far as is asked; None where there is no
/// such write. The log is oldest first.
fn trace_in(header: &Header, log: &[Kept], seat: &TreePlace, covering: Covering) -> Option<Trace>
    ensures { (p : ℕ) (cover : Grade) → spec.trace_adds cover p result
        ≡ spec.adds_for header.now covering cover p seat.now.place
        (holding.last_valid seat.now.kind seat.now.level seat.now.place (notes_of (reverse log.now))) }
{
    match last_valid(log, seat.kind, seat.level, seat.place) {
        Some(write) => Some(trace_for(header, &log[write.index + 1..], seat.place, covering)),
        None => None,
    }
}

/// The PEs at which a TLBI that comes after the log and covers the seat so far adds something, where each event covers it
/// as far as is asked. Where it doesn't cover the place nothing is searched.
#[tactic(auto, using(crate::proofs::FindPlaces::adds_nothing))]
fn added_for(
    header: &Header,
    log: &[Kept],
    cover: Cover,
    seat: &TreePlace,
    covering: Covering,
) -> PeMask
    ensures { (p : ℕ) → pe_in result p ≡ spec.adds_for header.now covering cover p seat.now.place
        (holding.last_valid seat.now.kind seat.now.level seat.now.place (notes_of (reverse log.now))) }
{
    match cover {
        Cover::None => PeMask::none(),
        Cover::Half | Cover::Second | Cover::Full => {
            match trace_in(header, log, seat, covering) {
                Some(trace) => added(cover, &trace),
                None => PeMask::none(),
            }
        }
    }
}

/// Whether a table goes, too, where no entry ends in it any more and nothing is held below it: under no version yet.
fn empties_tables(version: u8) -> bool
    ensures { result ≡ holding.empties_tables version }
{
    false
}

/// The PEs at which a TLBI that comes after the log and has this top cover of the seat adds something by it: none where no
/// table is emptied.
fn added_by_top(header: &Header, log: &[Kept], top: Cover, seat: &TreePlace) -> PeMask
    ensures { (p : ℕ) → pe_in result p ≡ (holding.empties_tables header.now.version
        && spec.adds_for header.now Top top p seat.now.place
        (holding.last_valid seat.now.kind seat.now.level seat.now.place (notes_of (reverse log.now)))) }
{
    if empties_tables(header.version) {
        added_for(header, log, top, seat, Covering::Top)
    } else {
        PeMask::none()
    }
}

/// The PEs at which the newest event, a TLBI that comes after the log, adds something at the seat, by its cover or by its
/// top cover.
fn added_at(header: &Header, log: &[Kept], newest: &Kept, seat: &TreePlace) -> PeMask
    ensures { (p : ℕ) → pe_in result p ≡ spec.place_adds header.now (notes_of (reverse log.now))
        (note_of (length log.now) newest.now) p seat.now }
{
    let cover = newest.cover_for(Covering::Whole, seat.place);
    let top = newest.cover_for(Covering::Top, seat.place);
    let whole = added_for(header, log, cover, seat, Covering::Whole);
    whole.or(added_by_top(header, log, top, seat))
}

/// The PEs at which the newest event, a TLBI that comes after the log, adds something at one of the places.
pub fn added_by(header: &Header, log: &[Kept], newest: &Kept, seats: &[TreePlace]) -> PeMask
    ensures { (p : ℕ) → pe_in result p ≡ any (spec.place_adds header.now (notes_of (reverse log.now))
        (note_of (length log.now) newest.now) p) seats.now }
{
    let mut pes = PeMask::none();
    for seat in seats {
        pes = pes.or(added_at(header, log, newest, seat));
    }
    pes
}
