//! The phases of places at all PEs, and whether a DSB keeps them.
//! Source: project's own choice.

ghost use Rattle.std.specs.Prelude.{◌≡◌, ℕ, ◌<◌, ◌&&◌, ◌||◌, not, true, List, ◌∷◌, reverse, IfOk, OnOk};
ghost use Rattle.bbm_events.specs.declared.event.Event.{Event as TheEvent};
ghost use Rattle.bbm_events.specs.Fits.{fits_heading};
ghost use Rattle.bbm_events.specs.Heading.{Heading};
ghost use Rattle.bbm_regimes.specs.PeMask.{pe_in};
ghost use Rattle.bbm_rules.specs.declared.phase.Phase.{Phase};
ghost use Rattle.bbm_rules.specs.Claims.{Patterns};
ghost use Rattle.bbm_rules.specs.Lists.{every};
ghost use Rattle.bbm_rules.specs.Phases.{phase_of};
ghost use Rattle.bbm_rules.specs.Values.{written_places};
ghost use Rattle.bbm_oracle_patterns.specs.Kept.{notes_behind, notes_of};
ghost use Rattle.bbm_oracle_patterns.specs.PlacePhases.{phase_at};
ghost use Rattle.bbm_oracle_trees.specs.ByPatterns.{StandsByPatterns};
ghost use Rattle.bbm_idle.specs.Finding as spec;
ghost use Rattle.bbm_idle.specs.Idle as idle;
ghost use Rattle.bbm_idle.specs.SamePhase.{same_phase};

use bbm_descriptor::is_valid;
use bbm_events::{Event, Header};
use bbm_oracle_patterns::{Kept, Trace, cleansed_everywhere, last_valid, trace_of};
use bbm_oracle_tags::{AllPatterns, value_of};
use bbm_oracle_trees::History;
use bbm_regimes::{Kind, Level, NoMemory, PeMask, Place};
use std::alloc::Global;

/// The phases of a place at all PEs.
#[derive(Clone, Copy)]
pub enum Phases {
    /// It is clean at each.
    Clean,
    /// It is live at each.
    Live,
    /// It is broken, and at these PEs seen, half and cleansed.
    Broken(Trace),
}

/// A place and its phases.
#[derive(Clone, Copy)]
pub struct PlacePhases {
    /// The place.
    pub place: Place,
    /// Its phases.
    pub phases: Phases,
}

/// The phases of a place whose last valid write stands before these events, and whose value is valid or isn't.
fn phases_since(header: &Header, later: &[Kept], place: Place, valid: bool) -> Phases
    ensures { (before p : ℕ) → spec.phase_from result p
        ≡ spec.phase_since header.now valid place p (notes_behind before (reverse later.now)) }
{
    if cleansed_everywhere(header, later, place) {
        Phases::Clean
    } else if valid {
        Phases::Live
    } else {
        Phases::Broken(trace_of(header, later, place))
    }
}

/// The phases of a place of a tree that has this kind, this level and this value. The log is oldest first.
fn phases_in(
    header: &Header,
    log: &[Kept],
    kind: Kind,
    level: Level,
    place: Place,
    value: u64,
) -> Phases
    ensures { (p : ℕ) → spec.phase_from result p
        ≡ phase_at header.now Patterns kind level place value p (notes_of (reverse log.now)) }
{
    match last_valid(log, kind, level, place) {
        Some(write) => {
            let valid = is_valid(kind, level, value);
            phases_since(header, &log[write.index + 1..], place, valid)
        }
        None => Phases::Clean,
    }
}

/// The phases of a place.
fn phases_at(history: &History<AllPatterns>, place: Place) -> Phases
    ensures { (heading : Heading) (h : List TheEvent) → StandsByPatterns history.now heading h
        → (p : ℕ) → spec.phase_from result p ≡ phase_of heading Patterns h place p }
{
    match history.node_of(place.page()) {
        Some(node) => {
            let value = value_of(history.events(), place);
            phases_in(
                history.header(),
                history.log(),
                node.kind,
                node.level,
                place,
                value,
            )
        }
        None => Phases::Clean,
    }
}

/// The phases of each of the places. `NoMemory` where there is none.
fn phases_of(
    alloc: Global,
    history: &History<AllPatterns>,
    places: &[Place],
) -> Result<Vec<PlacePhases>, NoMemory>
    ensures { IfOk result (λ old. (heading : Heading) (h : List TheEvent) → StandsByPatterns history.now heading h
        → (pes : ℕ) (new : ℕ → ℕ → Phase) → every (spec.is_kept_by pes new) old.items
        ≡ every (spec.is_kept pes new (phase_of heading Patterns h)) places.now) }
{
    let mut old = Vec::new(alloc);
    for place in places {
        let phases = phases_at(history, *place);
        old.push(PlacePhases {
            place: *place,
            phases,
        })?;
    }
    Ok(old)
}

/// The PEs that are in one of the sets and not in both.
fn differing(one: PeMask, other: PeMask) -> PeMask
    ensures { (p : ℕ) → pe_in result p
        ≡ ((pe_in one p && not (pe_in other p)) || (pe_in other p && not (pe_in one p))) }
{
    one.minus(other).or(other.minus(one))
}

/// The PEs of the header at which two broken places have the same phase.
fn alike_broken(header: &Header, new: &Trace, old: &Trace) -> PeMask
    ensures { (p : ℕ) → p < header.now.pes → pe_in result p
        ≡ same_phase (spec.phase_by new.now p) (spec.phase_by old.now p) }
{
    let cleansed = differing(new.cleansed, old.cleansed);
    let half = differing(new.cleansed.or(new.half), old.cleansed.or(old.half));
    let seen = differing(
        new.cleansed.or(new.half).or(new.seen),
        old.cleansed.or(old.half).or(old.seen),
    );
    PeMask::all(header.pe_count()).minus(cleansed.or(half).or(seen))
}

/// The PEs of the header at which the phases are the same.
fn alike(header: &Header, new: &Phases, old: &Phases) -> PeMask
    ensures { (p : ℕ) → p < header.now.pes → pe_in result p
        ≡ same_phase (spec.phase_from new.now p) (spec.phase_from old.now p) }
{
    match (new, old) {
        (Phases::Clean, Phases::Clean) | (Phases::Live, Phases::Live) => PeMask::all(
            header.pe_count(),
        ),
        (Phases::Broken(new), Phases::Broken(old)) => alike_broken(header, new, old),
        _ => PeMask::none(),
    }
}

/// Whether the place has the phases still.
fn has_still(history: &History<AllPatterns>, header: &Header, old: &PlacePhases) -> bool
    ensures { (h : List TheEvent) → StandsByPatterns history.now header.now h
        → result ≡ spec.is_kept_by header.now.pes (phase_of header.now Patterns h) old.now }
{
    let new = phases_at(history, old.place);
    alike(header, &new, &old.phases).has_all(header.pe_count())
}

/// Whether each of the places has its phases still.
fn have_still(history: &History<AllPatterns>, header: &Header, old: &[PlacePhases]) -> bool
    ensures { (h : List TheEvent) → StandsByPatterns history.now header.now h
        → result ≡ every (spec.is_kept_by header.now.pes (phase_of header.now Patterns h)) old.now }
{
    for place in old {
        if !has_still(history, header, place) {
            return false;
        }
    }
    true
}

/// Takes a DSB, which fits the header: whether it keeps each phase of each of the places, those that were ever written.
/// `NoMemory` where there is none.
pub fn take_keeping(
    alloc: Global,
    header: &Header,
    history: &mut History<AllPatterns>,
    written: &[Place],
    event: &Event,
) -> Result<bool, NoMemory>
    requires heading { history.old.heading ≡ header.now }
    requires fits { fits_heading header.now event.now ≡ true }
    ensures keeps { IfOk result (λ keeps. (h : List TheEvent) → StandsByPatterns history.old header.now h
        → written.now ≡ written_places h → keeps ≡ idle.keeps_phases header.now h event.now) }
    ensures stands { OnOk result ((h : List TheEvent) → StandsByPatterns history.old header.now h
        → StandsByPatterns history.new header.now (event.now ∷ h)) }
{
    let old = phases_of(alloc, history, written)?;
    history.take(alloc, *event)?;
    Ok(have_still(history, header, &old))
}
