//! The last valid write of a place, and what the place holds.

ghost use Rattle.std.specs.Prelude.{◌≡◌, ◌<◌, ◌≤◌, ◌||◌, drop, length, reverse, IfSome};
ghost use Rattle.bbm_regimes.specs.PeMask.{pe_in};
ghost use Rattle.bbm_rules.specs.Held as spec;
ghost use Rattle.bbm_oracle_patterns.specs.Kept.{notes_behind, notes_of, write_in};
ghost use Rattle.bbm_oracle_patterns.specs.Lasts.{TellsOf};
ghost use Rattle.bbm_oracle_patterns.specs.PlacePhases as phases;
ghost use Rattle.bbm_oracle_patterns.specs.PlacePhases.{phase_at, furthest};

use crate::evidence::Evidence;
use crate::kept::Kept;
use crate::trace::trace_of;
use bbm_descriptor::is_valid;
use bbm_events::{Event, Header};
use bbm_regimes::{Kind, Level, Pe, PeMask, Place};
use bbm_rules::Phase;

/// A place of a tree. Source: project's own choice.
#[derive(Clone, Copy)]
pub struct TreePlace {
    /// The place.
    pub place: Place,
    /// The kind of its tree.
    pub kind: Kind,
    /// The level of its page.
    pub level: Level,
}

/// A valid write in a log. Source: project's own choice.
#[derive(Clone, Copy, PartialEq, Eq)]
pub struct ValidWrite {
    /// The value that was written.
    pub value: u64,
    /// The index of the write in the log; the oldest event has index 0.
    pub index: usize,
}

/// What one event says of the last valid write of a place.
enum Says {
    // It is that write, of this value.
    ItIs(u64),
    // There is no such write.
    NoWrite,
    // It is that of the events before.
    Older,
}

/// What the event says of the last valid write of the place.
fn told_by(event: &Event, kind: Kind, level: Level, place: Place) -> Says
    ensures { TellsOf result kind level place event.now }
{
    match *event {
        Event::Write {
            pe: _,
            place: at,
            value,
        } => {
            if at == place && is_valid(kind, level, value) {
                Says::ItIs(value)
            } else {
                Says::Older
            }
        }
        Event::Init { pe: _, page } => {
            if page == place.page() {
                Says::NoWrite
            } else {
                Says::Older
            }
        }
        _ => Says::Older,
    }
}

/// The last valid write of the place since the last init of its page, where the place has this kind and this level.
/// The log is oldest first. None where there is no such write. It goes back from the newest event.
pub fn last_valid(log: &[Kept], kind: Kind, level: Level, place: Place) -> Option<ValidWrite>
    ensures found { spec.last_valid kind level place (notes_of (reverse log.now)) ≡ write_in log.now result }
    ensures within { IfSome result (λ w. w.index < length log.now) }
{
    let mut index = log.len();
    while index > 0 {
        index -= 1;
        match told_by(&log[index].event, kind, level, place) {
            Says::ItIs(value) => return Some(ValidWrite { value, index }),
            Says::NoWrite => return None,
            Says::Older => {}
        }
    }
    None
}

/// Whether the last valid value of the place isn't held any more: the place is emptied, or it is cleansed at every PE of
/// the header by the events from this index on.
fn is_gone<E: Evidence>(
    evidence: &E,
    header: &Header,
    log: &[Kept],
    from: usize,
    place: Place,
    emptied: bool,
) -> bool
    requires taken { E.has_taken evidence.now header.now (notes_of (reverse log.now)) }
    requires within { from ≤ length log.now }
    ensures { result ≡ (emptied || spec.cleansed_everywhere header.now (E.trust evidence.now) place
        (notes_behind from (reverse (drop from log.now)))) }
{
    emptied || evidence.is_cleansed(header, log, from, place)
}

/// The value that the place holds, which is emptied or not, as told: that of its last valid write since the last init of
/// its page, unless it is emptied, or cleansed since at every PE of the header. The log is oldest first, and the evidence
/// has taken it.
pub fn held<E: Evidence>(
    evidence: &E,
    header: &Header,
    log: &[Kept],
    seat: &TreePlace,
    emptied: bool,
) -> Option<u64>
    requires { E.has_taken evidence.now header.now (notes_of (reverse log.now)) }
    ensures { result ≡ spec.held_unless header.now (E.trust evidence.now) emptied seat.now.kind seat.now.level
        seat.now.place (notes_of (reverse log.now)) }
{
    match last_valid(log, seat.kind, seat.level, seat.place) {
        Some(write) => {
            if is_gone(evidence, header, log, write.index + 1, seat.place, emptied) {
                None
            } else {
                Some(write.value)
            }
        }
        None => None,
    }
}

/// The last valid value of the place since the last init of its page, where the place is above at every PE of the header
/// since. The log is oldest first, and the evidence has taken it.
pub fn value_above<E: Evidence>(
    evidence: &E,
    header: &Header,
    log: &[Kept],
    seat: &TreePlace,
) -> Option<u64>
    requires { E.has_taken evidence.now header.now (notes_of (reverse log.now)) }
    ensures { result ≡ phases.value_above header.now (E.trust evidence.now) seat.now.kind seat.now.level seat.now.place
        (notes_of (reverse log.now)) }
{
    match last_valid(log, seat.kind, seat.level, seat.place) {
        Some(write) => {
            if evidence.is_above(header, log, write.index + 1, seat.place) {
                Some(write.value)
            } else {
                None
            }
        }
        None => None,
    }
}

/// The furthest that a broken place has come at the PE, which is cleansed, half and seen at these PEs.
fn broken_phase(cleansed: PeMask, half: PeMask, seen: PeMask, pe: Pe) -> Phase
    ensures { result ≡ furthest (pe_in cleansed pe) (pe_in half pe) (pe_in seen pe) }
{
    if cleansed.has(pe) {
        Phase::Cleansed
    } else if half.has(pe) {
        Phase::Half
    } else if seen.has(pe) {
        Phase::Seen
    } else {
        Phase::Broken
    }
}

/// The phase at the PE of a place of a tree that now has this value, and is emptied or not, as told: clean where it holds
/// nothing; live where its value is valid; else the furthest of cleansed, half and seen, or broken where it is none of
/// them. The log is oldest first, and the evidence has taken it.
pub fn phase_in<E: Evidence>(
    evidence: &E,
    header: &Header,
    log: &[Kept],
    seat: &TreePlace,
    emptied: bool,
    value: u64,
    pe: Pe,
) -> Phase
    requires taken { E.has_taken evidence.now header.now (notes_of (reverse log.now)) }
    requires told { emptied ≡ spec.emptied header.now (E.trust evidence.now) seat.now.kind seat.now.level seat.now.place
        (notes_of (reverse log.now)) }
    ensures { result ≡ phase_at header.now (E.trust evidence.now) seat.now.kind seat.now.level seat.now.place value pe
        (notes_of (reverse log.now)) }
{
    match last_valid(log, seat.kind, seat.level, seat.place) {
        Some(write) => {
            let from = write.index + 1;
            if is_gone(evidence, header, log, from, seat.place, emptied) {
                Phase::Clean
            } else if is_valid(seat.kind, seat.level, value) {
                Phase::Live
            } else {
                let cleansed = evidence.cleansed(header, log, from, seat.place);
                let trace = trace_of(header, &log[from..], seat.place);
                broken_phase(cleansed, trace.half, trace.seen, pe)
            }
        }
        None => Phase::Clean,
    }
}
