//! At which PEs a place is seen, half and cleansed.

ghost use Rattle.std.specs.Prelude.{◌≡◌, ℕ, reverse};
ghost use Rattle.bbm_lemmas.specs.EveryPe.{every_pe};
ghost use Rattle.bbm_regimes.specs.PeMask.{pe_in};
ghost use Rattle.bbm_rules.specs.Claims.{Patterns};
ghost use Rattle.bbm_rules.specs.Cleansing as spec;
ghost use Rattle.bbm_rules.specs.Held as held;
ghost use Rattle.bbm_oracle_patterns.specs.Kept.{notes_behind, notes_for};
ghost use Rattle.bbm_oracle_patterns.specs.Walk.{writes_place, some_writes, Traces};

use crate::kept::{Covering, Kept};
use crate::walk::Walk;
use bbm_events::{Event, Header};
use bbm_regimes::{PeMask, Place};

/// At which PEs a place is seen, half and cleansed by the events after its last valid write. Source: project's own
/// choice, after Arm ARM (DDI 0487), "Using break-before-make when updating translation table entries".
#[derive(Clone, Copy)]
pub struct Trace {
    /// The PEs to which a later write of the place is published.
    pub seen: PeMask,
    /// Those at which a TLBI that covers the place half came behind that, and was answered.
    pub half: PeMask,
    /// Those at which the place is cleansed.
    pub cleansed: PeMask,
}

/// Whether the event is a write of the place.
fn writes_it(kept: &Kept, place: Place) -> bool
    ensures { result ≡ writes_place place kept.now }
{
    match kept.event {
        Event::Write {
            pe: _,
            place: at,
            value: _,
        } => at == place,
        _ => false,
    }
}

/// Whether one of the events is a write of the place.
fn is_written(later: &[Kept], place: Place) -> bool
    ensures { result ≡ some_writes place later.now }
{
    for kept in later {
        if writes_it(kept, place) {
            return true;
        }
    }
    false
}

/// The trace where the place is written in these events.
fn walk_through(header: &Header, later: &[Kept], place: Place, covering: Covering) -> Trace
    ensures { (before : ℕ) → Traces result header.now place
        (notes_for covering (notes_behind before (reverse later.now))) }
{
    let mut walk = Walk::new();
    for kept in later {
        walk.take(header, place, covering, kept);
    }
    walk.trace
}

/// At which PEs the place is seen, half and cleansed by these events, oldest first, where each covers it as far as is
/// asked: those after its last valid write, wherever they stand in the log. It goes once through them.
pub fn trace_for(header: &Header, later: &[Kept], place: Place, covering: Covering) -> Trace
    ensures seen { (before p : ℕ) → pe_in result.seen p
        ≡ spec.seen header.now place p (notes_for covering (notes_behind before (reverse later.now))) }
    ensures half { (before p : ℕ) → pe_in result.half p
        ≡ spec.half header.now place p (notes_for covering (notes_behind before (reverse later.now))) }
    ensures cleansed { (before p : ℕ) → pe_in result.cleansed p
        ≡ spec.cleansed header.now Patterns place p (notes_for covering (notes_behind before (reverse later.now))) }
{
    if is_written(later, place) {
        walk_through(header, later, place, covering)
    } else {
        Trace {
            seen: PeMask::none(),
            half: PeMask::none(),
            cleansed: PeMask::none(),
        }
    }
}

/// The same by their covers.
pub fn trace_of(header: &Header, later: &[Kept], place: Place) -> Trace
    ensures seen { (before p : ℕ) → pe_in result.seen p
        ≡ spec.seen header.now place p (notes_behind before (reverse later.now)) }
    ensures half { (before p : ℕ) → pe_in result.half p
        ≡ spec.half header.now place p (notes_behind before (reverse later.now)) }
    ensures cleansed { (before p : ℕ) → pe_in result.cleansed p
        ≡ spec.cleansed header.now Patterns place p (notes_behind before (reverse later.now)) }
{
    trace_for(header, later, place, Covering::Whole)
}

/// Whether each PE of the header is in the set.
pub(crate) fn has_every_pe(header: &Header, pes: PeMask) -> bool
    ensures { result ≡ every_pe header.now.pes (λ p. pe_in pes p) }
{
    pes.has_all(header.pe_count())
}

/// Whether the place is cleansed at every PE, where it is written in these events. No event behind that changes it.
fn walk_to_cleansed(header: &Header, later: &[Kept], place: Place, covering: Covering) -> bool
    ensures { (before : ℕ) → result ≡ held.cleansed_everywhere header.now Patterns place
        (notes_for covering (notes_behind before (reverse later.now))) }
{
    let mut walk = Walk::new();
    for kept in later {
        walk.take(header, place, covering, kept);
        if has_every_pe(header, walk.trace.cleansed) {
            return true;
        }
    }
    has_every_pe(header, walk.trace.cleansed)
}

/// Whether the place is cleansed at every PE of the header by these events, oldest first, where each covers it as far
/// as is asked: those after its last valid write, wherever they stand in the log. It stops at the event that makes it
/// so.
fn cleansed_for(header: &Header, later: &[Kept], place: Place, covering: Covering) -> bool
    ensures { (before : ℕ) → result ≡ held.cleansed_everywhere header.now Patterns place
        (notes_for covering (notes_behind before (reverse later.now))) }
{
    if is_written(later, place) {
        walk_to_cleansed(header, later, place, covering)
    } else {
        has_every_pe(header, PeMask::none())
    }
}

/// Whether the place is cleansed at every PE of the header by these events, oldest first: those after its last valid
/// write, wherever they stand in the log. It stops at the event that makes it so.
pub fn cleansed_everywhere(header: &Header, later: &[Kept], place: Place) -> bool
    ensures { (before : ℕ) → result
        ≡ held.cleansed_everywhere header.now Patterns place (notes_behind before (reverse later.now)) }
{
    cleansed_for(header, later, place, Covering::Whole)
}

/// Whether the place is above at every PE of the header by these events: no TLB keeps an entry that ends in its last
/// valid value.
pub fn above_everywhere(header: &Header, later: &[Kept], place: Place) -> bool
    ensures { (before : ℕ) → result
        ≡ held.above_everywhere header.now Patterns place (notes_behind before (reverse later.now)) }
{
    cleansed_for(header, later, place, Covering::Top)
}
