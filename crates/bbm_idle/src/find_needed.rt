//! Whether a TLBI is needed.
//! Source: project's own choice.

ghost use Rattle.std.specs.Prelude.{◌≡◌, ℕ, List, ◌∷◌, reverse, IfOk};
ghost use Rattle.bbm_regimes.specs.PeMask.{pe_in};
ghost use Rattle.bbm_rules.specs.Lists.{any, some_pe};
ghost use Rattle.bbm_rules.specs.Notes.{Noted};
ghost use Rattle.bbm_oracle_patterns.specs.Kept.{notes_of};
ghost use Rattle.bbm_idle.specs.Finding as spec;

use crate::find_places::added_by;
use crate::find_tags::keeps_some;
use bbm_events::{Event, Header};
use bbm_oracle_patterns::{Kept, TreePlace};
use bbm_oracle_tags::{Reading, reaches};
use bbm_regimes::{NoMemory, Pe, PeMask};
use bbm_rules::law_equality_tests;
use std::alloc::Global;

/// What a TLBI does after some events. Source: project's own choice.
#[derive(Clone, Copy)]
pub struct Effect<'a> {
    /// The PEs at which it adds something at a place.
    pub added: PeMask,
    /// What was ever readable under a tag that it takes whole, for a declared root or one that was given up.
    pub taken: &'a [Reading],
}

/// The PEs at which the newest event, a TLBI, adds something at one of the places, by what came before it.
pub fn newest_adds(header: &Header, log: &[Kept], seats: &[TreePlace]) -> PeMask
    ensures { (n : Noted) (older : List Noted) → notes_of (reverse log.now) ≡ n ∷ older
        → (p : ℕ) → pe_in result p ≡ any (spec.place_adds header.now older n p) seats.now }
{
    if log.is_empty() {
        PeMask::none()
    } else {
        let last = log.len() - 1;
        added_by(header, &log[..last], &log[last], seats)
    }
}

/// Whether the TLBI, coming after the events, reaches the PE, and adds something there at a place or takes a whole tag
/// that is kept there.
fn is_needed_at(
    alloc: Global,
    header: &Header,
    before: &[Event],
    event: &Event,
    effect: &Effect,
    pe: Pe,
) -> Result<bool, NoMemory>
    requires { spec.AreTaken header.now (reverse before.now) event.now effect.now.taken.now }
    ensures { IfOk result (λ needed. needed
        ≡ spec.needed_by header.now (reverse before.now) event.now (pe_in effect.now.added) pe) }
{
    law_equality_tests();
    if reaches(header, event, pe) {
        if effect.added.has(pe) {
            Ok(true)
        } else {
            keeps_some(alloc, header, before, pe, effect.taken)
        }
    } else {
        Ok(false)
    }
}

/// Whether it is needed at some PE. `NoMemory` where there is none.
pub fn is_needed(
    alloc: Global,
    header: &Header,
    before: &[Event],
    event: &Event,
    effect: &Effect,
) -> Result<bool, NoMemory>
    requires { spec.AreTaken header.now (reverse before.now) event.now effect.now.taken.now }
    ensures { IfOk result (λ needed. needed ≡ some_pe header.now.pes
        (spec.needed_by header.now (reverse before.now) event.now (pe_in effect.now.added))) }
{
    for number in 0..header.pes {
        let pe = Pe::new(number).unwrap();
        if is_needed_at(alloc, header, before, event, effect, pe)? {
            return Ok(true);
        }
    }
    Ok(false)
}
