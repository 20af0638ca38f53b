//! The theorems of this crate are the contracts of `held` and `phase_in`: a search of kept events answers what the
//! definitions of break-before-make say.
//!
//! What a place of a kind and a level has been through, by search of the events that the oracle keeps.
//!
//! A log is a slice of kept events, oldest first: each event, and with a TLBI how far it covered each place at its
//! issue. The calls answer what the definitions of break-before-make say of the notes of the log, over every
//! pattern of events: the last valid write of a place, the PEs at which it is seen, half and cleansed since, the
//! value that it holds, and its phase. None takes memory. `last_valid` goes back from the newest event to the write,
//! and `trace_of` goes once through what comes after it; `held` stops at the event by which the place is cleansed. So
//! a call costs about the number of events, and for each TLBI behind a publication the length of its list of places.
#![tactic(auto)]

mod all_patterns;
pub mod evidence;
pub mod kept;
mod open;
mod relation;
pub mod search;
pub mod trace;
mod walk;

pub use evidence::Evidence;
pub use kept::{Covered, Covering, Kept};
pub use search::{TreePlace, ValidWrite, held, last_valid, phase_in, value_above};
pub use trace::{Trace, above_everywhere, cleansed_everywhere, trace_for, trace_of};
