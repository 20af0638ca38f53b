//! The theorem of this crate is `law_entry_dsb`: a DSB takes a state that stands for a history to one that stands for
//! the history with it, as each other event does by a law of its own.
//!
//! Laws that tie the state of one place, as `bbm_entry_state` keeps it, to the definitions of the rules over a history.
//! A checker that keeps no history cites them at each event. No code but empty bodies.
#![tactic(auto)]

pub mod begins;
mod known;
pub mod steps;
pub mod tells;

pub use begins::{law_entry_alike, law_entry_begins};
pub use steps::{law_entry_dsb, law_entry_stays, law_entry_tlbi, law_entry_write};
pub use tells::{law_entry_holds, law_entry_need, law_entry_phase};
