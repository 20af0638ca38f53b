//! The theorem of this crate is `law_idle`: a log that keeps the rules keeps them without its idle events, all or any.
//!
//! The events that a log can do without.
#![tactic(auto)]

mod find_needed;
mod find_phases;
mod find_places;
mod find_registers;
mod find_tags;
mod find_waiting;
pub mod finding;
mod known;
pub mod laws;

pub use finding::find;
pub use laws::{law_idle, law_idle_event, law_needed};
