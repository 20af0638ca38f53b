//! The theorems of this crate are the contracts of its questions: each answers what the definition of its name says of
//! the events.
//!
//! The questions that the oracle asks of the events that it took, without their notes and without trees. Events are
//! given oldest first, and each answer is what one definition of the rules says of them. A definition sees a history
//! newest first, so the contracts speak of the events reversed. Whatever makes a list may want memory, and says so.
#![tactic(auto)]

mod all_patterns;
pub mod evidence;
pub mod holding;
pub mod keeper;
mod moment;
pub mod numbers;
pub mod pages;
pub mod reach;
pub mod readings;
pub mod registers;
pub mod roots;
mod standings;
pub mod tags;
pub mod values;
mod watch;

pub use all_patterns::AllPatterns;
pub use evidence::TagEvidence;
pub use holding::Holding;
pub use keeper::Keeper;
pub use numbers::least;
pub use pages::{count_initialised, has_values, is_initialised, is_null};
pub use reach::{completes, publishes_for, reaches};
pub use readings::{Reading, readings_at};
pub use registers::{named_scope, register_values, vmid_of};
pub use roots::{Declared, first_pages, given_up, gives_up, is_root, lock_of, root_at, roots_of};
pub use tags::{keeps_tag, kept_at, tag_set_of};
pub use values::{places_in, value_of};
pub use watch::changes_readings;
