//! The theorem of this crate is the contract of `verdict_text` and of its kin: each line is the one that the
//! definitions name, byte for byte.
//!
//! The texts that the program prints: the line of a verdict, of a phase, of a walk, of an idle event and of a log with
//! a certificate; and what `explain` and `walk` say behind the line of the verdict.
#![tactic(auto)]

pub mod finding;
pub mod idle;
mod names;
pub mod phases;
pub mod questions;
pub mod verdicts;
pub mod verified;
pub mod walks;

pub use finding::find;
pub use idle::idle_text;
pub use phases::phase_text;
pub use questions::{Question, asked};
pub use verdicts::verdict_text;
pub use verified::{unverified_text, verified_text};
pub use walks::{found_text, walk_text};
