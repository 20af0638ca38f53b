//! The theorem of this crate is the contract of `Replay`, which is that of every checker: each answer is what the rules
//! say of the history, which it doesn't keep.
//!
//! A checker of events that keeps no history: it keeps the values and marks of places, the trees, the roots with their
//! registers and tags, and the locks, and judges each event by them.
#![tactic(auto)]

mod barriers;
mod faults;
mod guard;
mod laws;
mod pages;
mod parts;
mod registers;
pub mod replay;
mod tells;
mod tlbi_cover;
mod tlbis;
mod trees;
mod writes;

pub use replay::Replay;
