//! The theorems of this crate are the contracts of its rules: each says what the definition of its rule says of the
//! events.
//!
//! The rules that the oracle judges by plain events, without trees: each says whether an event breaks it after the events
//! taken; and who holds a lock, and which limit an event reaches. Events are given oldest first.
#![tactic(auto)]

pub mod limits;
pub mod locks;
pub mod rules;

pub use limits::limit_of;
pub use locks::{holder_of, lacks};
