//! The theorem of this crate is `law_last_taker`: the holder of a lock is the last PE that took it and hasn't given it
//! back.
//!
//! The locks of translation tables, and who holds each. It takes no memory, and serves alone: whoever
//! judges lock events keeps a `Locks` and asks `take`, `give` and `holder`.
#![tactic(auto)]

pub mod laws;
pub mod locks;

pub use locks::{Busy, Locks, NotHolder};
