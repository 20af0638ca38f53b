//! The theorem of this crate is `law_gen`: each generated log, of any number of events, keeps the rules.
//!
//! Generated logs of any length, event by event, without memory.
#![tactic(auto)]

mod below;
pub mod generator;
pub mod law;

pub use generator::{gen_event, gen_header};
pub use law::law_gen;
