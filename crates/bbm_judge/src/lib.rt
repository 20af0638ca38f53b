//! The theorem of this crate is the contract of `judge`: it names the least rule that an event breaks, by what is
//! trusted.
//!
//! The judge over a kept history: whether a next event breaks a rule, and which limit it reaches. It is generic over
//! what is trusted, and asks the history alone, so that whoever keeps a history can judge by it.
#![tactic(auto)]

mod ends;
mod flaws;
mod least;
pub mod order;
mod page_rules;
pub mod restless;
mod starts;
mod table_rules;
mod tree_rules;

pub use order::{admit, check_limit, judge};
pub use restless::count_restless;
