//! The theorem of this crate is the contract of `Oracle`, which is that of every checker: each answer is what the rules
//! say of the history.
//!
//! A checker that keeps the list of events and searches it.
#![tactic(auto)]

pub mod oracle;

pub use oracle::Oracle;
