//! The theorem of this crate is the contract of `ByClaims`: it tells exactly what the claims of a list have cleansed
//! and taken away.
//!
//! What a list of claims alone has cleansed and taken away, event by event: evidence for a history that trusts these claims
//! and nothing else.
#![tactic(auto)]

pub mod by_claims;
pub mod cleansings;
pub mod holdings;
mod known;
pub mod marks;
pub mod spans;
pub mod taken;

pub use by_claims::ByClaims;
