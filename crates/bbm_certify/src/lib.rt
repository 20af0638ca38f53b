//! The theorem of this crate is `law_one_certificate`: what `make` writes is the only certificate of a log that keeps
//! the rules, and by it alone the log keeps them (`law_certificate_is_verified`).
//!
//! Certificates of logs that keep the rules: the claims by which alone they keep them.
#![tactic(auto)]

mod known;
pub mod laws;
pub mod making;
mod patterns;
mod places;
mod sorted;
mod steps;
mod tags;

pub use laws::{law_certificate_can_be_written, law_certificate_is_verified, law_one_certificate};
pub use making::make;
