//! The theorem of this crate is `law_judged`: claims say yes exactly where each event keeps the rules by them, and no
//! exactly where the event named is the first that doesn't.
//!
//! Certificates of logs: what a list of claims alone makes of a log. It uses no checker.
#![tactic(auto)]

pub mod judged;
pub mod laws;
pub mod verifying;

pub use judged::Judged;
pub use laws::law_judged;
pub use verifying::verify;
