//! The theorem of this crate is `law_read_whole`: a text that was read whole is a log of its header, within the limits.
//!
//! A log and right behind it its certificate, line by line: which events and claims they are, and what the claims alone
//! make of the log.
#![tactic(auto)]

pub mod judging;
pub mod kept;
pub mod laws;
mod taking;

pub use judging::judge_kept;
pub use kept::{Kept, Part};
pub use laws::law_read_whole;
pub use taking::take_line;
