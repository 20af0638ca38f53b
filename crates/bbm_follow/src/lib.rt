//! The theorem of this crate is the contract of `follow_run`: it takes each line of a run as the machine's relation
//! says.
//!
//! What a run says, line by line: a log in which lines of machine steps stand between the header and the end; and what
//! comes of its steps.
#![tactic(auto)]

pub mod followed;
mod taking;

pub use followed::{Followed, follow_run, followed_text};
pub use taking::take_line;
