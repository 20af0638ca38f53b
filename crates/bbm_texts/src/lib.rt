//! The theorem of this crate is the contract of `report` and of its kin: what is written is the text that the
//! definitions name, and the status is its own.
//!
//! The texts of the program: what a command says of what was decided on a log, and what it shows of the events; the
//! lines on a run and on a log with its certificate; generated logs and self-tests; the usage line. Each call writes
//! one text, whole or up to a write that failed, and answers the status with which the program ends.
#![tactic(auto)]

mod answering;
mod buffering;
mod certifying;
pub mod commands;
mod counterrun;
pub mod decision;
pub mod followed;
pub mod generating;
pub mod reporting;
pub mod selftesting;
pub mod showing;
pub mod status;
mod telling;
pub mod usage;
pub mod verified;

pub use commands::{Command, Evidence};
pub use decision::Decision;
pub use followed::report_run;
pub use generating::generate;
pub use reporting::{report, report_verdict};
pub use selftesting::selftest;
pub use showing::report_evidence;
pub use status::{Status, number};
pub use usage::say_usage;
pub use verified::report_judged;
