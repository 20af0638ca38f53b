//! The theorem of this crate is the contract of `run`, with the headline: `check` accepts exactly if every event keeps
//! the written rules, and an accepted log is safe.
//!
//! The top call: a log is read from a source and judged, and the verdict is written to a sink, with what a command says
//! behind it; or a run is read and followed; or a log is judged by its certificate.
#![tactic(auto)]

mod answering;
mod command;
pub mod counterrun_law;
mod following;
pub mod idle_law;
mod judgement;
mod judging;
mod keeping;
pub mod laws;
mod line;
mod obeying;
mod open_law;
mod reading;
mod showing;
mod stop;
mod taker;
mod top;
mod verifying;

pub use command::Request;
pub use counterrun_law::law_counterrun_is_followed;
pub use idle_law::law_idle_lines;
pub use laws::{
    law_cert, law_cert_then_verify, law_certificate_says_yes, law_generated_is_accepted,
    law_verified_is_safe,
};
pub use open_law::law_open_is_written;
pub use top::run;
