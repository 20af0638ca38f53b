//! Event lines that are read from the bytes ahead, before a newline is sought.

mod front;
mod kinds;
mod lanes;

pub use kinds::{ByWord, Dsbs, Front, Isbs, Tlbis, Writes, line_ahead};
