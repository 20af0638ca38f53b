//! The theorem of this crate is the contract of `Lines`: it gives the lines of the bytes of a source, each once and in
//! their order.
//!
//! Reading and writing bytes through traits that say which calls may fail and why: sources and sinks in
//! memory and over std, lines of a source, and writing a whole piece to a sink.
#![tactic(auto)]

pub mod lines;
pub mod sink;
pub mod source;
pub mod streams;

pub use lines::{LineFault, LineOrEnd, Lines};
pub use sink::{CleanSink, MemSink, Sink, put};
pub use source::{CleanSource, Failed, MemSource, Source};
pub use streams::{StdSink, StdSource};
