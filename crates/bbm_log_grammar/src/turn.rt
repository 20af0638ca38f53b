//! What a line says to who reads a text line after line.
//! Source: project's own choice.

use bbm_events::Malformed;
use bbm_regimes::Which;

/// What a line was that stops nothing.
#[derive(Clone, Copy, PartialEq, Eq)]
pub enum Turn {
    /// A line before the end, which was taken.
    Taken,
    /// The end.
    End,
}

/// Why a line isn't taken.
#[derive(Clone, Copy, PartialEq, Eq)]
pub enum LineFault {
    /// It is malformed, by this cause.
    Malformed(Malformed),
    /// It reaches this limit.
    Limit(Which),
    /// There was no memory for what it says.
    NoMemory,
}
