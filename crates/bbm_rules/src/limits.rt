//! The limits of a command.

/// The limits of a command that judges a log, beside those of a line's bytes and of a history, which always
/// hold. Source: project's own choice.
#[derive(Clone, Copy, PartialEq, Eq)]
pub struct Limits {
    /// The most events, or None where any number may come.
    pub events: Option<u64>,
    /// The number of the line whose event may not come.
    pub lines: u32,
}
