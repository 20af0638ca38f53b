//! The commands that judge a log, by what they say of it.
//! Source: project's own choice, where no other is named.

use bbm_report::Question;

/// A command that judges a log.
#[derive(Clone, Copy)]
pub enum Command {
    /// Judges the log and writes the line of its verdict.
    Check,
    /// Judges the log by a search of the whole history, to 2,000 events, and writes the line of its verdict.
    Slow,
    /// As `Check`; where break-before-make is broken, behind the line of the verdict a line for each PE, how far the
    /// place has come there.
    Explain,
    /// As `Check`; where the log is accepted, behind the line of the verdict that of a walk over the values at its end.
    Walk(Question),
    /// As `Slow`, with what the events of the log show.
    Show(Evidence),
}

/// What a command shows of the events of a log, for which it keeps them all.
#[derive(Clone, Copy)]
pub enum Evidence {
    /// The events of an accepted log that it can do without.
    Idle,
    /// Where break-before-make refuses a write at a place that holds a leaf, in place of the line of the verdict a run
    /// of the machine of TLBs that ends in a conflict at it.
    Counterrun,
    /// In place of the line of an accepted log its certificate: the claims by which alone it keeps the rules.
    Cert,
}
