//! How far a place has been taken through break-before-make.

/// The phase of a place at a PE. Source: project's own choice, after Arm ARM (DDI 0487), "Using
/// break-before-make when updating translation table entries".
#[derive(Clone, Copy, PartialEq, Eq)]
pub enum Phase {
    /// The place is in no tree, or it holds nothing.
    Clean,
    /// Its value is valid.
    Live,
    /// Its value is invalid, and the PE may still read a valid one.
    Broken,
    /// A write of the place after its last valid one is published to the PE.
    Seen,
    /// Stage 2 alone: after that publication the first of the two flushes was answered.
    Half,
    /// The TLB of the PE keeps nothing of the last valid value.
    Cleansed,
}
