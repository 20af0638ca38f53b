//! The lines of machine steps.
//! Source: project's own choice, where no other is named.

use bbm_regimes::{Kind, Pe, Place};

/// One line of a run that isn't a line of its log: a step of a TLB, which makes an entry or drops one.
/// Entries have numbers in the order in which they are made, from 1.
#[derive(Clone, Copy, PartialEq, Eq)]
pub enum MachineLine {
    /// The TLB of the PE makes an entry from the value of a place of a root of the kind, under a VMID or
    /// an ASID; the tag is 0 for `El2`.
    Start {
        pe: Pe,
        kind: Kind,
        tag: u16,
        place: Place,
        value: u64,
    },
    /// An entry is made that has one part more than the entry with this number.
    Extend {
        entry: u32,
        place: Place,
        value: u64,
    },
    /// A combined entry is made from the stage 2 entry with this number.
    Combine {
        entry: u32,
    },
    /// The TLB of the PE copies the entry with this number. Version 1 doesn't have this line.
    Share {
        entry: u32,
        pe: Pe,
    },
    /// The entry with this number is dropped.
    Drop {
        entry: u32,
    },
}

/// The second word of a machine line: which step it is.
#[derive(Clone, Copy, PartialEq, Eq)]
pub enum MachineWord {
    /// `start`.
    Start,
    /// `extend`.
    Extend,
    /// `combine`.
    Combine,
    /// `share`.
    Share,
    /// `drop`.
    Drop,
}
