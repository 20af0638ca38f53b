//! The claims of a certificate.

use bbm_regimes::{Pe, Place, Tag};

/// A claim that a place is cleansed, or a tag taken away, at a PE, with the positions of the events that make it so. A
/// position is the number of an event of the log, counted from 1: a claim that is true has positions 1 to 4294967295,
/// in the order in which they are named here, each above the one before; where one is 0, no event has it, and the claim
/// is true of no log. Source: project's own choice.
#[derive(Clone, Copy, PartialEq, Eq)]
pub enum Claim {
    /// The place is cleansed at the PE in one step: the DSB at `b` publishes a write of it to the PE, then the TLBI at
    /// `t` reaches the PE and covers the place in full, then the DSB at `d` answers that TLBI.
    Place {
        /// The PE at which the place is cleansed.
        pe: Pe,
        /// The place, by the address of the descriptor.
        place: Place,
        /// The position of the DSB that publishes, 1 to 4294967295.
        b: u32,
        /// The position of the TLBI, 1 to 4294967295.
        t: u32,
        /// The position of the DSB that answers the TLBI, 1 to 4294967295.
        d: u32,
    },
    /// The place is cleansed at the PE in two steps: the DSB at `b` publishes a write of it to the PE, then the TLBI at
    /// `t1` reaches the PE and covers the place half, then the DSB at `d1` answers it, then the TLBI at `t2` reaches
    /// the PE and covers what is left, then the DSB at `d2` answers that one.
    Two {
        /// The PE at which the place is cleansed.
        pe: Pe,
        /// The place, by the address of the descriptor.
        place: Place,
        /// The position of the DSB that publishes, 1 to 4294967295.
        b: u32,
        /// The position of the first TLBI, 1 to 4294967295.
        t1: u32,
        /// The position of the DSB that answers the first TLBI, 1 to 4294967295.
        d1: u32,
        /// The position of the second TLBI, 1 to 4294967295.
        t2: u32,
        /// The position of the DSB that answers the second TLBI, 1 to 4294967295.
        d2: u32,
    },
    /// The tag is taken away at the PE: the TLBI at `t` reaches the PE and takes the whole tag, then the DSB at `d`
    /// answers it, and the tag wasn't readable there from the one to the other.
    Taken {
        /// The PE at which the tag is taken away.
        pe: Pe,
        /// The tag. A VMID or an ASID has a number, 0 to 65535; the tags of EL2 and of the upper range have none.
        tag: Tag,
        /// The position of the TLBI, 1 to 4294967295.
        t: u32,
        /// The position of the DSB that answers the TLBI, 1 to 4294967295.
        d: u32,
    },
}
