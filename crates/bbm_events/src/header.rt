//! The header of a log.

use crate::header_words::HeaderWords;
use bbm_regimes::World;
use std::marker::Model;

/// The first line of a log: its version, the number of PEs, whether their TLBs may copy entries from one
/// another, and the world. Its type keeps the ranges: the version is 1 to 5; there are 1 to 64 PEs under
/// versions 1 and 2, and 1 to 128 under later ones; `cnp` is false under version 1; each start level
/// is 0 to 2, and the number of pages of a stage 2 root is 1, 2, 4, 8 or 16, and 1 where its walks start at
/// level 0. A clause sees a header as its `Heading`. Source: project's own choice.
#[derive(Clone, Copy, PartialEq, Eq)]
pub struct Header {
    /// The version of the log's language, 1 to 5.
    pub version: u8,
    /// The number of PEs, 1 to 64 under versions 1 and 2, and 1 to 128 under later ones. They are
    /// numbered from 0.
    pub pes: u8,
    /// Whether TLBs may copy entries between PEs; false under version 1.
    pub cnp: bool,
    /// What else it says by words; none under a version before 5.
    pub words: HeaderWords,
    /// The world, with the levels at which walks start.
    pub world: World,
}

impl Model for Header {
    ghost use Rattle.bbm_events.specs.Heading.{Heading, heading_ok};
    ghost use Rattle.std.specs.Prelude.{IsTrue};

    ghost Value = { Heading };

    ghost view = { λ h. record { version = h.version; pes = h.pes; cnp = h.cnp; words = h.words; world = h.world } };

    ghost invariant = { (λ h. IsTrue (heading_ok
        (record { version = h.version; pes = h.pes; cnp = h.cnp; words = h.words; world = h.world }))) };

    ghost inverse = { λ h. record { version = h.version; pes = h.pes; cnp = h.cnp; words = h.words; world = h.world } };
}
