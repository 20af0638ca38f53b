//! Descriptors, by the kind and the level of the table that they stand in.

ghost use Rattle.std.specs.Prelude.{◌≡◌};
ghost use Rattle.bbm_descriptor.specs.Descriptor.{core_in, desc_with};

use bbm_regimes::Page;

/// What a value of a place means. Source: Arm ARM (DDI 0487), "VMSAv8-64 descriptor formats"; which of
/// the fields are read is the project's own choice.
#[derive(Clone, Copy, PartialEq, Eq)]
pub enum Desc {
    /// No translation and no further table.
    Invalid,
    /// A table of the next level.
    Table {
        /// The page that holds it.
        next: Page,
        /// NSTable, bit 63, at stage 1; false at stage 2.
        ns: bool,
    },
    /// A block or a page.
    Leaf {
        /// The output address, in bytes: a multiple of the span of the level below 2^48.
        out: u64,
        /// Bits [5:2], 0 to 15: AttrIndx and NS at stage 1, MemAttr at stage 2.
        attrs: u8,
        /// SH, bits [9:8], 0 to 3.
        share: u8,
        /// Stage 1 with nG, bit 11, clear; false at stage 2.
        global: bool,
        /// Contiguous, bit 52.
        contiguous: bool,
    },
}

/// The part of a valid descriptor that a write can't change without break-before-make. The fields are
/// those of `Desc`. Source: project's own choice.
#[derive(Clone, Copy, PartialEq, Eq)]
pub enum Core {
    /// A table of the next level.
    Table {
        /// The page that holds it.
        next: Page,
        /// NSTable, bit 63, at stage 1; false at stage 2.
        ns: bool,
    },
    /// A block or a page.
    Leaf {
        /// The output address, in bytes: a multiple of the span of the level below 2^48.
        out: u64,
        /// Bits [5:2], 0 to 15: AttrIndx and NS at stage 1, MemAttr at stage 2.
        attrs: u8,
        /// SH, bits [9:8], 0 to 3.
        share: u8,
        /// Stage 1 with nG, bit 11, clear; false at stage 2.
        global: bool,
        /// Contiguous, bit 52.
        contiguous: bool,
    },
}

impl Core {
    /// The descriptor with the fields of this core.
    pub fn desc(self) -> Desc
        ensures fields { result ≡ desc_with self }
        ensures core { core_in result ≡ Some self }
    {
        match self {
            Core::Table { next, ns } => Desc::Table { next, ns },
            Core::Leaf {
                out,
                attrs,
                share,
                global,
                contiguous,
            } => Desc::Leaf {
                out,
                attrs,
                share,
                global,
                contiguous,
            },
        }
    }
}
