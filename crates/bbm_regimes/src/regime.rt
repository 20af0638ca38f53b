//! Kinds of translation tables, root registers, tags, and the world that a log belongs to.
//! Source: project's own choice, where no other is named.

use crate::level::Level;
use std::alloc::{AllocError, AllocFailed};

/// There was no memory. The call that answers this changed nothing unless its contract says otherwise.
#[derive(Clone, Copy, Debug, PartialEq, Eq)]
pub struct NoMemory;

impl From<AllocError> for NoMemory {
    fn from(_: AllocError) -> NoMemory {
        NoMemory
    }
}

impl<T: Drop> From<AllocFailed<T>> for NoMemory {
    fn from(_: AllocFailed<T>) -> NoMemory {
        NoMemory
    }
}

/// The kind of a translation table tree: which translation regime and stage walk it. Source: Arm ARM
/// (DDI 0487), "The AArch64 Virtual Memory System Architecture", translation regimes.
#[derive(Clone, Copy, PartialEq, Eq)]
pub enum Kind {
    /// Stage 1 of the EL2 translation regime, from TTBR0_EL2.
    El2,
    /// Stage 2 of the EL1&0 translation regime, from VTTBR_EL2.
    S2,
    /// Stage 1 of the EL1&0 translation regime, the lower input range, from TTBR0_EL1.
    Ttbr0,
    /// Stage 1 of the EL1&0 translation regime, the upper input range, from TTBR1_EL1.
    Ttbr1,
}

/// A register that holds the base of a root. Source: Arm ARM (DDI 0487), "AArch64 System register
/// descriptions".
#[derive(Clone, Copy, PartialEq, Eq)]
pub enum Reg {
    /// TTBR0_EL2.
    Ttbr0El2,
    /// VTTBR_EL2.
    VttbrEl2,
    /// TTBR0_EL1.
    Ttbr0El1,
    /// TTBR1_EL1.
    Ttbr1El1,
}

/// The register whose ASID field names the current ASID: TCR_EL1.A1. Source: Arm ARM (DDI 0487),
/// "AArch64 System register descriptions", TCR_EL1.
#[derive(Clone, Copy, PartialEq, Eq)]
pub enum AsidFrom {
    /// TTBR0_EL1.ASID, where A1 is 0.
    Ttbr0,
    /// TTBR1_EL1.ASID, where A1 is 1.
    Ttbr1,
}

/// The tag under which a TLB holds what it read through a root: a translation regime with its VMID or
/// ASID. Source: Arm ARM (DDI 0487), "Translation Lookaside Buffers"; the one tag `Ttbr1` for the
/// upper range, whatever its ASID, is the project's own choice.
#[derive(Clone, Copy, PartialEq, Eq)]
pub enum Tag {
    /// The EL2 translation regime.
    El2,
    /// A VMID, 0 to 65535.
    Vmid(u16),
    /// An ASID of the lower input range, 0 to 65535.
    Asid(u16),
    /// The upper input range, under every ASID.
    Ttbr1,
}

/// What a log of a hypervisor says of its tables. Each field's range is kept by the type that holds the world, a
/// log's header. Source: Arm ARM (DDI 0487), "VMSAv8-64 translation table walks", start levels and concatenated
/// translation tables.
#[derive(Clone, Copy, PartialEq, Eq)]
pub struct HypWorld {
    /// The level at which walks of EL2 tables start, 0 to 2.
    pub el2_start: Level,
    /// The level at which walks of stage 2 tables start, 0 to 2.
    pub s2_start: Level,
    /// The number of pages of a stage 2 root: 1, 2, 4, 8 or 16, and 1 where the walks start at
    /// level 0.
    pub s2_pages: u8,
}

/// What a log of a kernel says of its tables. Each field's range is kept by the type that holds the world, a log's
/// header. Source: Arm ARM (DDI 0487), "VMSAv8-64 translation table walks", start levels, and TCR_EL1.A1 of
/// "AArch64 System register descriptions".
#[derive(Clone, Copy, PartialEq, Eq)]
pub struct KernelWorld {
    /// The level at which walks of TTBR0 tables start, 0 to 2.
    pub start0: Level,
    /// The level at which walks of TTBR1 tables start, 0 to 2.
    pub start1: Level,
    /// The register that names the current ASID.
    pub asid_from: AsidFrom,
}

/// The world that a log belongs to, with what it says of its tables.
#[derive(Clone, Copy, PartialEq, Eq)]
pub enum World {
    /// A hypervisor without VHE: its EL2 stage 1 tables and its stage 2 tables.
    Hyp(HypWorld),
    /// An EL1 kernel: its TTBR0 and TTBR1 tables.
    Kernel(KernelWorld),
}

/// The most lines that the program reads, and so the largest number of a line.
pub const MAX_LINES: u32 = 4_294_967_295;

/// A limit of the program.
#[derive(Clone, Copy, Debug, PartialEq, Eq)]
pub enum Which {
    /// 200 bytes in a line.
    LineBytes,
    /// 16,384 pages that were ever initialised.
    Pages,
    /// 1,024 declared roots.
    Roots,
    /// Eight writes of one register by one PE without an ISB of it between.
    Values,
    /// 2,000 events, for the commands that keep the history.
    Events,
    /// 2,000 events and machine steps of a run.
    Steps,
    /// 2^32 - 1 lines.
    Lines,
    /// 300,000 claims of a certificate.
    Claims,
}
