//! The events of a log.
//! Source: project's own choice, where no other is named.

use crate::label::Label;
use bbm_barriers::Dsb;
use bbm_regimes::{Kind, Page, Pe, Place, Reg};
use bbm_tlbi_scope::TlbiOp;

/// One line of a log between its header and its `end`: one atomic action of one PE.
#[derive(Clone, Copy, PartialEq, Eq)]
pub enum Event {
    /// The page is made zero.
    Init {
        pe: Pe,
        page: Page,
    },
    /// The page is declared a null page: as the base of TTBR0 it means that no walk is made.
    Null {
        pe: Pe,
        page: Page,
    },
    /// A root is declared: its kind, the number of the lock that its writers hold or none, and its
    /// first page.
    Root {
        pe: Pe,
        kind: Kind,
        lock: Option<u16>,
        page: Page,
    },
    /// The root with this first page is retired.
    Unroot {
        pe: Pe,
        page: Page,
    },
    /// One 8-byte store to a translation table.
    Write {
        pe: Pe,
        place: Place,
        value: u64,
    },
    /// A data synchronisation barrier.
    Dsb {
        pe: Pe,
        dsb: Dsb,
    },
    /// A data memory barrier, which changes nothing.
    Dmb {
        pe: Pe,
        dsb: Dsb,
    },
    /// A context synchronisation event.
    Isb {
        pe: Pe,
    },
    /// A TLB invalidation, with the value of its operand, 0 where it has none.
    Tlbi {
        pe: Pe,
        op: TlbiOp,
        xt: u64,
    },
    /// A write of a root register.
    Msr {
        pe: Pe,
        reg: Reg,
        value: u64,
    },
    /// The lock with this number is taken.
    Lock {
        pe: Pe,
        lock: u16,
    },
    /// The lock with this number is given back.
    Unlock {
        pe: Pe,
        lock: u16,
    },
}

/// What a line after the header says: an event with its label or none, or the end with the number of event
/// lines.
#[derive(Clone, Copy, PartialEq, Eq)]
pub enum Item {
    /// An event line. Only a line under version 3 or later has a label.
    Event(Event, Option<Label>),
    /// The last line, with its count.
    End(u32),
}
