//! The eighteen rules.

/// A rule of table maintenance, with the number that the program prints. Of several rules that one
/// event breaks the least is reported. Source: the manner of judging is the project's own choice; what
/// each rule says, and why, stands in docs/RULES.md, and its sentence also at its definition.
#[derive(Clone, Copy, Debug, PartialEq, Eq)]
pub enum Rule {
    /// 1, wrong-world.
    WrongWorld = 1,
    /// 2, no-lock.
    NoLock = 2,
    /// 3, null-written.
    NullWritten = 3,
    /// 4, break-before-make.
    BreakBeforeMake = 4,
    /// 5, limbo-make.
    LimboMake = 5,
    /// 6, not-fresh.
    NotFresh = 6,
    /// 7, rewritten-fresh.
    RewrittenFresh = 7,
    /// 8, bad-kind.
    BadKind = 8,
    /// 9, global-user.
    GlobalUser = 9,
    /// 10, page-in-use.
    PageInUse = 10,
    /// 11, no-root.
    NoRoot = 11,
    /// 12, tag-conflict.
    TagConflict = 12,
    /// 13, root-in-use.
    RootInUse = 13,
    /// 14, unsynced-vmid.
    UnsyncedVmid = 14,
    /// 15, bad-operand.
    BadOperand = 15,
    /// 16, lock-busy.
    LockBusy = 16,
    /// 17, lock-not-mine.
    LockNotMine = 17,
    /// 18, table-mapped.
    TableMapped = 18,
}
