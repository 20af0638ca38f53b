//! The words with which lines begin.

/// The first word of a line after the header: what the line says. Source: project's own choice.
#[derive(Clone, Copy, PartialEq, Eq)]
pub enum Keyword {
    /// `init`: a page is made zero.
    Init,
    /// `null`: a page is declared a null page.
    Null,
    /// `root`: a root is declared.
    Root,
    /// `unroot`: a root is retired.
    Unroot,
    /// `w`: one 8-byte store to a table.
    Write,
    /// `dsb`: a data synchronisation barrier.
    Dsb,
    /// `dmb`: a data memory barrier.
    Dmb,
    /// `isb`: a context synchronisation event.
    Isb,
    /// `tlbi`: a TLB invalidation.
    Tlbi,
    /// `msr`: a write of a root register.
    Msr,
    /// `lock`: a lock is taken.
    Lock,
    /// `unlock`: a lock is given back.
    Unlock,
    /// `end`: the last line.
    End,
}
