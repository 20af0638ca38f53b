//! What a header says by words of its own.

/// The word of the world in a header. Source: project's own choice.
#[derive(Clone, Copy, PartialEq, Eq)]
pub enum WorldWord {
    /// `hyp`: the numbers of the Hyp world follow.
    Hyp,
    /// `kernel`: those of the Kernel world do.
    Kernel,
}

/// The words that a header of version 5 may have behind its numbers, besides `cnp`: each says what the log relies on,
/// or what it may do. Source: project's own choice.
#[derive(Clone, Copy, PartialEq, Eq)]
pub struct HeaderWords {
    /// `unflushed`: a root may be given up while TLBs may keep what was read through it.
    pub unflushed: bool,
    /// `inorder`: the root registers of a PE come into use in the order in which it wrote them. Of the Kernel world alone.
    pub inorder: bool,
    /// `isolated`: no guest writes a translation table. Of the Hyp world alone.
    pub isolated: bool,
}

/// No word.
pub const NO_WORDS: HeaderWords = HeaderWords {
    unflushed: false,
    inorder: false,
    isolated: false,
};
