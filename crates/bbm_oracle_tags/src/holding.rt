//! A tag of a root at a PE.

use bbm_regimes::{Pe, Tag};

/// A tag that a root of a page keeps at a PE, or may keep there. Source: project's own choice.
#[derive(Clone, Copy)]
pub struct Holding {
    /// The PE.
    pub pe: Pe,
    /// The address of the page, the first of the root, in bytes.
    pub root: u64,
    /// The tag.
    pub tag: Tag,
}
