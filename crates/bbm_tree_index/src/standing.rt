//! How pages of trees are read.
//! Source: project's own choice.

use bbm_regimes::{Kind, Level, Page};

/// The kind and the level at which a page of a tree is read.
#[derive(Clone, Copy)]
pub struct Standing {
    /// The kind of the root.
    pub kind: Kind,
    /// The level of its places, 0 to 3.
    pub level: Level,
}

/// A page that is attached, and how it is read.
#[derive(Clone, Copy)]
pub struct AttachedPage {
    /// The page.
    pub page: Page,
    /// How it is read.
    pub standing: Standing,
}
