//! Roles of pages, what a path says of a place, and what is attached.
//! Source: project's own choice, where no other is named.

use bbm_regimes::{Interval, Kind, Level, Page, Place};

/// What a page is used for.
#[derive(Clone, Copy, PartialEq, Eq)]
pub enum Role {
    /// It was never tracked.
    Untracked,
    /// It was tracked, and since then was in no tree and wasn't declared null.
    Fresh,
    /// It is a page of a root.
    RootPage {
        /// The kind of the root.
        kind: Kind,
        /// The first page of the root.
        first: Page,
        /// Which of the pages of the root it is, from 0 on.
        part: u8,
    },
    /// It hangs at a place of a page of a tree.
    Hangs {
        /// The place.
        parent: Place,
        /// The kind of the root.
        kind: Kind,
        /// Its level, 1 to 3.
        level: Level,
        /// The input page number at which its region begins.
        base: u64,
        /// The first page of the root.
        first: Page,
    },
    /// It was in a tree, and left it.
    Gone,
    /// It is a null page.
    Null,
}

/// What is known of a place of a tree.
#[derive(Clone, Copy, PartialEq, Eq)]
pub struct Path {
    /// The kind of the tree.
    pub kind: Kind,
    /// The level of the place.
    pub level: Level,
    /// The input pages that the place translates.
    pub region: Interval,
    /// The first page of the root.
    pub first: Page,
}

/// What is attached to a tree.
#[derive(Clone, Copy, PartialEq, Eq)]
pub enum Attach {
    /// The pages of a root.
    Root {
        /// The kind of the root.
        kind: Kind,
        /// The first page.
        first: Page,
    },
    /// A page below a place of a tree.
    Below {
        /// The place.
        place: Place,
        /// The page.
        next: Page,
    },
}
