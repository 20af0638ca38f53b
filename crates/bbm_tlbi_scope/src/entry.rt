//! TLB entries and places of translation tables, as a TLBI sees them.
//! Source: project's own choice, where no other is named.

use bbm_regimes::{Interval, Kind, Level, Tag};

/// The kind of a TLB entry. Source: Arm ARM (DDI 0487), "Translation Lookaside Buffers".
#[derive(Clone, Copy, PartialEq, Eq)]
pub enum EntryKind {
    /// Of the EL2 translation regime.
    El2,
    /// Of stage 2 of the EL1&0 translation regime.
    Stage2,
    /// Of stages 1 and 2 of the EL1&0 translation regime together.
    Combined,
    /// Of stage 1 of the EL1&0 translation regime.
    El1,
}

/// What a TLBI sees of a TLB entry. Source: Arm ARM (DDI 0487), "TLB maintenance instructions".
#[derive(Clone, Copy, PartialEq, Eq)]
pub struct EntryHead {
    /// The kind of the entry.
    pub kind: EntryKind,
    /// The VMID under which the entry was made; 0 where its kind has none.
    pub vmid: u16,
    /// The ASID under which the entry was made; 0 where its kind has none.
    pub asid: u16,
    /// The input page numbers that the last descriptor of the entry translates.
    pub region: Interval,
    /// Whether the last descriptor of the entry is a leaf: a block or a page.
    pub last: bool,
    /// The level of the last descriptor.
    pub level: Level,
    /// Whether the last descriptor is a leaf for every ASID.
    pub global: bool,
}

/// The tags that a root holds, at any PE, at the issue of a TLBI.
#[derive(Clone, Copy, PartialEq, Eq)]
pub enum TagSet {
    /// No tag.
    None,
    /// This tag alone.
    One(Tag),
    /// More than one tag.
    Many,
}

/// A place that holds a value, at the issue of a TLBI.
#[derive(Clone, Copy, PartialEq, Eq)]
pub struct PlaceView {
    /// The kind of the tree that the place is in.
    pub kind: Kind,
    /// The input page numbers that the place translates.
    pub region: Interval,
    /// The level of the place.
    pub level: Level,
    /// Whether the held value is a table, and not a leaf.
    pub table: bool,
    /// Whether the held value is a leaf for every ASID.
    pub global: bool,
    /// Whether the held value is a table no place of which holds anything.
    pub childless: bool,
    /// The tags that the root of the place holds.
    pub tags: TagSet,
}

/// How much of what a TLB may keep of a place a TLBI takes away. Source: Arm ARM (DDI 0487), "TLB
/// maintenance instructions"; the four grades are the project's own choice.
#[derive(Clone, Copy, PartialEq, Eq)]
pub enum Cover {
    /// Nothing that counts.
    None,
    /// The stage 2 entries, but not those that combine stages 1 and 2.
    Half,
    /// The entries that combine stages 1 and 2.
    Second,
    /// Every entry.
    Full,
}
