//! Roots of stage 2 tables.

ghost use Rattle.std.specs.Prelude.{◌≡◌, ◌*◌, ◌%◌, ◌≤◌, IsTrue};
ghost use Rattle.bbm_regimes.specs.declared.address.TheConstants.{PAGE_BYTES};
ghost use Rattle.bbm_walk_s2.specs.Joined.{can_join};

use bbm_regimes::{Level, Page};

/// What a stage 2 walk begins with. Source: Arm ARM (DDI 0487), "VMSAv8-64 translation table walks", concatenated
/// tables.
#[derive(Clone, Copy, PartialEq, Eq)]
pub struct S2Root {
    /// The level at which the walk starts, 0 to 2.
    pub start: Level,
    /// The number of joined pages of the root: 1, 2, 4, 8 or 16, and 1 where the walk starts at level 0.
    pub pages: u8,
    /// The first page of the root, aligned to all of them.
    pub page: Page,

    ghost starts: { start ≤ 2 },
    ghost joined: { IsTrue (can_join start pages) },
    ghost aligned: { page % (PAGE_BYTES * pages) ≡ 0 },
}
