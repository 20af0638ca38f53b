//! Roots of stage 1 tables.

ghost use Rattle.std.specs.Prelude.{◌≤◌};

use bbm_regimes::{Level, Page};

/// What a stage 1 walk begins with. Source: Arm ARM (DDI 0487), "VMSAv8-64 translation table walks".
#[derive(Clone, Copy, PartialEq, Eq)]
pub struct S1Root {
    /// The level at which the walk starts, 0 to 2.
    pub start: Level,
    /// Whether the input range is the high one, that of TTBR1_EL1: the highest 512 spans of the start level of the
    /// 64-bit addresses. The low range begins at address 0 and is as long.
    pub high: bool,
    /// The page of the root.
    pub page: Page,

    ghost starts: { start ≤ 2 },
}
