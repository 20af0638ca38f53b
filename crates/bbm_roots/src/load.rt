//! What the value of a root register names.
//! Source: project's own choice, where no other is named.

ghost use Rattle.std.specs.Prelude.{◌≡◌};
ghost use Rattle.bbm_roots.specs.RootRegisters as spec;

use bbm_events::{Header, nulls_everywhere};
use bbm_regimes::{Page, Reg};

/// What the value of a root register names; or what a standing of a PE gives, the root of its value of TTBR0_EL1 under
/// the ASID of its value of TTBR1_EL1. Source: Arm ARM (DDI 0487), "AArch64 System register
/// descriptions", TTBR0_EL2, VTTBR_EL2, TTBR0_EL1 and TTBR1_EL1.
#[derive(Clone, Copy, Default, PartialEq, Eq)]
pub struct RootValue {
    /// Its VMID or ASID, 0 to 65535: bits [63:48].
    pub number: u16,
    /// The first page of the root that it names; None where it names none.
    pub root: Option<Page>,
}

/// Whether a value of this register, whose base is a null page or isn't, as `null` says, means that no walk is
/// made.
pub fn names_null(header: &Header, reg: Reg, null: bool) -> bool
    ensures { result ≡ spec.names_null header.now reg null }
{
    null && (matches!(reg, Reg::Ttbr0El1) || nulls_everywhere(header))
}

/// Whether the register is the first of its world: TTBR0_EL2, or TTBR0_EL1.
pub fn is_first(reg: Reg) -> bool
    ensures { result ≡ spec.is_first reg }
{
    matches!(reg, Reg::Ttbr0El2 | Reg::Ttbr0El1)
}

/// Whether one of the values names the root with this first page.
pub fn names_in(loads: &[RootValue], page: Page) -> bool
    ensures { result ≡ spec.names_in loads.now page }
{
    loads.iter().any(|load| load.root == Some(page))
}
