//! What the value of a root register names, and which registers and tags are the same.

ghost use Rattle.std.specs.Prelude.{◌≡◌};
ghost use Rattle.bbm_regimes.specs.Registers as spec;
ghost use Rattle.bbm_regimes.specs.SameRegister as same;

use crate::regime::{Kind, Reg, Tag};

/// The base that a register value names, in bytes: bits [47:1] as an address. None of value 0. Source: Arm ARM (DDI
/// 0487), "AArch64 System register descriptions"; that value 0 names none is the project's own choice.
pub fn base_of(value: u64) -> Option<u64>
    ensures { result ≡ spec.base_of value }
{
    if value == 0 {
        None
    } else {
        Some(value % (1 << 48) / 2 * 2)
    }
}

/// The VMID or the ASID of a register value, 0 to 65535: bits [63:48]. Source: Arm ARM (DDI 0487), "AArch64 System
/// register descriptions".
pub fn tag_number(value: u64) -> u16
    ensures { result ≡ spec.tag_number value }
{
    (value >> 48) as u16
}

/// The kind of the roots that the register names. Source: Arm ARM (DDI 0487), "AArch64 System register descriptions".
pub fn kind_of(reg: Reg) -> Kind
    ensures { result ≡ same.kind_of_reg reg }
{
    match reg {
        Reg::Ttbr0El2 => Kind::El2,
        Reg::VttbrEl2 => Kind::S2,
        Reg::Ttbr0El1 => Kind::Ttbr0,
        Reg::Ttbr1El1 => Kind::Ttbr1,
    }
}

/// The tag under which a TLB reads through a root of the kind, with the VMID or ASID.
pub fn tag_of(kind: Kind, number: u16) -> Tag
    ensures { result ≡ same.tag_of kind number }
{
    match kind {
        Kind::El2 => Tag::El2,
        Kind::S2 => Tag::Vmid(number),
        Kind::Ttbr0 => Tag::Asid(number),
        Kind::Ttbr1 => Tag::Ttbr1,
    }
}

/// Whether the registers are the same.
pub fn same_reg(reg: Reg, other: Reg) -> bool
    ensures { result ≡ same.same_reg reg other }
{
    match (reg, other) {
        (Reg::Ttbr0El2, Reg::Ttbr0El2) => true,
        (Reg::VttbrEl2, Reg::VttbrEl2) => true,
        (Reg::Ttbr0El1, Reg::Ttbr0El1) => true,
        (Reg::Ttbr1El1, Reg::Ttbr1El1) => true,
        _ => false,
    }
}

/// Whether the tags are the same.
pub fn same_tag(tag: Tag, other: Tag) -> bool
    ensures { result ≡ same.same_tag tag other }
{
    match (tag, other) {
        (Tag::El2, Tag::El2) => true,
        (Tag::Vmid(vmid), Tag::Vmid(other)) => vmid == other,
        (Tag::Asid(asid), Tag::Asid(other)) => asid == other,
        (Tag::Ttbr1, Tag::Ttbr1) => true,
        _ => false,
    }
}
