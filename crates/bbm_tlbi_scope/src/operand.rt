//! The fields of the operand of a TLBI for one page or an ASID, each in one place.

ghost use Rattle.std.specs.Prelude.{◌≡◌, ◌<◌};
ghost use Rattle.bbm_tlbi_scope.specs.Operand as fields;

use bbm_regimes::{Level, hint_of};

/// The ASID: bits [63:48]. Source: Arm ARM (DDI 0487), "TLB maintenance instructions".
pub fn asid_field(xt: u64) -> u16
    ensures { result ≡ fields.asid_field xt }
{
    (xt >> 48) as u16
}

/// TTL[3:2], the granule of the level hint: bits [47:46]. Source: Arm ARM (DDI 0487), "TLB maintenance
/// instructions".
pub fn ttl_granule(xt: u64) -> u8
    ensures { result ≡ fields.ttl_granule xt }
{
    ((xt >> 46) % 4) as u8
}

/// TTL[1:0], the level of the level hint: bits [45:44]. Source: Arm ARM (DDI 0487), "TLB maintenance
/// instructions".
pub fn ttl_level(xt: u64) -> u8
    ensures { result ≡ fields.ttl_level xt }
{
    ((xt >> 44) % 4) as u8
}

/// The page number of a virtual address, VA[55:12]: bits [43:0]. Source: Arm ARM (DDI 0487), "TLB
/// maintenance instructions".
pub fn va_page(xt: u64) -> u64
    ensures { result ≡ fields.va_page xt }
{
    xt % (1 << 44)
}

/// The page number of an intermediate physical address, IPA[47:12]: bits [35:0]. Source: Arm ARM (DDI
/// 0487), "TLB maintenance instructions".
pub fn ipa_page(xt: u64) -> u64
    ensures { result ≡ fields.ipa_page xt }
{
    xt % (1 << 36)
}

/// The bits above a page number of 36 bits, in the field of VA[55:12]: bits [43:36], which is VA[55:48].
/// Source: Arm ARM (DDI 0487), "TLB maintenance instructions".
pub fn top_bits(xt: u64) -> u8
    ensures { result ≡ fields.top_bits xt }
{
    ((xt >> 36) % 256) as u8
}

/// The level hint, 1 to 3; None where the operand gives none, or gives level 0. Source: Arm ARM (DDI
/// 0487), "TLB maintenance instructions"; that level 0 is no hint is the project's own choice.
pub fn level_hint(xt: u64) -> Option<Level>
    ensures { result ≡ fields.level_hint xt }
{
    if ttl_granule(xt) == 1 {
        hint_of(ttl_level(xt))
    } else {
        None
    }
}
