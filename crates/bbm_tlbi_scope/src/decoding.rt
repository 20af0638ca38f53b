//! Decoding of a TLBI operation with its operand.

ghost use Rattle.std.specs.Prelude.{◌≡◌, IfOk};
ghost use Rattle.bbm_tlbi_scope.specs.Decode as decoding;
ghost use Rattle.bbm_tlbi_scope.specs.Operations.{operation, family_of, scoped_by_vmid};

use crate::op::TlbiOp;
use crate::operand::{asid_field, ipa_page, level_hint, top_bits, ttl_granule, va_page};
use crate::scope::{BadOperand, Family, Scope};
use bbm_range::{BadRange, is_upper, pages};
use bbm_regimes::{Interval, Level};

/// Whether the page number of the operand lies in the address range of the family's regime.
fn canonical(family: Family, xt: u64) -> bool
    ensures { result ≡ decoding.canonical family xt }
{
    match family {
        Family::El2Va | Family::Ipa => top_bits(xt) == 0,
        Family::Va | Family::VaAll => top_bits(xt) == 0 || top_bits(xt) == 255,
        Family::El2All | Family::E1All | Family::VmAll1 | Family::VmAll12 | Family::Asid => true,
    }
}

/// Whether the granule of the level hint is none or 4 KiB.
fn granule_known(family: Family, xt: u64) -> bool
    ensures { result ≡ decoding.granule_known family xt }
{
    !family.has_page() || ttl_granule(xt) == 0 || ttl_granule(xt) == 1
}

/// The page number of the operand of a family that has one.
fn page_field(family: Family, xt: u64) -> u64
    ensures { result ≡ decoding.page_field family xt }
{
    match family {
        Family::Ipa => ipa_page(xt),
        _ => va_page(xt),
    }
}

/// The input page numbers of the operand: those of its one page, or None where it has no page number.
fn interval(family: Family, xt: u64) -> Option<Interval>
    ensures { result ≡ decoding.interval_field family xt }
{
    if family.has_page() {
        let page = page_field(family, xt);
        Some(Interval { lo: page, hi: page })
    } else {
        None
    }
}

/// The level hint of the operand of a family that has a page number.
fn hint(family: Family, xt: u64) -> Option<Level>
    ensures { result ≡ decoding.hint_field family xt }
{
    if family.has_page() {
        level_hint(xt)
    } else {
        None
    }
}

/// The scope of an operand that names these pages with this level hint.
fn scope_with(op: TlbiOp, xt: u64, interval: Option<Interval>, level: Option<Level>) -> Scope
    ensures { result ≡ decoding.decoded (operation op) xt interval level }
{
    let family = op.family();
    Scope {
        family,
        asid: if family.has_asid() {
            Some(asid_field(xt))
        } else {
            None
        },
        vmid_scoped: family.by_vmid(),
        interval,
        last_only: op.last_only(),
        level,
        broadcast: op.is_broadcast(),
    }
}

/// The scope of an operand for one page, or for none.
fn decode_page(op: TlbiOp, xt: u64) -> Result<Scope, BadOperand>
    ensures scope { result ≡ decoding.page_scope (operation op) xt }
    ensures family { IfOk result (λ s. s.family ≡ family_of op) }
    ensures by_vmid { IfOk result (λ s. s.vmid_scoped ≡ scoped_by_vmid op) }
    ensures broadcast { IfOk result (λ s. s.broadcast ≡ (operation op).broadcast) }
{
    let family = op.family();
    if !canonical(family, xt) {
        return Err(BadOperand::NonCanonical);
    }
    if !granule_known(family, xt) {
        return Err(BadOperand::TtlGranule);
    }
    Ok(scope_with(op, xt, interval(family, xt), hint(family, xt)))
}

/// Whether the pages of a range begin in the address range of the family's regime.
fn range_canonical(family: Family, xt: u64) -> bool
    ensures { result ≡ decoding.range_canonical family xt }
{
    match family {
        Family::El2Va | Family::Ipa => !is_upper(xt),
        _ => true,
    }
}

/// The scope of an operand for a range of pages.
fn decode_range(op: TlbiOp, xt: u64) -> Result<Scope, BadOperand>
    ensures scope { result ≡ decoding.range_scope (operation op) xt }
    ensures family { IfOk result (λ s. s.family ≡ family_of op) }
    ensures by_vmid { IfOk result (λ s. s.vmid_scoped ≡ scoped_by_vmid op) }
    ensures broadcast { IfOk result (λ s. s.broadcast ≡ (operation op).broadcast) }
{
    if !range_canonical(op.family(), xt) {
        return Err(BadOperand::NonCanonical);
    }
    match pages(xt) {
        Ok(range) => {
            let interval = Interval {
                lo: range.lo,
                hi: range.hi,
            };
            Ok(scope_with(op, xt, Some(interval), range.level))
        }
        Err(BadRange::Granule) => Err(BadOperand::RangeGranule),
        Err(BadRange::Unaligned) => Err(BadOperand::RangeUnaligned),
    }
}

/// The scope of a TLBI operation with this operand, which is ignored where the operation has none.
/// `NonCanonical` exactly where the page number lies outside the address range of the regime: VA[55:48]
/// isn't 0 at EL2, is neither all zeros nor all ones at EL1, or the bits above IPA[47:12] aren't 0; for a
/// range, where the highest bit of its BASE is set at EL2 or at stage 2. Else `TtlGranule` exactly where an
/// operand for one page has a level hint of another granule than 4 KiB; for a range `RangeGranule` exactly
/// where its granule isn't 4 KiB, and else `RangeUnaligned` exactly where its first page isn't a multiple of
/// the pages that one entry of the hint's level has. Source: Arm ARM (DDI 0487), "TLB maintenance
/// instructions"; the four refusals are the project's own choice.
pub fn decode(op: TlbiOp, xt: u64) -> Result<Scope, BadOperand>
    ensures scope { result ≡ decoding.scope_of op xt }
    ensures family { IfOk result (λ s. s.family ≡ family_of op) }
    ensures by_vmid { IfOk result (λ s. s.vmid_scoped ≡ scoped_by_vmid op) }
    ensures broadcast { IfOk result (λ s. s.broadcast ≡ (operation op).broadcast) }
{
    if op.is_range() {
        decode_range(op, xt)
    } else {
        decode_page(op, xt)
    }
}
