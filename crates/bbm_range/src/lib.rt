//! The theorem of this crate is the contract of `pages`: the pages that an operand names are those of the
//! architecture's formula.
//!
//! The operand of a TLBI for a range of pages: which pages it names, and its level hint.
//! Source: project's own choice, where no other is named.
#![tactic(auto)]

ghost use Rattle.std.specs.Prelude.{◌≡◌, ℕ, ◌^◌, ◌<◌, ◌≤◌, ◌↔◌, IfOk};
ghost use Rattle.bbm_range.specs.RangeOperand as fields;
ghost use Rattle.bbm_range.specs.RangePages as range;

use bbm_regimes::{Level, hint_of};

/// The pages that the operand of a range TLBI names, and its level hint. A page number is an address
/// without its 12 lowest bits.
#[derive(Clone, Copy, PartialEq, Eq)]
pub struct Range {
    /// The first page number, 0 to 2^44 - 1.
    pub lo: u64,
    /// The last page number, `lo` to 2^44 - 1.
    pub hi: u64,
    /// The level of the hint, 1 to 3; None where the operand gives none.
    pub level: Option<Level>,
}

/// Why the operand of a range TLBI can't be read.
#[derive(Clone, Copy, PartialEq, Eq)]
pub enum BadRange {
    /// The granule is another than 4 KiB.
    Granule = 1,
    /// The first page isn't a multiple of the pages that one entry of the hint's level has.
    Unaligned = 2,
}

/// The number of page numbers.
const PAGE_NUMBERS: u64 = 1 << 44;

/// TG, the granule: bits [47:46].
fn granule_field(xt: u64) -> u8
    ensures { result ≡ fields.tg xt }
{
    ((xt >> 46) % 4) as u8
}

/// SCALE: bits [45:44].
fn scale_field(xt: u64) -> u8
    ensures { result ≡ fields.scale xt }
{
    ((xt >> 44) % 4) as u8
}

/// NUM: bits [43:39].
fn num_field(xt: u64) -> u64
    ensures { result ≡ fields.num xt }
{
    (xt >> 39) % 32
}

/// TTL, the level hint: bits [38:37].
fn ttl_field(xt: u64) -> u8
    ensures { result ≡ fields.ttl xt }
{
    ((xt >> 37) % 4) as u8
}

/// BASE, the first page number: bits [36:0].
fn base_field(xt: u64) -> u64
    ensures { result ≡ fields.base xt }
{
    xt % (1 << 37)
}

/// Whether the highest bit of BASE is set, so that the range is in the highest part of the page numbers.
/// Source: Arm ARM (DDI 0487), "TLB maintenance instructions".
pub fn is_upper(xt: u64) -> bool
    ensures { result ≡ range.is_upper xt }
{
    (xt >> 36) % 2 == 1
}

/// How many pages the range has, where it doesn't pass the last page number.
fn page_count(xt: u64) -> u64
    ensures count { result ≡ range.page_count xt }
    ensures some { 1 ≤ result }
    ensures few { result ≤ 2 ^ 21 }
{
    let unit = match scale_field(xt) {
        0 => 1 << 1,
        1 => 1 << 6,
        2 => 1 << 11,
        _ => 1 << 16,
    };
    (num_field(xt) + 1) * unit
}

/// The first page number.
fn first_page(xt: u64) -> u64
    ensures first { result ≡ range.first_page xt }
    ensures within { result < 2 ^ 44 }
{
    if is_upper(xt) {
        base_field(xt) + ((1 << 44) - (1 << 37))
    } else {
        base_field(xt)
    }
}

/// Whether the first page fits the level hint.
fn is_aligned(xt: u64) -> bool
    ensures { result ≡ range.is_aligned xt }
{
    match ttl_field(xt) {
        1 => base_field(xt) % (1 << 18) == 0,
        2 => base_field(xt) % (1 << 9) == 0,
        _ => true,
    }
}

/// The pages that the operand of a range TLBI names: (NUM + 1) * 2^(5*SCALE + 1) pages from BASE on, whose
/// highest bit stands for the bits above it, or those up to the last page number where the range would
/// pass it. `Granule` exactly where TG isn't 01, the granule of 4 KiB. Else `Unaligned` exactly where the
/// hint's level is 1 and BASE isn't a multiple of 2^18, or it is 2 and BASE isn't a multiple of 2^9.
/// Source: Arm ARM (DDI 0487), "TLB maintenance instructions"; that the range ends at the last page number
/// and the two refusals are the project's own choice.
pub fn pages(xt: u64) -> Result<Range, BadRange>
    ensures range { result ≡ range.range_of xt }
    ensures named { IfOk result (λ r. (n : ℕ) → range.Has r n ↔ range.Names xt n) }
    ensures ordered { IfOk result (λ r. r.lo ≤ r.hi) }
    ensures within { IfOk result (λ r. r.hi < 2 ^ 44) }
{
    if granule_field(xt) != 1 {
        return Err(BadRange::Granule);
    }
    if !is_aligned(xt) {
        return Err(BadRange::Unaligned);
    }
    let lo = first_page(xt);
    let end = lo + page_count(xt) - 1;
    Ok(Range {
        lo,
        hi: if end < PAGE_NUMBERS - 1 {
            end
        } else {
            PAGE_NUMBERS - 1
        },
        level: hint_of(ttl_field(xt)),
    })
}
