//! The values that one field spells.

ghost use Rattle.std.specs.Prelude.{◌≡◌, true, Some, None};
ghost use Rattle.bbm_events.specs.Spelling.{decimal_value, hex_value};
ghost use Rattle.bbm_events.specs.Heading.{is_version};
ghost use Rattle.bbm_events.specs.Fits as fits;
ghost use Rattle.bbm_events.specs.Codec as codec;
ghost use Rattle.bbm_events.specs.Lines as lines;
ghost use Rattle.bbm_events.specs.Certificate as certificate;
ghost use Rattle.bbm_events.specs.Machine as machine;

use crate::line::LabelText;
use crate::numbers::{read_decimal, read_hex};
use bbm_events::{Header, TagWord};
use bbm_regimes::{Kind, PAGE_BYTES, Page, Pe};

/// Locks have numbers below 1,024.
const LOCKS: u64 = 1024;

/// VMIDs and ASIDs have 16 bits.
const TAGS: u64 = 1 << 16;

/// The version of a log.
pub(crate) fn version_of(field: &[u8]) -> Option<u8>
    ensures { result ≡ codec.passing is_version (decimal_value field.now) }
{
    let number = read_decimal(field)?;
    if 1 <= number && number <= 5 {
        Some(number as u8)
    } else {
        None
    }
}

/// The PE of the log with this number.
#[inline(always)]
pub(crate) fn pe_of(header: &Header, number: u64) -> Option<Pe>
    ensures { result ≡ codec.passing (fits.is_pe header.now) (Some number) }
{
    if number < header.pes as u64 {
        Pe::new(number as u8)
    } else {
        None
    }
}

/// The page whose address the field spells in hex, a multiple of 4096 below 2^48. None where it spells none. Source:
/// project's own choice of the spelling.
pub fn page_of(field: &[u8]) -> Option<Page>
    ensures { result ≡ codec.passing fits.is_page (hex_value field.now) }
{
    Page::new(read_hex(field)?)
}

/// The first page of a root of this kind, with this address.
pub(crate) fn root_page_of(header: &Header, kind: Kind, address: u64) -> Option<Page>
    ensures { result ≡ codec.passing (fits.is_root_page header.now.world kind) (Some address) }
{
    let page = Page::new(address)?;
    if page.get() % (PAGE_BYTES * header.page_count(kind) as u64) == 0 {
        Some(page)
    } else {
        None
    }
}

/// The number of a lock.
pub(crate) fn lock_of(number: u64) -> Option<u16>
    ensures { result ≡ codec.passing fits.is_lock (Some number) }
{
    if number < LOCKS {
        Some(number as u16)
    } else {
        None
    }
}

/// The lock of a root, or `-` for none.
pub(crate) fn root_lock_of(field: &[u8]) -> Option<Option<u16>>
    ensures { result ≡ lines.root_lock field.now }
{
    if field == b"-".as_slice() {
        Some(None)
    } else {
        lock_of(read_decimal(field)?).map(Some)
    }
}

/// A number of event lines.
pub(crate) fn count_of(number: u64) -> Option<u32>
    ensures { result ≡ codec.passing fits.is_count (Some number) }
{
    u32::try_from(number).ok()
}

/// Whether an entry of the kind can have the number as its VMID or ASID.
fn is_tag(kind: Kind, number: u64) -> bool
    ensures { result ≡ machine.is_tag kind number }
{
    match kind {
        Kind::El2 => number == 0,
        Kind::S2 => number < TAGS,
        Kind::Ttbr0 => number < TAGS,
        Kind::Ttbr1 => number < TAGS,
    }
}

/// The VMID or ASID of an entry of the kind.
pub(crate) fn tag_of(kind: Kind, number: u64) -> Option<u16>
    ensures { result ≡ codec.passing (machine.is_tag kind) (Some number) }
{
    if is_tag(kind, number) {
        Some(number as u16)
    } else {
        None
    }
}

/// Whether the tag with this word can have the number.
fn has_number(word: TagWord, number: u64) -> bool
    ensures { result ≡ certificate.has_number word number }
{
    match word {
        TagWord::El2 => number == 0,
        TagWord::Vmid => number < TAGS,
        TagWord::Asid => number < TAGS,
        TagWord::Ttbr1 => number == 0,
    }
}

/// The number of a tag with this word, 0 where it has none.
pub(crate) fn tag_number_of(word: TagWord, number: u64) -> Option<u16>
    ensures { result ≡ codec.passing (certificate.has_number word) (Some number) }
{
    if has_number(word, number) {
        Some(number as u16)
    } else {
        None
    }
}

/// Whether the field is marked as a label.
pub(crate) fn is_marked(field: &[u8]) -> bool
    ensures { result ≡ lines.is_marked field.now }
{
    matches!(field, [b'@', ..])
}

/// The label behind the mark of the field.
#[tactic(auto, using(crate::proofs::Marks::unmarked))]
pub(crate) fn label_of(field: &[u8]) -> Option<LabelText>
    requires { lines.is_marked field.now ≡ true }
    ensures { result ≡ lines.label_value field.now }
{
    LabelText::of(&field[1..])
}
