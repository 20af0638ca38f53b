//! The one line of a claim.

ghost use Rattle.std.specs.Prelude.{◌≡◌, ◌+◌, ◌≤◌, ◌++◌, ◌∷◌, [], true, Ok, length, codes, decimal};
ghost use Rattle.arrayvec.specs.ArrayVec.{array_vec_len};
ghost use Rattle.bbm_events.specs.declared.claim.Claim.TheVariants as claims;
ghost use Rattle.bbm_events.specs.Spelling.{joined};
ghost use Rattle.bbm_events.specs.Heading.{Heading, heading_ok};
ghost use Rattle.bbm_events.specs.Certificate.{certificate_line, certificate_of, claim_fields, claim_fits, claim_line};
ghost use Rattle.bbm_events.specs.Certificate.{claim_of};
ghost use Rattle.bbm_events.specs.Certificate as certificate;

use crate::machine_writing::begin;
use crate::spell::add;
use crate::write::{add_decimal_field, add_hex_field, add_word_field};
use arrayvec::ArrayVec;
use bbm_events::{Claim, ClaimItem, law_claim_written_is_read};
use bbm_regimes::{Pe, Place, Tag};

/// The word of a tag.
fn tag_word(tag: Tag) -> &'static [u8]
    ensures word { result.now ≡ certificate.tag_word (certificate.word_of_tag tag) }
    ensures short { length result.now ≤ 12 }
{
    match tag {
        Tag::El2 => b"el2",
        Tag::Vmid(_) => b"vmid",
        Tag::Asid(_) => b"asid",
        Tag::Ttbr1 => b"ttbr1",
    }
}

/// The number of a tag, 0 where it has none.
fn tag_number(tag: Tag) -> u16
    ensures { result ≡ certificate.number_of_tag tag }
{
    match tag {
        Tag::El2 | Tag::Ttbr1 => 0,
        Tag::Vmid(number) | Tag::Asid(number) => number,
    }
}

/// The positions of a TLBI and of the DSB that answers it.
fn add_flush(out: &mut ArrayVec<u8, 200>, flush: (u32, u32))
    requires room { array_vec_len out.old + 42 ≤ 200 }
    ensures appended { out.new.items ≡ out.old.items ++ 32 ∷ (decimal flush.0 ++ 32 ∷ decimal flush.1) }
    ensures longer { array_vec_len out.new ≤ array_vec_len out.old + 42 }
{
    add_decimal_field(out, flush.0 as u64);
    add_decimal_field(out, flush.1 as u64);
}

/// `c place PE PLACE B T D`
fn place_line(out: &mut ArrayVec<u8, 200>, pe: Pe, place: Place, b: u32, flush: (u32, u32))
    requires empty { out.old.items ≡ [] }
    ensures { out.new.items ≡ joined (codes "c" ∷ claim_fields (claims.Place pe place b flush.0 flush.1)) }
{
    begin(out, b"c", b"place", pe.get() as u64);
    add_hex_field(out, place.get());
    add_decimal_field(out, b as u64);
    add_flush(out, flush);
}

/// `c two PE PLACE B T1 D1 T2 D2`
fn two_line(
    out: &mut ArrayVec<u8, 200>,
    pe: Pe,
    place: Place,
    b: u32,
    half: (u32, u32),
    other: (u32, u32),
)
    requires empty { out.old.items ≡ [] }
    ensures { out.new.items ≡ joined (codes "c" ∷ claim_fields (claims.Two pe place b half.0 half.1 other.0 other.1)) }
{
    begin(out, b"c", b"two", pe.get() as u64);
    add_hex_field(out, place.get());
    add_decimal_field(out, b as u64);
    add_flush(out, half);
    add_flush(out, other);
}

/// `c tag PE TAGKIND NUM T D`
fn tag_line(out: &mut ArrayVec<u8, 200>, pe: Pe, tag: Tag, flush: (u32, u32))
    requires empty { out.old.items ≡ [] }
    ensures { out.new.items ≡ joined (codes "c" ∷ claim_fields (claims.Taken pe tag flush.0 flush.1)) }
{
    begin(out, b"c", b"tag", pe.get() as u64);
    add_word_field(out, tag_word(tag));
    add_decimal_field(out, tag_number(tag) as u64);
    add_flush(out, flush);
}

/// The line of a claim.
fn any_line(out: &mut ArrayVec<u8, 200>, claim: Claim)
    requires empty { out.old.items ≡ [] }
    ensures { out.new.items ≡ joined (codes "c" ∷ claim_fields claim) }
{
    match claim {
        Claim::Place { pe, place, b, t, d } => place_line(out, pe, place, b, (t, d)),
        Claim::Two {
            pe,
            place,
            b,
            t1,
            d1,
            t2,
            d2,
        } => two_line(out, pe, place, b, (t1, d1), (t2, d2)),
        Claim::Taken { pe, tag, t, d } => tag_line(out, pe, tag, (t, d)),
    }
}

/// Writes the line of a claim, or the last line with its count, without its newline, into an empty buffer. Reading the
/// line gives the same again under each header that the claim fits: one that has its PE. Source: project's own choice.
#[tactic(auto, unfolding(bbm_events::specs::Certificate::claim_line))]
pub fn write_claim(item: ClaimItem, out: &mut ArrayVec<u8, 200>)
    requires empty { out.old.items ≡ [] }
    ensures line { out.new.items ≡ claim_line item }
    ensures read_again { (heading : Heading) → heading_ok heading ≡ true → claim_fits heading item ≡ true
        → claim_of heading out.new.items ≡ Ok item }
{
    law_claim_written_is_read();
    match item {
        ClaimItem::Claim(claim) => any_line(out, claim),
        ClaimItem::End(count) => {
            add(out, b"end");
            add_decimal_field(out, count as u64);
        }
    }
}

/// Writes the first line of a certificate, `bbmcert 1`, without its newline, into an empty buffer.
pub fn write_certificate_line(out: &mut ArrayVec<u8, 200>)
    requires empty { out.old.items ≡ [] }
    ensures line { out.new.items ≡ certificate_line }
    ensures read_again { certificate_of out.new.items ≡ Ok tt }
{
    law_claim_written_is_read();
    add(out, b"bbmcert 1");
}
