//! The lines of a certificate.

ghost use Rattle.std.specs.Prelude.{◌≡◌, true, IfOk, IfErr};
ghost use Rattle.bbm_events.specs.Causes.{IsFieldCause};
ghost use Rattle.bbm_events.specs.Certificate.{certificate_of, claim_of, claim_fits};
ghost use Rattle.bbm_events.specs.Certificate as certificate;
ghost use Rattle.bbm_events.specs.declared.certificate.CertificateWord.TheVariants as first;
ghost use Rattle.bbm_events.specs.declared.certificate.ClaimWord.TheVariants as second;

use crate::fields::{Fields, found};
use crate::readers::{count_field, pe_field, place_field, whole};
use crate::values::tag_number_of;
use crate::words::{CERTIFICATE_WORDS, CLAIM_WORDS, TAG_WORDS};
use bbm_events::{
    CertificateWord, Claim, ClaimItem, ClaimWord, Header, Malformed, TagWord, law_claim_causes,
    law_claim_fits,
};
use bbm_regimes::Tag;

/// The word of a tag.
fn tag_word_field<'a>(fields: Fields<'a>) -> Result<(TagWord, Fields<'a>), Malformed>
    ensures { result ≡ certificate.tag_word_field.read fields.entry }
{
    fields.word_or(&TAG_WORDS, Malformed::MissingField, Malformed::UnknownWord)
}

/// The number of a tag with this word.
#[tactic(auto, using(crate::proofs::Passing::passing_fields))]
fn tag_number_field<'a>(word: TagWord, fields: Fields<'a>) -> Result<(u16, Fields<'a>), Malformed>
    ensures { result ≡ (certificate.tag_number_field word).read fields.entry }
{
    match fields.decimal_or(Malformed::MissingField, Malformed::BadNumber) {
        Ok((number, rest)) => found(tag_number_of(word, number), Malformed::BadNumber, rest),
        Err(cause) => Err(cause),
    }
}

/// The tag with this word and this number.
fn tag_with(word: TagWord, number: u16) -> Tag
    ensures { result ≡ certificate.tag_with word number }
{
    match word {
        TagWord::El2 => Tag::El2,
        TagWord::Vmid => Tag::Vmid(number),
        TagWord::Asid => Tag::Asid(number),
        TagWord::Ttbr1 => Tag::Ttbr1,
    }
}

/// A tag, by its word and its number.
fn tag_fields<'a>(fields: Fields<'a>) -> Result<(Tag, Fields<'a>), Malformed>
    ensures { result ≡ certificate.tag_fields.read fields.entry }
{
    let (word, fields) = tag_word_field(fields)?;
    let (number, fields) = tag_number_field(word, fields)?;
    Ok((tag_with(word, number), fields))
}

/// A position, which is spelled as a count is.
fn position_field<'a>(fields: Fields<'a>) -> Result<(u32, Fields<'a>), Malformed>
    ensures { result ≡ certificate.position_field.read fields.entry }
{
    count_field(fields)
}

/// The positions of a TLBI and of the DSB that answers it.
fn flush_fields<'a>(fields: Fields<'a>) -> Result<((u32, u32), Fields<'a>), Malformed>
    ensures { result ≡ certificate.flush_fields.read fields.entry }
{
    let (t, fields) = position_field(fields)?;
    let (d, fields) = position_field(fields)?;
    Ok(((t, d), fields))
}

fn place_line(header: &Header, fields: Fields) -> Result<ClaimItem, Malformed>
    ensures { result ≡ certificate.claim_after header.now second.Place fields.entry }
{
    let (pe, fields) = pe_field(header, fields)?;
    let (place, fields) = place_field(fields)?;
    let (b, fields) = position_field(fields)?;
    let ((t, d), fields) = flush_fields(fields)?;
    let claim = Claim::Place { pe, place, b, t, d };
    whole(ClaimItem::Claim(claim), fields)
}

fn two_line(header: &Header, fields: Fields) -> Result<ClaimItem, Malformed>
    ensures { result ≡ certificate.claim_after header.now second.Two fields.entry }
{
    let (pe, fields) = pe_field(header, fields)?;
    let (place, fields) = place_field(fields)?;
    let (b, fields) = position_field(fields)?;
    let ((t1, d1), fields) = flush_fields(fields)?;
    let ((t2, d2), fields) = flush_fields(fields)?;
    let claim = Claim::Two {
        pe,
        place,
        b,
        t1,
        d1,
        t2,
        d2,
    };
    whole(ClaimItem::Claim(claim), fields)
}

fn tag_line(header: &Header, fields: Fields) -> Result<ClaimItem, Malformed>
    ensures { result ≡ certificate.claim_after header.now second.Tag fields.entry }
{
    let (pe, fields) = pe_field(header, fields)?;
    let (tag, fields) = tag_fields(fields)?;
    let ((t, d), fields) = flush_fields(fields)?;
    let claim = Claim::Taken { pe, tag, t, d };
    whole(ClaimItem::Claim(claim), fields)
}

/// The claim of a line whose second word is this one.
fn claim_after(header: &Header, word: ClaimWord, fields: Fields) -> Result<ClaimItem, Malformed>
    ensures { result ≡ certificate.claim_after header.now word fields.entry }
{
    match word {
        ClaimWord::Place => place_line(header, fields),
        ClaimWord::Two => two_line(header, fields),
        ClaimWord::Tag => tag_line(header, fields),
    }
}

/// The word of a claim.
fn claim_word_field<'a>(fields: Fields<'a>) -> Result<(ClaimWord, Fields<'a>), Malformed>
    ensures { result ≡ certificate.claim_word_field.read fields.entry }
{
    fields.word_or(
        &CLAIM_WORDS,
        Malformed::MissingField,
        Malformed::UnknownWord,
    )
}

fn any_claim(header: &Header, fields: Fields) -> Result<ClaimItem, Malformed>
    ensures { result ≡ certificate.certificate_after header.now first.Claim fields.entry }
{
    let (word, fields) = claim_word_field(fields)?;
    claim_after(header, word, fields)
}

fn end_line(header: &Header, fields: Fields) -> Result<ClaimItem, Malformed>
    ensures { result ≡ certificate.certificate_after header.now first.End fields.entry }
{
    let (count, fields) = count_field(fields)?;
    whole(ClaimItem::End(count), fields)
}

/// The first word of a line.
fn certificate_word_field<'a>(
    fields: Fields<'a>,
) -> Result<(CertificateWord, Fields<'a>), Malformed>
    ensures { result ≡ certificate.certificate_word_field.read fields.entry }
{
    fields.word_or(
        &CERTIFICATE_WORDS,
        Malformed::MissingField,
        Malformed::UnknownWord,
    )
}

/// What a line says, or the first cause for which it says nothing.
#[tactic(auto, unfolding(bbm_events::specs::Certificate::claim_of))]
fn claim_on(header: &Header, line: &[u8]) -> Result<ClaimItem, Malformed>
    ensures { result ≡ claim_of header.now line.now }
{
    let (word, fields) = certificate_word_field(Fields::of(line))?;
    match word {
        CertificateWord::Claim => any_claim(header, fields),
        CertificateWord::End => end_line(header, fields),
    }
}

/// The claim or the count that a line of a certificate after its first says; the bytes are the line's without its
/// newline. Where the line isn't the one spelling of an item, the answer is the first cause, 3 to 8: `UnknownWord`
/// where the first field is neither `c` nor `end`, and then, from left to right, `MissingField` where a field is absent
/// and else the cause of its kind where it can't be read: `UnknownWord` for the word of a claim or of a tag, `BadPe`
/// for a PE, `BadAddress` for a place, and `BadNumber` for the number of a tag, which is 0 to 65535 and 0 for `el2` and
/// `ttbr1`, and for a position or a count, 0 to 4294967295. At last `ExtraField` where a further field follows. Source:
/// project's own choice.
pub fn read_claim(header: &Header, line: &[u8]) -> Result<ClaimItem, Malformed>
    ensures item { result ≡ claim_of header.now line.now }
    ensures fits { IfOk result (λ item. claim_fits header.now item ≡ true) }
    ensures causes { IfErr result IsFieldCause }
{
    law_claim_fits();
    law_claim_causes();
    claim_on(header, line)
}

/// Reads the first line of a certificate, without its newline; the cause is `NoMagic` where it isn't `bbmcert 1`.
pub fn read_certificate_line(line: &[u8]) -> Result<(), Malformed>
    ensures { result ≡ certificate_of line.now }
{
    if line == b"bbmcert 1".as_slice() {
        Ok(())
    } else {
        Err(Malformed::NoMagic)
    }
}
