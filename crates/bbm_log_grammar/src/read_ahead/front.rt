//! What stands at the front of the bytes ahead, and the bytes behind it.
//! Source: project's own choice.

ghost use Rattle.std.specs.Prelude.{◌≡◌, ◌∷◌, ◌++◌, IfSome, false, true};
ghost use Rattle.std.specs.Fmt.{decimal, digits};
ghost use Rattle.bbm_events.specs.Fits.{is_pe, label_fits};
ghost use Rattle.bbm_events.specs.Spelling.{hex};
ghost use Rattle.bbm_log_grammar.specs.Ahead.{label_part};

use crate::line::LabelText;
use crate::numbers::{decimal_worth, is_decimal};
use crate::read_ahead::lanes::{digit_run, label_run, number_in};
use crate::values::pe_of;
use crate::words::Worded;
use bbm_events::Header;
use bbm_regimes::Pe;
use std::simd::prelude::*;

/// Whether so many digits, of which this is the first, have no leading zero.
#[inline(always)]
fn leads(first: u8, count: u32) -> bool
    ensures { result ≡ true → first ≡ 48 → count ≡ 1 }
{
    count == 1 || first != b'0'
}

/// The number whose hex digits the bytes begin with, and the bytes behind them.
#[inline(always)]
fn digits_ahead<'a>(bytes: &'a [u8]) -> Option<(u64, &'a [u8])>
    ensures { IfSome result (λ x. bytes.now ≡ digits 16 false x.0 ++ x.1.now) }
{
    if bytes.len() < 16 {
        return None;
    }
    let lanes = u8x16::from_slice(bytes);
    let count = digit_run(lanes);
    if count == 0 {
        return None;
    }
    if !leads(bytes[0], count) {
        return None;
    }
    Some((
        number_in(lanes) >> (64 - 4 * count),
        &bytes[count as usize..],
    ))
}

/// The number whose hex spelling stands behind a space at the front, and the bytes behind it.
#[inline(always)]
#[tactic(auto, using(crate::proofs::Ahead::hex_begun))]
pub(crate) fn hex_ahead<'a>(bytes: &'a [u8]) -> Option<(u64, &'a [u8])>
    ensures { IfSome result (λ x. bytes.now ≡ 32 ∷ hex x.0 ++ x.1.now) }
{
    match bytes {
        [b' ', b'0', b'x', rest @ ..] => {
            let (number, rest) = digits_ahead(rest)?;
            Some((number, rest))
        }
        _ => None,
    }
}

/// The number of one to three decimal digits at the front, and the bytes behind it.
#[inline(always)]
#[tactic(auto, using(crate::proofs::Ahead::short_numbers))]
pub(crate) fn decimal_ahead<'a>(bytes: &'a [u8]) -> Option<(u64, &'a [u8])>
    ensures { IfSome result (λ x. bytes.now ≡ decimal x.0 ++ x.1.now) }
{
    match bytes {
        [first, second, third, rest @ ..] => {
            if !is_decimal(*first) {
                return None;
            }
            let one = decimal_worth(*first);
            if !is_decimal(*second) {
                return Some((one, &bytes[1..]));
            }
            if one == 0 {
                return None;
            }
            let two = one * 10 + decimal_worth(*second);
            if !is_decimal(*third) {
                return Some((two, &bytes[2..]));
            }
            Some((two * 10 + decimal_worth(*third), rest))
        }
        _ => None,
    }
}

/// The PE at the front, and the bytes behind it.
#[inline(always)]
pub(crate) fn pe_ahead<'a>(header: &Header, bytes: &'a [u8]) -> Option<(Pe, &'a [u8])>
    ensures { IfSome result (λ x. (bytes.now ≡ decimal x.0 ++ x.1.now) × (is_pe header.now x.0 ≡ true)) }
{
    let (number, rest) = decimal_ahead(bytes)?;
    match pe_of(header, number) {
        Some(pe) => Some((pe, rest)),
        None => None,
    }
}

/// The label at the front, up to a newline, and the bytes behind that.
#[inline(always)]
#[tactic(auto, using(crate::proofs::Ahead::label_is, crate::proofs::Ahead::label_end))]
fn label_ahead<'a>(bytes: &'a [u8]) -> Option<(LabelText<'a>, &'a [u8])>
    ensures { IfSome result (λ x. bytes.now ≡ x.0 ++ 10 ∷ x.1.now) }
{
    if bytes.len() < 32 {
        return None;
    }
    let count = label_run(u8x32::from_slice(bytes)) as usize;
    if count == 0 {
        return None;
    }
    match &bytes[count..] {
        [b'\n', rest @ ..] => Some((LabelText::told(&bytes[..count]), rest)),
        _ => None,
    }
}

/// The label that may follow the last field of an event line, up to a newline, and the bytes behind that.
#[inline(always)]
#[tactic(auto, using(crate::proofs::Ahead::plain_end, crate::proofs::Ahead::labelled_end))]
pub(crate) fn end_ahead<'a>(
    header: &Header,
    bytes: &'a [u8],
) -> Option<(Option<LabelText<'a>>, &'a [u8])>
    ensures { IfSome result (λ x. (bytes.now ≡ label_part x.0 ++ 10 ∷ x.1.now)
        × (label_fits header.now.version x.0 ≡ true)) }
{
    match bytes {
        [b'\n', rest @ ..] => Some((None, rest)),
        [b' ', b'@', rest @ ..] => {
            if header.version < 3 {
                return None;
            }
            let Some((label, rest)) = label_ahead(rest) else {
                return None;
            };
            Some((Some(label), rest))
        }
        _ => None,
    }
}

/// The first of these values whose word stands behind a space at the front, with a space or a newline behind it, and
/// the bytes from there on.
#[inline(always)]
#[tactic(auto, using(crate::proofs::Ahead::spaced))]
pub(crate) fn word_ahead<'a, T: Worded>(values: &[T], bytes: &'a [u8]) -> Option<(T, &'a [u8])>
    ensures { IfSome result (λ x. bytes.now ≡ 32 ∷ (T.word_of x.0 ++ x.1.now)) }
{
    match bytes {
        [b' ', rest @ ..] => front_word(values, rest),
        _ => None,
    }
}

/// The first of these values whose word stands at the front, with a space or a newline behind it, and the bytes from
/// there on.
#[inline(always)]
#[tactic(auto, using(crate::proofs::Ahead::word_taken))]
fn front_word<'a, T: Worded>(values: &[T], bytes: &'a [u8]) -> Option<(T, &'a [u8])>
    ensures { IfSome result (λ x. bytes.now ≡ T.word_of x.0 ++ x.1.now) }
{
    for value in values {
        if let Some(rest) = bytes.strip_prefix(value.word()) {
            if matches!(rest, [b' ' | b'\n', ..]) {
                return Some((*value, rest));
            }
        }
    }
    None
}
