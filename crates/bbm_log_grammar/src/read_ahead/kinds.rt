//! The event lines that are read from the bytes ahead, by kind.
//! Source: project's own choice.

ghost use Rattle.std.specs.Prelude.{codes, Bool, ◌≡◌, ◌+◌, ◌*◌, ◌<◌, ◌≤◌, ◌∷◌, ◌++◌, IfSome, false, get_or, length};
ghost use Rattle.std.specs.Prelude.{true};
ghost use Rattle.std.specs.Fmt.{decimal};
ghost use Rattle.bbm_barriers.specs.declared.Domain.TheVariants.{Inner};
ghost use Rattle.bbm_events.specs.Fits.{fits_heading, is_lock, is_pe};
ghost use Rattle.bbm_events.specs.Lines.{event_fields};
ghost use Rattle.bbm_events.specs.Spelling.{joined};
ghost use Rattle.bbm_events.specs.Words.{dsb_word, keyword_word, op_word};
ghost use Rattle.bbm_events.specs.declared.event.Event.{Event};
ghost use Rattle.bbm_events.specs.declared.event.Item.TheVariants as item;
ghost use Rattle.bbm_log_grammar.specs.Ahead as ahead;
ghost use Rattle.bbm_log_grammar.specs.Ahead.{Begins, StandsFirst};
ghost use Rattle.bbm_tlbi_scope.specs.Operations.{has_operand};

use crate::line::LabelText;
use crate::read_ahead::front::{decimal_ahead, end_ahead, hex_ahead, pe_ahead, word_ahead};
use crate::values::lock_of;
use crate::words::REGS;
use bbm_barriers::{Domain, Dsb, Types};
use bbm_events::{Event, Header, Keyword, has_op, law_written_is_a_line, law_written_is_read};
use bbm_regimes::{Page, Pe, Place};
use bbm_tlbi_scope::TlbiOp;

/// So many bytes have the longest event of these in them, and more: a write takes at most 43.
const LEAST: usize = 64;

/// The bytes `w `.
const WRITE: u16 = 0x2077;
/// The bytes `dsb `.
const DSB: u32 = 0x2062_7364;
/// The bytes `isb `.
const ISB: u32 = 0x2062_7369;
/// The bytes `dmb `.
const DMB: u32 = 0x2062_6d64;
/// The bytes `msr `.
const MSR: u32 = 0x2072_736d;
/// The bytes `tlbi`.
const TLBI: u32 = 0x6962_6c74;
/// The bytes `lock`.
const LOCK: u32 = 0x6b63_6f6c;
/// The bytes `init`.
const INIT: u32 = 0x7469_6e69;

/// A kind of event line that is read from the bytes ahead.
pub trait Front {
    /// Whether an event is of this kind.
    ghost has: { Event → Bool };

    /// An event of this kind whose fields stand at the front, and the bytes behind them. None says nothing.
    fn event_ahead<'a>(header: &Header, bytes: &'a [u8]) -> Option<(Event, &'a [u8])>
        ensures { IfSome result (λ x. Begins header.now has bytes.now x.0 x.1.now) };
}

/// The first two bytes as a number, of which the first byte is the lowest, and the two after them; 0 and 0 where there
/// are fewer than four.
#[inline(always)]
fn first_pairs(line: &[u8]) -> (u16, u16)
    ensures few { length line.now < 4 → result ≡ (0, 0) }
    ensures first { 4 ≤ length line.now → result.0 ≡ get_or line.now 0 0 + get_or line.now 1 0 * 256 }
    ensures second { 4 ≤ length line.now → result.1 ≡ get_or line.now 2 0 + get_or line.now 3 0 * 256 }
{
    match line {
        [a, b, c, d, ..] => (u16::from_le_bytes([*a, *b]), u16::from_le_bytes([*c, *d])),
        _ => (0, 0),
    }
}

/// The bytes behind these four at the front, the lowest of which is the first.
#[inline(always)]
fn behind_four<'a>(word: u32, bytes: &'a [u8]) -> Option<&'a [u8]>
    ensures { IfSome result (λ rest. bytes.now ≡ ahead.four_bytes word ++ rest.now) }
{
    let (first, second) = first_pairs(bytes);
    match bytes {
        [_, _, _, _, rest @ ..] if first as u32 + second as u32 * 65536 == word => Some(rest),
        _ => None,
    }
}

/// The bytes behind these four and a space at the front.
#[inline(always)]
#[tactic(auto, using(crate::proofs::Ahead::five_begun))]
fn behind_five<'a>(word: u32, bytes: &'a [u8]) -> Option<&'a [u8]>
    ensures { IfSome result (λ rest. bytes.now ≡ ahead.four_bytes word ++ 32 ∷ rest.now) }
{
    match behind_four(word, bytes) {
        Some([b' ', rest @ ..]) => Some(rest),
        _ => None,
    }
}

/// Writes.
#[derive(Drop)]
pub struct Writes;

impl Front for Writes {
    ghost has = { ahead.is_write };

    #[inline(always)]
    #[tactic(auto, using(crate::proofs::Ahead::write_line))]
    fn event_ahead<'a>(header: &Header, bytes: &'a [u8]) -> Option<(Event, &'a [u8])> {
        let (first, _) = first_pairs(bytes);
        match bytes {
            [_, _, rest @ ..] if first == WRITE => {
                let Some((pe, rest)) = pe_ahead(header, rest) else {
                    return None;
                };
                let (address, rest) = hex_ahead(rest)?;
                let (value, rest) = hex_ahead(rest)?;
                let place = Place::new(address)?;
                Some((Event::Write { pe, place, value }, rest))
            }
            _ => None,
        }
    }
}

/// DSBs with `ish` or `ishst`.
#[derive(Drop)]
pub struct Dsbs;

/// The barrier of the inner shareable domain for these accesses.
#[inline]
fn inner(types: Types) -> Dsb
    ensures { result ≡ record { domain = Inner; types = types } }
{
    Dsb {
        domain: Domain::Inner,
        types,
    }
}

/// The option of a barrier behind a space at the front, and the bytes behind it.
#[inline(always)]
#[tactic(auto, using(crate::proofs::Ahead::option_ish, crate::proofs::Ahead::option_ishst))]
fn option_ahead<'a>(bytes: &'a [u8]) -> Option<(Dsb, &'a [u8])>
    ensures { IfSome result (λ x. bytes.now ≡ 32 ∷ dsb_word x.0 ++ x.1.now) }
{
    match bytes {
        [b' ', b'i', b's', b'h', b's', b't', rest @ ..] => Some((inner(Types::Stores), rest)),
        [b' ', b'i', b's', b'h', rest @ ..] => Some((inner(Types::All), rest)),
        _ => None,
    }
}

impl Front for Dsbs {
    ghost has = { ahead.is_dsb };

    #[inline(always)]
    #[tactic(auto, using(crate::proofs::Ahead::dsb_line))]
    fn event_ahead<'a>(header: &Header, bytes: &'a [u8]) -> Option<(Event, &'a [u8])> {
        let rest = behind_four(DSB, bytes)?;
        let Some((pe, rest)) = pe_ahead(header, rest) else {
            return None;
        };
        let Some((dsb, rest)) = option_ahead(rest) else {
            return None;
        };
        Some((Event::Dsb { pe, dsb }, rest))
    }
}

/// TLBIs of one of five operations with an operand, or of two without.
#[derive(Drop)]
pub struct Tlbis;

/// An operation with an operand behind a space at the front, and the bytes behind it.
#[inline(always)]
#[tactic(auto, using(crate::proofs::Ahead::operations))]
fn op_ahead<'a>(bytes: &'a [u8]) -> Option<(TlbiOp, &'a [u8])>
    ensures { IfSome result (λ x. (bytes.now ≡ 32 ∷ op_word x.0 ++ x.1.now) × (has_operand x.0 ≡ true)) }
{
    match bytes {
        [b' ', b'v', b'a', b'e', b'2', b'i', b's', rest @ ..] => Some((TlbiOp::Vae2is, rest)),
        [b' ', b'v', b'a', b'l', b'e', b'2', b'i', b's', rest @ ..] => Some((
            TlbiOp::Vale2is,
            rest,
        )),
        [b' ', b'v', b'a', b'e', b'1', b'i', b's', rest @ ..] => Some((TlbiOp::Vae1is, rest)),
        [b' ', b'v', b'a', b'l', b'e', b'1', b'i', b's', rest @ ..] => Some((
            TlbiOp::Vale1is,
            rest,
        )),
        [
            b' ',
            b'i',
            b'p',
            b'a',
            b's',
            b'2',
            b'e',
            b'1',
            b'i',
            b's',
            rest @ ..,
        ] => Some((TlbiOp::Ipas2e1is, rest)),
        _ => None,
    }
}

/// One of two operations without an operand behind a space at the front, and the bytes behind it.
#[inline(always)]
#[tactic(auto, using(crate::proofs::Ahead::operations_alone))]
fn op_alone_ahead<'a>(bytes: &'a [u8]) -> Option<(TlbiOp, &'a [u8])>
    ensures { IfSome result (λ x. (bytes.now ≡ 32 ∷ op_word x.0 ++ x.1.now) × (has_operand x.0 ≡ false)) }
{
    match bytes {
        [
            b' ',
            b'v',
            b'm',
            b'a',
            b'l',
            b'l',
            b'e',
            b'1',
            b'i',
            b's',
            rest @ ..,
        ] => Some((TlbiOp::Vmalle1is, rest)),
        [b' ', b'a', b'l', b'l', b'e', b'2', b'i', b's', rest @ ..] => Some((
            TlbiOp::Alle2is,
            rest,
        )),
        _ => None,
    }
}

impl Front for Tlbis {
    ghost has = { ahead.is_tlbi };

    #[inline(always)]
    #[tactic(auto, using(crate::proofs::Ahead::tlbi_line, crate::proofs::Ahead::tlbi_alone_line))]
    fn event_ahead<'a>(header: &Header, bytes: &'a [u8]) -> Option<(Event, &'a [u8])> {
        let rest = behind_five(TLBI, bytes)?;
        let Some((pe, rest)) = pe_ahead(header, rest) else {
            return None;
        };
        if let Some((op, rest)) = op_ahead(rest) {
            let (xt, rest) = hex_ahead(rest)?;
            return if has_op(header, op) {
                Some((Event::Tlbi { pe, op, xt }, rest))
            } else {
                None
            };
        }
        let (op, rest) = op_alone_ahead(rest)?;
        if has_op(header, op) {
            Some((Event::Tlbi { pe, op, xt: 0 }, rest))
        } else {
            None
        }
    }
}

/// ISBs.
#[derive(Drop)]
pub struct Isbs;

impl Front for Isbs {
    ghost has = { ahead.is_isb };

    #[inline(always)]
    #[tactic(auto, using(crate::proofs::Ahead::isb_line))]
    fn event_ahead<'a>(header: &Header, bytes: &'a [u8]) -> Option<(Event, &'a [u8])> {
        let rest = behind_four(ISB, bytes)?;
        let Some((pe, rest)) = pe_ahead(header, rest) else {
            return None;
        };
        Some((Event::Isb { pe }, rest))
    }
}

/// Register writes, locks, pages that are initialised, DMBs, and DSBs and TLBIs of a few options and operations more.
#[derive(Drop)]
pub struct ByWord;

/// The operations that are less usual.
const OPS: [TlbiOp; 3] = [TlbiOp::Aside1is, TlbiOp::Vaale1is, TlbiOp::Vmalls12e1is];

/// The options that a DMB has mostly, and the less usual ones of a DSB.
const OPTIONS: [Dsb; 5] = [
    Dsb {
        domain: Domain::Inner,
        types: Types::All,
    },
    Dsb {
        domain: Domain::Inner,
        types: Types::Stores,
    },
    Dsb {
        domain: Domain::Full,
        types: Types::Loads,
    },
    Dsb {
        domain: Domain::Non,
        types: Types::All,
    },
    Dsb {
        domain: Domain::Full,
        types: Types::All,
    },
];

/// The word of one of these events at the front, and the bytes behind it and a space.
#[inline(always)]
#[tactic(auto, using(crate::proofs::Ahead::word_unlock))]
fn keyword_ahead<'a>(bytes: &'a [u8]) -> Option<(Keyword, &'a [u8])>
    ensures { IfSome result (λ x. bytes.now ≡ keyword_word x.0 ++ 32 ∷ x.1.now) }
{
    if let Some(rest) = behind_four(MSR, bytes) {
        return Some((Keyword::Msr, rest));
    }
    if let Some(rest) = behind_five(LOCK, bytes) {
        return Some((Keyword::Lock, rest));
    }
    if let Some(rest) = behind_four(DMB, bytes) {
        return Some((Keyword::Dmb, rest));
    }
    if let Some(rest) = behind_four(DSB, bytes) {
        return Some((Keyword::Dsb, rest));
    }
    if let Some(rest) = behind_five(TLBI, bytes) {
        return Some((Keyword::Tlbi, rest));
    }
    if let Some(rest) = behind_five(INIT, bytes) {
        return Some((Keyword::Init, rest));
    }
    match bytes {
        [b'u', b'n', b'l', b'o', b'c', b'k', b' ', rest @ ..] => Some((Keyword::Unlock, rest)),
        _ => None,
    }
}

/// The TLBI of this PE whose operation stands at the front, with its operand, and the bytes behind it.
#[inline(always)]
#[tactic(auto, using(crate::proofs::Ahead::tlbi_line, crate::proofs::Ahead::tlbi_alone_line))]
fn tlbi_of<'a>(header: &Header, pe: Pe, bytes: &'a [u8]) -> Option<(Event, &'a [u8])>
    requires { is_pe header.now pe ≡ true }
    ensures { IfSome result (λ x.
        Begins header.now ahead.is_any (codes "tlbi " ++ decimal pe ++ bytes.now) x.0 x.1.now) }
{
    let (op, rest) = word_ahead(&OPS, bytes)?;
    if !has_op(header, op) {
        return None;
    }
    if !op.has_operand() {
        return Some((Event::Tlbi { pe, op, xt: 0 }, rest));
    }
    let (xt, rest) = hex_ahead(rest)?;
    Some((Event::Tlbi { pe, op, xt }, rest))
}

/// The number of a lock behind a space at the front, of three digits at most, and the bytes behind it.
#[inline(always)]
#[tactic(auto, using(crate::proofs::Ahead::spaced))]
fn lock_ahead<'a>(bytes: &'a [u8]) -> Option<(u16, &'a [u8])>
    ensures { IfSome result (λ x. (bytes.now ≡ 32 ∷ decimal x.0 ++ x.1.now) × (is_lock x.0 ≡ true)) }
{
    match bytes {
        [b' ', rest @ ..] => {
            let (number, rest) = decimal_ahead(rest)?;
            match lock_of(number) {
                Some(lock) => Some((lock, rest)),
                None => None,
            }
        }
        _ => None,
    }
}

/// The event of this word whose further fields stand at the front, and the bytes behind it.
#[inline(always)]
#[tactic(auto, using(crate::proofs::Ahead::lines_by_word))]
fn event_of<'a>(header: &Header, keyword: Keyword, bytes: &'a [u8]) -> Option<(Event, &'a [u8])>
    ensures { IfSome result (λ x. Begins header.now ahead.is_any (keyword_word keyword ++ 32 ∷ bytes.now) x.0 x.1.now) }
{
    let Some((pe, rest)) = pe_ahead(header, bytes) else {
        return None;
    };
    match keyword {
        Keyword::Msr => {
            let (reg, rest) = word_ahead(&REGS, rest)?;
            let (value, rest) = hex_ahead(rest)?;
            Some((Event::Msr { pe, reg, value }, rest))
        }
        Keyword::Lock => {
            let (lock, rest) = lock_ahead(rest)?;
            Some((Event::Lock { pe, lock }, rest))
        }
        Keyword::Unlock => {
            let (lock, rest) = lock_ahead(rest)?;
            Some((Event::Unlock { pe, lock }, rest))
        }
        Keyword::Dmb => {
            let (dsb, rest) = word_ahead(&OPTIONS, rest)?;
            Some((Event::Dmb { pe, dsb }, rest))
        }
        Keyword::Dsb => {
            let (dsb, rest) = word_ahead(&OPTIONS, rest)?;
            Some((Event::Dsb { pe, dsb }, rest))
        }
        Keyword::Tlbi => tlbi_of(header, pe, rest),
        Keyword::Init => {
            let (address, rest) = hex_ahead(rest)?;
            let page = Page::new(address)?;
            Some((Event::Init { pe, page }, rest))
        }
        _ => None,
    }
}

impl Front for ByWord {
    ghost has = { ahead.is_any };

    // It is no part of the reader's loop, so that the usual lines keep their values in registers there.
    #[inline(never)]
    fn event_ahead<'a>(header: &Header, bytes: &'a [u8]) -> Option<(Event, &'a [u8])> {
        let (keyword, rest) = keyword_ahead(bytes)?;
        event_of(header, keyword, rest)
    }
}

/// The line of this event with its label, where the rest ends it, and the number of bytes before its newline.
#[inline(always)]
fn whole_line<'a>(
    header: &Header,
    bytes: &'a [u8],
    event: Event,
    rest: &'a [u8],
) -> Option<(Event, Option<LabelText<'a>>, usize)>
    requires front { bytes.now ≡ joined (event_fields event) ++ rest.now }
    requires fits { fits_heading header.now event ≡ true }
    ensures line { IfSome result (λ x. StandsFirst header.now (item.Event x.0 x.1) x.2 bytes.now) }
    ensures same { IfSome result (λ x. x.0 ≡ event) }
{
    let _ = &header.version;
    law_written_is_read();
    law_written_is_a_line();
    let Some((label, rest)) = end_ahead(header, rest) else {
        return None;
    };
    Some((event, label, bytes.len() - rest.len() - 1))
}

/// The event of a line of this kind that lies whole at the front of these bytes, with its label, and the number of
/// bytes before its newline. None says nothing: it comes for every other line, and where fewer than 64 bytes are given,
/// 16 follow the mark of a number, or 32 that of a label. A reader that asks for the kind that most lines are first has
/// a way of its own for it, on which the event is known. Each reader `R` has code of its own, so that it can be made
/// part of the reader's loop; the answer doesn't depend on it.
#[inline(always)]
pub fn line_ahead<'a, F: Front, R>(
    header: &Header,
    bytes: &'a [u8],
) -> Option<(Event, Option<LabelText<'a>>, usize)>
    ensures line { IfSome result (λ x. StandsFirst header.now (item.Event x.0 x.1) x.2 bytes.now) }
    ensures kind { IfSome result (λ x. F.has x.0 ≡ true) }
{
    if bytes.len() < LEAST {
        return None;
    }
    let Some((event, rest)) = F::event_ahead(header, bytes) else {
        return None;
    };
    whole_line(header, bytes, event, rest)
}
