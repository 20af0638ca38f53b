//! The fields of event lines, each with the cause where it can't be read.

ghost use Rattle.std.specs.Prelude.{◌≡◌, ◌∷◌};
ghost use Rattle.bbm_events.specs.Heading.{has_op};
ghost use Rattle.bbm_events.specs.Codec as codec;
ghost use Rattle.bbm_events.specs.Lines as lines;
ghost use Rattle.bbm_events.specs.Words.{op_word, ops, with_word};
ghost use Rattle.bbm_log_grammar.specs.InLine.{item_in, read_in};

use crate::fields::{Fields, found};
use crate::line::LineItem;
use crate::values::{count_of, is_marked, label_of, lock_of, pe_of, root_lock_of, root_page_of};
use crate::words::{DSBS, KINDS, OPS, REGS, named};
use bbm_barriers::Dsb;
use bbm_events::{Event, Header, Malformed, has_op};
use bbm_regimes::{Kind, Page, Pe, Place, Reg};
use bbm_tlbi_scope::TlbiOp;

/// A PE.
#[tactic(auto, using(crate::proofs::Passing::passing_fields))]
pub(crate) fn pe_field<'a>(
    header: &Header,
    fields: Fields<'a>,
) -> Result<(Pe, Fields<'a>), Malformed>
    ensures { result ≡ (lines.pe_field header.now).read fields.entry }
{
    match fields.decimal_or(Malformed::MissingField, Malformed::BadPe) {
        Ok((number, rest)) => found(pe_of(header, number), Malformed::BadPe, rest),
        Err(cause) => Err(cause),
    }
}

/// A page.
#[tactic(auto, using(crate::proofs::Passing::passing_fields))]
pub(crate) fn page_field<'a>(fields: Fields<'a>) -> Result<(Page, Fields<'a>), Malformed>
    ensures { result ≡ lines.page_field.read fields.entry }
{
    match fields.hex_or(Malformed::MissingField, Malformed::BadAddress) {
        Ok((number, rest)) => found(Page::new(number), Malformed::BadAddress, rest),
        Err(cause) => Err(cause),
    }
}

/// A place.
#[tactic(auto, using(crate::proofs::Passing::passing_fields))]
pub(crate) fn place_field<'a>(fields: Fields<'a>) -> Result<(Place, Fields<'a>), Malformed>
    ensures { result ≡ lines.place_field.read fields.entry }
{
    match fields.hex_or(Malformed::MissingField, Malformed::BadAddress) {
        Ok((number, rest)) => found(Place::new(number), Malformed::BadAddress, rest),
        Err(cause) => Err(cause),
    }
}

/// The first page of a root of the kind.
#[tactic(auto, using(crate::proofs::Passing::passing_fields))]
pub(crate) fn root_page_field<'a>(
    header: &Header,
    kind: Kind,
    fields: Fields<'a>,
) -> Result<(Page, Fields<'a>), Malformed>
    ensures { result ≡ (lines.root_page_field header.now kind).read fields.entry }
{
    match fields.hex_or(Malformed::MissingField, Malformed::BadAddress) {
        Ok((number, rest)) => found(
            root_page_of(header, kind, number),
            Malformed::BadAddress,
            rest,
        ),
        Err(cause) => Err(cause),
    }
}

/// A value.
pub(crate) fn value_field<'a>(fields: Fields<'a>) -> Result<(u64, Fields<'a>), Malformed>
    ensures { result ≡ lines.value_field.read fields.entry }
{
    fields.hex_or(Malformed::MissingField, Malformed::BadNumber)
}

/// A lock.
#[tactic(auto, using(crate::proofs::Passing::passing_fields))]
pub(crate) fn lock_field<'a>(fields: Fields<'a>) -> Result<(u16, Fields<'a>), Malformed>
    ensures { result ≡ lines.lock_field.read fields.entry }
{
    match fields.decimal_or(Malformed::MissingField, Malformed::BadNumber) {
        Ok((number, rest)) => found(lock_of(number), Malformed::BadNumber, rest),
        Err(cause) => Err(cause),
    }
}

/// The lock of a root.
pub(crate) fn root_lock_field<'a>(
    fields: Fields<'a>,
) -> Result<(Option<u16>, Fields<'a>), Malformed>
    ensures { result ≡ lines.root_lock_field.read fields.entry }
{
    match fields.next() {
        Some((text, rest)) => found(root_lock_of(text), Malformed::BadNumber, rest),
        None => Err(Malformed::MissingField),
    }
}

/// A number of event lines.
#[tactic(auto, using(crate::proofs::Passing::passing_fields))]
pub(crate) fn count_field<'a>(fields: Fields<'a>) -> Result<(u32, Fields<'a>), Malformed>
    ensures { result ≡ lines.count_field.read fields.entry }
{
    match fields.decimal_or(Malformed::MissingField, Malformed::BadNumber) {
        Ok((number, rest)) => found(count_of(number), Malformed::BadNumber, rest),
        Err(cause) => Err(cause),
    }
}

/// A kind.
pub(crate) fn kind_field<'a>(fields: Fields<'a>) -> Result<(Kind, Fields<'a>), Malformed>
    ensures { result ≡ lines.kind_field.read fields.entry }
{
    fields.word_or(&KINDS, Malformed::MissingField, Malformed::UnknownWord)
}

/// The option of a barrier.
pub(crate) fn dsb_field<'a>(fields: Fields<'a>) -> Result<(Dsb, Fields<'a>), Malformed>
    ensures { result ≡ lines.dsb_field.read fields.entry }
{
    fields.word_or(&DSBS, Malformed::MissingField, Malformed::UnknownWord)
}

/// The operation of a TLBI that a log with this header has.
fn op_in(header: &Header, text: &[u8]) -> Option<TlbiOp>
    ensures { result ≡ codec.passing (has_op header.now.version) (with_word op_word ops text.now) }
{
    let op = named(&OPS, text)?;
    if has_op(header, op) { Some(op) } else { None }
}

/// The operation of a TLBI.
pub(crate) fn op_field<'a>(
    header: &Header,
    fields: Fields<'a>,
) -> Result<(TlbiOp, Fields<'a>), Malformed>
    ensures { result ≡ (lines.op_field header.now.version).read fields.entry }
{
    match fields.next() {
        Some((text, rest)) => found(op_in(header, text), Malformed::UnknownWord, rest),
        None => Err(Malformed::MissingField),
    }
}

/// A register.
pub(crate) fn reg_field<'a>(fields: Fields<'a>) -> Result<(Reg, Fields<'a>), Malformed>
    ensures { result ≡ lines.reg_field.read fields.entry }
{
    fields.word_or(&REGS, Malformed::MissingField, Malformed::UnknownWord)
}

/// The operand of a TLBI, where the operation has one.
pub(crate) fn operand_field<'a>(
    op: TlbiOp,
    fields: Fields<'a>,
) -> Result<(u64, Fields<'a>), Malformed>
    ensures { result ≡ (lines.operand_field op).read fields.entry }
{
    if op.has_operand() {
        value_field(fields)
    } else {
        Ok((0, fields))
    }
}

/// The event with the label that its line's last field is, where no field is left.
fn labelled<'a>(
    header: &Header,
    event: Event,
    text: &'a [u8],
    fields: Fields<'a>,
) -> Result<LineItem<'a>, Malformed>
    ensures { read_in result ≡ lines.event_item header.now event (text.now ∷ fields.entry) }
{
    if header.version < 3 || !is_marked(text) {
        return Err(Malformed::ExtraField);
    }
    let label = label_of(text).ok_or(Malformed::BadLabel)?;
    whole_item(LineItem::Event(event, Some(label)), fields)
}

/// The event, and the label where a field is left.
pub(crate) fn event_item<'a>(
    header: &Header,
    event: Event,
    fields: Fields<'a>,
) -> Result<LineItem<'a>, Malformed>
    ensures { read_in result ≡ lines.event_item header.now event fields.entry }
{
    match fields.next() {
        None => Ok(LineItem::Event(event, None)),
        Some((text, rest)) => labelled(header, event, text, rest),
    }
}

/// The item, where no field is left.
pub(crate) fn whole_item<'a>(item: LineItem<'a>, fields: Fields) -> Result<LineItem<'a>, Malformed>
    ensures { read_in result ≡ codec.whole (item_in item.entry) fields.entry }
{
    if fields.next().is_some() {
        return Err(Malformed::ExtraField);
    }
    Ok(item)
}

/// The value, where no field is left.
pub(crate) fn whole<T: Copy>(value: T, fields: Fields) -> Result<T, Malformed>
    ensures { result ≡ codec.whole value fields.entry }
{
    match fields.next() {
        None => Ok(value),
        Some(_) => Err(Malformed::ExtraField),
    }
}
