//! The lines after the header.
//! Source: project's own choice, where no other is named.

ghost use Rattle.std.specs.Prelude.{◌≡◌, true, IfOk, IfErr};
ghost use Rattle.bbm_events.specs.Causes.{IsLineCause};
ghost use Rattle.bbm_events.specs.Fits.{item_fits};
ghost use Rattle.bbm_log_grammar.specs.InLine.{read_in};
ghost use Rattle.bbm_events.specs.Lines.{item_of};
ghost use Rattle.bbm_events.specs.Lines as lines;
ghost use Rattle.bbm_events.specs.declared.keyword.Keyword.TheVariants as first;

use crate::fields::Fields;
use crate::line::LineItem;
use crate::readers::*;
use crate::words::KEYWORDS;
use bbm_events::{Event, Header, Item, Keyword, Malformed, law_item_causes, law_item_fits};

fn init_line<'a>(header: &Header, fields: Fields<'a>) -> Result<LineItem<'a>, Malformed>
    ensures { read_in result ≡ lines.line_after header.now first.Init fields.entry }
{
    let (pe, fields) = pe_field(header, fields)?;
    let (page, fields) = page_field(fields)?;
    event_item(header, Event::Init { pe, page }, fields)
}

fn null_line<'a>(header: &Header, fields: Fields<'a>) -> Result<LineItem<'a>, Malformed>
    ensures { read_in result ≡ lines.line_after header.now first.Null fields.entry }
{
    let (pe, fields) = pe_field(header, fields)?;
    let (page, fields) = page_field(fields)?;
    event_item(header, Event::Null { pe, page }, fields)
}

fn root_line<'a>(header: &Header, fields: Fields<'a>) -> Result<LineItem<'a>, Malformed>
    ensures { read_in result ≡ lines.line_after header.now first.Root fields.entry }
{
    let (pe, fields) = pe_field(header, fields)?;
    let (kind, fields) = kind_field(fields)?;
    let (lock, fields) = root_lock_field(fields)?;
    let (page, fields) = root_page_field(header, kind, fields)?;
    event_item(
        header,
        Event::Root {
            pe,
            kind,
            lock,
            page,
        },
        fields,
    )
}

fn unroot_line<'a>(header: &Header, fields: Fields<'a>) -> Result<LineItem<'a>, Malformed>
    ensures { read_in result ≡ lines.line_after header.now first.Unroot fields.entry }
{
    let (pe, fields) = pe_field(header, fields)?;
    let (page, fields) = page_field(fields)?;
    event_item(header, Event::Unroot { pe, page }, fields)
}

fn write_line<'a>(header: &Header, fields: Fields<'a>) -> Result<LineItem<'a>, Malformed>
    ensures { read_in result ≡ lines.line_after header.now first.Write fields.entry }
{
    let (pe, fields) = pe_field(header, fields)?;
    let (place, fields) = place_field(fields)?;
    let (value, fields) = value_field(fields)?;
    event_item(header, Event::Write { pe, place, value }, fields)
}

fn dsb_line<'a>(header: &Header, fields: Fields<'a>) -> Result<LineItem<'a>, Malformed>
    ensures { read_in result ≡ lines.line_after header.now first.Dsb fields.entry }
{
    let (pe, fields) = pe_field(header, fields)?;
    let (dsb, fields) = dsb_field(fields)?;
    event_item(header, Event::Dsb { pe, dsb }, fields)
}

fn dmb_line<'a>(header: &Header, fields: Fields<'a>) -> Result<LineItem<'a>, Malformed>
    ensures { read_in result ≡ lines.line_after header.now first.Dmb fields.entry }
{
    let (pe, fields) = pe_field(header, fields)?;
    let (dsb, fields) = dsb_field(fields)?;
    event_item(header, Event::Dmb { pe, dsb }, fields)
}

fn isb_line<'a>(header: &Header, fields: Fields<'a>) -> Result<LineItem<'a>, Malformed>
    ensures { read_in result ≡ lines.line_after header.now first.Isb fields.entry }
{
    let (pe, fields) = pe_field(header, fields)?;
    event_item(header, Event::Isb { pe }, fields)
}

fn tlbi_line<'a>(header: &Header, fields: Fields<'a>) -> Result<LineItem<'a>, Malformed>
    ensures { read_in result ≡ lines.line_after header.now first.Tlbi fields.entry }
{
    let (pe, fields) = pe_field(header, fields)?;
    let (op, fields) = op_field(header, fields)?;
    let (xt, fields) = operand_field(op, fields)?;
    event_item(header, Event::Tlbi { pe, op, xt }, fields)
}

fn msr_line<'a>(header: &Header, fields: Fields<'a>) -> Result<LineItem<'a>, Malformed>
    ensures { read_in result ≡ lines.line_after header.now first.Msr fields.entry }
{
    let (pe, fields) = pe_field(header, fields)?;
    let (reg, fields) = reg_field(fields)?;
    let (value, fields) = value_field(fields)?;
    event_item(header, Event::Msr { pe, reg, value }, fields)
}

fn lock_line<'a>(header: &Header, fields: Fields<'a>) -> Result<LineItem<'a>, Malformed>
    ensures { read_in result ≡ lines.line_after header.now first.Lock fields.entry }
{
    let (pe, fields) = pe_field(header, fields)?;
    let (lock, fields) = lock_field(fields)?;
    event_item(header, Event::Lock { pe, lock }, fields)
}

fn unlock_line<'a>(header: &Header, fields: Fields<'a>) -> Result<LineItem<'a>, Malformed>
    ensures { read_in result ≡ lines.line_after header.now first.Unlock fields.entry }
{
    let (pe, fields) = pe_field(header, fields)?;
    let (lock, fields) = lock_field(fields)?;
    event_item(header, Event::Unlock { pe, lock }, fields)
}

fn end_line<'a>(header: &Header, fields: Fields<'a>) -> Result<LineItem<'a>, Malformed>
    ensures { read_in result ≡ lines.line_after header.now first.End fields.entry }
{
    let (count, fields) = count_field(fields)?;
    whole_item(LineItem::End(count), fields)
}

/// The item of a line that begins with this word.
fn line_after<'a>(
    header: &Header,
    keyword: Keyword,
    fields: Fields<'a>,
) -> Result<LineItem<'a>, Malformed>
    ensures { read_in result ≡ lines.line_after header.now keyword fields.entry }
{
    match keyword {
        Keyword::Init => init_line(header, fields),
        Keyword::Null => null_line(header, fields),
        Keyword::Root => root_line(header, fields),
        Keyword::Unroot => unroot_line(header, fields),
        Keyword::Write => write_line(header, fields),
        Keyword::Dsb => dsb_line(header, fields),
        Keyword::Dmb => dmb_line(header, fields),
        Keyword::Isb => isb_line(header, fields),
        Keyword::Tlbi => tlbi_line(header, fields),
        Keyword::Msr => msr_line(header, fields),
        Keyword::Lock => lock_line(header, fields),
        Keyword::Unlock => unlock_line(header, fields),
        Keyword::End => end_line(header, fields),
    }
}

/// The item that a line spells, or the first cause for which it spells none.
#[tactic(auto, unfolding(bbm_events::specs::Lines::item_of))]
fn item_on<'a>(header: &Header, line: &'a [u8]) -> Result<LineItem<'a>, Malformed>
    ensures { read_in result ≡ item_of header.now line.now }
{
    let (keyword, fields) = Fields::of(line).word_or(
        &KEYWORDS,
        Malformed::MissingField,
        Malformed::UnknownWord,
    )?;
    line_after(header, keyword, fields)
}

/// What `read_event` answers, with the bytes of a label where they stand in the line.
pub fn read_line<'a>(header: &Header, line: &'a [u8]) -> Result<LineItem<'a>, Malformed>
    ensures item { read_in result ≡ item_of header.now line.now }
    ensures fits { IfOk (read_in result) (λ item. item_fits header.now item ≡ true) }
    ensures causes { IfErr result IsLineCause }
{
    law_item_fits();
    law_item_causes();
    item_on(header, line)
}

/// The event or the end that a line after the header says; the bytes are the line's without its
/// newline. Where the line isn't the one spelling of an item, the answer is the first cause:
/// `UnknownWord` where the first field is no word of the table of lines, and then, for each field from
/// left to right, `MissingField` where it is absent and else the cause of its kind where it can't be
/// read. Under version 3 and later a label can follow the last field of an event line: `BadLabel` where the
/// field there begins with `@` and isn't a label. At last `ExtraField` where a further field follows.
pub fn read_event(header: &Header, line: &[u8]) -> Result<Item, Malformed>
    ensures item { result ≡ item_of header.now line.now }
    ensures fits { IfOk result (λ item. item_fits header.now item ≡ true) }
    ensures causes { IfErr result IsLineCause }
{
    match read_line(header, line) {
        Ok(said) => Ok(said.kept()),
        Err(cause) => Err(cause),
    }
}
