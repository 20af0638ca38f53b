//! The lines of machine steps.

ghost use Rattle.std.specs.Prelude.{◌≡◌, true, IfOk, IfErr};
ghost use Rattle.bbm_events.specs.Causes.{IsLineCause};
ghost use Rattle.bbm_events.specs.Machine.{machine_of, machine_fits};
ghost use Rattle.bbm_events.specs.Machine as machine;
ghost use Rattle.bbm_events.specs.Codec as codec;
ghost use Rattle.bbm_events.specs.Words.{with_word};
ghost use Rattle.bbm_events.specs.declared.machine.MachineWord.TheVariants as second;

use crate::fields::{Fields, found};
use crate::readers::{count_field, kind_field, pe_field, place_field, value_field, whole};
use crate::values::tag_of;
use crate::words::{MACHINE_WORDS, named};
use bbm_events::{
    Header, MachineLine, MachineWord, Malformed, law_machine_causes, law_machine_fits,
};
use bbm_regimes::Kind;

/// The VMID or ASID of an entry of the kind.
#[tactic(auto, using(crate::proofs::Passing::passing_fields))]
fn tag_field<'a>(kind: Kind, fields: Fields<'a>) -> Result<(u16, Fields<'a>), Malformed>
    ensures { result ≡ (machine.tag_field kind).read fields.entry }
{
    match fields.decimal_or(Malformed::MissingField, Malformed::BadNumber) {
        Ok((number, rest)) => found(tag_of(kind, number), Malformed::BadNumber, rest),
        Err(cause) => Err(cause),
    }
}

/// The number of an entry, which is spelled as a count is.
fn entry_field<'a>(fields: Fields<'a>) -> Result<(u32, Fields<'a>), Malformed>
    ensures { result ≡ machine.entry_field.read fields.entry }
{
    count_field(fields)
}

fn start_line(header: &Header, fields: Fields) -> Result<MachineLine, Malformed>
    ensures { result ≡ machine.machine_after header.now second.Start fields.entry }
{
    let (pe, fields) = pe_field(header, fields)?;
    let (kind, fields) = kind_field(fields)?;
    let (tag, fields) = tag_field(kind, fields)?;
    let (place, fields) = place_field(fields)?;
    let (value, fields) = value_field(fields)?;
    whole(
        MachineLine::Start {
            pe,
            kind,
            tag,
            place,
            value,
        },
        fields,
    )
}

fn extend_line(header: &Header, fields: Fields) -> Result<MachineLine, Malformed>
    ensures { result ≡ machine.machine_after header.now second.Extend fields.entry }
{
    let (entry, fields) = entry_field(fields)?;
    let (place, fields) = place_field(fields)?;
    let (value, fields) = value_field(fields)?;
    whole(
        MachineLine::Extend {
            entry,
            place,
            value,
        },
        fields,
    )
}

fn combine_line(header: &Header, fields: Fields) -> Result<MachineLine, Malformed>
    ensures { result ≡ machine.machine_after header.now second.Combine fields.entry }
{
    let (entry, fields) = entry_field(fields)?;
    whole(MachineLine::Combine { entry }, fields)
}

fn share_line(header: &Header, fields: Fields) -> Result<MachineLine, Malformed>
    ensures { result ≡ machine.machine_after header.now second.Share fields.entry }
{
    let (entry, fields) = entry_field(fields)?;
    let (pe, fields) = pe_field(header, fields)?;
    whole(MachineLine::Share { entry, pe }, fields)
}

fn drop_line(header: &Header, fields: Fields) -> Result<MachineLine, Malformed>
    ensures { result ≡ machine.machine_after header.now second.Drop fields.entry }
{
    let (entry, fields) = entry_field(fields)?;
    whole(MachineLine::Drop { entry }, fields)
}

/// The step of a line whose second word is this one.
fn machine_after(
    header: &Header,
    word: MachineWord,
    fields: Fields,
) -> Result<MachineLine, Malformed>
    ensures { result ≡ machine.machine_after header.now word fields.entry }
{
    match word {
        MachineWord::Start => start_line(header, fields),
        MachineWord::Extend => extend_line(header, fields),
        MachineWord::Combine => combine_line(header, fields),
        MachineWord::Share => share_line(header, fields),
        MachineWord::Drop => drop_line(header, fields),
    }
}

/// Whether the header's version has the word.
fn has_machine_word(header: &Header, word: MachineWord) -> bool
    ensures { result ≡ machine.has_machine_word header.now.version word }
{
    match word {
        MachineWord::Start => true,
        MachineWord::Extend => true,
        MachineWord::Combine => true,
        MachineWord::Share => header.version >= 2,
        MachineWord::Drop => true,
    }
}

/// The word of a step that the field is, where the header's version has it.
fn machine_word_of(header: &Header, field: &[u8]) -> Option<MachineWord>
    ensures { result
        ≡ codec.passing (machine.has_machine_word header.now.version)
        (with_word machine.machine_word machine.machine_words field.now) }
{
    let word = named(&MACHINE_WORDS, field)?;
    if has_machine_word(header, word) {
        Some(word)
    } else {
        None
    }
}

/// The word of the step.
fn machine_word_field<'a>(
    header: &Header,
    fields: Fields<'a>,
) -> Result<(MachineWord, Fields<'a>), Malformed>
    ensures { result ≡ (machine.machine_word_field header.now.version).read fields.entry }
{
    match fields.next() {
        Some((text, rest)) => found(machine_word_of(header, text), Malformed::UnknownWord, rest),
        None => Err(Malformed::MissingField),
    }
}

/// The step that a line spells, or the first cause for which it spells none.
#[tactic(auto, unfolding(bbm_events::specs::Machine::machine_of))]
fn machine_on(header: &Header, line: &[u8]) -> Result<MachineLine, Malformed>
    ensures { result ≡ machine_of header.now line.now }
{
    let fields = Fields::of(line).behind(b"m", Malformed::MissingField, Malformed::UnknownWord)?;
    let (word, fields) = machine_word_field(header, fields)?;
    machine_after(header, word, fields)
}

/// The step that a machine line says; the bytes are the line's without its newline. Where the line isn't
/// the one spelling of a step, the answer is the first cause: `UnknownWord` where the first field isn't `m`,
/// and then, from left to right, `MissingField` where a field is absent and else the cause of its kind
/// where it can't be read, which is `UnknownWord` for `share` under version 1, and at last `ExtraField`
/// where a further field follows. A machine line has no label. Source: project's own choice.
pub fn read_machine(header: &Header, line: &[u8]) -> Result<MachineLine, Malformed>
    ensures step { result ≡ machine_of header.now line.now }
    ensures fits { IfOk result (λ step. machine_fits header.now step ≡ true) }
    ensures causes { IfErr result IsLineCause }
{
    law_machine_fits();
    law_machine_causes();
    machine_on(header, line)
}
