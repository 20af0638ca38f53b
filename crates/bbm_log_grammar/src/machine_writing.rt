//! The one line of a machine step.

ghost use Rattle.std.specs.Prelude.{◌≡◌, ◌≤◌, ◌∷◌, [], true, Ok, length, codes, decimal};
ghost use Rattle.arrayvec.specs.ArrayVec.{array_vec_len};
ghost use Rattle.bbm_events.specs.declared.machine.MachineLine.TheVariants as step;
ghost use Rattle.bbm_events.specs.Spelling.{joined};
ghost use Rattle.bbm_events.specs.Heading.{Heading, heading_ok};
ghost use Rattle.bbm_events.specs.Machine.{machine_fields, machine_fits, machine_line, machine_of};

use crate::spell::add;
use crate::words::Worded;
use crate::write::{add_decimal_field, add_hex_field, add_word_field};
use arrayvec::ArrayVec;
use bbm_events::{MachineLine, law_machine_written_is_read};
use bbm_regimes::{Kind, Pe, Place};

/// The mark of a line, its second word and a number, which is a PE or an entry.
pub(crate) fn begin(out: &mut ArrayVec<u8, 200>, mark: &[u8], word: &[u8], number: u64)
    requires empty { out.old.items ≡ [] }
    requires mark { length mark.now ≡ 1 }
    requires short { length word.now ≤ 12 }
    ensures written { out.new.items ≡ joined (mark.now ∷ word.now ∷ decimal number ∷ []) }
    ensures longer { array_vec_len out.new ≤ 40 }
{
    add(out, mark);
    add_word_field(out, word);
    add_decimal_field(out, number);
}

/// `m start PE KIND TAG PLACE VALUE`
#[tactic(auto, using(crate::proofs::Short::kind_word_short))]
fn start_line(out: &mut ArrayVec<u8, 200>, pe: Pe, kind: Kind, tag: u16, place: Place, value: u64)
    requires empty { out.old.items ≡ [] }
    ensures { out.new.items ≡ joined (codes "m" ∷ machine_fields (step.Start pe kind tag place value)) }
{
    begin(out, b"m", b"start", pe.get() as u64);
    add_word_field(out, kind.word());
    add_decimal_field(out, tag as u64);
    add_hex_field(out, place.get());
    add_hex_field(out, value);
}

/// `m extend ENTRY PLACE VALUE`
fn extend_line(out: &mut ArrayVec<u8, 200>, entry: u32, place: Place, value: u64)
    requires empty { out.old.items ≡ [] }
    ensures { out.new.items ≡ joined (codes "m" ∷ machine_fields (step.Extend entry place value)) }
{
    begin(out, b"m", b"extend", entry as u64);
    add_hex_field(out, place.get());
    add_hex_field(out, value);
}

/// `m share ENTRY PE`
fn share_line(out: &mut ArrayVec<u8, 200>, entry: u32, pe: Pe)
    requires empty { out.old.items ≡ [] }
    ensures { out.new.items ≡ joined (codes "m" ∷ machine_fields (step.Share entry pe)) }
{
    begin(out, b"m", b"share", entry as u64);
    add_decimal_field(out, pe.get() as u64);
}

/// Writes the line of a machine step, without its newline, into an empty buffer. Reading the line gives the
/// step again under each header that the step fits: one that has its word and its PE, and a tag of 0 where
/// the kind is `El2`. Source: project's own choice.
#[tactic(auto, unfolding(bbm_events::specs::Machine::machine_line))]
pub fn write_machine(line: MachineLine, out: &mut ArrayVec<u8, 200>)
    requires empty { out.old.items ≡ [] }
    ensures line { out.new.items ≡ machine_line line }
    ensures read_again { (heading : Heading) → heading_ok heading ≡ true → machine_fits heading line ≡ true
        → machine_of heading out.new.items ≡ Ok line }
{
    law_machine_written_is_read();
    match line {
        MachineLine::Start {
            pe,
            kind,
            tag,
            place,
            value,
        } => start_line(out, pe, kind, tag, place, value),
        MachineLine::Extend {
            entry,
            place,
            value,
        } => extend_line(out, entry, place, value),
        MachineLine::Combine { entry } => begin(out, b"m", b"combine", entry as u64),
        MachineLine::Share { entry, pe } => share_line(out, entry, pe),
        MachineLine::Drop { entry } => begin(out, b"m", b"drop", entry as u64),
    }
}
