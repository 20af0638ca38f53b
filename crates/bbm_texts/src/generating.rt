//! A generated log, written line by line.
//! Source: project's own choice, where no other is named.

ghost use Rattle.std.specs.Prelude.{◌≡◌, ◌≤◌, ◌+◌, ◌++◌, ℕ, List, [], Option, true};
ghost use Rattle.arrayvec.specs.ArrayVec.{array_vec_len};
ghost use Rattle.bbm_events.specs.Fits.{item_fits};
ghost use Rattle.bbm_events.specs.Lines.{item_line};
ghost use Rattle.bbm_gen.specs.Generated.{heading};
ghost use Rattle.bbm_texts.specs.Generating.{ended, gen_begin, gen_first, gen_text};
ghost use Rattle.bbm_texts.specs.Writing.{Buffered, Pours, Wrote};

use crate::answering::settled;
use crate::buffering::{BUFFER_BYTES, add_header, add_item, finish, make_room};
use crate::status::Status;
use arrayvec::ArrayVec;
use bbm_events::{Header, Item};
use bbm_gen::{gen_event, gen_header};
use bbm_io::{Failed, Sink};
use bbm_log_grammar::append_event;

/// Appends the line of an item and its newline, for which there is room. Only the loop over events does, so that it is
/// compiled there.
#[inline(always)]
fn append_item(header: &Header, item: Item, buffer: &mut ArrayVec<u8, BUFFER_BYTES>)
    requires room { array_vec_len buffer.old + 256 ≤ 65536 }
    requires fits { item_fits header.now item ≡ true }
    ensures appended { buffer.new.items ≡ buffer.old.items ++ ended (item_line item) }
{
    append_event(header, item, buffer);
    buffer.push(b'\n');
}

/// Adds the lines of the first events of the log of the number n, so many, behind the line of the header.
fn add_events<K: Sink>(
    header: &Header,
    n: u64,
    count: u32,
    buffer: &mut ArrayVec<u8, BUFFER_BYTES>,
    out: &mut K,
) -> Result<(), Failed>
    requires header { header.now ≡ heading }
    ensures poured { (start : Option (List ℕ)) (faults : ℕ)
        → Buffered gen_first buffer.old.items start (K.held out.old) faults (K.faults out.old)
        → Pours (gen_begin n count) result buffer.new.items start (K.held out.new) faults (K.faults out.new) }
{
    let mut i = 0;
    'events: while i < count {
        match make_room(buffer, out) {
            Ok(()) => {
                append_item(header, Item::Event(gen_event(n, i), None), buffer);
                i += 1;
            }
            Err(failed) => return Err(failed),
        }
    }
    Ok(())
}

/// Adds the lines of the log of the number n with so many events to an empty buffer.
fn pour_log<K: Sink>(
    n: u64,
    count: u32,
    buffer: &mut ArrayVec<u8, BUFFER_BYTES>,
    out: &mut K,
) -> Result<(), Failed>
    requires empty { buffer.old.items ≡ [] }
    ensures poured { Pours (gen_text n count) result buffer.new.items (K.held out.old) (K.held out.new)
        (K.faults out.old) (K.faults out.new) }
{
    let header = gen_header();
    add_header(&header, buffer, out)?;
    add_events(&header, n, count, buffer, out)?;
    add_item(&header, Item::End(count), buffer, out)
}

/// Writes the generated log of the number n with so many events, and keeps none of it but what is to be written next.
pub fn generate<K: Sink>(n: u64, count: u32, out: &mut K) -> Status
    ensures wrote { Wrote Status.Accepted (gen_text n count) result (K.held out.old) (K.held out.new)
        (K.faults out.old) (K.faults out.new) }
{
    let mut buffer = ArrayVec::new();
    let poured = pour_log(n, count, &mut buffer, out);
    settled(finish(poured, &buffer, out), Status::Accepted)
}
