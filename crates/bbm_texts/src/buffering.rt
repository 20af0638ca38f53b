//! A text of many lines, written through a buffer.
//! Source: project's own choice, where no other is named.

ghost use Rattle.std.specs.Prelude.{◌≡◌, ◌≤◌, ◌+◌, ◌++◌, ℕ, List, [], Option, OnOk, true};
ghost use Rattle.arrayvec.specs.ArrayVec.{array_vec_len};
ghost use Rattle.bbm_events.specs.Fits.{item_fits};
ghost use Rattle.bbm_events.specs.Lines.{header_line as line_of_header, item_line};
ghost use Rattle.bbm_texts.specs.Generating.{ended};
ghost use Rattle.bbm_texts.specs.Writing.{Buffered, Pours, Puts};

use crate::telling::tell;
use arrayvec::ArrayVec;
use bbm_events::{Header, Item};
use bbm_io::{Failed, Sink};
use bbm_log_grammar::{write_event, write_header};

/// The bytes that are written at once.
pub const BUFFER_BYTES: usize = 65536;

/// The bytes of the buffer that are free after each line: room for the longest line and its newline.
const LINE_ROOM: usize = 256;

/// Writes what is buffered where there may be no room for another line.
pub fn make_room<K: Sink>(
    buffer: &mut ArrayVec<u8, BUFFER_BYTES>,
    out: &mut K,
) -> Result<(), Failed>
    ensures room { OnOk result (array_vec_len buffer.new + 256 ≤ 65536) }
    ensures poured { (text : List ℕ) (start : Option (List ℕ)) (faults : ℕ)
        → Buffered text buffer.old.items start (K.held out.old) faults (K.faults out.old)
        → Pours text result buffer.new.items start (K.held out.new) faults (K.faults out.new) }
{
    if buffer.len() + LINE_ROOM <= BUFFER_BYTES {
        return Ok(());
    }
    match tell(buffer, out) {
        Ok(()) => {
            buffer.clear();
            Ok(())
        }
        Err(failed) => Err(failed),
    }
}

/// Appends a line and its newline, for which there is room.
fn append(buffer: &mut ArrayVec<u8, BUFFER_BYTES>, line: &ArrayVec<u8, 200>)
    requires room { array_vec_len buffer.old + 256 ≤ 65536 }
    ensures appended { buffer.new.items ≡ buffer.old.items ++ ended line.now.items }
{
    let _fits = buffer.try_extend_from_slice(line);
    buffer.push(b'\n');
}

/// Adds a line and its newline to what is buffered.
pub fn add_line<K: Sink>(
    buffer: &mut ArrayVec<u8, BUFFER_BYTES>,
    line: &ArrayVec<u8, 200>,
    out: &mut K,
) -> Result<(), Failed>
    ensures poured { (text : List ℕ) (start : Option (List ℕ)) (faults : ℕ)
        → Buffered text buffer.old.items start (K.held out.old) faults (K.faults out.old)
        → Pours (text ++ ended line.now.items) result buffer.new.items start (K.held out.new)
        faults (K.faults out.new) }
{
    match make_room(buffer, out) {
        Ok(()) => {
            append(buffer, line);
            Ok(())
        }
        Err(failed) => Err(failed),
    }
}

/// Adds the line of an item, made apart.
pub fn add_item<K: Sink>(
    header: &Header,
    item: Item,
    buffer: &mut ArrayVec<u8, BUFFER_BYTES>,
    out: &mut K,
) -> Result<(), Failed>
    requires fits { item_fits header.now item ≡ true }
    ensures poured { (text : List ℕ) (start : Option (List ℕ)) (faults : ℕ)
        → Buffered text buffer.old.items start (K.held out.old) faults (K.faults out.old)
        → Pours (text ++ ended (item_line item)) result buffer.new.items start (K.held out.new)
        faults (K.faults out.new) }
{
    let mut line = ArrayVec::new();
    write_event(header, item, &mut line);
    add_line(buffer, &line, out)
}

/// Adds the line of the header to an empty buffer.
pub fn add_header<K: Sink>(
    header: &Header,
    buffer: &mut ArrayVec<u8, BUFFER_BYTES>,
    out: &mut K,
) -> Result<(), Failed>
    requires empty { buffer.old.items ≡ [] }
    ensures poured { Pours (ended (line_of_header header.now)) result buffer.new.items (K.held out.old) (K.held out.new)
        (K.faults out.old) (K.faults out.new) }
{
    let mut line = ArrayVec::new();
    write_header(header, &mut line);
    add_line(buffer, &line, out)
}

/// Writes what is still buffered.
pub fn finish<K: Sink>(
    poured: Result<(), Failed>,
    buffer: &ArrayVec<u8, BUFFER_BYTES>,
    out: &mut K,
) -> Result<(), Failed>
    ensures puts { (text : List ℕ) (start : Option (List ℕ)) (faults : ℕ)
        → Pours text poured buffer.now.items start (K.held out.old) faults (K.faults out.old)
        → Puts text result start (K.held out.new) faults (K.faults out.new) }
{
    match poured {
        Ok(()) => tell(buffer, out),
        Err(failed) => Err(failed),
    }
}
