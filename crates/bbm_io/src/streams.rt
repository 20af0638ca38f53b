//! Sources and sinks over readers and writers of std, as far as these tell their bytes.

ghost use Rattle.std.specs.Prelude.{◌≡◌, ℕ, ◌+◌, ◌-◌, ◌<◌, ◌≤◌, List, [], ◌++◌, length, take, drop, min};
ghost use Rattle.std.specs.Prelude.{slice_range, false, IfOk, OnOk, OnErr, None, Ok};
ghost use Rattle.std.specs.Io.KnownBytes.{Keeps, Consumes, IsAtEnd};
ghost use Rattle.bbm_io.specs.Faults.{CountsFaults};
ghost use Rattle.bbm_io.specs.Flow.{TellsMore};
ghost use Rattle.bbm_io.specs.Streams.{ReadsInto, Writes, unread};

use crate::sink::Sink;
use crate::source::{Failed, Source, copy_front};
use std::io::{ErrorKind, Read, Write};
use std::marker::Model;

/// How many bytes a `StdSource` reads ahead.
const AHEAD: usize = 4096;

/// A source over a reader of std, which reads up to 4,096 bytes ahead. Its count of faults rises at
/// each error of the reader, up to 2^64 - 1; a call that a signal interrupted is made again. A clause sees
/// its `Reader`: what the reader tells of its bytes may come and go, so `left` tells nothing, and each
/// call says what it takes of the bytes at hand and of the reader.
#[derive(Drop)]
pub struct StdSource<R> {
    reader: R,
    buffer: [u8; AHEAD],
    at: usize,
    end: usize,
    faults: u64,
}

impl<R> Model for StdSource<R> {
    ghost use Rattle.std.specs.Prelude.{◌≤◌, slice_range};
    ghost use Rattle.bbm_io.specs.Flow.{TellsMore};
    ghost use Rattle.bbm_io.specs.Streams.{Reader};

    ghost Value = { Reader R };

    ghost view = { λ s. record { at_hand = slice_range s.buffer s.at s.end; reader = s.reader; faults = s.faults } };

    ghost invariant = { (λ s. (s.at ≤ s.end) × (s.end ≤ 4096)) };
}

impl<R: Read> StdSource<R> {
    /// A source over this reader, with nothing at hand. Its count of faults is 0.
    pub fn new(reader: R) -> StdSource<R>
        ensures { result ≡ record { at_hand = []; reader = reader; faults = 0 } }
    {
        StdSource {
            reader,
            buffer: [0; AHEAD],
            at: 0,
            end: 0,
            faults: 0,
        }
    }
}

/// One read into `buf`, made again where a signal interrupts it.
#[tactic(auto, using(crate::proofs::Readers::readers))]
fn read_once<R: Read>(reader: &mut R, buf: &mut [u8]) -> Result<usize, Failed>
    ensures { ReadsInto result buf.new (R.remaining reader.old) (R.remaining reader.new) }
{
    for _ in 0..u64::MAX {
        match reader.read(buf) {
            Ok(count) => return Ok(count),
            Err(error) if error.kind() == ErrorKind::Interrupted => {}
            Err(_) => return Err(Failed),
        }
    }
    Err(Failed)
}

/// Moves the bytes from `at` to `end` to the front.
fn move_to_front(buffer: &mut [u8], at: usize, end: usize)
    requires ordered { at ≤ end }
    requires within { end ≤ length buffer.old }
    ensures { slice_range buffer.new 0 (end - at) ≡ slice_range buffer.old at end }
{
    buffer.copy_within(at..end, 0);
}

/// One read into `buffer` from `end` on; answers where the bytes end now.
#[tactic(auto, using(crate::proofs::Readers::readers))]
fn read_behind<R: Read>(reader: &mut R, buffer: &mut [u8], end: usize) -> Result<usize, Failed>
    requires within { end ≤ length buffer.old }
    ensures within { IfOk result (λ now. now ≤ length buffer.new) }
    ensures front { take end buffer.new ≡ take end buffer.old }
    ensures bytes { IfOk result
        (λ now. Consumes (R.remaining reader.old) (R.remaining reader.new) (slice_range buffer.new end now)) }
    ensures grows { IfOk result (λ now. end ≤ now) }
    ensures end { IfOk result (λ now. now ≡ end → end < length buffer.old → IsAtEnd (R.remaining reader.new)) }
    ensures unread { OnErr result (Keeps (R.remaining reader.old) (R.remaining reader.new)) }
{
    let count = read_once(reader, &mut buffer[end..])?;
    Ok(end + count)
}

impl<R: Read> StdSource<R> {
    /// Reads further bytes behind those at hand; answers whether any came.
    #[tactic(auto, using(crate::proofs::Readers::readers))]
    fn refill(&mut self) -> Result<bool, Failed>
        ensures behind { OnOk result ((further : List ℕ) × (self.new.at_hand ≡ self.old.at_hand ++ further)
            × Consumes (R.remaining self.old.reader) (R.remaining self.new.reader) further) }
        ensures told { TellsMore result self.old.at_hand self.new.at_hand }
        ensures end { result ≡ Ok false → length self.old.at_hand < 4096 → IsAtEnd (R.remaining self.new.reader) }
        ensures kept { OnErr result (Keeps (R.remaining self.old.reader) (R.remaining self.new.reader)) }
        ensures fault_count { CountsFaults result self.old.faults self.new.faults }
    {
        let count = self.end - self.at;
        move_to_front(&mut self.buffer, self.at, self.end);
        self.at = 0;
        self.end = count;
        match read_behind(&mut self.reader, &mut self.buffer, count) {
            Ok(end) => {
                self.end = end;
                Ok(end > count)
            }
            Err(Failed) => {
                self.faults = self.faults.saturating_add(1);
                Err(Failed)
            }
        }
    }

    /// Moves bytes at hand to the front of `buf`, as many as fit; answers how many.
    fn give(&mut self, buf: &mut [u8]) -> usize
        ensures count { result ≡ min (length self.old.at_hand) (length buf.old) }
        ensures bytes { self.old.at_hand ≡ take result buf.new ++ self.new.at_hand }
        ensures reader { self.new.reader ≡ self.old.reader }
        ensures faults { self.new.faults ≡ self.old.faults }
    {
        let count = copy_front(&self.buffer[self.at..self.end], buf);
        self.at += count;
        count
    }
}

impl<R: Read> Source for StdSource<R> {
    ghost left = { λ _. None };

    ghost at_hand = { λ s. s.at_hand };

    ghost room = { λ _. 4096 };

    ghost faults = { λ s. s.faults };

    /// Takes what is at hand, and asks the reader only where nothing is, and never for an empty `buf`. An
    /// error of the reader is told as `Failed`, and then nothing was taken.
    #[tactic(auto, using(crate::proofs::Readers::readers))]
    fn read(&mut self, buf: &mut [u8]) -> Result<usize, Failed>
        ensures reads { ReadsInto result buf.new (unread R.remaining self.old) (unread R.remaining self.new) }
        ensures spared { 0 < length self.old.at_hand → self.new.reader ≡ self.old.reader }
        ensures nothing_asked { buf.new ≡ [] → self.new ≡ self.old }
        ensures fault_count { CountsFaults result self.old.faults self.new.faults }
    {
        if self.at == self.end && !buf.is_empty() {
            self.refill()?;
        }
        Ok(self.give(buf))
    }

    fn ahead(&self) -> &[u8] {
        &self.buffer[self.at..self.end]
    }

    /// Takes this many of the bytes at hand, and leaves the reader alone.
    fn consume(&mut self, count: usize)
        requires { count ≤ length self.old.at_hand }
        ensures rest { self.new.at_hand ≡ drop count self.old.at_hand }
        ensures reader { self.new.reader ≡ self.old.reader }
        ensures sound { self.new.faults ≡ self.old.faults }
    {
        self.at += count;
    }

    /// Asks the reader for further bytes where there is room for them. All that was unread stays so. An
    /// error of the reader is told as `Failed`.
    #[tactic(auto, using(crate::proofs::Readers::readers))]
    fn more(&mut self) -> Result<bool, Failed>
        ensures kept { Keeps (unread R.remaining self.old) (unread R.remaining self.new) }
        ensures behind { (further : List ℕ) × (self.new.at_hand ≡ self.old.at_hand ++ further) }
        ensures told { TellsMore result self.old.at_hand self.new.at_hand }
        ensures end { result ≡ Ok false → length self.old.at_hand < 4096 → IsAtEnd (R.remaining self.new.reader) }
        ensures fault_count { CountsFaults result self.old.faults self.new.faults }
    {
        StdSource::refill(self)
    }
}

/// A sink over a writer of std. Its count of faults rises at each error of the writer, and where the
/// writer takes nothing of a piece that isn't empty, up to 2^64 - 1; a call that a signal interrupted is
/// made again. A clause sees its `Writer`: what the writer tells of its bytes may come and go, so `held`
/// tells nothing, and `write` says what it adds to the writer.
#[derive(Drop)]
pub struct StdSink<W> {
    writer: W,
    faults: u64,
}

impl<W> Model for StdSink<W> {
    ghost use Rattle.bbm_io.specs.Flow.{TellsMore};
    ghost use Rattle.bbm_io.specs.Streams.{Writer};

    ghost Value = { Writer W };

    ghost view = { λ s. record { writer = s.writer; faults = s.faults } };
}

impl<W: Write> StdSink<W> {
    /// A sink over this writer. Its count of faults is 0.
    pub fn new(writer: W) -> StdSink<W>
        ensures { result ≡ record { writer = writer; faults = 0 } }
    {
        StdSink { writer, faults: 0 }
    }
}

/// One write, made again where a signal interrupts it.
#[tactic(auto, using(crate::proofs::Readers::readers))]
fn write_once<W: Write>(writer: &mut W, piece: &[u8]) -> Result<usize, Failed>
    ensures { Writes result piece.now (W.contents writer.old) (W.contents writer.new) }
{
    for _ in 0..u64::MAX {
        match writer.write(piece) {
            Ok(count) => return Ok(count),
            Err(error) if error.kind() == ErrorKind::Interrupted => {}
            Err(_) => return Err(Failed),
        }
    }
    Err(Failed)
}

impl<W: Write> Sink for StdSink<W> {
    ghost held = { λ _. None };

    ghost faults = { λ s. s.faults };

    /// Adds the first bytes of `piece` to the writer and answers how many. An error of the writer, and a
    /// piece of which it takes nothing, is told as `Failed`, and then nothing was added.
    #[tactic(auto, using(crate::proofs::Readers::readers))]
    fn write(&mut self, piece: &[u8]) -> Result<usize, Failed>
        ensures writes { Writes result piece.now (W.contents self.old.writer) (W.contents self.new.writer) }
        ensures some { 0 < length piece.now → IfOk result (λ n. 1 ≤ n) }
        ensures fault_count { CountsFaults result self.old.faults self.new.faults }
    {
        match write_once(&mut self.writer, piece) {
            Ok(count) if count > 0 || piece.is_empty() => Ok(count),
            _ => {
                self.faults = self.faults.saturating_add(1);
                Err(Failed)
            }
        }
    }
}
