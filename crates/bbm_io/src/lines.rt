//! Lines of a source, one after another.
//! Source: project's own choice, where no other is named.

ghost use Rattle.std.specs.Prelude.{◌≡◌, ◌+◌, ◌-◌, ◌<◌, ◌≤◌, ◌^◌, ◌≢◌, [], ◌∷◌, ◌++◌, take, drop, IfSome, length, true};
ghost use Rattle.std.specs.Prelude.{false, is_err, Ok, Err};
ghost use Rattle.bbm_io.specs.Faults.{CountsFaultsIf, Rose};
ghost use Rattle.bbm_io.specs.Flow.{preceded, plain};
ghost use Rattle.bbm_io.specs.Reading.{LiesWhole, Reads, Took, reading};
ghost use Rattle.bbm_io.specs.Byte.{Gave};
ghost use Rattle.memchr.specs.Find.{IsFirstByte, is_byte};

use crate::source::{Failed, Source};
use arrayvec::ArrayVec;
use memchr::memchr_iter;
use std::marker::Model;

/// The most bytes of a line, without its newline.
const LINE_BYTES: usize = 200;

/// The most bytes that a reader of lines takes.
const LOG_BYTES: u64 = 1 << 40;

/// What stands where a line was asked for.
#[derive(Clone, Copy, PartialEq, Eq)]
pub enum LineOrEnd {
    /// A line: 0 to 200 bytes up to a newline.
    Line,
    /// A line that is cut: 1 to 200 bytes, and then the end.
    Cut,
    /// The end, at once.
    End,
}

/// Why a line wasn't read.
#[derive(Clone, Copy, PartialEq, Eq)]
pub enum LineFault {
    /// 201 bytes came without a newline.
    TooLong = 1,
    /// The source answered that a read failed.
    ReadFault = 2,
    /// 2^40 bytes were taken, and one more is wanted.
    LogTooLong = 3,
}

/// A reader of lines. It keeps the last line alone, at most 200 bytes of it. A clause sees its
/// `Reading`.
#[derive(Drop)]
pub struct Lines {
    line: ArrayVec<u8, LINE_BYTES>,
    taken: u64,
    failed: bool,
}

impl Model for Lines {
    ghost use Rattle.std.specs.Prelude.{◌≤◌, ◌^◌, length, ◌≡◌, true};
    ghost use Rattle.bbm_io.specs.Reading.{Reading};
    ghost use Rattle.bbm_io.specs.Flow.{preceded, plain};

    ghost Value = { Reading };

    ghost view = { λ l. record { bytes = l.line.items; taken = l.taken; failed = l.failed } };

    ghost invariant = { (λ l. (length l.line.items ≤ 200) × (l.taken ≤ 2 ^ 40) × (plain l.line.items ≡ true)) };
}

impl Lines {
    /// A reader that has taken nothing.
    pub fn new() -> Lines
        ensures { result ≡ record { bytes = []; taken = 0; failed = false } }
    {
        Lines {
            line: ArrayVec::new(),
            taken: 0,
            failed: false,
        }
    }

    /// Reads the next line; one that lies whole in what the source has at hand is taken at once, and any
    /// other a byte at a time. The answers and faults are those of `LineOrEnd` and `LineFault`; `ReadFault`
    /// comes only where the source's count of faults rose, or stands at 2^64 - 1, and where it doesn't come
    /// the count stays. In every case what was taken from the source stands in `bytes`, but for the newline
    /// of a line and the 201st byte of a line that is too long. After a fault no further line is read.
    pub fn next<S: Source>(&mut self, src: &mut S) -> Result<LineOrEnd, LineFault>
        requires { self.old.failed ≡ false }
        ensures reads { Reads result self.old self.new (S.left src.old) (S.left src.new) }
        ensures failed { self.new.failed ≡ is_err result }
        ensures fault_count { CountsFaultsIf (result ≡ Err LineFault.ReadFault) (S.faults src.old) (S.faults src.new) }
        ensures quiet { ¬ (Rose (S.faults src.old) (S.faults src.new)) → result ≢ Err LineFault.ReadFault }
    {
        self.line.clear();
        let answer = next_line(&mut self.line, &mut self.taken, src);
        self.failed = answer.is_err();
        answer
    }

    /// Takes the next line, which lies whole at hand with so many bytes before its newline, and keeps nothing
    /// of it.
    #[inline]
    pub fn take<S: Source>(&mut self, count: usize, src: &mut S)
        requires line { LiesWhole count (S.at_hand src.old) }
        requires room { self.old.taken + count + 1 ≤ 2 ^ 40 }
        ensures took { Took (Ok LineOrEnd.Line) (take count (S.at_hand src.old)) (S.left src.old) (S.left src.new) }
        ensures rest { S.at_hand src.new ≡ drop (count + 1) (S.at_hand src.old) }
        ensures bytes { self.new.bytes ≡ [] }
        ensures taken { self.new.taken ≡ self.old.taken + count + 1 }
        ensures failed { self.new.failed ≡ self.old.failed }
        ensures sound { S.faults src.new ≡ S.faults src.old }
    {
        self.line.clear();
        let bytes = count + 1;
        self.taken += bytes as u64;
        src.consume(bytes);
    }

    /// The bytes of the last line or cut piece, without its newline; none at the start and at the end.
    /// After a fault, the bytes of the line that were taken, but for the 201st.
    pub fn bytes(&self) -> &[u8]
        ensures bytes { result.now ≡ self.now.bytes }
        ensures within { length self.now.bytes ≤ 200 }
        ensures plain { plain self.now.bytes ≡ true }
    {
        &self.line
    }

    /// Whether the last line was a fault; `next` isn't called then.
    pub fn failed(&self) -> bool
        ensures failed { result ≡ self.now.failed }
        ensures taken { self.now.taken ≤ 2 ^ 40 }
    {
        self.failed
    }
}

/// Takes the line that lies whole in what the source has at hand; answers whether one does.
fn take_line<S: Source>(line: &mut ArrayVec<u8, LINE_BYTES>, taken: &mut u64, src: &mut S) -> bool
    requires empty { line.old.items ≡ [] }
    requires within { taken.old ≤ 2 ^ 40 }
    ensures took { result ≡ true → S.left src.old ≡ preceded (line.new.items ++ 10 ∷ []) (S.left src.new) }
    ensures counted { result ≡ true → taken.new ≡ taken.old + length line.new.items + 1 }
    ensures within { taken.new ≤ 2 ^ 40 }
    ensures short { length line.new.items ≤ 200 }
    ensures plain { plain line.new.items ≡ true }
    ensures untaken { result ≡ false → S.left src.new ≡ S.left src.old }
    ensures uncounted { result ≡ false → taken.new ≡ taken.old }
    ensures unkept { result ≡ false → line.new.items ≡ [] }
    ensures sound { S.faults src.new ≡ S.faults src.old }
{
    let Some(count) = line_at_hand(src.ahead()) else {
        return false;
    };
    let bytes = count as u64 + 1;
    if bytes > LOG_BYTES - *taken {
        return false;
    }
    if line.try_extend_from_slice(&src.ahead()[..count]).is_err() {
        return false;
    }
    *taken += bytes;
    src.consume(count + 1);
    true
}

/// The first newline. The next 32 bytes are looked at first, among which most lines end.
fn first_newline(bytes: &[u8]) -> Option<usize>
    ensures { IsFirstByte (is_byte 10) bytes.now result }
{
    memchr_iter(b'\n', bytes).next()
}

/// The number of bytes before the first newline, where there are at most 200.
#[inline(never)]
fn line_at_hand(bytes: &[u8]) -> Option<usize>
    ensures { IfSome result (λ n. LiesWhole n bytes.now) }
{
    first_newline(&bytes[..bytes.len().min(LINE_BYTES + 1)])
}

/// Reads the next line.
fn next_line<S: Source>(
    line: &mut ArrayVec<u8, LINE_BYTES>,
    taken: &mut u64,
    src: &mut S,
) -> Result<LineOrEnd, LineFault>
    requires empty { line.old.items ≡ [] }
    requires within { taken.old ≤ 2 ^ 40 }
    ensures reads { Reads result (reading line.old.items taken.old false)
        (reading line.new.items taken.new (is_err result)) (S.left src.old) (S.left src.new) }
    ensures fault_count { CountsFaultsIf (result ≡ Err LineFault.ReadFault) (S.faults src.old) (S.faults src.new) }
{
    if take_line(line, taken, src) {
        return Ok(LineOrEnd::Line);
    }
    if is_cut(src.ahead()) && *taken < LOG_BYTES {
        match src.more() {
            Ok(came) => {
                if came && take_line(line, taken, src) {
                    return Ok(LineOrEnd::Line);
                }
            }
            Err(Failed) => return Err(LineFault::ReadFault),
        }
    }
    read_line(line, taken, src)
}

/// Whether the bytes at hand end within a line: there are some, and fewer than make a line too long.
fn is_cut(bytes: &[u8]) -> bool {
    (1..=LINE_BYTES).contains(&bytes.len())
}

/// What one read of one byte gave.
enum Next {
    Byte(u8),
    Nothing,
    Fault,
}

/// Asks the source for one byte.
#[tactic(auto, using(crate::proofs::Flow::flow))]
fn next_byte<S: Source>(src: &mut S) -> Next
    ensures gave { Gave result (S.left src.old) (S.left src.new) }
    ensures fault_count { CountsFaultsIf (result ≡ Next.Fault) (S.faults src.old) (S.faults src.new) }
{
    let mut buf = [0];
    match src.read(&mut buf) {
        Ok(0) => Next::Nothing,
        Ok(_) => Next::Byte(buf[0]),
        Err(Failed) => Next::Fault,
    }
}

/// Reads the bytes of a line up to its newline into `line`, and counts the bytes taken.
#[tactic(auto, using(crate::proofs::Flow::flow))]
fn read_line<S: Source>(
    line: &mut ArrayVec<u8, LINE_BYTES>,
    taken: &mut u64,
    src: &mut S,
) -> Result<LineOrEnd, LineFault>
    requires empty { line.old.items ≡ [] }
    requires within { taken.old ≤ 2 ^ 40 }
    ensures reads { Reads result (reading line.old.items taken.old false)
        (reading line.new.items taken.new (is_err result)) (S.left src.old) (S.left src.new) }
    ensures fault_count { CountsFaultsIf (result ≡ Err LineFault.ReadFault) (S.faults src.old) (S.faults src.new) }
{
    while *taken < LOG_BYTES {
        match next_byte(src) {
            Next::Fault => return Err(LineFault::ReadFault),
            Next::Nothing if line.is_empty() => return Ok(LineOrEnd::End),
            Next::Nothing => return Ok(LineOrEnd::Cut),
            Next::Byte(byte) => {
                *taken += 1;
                if byte == b'\n' {
                    return Ok(LineOrEnd::Line);
                }
                if line.is_full() {
                    return Err(LineFault::TooLong);
                }
                line.push(byte);
            }
        }
    }
    Err(LineFault::LogTooLong)
}
