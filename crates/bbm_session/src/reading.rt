//! The lines of a log, read one after another.

ghost use Rattle.std.specs.Prelude.{◌≡◌, ◌+◌, ◌*◌, ◌≤◌, ◌<◌, OnOk, IfOk, IfErr, Some, OnSome, ok_or};
ghost use Rattle.bbm_regimes.specs.declared.regime.TheConstants.{MAX_LINES};
ghost use Rattle.bbm_events.specs.Heading.{Heading};
ghost use Rattle.bbm_session.specs.Reader.{Reader, IsStart, IsInside, IsEnd, alone};
ghost use Rattle.bbm_session.specs.Readers.{Turns};
ghost use Rattle.bbm_session.specs.Stages.{Shrinks, Ready, IsBrief, ReadsHeader, Starts, MayGoOn, Advances, Reaches};
ghost use Rattle.bbm_session.specs.Stages.{Closes, Ends};

use crate::line::{Piece, next_piece};
use crate::stop::{Stop, decided};
use crate::taker::Taker;
use bbm_events::{Header, Malformed};
use bbm_io::{Lines, Source};
use bbm_log_grammar::{LineFault, Turn, read_header};
use bbm_regimes::Which;
use bbm_rules::Verdict;

/// Why reading stops at a malformed line.
pub fn malformed(line: u64, cause: Malformed) -> Stop
    ensures { result ≡ Stop.Decided (alone (Verdict.Malformed line cause)) }
{
    decided(Verdict::Malformed { line, cause })
}

/// Stops reading at a malformed line.
#[cold]
#[inline(never)]
pub fn stop_malformed(line: u64, cause: Malformed, stop: &mut Stop)
    ensures { stop.new ≡ Stop.Decided (alone (Verdict.Malformed line cause)) }
{
    *stop = malformed(line, cause);
}

/// Stops reading at a line that reaches a limit.
#[cold]
#[inline(never)]
pub fn stop_limit(line: u64, which: Which, stop: &mut Stop)
    ensures { stop.new ≡ Stop.Decided (alone (Verdict.Limit line which)) }
{
    *stop = decided(Verdict::Limit { line, which });
}

/// What line `number` decides that was taken or not. None: reading stops, and `stop` says why.
pub fn turned(number: u64, taken: Result<Turn, LineFault>, stop: &mut Stop) -> Option<Turn>
    ensures { Turns number taken (ok_or result stop.new) }
{
    match taken {
        Ok(turn) => return Some(turn),
        Err(LineFault::Malformed(cause)) => stop_malformed(number, cause, stop),
        Err(LineFault::Limit(which)) => stop_limit(number, which, stop),
        Err(LineFault::NoMemory) => *stop = Stop::NoMemory,
    }
    None
}

/// What line 1 decides, by what was read of it.
fn judge_header(read: Result<Header, Malformed>) -> Result<Header, Stop>
    ensures judges { ReadsHeader result read }
    ensures brief { IfErr result (λ stop. IsBrief stop) }
{
    match read {
        Ok(header) => Ok(header),
        Err(cause) => Err(malformed(1, cause)),
    }
}

/// Reads line 1 and answers its header, as each fold over the lines of a log begins with it.
pub fn header_line<T: Taker, S: Source>(lines: &mut Lines, log: &mut S) -> Result<Header, Stop>
    requires { Ready lines.old 1 }
    ensures ready { OnOk result (Ready lines.new 2) }
    ensures starts { (reader : Reader T.Reached T.Said) (start : T.Reached) (begun : Heading → T.Reached)
        → IsStart reader start begun → Starts reader start result (S.left log.old) (S.left log.new)
        (S.faults log.old) (S.faults log.new) }
    ensures brief { IfErr result (λ stop. IsBrief stop) }
    ensures shrinks { Shrinks 201 (S.left log.old) (S.left log.new) }
{
    match next_piece(lines, log) {
        Piece::Line => judge_header(read_header(lines.bytes())),
        Piece::Rest => Err(malformed(1, Malformed::NoEnd)),
        Piece::TooLong => Err(decided(Verdict::Limit {
            line: 1,
            which: Which::LineBytes,
        })),
        Piece::ReadFault => Err(Stop::ReadFault),
    }
}

/// Reads line number `number`, after the header, whatever line it is. None: reading stops, and `stop` says why.
#[inline(never)]
fn any_line<T: Taker, S: Source>(
    number: u64,
    header: &Header,
    taker: &mut T,
    lines: &mut Lines,
    log: &mut S,
    stop: &mut Stop,
) -> Option<Turn>
    requires stands { MayGoOn (T.stands taker.old) header.now number }
    requires number { number ≤ MAX_LINES }
    requires ready { Ready lines.old number }
    ensures ready { OnSome result (Ready lines.new (number + 1)) }
    ensures advances { (reader : Reader T.Reached T.Said) (p : T.Reached) → IsInside reader p
        → T.stands taker.old reader header.now p number
        → Advances reader (T.stands taker.new reader header.now) number p (ok_or result stop.new)
        (S.left log.old) (S.left log.new) (S.faults log.old) (S.faults log.new) }
    ensures shrinks { Shrinks 201 (S.left log.old) (S.left log.new) }
    ensures few { result ≡ Some Turn.Taken → number < MAX_LINES }
{
    match next_piece(lines, log) {
        Piece::Line => taker.take(number, header, lines.bytes(), stop),
        Piece::Rest => {
            stop_malformed(number, Malformed::NoEnd, stop);
            None
        }
        Piece::TooLong => {
            stop_limit(number, Which::LineBytes, stop);
            None
        }
        Piece::ReadFault => {
            *stop = Stop::ReadFault;
            None
        }
    }
}

/// Reads the lines from line 2 to the `end` line; answers the number of the line behind it. A line that most logs have,
/// and that stops nothing, is taken at once, and any other by a function of its own, which writes why reading stops to
/// `stop`: so no verdict is moved about for a line that decides nothing.
fn log_lines<T: Taker, S: Source>(
    header: &Header,
    taker: &mut T,
    lines: &mut Lines,
    log: &mut S,
) -> Result<u64, Stop>
    requires begun { MayGoOn (T.stands taker.old) header.now 2 }
    requires ready { Ready lines.old 2 }
    ensures ready { IfOk result (λ number. Ready lines.new number) }
    ensures number { IfOk result (λ number. number ≤ MAX_LINES + 1) }
    ensures reaches { (reader : Reader T.Reached T.Said) (p : T.Reached) → IsInside reader p
        → T.stands taker.old reader header.now p 2
        → Reaches reader (T.stands taker.new reader header.now) p result (S.left log.old) (S.left log.new)
        (S.faults log.old) (S.faults log.new) }
    ensures shrinks { Shrinks (201 * (MAX_LINES + 1)) (S.left log.old) (S.left log.new) }
{
    let mut number = 2;
    let mut stop = Stop::ReadFault;
    'lines: loop {
        if let Some(count) = taker.take_ahead(number, header, log.ahead()) {
            lines.take(count, log);
            number += 1;
        } else {
            match any_line(number, header, taker, lines, log, &mut stop) {
                Some(Turn::Taken) => number += 1,
                Some(Turn::End) => return Ok(number + 1),
                None => return Err(stop),
            }
        }
    }
}

/// Reads behind the `end` line, where nothing may follow.
fn nothing_follows<T: Taker, S: Source>(
    number: u64,
    lines: &mut Lines,
    log: &mut S,
) -> Result<(), Stop>
    requires ready { Ready lines.old number }
    requires number { number ≤ MAX_LINES + 1 }
    ensures closes { (reader : Reader T.Reached T.Said) (p : T.Reached) (end : T.Reached) → IsEnd reader p end
        → Closes reader p end result number (S.left log.old) (S.left log.new) (S.faults log.old) (S.faults log.new) }
    ensures brief { IfErr result (λ stop. IsBrief stop) }
    ensures shrinks { Shrinks 201 (S.left log.old) (S.left log.new) }
{
    match next_piece(lines, log) {
        Piece::Line => Err(malformed(number, Malformed::AfterEnd)),
        Piece::Rest => {
            if lines.bytes().is_empty() {
                Ok(())
            } else {
                Err(malformed(number, Malformed::AfterEnd))
            }
        }
        Piece::TooLong => Err(malformed(number, Malformed::AfterEnd)),
        Piece::ReadFault => Err(Stop::ReadFault),
    }
}

/// Reads the log behind its header up to the line that stops reading, or whole: Ok where it was read to its end.
pub fn read_log<T: Taker, S: Source>(
    header: &Header,
    taker: &mut T,
    lines: &mut Lines,
    log: &mut S,
) -> Result<(), Stop>
    requires begun { MayGoOn (T.stands taker.old) header.now 2 }
    requires ready { Ready lines.old 2 }
    ensures ends { (reader : Reader T.Reached T.Said) (p : T.Reached) → IsInside reader p
        → T.stands taker.old reader header.now p 2
        → Ends reader (T.stands taker.new reader header.now) p result (S.left log.old) (S.left log.new)
        (S.faults log.old) (S.faults log.new) }
    ensures shrinks { Shrinks (201 * (MAX_LINES + 2)) (S.left log.old) (S.left log.new) }
{
    match log_lines(header, taker, lines, log) {
        Ok(number) => nothing_follows::<T, S>(number, lines, log),
        Err(stop) => Err(stop),
    }
}
