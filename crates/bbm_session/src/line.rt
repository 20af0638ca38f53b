//! One line of the log.

ghost use Rattle.std.specs.Prelude.{◌≡◌, ◌+◌, ◌≤◌, ◌^◌, false, true, length};
ghost use Rattle.bbm_io.specs.Flow.{plain};
ghost use Rattle.bbm_session.specs.Pieces.{Takes, AddsUp, Counted};
ghost use Rattle.bbm_session.specs.Stages.{Shrinks};

use bbm_io::{LineFault, LineOrEnd, Lines, Source};

/// What stands where a line was asked for.
#[derive(Clone, Copy)]
pub enum Piece {
    /// A line of at most 200 bytes.
    Line,
    /// At most 200 bytes, and then the end of the input.
    Rest,
    /// 201 bytes without a newline.
    TooLong,
    /// A read failed.
    ReadFault,
}

/// Reads the next line into `lines`.
pub fn next_piece<S: Source>(lines: &mut Lines, log: &mut S) -> Piece
    requires sound { lines.old.failed ≡ false }
    requires room { lines.old.taken + 201 ≤ 2 ^ 40 }
    ensures takes { Takes result lines.new.bytes (S.left log.old) (S.left log.new) }
    ensures adds_up { AddsUp result lines.old lines.new }
    ensures within { length lines.new.bytes ≤ 200 }
    ensures plain { plain lines.new.bytes ≡ true }
    ensures counted { Counted result (S.faults log.old) (S.faults log.new) }
    ensures shrinks { Shrinks 201 (S.left log.old) (S.left log.new) }
{
    match lines.next(log) {
        Ok(LineOrEnd::Line) => Piece::Line,
        Ok(LineOrEnd::Cut) => Piece::Rest,
        Ok(LineOrEnd::End) => Piece::Rest,
        Err(LineFault::TooLong) => Piece::TooLong,
        Err(LineFault::ReadFault) => Piece::ReadFault,
        Err(LineFault::LogTooLong) => unreachable!(),
    }
}
