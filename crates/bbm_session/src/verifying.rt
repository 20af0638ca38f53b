//! A log and its certificate, taken line after line and judged by it.

ghost use Rattle.std.specs.Prelude.{◌≡◌, ◌+◌, ◌*◌, ◌<◌, Some, ok_or};
ghost use Rattle.bbm_regimes.specs.declared.regime.TheConstants.{MAX_LINES};
ghost use Rattle.bbm_certificate.specs.CertificateReading.{Reached, CertificateSays};
ghost use Rattle.bbm_session.specs.Reader.{Reader};
ghost use Rattle.bbm_session.specs.Readers.{Certifies};
ghost use Rattle.bbm_session.specs.Stages.{MayTakeLine, Shrinks, FoldsLine};
ghost use Rattle.bbm_session.specs.Serving.{Verifies, streams_of};

use crate::answering::report_stop;
use crate::reading::{header_line, read_log, turned};
use crate::stop::Stop;
use crate::taker::Taker;
use bbm_certificate::{Kept, judge_kept, take_line};
use bbm_events::{Header, law_header_in_range};
use bbm_io::{Lines, Sink, Source};
use bbm_log_grammar::Turn;
use bbm_texts::{Status, report_judged};
use std::alloc::Global;

/// What a line after the header decides.
fn verify_line(
    number: u64,
    kept: &mut Kept,
    header: &Header,
    line: &[u8],
    stop: &mut Stop,
) -> Option<Turn>
    requires { MayTakeLine (Certifies kept.old) header.now number }
    ensures takes { (reader : Reader Reached CertificateSays) (p : Reached)
        → Certifies kept.old reader header.now p number
        → FoldsLine reader (Certifies kept.new reader header.now) number p line.now
        (ok_or result stop.new) }
    ensures few { result ≡ Some Turn.Taken → number < MAX_LINES }
{
    turned(number, take_line(header, kept, line), stop)
}

/// A log and its certificate that are kept.
#[derive(Drop)]
pub struct Verifying {
    /// What is kept of the lines so far.
    pub kept: Kept,
}

impl Taker for Verifying {
    ghost use Rattle.bbm_certificate.specs.CertificateReading.{Reached, CertificateSays as SaidOfBoth};
    ghost use Rattle.bbm_session.specs.Readers.{Certifies};

    ghost Reached = { Reached };

    ghost Said = { SaidOfBoth };

    ghost stands = { λ verifying. Certifies verifying.kept };

    fn take(&mut self, number: u64, header: &Header, line: &[u8], stop: &mut Stop) -> Option<Turn> {
        verify_line(number, &mut self.kept, header, line, stop)
    }

    fn take_ahead(&mut self, _number: u64, _header: &Header, _bytes: &[u8]) -> Option<usize> {
        None
    }
}

/// Reads a log and its certificate, judges the one by the other, and writes the line of that. All lines are read before
/// anything is judged.
pub fn verify<S: Source, K: Sink>(alloc: Global, log: &mut S, out: &mut K) -> Status
    ensures verifies { Verifies result (streams_of S.left S.faults log.old log.new K.held K.faults out.old out.new) }
    ensures shrinks { Shrinks (201 * (MAX_LINES + 3)) (S.left log.old) (S.left log.new) }
{
    law_header_in_range();
    let mut lines = Lines::new();
    match header_line::<Verifying, S>(&mut lines, log) {
        Ok(header) => {
            let mut verifying = Verifying {
                kept: Kept::new(alloc),
            };
            match read_log(&header, &mut verifying, &mut lines, log) {
                Ok(()) => report_judged(
                    judge_kept(alloc, &header, &verifying.kept),
                    &verifying.kept,
                    out,
                ),
                Err(stop) => report_stop(stop, out),
            }
        }
        Err(stop) => report_stop(stop, out),
    }
}
