//! The steps of a run, taken line after line.

ghost use Rattle.std.specs.Prelude.{◌≡◌, ◌+◌, ◌*◌, ◌<◌, Some, ok_or};
ghost use Rattle.bbm_regimes.specs.declared.regime.TheConstants.{MAX_LINES};
ghost use Rattle.bbm_follow.specs.Following.{Reached, RunSays};
ghost use Rattle.bbm_session.specs.Reader.{Reader};
ghost use Rattle.bbm_session.specs.Readers.{Follows};
ghost use Rattle.bbm_session.specs.Stages.{MayTakeLine, Shrinks, FoldsLine};
ghost use Rattle.bbm_session.specs.Serving.{FollowsRun, streams_of};

use crate::answering::report_stop;
use crate::reading::{header_line, read_log, turned};
use crate::stop::Stop;
use crate::taker::Taker;
use bbm_events::Header;
use bbm_follow::{follow_run, take_line};
use bbm_io::{Lines, Sink, Source};
use bbm_log_grammar::Turn;
use bbm_texts::{Status, report_run};
use bbm_tlb_machine::Step;
use std::alloc::Global;

/// What a line after the header decides.
fn follow_line(
    number: u64,
    steps: &mut Vec<Step>,
    header: &Header,
    line: &[u8],
    stop: &mut Stop,
) -> Option<Turn>
    requires { MayTakeLine (Follows steps.old.items) header.now number }
    ensures takes { (reader : Reader Reached RunSays) (p : Reached) → Follows steps.old.items reader header.now p number
        → FoldsLine reader (Follows steps.new.items reader header.now) number p line.now
        (ok_or result stop.new) }
    ensures few { result ≡ Some Turn.Taken → number < MAX_LINES }
{
    turned(number, take_line(header, steps, line), stop)
}

/// The steps of a run that are kept.
#[derive(Drop)]
pub struct Following {
    /// The steps of the lines so far, the oldest first.
    pub steps: Vec<Step>,
}

impl Taker for Following {
    ghost use Rattle.bbm_follow.specs.Following.{Reached, RunSays};
    ghost use Rattle.bbm_session.specs.Readers.{Follows};

    ghost Reached = { Reached };

    ghost Said = { RunSays };

    ghost stands = { λ following. Follows following.steps.items };

    fn take(&mut self, number: u64, header: &Header, line: &[u8], stop: &mut Stop) -> Option<Turn> {
        follow_line(number, &mut self.steps, header, line, stop)
    }

    fn take_ahead(&mut self, _number: u64, _header: &Header, _bytes: &[u8]) -> Option<usize> {
        None
    }
}

/// Reads a run, follows it, and writes its text. The whole text is read before a step that is none is named.
pub fn follow<S: Source, K: Sink>(alloc: Global, log: &mut S, out: &mut K) -> Status
    ensures follows { FollowsRun result (streams_of S.left S.faults log.old log.new K.held K.faults out.old out.new) }
    ensures shrinks { Shrinks (201 * (MAX_LINES + 3)) (S.left log.old) (S.left log.new) }
{
    let mut lines = Lines::new();
    match header_line::<Following, S>(&mut lines, log) {
        Ok(header) => {
            let mut following = Following {
                steps: Vec::new(alloc),
            };
            match read_log(&header, &mut following, &mut lines, log) {
                Ok(()) => report_run(follow_run(alloc, &header, &following.steps), out),
                Err(stop) => report_stop(stop, out),
            }
        }
        Err(stop) => report_stop(stop, out),
    }
}
