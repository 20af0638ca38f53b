//! The line on a log that was judged by its certificate.
//! Source: project's own choice, where no other is named.

ghost use Rattle.std.specs.Prelude.{◌≡◌, length};
ghost use Rattle.bbm_texts.specs.Says.{judged_text};
ghost use Rattle.bbm_texts.specs.Statuses.{judged_status as status_of_judged};
ghost use Rattle.bbm_texts.specs.Writing.{ReportsJudged, Wrote};

use crate::answering::settled;
use crate::status::Status;
use crate::telling::tell;
use arrayvec::ArrayVec;
use bbm_cert::Judged;
use bbm_certificate::Kept;
use bbm_io::Sink;
use bbm_regimes::NoMemory;
use bbm_report::{unverified_text, verified_text};

/// The status of a log that was judged by its certificate.
fn judged_status(told: &Judged) -> Status
    ensures { result ≡ status_of_judged told.now }
{
    match *told {
        Judged::Yes => Status::Accepted,
        Judged::No { .. } => Status::Refused,
    }
}

/// Writes what was judged of a log with so many events by its certificate with so many claims.
fn tell_judged<K: Sink>(told: Judged, events: u64, claims: u64, out: &mut K) -> Status
    ensures wrote { Wrote (status_of_judged told) (judged_text events claims told) result
        (K.held out.old) (K.held out.new) (K.faults out.old) (K.faults out.new) }
{
    let mut text = ArrayVec::new();
    match told {
        Judged::Yes => verified_text(events, claims, &mut text),
        Judged::No { position, rule, at } => {
            unverified_text(u64::from(position) + 1, rule, at, &mut text)
        }
    }
    settled(tell(&text, out), judged_status(&told))
}

/// How many events are kept.
fn event_count(kept: &Kept) -> u64
    ensures { result ≡ length kept.now.events.items }
{
    kept.events.len() as u64
}

/// How many claims are kept.
fn claim_count(kept: &Kept) -> u64
    ensures { result ≡ length kept.now.claims.items }
{
    kept.claims.len() as u64
}

/// Says what was judged of a log by its certificate, which both are kept, if there was memory for it: else nothing is
/// written, and the status is `NoMemory`. `Accepted` where the log keeps the rules by the certificate, `Refused` where
/// it doesn't; `WriteFault` where the write failed.
pub fn report_judged<K: Sink>(told: Result<Judged, NoMemory>, kept: &Kept, out: &mut K) -> Status
    ensures reports { ReportsJudged (length kept.now.events.items) (length kept.now.claims.items) told result
        (K.held out.old) (K.held out.new) (K.faults out.old) (K.faults out.new) }
{
    match told {
        Ok(judged) => tell_judged(judged, event_count(kept), claim_count(kept), out),
        Err(_) => Status::NoMemory,
    }
}
