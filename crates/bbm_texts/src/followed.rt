//! The line on a run that was followed.
//! Source: project's own choice, where no other is named.

ghost use Rattle.std.specs.Prelude.{◌≡◌};
ghost use Rattle.bbm_follow.specs.Following as following_of;
ghost use Rattle.bbm_texts.specs.Statuses.{followed_status};
ghost use Rattle.bbm_texts.specs.Writing.{ReportsRun, Wrote};

use crate::answering::settled;
use crate::status::Status;
use crate::telling::tell;
use arrayvec::ArrayVec;
use bbm_follow::{Followed, followed_text};
use bbm_io::Sink;
use bbm_regimes::NoMemory;

/// The status of a run that was read whole.
fn run_status(told: &Followed) -> Status
    ensures { result ≡ followed_status told.now }
{
    match *told {
        Followed::Run { .. } => Status::Accepted,
        Followed::BadStep { .. } => Status::Refused,
    }
}

/// Writes what comes of a run that was read whole.
fn tell_run<K: Sink>(told: Followed, out: &mut K) -> Status
    ensures wrote { Wrote (followed_status told) (following_of.followed_text told) result
        (K.held out.old) (K.held out.new) (K.faults out.old) (K.faults out.new) }
{
    let mut text = ArrayVec::new();
    followed_text(told, &mut text);
    settled(tell(&text, out), run_status(&told))
}

/// Says what comes of a run that was read whole, if there was memory to follow it: else nothing is written, and the
/// status is `NoMemory`. `Accepted` where every step is made, `Refused` where one is none; `WriteFault` where the write
/// failed.
pub fn report_run<K: Sink>(told: Result<Followed, NoMemory>, out: &mut K) -> Status
    ensures reports { ReportsRun told result (K.held out.old) (K.held out.new) (K.faults out.old) (K.faults out.new) }
{
    match told {
        Ok(followed) => tell_run(followed, out),
        Err(_) => Status::NoMemory,
    }
}
