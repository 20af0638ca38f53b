//! The judgement on a log by claims alone.

ghost use Rattle.std.specs.Prelude.{◌≡◌, ◌<◌, ◌^◌, List, length, true, reverse, All, IfOk};
ghost use Rattle.bbm_events.specs.declared.event.Event.{Event as TheEvent};
ghost use Rattle.bbm_events.specs.Fits.{fits_heading};
ghost use Rattle.bbm_events.specs.Heading.{Heading};
ghost use Rattle.bbm_rules.specs.Broken.{broken};
ghost use Rattle.bbm_oracle_trees.specs.HistoryStandsFor.{StandsFor};
ghost use Rattle.bbm_cert.specs.Judged.{judged, judges_as};

use crate::judged::Judged;
use bbm_claims::ByClaims;
use bbm_events::{Claim, Event, Header};
use bbm_judge::judge;
use bbm_oracle_trees::History;
use bbm_regimes::NoMemory;
use bbm_rules::StepFault;
use std::alloc::Global;

/// Judges the next event of a log whose events so far keep the rules by the claims: Yes where it keeps them too.
fn judge_next(
    alloc: Global,
    history: &History<ByClaims<'_>>,
    event: &Event,
    position: u32,
) -> Result<Judged, NoMemory>
    requires { fits_heading history.now.heading event.now ≡ true }
    ensures { (heading : Heading) (h : List TheEvent) → StandsFor history.now heading h
        → IfOk result (λ judged. judged ≡ judges_as position (broken heading history.now.trust h event.now)) }
{
    match judge(alloc, history, event) {
        Ok(()) => Ok(Judged::Yes),
        Err(StepFault::Broken(rule, at)) => Ok(Judged::No { position, rule, at }),
        Err(_) => Err(NoMemory),
    }
}

/// Judges a log by a list of claims alone: Yes where each of its events keeps the rules by them; else No with the
/// position of the first event that breaks one, counted from 1, the least rule that it breaks, and the address or
/// number that is reported with it. A claim that isn't true of the log counts for nothing. There are no limits but the
/// number of events, and no checker is asked. `NoMemory` where there is none.
pub fn verify(
    alloc: Global,
    header: &Header,
    log: &Vec<Event>,
    claims: &Vec<Claim>,
) -> Result<Judged, NoMemory>
    requires fits { All (λ e. fits_heading header.now e ≡ true) log.now.items }
    requires few { length log.now.items < 2 ^ 32 }
    ensures { IfOk result (λ said. said ≡ judged header.now claims.now.items (reverse log.now.items)) }
{
    let evidence = ByClaims::new(alloc, claims.as_slice());
    let mut history = History::new(alloc, header, evidence);
    for (i, event) in log.iter().enumerate() {
        match judge_next(alloc, &history, event, i as u32 + 1)? {
            Judged::Yes => history.take(alloc, *event)?,
            said => return Ok(said),
        }
    }
    Ok(Judged::Yes)
}
