//! The first plan, key by key.

ghost use Rattle.std.specs.Prelude.{◌≡◌, ◌<◌, ◌≤◌, length, reverse, IfOk};
ghost use Rattle.bbm_counterrun.specs.TlbiAnswers.{IsAnswers};
ghost use Rattle.bbm_counterrun.specs.Searching as spec;
ghost use Rattle.bbm_events.specs.declared.event.Event.TheVariants.{Write};

use crate::read::Read;
use crate::reads::least_reads;
use crate::search::{Choice, Found, Search};
use crate::trying::first_number;
use bbm_regimes::{NoMemory, Pe};

/// What is found with these reads.
fn found_by(starts: usize, pe: Pe, reads: Vec<Read>, best: Option<Choice>) -> Option<Found>
    ensures { result ≡ spec.found_by starts pe reads.items best }
{
    match best {
        Some(choice) => Some(Found {
            starts: starts as u64,
            pe,
            choice,
            reads,
        }),
        None => None,
    }
}

/// What is found at one start and PE. `NoMemory` where there is none.
#[tactic(auto, using(crate::proofs::FoundSteps::at_pe))]
fn try_pe(search: &Search, starts: usize, pe: Pe) -> Result<Option<Found>, NoMemory>
    requires some { 0 < starts }
    requires within { starts ≤ length search.now.events.now }
    requires answers { IsAnswers search.now.header.now (reverse search.now.events.now) search.now.answers.now }
    ensures { IfOk result (λ found. spec.FindsAt search.now.header.now (reverse search.now.events.now)
        (Write 0 search.now.place search.now.value) search.now.kind search.now.way.now starts pe found) }
{
    let events = &search.events[..starts];
    match least_reads(search.alloc, search.header, events, pe, search.way)? {
        Some(reads) => {
            let best = first_number(search, starts, pe, &reads)?;
            Ok(found_by(starts, pe, reads, best))
        }
        None => Ok(None),
    }
}

/// What is found at the first PE of one start. `NoMemory` where there is none.
fn try_start(search: &Search, starts: usize) -> Result<Option<Found>, NoMemory>
    requires some { 0 < starts }
    requires within { starts ≤ length search.now.events.now }
    requires answers { IsAnswers search.now.header.now (reverse search.now.events.now) search.now.answers.now }
    ensures { IfOk result (λ found. spec.FindsFrom search.now.header.now (reverse search.now.events.now)
        (Write 0 search.now.place search.now.value) search.now.kind search.now.way.now starts
        search.now.header.now.pes found) }
{
    let header = search.header;
    for number in 0..header.pes {
        let pe = Pe::new(number).unwrap();
        match try_pe(search, starts, pe)? {
            Some(found) => return Ok(Some(found)),
            None => {}
        }
    }
    Ok(None)
}

/// What is found at the first start. `NoMemory` where there is none.
pub fn first_found(search: &Search) -> Result<Option<Found>, NoMemory>
    requires answers { IsAnswers search.now.header.now (reverse search.now.events.now) search.now.answers.now }
    ensures { IfOk result (λ found. spec.FindsAll search.now.header.now (reverse search.now.events.now)
        (Write 0 search.now.place search.now.value) search.now.kind search.now.way.now
        search.now.header.now.pes found) }
{
    for before in 0..search.events.len() {
        match try_start(search, before + 1)? {
            Some(found) => return Ok(Some(found)),
            None => {}
        }
    }
    Ok(None)
}
