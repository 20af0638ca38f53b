//! The VMIDs and ASIDs with which a plan is plain.

ghost use Rattle.std.specs.Prelude.{◌≡◌, ℕ, ◌<◌, ◌≤◌, ◌&&◌, not, ◌++◌, ◌∷◌, [], List, length, reverse, IfOk};
ghost use Rattle.bbm_counterrun.specs.TlbiAnswers.{IsAnswers};
ghost use Rattle.bbm_counterrun.specs.Searching as spec;
ghost use Rattle.bbm_events.specs.declared.event.Event.TheVariants.{Write};
ghost use Rattle.bbm_rules.specs.Lists.{any};
ghost use Rattle.bbm_tlb_machine.specs.Entry.{is_given_up as given_up, parts_of};
ghost use Rattle.bbm_tlb_machine.specs.Safe.{is_stale as is_stale_part};

use crate::combining::choose;
use crate::numbers::numbers_at;
use crate::read::Read;
use crate::search::{Choice, Search};
use crate::walk::walk;
use bbm_regimes::{NoMemory, Pe};
use bbm_tlb_machine::{Entry, is_given_up};

/// Whether the entry would conflict with the write, where it is kept till then.
fn is_stale(search: &Search, entry: &Entry) -> bool
    ensures { result ≡ (not (given_up search.now.header.now (reverse search.now.events.now) entry.now)
        && any (is_stale_part search.now.place search.now.value) (parts_of entry.now)) }
{
    !is_given_up(search.header, search.events, entry) && entry.is_stale(search.place, search.value)
}

/// How a walk over these reads conflicts with the write: as it is, or combined as early as it can be. None where it
/// doesn't. The walk is made when so many events were taken. `NoMemory` where there is none.
#[tactic(auto, using(crate::proofs::SearchPlain::tries))]
pub fn try_number(
    search: &Search,
    starts: usize,
    pe: Pe,
    number: u16,
    reads: &[Read],
) -> Result<Option<Option<u64>>, NoMemory>
    requires some { 0 < starts }
    requires within { starts ≤ length search.now.events.now }
    requires answers { IsAnswers search.now.header.now (reverse search.now.events.now) search.now.answers.now }
    ensures { IfOk result (λ found. spec.FirstCombine
        (spec.plain_by search.now.header.now (reverse search.now.events.now)
        (Write 0 search.now.place search.now.value) search.now.kind starts pe reads.now number) found) }
{
    match walk(search, starts, pe, number, reads)? {
        Some(entry) => {
            if is_stale(search, &entry) {
                let found = choose(search, &entry, starts as u64)?;
                Ok(found)
            } else {
                Ok(None)
            }
        }
        None => Ok(None),
    }
}

/// Whether the number isn't less than that of the best choice so far.
fn is_behind(best: &Option<Choice>, number: u16) -> bool
    ensures { result ≡ spec.is_behind best.now number }
{
    match best {
        Some(choice) => choice.number <= number,
        None => false,
    }
}

/// The best choice, or one of this number where a combine was found for it.
fn better(best: Option<Choice>, number: u16, found: Option<Option<u64>>) -> Option<Choice>
    ensures { result ≡ spec.better best number found }
{
    match found {
        Some(combines) => Some(Choice { number, combines }),
        None => best,
    }
}

/// The best choice so far after a try of one number more.
#[tactic(auto, using(crate::proofs::ChoiceSteps::betters))]
fn try_next(
    search: &Search,
    starts: usize,
    pe: Pe,
    reads: &[Read],
    number: u16,
    best: Option<Choice>,
) -> Result<Option<Choice>, NoMemory>
    requires some { 0 < starts }
    requires within { starts ≤ length search.now.events.now }
    requires answers { IsAnswers search.now.header.now (reverse search.now.events.now) search.now.answers.now }
    ensures { IfOk result (λ after. (numbers : List ℕ)
        → spec.BestAmong (spec.plain_by search.now.header.now (reverse search.now.events.now)
        (Write 0 search.now.place search.now.value) search.now.kind starts pe reads.now) numbers best
        → spec.BestAmong (spec.plain_by search.now.header.now (reverse search.now.events.now)
        (Write 0 search.now.place search.now.value) search.now.kind starts pe reads.now)
        (numbers ++ number ∷ []) after) }
{
    if is_behind(&best, number) {
        return Ok(best);
    }
    let found = try_number(search, starts, pe, number, reads)?;
    Ok(better(best, number, found))
}

/// The choice with the least of these numbers. `NoMemory` where there is none.
#[tactic(auto, using(crate::proofs::ChoiceSteps::numbers))]
fn try_numbers(
    search: &Search,
    starts: usize,
    pe: Pe,
    reads: &[Read],
    numbers: &[u16],
) -> Result<Option<Choice>, NoMemory>
    requires some { 0 < starts }
    requires within { starts ≤ length search.now.events.now }
    requires answers { IsAnswers search.now.header.now (reverse search.now.events.now) search.now.answers.now }
    ensures { IfOk result (λ best. spec.BestAmong (spec.plain_by search.now.header.now (reverse search.now.events.now)
        (Write 0 search.now.place search.now.value) search.now.kind starts pe reads.now) numbers.now best) }
{
    let mut best = None;
    for number in numbers {
        best = try_next(search, starts, pe, reads, *number, best)?;
    }
    Ok(best)
}

/// The choice with the least number of these reads. `NoMemory` where there is none.
#[tactic(auto, using(crate::proofs::ChoiceSteps::all_numbers))]
pub fn first_number(
    search: &Search,
    starts: usize,
    pe: Pe,
    reads: &[Read],
) -> Result<Option<Choice>, NoMemory>
    requires some { 0 < starts }
    requires within { starts ≤ length search.now.events.now }
    requires answers { IsAnswers search.now.header.now (reverse search.now.events.now) search.now.answers.now }
    ensures { IfOk result (λ best. spec.FindsNumber (spec.plain_by search.now.header.now (reverse search.now.events.now)
        (Write 0 search.now.place search.now.value) search.now.kind starts pe reads.now) best) }
{
    let numbers = numbers_at(
        search.alloc,
        search.header,
        &search.events[..starts],
        pe,
        search.kind,
    )?;
    let best = try_numbers(search, starts, pe, reads, &numbers)?;
    Ok(best)
}
