//! The run of the first plain conflict run.

ghost use Rattle.std.specs.Prelude.{◌≡◌, ℕ, ◌<◌, ◌∷◌, true, false, List, None, is_some, reverse, option_map};
ghost use Rattle.std.specs.Prelude.{All, IfOk, IfSome};
ghost use Rattle.bbm_counterrun.specs.TlbiAnswers.{IsAnswers};
ghost use Rattle.bbm_counterrun.specs.Plans.{Finds};
ghost use Rattle.bbm_counterrun.specs.RefusedWrite as spec;
ghost use Rattle.bbm_counterrun.specs.Searching.{FindsRun};
ghost use Rattle.bbm_events.specs.declared.event.Event.{Event as TheEvent};
ghost use Rattle.bbm_events.specs.declared.event.Event.TheVariants.{Write};
ghost use Rattle.bbm_events.specs.Fits.{fits_heading};
ghost use Rattle.bbm_events.specs.Heading.{heading_ok};
ghost use Rattle.bbm_oracle_trees.specs.Past.{notes};
ghost use Rattle.bbm_oracle_trees.specs.HistoryStandsFor.{StandsFor};
ghost use Rattle.bbm_rules.specs.Claims.{Patterns};
ghost use Rattle.bbm_rules.specs.Places.{page_of};
ghost use Rattle.bbm_rules.specs.Roots.{start_of};
ghost use Rattle.bbm_rules.specs.Tree as trees;

use crate::answers::answers_of;
use crate::finding::first_found;
use crate::laws::law_plain_is_tested;
use crate::leaf::{history_of, is_leaf_at};
use crate::least_list::law_least_reads;
use crate::runs::run_of;
use crate::search::Search;
use crate::way::way_to;
use bbm_events::{Event, Header};
use bbm_histories::law_proper;
use bbm_oracle_tags::AllPatterns;
use bbm_oracle_trees::History;
use bbm_regimes::{Kind, NoMemory, Place};
use bbm_tlb_machine::Step;
use std::alloc::Global;

/// A write that ends a log, with the log.
#[derive(Clone, Copy)]
struct LastWrite<'a> {
    /// The log.
    log: &'a [Event],
    /// The events before the write.
    before: &'a [Event],
    /// The place.
    place: Place,
    /// The value that is written.
    value: u64,
}

/// The kind of the tree of the place, None where it is in no tree.
fn kind_at(history: &History<AllPatterns>, place: Place) -> Option<Kind>
    ensures { result ≡ option_map (λ n. n.kind)
        (trees.node_of history.now.heading history.now.trust (notes history.now) (page_of place)) }
{
    match history.node_of(place.page()) {
        Some(node) => Some(node.kind),
        None => None,
    }
}

/// The run over the log of what a search finds, None where that is nothing. `NoMemory` where there is none.
fn run_found(search: &Search, log: &[Event]) -> Result<Option<Vec<Step>>, NoMemory>
    requires proper { start_of search.now.header.now.world search.now.kind < 4 }
    requires answers { IsAnswers search.now.header.now (reverse search.now.events.now) search.now.answers.now }
    ensures { IfOk result (λ found. FindsRun search.now.header.now (reverse search.now.events.now)
        (Write 0 search.now.place search.now.value) search.now.kind search.now.way.now log.now
        (option_map (λ v. v.items) found)) }
{
    match first_found(search)? {
        Some(found) => {
            let steps = run_of(search.alloc, search.kind, &found, log)?;
            Ok(Some(steps))
        }
        None => Ok(None),
    }
}

/// The header is one that can be said: what its number of PEs is.
fn said(header: &Header) -> u8
    ensures { heading_ok header.now ≡ true }
{
    header.pes
}

/// The run over the log of the first plain conflict run at the write, where the history stands for the events before
/// it; None where there is none. `NoMemory` where there is no memory.
fn find_at(
    alloc: Global,
    header: &Header,
    history: &History<AllPatterns>,
    write: &LastWrite,
) -> Result<Option<Vec<Step>>, NoMemory>
    requires fits { All (λ event. fits_heading header.now event ≡ true) write.now.before.now }
    requires trust { history.now.trust ≡ Patterns }
    requires stands { StandsFor history.now header.now (reverse write.now.before.now) }
    ensures { let h = reverse write.now.before.now in
        IfOk result (λ found. (pe : ℕ) → reverse write.now.log.now ≡ Write pe write.now.place write.now.value ∷ h
        → spec.IsRefused header.now h pe write.now.place write.now.value
        → spec.holds_leaf header.now h write.now.place ≡ true
        → Finds header.now h (Write pe write.now.place write.now.value) (option_map (λ v. v.items) found)) }
{
    law_plain_is_tested();
    law_least_reads();
    law_proper();
    said(header);
    let (before, place) = (write.before, write.place);
    match kind_at(history, place) {
        Some(kind) => {
            let answers = answers_of(alloc, header, before)?;
            let way = way_to(alloc, history, place)?;
            let search = Search {
                alloc,
                header,
                events: before,
                answers: &answers,
                way: &way,
                kind,
                place,
                value: write.value,
            };
            let found = run_found(&search, write.log)?;
            Ok(found)
        }
        None => Ok(None),
    }
}

/// The first plain conflict run of a write. The inner None where no conflict run is plain, the outer one where the place
/// holds no leaf after the events. `NoMemory` where there is no memory.
fn find_leaf(
    alloc: Global,
    header: &Header,
    write: &LastWrite,
) -> Result<Option<Option<Vec<Step>>>, NoMemory>
    requires fits { All (λ event. fits_heading header.now event ≡ true) write.now.before.now }
    ensures leaf { IfOk result (λ found. is_some found
        ≡ spec.holds_leaf header.now (reverse write.now.before.now) write.now.place) }
    ensures finds { let h = reverse write.now.before.now in IfOk result (λ found. IfSome found (λ run. (pe : ℕ)
        → reverse write.now.log.now ≡ Write pe write.now.place write.now.value ∷ h
        → spec.IsRefused header.now h pe write.now.place write.now.value
        → spec.holds_leaf header.now h write.now.place ≡ true
        → Finds header.now h (Write pe write.now.place write.now.value) (option_map (λ v. v.items) run))) }
{
    let history = history_of(alloc, header, write.before)?;
    if is_leaf_at(&history, write.place) {
        let found = find_at(alloc, header, &history, write)?;
        Ok(Some(found))
    } else {
        Ok(None)
    }
}

/// The run of the first plain conflict run at the last event of a log, where that is a write which the rule of
/// break-before-make refuses at a place that holds a leaf, after events that keep the rules: the steps, the oldest
/// first, with that write as the last one. The inner None exactly where no conflict run is plain, the outer one exactly
/// where the last event is no write at a place that holds a leaf before it. First is the run with the fewest events
/// before its start; then that of the least PE; then of the least VMID or ASID; then that with the least list of pairs
/// of place and value that it reads; then the one without a combine; then that with the fewest events before its
/// combine. `NoMemory` where there is none.
pub fn find_over_leaf(
    alloc: Global,
    header: &Header,
    log: &Vec<Event>,
) -> Result<Option<Option<Vec<Step>>>, NoMemory>
    requires fits { All (λ event. fits_heading header.now event ≡ true) log.now.items }
    ensures leaf { IfOk result (λ found. is_some found ≡ spec.ends_at_leaf header.now (reverse log.now.items)) }
    ensures finds { IfOk result (λ found. IfSome found (λ run. (h : List TheEvent) (pe place value : ℕ)
        → reverse log.now.items ≡ Write pe place value ∷ h
        → spec.IsRefused header.now h pe place value → spec.holds_leaf header.now h place ≡ true
        → Finds header.now h (Write pe place value) (option_map (λ v. v.items) run))) }
{
    let events = log.as_slice();
    let [before @ .., last] = events else {
        return Ok(None);
    };
    match *last {
        Event::Write { place, value, .. } => {
            let write = LastWrite {
                log: events,
                before,
                place,
                value,
            };
            let found = find_leaf(alloc, header, &write)?;
            Ok(found)
        }
        _ => Ok(None),
    }
}

/// The first plain conflict run of the last event of a log, where that is a write which the rule of break-before-make
/// refuses at a place that holds a leaf, after events that keep the rules; None where there is none. None also where the
/// last event is no write at a place that holds a leaf before it. `NoMemory` where there is no memory.
pub fn find(alloc: Global, header: &Header, log: &Vec<Event>) -> Result<Option<Vec<Step>>, NoMemory>
    requires fits { All (λ event. fits_heading header.now event ≡ true) log.now.items }
    ensures no_leaf { IfOk result (λ found. spec.ends_at_leaf header.now (reverse log.now.items) ≡ false
        → found ≡ None) }
    ensures finds { IfOk result (λ found. (h : List TheEvent) (pe place value : ℕ)
        → reverse log.now.items ≡ Write pe place value ∷ h
        → spec.IsRefused header.now h pe place value → spec.holds_leaf header.now h place ≡ true
        → Finds header.now h (Write pe place value) (option_map (λ v. v.items) found)) }
{
    match find_over_leaf(alloc, header, log)? {
        Some(found) => Ok(found),
        None => Ok(None),
    }
}
