//! The log as a history, and the judge over it.

use crate::events::{BELOW, BLOCK, HEADER, MOVED, PLACE, ROOT, TABLE, TABLE_PLACE, events, write};
use bbm_events::{Event, Header, fits};
use bbm_judge::{admit, check_limit, count_restless, judge};
use bbm_oracle_patterns::{
    Kept, TreePlace, cleansed_everywhere, held, last_valid, phase_in, trace_of,
};
use bbm_oracle_tags::AllPatterns;
use bbm_regimes::{Kind, Level, Page, Pe, Place, Tag};
use bbm_rules::{Phase, Rule, StepFault};
use bbm_tlbi_scope::{Cover, TagSet};
use std::alloc::Global;

/// A history by every pattern of events.
pub type History = bbm_oracle_trees::History<AllPatterns>;

/// Takes the event; false where it doesn't fit, or there is no memory.
fn takes(history: &mut History, alloc: Global, event: &Event) -> bool {
    fits(history.header(), *event) && history.take(alloc, *event).is_ok()
}

/// The history of these events under the header; None where one isn't taken.
pub fn history_of(alloc: Global, header: &Header, events: &[Event]) -> Option<History> {
    let mut history = History::new(alloc, header, AllPatterns);
    for event in events {
        if !takes(&mut history, alloc, event) {
            return None;
        }
    }
    Some(history)
}

/// Whether the two pages are in the tree, the second below the first and without a held value.
fn has_trees(alloc: Global, history: &History) -> Option<bool> {
    let place = Place::new(TABLE_PLACE)?;
    let root = history.node_of(Page::new(ROOT)?)?;
    let below = history.node_of(Page::new(BELOW)?)?;
    let childless = history.is_childless(alloc, root, TABLE).ok()?;
    let region = root.region(place);
    let in_tree = below.level == Level::TWO && below.base == region.lo && !history.in_limbo(below);
    let known = history.tree().len() == 2 && !history.is_fresh(below.page);
    Some(in_tree && known && childless && history.held_at(root, place) == Some(TABLE))
}

/// Whether the root holds the tag of its regime at PE 0, which has loaded it, and not at PE 1.
fn has_tags(alloc: Global, history: &History) -> Option<bool> {
    let root = Page::new(ROOT)?;
    let first = history.holds_at(alloc, Pe::new(0)?, root, Tag::El2).ok()?;
    let second = history.holds_at(alloc, Pe::new(1)?, root, Tag::El2).ok()?;
    let tags = history.tag_set_of(alloc, root).ok()?;
    Some(first && !second && tags == TagSet::One(Tag::El2))
}

/// Whether the notes tell that the block's place is cleansed at each PE.
fn is_cleansed(log: &[Kept]) -> Option<bool> {
    let place = Place::new(PLACE)?;
    if log.len() != 11 {
        return None;
    }
    let write = last_valid(log, Kind::El2, Level::ONE, place)?;
    let cleansed = trace_of(&HEADER, &log[7..], place)
        .cleansed
        .has(Pe::new(1)?);
    let everywhere = cleansed_everywhere(&HEADER, &log[7..], place);
    let covered = log[9].cover(place) == Cover::Full;
    Some(write.value == BLOCK && write.index == 6 && covered && cleansed && everywhere)
}

/// What is said of the block's place: what it holds, its phase at PE 1, by the notes and by the history, and how many
/// places are restless.
type Said = (Option<u64>, Phase, Phase, u64);

fn said(history: &History) -> Option<Said> {
    let place = Place::new(PLACE)?;
    let pe = Pe::new(1)?;
    let log = history.log();
    let seat = TreePlace {
        place,
        kind: Kind::El2,
        level: Level::ONE,
    };
    Some((
        held(&AllPatterns, &HEADER, log, &seat, false),
        phase_in(&AllPatterns, &HEADER, log, &seat, false, 0, pe),
        history.phase(place, pe),
        count_restless(history),
    ))
}

/// What is said of another block there: by the rules alone, by the limits, and by both.
type Judged = (
    Result<(), StepFault>,
    Result<(), StepFault>,
    Result<(), StepFault>,
);

fn judged(alloc: Global, history: &History) -> Option<Judged> {
    let event = write(PLACE, MOVED)?;
    if !fits(history.header(), event) {
        return None;
    }
    Some((
        judge(alloc, history, &event),
        check_limit(alloc, history, &event),
        admit(alloc, history, &event),
    ))
}

/// What the whole log tells.
fn is_flushed(alloc: Global, history: &History) -> bool {
    has_trees(alloc, history) == Some(true)
        && has_tags(alloc, history) == Some(true)
        && is_cleansed(history.log()) == Some(true)
        && said(history) == Some((None, Phase::Clean, Phase::Clean, 0))
        && judged(alloc, history) == Some((Ok(()), Ok(()), Ok(())))
}

/// What it tells before its last event, which answers the flush.
fn is_seen(alloc: Global, history: &History) -> bool {
    let broken = Err(StepFault::Broken(Rule::BreakBeforeMake, PLACE));
    said(history) == Some((Some(BLOCK), Phase::Seen, Phase::Seen, 1))
        && judged(alloc, history) == Some((broken, Ok(()), broken))
}

fn tells_all(alloc: Global, events: &[Event]) -> bool {
    match history_of(alloc, &HEADER, events) {
        Some(history) => is_flushed(alloc, &history),
        None => false,
    }
}

fn tells_before(alloc: Global, events: &[Event]) -> bool {
    match history_of(alloc, &HEADER, events) {
        Some(history) => is_seen(alloc, &history),
        None => false,
    }
}

#[test]
fn a_history_tells_what_was_worked_out(rt: HostRuntime) {
    let all = events().expect(&rt, "events");
    assert!(rt; tells_all(rt.alloc(), &all));
    assert!(rt; tells_before(rt.alloc(), &all[..10]));
}
