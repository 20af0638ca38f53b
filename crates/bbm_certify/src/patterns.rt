//! The least pattern of events by which a DSB cleanses a place at a PE.
//!
//! Events are oldest first here, those after the last valid write of the place and before the DSB. The least publication
//! serves every pattern that has one, so it is sought alone; behind it the first TLBI that covers the place in full and
//! waits for the DSB; and where there is none, the first TLBI that covers it half and is answered before one that covers
//! the rest and waits for the DSB. Source: project's own choice.

ghost use Rattle.std.specs.Prelude.{◌≡◌, ◌<◌, ◌+◌, ◌^◌, ℕ, length};
ghost use Rattle.bbm_tlbi_scope.specs.declared.entry.Cover.TheVariants.{Half as HalfCover, Full as FullCover};
ghost use Rattle.bbm_certify.specs.Making as spec;

use crate::steps::{Spot, answers, finishes, flushes, publishes};
use bbm_events::{Claim, Event, Header};
use bbm_oracle_patterns::Kept;
use bbm_regimes::Place;
use bbm_tlbi_scope::Cover;

/// The second part of two steps: how many events stand between the first TLBI and its answer, and how many between that
/// and the second TLBI.
#[derive(Clone, Copy)]
pub struct Ends {
    /// How many stand between the first TLBI and its answer.
    pub wait: usize,
    /// How many stand between that answer and the second TLBI.
    pub gap: usize,
}

/// Two steps behind a publication: the index of the first TLBI, and what comes behind it.
#[derive(Clone, Copy)]
pub struct Halves {
    /// The index of the first TLBI.
    pub t: usize,
    /// What comes behind it.
    pub ends: Ends,
}

/// The indexes of the events of a pattern but the DSB at its end.
#[derive(Clone, Copy)]
pub enum Pattern {
    /// One step.
    One {
        /// The index of the publication.
        b: usize,
        /// The index of the TLBI.
        t: usize,
    },
    /// Two steps.
    Two {
        /// The index of the publication.
        b: usize,
        /// The TLBIs and the first answer.
        halves: Halves,
    },
}

/// The index of the first event that publishes a write of the place to the PE; None where none does.
fn first_publication(header: &Header, log: &[Kept], spot: &Spot) -> Option<usize>
    ensures { spec.IsFirst (spec.publishing header.now spot.now.place spot.now.pe) 0 log.now result }
{
    for i in 0..log.len() {
        if publishes(header, &log[i].event, &log[..i], spot) {
            return Some(i);
        }
    }
    None
}

/// The index of the first TLBI that covers the place in full, or the rest of it, and that the event, which comes behind
/// the log, answers, whatever PEs it reaches; None where there is none, and then the event cleanses the place at no PE.
pub fn first_finishing(log: &[Kept], answer: &Event, place: Place) -> Option<usize>
    ensures { spec.IsFirst (spec.finishing place answer.now) 0 log.now result }
{
    for i in 0..log.len() {
        if finishes(&log[i], &log[i + 1..], answer, place) {
            return Some(i);
        }
    }
    None
}

/// The first index, from this one on, of a TLBI that reaches the PE and covers the place so far, and that the event,
/// which comes behind the log, answers; None where there is none.
fn first_waiting(
    header: &Header,
    log: &[Kept],
    answer: &Event,
    cover: Cover,
    spot: &Spot,
    from: usize,
) -> Option<usize>
    ensures { spec.IsFirst (spec.waiting header.now spot.now.place spot.now.pe cover answer.now) from log.now result }
{
    for i in from..log.len() {
        if answers(header, &log[i], &log[i + 1..], answer, cover, spot) {
            return Some(i);
        }
    }
    None
}

/// The first index among the later events of a DSB that answers the TLBI, where this covers the place half and reaches
/// the PE; None where there is none.
fn answer_of(header: &Header, tlbi: &Kept, later: &[Kept], spot: &Spot) -> Option<usize>
    ensures { spec.IsFirst (spec.answering header.now spot.now.place spot.now.pe tlbi.now) 0 later.now result }
{
    let cover = Cover::Half;
    if !flushes(header, tlbi, cover, spot) {
        return None;
    }
    for i in 0..later.len() {
        if answers(header, tlbi, &later[..i], &later[i].event, cover, spot) {
            return Some(i);
        }
    }
    None
}

/// How the TLBI begins two steps, with these events behind it and then the DSB; None where it begins none.
fn ends_of(
    header: &Header,
    tlbi: &Kept,
    later: &[Kept],
    answer: &Event,
    spot: &Spot,
) -> Option<Ends>
    ensures { spec.AreEnds header.now spot.now.place spot.now.pe answer.now tlbi.now later.now result }
{
    match answer_of(header, tlbi, later, spot) {
        Some(wait) => {
            let cover = Cover::Second;
            match first_waiting(header, &later[wait + 1..], answer, cover, spot, 0) {
                Some(gap) => Some(Ends { wait, gap }),
                None => None,
            }
        }
        None => None,
    }
}

/// The first two steps whose first TLBI has an index from this one on; None where there are none.
fn first_halves(
    header: &Header,
    log: &[Kept],
    answer: &Event,
    spot: &Spot,
    from: usize,
) -> Option<Halves>
    ensures { spec.AreHalves header.now spot.now.place spot.now.pe answer.now from log.now result }
{
    for t in from..log.len() {
        match ends_of(header, &log[t], &log[t + 1..], answer, spot) {
            Some(ends) => return Some(Halves { t, ends }),
            None => {}
        }
    }
    None
}

/// The least pattern behind the publication of this index, the first; None where there is none.
fn pattern_behind(
    header: &Header,
    log: &[Kept],
    answer: &Event,
    spot: &Spot,
    b: usize,
) -> Option<Pattern>
    requires { b < length log.now }
    ensures { spec.IsPatternBehind header.now spot.now.place spot.now.pe answer.now log.now b result }
{
    let cover = Cover::Full;
    match first_waiting(header, log, answer, cover, spot, b + 1) {
        Some(t) => Some(Pattern::One { b, t }),
        None => match first_halves(header, log, answer, spot, b + 1) {
            Some(halves) => Some(Pattern::Two { b, halves }),
            None => None,
        },
    }
}

/// The least pattern by which the event, which comes behind the log, cleanses the place at the PE; None where it answers
/// none. The log begins behind the last valid write of the place.
pub fn least_pattern(header: &Header, log: &[Kept], answer: &Event, spot: &Spot) -> Option<Pattern>
    ensures { spec.IsPattern header.now spot.now.place spot.now.pe answer.now log.now result }
{
    match first_publication(header, log, spot) {
        Some(b) => pattern_behind(header, log, answer, spot, b),
        None => None,
    }
}

/// The claim with the positions of the pattern, where so many events are in the log.
pub fn claim_of(pattern: &Pattern, spot: &Spot, count: usize) -> Claim
    requires inside { spec.IsInside count pattern.now }
    requires fits { spot.now.before + count + 1 < 2 ^ 32 }
    ensures { result ≡ spec.claim_of spot.now.pe spot.now.place spot.now.before count pattern.now }
{
    let before = spot.before;
    let pe = spot.pe;
    let place = spot.place;
    let end = (before + count + 1) as u32;
    match *pattern {
        Pattern::One { b, t } => Claim::Place {
            pe,
            place,
            b: (before + b + 1) as u32,
            t: (before + t + 1) as u32,
            d: end,
        },
        Pattern::Two { b, halves } => {
            let t1 = before + halves.t + 1;
            let d1 = t1 + halves.ends.wait + 1;
            let t2 = d1 + halves.ends.gap + 1;
            Claim::Two {
                pe,
                place,
                b: (before + b + 1) as u32,
                t1: t1 as u32,
                d1: d1 as u32,
                t2: t2 as u32,
                d2: end,
            }
        }
    }
}
