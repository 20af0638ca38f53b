//! Since when a claim of a place is true of a log.
//!
//! A claim names the events by their positions, so nothing is searched but the newest write that its first barrier
//! publishes. The claim is true of the events from an index on exactly where that write is one of them, so one number
//! says of which of them it is.

ghost use Rattle.std.specs.Prelude.{◌≡◌, ◌<◌, ◌≤◌, ◌⊎◌, ℕ, suc, None, List, take, length, reverse, IfSome};
ghost use Rattle.std.specs.Option.{option_map_or};
ghost use Rattle.bbm_rules.specs.Cleansing.{same_cover as are_same, writes as is_write};
ghost use Rattle.bbm_rules.specs.Lists.{any};
ghost use Rattle.bbm_rules.specs.Notes.{Noted};
ghost use Rattle.bbm_rules.specs.Prelude.{Dsb as TheDsb};
ghost use Rattle.bbm_rules.specs.Sentences.{completes_for as completes_it, issues as issues_it};
ghost use Rattle.bbm_oracle_patterns.specs.Kept.{notes_of};
ghost use Rattle.bbm_claims.specs.Marks as spec;
ghost use Rattle.bbm_claims.specs.Flushes.{is_flush_of, completed_by};

use bbm_barriers::Dsb;
use bbm_events::{Claim, Event, Header};
use bbm_oracle_patterns::Kept;
use bbm_oracle_tags::{completes, publishes_for, reaches};
use bbm_regimes::{Pe, Place};
use bbm_tlbi_scope::Cover;

/// What a TLBI at a position has to do: reach the PE, and cover the place so far.
#[derive(Drop)]
struct Flush {
    t: u32,
    cover: Cover,
    place: Place,
    pe: Pe,
}

/// The first of the two steps of a claim: the place, the PE, and the positions of its DSB, its TLBI and its answer.
#[derive(Drop)]
struct FirstStep {
    place: Place,
    pe: Pe,
    b: u32,
    t: u32,
    d: u32,
}

/// The index in the log of the event at the position, which counts from 1; None where the log has no such event.
pub fn index_of<T>(log: &[T], position: u32) -> Option<usize>
    ensures found { IfSome result (λ i. (i < length log.now) × (position ≡ suc i)) }
    ensures none { result ≡ None → (position ≡ 0) ⊎ (length log.now < position) }
{
    if position >= 1 && position as usize <= log.len() {
        Some(position as usize - 1)
    } else {
        None
    }
}

/// Whether the event is a write of the place by the PE.
pub fn writes(event: &Event, pe: Pe, place: Place) -> bool
    ensures { result ≡ is_write pe place event.now }
{
    match *event {
        Event::Write {
            pe: by,
            place: at,
            value: _,
        } => by == pe && at == place,
        _ => false,
    }
}

/// How many events of the log there are up to the newest write of the place by the PE; 0 where there is no such write.
fn last_write(log: &[Kept], pe: Pe, place: Place) -> usize
    ensures { result ≡ spec.wrote_mark place pe (notes_of (reverse log.now)) }
{
    let mut count = 0;
    for (i, kept) in log.iter().enumerate() {
        if writes(&kept.event, pe, place) {
            count = i + 1;
        }
    }
    count
}

/// How many events of the log there are up to the write of the place that the event, which comes behind these, publishes
/// to the PE; 0 where it publishes none.
fn published(header: &Header, event: &Event, before: &[Kept], place: Place, pe: Pe) -> usize
    ensures { result ≡ spec.publication_mark header.now place pe event.now (notes_of (reverse before.now)) }
{
    match *event {
        Event::Dsb { pe: issuer, dsb: _ } => {
            if publishes_for(header, issuer, pe, event) {
                last_write(before, issuer, place)
            } else {
                0
            }
        }
        _ => 0,
    }
}

/// How many events of the log there are up to the write of the place that the event at the position publishes to the PE;
/// 0 where it publishes none.
fn published_at(header: &Header, log: &[Kept], place: Place, pe: Pe, b: u32) -> usize
    ensures { result ≡ spec.seen_mark header.now place pe b (notes_of (reverse log.now)) }
{
    match index_of(log, b) {
        Some(i) => published(header, &log[i].event, &log[..i], place, pe),
        None => 0,
    }
}

/// Whether the covers are the same.
pub fn same_cover(cover: Cover, asked: Cover) -> bool
    ensures { result ≡ are_same cover asked }
{
    match (cover, asked) {
        (Cover::None, Cover::None)
        | (Cover::Half, Cover::Half)
        | (Cover::Second, Cover::Second)
        | (Cover::Full, Cover::Full) => true,
        _ => false,
    }
}

/// Whether the event is a TLBI of the issuer.
pub fn issues(event: &Event, issuer: Pe) -> bool
    ensures { result ≡ issues_it issuer event.now }
{
    match *event {
        Event::Tlbi { pe, op: _, xt: _ } => pe == issuer,
        _ => false,
    }
}

/// Whether the event is a TLBI of the issuer that this DSB of it completes, and does what it has to.
fn is_flush(header: &Header, kept: &Kept, issuer: Pe, dsb: Dsb, flush: &Flush) -> bool
    ensures { result ≡ is_flush_of header.now issuer dsb flush.now.cover flush.now.place flush.now.pe kept.now }
{
    issues(&kept.event, issuer)
        && completes(dsb, &kept.event)
        && reaches(header, &kept.event, flush.pe)
        && same_cover(kept.cover(flush.place), flush.cover)
}

/// Whether the event is a DSB of the issuer that completes this TLBI of it.
pub fn completes_for(event: &Event, issuer: Pe, tlbi: &Event) -> bool
    ensures { result ≡ completes_it issuer tlbi.now event.now }
{
    match *event {
        Event::Dsb { pe, dsb } => pe == issuer && completes(dsb, tlbi),
        _ => false,
    }
}

/// Whether one of the later events answers this TLBI of the issuer.
pub fn is_answered(later: &[Kept], issuer: Pe, tlbi: &Event) -> bool
    ensures { result ≡ any (completed_by issuer tlbi.now) later.now }
{
    for kept in later {
        if completes_for(&kept.event, issuer, tlbi) {
            return true;
        }
    }
    false
}

/// The index of the TLBI, where a DSB behind the log answers it and it does what it has to.
fn flush_before(header: &Header, log: &[Kept], issuer: Pe, dsb: Dsb, flush: &Flush) -> Option<usize>
    ensures marks { (mark : List Noted → ℕ)
        → spec.flush_mark header.now flush.now.place flush.now.pe flush.now.cover flush.now.t mark
        (TheDsb issuer dsb) (notes_of (reverse log.now))
        ≡ option_map_or (λ i. mark (notes_of (reverse (take i log.now)))) result 0 }
    ensures within { IfSome result (λ i. i ≤ length log.now) }
{
    match index_of(log, flush.t) {
        Some(i) => {
            if is_flush(header, &log[i], issuer, dsb, flush)
                && !is_answered(&log[i + 1..], issuer, &log[i].event)
            {
                Some(i)
            } else {
                None
            }
        }
        None => None,
    }
}

/// The index of the TLBI, where the event, which comes behind the log, answers it and it does what it has to.
fn flush_index(header: &Header, log: &[Kept], answer: &Event, flush: &Flush) -> Option<usize>
    ensures marks { (mark : List Noted → ℕ)
        → spec.flush_mark header.now flush.now.place flush.now.pe flush.now.cover flush.now.t mark answer.now
        (notes_of (reverse log.now))
        ≡ option_map_or (λ i. mark (notes_of (reverse (take i log.now)))) result 0 }
    ensures within { IfSome result (λ i. i ≤ length log.now) }
{
    match *answer {
        Event::Dsb { pe, dsb } => flush_before(header, log, pe, dsb, flush),
        _ => None,
    }
}

/// The TLBI at position t that does what it has to: with this cover of the place, for the PE.
fn flush_by(t: u32, cover: Cover, place: Place, pe: Pe) -> Flush
    ensures { result ≡ record { t = t; cover = cover; place = place; pe = pe } }
{
    Flush {
        t,
        cover,
        place,
        pe,
    }
}

/// How many events there are up to the write that the event at position b publishes before the TLBI, where the event,
/// which comes behind the log, answers it and it does what it has to; else 0.
fn seen_since(header: &Header, log: &[Kept], answer: &Event, flush: &Flush, b: u32) -> usize
    ensures { result ≡ spec.flush_mark header.now flush.now.place flush.now.pe flush.now.cover flush.now.t
        (spec.seen_mark header.now flush.now.place flush.now.pe b) answer.now (notes_of (reverse log.now)) }
{
    match flush_index(header, log, answer, flush) {
        Some(i) => published_at(header, &log[..i], flush.place, flush.pe, b),
        None => 0,
    }
}

/// How many events there are up to the write by which the events of this step make the place half; 0 where they don't.
fn half_by(header: &Header, log: &[Kept], step: &FirstStep) -> usize
    ensures { result ≡ spec.half_mark header.now step.now.place step.now.pe step.now.b step.now.t step.now.d
        (notes_of (reverse log.now)) }
{
    match index_of(log, step.d) {
        Some(i) => {
            let flush = Flush {
                t: step.t,
                cover: Cover::Half,
                place: step.place,
                pe: step.pe,
            };
            seen_since(header, &log[..i], &log[i].event, &flush, step.b)
        }
        None => 0,
    }
}

/// How many events there are up to the write by which the events of the first step make the place half before the TLBI,
/// where the event, which comes behind the log, answers it and it does what it has to; else 0.
fn half_since(
    header: &Header,
    log: &[Kept],
    answer: &Event,
    flush: &Flush,
    step: &FirstStep,
) -> usize
    ensures { result ≡ spec.flush_mark header.now flush.now.place flush.now.pe flush.now.cover flush.now.t
        (spec.half_mark header.now step.now.place step.now.pe step.now.b step.now.t step.now.d) answer.now
        (notes_of (reverse log.now)) }
{
    match flush_index(header, log, answer, flush) {
        Some(i) => half_by(header, &log[..i], step),
        None => 0,
    }
}

/// How many events there are up to the write since which the claim is true, where this event, which comes behind the
/// log, stands at its last position; 0 where the claim isn't true, or is one of a tag.
pub fn completed_since(header: &Header, log: &[Kept], answer: &Event, claim: &Claim) -> usize
    ensures { result ≡ spec.completed_mark header.now claim.now answer.now (notes_of (reverse log.now)) }
{
    match *claim {
        Claim::Place {
            pe,
            place,
            b,
            t,
            ..
        } => {
            let flush = flush_by(t, Cover::Full, place, pe);
            seen_since(header, log, answer, &flush, b)
        }
        Claim::Two {
            pe,
            place,
            b,
            t1,
            d1,
            t2,
            ..
        } => {
            let flush = flush_by(t2, Cover::Second, place, pe);
            let step = FirstStep {
                place,
                pe,
                b,
                t: t1,
                d: d1,
            };
            half_since(header, log, answer, &flush, &step)
        }
        Claim::Taken { .. } => 0,
    }
}

/// The position of the claim's last event.
pub fn end_of(claim: &Claim) -> u32
    ensures { result ≡ spec.end_of claim.now }
{
    match *claim {
        Claim::Place { d, .. } => d,
        Claim::Two { d2, .. } => d2,
        Claim::Taken { d, .. } => d,
    }
}
