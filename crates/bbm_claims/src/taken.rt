//! Which tags are taken away by claims.

ghost use Rattle.std.specs.Prelude.{◌≡◌, ◌<◌, ◌≤◌, ◌+◌, ◌&&◌, not, length, reverse, IfOk};
ghost use Rattle.bbm_rules.specs.Prelude.{Tlbi as TheTlbi};
ghost use Rattle.bbm_rules.specs.Lists.{any};
ghost use Rattle.bbm_rules.specs.Sentences.{completes_for as completes_it};
ghost use Rattle.bbm_rules.specs.Tags.{read_since, reads_for_some, takes_tag as takes_it};
ghost use Rattle.bbm_histories.specs.ClaimSteps.{tag_waits_at};
ghost use Rattle.bbm_histories.specs.HistorySteps.{answered_by};
ghost use Rattle.bbm_claims.specs.Spans.{AreSpans};
ghost use Rattle.bbm_claims.specs.Takings.{is_open_for};

use crate::known::known;
use crate::marks::{completes_for, index_of, issues};
use crate::spans::{Span, lasts};
use bbm_barriers::Dsb;
use bbm_events::{Event, Header};
use bbm_oracle_tags::readings::is_read_for_some;
use bbm_oracle_tags::{completes, named_scope, reaches, readings_at, vmid_of};
use bbm_regimes::{NoMemory, Pe, Tag};
use bbm_tlbi_scope::{TlbiOp, whole_tag};
use std::alloc::Global;

/// A DSB that answers TLBIs of its issuer. Source: project's own choice.
#[derive(Clone, Copy)]
pub struct Answer {
    /// The PE that issued it.
    pub issuer: Pe,
    /// What it is.
    pub dsb: Dsb,
}

/// The events before a DSB, and until when tags are readable in them. Source: project's own choice.
#[derive(Clone, Copy)]
pub struct Before<'a> {
    /// The events, the oldest first.
    pub events: &'a [Event],
    /// The tags that were readable.
    pub spans: &'a [Span],
}

/// A TLBI with its issuer.
#[derive(Clone, Copy)]
struct Issue {
    pe: Pe,
    op: TlbiOp,
    xt: u64,
}

/// A TLBI that is to take a tag away at a PE. Source: project's own choice.
#[derive(Clone, Copy)]
pub struct Taking {
    /// The PE.
    pub pe: Pe,
    /// The tag.
    pub tag: Tag,
    /// The position of the TLBI; the first event has position 1.
    pub t: u32,
}

/// Whether the tag is readable at the PE for some root after these events. `NoMemory` where there is none.
pub fn is_readable(
    alloc: Global,
    header: &Header,
    events: &[Event],
    pe: Pe,
    tag: Tag,
) -> Result<bool, NoMemory>
    ensures { IfOk result (λ read. read ≡ reads_for_some header.now (reverse events.now) pe tag) }
{
    let readings = readings_at(alloc, header, events, pe)?;
    Ok(is_read_for_some(&readings, tag))
}

/// Whether the TLBI of the issuer, after these events, takes the whole tag.
fn takes_by(
    alloc: Global,
    header: &Header,
    before: &[Event],
    tlbi: &Issue,
    tag: Tag,
) -> Result<bool, NoMemory>
    ensures { IfOk result (λ takes. takes
        ≡ takes_it header.now (TheTlbi tlbi.now.pe tlbi.now.op tlbi.now.xt) (reverse before.now) tag) }
{
    match named_scope(alloc, header, before, tlbi.pe, tlbi.op, tlbi.xt) {
        Ok(Some(scope)) => match vmid_of(alloc, header, before, tlbi.pe) {
            Ok(vmid) => Ok(whole_tag(scope, vmid, tag)),
            Err(_) => Err(NoMemory),
        },
        Ok(None) => Ok(false),
        Err(_) => Err(NoMemory),
    }
}

/// Whether the event, after these, is a TLBI that takes the whole tag.
fn takes_tag(
    alloc: Global,
    header: &Header,
    before: &[Event],
    event: &Event,
    tag: Tag,
) -> Result<bool, NoMemory>
    ensures { IfOk result (λ takes. takes ≡ takes_it header.now event.now (reverse before.now) tag) }
{
    match *event {
        Event::Tlbi { pe, op, xt } => {
            takes_by(alloc, header, before, &Issue { pe, op, xt }, tag)
        }
        _ => Ok(false),
    }
}

/// Whether one of the later events answers this TLBI of the issuer.
pub fn is_answered(later: &[Event], issuer: Pe, tlbi: &Event) -> bool
    ensures { result ≡ any (completes_it issuer tlbi.now) later.now }
{
    later.iter().any(|event| completes_for(event, issuer, tlbi))
}

/// Whether the event, behind which came these, is a TLBI that the DSB answers, and reaches the PE.
fn is_open(header: &Header, event: &Event, later: &[Event], answer: &Answer, pe: Pe) -> bool
    ensures { result ≡ is_open_for header.now pe answer.now.issuer answer.now.dsb event.now later.now }
{
    issues(event, answer.issuer)
        && completes(answer.dsb, event)
        && reaches(header, event, pe)
        && !is_answered(later, answer.issuer, event)
}

/// Whether the event of this index is a TLBI that the DSB answers, which comes behind these events, and that reaches
/// the PE and takes the whole tag.
fn is_taker(
    alloc: Global,
    header: &Header,
    before: &[Event],
    i: usize,
    answer: &Answer,
    taking: &Taking,
) -> Result<bool, NoMemory>
    requires { i < length before.now }
    ensures { IfOk result (λ does. answered_by answer.now.dsb (λ k. tag_waits_at header.now taking.now.pe
        taking.now.tag (i + 1) answer.now.issuer k (reverse before.now))
        ≡ (does && not (read_since header.now i taking.now.pe taking.now.tag (reverse before.now)))) }
{
    known();
    let event = &before[i];
    if is_open(header, event, &before[i + 1..], answer, taking.pe) {
        takes_tag(alloc, header, &before[..i], event, taking.tag)
    } else {
        Ok(false)
    }
}

/// Whether the tag is readable at the PE at some moment after the first events, so many.
fn is_read_since(
    alloc: Global,
    header: &Header,
    events: &[Event],
    count: usize,
    pe: Pe,
    tag: Tag,
) -> Result<bool, NoMemory>
    requires { count ≤ length events.now }
    ensures { IfOk result (λ read. read ≡ read_since header.now count pe tag (reverse events.now)) }
{
    for i in count..events.len() {
        let read = is_readable(alloc, header, &events[..i + 1], pe, tag)?;
        if read {
            return Ok(true);
        }
    }
    Ok(false)
}

/// Whether the DSB, which comes behind these events, answers the TLBI, which reaches the PE and takes the whole tag,
/// and the tag wasn't readable there since. `NoMemory` where there is none.
pub fn takes_away(
    alloc: Global,
    header: &Header,
    before: &[Event],
    answer: &Answer,
    taking: &Taking,
) -> Result<bool, NoMemory>
    ensures { IfOk result (λ takes. takes ≡ answered_by answer.now.dsb (λ k. tag_waits_at header.now taking.now.pe
        taking.now.tag taking.now.t answer.now.issuer k (reverse before.now))) }
{
    known();
    match index_of(before, taking.t) {
        Some(i) => {
            let does = is_taker(alloc, header, before, i, answer, taking)?;
            if does {
                Ok(!is_read_since(alloc, header, before, i, taking.pe, taking.tag)?)
            } else {
                Ok(false)
            }
        }
        None => Ok(false),
    }
}

/// Whether the DSB, which comes behind these events, answers the TLBI, which reaches the PE and takes the whole tag, and
/// the tag wasn't readable there since, by what is kept of the tags that were readable. `NoMemory` where there is none.
pub fn takes_unread(
    alloc: Global,
    header: &Header,
    before: &Before<'_>,
    answer: &Answer,
    taking: &Taking,
) -> Result<bool, NoMemory>
    requires { AreSpans header.now (reverse before.now.events.now) before.now.spans.now }
    ensures { IfOk result (λ takes. takes ≡ answered_by answer.now.dsb (λ k. tag_waits_at header.now taking.now.pe
        taking.now.tag taking.now.t answer.now.issuer k (reverse before.now.events.now))) }
{
    known();
    match index_of(before.events, taking.t) {
        Some(i) => {
            if lasts(before.spans, taking.pe, taking.tag, i) {
                Ok(false)
            } else {
                is_taker(alloc, header, before.events, i, answer, taking)
            }
        }
        None => Ok(false),
    }
}
