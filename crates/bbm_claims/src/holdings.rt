//! Which roots hold which tags, and which were left, by claims alone, as it is kept from event to event.

ghost use Rattle.std.specs.Prelude.{◌≡◌, ◌<◌, ◌∷◌, [], ◌++◌, not, ◌&&◌, ◌||◌, ◌==◌, ℕ, length, reverse, filter, IfOk};
ghost use Rattle.std.specs.Prelude.{OnOk};
ghost use Rattle.bbm_regimes.specs.declared.regime.Tag.{Tag as TheTag};
ghost use Rattle.bbm_rules.specs.Claims.{same_tag as is_same_tag};
ghost use Rattle.bbm_rules.specs.Lists.{any};
ghost use Rattle.bbm_rules.specs.Roots.{gives_up};
ghost use Rattle.bbm_rules.specs.Tags.{reads, reads_for_some};
ghost use Rattle.bbm_histories.specs.ClaimSteps.{completes_taken};
ghost use Rattle.bbm_rules.specs.Notes.{events_of};
ghost use Rattle.bbm_oracle_patterns.specs.Kept.{notes_of};
ghost use Rattle.bbm_claims.specs.Holdings.{Keep, before_lasts, ends_some, has as has_it, is_lost, next_has, next_lasts};
ghost use Rattle.bbm_claims.specs.Holdings.{next_left, stays_kept};
ghost use Rattle.bbm_claims.specs.Spans.{AreSpans, lasts};

use crate::known::known;
use crate::spans::{Span, all_ended, show_all, spans_copied};
use crate::taken::{Answer, Before, Taking, is_readable, takes_unread};
use bbm_events::{Claim, Event, Header};
use bbm_oracle_patterns::Kept;
use bbm_oracle_tags::{Holding, Reading, changes_readings, readings_at};
use bbm_regimes::{NoMemory, Pe, Tag, same_tag};
use std::alloc::Global;

/// A tag that a claim takes away at a PE.
#[derive(Clone, Copy)]
pub struct Loss {
    /// The PE.
    pub pe: Pe,
    /// The tag.
    pub tag: Tag,
}

/// What the roots hold and have left, and until when tags are readable. Source: project's own choice.
#[derive(Drop)]
pub struct Tags {
    /// What the declared roots hold.
    pub held: Vec<Holding>,
    /// What those that were given up have left.
    pub left: Vec<Holding>,
    /// The tags that were readable.
    pub spans: Vec<Span>,
}

/// Adds the tag of the claim, where the DSB, which comes behind these events, completes it.
fn add_loss(
    alloc: Global,
    header: &Header,
    before: &Before<'_>,
    answer: &Answer,
    claim: &Claim,
    losses: &mut Vec<Loss>,
) -> Result<(), NoMemory>
    requires { AreSpans header.now (reverse before.now.events.now) before.now.spans.now }
    ensures { OnOk result ((p : ℕ) (tag : TheTag) → is_lost losses.new.items p tag
        ≡ (is_lost losses.old.items p tag || completes_taken header.now p tag answer.now.issuer answer.now.dsb
        (reverse before.now.events.now) claim.now)) }
{
    known();
    match *claim {
        Claim::Taken { pe, tag, t, d } => {
            let taking = Taking { pe, tag, t };
            if d as usize == before.events.len() + 1
                && takes_unread(alloc, header, before, answer, &taking)?
            {
                losses.push(Loss { pe, tag })?;
            }
            Ok(())
        }
        _ => Ok(()),
    }
}

/// The tags of the claims that the DSB completes, which comes behind these events.
fn losses_by(
    alloc: Global,
    header: &Header,
    before: &Before<'_>,
    answer: &Answer,
    claims: &[Claim],
) -> Result<Vec<Loss>, NoMemory>
    requires { AreSpans header.now (reverse before.now.events.now) before.now.spans.now }
    ensures { IfOk result (λ losses. (p : ℕ) (tag : TheTag) → is_lost losses.items p tag
        ≡ any (completes_taken header.now p tag answer.now.issuer answer.now.dsb (reverse before.now.events.now))
        claims.now) }
{
    let mut losses = Vec::new(alloc);
    for claim in claims {
        add_loss(alloc, header, before, answer, claim, &mut losses)?;
    }
    Ok(losses)
}

/// The tags of the claims that the event completes, which comes behind these.
fn losses_at(
    alloc: Global,
    header: &Header,
    before: &Before<'_>,
    event: &Event,
    claims: &[Claim],
) -> Result<Vec<Loss>, NoMemory>
    requires { AreSpans header.now (reverse before.now.events.now) before.now.spans.now }
    ensures { IfOk result (λ losses. (p : ℕ) (tag : TheTag) → is_lost losses.items p tag
        ≡ ends_some header.now claims.now p tag event.now (reverse before.now.events.now)) }
{
    match *event {
        Event::Dsb { pe: issuer, dsb } => {
            let answer = Answer { issuer, dsb };
            losses_by(alloc, header, before, &answer, claims)
        }
        _ => Ok(Vec::new(alloc)),
    }
}

/// Whether the tag is one of these at the PE.
fn has_loss(losses: &[Loss], pe: Pe, tag: Tag) -> bool
    ensures { result ≡ is_lost losses.now pe tag }
{
    losses
        .iter()
        .any(|loss| loss.pe == pe && same_tag(loss.tag, tag))
}

/// Whether a tag that was kept at the PE still is, after these events, the last of which completes claims of these
/// tags.
fn stays(
    alloc: Global,
    header: &Header,
    events: &[Event],
    losses: &[Loss],
    pe: Pe,
    tag: Tag,
) -> Result<bool, NoMemory>
    ensures { IfOk result (λ stays. stays
        ≡ stays_kept header.now (reverse events.now) losses.now pe tag) }
{
    if has_loss(losses, pe, tag) {
        is_readable(alloc, header, events, pe, tag)
    } else {
        Ok(true)
    }
}

/// Adds what was kept, where it still is.
fn keep(
    alloc: Global,
    header: &Header,
    events: &[Event],
    losses: &[Loss],
    holding: &Holding,
    kept: &mut Vec<Holding>,
) -> Result<(), NoMemory>
    ensures { OnOk result ((p root : ℕ) (tag : TheTag) → has_it kept.new.items p root tag
        ≡ (has_it kept.old.items p root tag || (has_it (holding.now ∷ []) p root tag
        && stays_kept header.now (reverse events.now) losses.now p tag))) }
{
    known();
    if stays(alloc, header, events, losses, holding.pe, holding.tag)? {
        kept.push(*holding)?;
    }
    Ok(())
}

/// What was kept and still is, after these events, the last of which completes claims of these tags.
fn keep_all(
    alloc: Global,
    header: &Header,
    events: &[Event],
    losses: &[Loss],
    held: &[Holding],
) -> Result<Vec<Holding>, NoMemory>
    ensures { IfOk result (λ kept. (p root : ℕ) (tag : TheTag) → has_it kept.items p root tag
        ≡ (has_it held.now p root tag && stays_kept header.now (reverse events.now) losses.now p tag)) }
{
    let mut kept = Vec::new(alloc);
    for holding in held {
        keep(alloc, header, events, losses, holding, &mut kept)?;
    }
    Ok(kept)
}

/// Whether the root holds the tag at the PE.
pub fn has(held: &[Holding], pe: Pe, root: u64, tag: Tag) -> bool
    ensures is { result ≡ has_it held.now pe root tag }
    ensures below { pe < 128 }
{
    let number = pe.get();
    held.iter().any(|holding| {
        holding.pe.get() == number && holding.root == root && same_tag(holding.tag, tag)
    })
}

/// Adds that the root holds the tag at the PE, unless it is there already.
fn add(held: &mut Vec<Holding>, pe: Pe, root: u64, tag: Tag) -> Result<(), NoMemory>
    ensures { OnOk result ((p r : ℕ) (g : TheTag) → has_it held.new.items p r g
        ≡ (has_it held.old.items p r g || (pe == p && (is_same_tag tag g && root == r)))) }
{
    known();
    if has(held, pe, root, tag) {
        Ok(())
    } else {
        held.push(Holding { pe, root, tag })?;
        Ok(())
    }
}

/// Adds that roots hold tags at the PE, those of the readings that aren't there already. `NoMemory` where there is
/// none; some may be added then.
pub fn add_readings(held: &mut Vec<Holding>, pe: Pe, readings: &[Reading]) -> Result<(), NoMemory>
    ensures { OnOk result ((p root : ℕ) (tag : TheTag) → has_it held.new.items p root tag
        ≡ (has_it held.old.items p root tag
        || (pe == p && any (λ r. is_same_tag r.tag tag && r.root == root) readings.now))) }
{
    for reading in readings {
        add(held, pe, reading.root, reading.tag)?;
    }
    Ok(())
}

/// Adds what is readable at the PE after these events.
fn add_read_at(
    alloc: Global,
    header: &Header,
    events: &[Event],
    tags: &mut Tags,
    pe: Pe,
) -> Result<(), NoMemory>
    ensures held { OnOk result ((p root : ℕ) (tag : TheTag) → has_it tags.new.held.items p root tag
        ≡ (has_it tags.old.held.items p root tag
        || (pe == p && reads header.now (reverse events.now) pe tag root))) }
    ensures spans { OnOk result ((p n : ℕ) (tag : TheTag) → lasts tags.new.spans.items p tag n
        ≡ (lasts tags.old.spans.items p tag n
        || (pe == p && reads_for_some header.now (reverse events.now) pe tag))) }
    ensures left { tags.new.left ≡ tags.old.left }
{
    let readings = readings_at(alloc, header, events, pe)?;
    add_readings(&mut tags.held, pe, &readings)?;
    show_all(&mut tags.spans, pe, &readings)
}

/// Adds what is readable at some PE after these events.
fn add_read(
    alloc: Global,
    header: &Header,
    events: &[Event],
    tags: &mut Tags,
) -> Result<(), NoMemory>
    ensures held { OnOk result ((p root : ℕ) (tag : TheTag) → p < 128 → has_it tags.new.held.items p root tag
        ≡ (has_it tags.old.held.items p root tag || reads header.now (reverse events.now) p tag root)) }
    ensures spans { OnOk result ((p n : ℕ) (tag : TheTag) → p < 128 → lasts tags.new.spans.items p tag n
        ≡ (lasts tags.old.spans.items p tag n || reads_for_some header.now (reverse events.now) p tag)) }
    ensures left { tags.new.left ≡ tags.old.left }
{
    for number in 0..128 {
        let pe = Pe::new(number).unwrap();
        add_read_at(alloc, header, events, tags, pe)?;
    }
    Ok(())
}

/// The events that are kept.
fn events_in(alloc: Global, log: &[Kept]) -> Result<Vec<Event>, NoMemory>
    ensures { IfOk result (λ events. reverse events.items ≡ events_of (notes_of (reverse log.now))) }
{
    let mut events = Vec::new(alloc);
    for kept in log {
        events.push(kept.event)?;
    }
    Ok(events)
}

/// Puts the event behind the others.
fn add_event(events: &mut Vec<Event>, event: &Event) -> Result<(), NoMemory>
    ensures { OnOk result (reverse events.new.items ≡ event.now ∷ reverse events.old.items) }
{
    events.push(*event)?;
    Ok(())
}

/// The tags that were readable before the event, the last of these, where nothing is readable any more if it may change
/// that.
fn spans_before(
    alloc: Global,
    events: &[Event],
    newest: &Event,
    spans: &[Span],
) -> Result<Vec<Span>, NoMemory>
    requires { 0 < length events.now }
    ensures { IfOk result (λ before. (p n : ℕ) (tag : TheTag) → lasts before.items p tag n
        ≡ before_lasts newest.now (reverse events.now) spans.now p tag n) }
{
    if changes_readings(newest) {
        all_ended(alloc, spans, events.len() - 1)
    } else {
        spans_copied(alloc, spans)
    }
}

/// Adds the holding, where it is of the root.
fn add_left(left: &mut Vec<Holding>, holding: &Holding, root: u64) -> Result<(), NoMemory>
    ensures { OnOk result (left.new.items ≡ left.old.items ++ filter (λ x. x.root == root) (holding.now ∷ [])) }
{
    if holding.root == root {
        left.push(*holding)?;
    }
    Ok(())
}

/// Adds what the root holds.
fn add_all_left(held: &[Holding], left: &mut Vec<Holding>, root: u64) -> Result<(), NoMemory>
    ensures { OnOk result (left.new.items ≡ left.old.items ++ filter (λ x. x.root == root) held.now) }
{
    for holding in held {
        add_left(left, holding, root)?;
    }
    Ok(())
}

/// Takes out what the root holds.
fn drop_held(held: &mut Vec<Holding>, root: u64)
    ensures { held.new.items ≡ filter (λ x. not (x.root == root)) held.old.items }
{
    held.retain(|holding| holding.root != root);
}

/// What the root holds is left.
fn leave(tags: &mut Tags, root: u64) -> Result<(), NoMemory>
    ensures held { OnOk result ((p r : ℕ) (tag : TheTag) → has_it tags.new.held.items p r tag
        ≡ (has_it tags.old.held.items p r tag && not (root == r))) }
    ensures left { OnOk result ((p r : ℕ) (tag : TheTag) → has_it tags.new.left.items p r tag
        ≡ (has_it tags.old.left.items p r tag || (root == r && has_it tags.old.held.items p r tag))) }
    ensures spans { tags.new.spans ≡ tags.old.spans }
{
    add_all_left(&tags.held, &mut tags.left, root)?;
    drop_held(&mut tags.held, root);
    Ok(())
}

/// What a root holds that the event gives up is left then.
fn give_up(tags: &mut Tags, event: &Event) -> Result<(), NoMemory>
    ensures held { OnOk result ((p root : ℕ) (tag : TheTag) → has_it tags.new.held.items p root tag
        ≡ (has_it tags.old.held.items p root tag && not (gives_up root event.now))) }
    ensures left { OnOk result ((p page : ℕ) (tag : TheTag) → has_it tags.new.left.items p page tag
        ≡ (has_it tags.old.left.items p page tag
        || (gives_up page event.now && has_it tags.old.held.items p page tag))) }
    ensures spans { tags.new.spans ≡ tags.old.spans }
{
    match *event {
        Event::Unroot { pe: _, page } => leave(tags, page.get()),
        _ => Ok(()),
    }
}

/// What was kept and still is after these events, the last of which completes claims of these tags and may give a root
/// up, and what is readable then, where that event may change it.
fn next(
    alloc: Global,
    header: &Header,
    events: &[Event],
    newest: &Event,
    losses: &[Loss],
    tags: &Tags,
) -> Result<Tags, NoMemory>
    requires { 0 < length events.now }
    ensures held { IfOk result (λ next. (p root : ℕ) (tag : TheTag) → p < 128 → has_it next.held.items p root tag
        ≡ next_has header.now newest.now (reverse events.now) losses.now tags.now.held.items p root tag) }
    ensures left { IfOk result (λ next. (p page : ℕ) (tag : TheTag) → has_it next.left.items p page tag
        ≡ next_left header.now newest.now (reverse events.now) losses.now tags.now.held.items tags.now.left.items
        p page tag) }
    ensures spans { IfOk result (λ next. (p n : ℕ) (tag : TheTag) → p < 128 → lasts next.spans.items p tag n
        ≡ next_lasts header.now newest.now (reverse events.now) tags.now.spans.items p tag n) }
{
    let held = keep_all(alloc, header, events, losses, &tags.held)?;
    let left = keep_all(alloc, header, events, losses, &tags.left)?;
    let spans = spans_before(alloc, events, newest, &tags.spans)?;
    let mut next = Tags { held, left, spans };
    give_up(&mut next, newest)?;
    if changes_readings(newest) {
        add_read(alloc, header, events, &mut next)?;
    }
    Ok(next)
}

/// The tags that are held, those that are left and those that were readable after one more event, by the claims alone,
/// from those before it. `NoMemory` where there is none.
pub fn tags_after(
    alloc: Global,
    header: &Header,
    log: &[Kept],
    newest: &Event,
    tags: &Tags,
    claims: &[Claim],
) -> Result<Tags, NoMemory>
    requires { AreSpans header.now (events_of (notes_of (reverse log.now))) tags.now.spans.items }
    ensures kept { Keep header.now claims.now (events_of (notes_of (reverse log.now))) tags.now.held.items
        tags.now.left.items → IfOk result (λ next. Keep header.now claims.now
        (newest.now ∷ events_of (notes_of (reverse log.now))) next.held.items next.left.items) }
    ensures spans { IfOk result (λ next. AreSpans header.now
        (newest.now ∷ events_of (notes_of (reverse log.now))) next.spans.items) }
{
    known();
    let mut events = events_in(alloc, log)?;
    let before = Before {
        events: &events,
        spans: &tags.spans,
    };
    let losses = losses_at(alloc, header, &before, newest, claims)?;
    add_event(&mut events, newest)?;
    next(alloc, header, &events, newest, &losses, tags)
}
