//! Which tags a root keeps.

ghost use Rattle.std.specs.Prelude.{◌≡◌, ℕ, List, ◌∷◌, ◌==◌, ◌&&◌, ◌||◌, Bool, true, reverse, IfOk, OnOk};
ghost use Rattle.bbm_regimes.specs.declared.regime.Tag.{Tag as TheTag};
ghost use Rattle.bbm_events.specs.declared.event.Event.{Event as TheEvent};
ghost use Rattle.bbm_rules.specs.Claims.{Patterns, Trust, same_tag as is_same_tag};
ghost use Rattle.bbm_rules.specs.Tags as spec;
ghost use Rattle.bbm_oracle_tags.specs.Moments as moments;
ghost use Rattle.bbm_oracle_tags.specs.HeldTagSets as sets;
ghost use Rattle.bbm_oracle_tags.specs.Keepers as keepers;
ghost use Rattle.bbm_oracle_tags.specs.Watches as watches;

use crate::evidence::TagEvidence;
use crate::holding::Holding;
use crate::keeper::Keeper;
use crate::moment::Moment;
use crate::readings::Reading;
use crate::watch::{Watch, changes_readings};
use bbm_events::{Event, Header};
use bbm_regimes::{NoMemory, Pe, Tag, same_tag};
use bbm_rules::{law_equality_tests, law_tag_kept, law_tag_set};
use bbm_tlbi_scope::{TagSet, with_tag};
use std::alloc::Global;

/// The watch of the tag at the PE after the events. `NoMemory` where there is none.
pub(crate) fn watched(
    alloc: Global,
    header: &Header,
    events: &[Event],
    asked: &Holding,
) -> Result<Watch, NoMemory>
    ensures { IfOk result (λ watch. watches.IsWatch header.now asked.now.pe asked.now.root asked.now.tag
        (reverse events.now) watch) }
{
    let mut watch = Watch::new(alloc)?;
    for (i, event) in events.iter().enumerate() {
        watch.take(alloc, header, &events[..i], event, asked)?;
    }
    Ok(watch)
}

/// Whether the tag is kept for the page at the PE: its root holds it, or one that was given up left it. `NoMemory`
/// where there is none. Source: project's own choice, after Arm ARM (DDI 0487), "Translation Lookaside Buffers".
pub fn kept_at(
    alloc: Global,
    header: &Header,
    events: &[Event],
    asked: &Holding,
) -> Result<bool, NoMemory>
    ensures { IfOk result (λ kept. kept ≡ spec.kept_at header.now Patterns asked.now.pe asked.now.root asked.now.tag
        (reverse events.now)) }
{
    law_tag_kept();
    let watch = watched(alloc, header, events, asked)?;
    Ok(watch.holds || watch.left)
}

/// Whether the root of the page that is asked, by the page's address in bytes, keeps the tag at some PE: it holds it,
/// or left it when it was given up. `NoMemory` where there is none. Source: project's own choice, after Arm ARM (DDI
/// 0487), "Translation Lookaside Buffers".
pub fn keeps_tag<E: TagEvidence>(
    alloc: Global,
    evidence: &E,
    header: &Header,
    events: &[Event],
    root: u64,
    tag: Tag,
    keeper: Keeper,
) -> Result<bool, NoMemory>
    requires { E.knows evidence.now header.now (reverse events.now) }
    ensures { IfOk result (λ keeps. keeps
        ≡ keepers.keeps_tag header.now (E.trust evidence.now) keeper root tag (reverse events.now)) }
{
    for number in 0..header.pes {
        let pe = Pe::new(number).unwrap();
        let asked = Holding { pe, root, tag };
        if evidence.keeps_at(alloc, header, events, &asked, keeper)? {
            return Ok(true);
        }
    }
    Ok(false)
}

/// Whether the tag is in the list.
fn has_tag(tags: &[Tag], tag: Tag) -> bool
    ensures { result ≡ sets.has_tag tag tags.now }
{
    tags.iter().any(|other| same_tag(*other, tag))
}

/// Adds the tag, unless it is there already.
fn add_tag(tags: &mut Vec<Tag>, tag: Tag) -> Result<(), NoMemory>
    ensures { OnOk result (sets.Adds (λ g. is_same_tag tag g) tags.old.items tags.new.items) }
{
    if has_tag(tags, tag) {
        Ok(())
    } else {
        tags.push(tag)?;
        Ok(())
    }
}

/// Adds the tag of the reading, where it is one of the root.
fn add_reading(tags: &mut Vec<Tag>, reading: &Reading, root: u64) -> Result<(), NoMemory>
    ensures { OnOk result (sets.Adds (λ g. is_same_tag reading.now.tag g && reading.now.root == root)
        tags.old.items tags.new.items) }
{
    if reading.root == root {
        add_tag(tags, reading.tag)
    } else {
        Ok(())
    }
}

/// Adds the tags that are readable for the root.
fn add_readings(tags: &mut Vec<Tag>, readings: &[Reading], root: u64) -> Result<(), NoMemory>
    ensures { OnOk result (sets.Adds (λ g. moments.is_read readings.now g root) tags.old.items tags.new.items) }
{
    for reading in readings {
        add_reading(tags, reading, root)?;
    }
    Ok(())
}

/// Adds the tags that are readable for the root after the event, unless they are those from before it.
fn add_read_now(
    alloc: Global,
    tags: &mut Vec<Tag>,
    moment: &Moment,
    header: &Header,
    event: &Event,
    root: u64,
) -> Result<(), NoMemory>
    ensures kept { OnOk result ((g : TheTag) → sets.has_tag g tags.old.items ≡ true
        → sets.has_tag g tags.new.items ≡ true) }
    ensures added { OnOk result ((p : ℕ) (h : List TheEvent)
        → moments.IsMoment header.now.world p (event.now ∷ h) moment.now
        → ((g : TheTag) → sets.was_read header.now p root g h ≡ true → sets.has_tag g tags.old.items ≡ true)
        → (g : TheTag) → sets.was_read header.now p root g (event.now ∷ h) ≡ true
        → sets.has_tag g tags.new.items ≡ true) }
{
    if changes_readings(event) {
        let readings = moment.readings(alloc, header)?;
        add_readings(tags, &readings, root)?;
    }
    Ok(())
}

/// Adds the tags that were readable for the root at the PE at some moment.
fn add_read_at(
    alloc: Global,
    tags: &mut Vec<Tag>,
    header: &Header,
    events: &[Event],
    pe: Pe,
    root: u64,
) -> Result<(), NoMemory>
    ensures { OnOk result (sets.Adds (λ g. sets.was_read header.now pe root g (reverse events.now))
        tags.old.items tags.new.items) }
{
    let mut moment = Moment::new(alloc)?;
    for event in events {
        moment.take(header, event, pe)?;
        add_read_now(alloc, tags, &moment, header, event, root)?;
    }
    Ok(())
}

/// Every tag that the root may hold at some PE.
fn candidates(
    alloc: Global,
    header: &Header,
    events: &[Event],
    root: u64,
) -> Result<Vec<Tag>, NoMemory>
    ensures { IfOk result (λ tags. (trust : Trust) (g : TheTag)
        → spec.holds_tag header.now trust root g (reverse events.now) ≡ true → sets.has_tag g tags.items ≡ true) }
{
    let mut tags = Vec::new(alloc);
    for number in 0..header.pes {
        let pe = Pe::new(number).unwrap();
        add_read_at(alloc, &mut tags, header, events, pe, root)?;
    }
    Ok(tags)
}

/// The set with the tag, where a root holds it.
fn with_held(set: TagSet, tag: Tag, holds: bool) -> TagSet
    ensures { (test held : TheTag → Bool) → sets.HasTags test set → holds ≡ held tag
        → sets.HasTags (λ g. test g || (is_same_tag tag g && held g)) result }
{
    law_equality_tests();
    if holds { with_tag(set, tag) } else { set }
}

/// Those of the tags that the root holds.
fn held_among<E: TagEvidence>(
    alloc: Global,
    evidence: &E,
    header: &Header,
    events: &[Event],
    root: u64,
    tags: &[Tag],
) -> Result<TagSet, NoMemory>
    requires { E.knows evidence.now header.now (reverse events.now) }
    ensures { IfOk result (λ set. sets.HasTags (λ g. sets.has_tag g tags.now
        && spec.holds_tag header.now (E.trust evidence.now) root g (reverse events.now)) set) }
{
    let mut set = TagSet::None;
    for tag in tags {
        let holds = keeps_tag(
            alloc,
            evidence,
            header,
            events,
            root,
            *tag,
            Keeper::Declared,
        )?;
        set = with_held(set, *tag, holds);
    }
    Ok(set)
}

/// The tags that the root with this first page, by its address in bytes, holds at any PE. `NoMemory` where there is
/// none. Source: project's own choice, after Arm ARM (DDI 0487), "Translation Lookaside Buffers".
pub fn tag_set_of<E: TagEvidence>(
    alloc: Global,
    evidence: &E,
    header: &Header,
    events: &[Event],
    root: u64,
) -> Result<TagSet, NoMemory>
    requires { E.knows evidence.now header.now (reverse events.now) }
    ensures { IfOk result (λ set. set
        ≡ spec.tag_set (spec.tags_of header.now (E.trust evidence.now) root (reverse events.now))) }
{
    law_tag_set();
    law_equality_tests();
    let tags = candidates(alloc, header, events, root)?;
    held_among(alloc, evidence, header, events, root, &tags)
}
