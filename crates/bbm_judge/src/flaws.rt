//! Descriptors that must not come into a tree.
//! Source: project's own choice, where no other is named.

ghost use Rattle.std.specs.Prelude.{◌≡◌, ℕ, true, IfOk, flat_map};
ghost use Rattle.bbm_descriptor.specs.Descriptor.{desc_of};
ghost use Rattle.bbm_events.specs.declared.event.Event.{Event};
ghost use Rattle.bbm_events.specs.Fits.{fits_heading};
ghost use Rattle.bbm_rules.specs.Lists as lists;
ghost use Rattle.bbm_rules.specs.Lists.{if_so};
ghost use Rattle.bbm_rules.specs.Notes.{events_of};
ghost use Rattle.bbm_rules.specs.Rules as rules;
ghost use Rattle.bbm_rules.specs.Values.{value_of as value_at};
ghost use Rattle.bbm_judge.specs.Flaws as spec;
ghost use Rattle.bbm_oracle_trees.specs.Past.{notes};

use crate::ends::{Attached, End, attached_by};
use crate::least::lesser;
use bbm_descriptor::{Desc, read};
use bbm_events::Event;
use bbm_oracle_patterns::Evidence;
use bbm_oracle_tags::values::{places_in, value_of};
use bbm_oracle_trees::History;
use bbm_regimes::{Kind, Level, NoMemory, Place};
use std::alloc::Global;

/// What is wrong with a descriptor of a tree.
#[derive(Clone, Copy, PartialEq, Eq)]
pub enum Flaw {
    /// A leaf with the Contiguous hint.
    Contiguous,
    /// A leaf for every ASID in the lower range of the EL1&0 translation regime.
    GlobalUser,
}

/// Whether a value has the flaw at this kind and level.
fn has_flaw(flaw: Flaw, kind: Kind, level: Level, value: u64) -> bool
    ensures { result ≡ spec.has_flaw flaw kind (desc_of kind level value) }
{
    match read(kind, level, value) {
        Desc::Leaf {
            global,
            contiguous,
            ..
        } => match flaw {
            Flaw::Contiguous => contiguous,
            Flaw::GlobalUser => matches!(kind, Kind::Ttbr0) && global,
        },
        _ => false,
    }
}

/// The place, where its value has the flaw at this kind and level.
fn flawed<E: Evidence>(
    history: &History<E>,
    flaw: Flaw,
    kind: Kind,
    level: Level,
    place: Place,
) -> Option<u64>
    ensures { result
        ≡ if_so (spec.has_flaw flaw kind (desc_of kind level (value_at (events_of (notes history.now)) place))) place }
{
    if has_flaw(flaw, kind, level, value_of(history.events(), place)) {
        Some(place.get())
    } else {
        None
    }
}

/// The least place of the page of an end whose value has the flaw at this kind. `NoMemory` where there is none.
fn least_flawed<E: Evidence>(
    alloc: Global,
    history: &History<E>,
    flaw: Flaw,
    kind: Kind,
    end: End,
) -> Result<Option<u64>, NoMemory>
    ensures { IfOk result (λ found. found
        ≡ lists.least (rules.places_with (spec.has_flaw flaw) kind (events_of (notes history.now)) end)) }
{
    let level = end.level;
    let places = places_in(alloc, history.events(), end.page)?;
    let mut found = None;
    for place in &places {
        found = lesser(found, flawed(history, flaw, kind, level, *place));
    }
    Ok(found)
}

/// The least place of the pages of the ends whose value has the flaw at this kind. `NoMemory` where there is none.
fn least_of_ends<E: Evidence>(
    alloc: Global,
    history: &History<E>,
    flaw: Flaw,
    kind: Kind,
    ends: &[End],
) -> Result<Option<u64>, NoMemory>
    ensures { IfOk result (λ found. found
        ≡ lists.least (flat_map (rules.places_with (spec.has_flaw flaw) kind (events_of (notes history.now)))
        ends.now)) }
{
    let mut found = None;
    for end in ends {
        let least = least_flawed(alloc, history, flaw, kind, *end)?;
        found = lesser(found, least);
    }
    Ok(found)
}

/// The least place of the attached pages whose value has the flaw. `NoMemory` where there is none.
fn least_attached<E: Evidence>(
    alloc: Global,
    history: &History<E>,
    flaw: Flaw,
    attached: &Attached,
) -> Result<Option<u64>, NoMemory>
    ensures { IfOk result (λ found. found
        ≡ lists.least (rules.attached_with (spec.has_flaw flaw) (events_of (notes history.now)) attached.now)) }
{
    let first = least_of_ends(alloc, history, flaw, attached.kind, &attached.first)?;
    let deeper = least_of_ends(alloc, history, flaw, attached.kind, &attached.deeper)?;
    Ok(lesser(first, deeper))
}

/// The place, where a write of the value is one of a flaw into a tree.
fn written_at<E: Evidence>(
    history: &History<E>,
    flaw: Flaw,
    place: Place,
    value: u64,
) -> Option<u64>
    ensures { (pe : ℕ) → result ≡ rules.written_with history.now.heading history.now.trust (notes history.now)
        (spec.has_flaw flaw) (Event.Write pe place value) }
{
    let node = history.node_of(place.page())?;
    if has_flaw(flaw, node.kind, node.level, value) {
        Some(place.get())
    } else {
        None
    }
}

/// The place, where the event writes a flaw into a tree.
fn written_with<E: Evidence>(history: &History<E>, flaw: Flaw, event: &Event) -> Option<u64>
    ensures { result ≡ rules.written_with history.now.heading history.now.trust (notes history.now)
        (spec.has_flaw flaw) event.now }
{
    match *event {
        Event::Write {
            pe: _,
            place,
            value,
        } => written_at(history, flaw, place, value),
        _ => None,
    }
}

/// The least place at which an event that fits the header puts a descriptor with the flaw into a tree: the place of a
/// tree that it writes, or a place of a page that it attaches. `NoMemory` where there is none.
pub fn made_with<E: Evidence>(
    alloc: Global,
    history: &History<E>,
    flaw: Flaw,
    event: &Event,
) -> Result<Option<u64>, NoMemory>
    requires { fits_heading history.now.heading event.now ≡ true }
    ensures { IfOk result (λ at. at ≡ rules.made_with history.now.heading history.now.trust (notes history.now)
        (spec.has_flaw flaw) event.now) }
{
    let written = written_with(history, flaw, event);
    match attached_by(alloc, history, event)? {
        Some(attached) => {
            let least = least_attached(alloc, history, flaw, &attached)?;
            Ok(lesser(written, least))
        }
        None => Ok(written),
    }
}
