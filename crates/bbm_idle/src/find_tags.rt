//! The tags that were ever readable for a root, and those of them that a TLBI takes whole.
//! Source: project's own choice, after Arm ARM (DDI 0487), "Translation Lookaside Buffers".

ghost use Rattle.std.specs.Prelude.{◌≡◌, Bool, ◌==◌, ◌&&◌, ◌||◌, List, ◌∷◌, reverse, IfOk, OnOk};
ghost use Rattle.bbm_events.specs.declared.event.Event.{Event as TheEvent};
ghost use Rattle.bbm_rules.specs.Claims.{Patterns};
ghost use Rattle.bbm_rules.specs.Lists.{any, below};
ghost use Rattle.bbm_rules.specs.Tags as tags;
ghost use Rattle.bbm_idle.specs.Finding as spec;

use bbm_events::{Event, Header};
use bbm_oracle_tags::readings::is_read;
use bbm_oracle_tags::{
    Holding, Reading, changes_readings, first_pages, kept_at, named_scope, readings_at, vmid_of,
};
use bbm_regimes::{NoMemory, Page, Pe};
use bbm_rules::law_equality_tests;
use bbm_tlbi_scope::{Scope, whole_tag};
use std::alloc::Global;

/// Adds the reading, unless it is there already.
fn add_reading(known: &mut Vec<Reading>, reading: &Reading) -> Result<(), NoMemory>
    ensures { OnOk result ((test : tags.Reading → Bool) → any test known.new.items
        ≡ (any test known.old.items || test reading.now)) }
{
    law_equality_tests();
    if is_read(known, reading.tag, reading.root) {
        return Ok(());
    }
    known.push(*reading)?;
    Ok(())
}

/// Adds the readings.
fn add_readings(known: &mut Vec<Reading>, readings: &[Reading]) -> Result<(), NoMemory>
    ensures { OnOk result ((test : tags.Reading → Bool) → any test known.new.items
        ≡ (any test known.old.items || any test readings.now)) }
{
    for reading in readings {
        add_reading(known, reading)?;
    }
    Ok(())
}

/// Adds what is readable at each PE after the events.
fn add_readable(
    alloc: Global,
    known: &mut Vec<Reading>,
    header: &Header,
    events: &[Event],
) -> Result<(), NoMemory>
    ensures { OnOk result ((test : tags.Reading → Bool) → any test known.new.items ≡ (any test known.old.items
        || any (λ p. any test (tags.readings header.now (reverse events.now) p)) (below header.now.pes))) }
{
    for number in 0..header.pes {
        let pe = Pe::new(number).unwrap();
        let readings = readings_at(alloc, header, events, pe)?;
        add_readings(known, &readings)?;
    }
    Ok(())
}

/// What was ever readable, after one more event, the last of these. `NoMemory` where there is none.
pub fn add_known(
    alloc: Global,
    known: &mut Vec<Reading>,
    header: &Header,
    events: &[Event],
    event: &Event,
) -> Result<(), NoMemory>
    ensures { OnOk result ((h : List TheEvent) → reverse events.now ≡ event.now ∷ h
        → spec.IsKnown header.now h known.old.items → spec.IsKnown header.now (event.now ∷ h) known.new.items) }
{
    if changes_readings(event) {
        add_readable(alloc, known, header, events)
    } else {
        Ok(())
    }
}

/// Adds the reading where it is wanted.
fn add_wanted(taken: &mut Vec<Reading>, reading: &Reading, wanted: bool) -> Result<(), NoMemory>
    ensures { OnOk result ((test : tags.Reading → Bool) → any test taken.new.items
        ≡ (any test taken.old.items || (wanted && test reading.now))) }
{
    if !wanted {
        return Ok(());
    }
    taken.push(*reading)?;
    Ok(())
}

/// Adds those of the readings that are of the root and whose tag a TLBI of this scope takes whole.
fn add_taken(
    taken: &mut Vec<Reading>,
    scope: &Scope,
    vmid: Option<u16>,
    root: Page,
    known: &[Reading],
) -> Result<(), NoMemory>
    ensures { OnOk result ((test : tags.Reading → Bool) → any test taken.new.items ≡ (any test taken.old.items
        || any (spec.is_taken scope.now vmid root test) known.now)) }
{
    for reading in known {
        let wanted = reading.root == root.get() && whole_tag(*scope, vmid, reading.tag);
        add_wanted(taken, reading, wanted)?;
    }
    Ok(())
}

/// Those of the readings that are of the root of one of the pages and whose tag a TLBI of this scope takes whole.
fn taken_under(
    alloc: Global,
    scope: &Scope,
    vmid: Option<u16>,
    pages: &[Page],
    known: &[Reading],
) -> Result<Vec<Reading>, NoMemory>
    ensures { IfOk result (λ taken. (test : tags.Reading → Bool) → any test taken.items
        ≡ any (λ page. any (spec.is_taken scope.now vmid page test) known.now) pages.now) }
{
    let mut taken = Vec::new(alloc);
    for page in pages {
        add_taken(&mut taken, scope, vmid, *page, known)?;
    }
    Ok(taken)
}

/// What was ever readable under a tag that the TLBI, coming after these events, takes whole, for a declared root or one
/// that was given up. `NoMemory` where there is none.
pub fn taken_by(
    alloc: Global,
    header: &Header,
    before: &[Event],
    event: &Event,
    known: &[Reading],
) -> Result<Vec<Reading>, NoMemory>
    requires { spec.IsKnown header.now (reverse before.now) known.now }
    ensures { IfOk result (λ taken. spec.AreTaken header.now (reverse before.now) event.now taken.items) }
{
    match *event {
        Event::Tlbi { pe, op, xt } => match named_scope(alloc, header, before, pe, op, xt) {
            Ok(Some(scope)) => {
                let vmid = vmid_of(alloc, header, before, pe)?;
                let pages = first_pages(alloc, before)?;
                taken_under(alloc, &scope, vmid, &pages, known)
            }
            Ok(None) => Ok(Vec::new(alloc)),
            Err(_) => Err(NoMemory),
        },
        _ => Ok(Vec::new(alloc)),
    }
}

/// Whether the tag of one of the readings is kept at the PE, after the events, for the page of its root. `NoMemory`
/// where there is none.
pub fn keeps_some(
    alloc: Global,
    header: &Header,
    events: &[Event],
    pe: Pe,
    readings: &[Reading],
) -> Result<bool, NoMemory>
    ensures { IfOk result (λ keeps. keeps
        ≡ any (λ r. tags.kept_at header.now Patterns pe r.root r.tag (reverse events.now)) readings.now) }
{
    for reading in readings {
        let asked = Holding {
            pe,
            root: reading.root,
            tag: reading.tag,
        };
        if kept_at(alloc, header, events, &asked)? {
            return Ok(true);
        }
    }
    Ok(false)
}
