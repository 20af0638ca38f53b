//! What lists of events tell, without their notes.

use crate::events::{BELOW, BLOCK, HEADER, PLACE, ROOT, dsb, events, write};
use bbm_barriers::Types;
use bbm_events::Event;
use bbm_oracle_rules::{holder_of, lacks, limit_of, rules};
use bbm_oracle_tags::numbers::least;
use bbm_oracle_tags::pages::{count_initialised, has_values, is_initialised, is_null};
use bbm_oracle_tags::reach::{completes, publishes_for, reaches};
use bbm_oracle_tags::readings::readings_at;
use bbm_oracle_tags::registers::{named_scope, register_values, vmid_of};
use bbm_oracle_tags::roots::{is_root, lock_of, root_at, roots_of};
use bbm_oracle_tags::tags::{keeps_tag, kept_at, tag_set_of};
use bbm_oracle_tags::values::{places_in, value_of};
use bbm_oracle_tags::{AllPatterns, Holding, Keeper};
use bbm_regimes::{Kind, Page, Pe, Place, Reg, Tag, Which};
use bbm_tlbi_scope::{TagSet, TlbiOp};
use std::alloc::Global;

/// Values of places, and pages.
fn tells_pages(alloc: Global) -> Option<bool> {
    let all = events()?;
    let page = Page::new(ROOT)?;
    let places = places_in(alloc, &all, page).ok()?;
    let place = Place::new(PLACE)?;
    let values = value_of(&all, place) == 0 && value_of(&all[..7], place) == BLOCK;
    let pages = is_initialised(&all, page) && count_initialised(&all) == 2 && !is_null(&all, ROOT);
    let written = has_values(alloc, &all, page).ok()?;
    Some(values && pages && written && places.len() == 2)
}

/// Locks, and declared roots.
fn tells_roots(alloc: Global) -> Option<bool> {
    let all = events()?;
    let pe = Pe::new(0)?;
    let lock = holder_of(&all, 3) == Some(pe)
        && !lacks(&all, pe, 3)
        && lock_of(&all, ROOT) == Some(3);
    let root = is_root(&all, Kind::El2, ROOT) && root_at(&all, ROOT).is_some();
    Some(lock && root && roots_of(alloc, &all).ok()?.len() == 1 && least(&[3, 2, 4]) == Some(2))
}

/// Whether the TLBI names pages of EL2.
fn names_pages(alloc: Global, events: &[Event], pe: Pe) -> bool {
    match named_scope(alloc, &HEADER, events, pe, TlbiOp::Vae2is, 0x40000) {
        Ok(scope) => scope.is_some(),
        Err(_) => false,
    }
}

/// Registers, what a TLBI names and reaches, and what a DSB answers and publishes.
fn tells_registers(alloc: Global) -> Option<bool> {
    let all = events()?;
    let pe = Pe::new(0)?;
    let values = register_values(alloc, &all, pe, Reg::Ttbr0El2).ok()?;
    let vmid = vmid_of(alloc, &HEADER, &all, pe).ok()?;
    let known = values.as_slice() == [ROOT, 0].as_slice() && vmid == Some(0);
    let answered = names_pages(alloc, &all, pe)
        && reaches(&HEADER, &all[9], pe)
        && completes(dsb(Types::All), &all[9]);
    let msr = all[4];
    let eight = [msr, msr, msr, msr, msr, msr, msr, msr];
    let limit = limit_of(alloc, &eight, &msr).ok()?;
    Some(
        known
            && answered
            && publishes_for(&HEADER, pe, pe, &all[8])
            && limit == Some(Which::Values),
    )
}

/// Tags of the root, which PE 0 has loaded.
fn tells_tags(alloc: Global) -> Option<bool> {
    let all = events()?;
    let pe = Pe::new(0)?;
    let read = readings_at(alloc, &HEADER, &all, pe).ok()?;
    let asked = Holding {
        pe,
        root: ROOT,
        tag: Tag::El2,
    };
    let here = kept_at(alloc, &HEADER, &all, &asked).ok()?;
    let held = keeps_tag(
        alloc,
        &AllPatterns,
        &HEADER,
        &all,
        ROOT,
        Tag::El2,
        Keeper::Declared,
    )
    .ok()?;
    let tags = tag_set_of(alloc, &AllPatterns, &HEADER, &all, ROOT).ok()?;
    Some(read.len() == 1 && here && held && tags == TagSet::One(Tag::El2))
}

/// The rules that ask for events alone, each of an event that breaks it or keeps it.
fn tells_rules(alloc: Global) -> Option<bool> {
    let all = events()?;
    let pe = Pe::new(0)?;
    let page = Page::new(ROOT)?;
    let unroot = Event::Unroot { pe, page };
    let load = Event::Msr {
        pe: Pe::new(1)?,
        reg: Reg::Ttbr0El2,
        value: BELOW,
    };
    let clash = rules::tag_conflict(alloc, &AllPatterns, &HEADER, &all, &all[4]).ok()?;
    let used = rules::root_in_use(alloc, &AllPatterns, &HEADER, &all, &unroot).ok()?;
    let unsynced = rules::unsynced_vmid(alloc, &HEADER, &all, &all[9]).ok()?;
    let rooted = rules::no_root(&HEADER, &all, &load) == Some(BELOW)
        && used == Some(ROOT)
        && clash == None;
    let locked = rules::lock_busy(&all, &all[2]) == Some(0)
        && rules::without_lock(&all, pe, ROOT, 9) == None;
    Some(rooted && locked && unsynced == None)
}

/// The rest of them.
fn tells_plain_rules() -> Option<bool> {
    let all = events()?;
    let unlock = Event::Unlock {
        pe: Pe::new(1)?,
        lock: 3,
    };
    let null = rules::null_written(&all, &write(PLACE, 0)?);
    let operand = rules::bad_operand(&all[9]);
    let world = rules::wrong_world(&HEADER, &all[4]);
    Some(
        rules::lock_not_mine(&all, &unlock) == Some(3)
            && null == None
            && operand == None
            && world == None,
    )
}

#[test]
fn events_tell_what_was_worked_out(rt: HostRuntime) {
    assert!(rt; tells_pages(rt.alloc()) == Some(true));
    assert!(rt; tells_roots(rt.alloc()) == Some(true));
    assert!(rt; tells_registers(rt.alloc()) == Some(true));
    assert!(rt; tells_tags(rt.alloc()) == Some(true));
    assert!(rt; tells_rules(rt.alloc()) == Some(true));
    assert!(rt; tells_plain_rules() == Some(true));
}
