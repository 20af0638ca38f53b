//! The rules that need no tree. Each function says whether an event breaks its rule after the given events: None where
//! it doesn't, else the number that is reported as `at`. Each contract speaks of every annotated history of these
//! events.
//! Source: project's own choice, where no other is named.

ghost use Rattle.std.specs.Prelude.{◌≡◌, not, ◌&&◌, ◌||◌, nat_le, nat_lt, ◌==◌, ◌%◌, length, flat_map, option_and_then};
ghost use Rattle.std.specs.Prelude.{◌∷◌, ◌++◌, [], List, option_to_list, reverse, IfOk, OnOk};
ghost use Rattle.bbm_regimes.specs.declared.regime.Reg.TheVariants.{Ttbr0El1};
ghost use Rattle.bbm_regimes.specs.declared.regime.Tag.{Tag as TheTag};
ghost use Rattle.bbm_events.specs.Heading.{Heading, nulls_everywhere};
ghost use Rattle.bbm_events.specs.declared.event.Event.{Event};
ghost use Rattle.bbm_rules.specs.Claims.{Trust};
ghost use Rattle.bbm_rules.specs.Lists as lists;
ghost use Rattle.bbm_rules.specs.Lists.{any, is_that, some_pe};
ghost use Rattle.bbm_rules.specs.Notes.{Noted, events_of};
ghost use Rattle.bbm_rules.specs.Pages as pages;
ghost use Rattle.bbm_rules.specs.RegisterValues as registers;
ghost use Rattle.bbm_rules.specs.Roots as roots;
ghost use Rattle.bbm_rules.specs.Rules as spec;
ghost use Rattle.bbm_rules.specs.Tags as tags;
ghost use Rattle.bbm_oracle_rules.specs.Conflicts as clashes;

use crate::locks;
use bbm_events::{Event, Header, nulls_everywhere};
use bbm_oracle_tags::{
    Declared, Keeper, Reading, TagEvidence, given_up, is_null, is_root, keeps_tag, least, lock_of,
    readings_at, register_values, root_at, roots_of, tag_set_of, vmid_of,
};
use bbm_regimes::{Kind, NoMemory, Page, Pe, Reg, base_of, kind_of};
use bbm_tlbi_scope::{TagSet, decode, lacks_vmid};
use std::alloc::Global;

/// The number, where the test holds.
fn if_so(test: bool, at: u64) -> Option<u64>
    ensures { result ≡ lists.if_so test at }
{
    if test { Some(at) } else { None }
}

/// Whether an `msr` of the value asks to share TLB entries under a header that says they aren't shared.
fn asks_to_share(header: &Header, value: u64) -> bool
    ensures { result ≡ (nat_le 2 header.now.version && not header.now.cnp && value % 2 == 1) }
{
    header.version >= 2 && !header.cnp && value % 2 == 1
}

/// Whether a write of the register is none of the world, or asks to share.
fn is_wrong_write(header: &Header, reg: Reg, value: u64) -> bool
    ensures { result ≡ (not (roots.kind_in_world header.now.world (registers.kind_of_reg reg))
        || (nat_le 2 header.now.version && not header.now.cnp && value % 2 == 1)) }
{
    if !header.has_kind(kind_of(reg)) {
        return true;
    }
    asks_to_share(header, value)
}

/// 1, wrong-world: the event has a root kind, a register or a TLBI operation that isn't of the header's world, or is a
/// `null` in the Hyp world under a header of version 4 or older, or an `msr` of a value with bit 0 set under a header
/// of version 2 or later without `cnp`. At: 0.
pub fn wrong_world(header: &Header, event: &Event) -> Option<u64>
    ensures { (trust : Trust) (h : List Noted) → result ≡ spec.wrong_world header.now trust h event.now }
{
    match *event {
        Event::Root { kind, .. } => if_so(!header.has_kind(kind), 0),
        Event::Msr { pe: _, reg, value } => if_so(is_wrong_write(header, reg, value), 0),
        Event::Tlbi { op, .. } => if_so(!op.of_world(header.world), 0),
        Event::Null { .. } => if_so(header.has_kind(Kind::S2) && !nulls_everywhere(header), 0),
        _ => None,
    }
}

/// Whether the root with this first page, by its address in bytes, names a lock that the PE doesn't hold: None where
/// not, else the number `at`. Rule 2, no-lock, asks it of an `unroot` of the page, and of a write of a place in the
/// root's tree.
pub fn without_lock(events: &[Event], pe: Pe, root: u64, at: u64) -> Option<u64>
    ensures { result ≡ option_and_then (λ lock. lists.if_so (spec.lacks (reverse events.now) pe lock) at)
        (roots.lock_of (reverse events.now) root) }
{
    match lock_of(events, root) {
        Some(lock) => if_so(locks::lacks(events, pe, lock), at),
        None => None,
    }
}

/// 3, null-written: the event is a write at a place of a null page. At: the place.
pub fn null_written(events: &[Event], event: &Event) -> Option<u64>
    ensures { (trust : Trust) (h : List Noted) (header : Heading) → events_of h ≡ reverse events.now
        → result ≡ spec.null_written header trust h event.now }
{
    match *event {
        Event::Write {
            pe: _,
            place,
            value: _,
        } => if_so(is_null(events, place.page().get()), place.get()),
        _ => None,
    }
}

/// Whether a null page may be the base of the register: of TTBR0_EL1, and from version 5 on of each.
fn may_be_null(header: &Header, reg: Reg) -> bool
    ensures { result ≡ (nulls_everywhere header.now.version || registers.same_reg reg Ttbr0El1) }
{
    match reg {
        Reg::Ttbr0El1 => true,
        Reg::Ttbr0El2 | Reg::VttbrEl2 | Reg::Ttbr1El1 => nulls_everywhere(header),
    }
}

/// Whether the base of a register value is neither the first page of a declared root of the register's kind nor a null
/// page that counts in the register.
fn is_rootless(header: &Header, events: &[Event], reg: Reg, base: u64) -> bool
    ensures { result ≡ not (roots.is_root (reverse events.now) (registers.kind_of_reg reg) base
        || ((nulls_everywhere header.now.version || registers.same_reg reg Ttbr0El1)
        && pages.is_null (reverse events.now) base)) }
{
    if is_root(events, kind_of(reg), base) {
        false
    } else if may_be_null(header, reg) {
        !is_null(events, base)
    } else {
        true
    }
}

/// 11, no-root: a register is given a value other than 0 whose base is neither the first page of a declared root of
/// the register's kind nor a null page, which under a header of version 4 or older counts in TTBR0_EL1 alone; or an
/// `unroot` names no first page of a declared root. At: the base, or the page.
pub fn no_root(header: &Header, events: &[Event], event: &Event) -> Option<u64>
    ensures { (trust : Trust) (h : List Noted) → events_of h ≡ reverse events.now
        → result ≡ spec.no_root header.now trust h event.now }
{
    match *event {
        Event::Msr { pe: _, reg, value } => match base_of(value) {
            Some(base) => if_so(is_rootless(header, events, reg, base), base),
            None => None,
        },
        Event::Unroot { pe: _, page } => if_so(root_at(events, page.get()).is_none(), page.get()),
        _ => None,
    }
}

/// The events with one more.
fn with_event(alloc: Global, events: &[Event], event: &Event) -> Result<Vec<Event>, NoMemory>
    ensures { IfOk result (λ all. all.items ≡ events.now ++ event.now ∷ []) }
{
    let mut all = Vec::new(alloc);
    all.extend_from_slice(events)?;
    all.push(*event)?;
    Ok(all)
}

/// The first page of the root, where it is another than that of the reading and holds the reading's tag.
fn other_holder<E: TagEvidence>(
    alloc: Global,
    evidence: &E,
    header: &Header,
    after: &[Event],
    reading: &Reading,
    root: &Declared,
) -> Result<Option<u64>, NoMemory>
    requires { E.knows evidence.now header.now (reverse after.now) }
    ensures { IfOk result (λ page. option_to_list page
        ≡ clashes.holder_pages header.now (E.trust evidence.now) (reverse after.now) reading.now (root.now ∷ [])) }
{
    let page = root.page.get();
    if page == reading.root {
        return Ok(None);
    }
    if keeps_tag(
        alloc,
        evidence,
        header,
        after,
        page,
        reading.tag,
        Keeper::Declared,
    )? {
        Ok(Some(page))
    } else {
        Ok(None)
    }
}

/// Adds the page, where there is one.
fn add_page(pages: &mut Vec<u64>, page: Option<u64>) -> Result<(), NoMemory>
    ensures { OnOk result (pages.new.items ≡ pages.old.items ++ option_to_list page) }
{
    match page {
        Some(page) => {
            pages.push(page)?;
            Ok(())
        }
        None => Ok(()),
    }
}

/// The first pages of the other roots that hold the reading's tag.
fn other_holders<E: TagEvidence>(
    alloc: Global,
    evidence: &E,
    header: &Header,
    after: &[Event],
    reading: &Reading,
    roots: &[Declared],
) -> Result<Vec<u64>, NoMemory>
    requires { E.knows evidence.now header.now (reverse after.now) }
    ensures { IfOk result (λ pages. pages.items
        ≡ clashes.holder_pages header.now (E.trust evidence.now) (reverse after.now) reading.now roots.now) }
{
    let mut pages = Vec::new(alloc);
    for root in roots {
        let page = other_holder(alloc, evidence, header, after, reading, root)?;
        add_page(&mut pages, page)?;
    }
    Ok(pages)
}

/// The page, where a root that was given up left the reading's tag there.
fn leaver<E: TagEvidence>(
    alloc: Global,
    evidence: &E,
    header: &Header,
    after: &[Event],
    reading: &Reading,
    page: u64,
) -> Result<Option<u64>, NoMemory>
    requires { E.knows evidence.now header.now (reverse after.now) }
    ensures { IfOk result (λ left. option_to_list left
        ≡ clashes.leaver_pages header.now (E.trust evidence.now) (reverse after.now) reading.now (page ∷ [])) }
{
    if keeps_tag(
        alloc,
        evidence,
        header,
        after,
        page,
        reading.tag,
        Keeper::GivenUp,
    )? {
        Ok(Some(page))
    } else {
        Ok(None)
    }
}

/// Those of the pages at which a root that was given up left the reading's tag.
fn leavers<E: TagEvidence>(
    alloc: Global,
    evidence: &E,
    header: &Header,
    after: &[Event],
    reading: &Reading,
    given_up: &[Page],
) -> Result<Vec<u64>, NoMemory>
    requires { E.knows evidence.now header.now (reverse after.now) }
    ensures { IfOk result (λ pages. pages.items
        ≡ clashes.leaver_pages header.now (E.trust evidence.now) (reverse after.now) reading.now given_up.now) }
{
    let mut pages = Vec::new(alloc);
    for page in given_up {
        let left = leaver(alloc, evidence, header, after, reading, page.get())?;
        add_page(&mut pages, left)?;
    }
    Ok(pages)
}

/// The first pages of the roots that hold the tag of a reading for another root, and of those that were given up and
/// left it.
fn keepers_of_each<E: TagEvidence>(
    alloc: Global,
    evidence: &E,
    header: &Header,
    after: &[Event],
    readings: &[Reading],
    roots: &[Declared],
    given_up: &[Page],
) -> Result<Vec<u64>, NoMemory>
    requires { E.knows evidence.now header.now (reverse after.now) }
    ensures { IfOk result (λ pages. pages.items
        ≡ flat_map (clashes.keeper_pages header.now (E.trust evidence.now)
        (reverse after.now) roots.now given_up.now) readings.now) }
{
    let mut pages = Vec::new(alloc);
    for reading in readings {
        let holders = other_holders(alloc, evidence, header, after, reading, roots)?;
        pages.extend_from_slice(&holders)?;
        let left = leavers(alloc, evidence, header, after, reading, given_up)?;
        pages.extend_from_slice(&left)?;
    }
    Ok(pages)
}

/// The first pages of roots that hold a tag which is readable at the PE for another root, and of roots that were given
/// up and left one.
fn conflicts<E: TagEvidence>(
    alloc: Global,
    evidence: &E,
    header: &Header,
    after: &[Event],
    pe: Pe,
) -> Result<Vec<u64>, NoMemory>
    requires { E.knows evidence.now header.now (reverse after.now) }
    ensures { IfOk result (λ pages. pages.items
        ≡ clashes.conflict_pages header.now (E.trust evidence.now) (reverse after.now) pe) }
{
    let roots = roots_of(alloc, after)?;
    let readings = readings_at(alloc, header, after, pe)?;
    let given_up = given_up(alloc, after)?;
    keepers_of_each(alloc, evidence, header, after, &readings, &roots, &given_up)
}

/// 12, tag-conflict: after the register write a tag is readable at its PE for one root, and another root holds it, or
/// one that was given up has left it, at some PE. At: the least first page of such another root. `NoMemory` where there
/// is none.
pub fn tag_conflict<E: TagEvidence>(
    alloc: Global,
    evidence: &E,
    header: &Header,
    events: &[Event],
    event: &Event,
) -> Result<Option<u64>, NoMemory>
    requires { E.knows evidence.now header.now (reverse events.now) }
    ensures { IfOk result (λ at. (h : List Noted) → events_of h ≡ reverse events.now
        → at ≡ spec.tag_conflict header.now (E.trust evidence.now) h event.now) }
{
    match *event {
        Event::Msr { pe, .. } => {
            let after = with_event(alloc, events, event)?;
            let pages = conflicts(alloc, evidence, header, &after, pe)?;
            Ok(least(&pages))
        }
        _ => Ok(None),
    }
}

/// Whether one of the values has this base.
fn has_base(values: &[u64], page: u64) -> bool
    ensures { result ≡ any (λ value. is_that (registers.base_of value) page) values.now }
{
    values.iter().any(|value| base_of(*value) == Some(page))
}

/// Whether the page is the base of a value of the register that the PE may still use.
fn is_base_in(
    alloc: Global,
    events: &[Event],
    page: u64,
    pe: Pe,
    reg: Reg,
) -> Result<bool, NoMemory>
    ensures { IfOk result (λ found. found ≡ any (λ value. is_that (registers.base_of value) page)
        (registers.register_values (reverse events.now) pe reg)) }
{
    let values = register_values(alloc, events, pe, reg)?;
    Ok(has_base(&values, page))
}

/// Whether the page is the base of a value of some register that the PE may still use.
fn is_base_at(alloc: Global, events: &[Event], page: u64, pe: Pe) -> Result<bool, NoMemory>
    ensures { IfOk result (λ found. found ≡ spec.is_base_at (reverse events.now) page pe) }
{
    let el2 = is_base_in(alloc, events, page, pe, Reg::Ttbr0El2)?;
    let stage2 = is_base_in(alloc, events, page, pe, Reg::VttbrEl2)?;
    let lower = is_base_in(alloc, events, page, pe, Reg::Ttbr0El1)?;
    let upper = is_base_in(alloc, events, page, pe, Reg::Ttbr1El1)?;
    Ok(el2 || stage2 || lower || upper)
}

/// Whether the page is the base of a readable register value at some PE.
fn is_base(alloc: Global, header: &Header, events: &[Event], page: u64) -> Result<bool, NoMemory>
    ensures { IfOk result (λ found. found
        ≡ some_pe header.now.pes (spec.is_base_at (reverse events.now) page)) }
{
    for number in 0..header.pes {
        let pe = Pe::new(number).unwrap();
        if is_base_at(alloc, events, page, pe)? {
            return Ok(true);
        }
    }
    Ok(false)
}

/// Whether the set has a tag.
fn has_some(set: TagSet) -> bool
    ensures { (gs : List TheTag) → set ≡ tags.tag_set gs → result ≡ nat_lt 0 (length gs) }
{
    match set {
        TagSet::None => false,
        TagSet::One(_) => true,
        TagSet::Many => true,
    }
}

/// Whether the root with this first page is the base of a readable register value at some PE, or, under a header
/// without `unflushed`, holds a tag.
fn is_used<E: TagEvidence>(
    alloc: Global,
    evidence: &E,
    header: &Header,
    events: &[Event],
    page: u64,
) -> Result<bool, NoMemory>
    requires { E.knows evidence.now header.now (reverse events.now) }
    ensures { IfOk result (λ used. (h : List Noted) → events_of h ≡ reverse events.now
        → used ≡ spec.is_used header.now (E.trust evidence.now) h page) }
{
    if is_base(alloc, header, events, page)? {
        return Ok(true);
    }
    if header.words.unflushed {
        return Ok(false);
    }
    let set = tag_set_of(alloc, evidence, header, events, page)?;
    Ok(has_some(set))
}

/// 13, root-in-use: an `unroot` names a root that is the base of a readable register value at some PE, or, under a
/// header without `unflushed`, that holds a tag. At: the page. `NoMemory` where there is none.
pub fn root_in_use<E: TagEvidence>(
    alloc: Global,
    evidence: &E,
    header: &Header,
    events: &[Event],
    event: &Event,
) -> Result<Option<u64>, NoMemory>
    requires { E.knows evidence.now header.now (reverse events.now) }
    ensures { IfOk result (λ at. (h : List Noted) → events_of h ≡ reverse events.now
        → at ≡ spec.root_in_use header.now (E.trust evidence.now) h event.now) }
{
    match *event {
        Event::Unroot { pe: _, page } => {
            if root_at(events, page.get()).is_none() {
                return Ok(None);
            }
            let used = is_used(alloc, evidence, header, events, page.get())?;
            Ok(if_so(used, page.get()))
        }
        _ => Ok(None),
    }
}

/// 14, unsynced-vmid: in the Hyp world, a TLBI scoped by VMID comes from a PE whose readable values of VTTBR_EL2 have
/// more than one VMID. At: the PE's number. `NoMemory` where there is none.
pub fn unsynced_vmid(
    alloc: Global,
    header: &Header,
    events: &[Event],
    event: &Event,
) -> Result<Option<u64>, NoMemory>
    ensures { IfOk result (λ at. (trust : Trust) (h : List Noted) → events_of h ≡ reverse events.now
        → at ≡ spec.unsynced_vmid header.now trust h event.now) }
{
    match *event {
        Event::Tlbi { pe, op, .. } => {
            let vmid = vmid_of(alloc, header, events, pe)?;
            let lacks = lacks_vmid(op.scoped_by_vmid(), vmid);
            Ok(if_so(lacks, pe.get() as u64))
        }
        _ => Ok(None),
    }
}

/// 15, bad-operand: the operand of a TLBI can't be decoded. At: the operand.
pub fn bad_operand(event: &Event) -> Option<u64>
    ensures { (trust : Trust) (h : List Noted) (header : Heading)
        → result ≡ spec.bad_operand header trust h event.now }
{
    match *event {
        Event::Tlbi { pe: _, op, xt } => match decode(op, xt) {
            Ok(_) => None,
            Err(_) => Some(xt),
        },
        _ => None,
    }
}

/// 16, lock-busy: a `lock` names a lock that is held, by this PE or another. At: the holder's number.
pub fn lock_busy(events: &[Event], event: &Event) -> Option<u64>
    ensures { (trust : Trust) (h : List Noted) (header : Heading) → events_of h ≡ reverse events.now
        → result ≡ spec.lock_busy header trust h event.now }
{
    match *event {
        Event::Lock { pe: _, lock } => match locks::holder_of(events, lock) {
            Some(holder) => Some(holder.get() as u64),
            None => None,
        },
        _ => None,
    }
}

/// 17, lock-not-mine: an `unlock` names a lock that this PE doesn't hold. At: the lock's number.
pub fn lock_not_mine(events: &[Event], event: &Event) -> Option<u64>
    ensures { (trust : Trust) (h : List Noted) (header : Heading) → events_of h ≡ reverse events.now
        → result ≡ spec.lock_not_mine header trust h event.now }
{
    match *event {
        Event::Unlock { pe, lock } => if_so(locks::lacks(events, pe, lock), lock as u64),
        _ => None,
    }
}
