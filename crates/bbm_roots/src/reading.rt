//! Readable tags: what the readable values of the registers of a PE name, each with its tag.
//! Source: project's own choice, where no other is named.

ghost use Rattle.std.specs.Prelude.{◌≡◌, ℕ, ◌++◌, flat_map, OnOk, IfOk};
ghost use Rattle.bbm_roots.specs.Readings as spec;

use crate::load::RootValue;
use bbm_regimes::{AsidFrom, Kind, NoMemory, Page, Tag, World, same_tag, tag_of};
use smallvec::SmallVec;
use std::alloc::Global;
use std::marker::Model;

/// A tag that is readable for a root. A clause sees it as the reading of the definitions.
#[derive(Clone, Copy, PartialEq, Eq)]
pub struct Reading {
    /// The tag.
    pub tag: Tag,
    /// The first page of the root.
    pub root: Page,
}

impl Model for Reading {
    ghost use Rattle.bbm_rules.specs.Tags.{Reading};

    ghost Value = { Reading };

    ghost view = { λ r. record { tag = r.tag; root = r.root } };

    ghost inverse = { λ r. record { tag = r.tag; root = r.root } };
}

/// The place of a tag in the order `El2`, VMIDs, ASIDs, `Ttbr1`, 0 to 131073.
pub fn tag_rank(tag: Tag) -> u32
    ensures { result ≡ spec.tag_rank tag }
{
    match tag {
        Tag::El2 => 0,
        Tag::Vmid(v) => 1 + v as u32,
        Tag::Asid(a) => 65537 + a as u32,
        Tag::Ttbr1 => 131073,
    }
}

impl Default for Reading {
    fn default() -> Reading {
        Reading {
            tag: Tag::El2,
            root: Page::new(0).unwrap(),
        }
    }
}

/// Readable tags, each with its root. Few of them take no memory.
pub type Readings = SmallVec<Reading, 4>;

/// Adds the tag with the root, where there is one.
fn add(readings: &mut Readings, tag: Tag, root: Option<Page>) -> Result<(), NoMemory>
    ensures { OnOk result (readings.new.items ≡ readings.old.items ++ spec.reading_at tag root) }
{
    match root {
        Some(root) => readings.push(Reading { tag, root }).map_err(|_| NoMemory),
        None => Ok(()),
    }
}

/// Adds what the values of the register of a kind name, each with its own VMID or ASID.
fn add_own(readings: &mut Readings, kind: Kind, loads: &[RootValue]) -> Result<(), NoMemory>
    ensures { OnOk result (readings.new.items ≡ readings.old.items ++ flat_map (spec.own_reading kind) loads.now) }
{
    for load in loads {
        add(readings, tag_of(kind, load.number), load.root)?;
    }
    Ok(())
}

/// Adds what the values of the register of a kind name, which come in two parts, each with its own VMID or ASID.
fn add_all(
    readings: &mut Readings,
    kind: Kind,
    newest: &[RootValue],
    others: &[RootValue],
) -> Result<(), NoMemory>
    ensures { OnOk result (readings.new.items
        ≡ readings.old.items ++ flat_map (spec.own_reading kind) (newest.now ++ others.now)) }
{
    add_own(readings, kind, newest)?;
    add_own(readings, kind, others)
}

/// Adds what the values of TTBR0_EL1 name, under this ASID.
fn add_under(readings: &mut Readings, tag: Tag, loads: &[RootValue]) -> Result<(), NoMemory>
    ensures { OnOk result (readings.new.items ≡ readings.old.items ++ flat_map (spec.reading_under tag) loads.now) }
{
    for load in loads {
        add(readings, tag, load.root)?;
    }
    Ok(())
}

/// Adds what the values of TTBR0_EL1 name, which come in two parts, under this ASID.
fn add_all_under(
    readings: &mut Readings,
    tag: Tag,
    newest: &[RootValue],
    others: &[RootValue],
) -> Result<(), NoMemory>
    ensures { OnOk result (readings.new.items
        ≡ readings.old.items ++ flat_map (spec.reading_under tag) (newest.now ++ others.now)) }
{
    add_under(readings, tag, newest)?;
    add_under(readings, tag, others)
}

/// Adds what the values of TTBR0_EL1 name, under each ASID of values of TTBR1_EL1.
fn add_each(
    readings: &mut Readings,
    newest: &[RootValue],
    others: &[RootValue],
    second: &[RootValue],
) -> Result<(), NoMemory>
    ensures { OnOk result (readings.new.items ≡ readings.old.items
        ++ flat_map (spec.readings_with (newest.now ++ others.now)) second.now) }
{
    for load in second {
        add_all_under(readings, Tag::Asid(load.number), newest, others)?;
    }
    Ok(())
}

/// Adds what the values of TTBR0_EL1 name, each under its own ASID or under those of the values of TTBR1_EL1. Both come
/// in two parts.
fn add_asids(
    readings: &mut Readings,
    asid_from: AsidFrom,
    new_first: &[RootValue],
    first: &[RootValue],
    new_second: &[RootValue],
    second: &[RootValue],
) -> Result<(), NoMemory>
    ensures { OnOk result (readings.new.items ≡ readings.old.items
        ++ spec.asid_readings asid_from (new_first.now ++ first.now) (new_second.now ++ second.now)) }
{
    match asid_from {
        AsidFrom::Ttbr0 => add_all(readings, Kind::Ttbr0, new_first, first),
        AsidFrom::Ttbr1 => {
            add_each(readings, new_first, first, new_second)?;
            add_each(readings, new_first, first, second)
        }
    }
}

/// The readable tags of a PE, each with its root, of the readable values of the two registers of the world, each in two
/// parts. `NoMemory` where there is none. Source: Arm ARM (DDI 0487), "Translation Lookaside Buffers", and TCR_EL1.A1
/// of "AArch64 System register descriptions".
pub fn readings(
    alloc: Global,
    world: World,
    new_first: &[RootValue],
    first: &[RootValue],
    new_second: &[RootValue],
    second: &[RootValue],
) -> Result<Readings, NoMemory>
    ensures { IfOk result (λ readings. readings.items
        ≡ spec.readings_of world (new_first.now ++ first.now) (new_second.now ++ second.now)) }
{
    let mut readings = SmallVec::new(alloc);
    match world {
        World::Hyp(_) => {
            add_all(&mut readings, Kind::El2, new_first, first)?;
            add_all(&mut readings, Kind::S2, new_second, second)?;
        }
        World::Kernel(world) => {
            add_asids(
                &mut readings,
                world.asid_from,
                new_first,
                first,
                new_second,
                second,
            )?;
            add_all(&mut readings, Kind::Ttbr1, new_second, second)?;
        }
    }
    Ok(readings)
}

/// Whether the tag is readable for another root than this.
pub fn has_other(readings: &[Reading], tag: Tag, root: Page) -> bool
    ensures { result ≡ spec.has_other tag root readings.now }
{
    readings.iter().any(|reading| same_tag(reading.tag, tag) && reading.root != root)
}

/// Whether one of the values names a root.
fn names_some(loads: &[RootValue]) -> bool
    ensures { result ≡ spec.names_some loads.now }
{
    loads.iter().any(|load| load.root.is_some())
}

/// Whether one of the values names a root with this VMID or ASID.
fn names_with(loads: &[RootValue], number: u16) -> bool
    ensures { result ≡ spec.names_with number loads.now }
{
    loads
        .iter()
        .any(|load| load.root.is_some() && load.number == number)
}

/// Whether one of the values has this ASID.
fn has_number(loads: &[RootValue], number: u16) -> bool
    ensures { result ≡ spec.has_number number loads.now }
{
    loads.iter().any(|load| load.number == number)
}

/// Whether an ASID is readable for some root.
fn reads_asid(asid_from: AsidFrom, first: &[RootValue], second: &[RootValue], number: u16) -> bool
    ensures { result ≡ spec.reads_asid asid_from first.now second.now number }
{
    match asid_from {
        AsidFrom::Ttbr0 => names_with(first, number),
        AsidFrom::Ttbr1 => names_some(first) && has_number(second, number),
    }
}

/// Whether the tag is readable for some root, by the readable values of the two registers of the world. Source:
/// Arm ARM (DDI 0487), "Translation Lookaside Buffers".
pub fn reads_tag(world: World, first: &[RootValue], second: &[RootValue], tag: Tag) -> bool
    ensures { result ≡ spec.reads_tag world first.now second.now tag }
{
    match (world, tag) {
        (World::Hyp(_), Tag::El2) => names_some(first),
        (World::Hyp(_), Tag::Vmid(number)) => names_with(second, number),
        (World::Kernel(_), Tag::Ttbr1) => names_some(second),
        (World::Kernel(world), Tag::Asid(number)) => {
            reads_asid(world.asid_from, first, second, number)
        }
        _ => false,
    }
}
