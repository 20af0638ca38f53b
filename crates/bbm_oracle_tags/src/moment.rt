//! What one PE may use at a moment of a walk over the events.

ghost use Rattle.std.specs.Prelude.{◌≡◌, ◌++◌, List, [], ◌∷◌, ℕ, filter_map, flat_map, option_to_list, IfOk, OnOk};
ghost use Rattle.bbm_events.specs.declared.event.Event.{Event};
ghost use Rattle.bbm_regimes.specs.declared.regime.World.{World};
ghost use Rattle.bbm_oracle_tags.specs.Moments as spec;

use crate::readings::Reading;
use crate::registers::take_value;
use crate::roots::{Declared, same_kind, take_root};
use crate::standings::{Standing, at_start as standings_at_start, take_standing};
use bbm_events::{Event, Header};
use bbm_regimes::{AsidFrom, Kind, NoMemory, Pe, Reg, Tag, World, base_of, tag_number, tag_of};
use std::alloc::Global;

/// What one PE may use at a moment: the declared roots, the readable values of the root registers of its world, and its
/// readable standings. Source: project's own choice.
#[derive(Drop)]
pub struct Moment {
    /// The declared roots, that of the last `root` first.
    pub roots: Vec<Declared>,
    /// The readable values of TTBR0_EL2 or TTBR0_EL1, the newest first.
    pub first: Vec<u64>,
    /// The readable values of VTTBR_EL2 or TTBR1_EL1, the newest first.
    pub second: Vec<u64>,
    /// The readable standings, the newest first.
    pub standings: Vec<Standing>,
}

/// The first root register of the header's world.
fn first_reg(header: &Header) -> Reg
    ensures { result ≡ spec.first_reg header.now.world }
{
    match header.world {
        World::Hyp(_) => Reg::Ttbr0El2,
        World::Kernel(_) => Reg::Ttbr0El1,
    }
}

/// The second one.
fn second_reg(header: &Header) -> Reg
    ensures { result ≡ spec.second_reg header.now.world }
{
    match header.world {
        World::Hyp(_) => Reg::VttbrEl2,
        World::Kernel(_) => Reg::Ttbr1El1,
    }
}

/// The values of a register before any event.
fn at_start(alloc: Global) -> Result<Vec<u64>, NoMemory>
    ensures { IfOk result (λ values. values.items ≡ 0 ∷ []) }
{
    let mut values = Vec::new(alloc);
    values.push(0)?;
    Ok(values)
}

/// Whether one of the roots has this kind and this first page.
fn has_root(roots: &[Declared], kind: Kind, page: u64) -> bool
    ensures { result ≡ spec.has_root roots.now kind page }
{
    roots.iter().any(|root| root.page.get() == page && same_kind(root.kind, kind))
}

/// What a register value lets read under the tag.
fn reading_in(roots: &[Declared], kind: Kind, tag: Tag, value: u64) -> Option<Reading>
    ensures { result ≡ spec.reading_in roots.now kind tag value }
{
    match base_of(value) {
        Some(root) => {
            if has_root(roots, kind, root) {
                Some(Reading { tag, root })
            } else {
                None
            }
        }
        None => None,
    }
}

/// Adds what the value lets read under the tag.
fn add_reading(
    readings: &mut Vec<Reading>,
    roots: &[Declared],
    kind: Kind,
    tag: Tag,
    value: u64,
) -> Result<(), NoMemory>
    ensures { OnOk result (readings.new.items
        ≡ readings.old.items ++ option_to_list (spec.reading_in roots.now kind tag value)) }
{
    match reading_in(roots, kind, tag, value) {
        Some(reading) => {
            readings.push(reading)?;
            Ok(())
        }
        None => Ok(()),
    }
}

/// Adds what the values of the kind's register let read, each under its own VMID or ASID.
fn add_own(
    readings: &mut Vec<Reading>,
    roots: &[Declared],
    kind: Kind,
    values: &[u64],
) -> Result<(), NoMemory>
    ensures { OnOk result (readings.new.items
        ≡ readings.old.items ++ filter_map (spec.own_reading roots.now kind) values.now) }
{
    for value in values {
        add_reading(
            readings,
            roots,
            kind,
            tag_of(kind, tag_number(*value)),
            *value,
        )?;
    }
    Ok(())
}

/// Adds what the values of TTBR0_EL1 let read under the ASID of this value of TTBR1_EL1.
fn add_under(
    readings: &mut Vec<Reading>,
    roots: &[Declared],
    from: u64,
    values: &[u64],
) -> Result<(), NoMemory>
    ensures { OnOk result (readings.new.items
        ≡ readings.old.items ++ spec.readings_under roots.now values.now from) }
{
    for value in values {
        add_reading(
            readings,
            roots,
            Kind::Ttbr0,
            Tag::Asid(tag_number(from)),
            *value,
        )?;
    }
    Ok(())
}

/// Adds what the values of TTBR0_EL1 let read under each ASID of the values of TTBR1_EL1.
fn add_each(
    readings: &mut Vec<Reading>,
    roots: &[Declared],
    first: &[u64],
    second: &[u64],
) -> Result<(), NoMemory>
    ensures { OnOk result (readings.new.items
        ≡ readings.old.items ++ flat_map (spec.readings_under roots.now first.now) second.now) }
{
    for from in second {
        add_under(readings, roots, *from, first)?;
    }
    Ok(())
}

/// Adds what each standing lets read: its value of TTBR0_EL1 under the ASID of its value of TTBR1_EL1.
fn add_standings(
    readings: &mut Vec<Reading>,
    roots: &[Declared],
    standings: &[Standing],
) -> Result<(), NoMemory>
    ensures { OnOk result (readings.new.items
        ≡ readings.old.items ++ filter_map (spec.standing_reading roots.now) standings.now) }
{
    for standing in standings {
        add_reading(
            readings,
            roots,
            Kind::Ttbr0,
            Tag::Asid(tag_number(standing.second)),
            standing.first,
        )?;
    }
    Ok(())
}

impl Moment {
    ghost use Rattle.bbm_oracle_tags.specs.Moments.{IsMoment};

    /// The moment before any event. `NoMemory` where there is none.
    pub fn new(alloc: Global) -> Result<Moment, NoMemory>
        ensures { IfOk result (λ moment. (world : World) (p : ℕ) → IsMoment world p [] moment) }
    {
        let first = at_start(alloc)?;
        let second = at_start(alloc)?;
        let standings = standings_at_start(alloc)?;
        Ok(Moment {
            roots: Vec::new(alloc),
            first,
            second,
            standings,
        })
    }

    /// The moment after one more event. `NoMemory` where there is none.
    pub fn take(&mut self, header: &Header, event: &Event, pe: Pe) -> Result<(), NoMemory>
        ensures { OnOk result ((h : List Event) → IsMoment header.now.world pe h self.old
            → IsMoment header.now.world pe (event.now ∷ h) self.new) }
    {
        take_root(&mut self.roots, event)?;
        take_value(&mut self.first, event, pe, first_reg(header))?;
        take_value(&mut self.second, event, pe, second_reg(header))?;
        take_standing(&mut self.standings, event, pe)
    }

    /// Adds the readable tags of the root in TTBR0_EL1, where their ASIDs are those of TTBR1_EL1.
    fn add_second(&self, readings: &mut Vec<Reading>, inorder: bool) -> Result<(), NoMemory>
        ensures { OnOk result (readings.new.items ≡ readings.old.items
            ++ spec.second_readings_by inorder self.now.roots.items self.now.first.items self.now.second.items
            self.now.standings.items) }
    {
        if inorder {
            add_standings(readings, &self.roots, &self.standings)
        } else {
            add_each(readings, &self.roots, &self.first, &self.second)
        }
    }

    /// The readable tags, each with its root. `NoMemory` where there is none. Source: Arm ARM (DDI 0487), "Translation
    /// Lookaside Buffers", and TCR_EL1.A1 of "AArch64 System register descriptions".
    pub fn readings(&self, alloc: Global, header: &Header) -> Result<Vec<Reading>, NoMemory>
        ensures { IfOk result (λ readings. readings.items
            ≡ spec.readings_by header.now.words.inorder header.now.world self.now.roots.items self.now.first.items
            self.now.second.items self.now.standings.items) }
    {
        let mut readings = Vec::new(alloc);
        match header.world {
            World::Hyp(_) => {
                add_own(&mut readings, &self.roots, Kind::El2, &self.first)?;
                add_own(&mut readings, &self.roots, Kind::S2, &self.second)?;
            }
            World::Kernel(world) => {
                match world.asid_from {
                    AsidFrom::Ttbr0 => {
                        add_own(&mut readings, &self.roots, Kind::Ttbr0, &self.first)?
                    }
                    AsidFrom::Ttbr1 => self.add_second(&mut readings, header.words.inorder)?,
                }
                add_own(&mut readings, &self.roots, Kind::Ttbr1, &self.second)?;
            }
        }
        Ok(readings)
    }
}
