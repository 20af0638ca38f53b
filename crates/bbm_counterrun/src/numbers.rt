//! The VMIDs and ASIDs under which a walk may be made.

ghost use Rattle.std.specs.Prelude.{◌≡◌, ◌++◌, map, reverse, option_to_list, IfOk, OnOk};
ghost use Rattle.bbm_counterrun.specs.RunNumbers as spec;
ghost use Rattle.bbm_rules.specs.RegisterValues.{tag_number as number_in};
ghost use Rattle.bbm_tlb_machine.specs.Step.{asid_register as asid_register_of, current_asids};
ghost use Rattle.bbm_rules.specs.Tags.{readings};

use bbm_events::{Event, Header};
use bbm_oracle_tags::{Reading, readings_at, register_values};
use bbm_regimes::{AsidFrom, Kind, NoMemory, Pe, Reg, Tag, World, tag_number};
use std::alloc::Global;

/// The number of the tag, 0 where it has none; None of the tag that goes with every ASID.
fn number_of(tag: Tag) -> Option<u16>
    ensures { result ≡ spec.number_of tag }
{
    match tag {
        Tag::El2 => Some(0),
        Tag::Vmid(number) => Some(number),
        Tag::Asid(number) => Some(number),
        Tag::Ttbr1 => None,
    }
}

/// Adds the number of the tag that is read, where it has one.
fn add_number(reading: &Reading, numbers: &mut Vec<u16>) -> Result<(), NoMemory>
    ensures { OnOk result (numbers.new.items ≡ numbers.old.items ++ option_to_list (spec.number_of reading.now.tag)) }
{
    let Some(number) = number_of(reading.tag) else {
        return Ok(());
    };
    numbers.push(number)?;
    Ok(())
}

/// The numbers of the tags that are read.
fn numbers_of(alloc: Global, readings: &[Reading]) -> Result<Vec<u16>, NoMemory>
    ensures { IfOk result (λ numbers. numbers.items ≡ spec.numbers_of readings.now) }
{
    let mut numbers = Vec::new(alloc);
    for reading in readings {
        add_number(reading, &mut numbers)?;
    }
    Ok(numbers)
}

/// The numbers of these values of a register.
fn numbers_in(alloc: Global, values: &[u64]) -> Result<Vec<u16>, NoMemory>
    ensures { IfOk result (λ numbers. numbers.items ≡ map number_in values.now) }
{
    let mut numbers = Vec::new(alloc);
    for value in values {
        numbers.push(tag_number(*value))?;
    }
    Ok(numbers)
}

/// The register whose values name the current ASIDs.
fn asid_register(from: AsidFrom) -> Reg
    ensures { result ≡ asid_register_of from }
{
    match from {
        AsidFrom::Ttbr0 => Reg::Ttbr0El1,
        AsidFrom::Ttbr1 => Reg::Ttbr1El1,
    }
}

/// The ASIDs that are current at the PE.
fn current(alloc: Global, header: &Header, events: &[Event], pe: Pe) -> Result<Vec<u16>, NoMemory>
    ensures { IfOk result (λ numbers. numbers.items ≡ current_asids header.now.world (reverse events.now) pe) }
{
    match header.world {
        World::Kernel(world) => {
            let reg = asid_register(world.asid_from);
            let values = register_values(alloc, events, pe, reg)?;
            numbers_in(alloc, &values)
        }
        World::Hyp(_) => Ok(Vec::new(alloc)),
    }
}

/// The numbers of the tags that are readable at the PE.
fn readable(alloc: Global, header: &Header, events: &[Event], pe: Pe) -> Result<Vec<u16>, NoMemory>
    ensures { IfOk result (λ numbers. numbers.items ≡ spec.numbers_of (readings header.now (reverse events.now) pe)) }
{
    let readings = readings_at(alloc, header, events, pe)?;
    numbers_of(alloc, &readings)
}

/// The numbers that are tried for a walk of the PE through tables of the kind after these events: those of the tags that
/// are readable there, in the order of their readings; and of the upper range, whose tag has none, the current ASIDs.
/// `NoMemory` where there is none.
pub fn numbers_at(
    alloc: Global,
    header: &Header,
    events: &[Event],
    pe: Pe,
    kind: Kind,
) -> Result<Vec<u16>, NoMemory>
    ensures { IfOk result (λ numbers. numbers.items ≡ spec.numbers_by header.now (reverse events.now) pe kind) }
{
    match kind {
        Kind::El2 | Kind::S2 | Kind::Ttbr0 => readable(alloc, header, events, pe),
        Kind::Ttbr1 => current(alloc, header, events, pe),
    }
}
