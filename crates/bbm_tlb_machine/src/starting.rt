//! The entries that a step makes.

ghost use Rattle.std.specs.Prelude.{◌≡◌, ℕ, ◌+◌, ◌<◌, ◌&&◌, ◌==◌, List, length, reverse, IfOk};
ghost use Rattle.bbm_events.specs.declared.event.Event.{Event as TheEvent};
ghost use Rattle.bbm_rules.specs.Lists.{among, any, if_so};
ghost use Rattle.bbm_rules.specs.RegisterValues.{tag_number as number_in};
ghost use Rattle.bbm_rules.specs.Tags.{reads};
ghost use Rattle.bbm_rules.specs.Values.{is_readable};
ghost use Rattle.bbm_descriptor.specs.Descriptor.{is_valid as is_valid_value};
ghost use Rattle.bbm_tlb_machine.specs.Entry.{tag_of_entry};
ghost use Rattle.bbm_tlb_machine.specs.Step as spec;
ghost use Rattle.bbm_tlb_machine.specs.MachineRegisters.{asids_by};

use crate::entry::{Entry, Part};
use crate::geometry::{first_of, root_of};
use crate::given_up::is_given_up;
use crate::looking::can_read;
use bbm_descriptor::is_valid;
use bbm_events::{Event, Header, input_pages};
use bbm_oracle_tags::readings::is_read;
use bbm_oracle_tags::{readings_at, register_values};
use bbm_regimes::{AsidFrom, Kind, NoMemory, Pe, Place, Reg, World, tag_number};
use bbm_tlbi_scope::EntryKind;
use std::alloc::Global;

/// What a walk reads first, and under what. Source: project's own choice.
#[derive(Clone, Copy)]
pub struct FirstRead {
    /// The PE that reads it.
    pub pe: Pe,
    /// The kind of the tables.
    pub kind: Kind,
    /// The VMID or ASID under which it is read.
    pub number: u16,
    /// The place.
    pub place: Place,
    /// The value that is read.
    pub value: u64,
}

/// The kind of the entries that are read through tables of the kind.
fn entry_kind(kind: Kind) -> EntryKind
    ensures { result ≡ spec.entry_kind kind }
{
    match kind {
        Kind::El2 => EntryKind::El2,
        Kind::S2 => EntryKind::Stage2,
        Kind::Ttbr0 | Kind::Ttbr1 => EntryKind::El1,
    }
}

/// The VMID that such an entry has under a VMID or an ASID.
fn vmid_under(kind: Kind, number: u16) -> u16
    ensures { result ≡ spec.vmid_under kind number }
{
    match kind {
        Kind::S2 => number,
        Kind::El2 | Kind::Ttbr0 | Kind::Ttbr1 => 0,
    }
}

/// The ASID that it has.
fn asid_under(kind: Kind, number: u16) -> u16
    ensures { result ≡ spec.asid_under kind number }
{
    match kind {
        Kind::Ttbr0 | Kind::Ttbr1 => number,
        Kind::El2 | Kind::S2 => 0,
    }
}

/// The register whose values name the current ASIDs, None in the world of a hypervisor.
fn asid_register(header: &Header) -> Option<Reg>
    ensures { (h : List TheEvent) (p : ℕ) → spec.current_asids header.now.world h p ≡ asids_by result h p }
{
    match header.world {
        World::Hyp(_) => None,
        World::Kernel(world) => match world.asid_from {
            AsidFrom::Ttbr0 => Some(Reg::Ttbr0El1),
            AsidFrom::Ttbr1 => Some(Reg::Ttbr1El1),
        },
    }
}

/// Whether one of the values has the ASID.
fn has_asid(values: &[u64], number: u16) -> bool
    ensures { result ≡ any (λ value. number_in value == number) values.now }
{
    values.iter().any(|value| tag_number(*value) == number)
}

/// Whether the ASID is current at the PE.
#[tactic(auto, using(crate::proofs::ListWords::among_numbers))]
fn is_current(
    alloc: Global,
    header: &Header,
    events: &[Event],
    pe: Pe,
    number: u16,
) -> Result<bool, NoMemory>
    ensures { IfOk result (λ current. current
        ≡ among number (spec.current_asids header.now.world (reverse events.now) pe)) }
{
    match asid_register(header) {
        Some(reg) => {
            let values = register_values(alloc, events, pe, reg)?;
            Ok(has_asid(&values, number))
        }
        None => Ok(false),
    }
}

/// Whether an entry of the kind may have the number.
fn has_number(
    alloc: Global,
    header: &Header,
    events: &[Event],
    pe: Pe,
    kind: Kind,
    number: u16,
) -> Result<bool, NoMemory>
    ensures { IfOk result (λ has. has ≡ spec.has_number header.now.world (reverse events.now) pe kind number) }
{
    match kind {
        Kind::El2 => Ok(number == 0),
        Kind::Ttbr1 => is_current(alloc, header, events, pe, number),
        Kind::S2 | Kind::Ttbr0 => Ok(true),
    }
}

/// Whether the tag of the entry is readable at its PE for its root.
fn is_tagged(
    alloc: Global,
    header: &Header,
    events: &[Event],
    entry: &Entry,
) -> Result<bool, NoMemory>
    ensures { IfOk result (λ tagged. tagged
        ≡ reads header.now (reverse events.now) entry.now.pe (tag_of_entry entry.now) entry.now.root) }
{
    let readings = readings_at(alloc, header, events, entry.pe)?;
    Ok(is_read(&readings, entry.tag(), entry.root))
}

/// Whether the entry may be started.
fn may_start(
    alloc: Global,
    header: &Header,
    events: &[Event],
    entry: &Entry,
    number: u16,
) -> Result<bool, NoMemory>
    ensures { IfOk result (λ may. may ≡ spec.may_start header.now (reverse events.now) entry.now number) }
{
    if !is_tagged(alloc, header, events, entry)? {
        return Ok(false);
    }
    let last = entry.last;
    if !has_number(alloc, header, events, entry.pe, last.kind, number)? {
        return Ok(false);
    }
    Ok(
        can_read(header, events, last.place, entry.pe, last.value)
            && is_valid(last.kind, last.level, last.value),
    )
}

/// The entry that a start makes by this read; None where it may make none. `NoMemory` where there is none. Source:
/// project's own choice, after Arm ARM (DDI 0487), "Translation Lookaside Buffers".
pub fn start(
    alloc: Global,
    header: &Header,
    events: &[Event],
    read: FirstRead,
) -> Result<Option<Entry>, NoMemory>
    ensures { let entry = spec.started header.now (length (reverse events.now)) read.pe read.kind read.number read.place
        read.value in
        IfOk result (λ made. made ≡ if_so (spec.may_start header.now (reverse events.now) entry read.number) entry) }
{
    let entry = Entry {
        pe: read.pe,
        kind: entry_kind(read.kind),
        vmid: vmid_under(read.kind, read.number),
        asid: asid_under(read.kind, read.number),
        root: root_of(header, read.kind, read.place),
        last: Part {
            place: read.place,
            value: read.value,
            kind: read.kind,
            level: header.start_level(read.kind),
            first: first_of(header, read.kind, read.place),
        },
        above: Vec::new(alloc),
        since: events.len() as u64,
        joined: 0,
    };
    if may_start(alloc, header, events, &entry, read.number)? {
        Ok(Some(entry))
    } else {
        Ok(None)
    }
}

/// Whether the PE can read the value of the place, and it is valid one level below a part.
fn can_follow(
    header: &Header,
    events: &[Event],
    pe: Pe,
    part: Part,
    place: Place,
    value: u64,
) -> bool
    requires { part.level < 3 }
    ensures { result ≡ (is_readable header.now (reverse events.now) place pe value
        && is_valid_value part.kind (part.level + 1) value) }
{
    can_read(header, events, place, pe, value)
        && is_valid(part.kind, part.level.below().unwrap(), value)
}

/// The part one level below.
fn next_part(part: Part, place: Place, value: u64) -> Part
    requires { part.level < 3 }
    ensures { result ≡ spec.next_part part place value }
{
    let level = part.level.below().unwrap();
    Part {
        place,
        value,
        kind: part.kind,
        level,
        first: part.first + u64::from(place.index()) * input_pages(level),
    }
}

/// The entry that has one part more than the given one; None where there may be none, as where the entry's root was
/// given up since under a header with `unflushed`. `NoMemory` where there is none. Source: project's own choice, after
/// Arm ARM (DDI 0487), "Translation Lookaside Buffers".
pub fn extend(
    alloc: Global,
    header: &Header,
    events: &[Event],
    entry: &Entry,
    place: Place,
    value: u64,
) -> Result<Option<Entry>, NoMemory>
    ensures { IfOk result (λ made. made ≡ if_so
        (spec.may_extend header.now (reverse events.now) entry.now place value) (spec.extended entry.now place value)) }
{
    if is_given_up(header, events, entry) {
        return Ok(None);
    }
    let last = entry.last;
    if !last.is_above(place) {
        return Ok(None);
    }
    if !can_follow(header, events, entry.pe, last, place, value) {
        return Ok(None);
    }
    let above = entry.parts(alloc)?;
    Ok(Some(Entry {
        pe: entry.pe,
        kind: entry.kind,
        vmid: entry.vmid,
        asid: entry.asid,
        root: entry.root,
        last: next_part(last, place, value),
        above,
        since: entry.since,
        joined: entry.joined,
    }))
}

/// Whether it is a stage 2 entry.
fn is_stage2(kind: EntryKind) -> bool
    ensures { result ≡ spec.is_stage2 kind }
{
    matches!(kind, EntryKind::Stage2)
}

/// The combined entry of a stage 2 entry, joined now; None of an entry of another kind. `NoMemory` where there is none.
/// Source: project's own choice, after Arm ARM (DDI 0487), "Translation Lookaside Buffers".
pub fn combine(alloc: Global, events: &[Event], entry: &Entry) -> Result<Option<Entry>, NoMemory>
    ensures { IfOk result (λ made. made ≡ if_so (spec.is_stage2 entry.now.kind)
        (spec.combined (length (reverse events.now)) entry.now)) }
{
    if !is_stage2(entry.kind) {
        return Ok(None);
    }
    let above = entry.parts_above(alloc)?;
    Ok(Some(Entry {
        pe: entry.pe,
        kind: EntryKind::Combined,
        vmid: entry.vmid,
        asid: entry.asid,
        root: entry.root,
        last: entry.last,
        above,
        since: entry.since,
        joined: events.len() as u64,
    }))
}

/// Whether TLBs may copy entries to the PE.
fn may_share(header: &Header, pe: Pe) -> bool
    ensures { result ≡ spec.may_share header.now pe }
{
    header.cnp && pe.get() < header.pes
}

/// The copy of an entry at the PE; None where the header has no shared TLBs, or not this PE. `NoMemory` where there is
/// none. Source: project's own choice, after Arm ARM (DDI 0487), "Translation Lookaside Buffers".
pub fn share(
    alloc: Global,
    header: &Header,
    entry: &Entry,
    pe: Pe,
) -> Result<Option<Entry>, NoMemory>
    ensures { IfOk result (λ made. made ≡ if_so (spec.may_share header.now pe) (spec.shared entry.now pe)) }
{
    if !may_share(header, pe) {
        return Ok(None);
    }
    let above = entry.parts_above(alloc)?;
    Ok(Some(Entry {
        pe,
        kind: entry.kind,
        vmid: entry.vmid,
        asid: entry.asid,
        root: entry.root,
        last: entry.last,
        above,
        since: entry.since,
        joined: entry.joined,
    }))
}
