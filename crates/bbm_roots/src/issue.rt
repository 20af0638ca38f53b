//! What the issue of a whole-tag TLBI leaves to its answer.

ghost use Rattle.std.specs.Prelude.{◌≡◌, ℕ, ◌<◌, Bool, ◌&&◌, ◌||◌, not, nat_eq, true, false, Option, Some, OnOk};
ghost use Rattle.std.specs.Prelude.{IfSome, is_some, length, nat_lt};
ghost use Rattle.std.specs.List.{list_any};
ghost use Rattle.indexmap.specs.IndexMap.{get, keys};
ghost use Rattle.bbm_regimes.specs.PeMask.{pe_in};
ghost use Rattle.bbm_regimes.specs.declared.regime.Tag.{Tag as TheTag};
ghost use Rattle.bbm_tlbi_scope.specs.ScopeTags.{takes_whole_tag};
ghost use Rattle.bbm_roots.specs.Holds.{kept_in, tag_key as key_of};
ghost use Rattle.bbm_roots.specs.Keyed.{OthersStay};
ghost use Rattle.bbm_lemmas.specs.ListWords.{same_flag};
ghost use Rattle.bbm_roots.specs.RootPendings as spec;
ghost use Rattle.bbm_roots.specs.Readings.{same_tag as spec_same_tag};

use crate::hold::{Holds, tag_keys};
use crate::pending::{Pendings, Waits, open, slot};
use crate::registers::Registers;
use crate::tag_key::TagKey;
use bbm_regimes::{NoMemory, Pe, PeMask, Tag, World};
use bbm_tlbi_scope::{Family, Scope, whole_tag};
use std::alloc::Global;

/// Whether a TLBI of this scope, under this VMID, takes the whole tag.
fn takes(scope: &Scope, vmid: Option<u16>, tag: Tag) -> bool
    ensures { result ≡ takes_whole_tag scope.now vmid tag }
{
    whole_tag(*scope, vmid, tag)
}

/// Whether TLBIs of the scope's family take whole tags of the world. Source: Arm ARM (DDI 0487), "TLB maintenance
/// instructions".
pub fn takes_tags(world: World, scope: &Scope) -> bool
    ensures { result ≡ spec.takes_tags world scope.now.family }
{
    match world {
        World::Hyp(_) => matches!(
            scope.family,
            Family::El2All | Family::E1All | Family::VmAll12
        ),
        World::Kernel(_) => matches!(scope.family, Family::VmAll1 | Family::Asid),
    }
}

/// The one tag of which alone TLBIs of this scope, under this VMID, take the whole; None where there may be more.
fn one_tag(scope: &Scope, vmid: Option<u16>) -> Option<Tag>
    ensures { IfSome result (λ one. (tag : TheTag) → takes_whole_tag scope.now vmid tag ≡ true → tag ≡ one) }
{
    match scope.family {
        Family::El2All => Some(Tag::El2),
        Family::VmAll12 => match vmid {
            Some(number) => Some(Tag::Vmid(number)),
            None => None,
        },
        Family::Asid => match scope.asid {
            Some(number) => Some(Tag::Asid(number)),
            None => None,
        },
        _ => None,
    }
}

/// Makes an entry of the tag, with no PE in it, where there is none.
fn make_entry(waits: &mut Waits, tag: Tag) -> Result<(), NoMemory>
    ensures same { spec.SameWaits waits.old waits.new }
    ensures made { OnOk result ((g : TheTag) → spec.has_wait waits.new g
        ≡ (spec.has_wait waits.old g || spec_same_tag tag g)) }
{
    let key = TagKey::new(tag);
    if waits.contains_key(&key) {
        return Ok(());
    }
    match waits.insert(key, PeMask::none()) {
        Ok(_) => Ok(()),
        Err(_) => Err(NoMemory),
    }
}

/// Whether the TLBI takes a tag that is held.
fn takes_some(holds: &Holds, scope: &Scope, vmid: Option<u16>) -> bool
    ensures { result ≡ list_any (spec.takes_key scope.now vmid) (keys holds.now) }
{
    tag_keys(holds)
        .iter()
        .any(|key| takes(scope, vmid, key.tag()))
}

/// The PEs that a TLBI of the issuer reaches.
fn reached(registers: &Registers, issuer: Pe, broadcast: bool) -> PeMask
    ensures { (p : ℕ) → nat_lt p registers.now.pes ≡ true → pe_in result p ≡ (broadcast || nat_eq p issuer) }
{
    if broadcast {
        PeMask::all(registers.pes)
    } else {
        PeMask::one(issuer)
    }
}

/// Whether a TLBI of the issuer for the tag takes it from a PE that holds it: one that it reaches and at which the tag
/// is readable for no root.
fn takes_from(holds: &Holds, registers: &Registers, issuer: Pe, broadcast: bool, tag: Tag) -> bool
    ensures { (p : ℕ) → kept_in holds.now tag p ≡ true → spec.unread_at registers.now issuer broadcast tag p ≡ true
        → result ≡ true }
{
    match holds.get(&TagKey::new(tag)) {
        Some(held) => {
            let pes = reached(registers, issuer, broadcast).and(held.pes);
            registers.first_unread(pes, tag).is_some()
        }
        None => false,
    }
}

/// Whether the TLBI of the issuer may take a tag from a PE that holds it. One that takes one tag alone looks that tag
/// up alone.
pub fn takes_held(
    holds: &Holds,
    registers: &Registers,
    issuer: Pe,
    scope: &Scope,
    vmid: Option<u16>,
) -> bool
    ensures { spec.EachLost scope.now vmid holds.now registers.now issuer (λ tag. result) }
{
    match one_tag(scope, vmid) {
        Some(tag) => takes_from(holds, registers, issuer, scope.broadcast, tag),
        None => takes_some(holds, scope, vmid),
    }
}

/// Makes an entry of the tag, where the TLBI takes it.
fn make_taken(waits: &mut Waits, scope: &Scope, vmid: Option<u16>, tag: Tag) -> Result<(), NoMemory>
    ensures same { spec.SameWaits waits.old waits.new }
    ensures made { OnOk result ((g : TheTag) → spec.has_wait waits.new g
        ≡ (spec.has_wait waits.old g || (takes_whole_tag scope.now vmid tag && spec_same_tag tag g))) }
{
    if takes(scope, vmid, tag) {
        make_entry(waits, tag)
    } else {
        Ok(())
    }
}

/// Makes an entry of each tag that is held and that the TLBI takes. One that takes one tag alone looks at that alone.
fn make_entries(
    waits: &mut Waits,
    holds: &Holds,
    scope: &Scope,
    vmid: Option<u16>,
) -> Result<(), NoMemory>
    ensures same { spec.SameWaits waits.old waits.new }
    ensures made { OnOk result (spec.EachTaken scope.now vmid holds.now (spec.has_wait waits.new)) }
{
    if let Some(tag) = one_tag(scope, vmid) {
        return make_entry(waits, tag);
    }
    for key in tag_keys(holds) {
        make_taken(waits, scope, vmid, key.tag())?;
    }
    Ok(())
}

/// Makes an entry of each tag that is held and that the TLBI takes, in the place of this number.
fn make_place(
    waits: &mut Vec<Waits>,
    place: usize,
    holds: &Holds,
    scope: &Scope,
    vmid: Option<u16>,
) -> Result<(), NoMemory>
    requires { place < length waits.old.items }
    ensures same { (n : ℕ) (g : TheTag) (p : ℕ) → spec.wait_bit p (spec.wait_at waits.new.items n (key_of g))
        ≡ spec.wait_bit p (spec.wait_at waits.old.items n (key_of g)) }
    ensures made { OnOk result (spec.EachTaken scope.now vmid holds.now
        (λ g. is_some (spec.wait_at waits.new.items place (key_of g)))) }
{
    make_entries(&mut waits[place], holds, scope, vmid)
}

/// Makes an entry of the issuer for each tag that is held and that its TLBI takes. `NoMemory` where there is none. No
/// DSB takes more or less away.
pub fn make_room(
    alloc: Global,
    pendings: &mut Pendings,
    holds: &Holds,
    issuer: Pe,
    scope: &Scope,
    vmid: Option<u16>,
) -> Result<(), NoMemory>
    ensures same { spec.SamePendings pendings.old pendings.new }
    ensures made { OnOk result (spec.EachTaken scope.now vmid holds.now
        (spec.has_pending pendings.new issuer scope.now.broadcast)) }
{
    open(pendings, alloc, issuer)?;
    let place = slot(issuer, scope.broadcast);
    make_place(&mut pendings.waits, place, holds, scope, vmid)
}

/// The PEs that a TLBI of the issuer reaches and at which the tag is readable for no root.
fn unread(registers: &Registers, issuer: Pe, broadcast: bool, tag: Tag) -> PeMask
    ensures { (p : ℕ) → pe_in result p ≡ spec.unread_at registers.now issuer broadcast tag p }
{
    registers.unread(reached(registers, issuer, broadcast), tag)
}

/// Puts the PEs into the entry under the key.
fn widen(waits: &mut Waits, key: TagKey, pes: PeMask)
    ensures others { OthersStay key waits.old waits.new }
    ensures here { (p : ℕ) → spec.wait_bit p (get nat_eq waits.new key)
        ≡ (spec.wait_bit p (get nat_eq waits.old key) || (is_some (get nat_eq waits.old key) && pe_in pes p)) }
    ensures known { (k : ℕ) → is_some (get nat_eq waits.new k) ≡ is_some (get nat_eq waits.old k) }
{
    match waits.get_mut(&key) {
        Some(waiting) => *waiting = waiting.or(pes),
        None => {}
    }
}

/// Notes a TLBI of the issuer in the entry of the tag, where it takes it: the PEs that it reaches and at which the tag
/// is readable for no root.
fn note_one(
    waits: &mut Waits,
    registers: &Registers,
    issuer: Pe,
    scope: &Scope,
    vmid: Option<u16>,
    tag: Tag,
)
    ensures bits { (g : TheTag) (p : ℕ) → spec.wait_in waits.new g p
        ≡ (spec.wait_in waits.old g p || (spec.has_wait waits.old g
        && (spec_same_tag tag g && (takes_whole_tag scope.now vmid g
        && spec.unread_at registers.now issuer scope.now.broadcast g p)))) }
    ensures known { (g : TheTag) → spec.has_wait waits.new g ≡ spec.has_wait waits.old g }
{
    if takes(scope, vmid, tag) {
        let pes = unread(registers, issuer, scope.broadcast, tag);
        widen(waits, TagKey::new(tag), pes);
    }
}

/// Notes a TLBI of the issuer in the entries of the tags that are held and that it takes. One that takes one tag alone
/// looks at that alone.
fn note_entries(
    waits: &mut Waits,
    holds: &Holds,
    registers: &Registers,
    issuer: Pe,
    scope: &Scope,
    vmid: Option<u16>,
)
    ensures { spec.NotesTaken scope.now vmid holds.now registers.now issuer waits.old waits.new }
{
    if let Some(tag) = one_tag(scope, vmid) {
        return note_one(waits, registers, issuer, scope, vmid, tag);
    }
    for key in tag_keys(holds) {
        note_one(waits, registers, issuer, scope, vmid, key.tag());
    }
}

/// Notes a TLBI of the issuer in the entries of the tags that are held and that it takes, in the issuer's place.
fn note_place(
    waits: &mut Vec<Waits>,
    holds: &Holds,
    registers: &Registers,
    issuer: Pe,
    scope: &Scope,
    vmid: Option<u16>,
)
    ensures { (n : ℕ) (g : TheTag) (h p : ℕ) → kept_in holds.now g h ≡ true
        → spec.wait_bit p (spec.wait_at waits.new.items n (key_of g))
        ≡ (spec.wait_bit p (spec.wait_at waits.old.items n (key_of g))
        || (is_some (spec.wait_at waits.old.items n (key_of g)) && (nat_eq n (spec.slot_of issuer scope.now.broadcast)
        && (takes_whole_tag scope.now vmid g && spec.unread_at registers.now issuer scope.now.broadcast g p)))) }
{
    let place = slot(issuer, scope.broadcast);
    if place < waits.len() {
        note_entries(&mut waits[place], holds, registers, issuer, scope, vmid);
    }
}

/// Notes a TLBI of the issuer in the entries of the tags that are held and that it takes: the PEs that it reaches and
/// at which the tag is readable for no root. It takes no memory. An issuer of whom nothing waits has no entries.
pub fn note(
    pendings: &mut Pendings,
    holds: &Holds,
    registers: &Registers,
    issuer: Pe,
    scope: &Scope,
    vmid: Option<u16>,
)
    ensures { (q : ℕ) (b : Bool) (g : TheTag) (h p : ℕ) → kept_in holds.now g h ≡ true
        → spec.pending_in pendings.new q b g p
        ≡ (spec.pending_in pendings.old q b g p || (spec.has_pending pendings.old q b g
        && ((nat_eq q issuer && same_flag scope.now.broadcast b && takes_whole_tag scope.now vmid g)
        && spec.unread_at registers.now issuer scope.now.broadcast g p))) }
{
    if pendings.issuers.has(issuer) {
        note_place(&mut pendings.waits, holds, registers, issuer, scope, vmid);
    }
}
