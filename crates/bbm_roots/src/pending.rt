//! Whole-tag TLBIs that no DSB has answered yet.
//! Source: project's own choice, where no other is named.

ghost use Rattle.std.specs.Prelude.{◌≡◌, ℕ, ◌+◌, ◌<◌, ◌≤◌, Bool, ◌&&◌, ◌||◌, not, nat_eq, true, false, None, OnOk};
ghost use Rattle.std.specs.Prelude.{if◌then◌else◌, length};
ghost use Rattle.indexmap.specs.IndexMap.{get};
ghost use Rattle.bbm_regimes.specs.PeMask.{pe_in};
ghost use Rattle.bbm_regimes.specs.declared.regime.Tag.{Tag as TheTag};
ghost use Rattle.bbm_roots.specs.Holds.{tag_key as key_of};
ghost use Rattle.bbm_roots.specs.Keyed.{OthersStay};
ghost use Rattle.bbm_roots.specs.RootPendings as spec;
ghost use Rattle.bbm_roots.specs.Readings.{has_tag as spec_has_tag, same_tag as spec_same_tag};

use crate::reading::Reading;
use crate::tag_key::TagKey;
use bbm_regimes::{NoMemory, Pe, PeMask, Tag};
use indexmap::IndexMap;
use std::alloc::Global;

/// The whole-tag TLBIs of one issuer that no DSB has answered yet, its broadcast ones or its others, by the key of the
/// tag that they take: the PEs that one of them reaches and at which the tag has been readable for no root since its
/// issue.
pub type Waits = IndexMap<TagKey, PeMask>;

/// Those of all issuers.
#[derive(Drop)]
pub struct Pendings {
    /// The issuers that may have some. Of any other nothing waits, whatever stands in its places.
    pub issuers: PeMask,
    /// Two places for each issuer: of its TLBIs that aren't broadcast, and of those that are.
    pub waits: Vec<Waits>,
}

/// Where nothing waits. It takes no memory.
pub fn no_pendings(alloc: Global) -> Pendings
    ensures { spec.IsQuiet result }
{
    Pendings {
        issuers: PeMask::none(),
        waits: Vec::new(alloc),
    }
}

/// The place of the issuer's TLBIs, broadcast ones or others, 0 to 255.
pub fn slot(issuer: Pe, broadcast: bool) -> usize
    ensures slot { result ≡ spec.slot_of issuer broadcast }
    ensures small { result < 256 }
{
    let first = 2 * issuer.get() as usize;
    if broadcast { first + 1 } else { first }
}

/// One more place, where nothing waits.
#[tactic(auto, using(crate::proofs::Places::growing))]
fn add_place(waits: &mut Vec<Waits>, alloc: Global) -> Result<(), NoMemory>
    ensures len { OnOk result (length waits.new.items ≡ length waits.old.items + 1) }
    ensures same { spec.SamePlaces waits.old.items waits.new.items }
{
    match waits.push(IndexMap::new(alloc)) {
        Ok(()) => Ok(()),
        Err(_) => Err(NoMemory),
    }
}

/// Makes places up to this number.
fn add_places(waits: &mut Vec<Waits>, alloc: Global, count: usize) -> Result<(), NoMemory>
    ensures len { OnOk result (count ≤ length waits.new.items) }
    ensures same { spec.SamePlaces waits.old.items waits.new.items }
{
    while waits.len() < count {
        add_place(waits, alloc)?;
    }
    Ok(())
}

/// Empties a place.
fn empty(map: &mut Waits)
    ensures { (key : ℕ) → get nat_eq map.new key ≡ None }
{
    if !map.is_empty() {
        map.clear();
    }
}

/// Empties the place of this number.
fn forget(waits: &mut Vec<Waits>, place: usize)
    requires { place < length waits.old.items }
    ensures waits { spec.EmptiesPlace place waits.old.items waits.new.items }
    ensures len { length waits.new.items ≡ length waits.old.items }
{
    empty(&mut waits[place]);
}

/// Makes the places of an issuer. `NoMemory` where there is none. What waits stays.
pub fn open(pendings: &mut Pendings, alloc: Global, issuer: Pe) -> Result<(), NoMemory>
    ensures same { spec.SamePendings pendings.old pendings.new }
    ensures known { OnOk result (pe_in pendings.new.issuers issuer ≡ true) }
    ensures room { OnOk result ((b : Bool) → spec.slot_of issuer b < length pendings.new.waits.items) }
{
    add_places(&mut pendings.waits, alloc, slot(issuer, true) + 1)?;
    if !pendings.issuers.has(issuer) {
        forget(&mut pendings.waits, slot(issuer, false));
        forget(&mut pendings.waits, slot(issuer, true));
        pendings.issuers = pendings.issuers.or(PeMask::one(issuer));
    }
    Ok(())
}

/// Whether the place is empty, or isn't there.
fn is_quiet(waits: &Vec<Waits>, place: usize) -> bool
    ensures { result ≡ true → (key : ℕ) → spec.wait_at waits.now.items place key ≡ None }
{
    place >= waits.len() || waits[place].is_empty()
}

/// Forgets an issuer whose places are empty. What waits stays.
pub fn close(pendings: &mut Pendings, issuer: Pe)
    ensures { spec.SamePendings pendings.old pendings.new }
{
    if is_quiet(&pendings.waits, slot(issuer, false))
        && is_quiet(&pendings.waits, slot(issuer, true))
    {
        pendings.issuers = pendings.issuers.minus(PeMask::one(issuer));
    }
}

/// Takes the PE out of the entry under the key.
fn narrow(map: &mut Waits, key: TagKey, pe: Pe)
    ensures others { OthersStay key map.old map.new }
    ensures here { (p : ℕ) → spec.wait_bit p (get nat_eq map.new key)
        ≡ (spec.wait_bit p (get nat_eq map.old key) && not (nat_eq p pe)) }
{
    match map.get_mut(&key) {
        Some(pes) => *pes = pes.minus(PeMask::one(pe)),
        None => {}
    }
}

/// Takes the PE out of the entry of the tag.
fn clear_tag(map: &mut Waits, tag: Tag, pe: Pe)
    ensures { (g : TheTag) (p : ℕ) → spec.wait_in map.new g p
        ≡ (spec.wait_in map.old g p && not (nat_eq p pe && spec_same_tag tag g)) }
{
    narrow(map, TagKey::new(tag), pe);
}

/// Takes the PE out of the entries of the tags that are readable. Where the place is empty it looks at none.
fn clear_place(map: &mut Waits, readings: &[Reading], pe: Pe)
    ensures { (g : TheTag) (p : ℕ) → spec.wait_in map.new g p
        ≡ (spec.wait_in map.old g p && not (nat_eq p pe && spec_has_tag g readings.now)) }
{
    if map.is_empty() {
        return;
    }
    for reading in readings {
        clear_tag(map, reading.tag, pe);
    }
}

/// Takes the PE out of the entries of the tags that are readable, in every place.
#[inline(never)]
fn clear_places(waits: &mut [Waits], readings: &[Reading], pe: Pe)
    ensures { (n : ℕ) (g : TheTag) (p : ℕ) → spec.wait_bit p (spec.wait_at waits.new n (key_of g))
        ≡ (spec.wait_bit p (spec.wait_at waits.old n (key_of g))
        && not (nat_eq p pe && spec_has_tag g readings.now)) }
{
    for map in waits.iter_mut() {
        clear_place(map, readings, pe);
    }
}

/// Takes the PE out of the entries of the tags that are readable.
#[inline]
pub fn clear(pendings: &mut Pendings, readings: &[Reading], pe: Pe)
    ensures { spec.Clears pe readings.now pendings.old pendings.new }
{
    if !pendings.issuers.is_empty() {
        clear_places(&mut pendings.waits, readings, pe);
    }
}
