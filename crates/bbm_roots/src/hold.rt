//! Which PEs hold a tag for a root, or keep one that a root left.
//! Source: project's own choice, where no other is named.

ghost use Rattle.std.specs.Prelude.{◌≡◌, ℕ, Bool, ◌&&◌, ◌||◌, not, nat_eq, true, false, Option, Some, None};
ghost use Rattle.std.specs.Prelude.{is_some, IfSome, OnOk, if◌then◌else◌};
ghost use Rattle.indexmap.specs.IndexMap.{get, keys};
ghost use Rattle.bbm_regimes.specs.PeMask.{pe_in};
ghost use Rattle.bbm_regimes.specs.declared.regime.Tag.{Tag as TheTag};
ghost use Rattle.bbm_roots.specs.Holds as spec;
ghost use Rattle.bbm_roots.specs.Keyed.{OthersStay};
ghost use Rattle.bbm_barriers.specs.Options.{answers as dsb_answers};
ghost use Rattle.bbm_roots.specs.RootPendings.{slot_of, wait_at, wait_bit, wait_in, EmptiesPlace};
ghost use Rattle.bbm_lemmas.specs.ListWords.{same_flag};
ghost use Rattle.bbm_roots.specs.Readings.{same_tag as spec_same_tag, has_reading as spec_has_reading};
ghost use Rattle.bbm_roots.specs.Readings.{has_tag as spec_has_tag};
ghost use Rattle.bbm_roots.specs.TagsByRoot.{is_listed, AreListed};

use crate::by_root::{ByRoot, Tags, list, unlist};
use crate::pending::{Waits, slot};
use crate::reading::Reading;
use crate::tag_key::TagKey;
use bbm_barriers::{Dsb, answers};
use bbm_regimes::{NoMemory, Page, Pe, PeCount, PeMask, Tag};
use indexmap::IndexMap;
use std::alloc::Global;

/// The tags that are held or left, each with its root and the PEs, by the key of the tag.
pub type Holds = IndexMap<TagKey, Held>;

/// The PEs at which a root holds a tag, or one that was given up has left it.
#[derive(Clone, Copy)]
pub struct Held {
    /// The first page of the root.
    pub root: Page,
    /// The PEs.
    pub pes: PeMask,
    /// Whether the root was given up.
    pub left: bool,
}

/// Whether one of the first n PEs is in the set.
pub fn some_pe(pes: PeMask, n: PeCount) -> bool
    ensures { result ≡ spec.some_pe n (λ p. pe_in pes p) }
{
    !pes.and(PeMask::all(n)).is_empty()
}

impl Held {
    ghost use Rattle.bbm_roots.specs.Holds.{is_hold};

    /// Whether the entry is that of the root, which wasn't given up.
    pub fn is_hold(&self, root: Page) -> bool
        ensures { result ≡ is_hold root self.now }
    {
        self.root == root && !self.left
    }
}

/// Whether the PE holds the tag for the root, as the entry of the tag says.
pub fn is_held_at(holds: &Holds, tag: Tag, root: Page, pe: Pe) -> bool
    ensures { result ≡ spec.hold_in holds.now tag root pe }
{
    match holds.get(&TagKey::new(tag)) {
        Some(held) => held.is_hold(root) && held.pes.has(pe),
        None => false,
    }
}

/// The keys of the tags that have an entry, in no order.
pub fn tag_keys(holds: &Holds) -> &[TagKey]
    ensures { result.now ≡ keys holds.now }
{
    holds.keys().as_slice()
}

/// Makes an entry of the tag and the root, with no PE in it, where the tag has none.
fn make_entry(holds: &mut Holds, tag: Tag, root: Page) -> Result<(), NoMemory>
    ensures same { spec.SameHolds holds.old holds.new }
    ensures made { OnOk result ((g : TheTag) → spec.has_entry holds.new g
        ≡ (spec.has_entry holds.old g || spec_same_tag tag g)) }
{
    let key = TagKey::new(tag);
    if holds.contains_key(&key) {
        return Ok(());
    }
    let pes = PeMask::none();
    let left = false;
    match holds.insert(key, Held { root, pes, left }) {
        Ok(_) => Ok(()),
        Err(_) => Err(NoMemory),
    }
}

/// Makes an entry for each readable tag that has none, and lists it for its root. `NoMemory` where there is none.
/// Nobody holds more or less, and no more or less is left.
pub fn make_room(
    holds: &mut Holds,
    by_root: &mut ByRoot,
    alloc: Global,
    readings: &[Reading],
) -> Result<(), NoMemory>
    ensures same { spec.SameHolds holds.old holds.new }
    ensures made { OnOk result ((g : TheTag) → spec_has_tag g readings.now ≡ true → spec.has_entry holds.new g ≡ true) }
    ensures kept { AreListed holds.old by_root.old → AreListed holds.new by_root.new }
    ensures listed { OnOk result ((g : TheTag) (r : ℕ) → spec_has_reading g r readings.now ≡ true
        → is_listed by_root.new r (spec.tag_key g) ≡ true) }
{
    for reading in readings {
        make_entry(holds, reading.tag, reading.root)?;
        list(by_root, alloc, reading.tag, reading.root)?;
    }
    Ok(())
}

/// Puts the PE into the entry: for this root, where another may have been there before, or one that left the tag.
fn enter_one(held: &mut Held, root: Page, pe: Pe)
    ensures held { (r p : ℕ) → spec.keeps_bit false r p held.new
        ≡ (nat_eq root r && (spec.keeps_bit false r p held.old || nat_eq p pe)) }
    ensures left { (r p : ℕ) → spec.keeps_bit true r p held.new ≡ false }
{
    let one = PeMask::one(pe);
    if held.is_hold(root) {
        held.pes = held.pes.or(one);
    } else {
        *held = Held {
            root,
            pes: one,
            left: false,
        };
    }
}

/// Puts the PE into the entry of the tag, for this root alone.
fn mark_one(holds: &mut Holds, tag: Tag, root: Page, pe: Pe)
    requires { spec.has_entry holds.old tag ≡ true }
    ensures bits { (g : TheTag) (r p : ℕ) → spec.hold_in holds.new g r p ≡ (if spec_same_tag tag g
        then nat_eq root r && (spec.hold_in holds.old g r p || nat_eq p pe) else spec.hold_in holds.old g r p) }
    ensures left { (g : TheTag) (r p : ℕ) → spec.left_in holds.new g r p
        ≡ (spec.left_in holds.old g r p && not (spec_same_tag tag g)) }
    ensures entries { (g : TheTag) → spec.has_entry holds.new g ≡ spec.has_entry holds.old g }
{
    enter(holds, TagKey::new(tag), root, pe);
}

/// Puts the PE into the entry under the key, for this root alone.
fn enter(holds: &mut Holds, key: TagKey, root: Page, pe: Pe)
    requires { is_some (get nat_eq holds.old key) ≡ true }
    ensures others { OthersStay key holds.old holds.new }
    ensures here { (r p : ℕ) → spec.entry_bit false r p (get nat_eq holds.new key)
        ≡ (nat_eq root r && (spec.entry_bit false r p (get nat_eq holds.old key) || nat_eq p pe)) }
    ensures left { (r p : ℕ) → spec.entry_bit true r p (get nat_eq holds.new key) ≡ false }
    ensures known { (q : ℕ) → is_some (get nat_eq holds.new q) ≡ is_some (get nat_eq holds.old q) }
{
    match holds.get_mut(&key) {
        Some(held) => enter_one(held, root, pe),
        None => {}
    }
}

/// Puts the PE into the entries of the readable tags, where no other root holds one of them and none has left one.
pub fn mark(holds: &mut Holds, readings: &[Reading], pe: Pe)
    requires { (g : TheTag) → spec_has_tag g readings.now ≡ true → spec.has_entry holds.old g ≡ true }
    ensures marked { spec.IsCalm holds.old readings.now → spec.Marks holds.old holds.new pe readings.now }
    ensures only { (g : TheTag) (r p : ℕ) → spec.hold_in holds.new g r p ≡ true
        → (spec.hold_in holds.old g r p || spec_has_reading g r readings.now) ≡ true }
{
    for reading in readings {
        mark_one(holds, reading.tag, reading.root, pe);
    }
}

/// Takes the PEs out of the entry under the key. Its root, where it has none any more.
fn narrow(holds: &mut Holds, key: TagKey, pes: PeMask) -> Option<Page>
    ensures others { OthersStay key holds.old holds.new }
    ensures here { (l : Bool) (r p : ℕ) → spec.entry_bit l r p (get nat_eq holds.new key)
        ≡ (spec.entry_bit l r p (get nat_eq holds.old key) && not (pe_in pes p)) }
    ensures none { IfSome result (λ root. (l : Bool) (r p : ℕ)
        → spec.entry_bit l r p (get nat_eq holds.new key) ≡ false) }
{
    match holds.get_mut(&key) {
        Some(held) => {
            held.pes = held.pes.minus(pes);
            if held.pes.is_empty() {
                Some(held.root)
            } else {
                None
            }
        }
        None => None,
    }
}

/// Forgets the entry under the key, in which there is no PE.
fn forget(holds: &mut Holds, key: TagKey)
    requires { (l : Bool) (r p : ℕ) → spec.entry_bit l r p (get nat_eq holds.old key) ≡ false }
    ensures { spec.SameHolds holds.old holds.new }
{
    holds.swap_remove(&key);
}

/// Takes the PEs out of the entry under the key, and forgets it where it has none any more.
fn take_from(holds: &mut Holds, by_root: &mut ByRoot, key: TagKey, pes: PeMask)
    ensures holds { (l : Bool) (g : TheTag) (r p : ℕ) → spec.keeps_in holds.new l g r p
        ≡ (spec.keeps_in holds.old l g r p && not (nat_eq (spec.tag_key g) key && pe_in pes p)) }
    ensures listed { AreListed holds.old by_root.old → AreListed holds.new by_root.new }
{
    if let Some(root) = narrow(holds, key, pes) {
        forget(holds, key);
        unlist(by_root, key, root);
    }
}

/// Marks the entry under the key as left, where it is the root's.
fn leave_under(holds: &mut Holds, key: TagKey, root: Page)
    ensures others { OthersStay key holds.old holds.new }
    ensures held { (r p : ℕ) → spec.entry_bit false r p (get nat_eq holds.new key)
        ≡ (spec.entry_bit false r p (get nat_eq holds.old key) && not (nat_eq r root)) }
    ensures left { (r p : ℕ) → spec.entry_bit true r p (get nat_eq holds.new key)
        ≡ (spec.entry_bit true r p (get nat_eq holds.old key)
        || (nat_eq r root && spec.entry_bit false r p (get nat_eq holds.old key))) }
{
    match holds.get_mut(&key) {
        Some(held) => held.left |= held.root == root,
        None => {}
    }
}

/// Marks the entries of these tags as left, where they are the root's.
fn leave_each(holds: &mut Holds, tags: &Tags, root: Page)
    ensures { spec.LeavesThose holds.old holds.new root (λ g. is_some (get nat_eq tags.now (spec.tag_key g))) }
{
    for index in 0..tags.len() {
        if let Some((key, _tag)) = tags.get_index(index) {
            leave_under(holds, *key, root);
        }
    }
}

/// Marks what the root holds as left. It is listed for the root no more.
pub fn leave(holds: &mut Holds, by_root: &mut ByRoot, root: Page)
    requires { AreListed holds.old by_root.old }
    ensures left { spec.Leaves holds.old holds.new root }
    ensures listed { AreListed holds.new by_root.new }
{
    if let Some(tags) = by_root.swap_remove(&root.get()) {
        leave_each(holds, &tags, root);
    }
}

/// Takes the tags away that wait in this place, and empties it.
fn release_all(holds: &mut Holds, by_root: &mut ByRoot, waits: &mut Waits)
    ensures holds { (l : Bool) (g : TheTag) (r p : ℕ) → spec.keeps_in holds.new l g r p
        ≡ (spec.keeps_in holds.old l g r p && not (wait_in waits.old g p)) }
    ensures waits { (key : ℕ) → get nat_eq waits.new key ≡ None }
    ensures listed { AreListed holds.old by_root.old → AreListed holds.new by_root.new }
{
    for _count in 0..waits.len() {
        if let Some((key, pes)) = waits.pop() {
            take_from(holds, by_root, key, pes);
        }
    }
}

/// Takes the tags away that wait in the place of this number, and empties it, where it is there.
fn release_place(holds: &mut Holds, by_root: &mut ByRoot, waits: &mut Vec<Waits>, place: usize)
    ensures holds { (l : Bool) (g : TheTag) (r p : ℕ) → spec.keeps_in holds.new l g r p
        ≡ (spec.keeps_in holds.old l g r p && not (wait_bit p (wait_at waits.old.items place (spec.tag_key g)))) }
    ensures waits { EmptiesPlace place waits.old.items waits.new.items }
    ensures listed { AreListed holds.old by_root.old → AreListed holds.new by_root.new }
{
    if place < waits.len() {
        release_all(holds, by_root, &mut waits[place]);
    }
}

/// Takes the tags away that a DSB takes away by its issuer's TLBIs, broadcast ones or others, and forgets what it
/// answers.
fn release_one(
    holds: &mut Holds,
    by_root: &mut ByRoot,
    waits: &mut Vec<Waits>,
    issuer: Pe,
    dsb: Dsb,
    broadcast: bool,
)
    ensures holds { (l : Bool) (g : TheTag) (r p : ℕ) → spec.keeps_in holds.new l g r p
        ≡ (spec.keeps_in holds.old l g r p && not (dsb_answers dsb broadcast
        && wait_bit p (wait_at waits.old.items (slot_of issuer broadcast) (spec.tag_key g)))) }
    ensures waits { (q : ℕ) (b : Bool) (key : ℕ) → wait_at waits.new.items (slot_of q b) key
        ≡ (if (nat_eq q issuer && same_flag broadcast b) && dsb_answers dsb broadcast then None
        else wait_at waits.old.items (slot_of q b) key) }
    ensures listed { AreListed holds.old by_root.old → AreListed holds.new by_root.new }
{
    if answers(dsb, broadcast) {
        release_place(holds, by_root, waits, slot(issuer, broadcast));
    }
}

/// Takes the tags away that a DSB of the issuer takes away, and forgets what it answers.
pub fn release(
    holds: &mut Holds,
    by_root: &mut ByRoot,
    waits: &mut Vec<Waits>,
    issuer: Pe,
    dsb: Dsb,
)
    ensures holds { (l : Bool) (g : TheTag) (r p : ℕ) → spec.keeps_in holds.new l g r p
        ≡ (spec.keeps_in holds.old l g r p && not (
        (dsb_answers dsb true && wait_bit p (wait_at waits.old.items (slot_of issuer true) (spec.tag_key g)))
        || (dsb_answers dsb false && wait_bit p (wait_at waits.old.items (slot_of issuer false) (spec.tag_key g))))) }
    ensures waits { (q : ℕ) (b : Bool) (key : ℕ) → wait_at waits.new.items (slot_of q b) key
        ≡ (if nat_eq q issuer && dsb_answers dsb b then None else wait_at waits.old.items (slot_of q b) key) }
    ensures listed { AreListed holds.old by_root.old → AreListed holds.new by_root.new }
{
    release_one(holds, by_root, waits, issuer, dsb, true);
    release_one(holds, by_root, waits, issuer, dsb, false);
}
