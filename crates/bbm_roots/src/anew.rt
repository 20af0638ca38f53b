//! Whether a PE holds what a new value of a register makes readable.
//! Source: project's own choice.

ghost use Rattle.std.specs.Prelude.{◌≡◌, Some, true};
ghost use Rattle.std.specs.List.{list_all};
ghost use Rattle.bbm_roots.specs.Holds.{hold_in, tag_in};
ghost use Rattle.bbm_roots.specs.HoldsNew as spec;
ghost use Rattle.bbm_roots.specs.Readings.{reading_at};
ghost use Rattle.bbm_roots.specs.declared.reading.Reading.{Reading as TheReading};

use crate::hold::{Holds, is_held_at, some_pe};
use crate::load::RootValue;
use crate::reading::Reading;
use crate::tag_key::TagKey;
use bbm_regimes::{AsidFrom, Page, Pe, PeCount, Tag, World};

/// What is known of the tags that a new value makes readable.
#[derive(Clone, Copy)]
pub enum Shortcut {
    /// The PE holds each of them, for its root.
    Held,
    /// There is this one, which its root holds at some PE.
    Shared(Reading),
    /// Nothing.
    Open,
}

/// The one tag that a new value makes readable, of the first register of the world or the second, where that depends on
/// the value alone.
pub fn own_tag(world: World, first: bool, number: u16) -> Option<Tag>
    ensures { result ≡ spec.own_tag world first number }
{
    match world {
        World::Hyp(_) => {
            if first {
                Some(Tag::El2)
            } else {
                Some(Tag::Vmid(number))
            }
        }
        World::Kernel(world) => kernel_tag(world.asid_from, first, number),
    }
}

/// The one tag that a new value of TTBR0_EL1, the first, or TTBR1_EL1 makes readable, where that depends on the value
/// alone.
fn kernel_tag(asid_from: AsidFrom, first: bool, number: u16) -> Option<Tag>
    ensures { result ≡ spec.kernel_tag asid_from first number }
{
    match asid_from {
        AsidFrom::Ttbr0 => {
            if first {
                Some(Tag::Asid(number))
            } else {
                Some(Tag::Ttbr1)
            }
        }
        AsidFrom::Ttbr1 => None,
    }
}

/// What is known of the tag for the root, at the PE and the first n.
fn known_for(holds: &Holds, n: PeCount, tag: Tag, root: Page, pe: Pe) -> Shortcut
    ensures held { result ≡ Shortcut.Held → hold_in holds.now tag root pe ≡ true }
    ensures shared { (x : TheReading) → result ≡ Shortcut.Shared x
        → (x.tag ≡ tag) × (x.root ≡ root) × (tag_in holds.now n tag root ≡ true) }
{
    match holds.get(&TagKey::new(tag)) {
        Some(held) => {
            if !held.is_hold(root) {
                Shortcut::Open
            } else if held.pes.has(pe) {
                Shortcut::Held
            } else if some_pe(held.pes, n) {
                Shortcut::Shared(Reading { tag, root })
            } else {
                Shortcut::Open
            }
        }
        None => Shortcut::Open,
    }
}

/// What is known of the tag for the root at the PE and the first n; `Held` where there is no root.
pub fn known_tag(holds: &Holds, n: PeCount, tag: Tag, root: Option<Page>, pe: Pe) -> Shortcut
    ensures held { result ≡ Shortcut.Held → spec.all_held holds.now pe (reading_at tag root) ≡ true }
    ensures shared { (x : TheReading) → result ≡ Shortcut.Shared x
        → (x.tag ≡ tag) × (root ≡ Some x.root) × (tag_in holds.now n x.tag x.root ≡ true) }
{
    match root {
        Some(root) => known_for(holds, n, tag, root, pe),
        None => Shortcut::Held,
    }
}

/// Whether the PE holds the tag for the root, where there is one.
fn holds_root(holds: &Holds, tag: Tag, root: Option<Page>, pe: Pe) -> bool
    ensures { result ≡ spec.all_held holds.now pe (reading_at tag root) }
{
    match root {
        Some(root) => is_held_at(holds, tag, root, pe),
        None => true,
    }
}

/// Whether the PE holds the roots of these values of TTBR0_EL1 under the ASID of a value of TTBR1_EL1.
fn holds_under(holds: &Holds, first: &[RootValue], second: &RootValue, pe: Pe) -> bool
    ensures { result ≡ spec.under_held holds.now pe first.now second.now }
{
    first.iter().all(|load| holds_root(holds, Tag::Asid(second.number), load.root, pe))
}

/// Whether the PE holds the roots of these values of TTBR0_EL1 under the ASID of each of these of TTBR1_EL1.
fn holds_pairs(holds: &Holds, first: &[RootValue], second: &[RootValue], pe: Pe) -> bool
    ensures { result ≡ list_all (spec.under_held holds.now pe first.now) second.now }
{
    second
        .iter()
        .all(|load| holds_under(holds, first, load, pe))
}

/// Whether the PE holds, for its root, each tag that a new value of TTBR0_EL1, the first, or TTBR1_EL1 makes readable
/// anew, by the values of the other register. The ASID is that of TTBR1_EL1.
pub fn holds_anew(
    holds: &Holds,
    first: bool,
    load: &RootValue,
    others: &[RootValue],
    pe: Pe,
) -> bool
    ensures { result ≡ spec.all_held holds.now pe (spec.kernel_anew AsidFrom.Ttbr1 first load.now others.now) }
{
    if first {
        holds_pairs(holds, &[*load], others, pe)
    } else {
        holds_root(holds, Tag::Ttbr1, load.root, pe) && holds_under(holds, others, load, pe)
    }
}
