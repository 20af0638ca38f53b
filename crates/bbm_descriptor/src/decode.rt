//! Values of places, decoded by the kind and the level of the table that they stand in.

ghost use Rattle.std.specs.Prelude.{◌≡◌, false, ◌<◌, ◌≤◌, ◌^◌, ◌%◌, ◌↔◌, ◌&&◌, IsNone, IfSome};
ghost use Rattle.bbm_descriptor.specs.Fields.{value_bits, value_bit, address, next_of, ns_table, out_of};
ghost use Rattle.bbm_descriptor.specs.Descriptor.{leaf, stage1, desc_of, desc_as, core_of, desc_with};
ghost use Rattle.bbm_descriptor.specs.Descriptor.{is_valid, needs, Fits};

use crate::desc::{Core, Desc};
use bbm_regimes::{Kind, Level, Page};

/// Bits [high:low] of a value.
#[tactic(auto, using(crate::proofs::Shifts::shifts))]
fn bits_at(value: u64, high: u32, low: u32) -> u64
    requires order { low ≤ high }
    requires within { high < 64 }
    ensures { result ≡ value_bits value high low }
{
    value >> low & u64::MAX >> (63 + low - high)
}

/// Whether bit k of a value is 1.
fn has_bit(value: u64, k: u32) -> bool
    requires { k < 64 }
    ensures { result ≡ value_bit value k }
{
    bits_at(value, k, k) == 1
}

/// The address in bits [47:low] of a value.
#[tactic(auto, using(crate::proofs::Shifts::shifts))]
fn address_at(value: u64, low: u32) -> u64
    requires { low < 48 }
    ensures value { result ≡ address value low }
    ensures below { result < 2 ^ 48 }
    ensures aligned { result % 2 ^ low ≡ 0 }
{
    bits_at(value, 47, low) << low
}

/// Whether tables of this kind are of stage 1.
fn is_stage1(kind: Kind) -> bool
    ensures { result ≡ stage1 kind }
{
    kind != Kind::S2
}

/// The table of this value, whose bits [1:0] are 11 above level 3.
fn read_table(kind: Kind, value: u64) -> Desc
    ensures { result ≡ Desc.Table (next_of value) (stage1 kind && ns_table value) }
{
    Desc::Table {
        next: Page::new(address_at(value, 12)).unwrap(),
        ns: is_stage1(kind) && has_bit(value, 63),
    }
}

/// The output address of a leaf, by its level.
fn output(level: Level, value: u64) -> u64
    ensures { result ≡ out_of level value }
{
    match level.get() {
        1 => address_at(value, 30),
        2 => address_at(value, 21),
        _ => address_at(value, 12),
    }
}

/// The leaf of this value, which is a block or a page.
fn read_leaf(kind: Kind, level: Level, value: u64) -> Desc
    ensures { result ≡ desc_as leaf kind level value }
{
    Desc::Leaf {
        out: output(level, value),
        attrs: bits_at(value, 5, 2) as u8,
        share: bits_at(value, 9, 8) as u8,
        global: is_stage1(kind) && !has_bit(value, 11),
        contiguous: has_bit(value, 52),
    }
}

/// What this value of a place means at this kind and level. It is `Desc::Invalid` where bit 0
/// is 0, and for bits [1:0] = 01 at levels 0 and 3. Source: Arm ARM (DDI 0487), "VMSAv8-64 descriptor
/// formats".
pub fn read(kind: Kind, level: Level, value: u64) -> Desc
    ensures value { result ≡ desc_of kind level value }
    ensures fits { Fits level result }
    ensures low { level ≤ 3 }
{
    match (bits_at(value, 1, 0), level.get()) {
        (3, 0..=2) => read_table(kind, value),
        (3, _) | (1, 1..=2) => read_leaf(kind, level, value),
        _ => Desc::Invalid,
    }
}

/// The core of this value of a place at this kind and level: what a write can't change without
/// break-before-make. None exactly where the value is invalid. Source: project's own choice.
pub fn core(kind: Kind, level: Level, value: u64) -> Option<Core>
    ensures value { result ≡ core_of kind level value }
    ensures invalid { IsNone result ↔ (is_valid kind level value ≡ false) }
    ensures fits { IfSome result (λ core. Fits level (desc_with core)) }
{
    match read(kind, level, value) {
        Desc::Invalid => None,
        Desc::Table { next, ns } => Some(Core::Table { next, ns }),
        Desc::Leaf {
            out,
            attrs,
            share,
            global,
            contiguous,
        } => Some(Core::Leaf {
            out,
            attrs,
            share,
            global,
            contiguous,
        }),
    }
}

/// Whether this value of a place is valid at this kind and level, which is where it has a core. Source: Arm ARM (DDI
/// 0487), "VMSAv8-64 descriptor formats".
pub fn is_valid(kind: Kind, level: Level, value: u64) -> bool
    ensures { result ≡ is_valid kind level value }
{
    core(kind, level, value).is_some()
}

/// Whether writing the new value over the old one, at a place of this kind and level, needs
/// break-before-make: both are valid and their cores differ. Source: Arm ARM (DDI 0487), "Using
/// break-before-make when updating translation table entries", with the project's own core.
pub fn needs_bbm(kind: Kind, level: Level, old: u64, new: u64) -> bool
    ensures { result ≡ needs kind level old new }
{
    match (core(kind, level, old), core(kind, level, new)) {
        (Some(old), Some(new)) => old != new,
        _ => false,
    }
}
