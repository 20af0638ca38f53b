//! Pages with no leaf that keeps them from being attached.

ghost use Rattle.std.specs.Prelude.{◌≡◌, ◌≤◌, ◌<◌, ◌+◌, ◌*◌, ◌%◌, ℕ, true, length};
ghost use Rattle.bbm_place_map.specs.Map.{IsPosition, value_at};
ghost use Rattle.bbm_regimes.specs.SameRegister.{same_kind};
ghost use Rattle.bbm_tree_index.specs.Attaching.{Never};
ghost use Rattle.bbm_tree_index.specs.LeastPages.{HavePages, LeafIn, LeafOf, LeafPlace, asks};
ghost use Rattle.bbm_tree_index.specs.LeastPages.{leaf_bits as spec_leaf_bits, spares};
ghost use Rattle.bbm_tree_index.specs.PageTables.{HasPages};
ghost use Rattle.bbm_tree_index.specs.declared.judge.Leaf.{Leaf};

use crate::held::{are_eight_zero, first_position};
use crate::mark::Mark;
use crate::survey::entry_at;
use bbm_place_map::{PlaceMap, Position};
use bbm_regimes::{Kind, Level, PAGE_BYTES, PLACES, Page};
use indexmap::IndexMap;

/// Contiguous, bit 52 of a leaf. Source: Arm ARM (DDI 0487), "VMSAv8-64 descriptor formats".
const CONTIGUOUS: u64 = 1 << 52;

/// nG, bit 11 of a leaf of stage 1. Source: Arm ARM (DDI 0487), "VMSAv8-64 descriptor formats".
const NOT_GLOBAL: u64 = 1 << 11;

/// Whether the kind is that of the lower range.
fn is_lower(kind: Kind) -> bool
    ensures { result ≡ same_kind kind Kind.Ttbr0 }
{
    kind == Kind::Ttbr0
}

/// Bits [1:0] of a leaf at the level; 4, which no value has there, at level 0. Source: Arm ARM (DDI 0487), "VMSAv8-64
/// descriptor formats".
fn leaf_bits(level: Level) -> u64
    ensures { result ≡ spec_leaf_bits level }
{
    match level.get() {
        0 => 4,
        1 => 1,
        2 => 1,
        _ => 3,
    }
}

/// Whether a value isn't that of a leaf with the Contiguous hint, nor, in a tree of the lower range, that of one for
/// every ASID. Leaves have these bits [1:0].
#[inline(always)]
fn is_harmless(lower: bool, bits: u64, value: u64) -> bool
    ensures { result ≡ spares lower bits value }
{
    value % 4 != bits || (value / CONTIGUOUS % 2 != 1 && !(lower && value / NOT_GLOBAL % 2 != 1))
}

/// Whether each value of the eight places that have this number and the next ones is harmless.
#[inline(never)]
fn are_each_harmless(map: &PlaceMap, position: &Position, lower: bool, bits: u64, from: u64) -> bool
    requires position { IsPosition map.now position.now }
    requires first { position.now.place % PAGE_BYTES ≡ 0 }
    requires within { from + 8 ≤ PLACES }
    ensures { result ≡ true → (j : ℕ) → from ≤ j → j < from + 8
        → spares lower bits (value_at map.now (position.now.place + 8 * j)) ≡ true }
{
    for index in from..from + 8 {
        if !is_harmless(lower, bits, map.value_from(position, index)) {
            return false;
        }
    }
    true
}

/// Whether the values of the eight places that have this number and the next ones are harmless. Most are 0.
#[inline(always)]
fn are_eight_harmless(
    map: &PlaceMap,
    position: &Position,
    lower: bool,
    bits: u64,
    from: u64,
) -> bool
    requires position { IsPosition map.now position.now }
    requires first { position.now.place % PAGE_BYTES ≡ 0 }
    requires within { from + 8 ≤ PLACES }
    requires some { 1 ≤ bits }
    ensures { result ≡ true → (j : ℕ) → from ≤ j → j < from + 8
        → spares lower bits (value_at map.now (position.now.place + 8 * j)) ≡ true }
{
    if are_eight_zero(map, position, from) {
        return true;
    }
    are_each_harmless(map, position, lower, bits, from)
}

/// Whether no place of the page has a leaf that keeps it from being attached.
fn is_page_harmless(map: &PlaceMap, kind: Kind, level: Level, page: Page) -> bool
    ensures { result ≡ true → (leaf : Leaf) → Never (LeafOf (value_at map.now) (asks leaf) kind level page) }
{
    let Some(position) = first_position(map, page) else {
        return true;
    };
    let lower = is_lower(kind);
    let bits = leaf_bits(level);
    for part in 0..64 {
        if !are_eight_harmless(map, &position, lower, bits, 8 * part) {
            return false;
        }
    }
    true
}

/// Whether no page of the table has such a place.
fn is_table_harmless(map: &PlaceMap, kind: Kind, level: Level, table: &IndexMap<u64, Mark>) -> bool
    requires { HasPages table.now }
    ensures { result ≡ true → (leaf : Leaf) → Never (LeafIn (value_at map.now) (asks leaf) kind level table.now) }
{
    for index in 0..table.len() {
        let (page, _) = entry_at(table, index);
        if !is_page_harmless(map, kind, level, page) {
            return false;
        }
    }
    true
}

/// Whether no page of the tables has such a place, where the first stands for this level.
pub fn are_harmless(
    map: &PlaceMap,
    tables: &[IndexMap<u64, Mark>],
    kind: Kind,
    start: Level,
) -> bool
    requires pages { HavePages tables.now }
    requires low { start + length tables.now ≤ 4 }
    ensures { result ≡ true
        → (leaf : Leaf) → Never (LeafPlace tables.now (value_at map.now) (asks leaf) kind start) }
{
    for depth in 0..tables.len() {
        let level = Level::new(start.get() + depth as u8).unwrap();
        if !is_table_harmless(map, kind, level, &tables[depth]) {
            return false;
        }
    }
    true
}
