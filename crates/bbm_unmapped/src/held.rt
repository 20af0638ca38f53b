//! Leaves that places of a page hold.

ghost use Rattle.std.specs.Prelude.{◌≡◌, ◌+◌, ◌*◌, ◌%◌, ◌<◌, ◌↔◌, true, false, is_some};
ghost use Rattle.bbm_place_map.specs.Map.{IsPosition, is_tracked, marks_at};
ghost use Rattle.bbm_regimes.specs.declared.regime.Kind.{Kind};
ghost use Rattle.bbm_rules.specs.Mapped.{maps};
ghost use Rattle.bbm_tree_index.specs.HeldCores.{core_at};
ghost use Rattle.bbm_tree_index.specs.Outputs.{core_maps};
ghost use Rattle.bbm_unmapped.specs.Targets.{HeldIn};

use crate::outputs::{is_stage2, maps_page};
use bbm_place_map::{PlaceMap, Position};
use bbm_regimes::{Level, PAGE_BYTES, PLACES, Page, Place};
use bbm_tree_index::Standing;

/// Whether a value can't be that of a leaf that maps the page, since bits [47:12] differ that a leaf of this level
/// shares with each page that it maps. False says nothing.
#[inline(always)]
fn is_apart(level: Level, value: u64, page: Page) -> bool
    ensures { result ≡ true → (kind : Kind) → maps kind level value page ≡ false }
{
    let value = value % (1 << 48);
    let page = page.get();
    match level.get() {
        0 => false,
        1 => value >> 30 != page >> 30,
        2 => value >> 21 != page >> 21,
        _ => value >> 12 != page >> 12,
    }
}

/// Whether the place with this number is broken, of the page whose first place the position has.
#[inline(always)]
fn is_broken(map: &PlaceMap, first: &Position, number: u64) -> bool
    requires position { IsPosition map.now first.now }
    requires first { first.now.place % PAGE_BYTES ≡ 0 }
    requires within { number < PLACES }
    ensures { result ≡ is_some (marks_at map.now (first.now.place + 8 * number)) }
{
    let place = Place::new(first.place.get() + 8 * number).unwrap();
    let position = Position {
        place,
        page: first.page,
    };
    map.is_broken_at(&position)
}

/// Whether the place with this number holds a leaf that maps the page, of the page whose first place the position has.
/// Of most places the value tells that it doesn't.
#[inline(always)]
fn holds_at(map: &PlaceMap, first: &Position, number: u64, read: &Standing, page: Page) -> bool
    requires position { IsPosition map.now first.now }
    requires first { first.now.place % PAGE_BYTES ≡ 0 }
    requires within { number < PLACES }
    ensures { result ≡ core_maps read.now.kind read.now.level
        (core_at map.now read.now.kind read.now.level (first.now.place + 8 * number)) page }
{
    if is_apart(read.level, map.value_from(first, number), page) && !is_broken(map, first, number) {
        return false;
    }
    let core = map.core_from(first, number, read.kind, read.level);
    maps_page(read.kind, read.level, &core, page)
}

/// Whether a place of the page, which is tracked and read like this, holds a leaf that maps another page.
pub fn holds_over(map: &PlaceMap, table: Page, read: &Standing, page: Page) -> bool
    requires { is_tracked map.now table ≡ true }
    ensures { (result ≡ true) ↔ HeldIn map.now read.now table page }
{
    if !is_stage2(read.kind) {
        return false;
    }
    let position = map.first_position(table);
    for place in 0..PLACES {
        if holds_at(map, &position, place, read, page) {
            return true;
        }
    }
    false
}
