//! What the places of a page hold.

ghost use Rattle.std.specs.Prelude.{◌≡◌, ◌≤◌, ◌<◌, ◌+◌, ◌*◌, ◌%◌, ◌↔◌, ℕ, true, false, IfSome, None, Some};
ghost use Rattle.bbm_place_map.specs.Map.{IsPosition, value_at};
ghost use Rattle.bbm_rules.specs.Places.{page_of};
ghost use Rattle.bbm_tree_index.specs.HeldCores.{core_at, holds_at, is_at, next_in};

use bbm_descriptor::Core;
use bbm_entry_state::EntryState;
use bbm_place_map::{PlaceMap, Position};
use bbm_regimes::{Kind, Level, PAGE_BYTES, PLACES, Page, Place};

/// What the place holds at this kind and level.
pub fn core_at(map: &PlaceMap, kind: Kind, level: Level, place: Place) -> Option<Core>
    ensures { result ≡ core_at map.now kind level place }
{
    match map.state_by(place, kind, level) {
        EntryState::Clean => None,
        EntryState::Live { core } => Some(core),
        EntryState::Broken { marks } => Some(marks.core),
    }
}

/// The next page of a core that is a table; None of a leaf.
#[inline(always)]
pub fn next_of(core: &Core) -> Option<Page>
    ensures { result ≡ next_in (Some core.now) }
{
    match *core {
        Core::Table { next, ns: _ } => Some(next),
        Core::Leaf { .. } => None,
    }
}

/// The next page of the table that the place holds at this kind and level; None where it holds none.
pub fn next_at(map: &PlaceMap, kind: Kind, level: Level, place: Place) -> Option<Page>
    ensures { result ≡ next_in (core_at map.now kind level place) }
{
    next_of(&core_at(map, kind, level, place)?)
}

/// The place of the page with this number, 0 to 511.
pub fn place_of(page: Page, index: u64) -> Place
    requires { index < PLACES }
    ensures place { result ≡ page + 8 * index }
    ensures inside { is_at page result ≡ true }
{
    Place::new(page.get() + 8 * index).unwrap()
}

/// The position of the first place of the page, from which its places are read; None where each of them has the value
/// 0.
pub fn first_position(map: &PlaceMap, page: Page) -> Option<Position>
    ensures place { IfSome result (λ position. position.place ≡ page) }
    ensures position { IfSome result (λ position. IsPosition map.now position) }
    ensures first { IfSome result (λ position. position.place % PAGE_BYTES ≡ 0) }
    ensures zero { result ≡ None → (a : ℕ) → page_of a ≡ page → value_at map.now a ≡ 0 }
{
    match map.position(place_of(page, 0)) {
        Some(position) => Some(position),
        None => {
            if map.is_blank(page) {
                None
            } else {
                Some(map.first_position(page))
            }
        }
    }
}

/// The values of the four places of the page that have this number and the next ones, at most 511, joined bit by bit: 0
/// only where each is 0.
#[inline(always)]
fn four_joined(map: &PlaceMap, position: &Position, from: u64) -> u64
    requires position { IsPosition map.now position.now }
    requires first { position.now.place % PAGE_BYTES ≡ 0 }
    requires within { from + 4 ≤ PLACES }
    ensures { result ≡ 0 → (j : ℕ) → from ≤ j → j < from + 4 → value_at map.now (position.now.place + 8 * j) ≡ 0 }
{
    map.value_from(position, from)
        | map.value_from(position, from + 1)
        | map.value_from(position, from + 2)
        | map.value_from(position, from + 3)
}

/// Whether the eight places of the page that have this number and the next ones have the value 0.
#[inline(always)]
pub fn are_eight_zero(map: &PlaceMap, position: &Position, from: u64) -> bool
    requires position { IsPosition map.now position.now }
    requires first { position.now.place % PAGE_BYTES ≡ 0 }
    requires within { from + 8 ≤ PLACES }
    ensures { result ≡ true → (j : ℕ) → from ≤ j → j < from + 8 → value_at map.now (position.now.place + 8 * j) ≡ 0 }
{
    four_joined(map, position, from) | four_joined(map, position, from + 4) == 0
}

/// Whether no place of the page, read at this kind and level, holds anything.
pub fn holds_none(map: &PlaceMap, kind: Kind, level: Level, page: Page) -> bool
    ensures { (result ≡ true) ↔ ((a : ℕ) → is_at page a ≡ true → holds_at map.now kind level a ≡ false) }
{
    if map.is_blank(page) {
        return true;
    }
    let position = map.first_position(page);
    for index in 0..PLACES {
        if map.core_from(&position, index, kind, level).is_some() {
            return false;
        }
    }
    true
}
