//! The pages that paths through fresh pages reach, level by level.

ghost use Rattle.std.specs.Prelude.{◌≡◌, ◌≤◌, ◌<◌, ◌+◌, ◌*◌, ◌%◌, ◌||◌, ◌==◌, ℕ, suc, Bool, false};
ghost use Rattle.std.specs.Prelude.{List, [], ◌∷◌, ◌++◌, Option, Some, nat_eq, slice_get, length, OnOk, IfOk, IfSome};
ghost use Rattle.indexmap.specs.IndexMap.{get, keys, index_map_len, IsUnique};
ghost use Rattle.bbm_place_map.specs.Map.{IsPosition, value_at};
ghost use Rattle.bbm_rules.specs.Places.{index_of, page_of};
ghost use Rattle.bbm_rules.specs.Tree.{Node, next_of};
ghost use Rattle.bbm_regimes.specs.World.{input_pages};
ghost use Rattle.bbm_tree_index.specs.PageTables.{HasPages};
ghost use Rattle.bbm_tree_index.specs.Spots.{Fits, RoleFits};
ghost use Rattle.bbm_tree_index.specs.Survey.{Counts, Expands, Found, Partly, Plain, Reached, StaysWell, Surveyed};
ghost use Rattle.bbm_tree_index.specs.Survey.{Uniform, Well, fresh_of, grown, with_first, with_page};
ghost use Rattle.bbm_tree_index.specs.declared.mark.Mark.{Mark as TheMark};

use crate::held::{are_eight_zero, first_position, place_of};
use crate::mark::{Mark, add};
use crate::role::Role;
use crate::spot::{Spot, spot_of};
use crate::table::Roles;
use bbm_descriptor::{Desc, read};
use bbm_events::Header;
use bbm_place_map::{PlaceMap, Position};
use bbm_regimes::{Kind, Level, NoMemory, PAGE_BYTES, PLACES, Page, Place};
use indexmap::IndexMap;
use std::alloc::Global;

/// The next page of a value at this kind and level; None where it is no table. That is told at once where bits
/// [1:0] aren't 11. Source: Arm ARM (DDI 0487), "VMSAv8-64 descriptor formats".
#[inline(always)]
fn next_page(kind: Kind, level: Level, value: u64) -> Option<Page>
    ensures next { result ≡ next_of kind level value }
    ensures low { IfSome result (λ next. level < 3) }
{
    if value % 4 != 3 {
        return None;
    }
    match read(kind, level, value) {
        Desc::Table { next, .. } => Some(next),
        _ => None,
    }
}

/// Notes the path that goes on through the place, which has this value, of a page that stands there.
fn expand_place(
    spot: &Spot,
    many: bool,
    place: Place,
    value: u64,
    below: &mut IndexMap<u64, Mark>,
) -> Result<(), NoMemory>
    requires { Fits spot.now }
    ensures well { OnOk result (StaysWell below.old below.new) }
    ensures grown { OnOk result ((q : ℕ) → get nat_eq below.new q
        ≡ grown (next_of spot.now.kind spot.now.level value)
        (record {
          role = Role.Hangs place spot.now.kind (suc spot.now.level)
              (spot.now.base + index_of place * input_pages spot.now.level) spot.now.first;
          many = many;
        }) (get nat_eq below.old) q) }
{
    match next_page(spot.kind, spot.level, value) {
        Some(next) => {
            let role = Role::Hangs {
                parent: place,
                kind: spot.kind,
                level: spot.level.below().unwrap(),
                base: spot.start(place),
                first: spot.first,
            };
            add(below, next, &Mark { role, many })
        }
        None => Ok(()),
    }
}

/// Notes the paths that go on through the eight places of a fresh page that have this number and the next ones, by the
/// position of its first place. Most have the value 0.
#[inline(always)]
fn expand_eight(
    map: &PlaceMap,
    spot: &Spot,
    many: bool,
    position: &Position,
    from: u64,
    below: &mut IndexMap<u64, Mark>,
) -> Result<(), NoMemory>
    requires fits { Fits spot.now }
    requires position { IsPosition map.now position.now }
    requires first { position.now.place % PAGE_BYTES ≡ 0 }
    requires within { from + 8 ≤ PLACES }
    ensures well { OnOk result (StaysWell below.old below.new) }
    ensures level { OnOk result (Expands (value_at map.now) spot.now many position.now.place
        (with_first position.now.place from) (with_first position.now.place (from + 8))
        (get nat_eq below.old) (get nat_eq below.new)) }
{
    if are_eight_zero(map, position, from) {
        return Ok(());
    }
    let page = position.place.page();
    for index in from..from + 8 {
        let value = map.value_from(position, index);
        expand_place(spot, many, place_of(page, index), value, below)?;
    }
    Ok(())
}

/// Notes the paths that go on through the places of a fresh page that stands there.
fn expand_page(
    map: &PlaceMap,
    spot: &Spot,
    many: bool,
    page: Page,
    below: &mut IndexMap<u64, Mark>,
) -> Result<(), NoMemory>
    requires { Fits spot.now }
    ensures well { OnOk result (StaysWell below.old below.new) }
    ensures level { OnOk result (Expands (value_at map.now) spot.now many page (λ done. done) (with_page page)
        (get nat_eq below.old) (get nat_eq below.new)) }
{
    let Some(position) = first_position(map, page) else {
        return Ok(());
    };
    for part in 0..64 {
        expand_eight(map, spot, many, &position, 8 * part, below)?;
    }
    Ok(())
}

/// The entry at an index of a table of marks.
pub fn entry_at(table: &IndexMap<u64, Mark>, index: usize) -> (Page, Mark)
    requires within { index < index_map_len table.now }
    requires pages { HasPages table.now }
    ensures at { slice_get (keys table.now) index ≡ Some result.0 }
    ensures mark { get nat_eq table.now result.0 ≡ Some result.1 }
    ensures unique { IsUnique nat_eq table.now }
{
    let _ = table.len();
    let (key, mark) = table.get_index(index).unwrap();
    (Page::new(*key).unwrap(), *mark)
}

/// Notes the paths that go on through a page of a level, where it is fresh.
fn expand_entry(
    header: &Header,
    roles: &Roles,
    map: &PlaceMap,
    page: Page,
    mark: &Mark,
    below: &mut IndexMap<u64, Mark>,
) -> Result<(), NoMemory>
    requires { RoleFits header.now mark.now.role }
    ensures well { OnOk result (StaysWell below.old below.new) }
    ensures level { OnOk result ((starts : List Node) (k : ℕ) (done : ℕ → Bool) →
        Uniform (fresh_of roles.now) (value_at map.now) starts k →
        Plain header.now (Reached (fresh_of roles.now) (value_at map.now) starts k) →
        ((a : ℕ) → page_of a ≡ page → done a ≡ false) →
        Found (Reached (fresh_of roles.now) (value_at map.now) starts k) page mark.now →
        ((q : ℕ) → Counts (Partly (fresh_of roles.now) (value_at map.now) starts k done) q (get nat_eq below.old q)) →
        (q : ℕ) → Counts (Partly (fresh_of roles.now) (value_at map.now) starts k (λ a. done a
        || page_of a == page)) q (get nat_eq below.new q)) }
{
    if !roles.is_fresh(page) {
        return Ok(());
    }
    match spot_of(header, &mark.role) {
        Some(spot) => expand_page(map, &spot, mark.many, page, below),
        None => Ok(()),
    }
}

/// The pages that the paths through the fresh pages of a level reach, each with its mark.
pub fn expand(
    alloc: Global,
    header: &Header,
    roles: &Roles,
    map: &PlaceMap,
    level: &IndexMap<u64, Mark>,
) -> Result<IndexMap<u64, Mark>, NoMemory>
    requires { Well header.now (get nat_eq level.now) }
    ensures well { IfOk result (λ below. Well header.now (get nat_eq below)) }
    ensures level { IfOk result (λ below. (starts : List Node) (k : ℕ) →
        Uniform (fresh_of roles.now) (value_at map.now) starts k →
        Plain header.now (Reached (fresh_of roles.now) (value_at map.now) starts k) →
        ((q : ℕ) → Counts (Reached (fresh_of roles.now) (value_at map.now) starts k) q (get nat_eq level.now q)) →
        (q : ℕ) → Counts (Reached (fresh_of roles.now) (value_at map.now) starts (suc k)) q (get nat_eq below q)) }
{
    let mut below = IndexMap::new(alloc);
    for index in 0..level.len() {
        let (page, mark) = entry_at(level, index);
        expand_entry(header, roles, map, page, &mark, &mut below)?;
    }
    Ok(below)
}

/// Adds a table at the end.
fn push_table(
    tables: &mut Vec<IndexMap<u64, Mark>>,
    table: IndexMap<u64, Mark>,
) -> Result<(), NoMemory>
    ensures { OnOk result (tables.new.items ≡ tables.old.items ++ table ∷ []) }
{
    tables.push(table).map_err(|_| NoMemory)
}

/// Adds the table of the level behind the one with this number, which is the last.
fn push_level(
    alloc: Global,
    header: &Header,
    roles: &Roles,
    map: &PlaceMap,
    tables: &mut Vec<IndexMap<u64, Mark>>,
    last: usize,
) -> Result<(), NoMemory>
    requires count { length tables.old.items ≡ suc last }
    requires tables { (first : ℕ → Option TheMark)
        × Surveyed header.now (fresh_of roles.now) (value_at map.now) first tables.old.items }
    ensures count { OnOk result (length tables.new.items ≡ suc (suc last)) }
    ensures tables { OnOk result ((first : ℕ → Option TheMark) →
        Surveyed header.now (fresh_of roles.now) (value_at map.now) first tables.old.items →
        Surveyed header.now (fresh_of roles.now) (value_at map.now) first tables.new.items) }
{
    let next = expand(alloc, header, roles, map, &tables[last])?;
    push_table(tables, next)
}

/// The pages that the paths from the starts reach, a table for each level from the start level to 3. The first is
/// given, and the number of levels behind it.
pub fn survey(
    alloc: Global,
    header: &Header,
    roles: &Roles,
    map: &PlaceMap,
    first: IndexMap<u64, Mark>,
    behind: u8,
) -> Result<Vec<IndexMap<u64, Mark>>, NoMemory>
    requires { Well header.now (get nat_eq first) }
    ensures count { IfOk result (λ tables. length tables.items ≡ suc behind) }
    ensures tables { IfOk result
        (λ tables. Surveyed header.now (fresh_of roles.now) (value_at map.now) (get nat_eq first) tables.items) }
{
    let mut tables = Vec::new(alloc);
    push_table(&mut tables, first)?;
    for depth in 0..behind {
        push_level(alloc, header, roles, map, &mut tables, depth as usize)?;
    }
    Ok(tables)
}
