//! Which page or place keeps pages from being attached.

ghost use Rattle.std.specs.Prelude.{◌≡◌, ◌≤◌, ◌<◌, ◌+◌, ◌↔◌, List, true, Some, length, slice_get};
ghost use Rattle.indexmap.specs.IndexMap.{index_map_len, keys};
ghost use Rattle.bbm_descriptor.specs.Descriptor.{desc_of};
ghost use Rattle.bbm_place_map.specs.Map.{value_at};
ghost use Rattle.bbm_rules.specs.Tree.{Node};
ghost use Rattle.bbm_tree_index.specs.Attaching.{Judges, names_pages};
ghost use Rattle.bbm_tree_index.specs.PageTables.{HasPages};
ghost use Rattle.bbm_tree_index.specs.LeastPages.{Elsewhere, HavePages, LeafIn, LeafOf, LeafPlace, LeastOf, Told};
ghost use Rattle.bbm_tree_index.specs.LeastPages.{Wrong, WrongIn, WrongPage, asks, lesser};
ghost use Rattle.bbm_tree_index.specs.Survey.{fresh_of};

use crate::fault::TreeFault;
use crate::harmless::are_harmless;
use crate::held::place_of;
use crate::mark::Mark;
use crate::role::Attach;
use crate::survey::entry_at;
use crate::table::Roles;
use bbm_descriptor::{Desc, read};
use bbm_place_map::PlaceMap;
use bbm_regimes::{Kind, Level, PLACES, Page, Place};
use indexmap::IndexMap;

/// Which leaves are asked for. Source: project's own choice.
#[derive(Clone, Copy)]
pub enum Leaf {
    /// Those with the Contiguous hint.
    Contiguous,
    /// Those for every ASID, in a tree of the lower range.
    UserGlobal,
}

/// Whether the named pages are judged by another rule: those of a root.
pub fn is_named(at: &Attach) -> bool
    ensures { result ≡ names_pages at.now }
{
    matches!(at, Attach::Root { .. })
}

/// Whether the page is in a table of another level than this one.
fn is_elsewhere(tables: &[IndexMap<u64, Mark>], level: usize, page: Page) -> bool
    ensures { (result ≡ true) ↔ Elsewhere tables.now level page }
{
    for other in 0..tables.len() {
        if other != level && tables[other].contains_key(&page.get()) {
            return true;
        }
    }
    false
}

/// Whether a path to the page of a level breaks not-fresh. Of the named pages of a root it isn't asked whether they are
/// fresh.
fn is_wrong(
    roles: &Roles,
    tables: &[IndexMap<u64, Mark>],
    named: bool,
    level: usize,
    page: Page,
    mark: &Mark,
) -> bool
    ensures { (result ≡ true) ↔ Wrong tables.now (fresh_of roles.now) named level page mark.now }
{
    if mark.many || is_elsewhere(tables, level, page) {
        return true;
    }
    if named && level == 0 {
        return false;
    }
    !roles.is_fresh(page)
}

/// The lesser of two pages, of those that there are.
pub fn lesser_page(page: Option<Page>, other: Option<Page>) -> Option<Page>
    ensures { result ≡ lesser page other }
{
    match (page, other) {
        (Some(page), Some(other)) => {
            if other.get() < page.get() {
                Some(other)
            } else {
                Some(page)
            }
        }
        (Some(page), None) => Some(page),
        (None, other) => other,
    }
}

/// The page at an index of a table where it breaks not-fresh.
fn wrong_at(
    roles: &Roles,
    tables: &[IndexMap<u64, Mark>],
    named: bool,
    level: usize,
    table: &IndexMap<u64, Mark>,
    index: usize,
) -> Option<Page>
    requires within { index < index_map_len table.now }
    requires pages { HasPages table.now }
    ensures { LeastOf (λ p. (slice_get (keys table.now) index ≡ Some p)
        × WrongIn tables.now (fresh_of roles.now) named level table.now p) result }
{
    let (page, mark) = entry_at(table, index);
    if is_wrong(roles, tables, named, level, page, &mark) {
        Some(page)
    } else {
        None
    }
}

/// The least page of a table that breaks not-fresh.
fn wrong_in(
    roles: &Roles,
    tables: &[IndexMap<u64, Mark>],
    named: bool,
    level: usize,
    table: &IndexMap<u64, Mark>,
) -> Option<Page>
    requires { HasPages table.now }
    ensures { LeastOf (WrongIn tables.now (fresh_of roles.now) named level table.now) result }
{
    let mut least = None;
    for index in 0..table.len() {
        let found = wrong_at(roles, tables, named, level, table, index);
        least = lesser_page(least, found);
    }
    least
}

/// The least page that breaks not-fresh.
fn least_wrong(roles: &Roles, tables: &[IndexMap<u64, Mark>], named: bool) -> Option<Page>
    requires { HavePages tables.now }
    ensures { LeastOf (WrongPage tables.now (fresh_of roles.now) named) result }
{
    let mut least = None;
    for level in 0..tables.len() {
        let found = wrong_in(roles, tables, named, level, &tables[level]);
        least = lesser_page(least, found);
    }
    least
}

/// Whether the value is a leaf that is asked for.
fn is_leaf(leaf: &Leaf, kind: Kind, level: Level, value: u64) -> bool
    ensures { result ≡ asks leaf.now kind (desc_of kind level value) }
{
    match read(kind, level, value) {
        Desc::Leaf {
            global,
            contiguous,
            ..
        } => match *leaf {
            Leaf::Contiguous => contiguous,
            Leaf::UserGlobal => match kind {
                Kind::Ttbr0 => global,
                _ => false,
            },
        },
        _ => false,
    }
}

/// The lesser of two places.
fn lesser_place(place: Option<Place>, other: Option<Place>) -> Option<Place>
    ensures { result ≡ lesser place other }
{
    match (place, other) {
        (Some(place), Some(other)) => {
            if other.get() < place.get() {
                Some(other)
            } else {
                Some(place)
            }
        }
        (Some(place), None) => Some(place),
        (None, other) => other,
    }
}

/// The least place of a page with a leaf that is asked for.
fn leaf_of(map: &PlaceMap, leaf: &Leaf, kind: Kind, level: Level, page: Page) -> Option<Place>
    ensures { LeastOf (LeafOf (value_at map.now) (asks leaf.now) kind level page) result }
{
    if map.is_blank(page) {
        return None;
    }
    let position = map.first_position(page);
    for index in 0..PLACES {
        if is_leaf(leaf, kind, level, map.value_from(&position, index)) {
            return Some(place_of(page, index));
        }
    }
    None
}

/// The least place of the pages of a table with a leaf that is asked for.
fn leaf_in(
    map: &PlaceMap,
    leaf: &Leaf,
    kind: Kind,
    level: Level,
    table: &IndexMap<u64, Mark>,
) -> Option<Place>
    requires { HasPages table.now }
    ensures { LeastOf (LeafIn (value_at map.now) (asks leaf.now) kind level table.now) result }
{
    let mut least = None;
    for index in 0..table.len() {
        let (page, _) = entry_at(table, index);
        let found = leaf_of(map, leaf, kind, level, page);
        least = lesser_place(least, found);
    }
    least
}

/// The least place of the attached pages with a leaf that is asked for.
fn least_leaf(
    map: &PlaceMap,
    tables: &[IndexMap<u64, Mark>],
    leaf: &Leaf,
    kind: Kind,
    start: Level,
) -> Option<Place>
    requires pages { HavePages tables.now }
    requires low { start + length tables.now ≤ 4 }
    ensures { LeastOf (LeafPlace tables.now (value_at map.now) (asks leaf.now) kind start) result }
{
    let mut least = None;
    for depth in 0..tables.len() {
        let level = Level::new(start.get() + depth as u8).unwrap();
        let found = leaf_in(map, leaf, kind, level, &tables[depth]);
        least = lesser_place(least, found);
    }
    least
}

/// Judges the pages of a survey that begins at this kind and level.
pub fn judge_tables(
    roles: &Roles,
    map: &PlaceMap,
    tables: &[IndexMap<u64, Mark>],
    named: bool,
    kind: Kind,
    level: Level,
) -> Result<(), TreeFault>
    requires pages { HavePages tables.now }
    requires low { level + length tables.now ≤ 4 }
    ensures { (starts : List Node) → Told tables.now (fresh_of roles.now) (value_at map.now) starts kind level
        → Judges (fresh_of roles.now) (value_at map.now) starts named result }
{
    if let Some(page) = least_wrong(roles, tables, named) {
        return Err(TreeFault::NotFresh(page));
    }
    if are_harmless(map, tables, kind, level) {
        return Ok(());
    }
    if let Some(place) = least_leaf(map, tables, &Leaf::Contiguous, kind, level) {
        return Err(TreeFault::BadKind(place));
    }
    if let Some(place) = least_leaf(map, tables, &Leaf::UserGlobal, kind, level) {
        return Err(TreeFault::GlobalUser(place));
    }
    Ok(())
}
