//! Pages that leave the trees. Where a place holds nothing any more, or a root is retired, what leaves is found from
//! above: the pages below a page by what its places hold.

ghost use Rattle.std.specs.Prelude.{◌≡◌, ◌==◌, ◌<◌, ◌+◌, ◌*◌, ◌%◌, ◌^◌, ◌≤◌, ◌⊎◌, ℕ, Contains, IfSome, IsSome, None, Some, true, if◌then◌else◌};
ghost use Rattle.indexmap.specs.IndexMap.{keys};
ghost use Rattle.bbm_page_map.specs.PageLists.{number_in};
ghost use Rattle.bbm_place_map.specs.Map.{IsPosition, lost_pages, marks_at, page_of, pages_of, value_at};
ghost use Rattle.bbm_place_map.specs.MapCalls.{Frees, KeepsValues};
ghost use Rattle.bbm_place_map.specs.declared.map.PlaceMap.{PlaceMap as TheMap};
ghost use Rattle.bbm_tree_index.specs.HeldCores.{core_at as core_here, leaves, next_in};
ghost use Rattle.bbm_tree_index.specs.IndexChanges.{Releases};
ghost use Rattle.bbm_tree_index.specs.Leaving.{CanFind, Departs, Goes, IsRootPage, IsStart, LetsGo, Start, Takes};
ghost use Rattle.bbm_tree_index.specs.Leaving.{has_left, hung_at, starts_at, stays};
ghost use Rattle.bbm_tree_index.specs.Nodes.{node_by};
ghost use Rattle.bbm_tree_index.specs.PageTables.{HasPages, SameKeys, roles_of};
ghost use Rattle.bbm_tree_index.specs.SoundRoles.{Sound};

use crate::held::{core_at, next_of, place_of};
use crate::role::Role;
use crate::table::{Roles, number_of, put_at};
use bbm_events::Header;
use bbm_page_map::{PageColumn, PageNumber};
use bbm_place_map::{PlaceMap, Position};
use bbm_regimes::{Kind, Level, PAGE_BYTES, PLACES, Page, Place};

/// How many pages a root has at most.
const ROOT_PAGES: u64 = 16;

/// Which pages leave the trees. Source: project's own choice.
#[derive(Clone, Copy)]
pub enum Leaving {
    /// Those below a place that holds nothing.
    Unheld,
    /// Those of the root with this first page.
    Root(Page),
}

/// Whether the page hangs at a place that holds nothing.
fn is_unheld(map: &PlaceMap, role: &Role) -> bool
    ensures { result ≡ starts_at map.now Leaving.Unheld role.now }
{
    match *role {
        Role::Hangs {
            parent,
            kind,
            level,
            ..
        } => match level.above() {
            Some(above) => core_at(map, kind, above, parent).is_none(),
            None => false,
        },
        _ => false,
    }
}

/// Whether the page is one of the root with this first page.
fn is_of_root(role: &Role, page: Page) -> bool
    ensures { (map : TheMap) → result ≡ starts_at map (Leaving.Root page) role.now }
{
    match *role {
        Role::RootPage { first, .. } => first == page,
        _ => false,
    }
}

/// Whether a page with this role leaves even where the page above it stays.
fn starts(map: &PlaceMap, leaving: &Leaving, role: &Role) -> bool
    ensures { result ≡ starts_at map.now leaving.now role.now }
{
    match *leaving {
        Leaving::Unheld => is_unheld(map, role),
        Leaving::Root(page) => is_of_root(role, page),
    }
}

/// The page, if it hangs at the place.
fn hung(roles: &PageColumn<Role>, map: &PlaceMap, place: Place, page: Page) -> Option<Page>
    requires { pages_of map.now ≡ keys roles.now }
    ensures { result ≡ hung_at (roles_of roles.now) place (Some page) }
{
    match Roles::new(map, roles).role(page) {
        Role::Hangs { parent, .. } => { if parent == place { Some(page) } else { None } }
        _ => None,
    }
}

/// The page that hangs at the place with this number, 0 to 511, of the page whose first place the position has, read at
/// this kind and level; None where there is none.
fn hanging(
    roles: &PageColumn<Role>,
    map: &PlaceMap,
    first: &Position,
    index: u64,
    kind: Kind,
    level: Level,
) -> Option<Page>
    requires same { pages_of map.now ≡ keys roles.now }
    requires position { IsPosition map.now first.now }
    requires first { first.now.place % PAGE_BYTES ≡ 0 }
    requires within { index < PLACES }
    ensures { result ≡ hung_at (roles_of roles.now) (first.now.place + 8 * index)
        (next_in (core_here map.now kind level (first.now.place + 8 * index))) }
{
    let next = next_of(&map.core_from(first, index, kind, level)?)?;
    hung(roles, map, place_of(first.place.page(), index), next)
}

/// The level of the pages that hang below a page of this level; None where none does.
fn level_below(map: &PlaceMap, page: Page, level: Level) -> Option<Level>
    ensures deeper { IfSome result (λ below. below ≡ level + 1) }
    ensures low { IsSome result → level < 3 }
    ensures none { result ≡ None → (3 ≤ level)
        ⊎ ((a : ℕ) → page_of a ≡ page → (value_at map.now a ≡ 0) × (marks_at map.now a ≡ None)) }
{
    if map.is_blank(page) {
        None
    } else {
        level.below()
    }
}

/// The page, which has this number, is gone, and no place of it is broken.
fn let_go(roles: &mut PageColumn<Role>, map: &mut PlaceMap, number: PageNumber, page: Page)
    requires { number_in (keys roles.old) page ≡ Some number }
    ensures roles { (p : ℕ) → roles_of roles.new p ≡ (if p == page then Role.Gone else roles_of roles.old p) }
    ensures same { SameKeys roles.old roles.new }
    ensures freed { Frees page map.old map.new }
    ensures kept { KeepsValues map.old map.new }
    ensures lost { lost_pages map.new ≡ lost_pages map.old }
{
    put_at(roles, number.get(), page, Role::Gone);
    map.release(page);
}

/// The page, which is read at this kind and level, leaves, and before it each page below it.
fn take_out(roles: &mut PageColumn<Role>, map: &mut PlaceMap, page: Page, kind: Kind, level: Level)
    requires same { pages_of map.old ≡ keys roles.old }
    requires goes { (s : Start) × Departs s (roles_of roles.old) map.old × Goes s page kind level }
    ensures taken { (s : Start) → Departs s (roles_of roles.old) map.old → Goes s page kind level
        → Takes s (λ p. p ≡ page) (roles_of roles.old) (roles_of roles.new) map.new
        × (has_left s (roles_of roles.new) page ≡ true) }
    ensures same { SameKeys roles.old roles.new }
    ensures pages { pages_of map.new ≡ pages_of map.old }
    ensures lost { lost_pages map.new ≡ lost_pages map.old }
{
    let Some(number) = number_of(roles, map, page) else {
        return;
    };
    let Some(below) = level_below(map, page, level) else {
        let_go(roles, map, number, page);
        return;
    };
    let first = Position {
        place: place_of(page, 0),
        page: number,
    };
    for index in 0..PLACES {
        if let Some(next) = hanging(roles, map, &first, index, kind, level) {
            take_out(roles, map, next, kind, below);
        }
    }
    let_go(roles, map, number, page);
}

/// The page leaves, and each page below it, if it leaves even where the page above it stays.
#[inline(never)]
fn take_page(
    roles: &mut PageColumn<Role>,
    map: &mut PlaceMap,
    header: &Header,
    leaving: &Leaving,
    page: Page,
)
    requires same { pages_of map.old ≡ keys roles.old }
    requires goes { (s : Start) × IsStart s header.now leaving.now × Departs s (roles_of roles.old) map.old }
    ensures taken { (s : Start) → IsStart s header.now leaving.now → Departs s (roles_of roles.old) map.old
        → Takes s (λ p. p ≡ page) (roles_of roles.old) (roles_of roles.new) map.new }
    ensures same { SameKeys roles.old roles.new }
    ensures pages { pages_of map.new ≡ pages_of map.old }
    ensures lost { lost_pages map.new ≡ lost_pages map.old }
{
    let role = Roles::new(map, roles).role(page);
    if starts(map, leaving, &role) {
        match role {
            Role::RootPage { kind, .. } => {
                take_out(roles, map, page, kind, header.start_level(kind))
            }
            Role::Hangs { kind, level, .. } => take_out(roles, map, page, kind, level),
            _ => {}
        }
    }
}

/// The pages that the last DSB lost leave, with all below them, where they hang at places that hold nothing.
#[inline(always)]
fn take_lost(roles: &mut PageColumn<Role>, map: &mut PlaceMap, header: &Header)
    requires same { pages_of map.old ≡ keys roles.old }
    requires goes { (s : Start) × IsStart s header.now Leaving.Unheld × Departs s (roles_of roles.old) map.old }
    ensures taken { (s : Start) → IsStart s header.now Leaving.Unheld → Departs s (roles_of roles.old) map.old
        → Takes s (Contains (lost_pages map.old)) (roles_of roles.old) (roles_of roles.new) map.new }
    ensures same { SameKeys roles.old roles.new }
{
    for i in 0..map.lost_len() {
        let page = map.lost_page(i);
        take_page(roles, map, header, &Leaving::Unheld, page);
    }
}

/// The page at this address, in bytes, leaves, with all below it, if it is one of the root with this first page.
fn take_at(roles: &mut PageColumn<Role>, map: &mut PlaceMap, header: &Header, first: Page, at: u64)
    requires same { pages_of map.old ≡ keys roles.old }
    requires goes { (s : Start) × IsStart s header.now (Leaving.Root first) × Departs s (roles_of roles.old) map.old }
    requires aligned { at % PAGE_BYTES ≡ 0 }
    ensures taken { (s : Start) → IsStart s header.now (Leaving.Root first) → Departs s (roles_of roles.old) map.old
        → Takes s (λ p. (p ≡ at) × (p < 2 ^ 48)) (roles_of roles.old) (roles_of roles.new) map.new }
    ensures same { SameKeys roles.old roles.new }
    ensures pages { pages_of map.new ≡ pages_of map.old }
{
    match Page::new(at) {
        Some(page) => take_page(roles, map, header, &Leaving::Root(first), page),
        None => {}
    }
}

/// The pages of the root with this first page leave, with all below them.
fn take_root(roles: &mut PageColumn<Role>, map: &mut PlaceMap, header: &Header, first: Page)
    requires same { pages_of map.old ≡ keys roles.old }
    requires goes { (s : Start) × IsStart s header.now (Leaving.Root first) × Departs s (roles_of roles.old) map.old }
    ensures taken { (s : Start) → IsStart s header.now (Leaving.Root first) → Departs s (roles_of roles.old) map.old
        → Takes s (λ p. IsRootPage first p × (p < 2 ^ 48)) (roles_of roles.old) (roles_of roles.new) map.new }
    ensures same { SameKeys roles.old roles.new }
{
    for i in 0..ROOT_PAGES {
        take_at(roles, map, header, first, first.get() + PAGE_BYTES * i);
    }
}

/// The pages that leave are gone, and no place of them is broken.
#[inline(always)]
pub fn take_all(
    roles: &mut PageColumn<Role>,
    map: &mut PlaceMap,
    header: &Header,
    leaving: &Leaving,
)
    requires same { pages_of map.old ≡ keys roles.old }
    requires sound { Sound (roles_of roles.old) header.now }
    requires paged { HasPages roles.old }
    requires found { CanFind (node_by (roles_of roles.old) header.now) map.old leaving.now }
    ensures roles { LetsGo (λ p. leaves (stays map.old leaving.now) (node_by (roles_of roles.old) header.now p))
        roles.old roles.new }
    ensures map { Releases (λ p. leaves (stays map.old leaving.now) (node_by (roles_of roles.old) header.now p))
        map.old map.new }
{
    match *leaving {
        Leaving::Unheld => take_lost(roles, map, header),
        Leaving::Root(first) => take_root(roles, map, header, first),
    }
}
