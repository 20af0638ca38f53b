//! The roles of pages, by the numbers of the pages.

ghost use Rattle.std.specs.Prelude.{◌≡◌, ◌==◌, ◌<◌, ◌++◌, ◌∷◌, [], ℕ, Some, IfSome, is_some, nat_eq, slice_get, true, unwrap_or, if◌then◌else◌};
ghost use Rattle.std.specs.Option.{option_copied, option_map};
ghost use Rattle.indexmap.specs.IndexMap.{get, index_map_len, keys, spare};
ghost use Rattle.bbm_page_map.specs.PageLists.{number_in};
ghost use Rattle.bbm_place_map.specs.Map.{IsPosition, page_of, pages_of};
ghost use Rattle.bbm_tree_index.specs.PageTables.{SameKeys, roles_of};
ghost use Rattle.bbm_tree_index.specs.Survey.{fresh_of};

use crate::role::Role;
use bbm_page_map::{PageColumn, PageNumber};
use bbm_place_map::{PlaceMap, Position};
use bbm_regimes::{Page, Place};
use std::marker::Model;

/// The roles of the pages that a map tracks. Contracts see them as the map from the pages to their roles.
#[derive(Drop)]
pub struct Roles<'a> {
    /// The map, which gave the pages their numbers.
    map: &'a PlaceMap,
    /// The role of each page.
    column: &'a PageColumn<Role>,
}

impl<'a> Model for Roles<'a> {
    ghost use Rattle.std.specs.Prelude.{◌≡◌};
    ghost use Rattle.indexmap.specs.IndexMap.{keys};
    ghost use Rattle.indexmap.specs.Layout.{hash_map_code};
    ghost use Rattle.bbm_page_map.specs.PageLists.{PageMapValue};
    ghost use Rattle.bbm_place_map.specs.Map.{pages_of};
    ghost use Rattle.bbm_tree_index.specs.declared.role.Role.{Role as TheRole};
    ghost use Rattle.bbm_tree_index.specs.contracts.role.Role as role_row;
    ghost use base.Stored.{coded_ℕ, coded_unit};

    ghost Value = { PageMapValue TheRole };

    ghost coded = { hash_map_code coded_ℕ role_row.the_row.coded coded_unit };

    ghost view = { λ r. r.column.now };

    ghost invariant = { λ r. pages_of r.map.now ≡ keys r.column.now };
}

impl<'a> Roles<'a> {
    /// The roles of the pages of a map.
    #[inline(always)]
    pub fn new(map: &'a PlaceMap, column: &'a PageColumn<Role>) -> Roles<'a>
        requires { pages_of map.now ≡ keys column.now }
        ensures { result ≡ column.now }
    {
        Roles { map, column }
    }

    /// The role of the page; None where it was never tracked.
    #[inline(always)]
    pub fn get(&self, page: Page) -> Option<&'a Role>
        ensures { option_copied result ≡ get nat_eq self.now page }
    {
        let number = number_of(self.column, self.map, page)?;
        Some(self.column.at(number.get()).1)
    }

    /// The role of the page.
    #[inline(always)]
    pub fn role(&self, page: Page) -> Role
        ensures { result ≡ roles_of self.now page }
    {
        self.get(page).copied().unwrap_or(Role::Untracked)
    }

    /// Whether the page is fresh.
    #[inline(always)]
    pub fn is_fresh(&self, page: Page) -> bool
        ensures { result ≡ fresh_of self.now page }
    {
        matches!(self.get(page), Some(Role::Fresh))
    }
}

/// The number of the page; None where it was never tracked.
#[inline(always)]
pub fn number_of(roles: &PageColumn<Role>, map: &PlaceMap, page: Page) -> Option<PageNumber>
    requires { pages_of map.now ≡ keys roles.now }
    ensures number { result ≡ number_in (keys roles.now) page }
    ensures known { is_some result ≡ is_some (get nat_eq roles.now page) }
    ensures within { IfSome result (λ n. n < index_map_len roles.now) }
{
    map.number(page)
}

/// Gives the page that stands at an index another role.
pub fn put_at(roles: &mut PageColumn<Role>, index: usize, page: Page, role: Role)
    requires { slice_get (keys roles.old) index ≡ Some page }
    ensures roles { (p : ℕ) → get nat_eq roles.new p ≡ (if p == page then Some role else get nat_eq roles.old p) }
    ensures same { SameKeys roles.old roles.new }
{
    let _ = page;
    roles.put(index, role);
}

/// Gives a page that has a role another one.
pub fn put(roles: &mut PageColumn<Role>, map: &PlaceMap, page: Page, role: Role)
    requires same { pages_of map.now ≡ keys roles.old }
    requires known { is_some (get nat_eq roles.old page) ≡ true }
    ensures roles { (p : ℕ) → get nat_eq roles.new p ≡ (if p == page then Some role else get nat_eq roles.old p) }
    ensures same { SameKeys roles.old roles.new }
{
    if let Some(number) = number_of(roles, map, page) {
        put_at(roles, number.get(), page, role);
    }
}

/// Gives the page a role, which has this number. One that has none comes last, where there is room for it.
pub fn set(roles: &mut PageColumn<Role>, number: Option<PageNumber>, page: Page, role: Role)
    requires number { number ≡ number_in (keys roles.old) page }
    requires room { 0 < spare roles.old }
    ensures updates { (q : ℕ) → get nat_eq roles.new q
        ≡ (if nat_eq page q then Some role else get nat_eq roles.old q) }
    ensures keys { keys roles.new ≡ (if is_some number then keys roles.old else keys roles.old ++ page ∷ []) }
{
    match number {
        Some(number) => roles.put(number.get(), role),
        None => roles.push(page, role),
    }
}

/// Where a place is kept, and the role of its page; None where that was never tracked.
#[inline(always)]
pub fn find(roles: &PageColumn<Role>, map: &PlaceMap, place: Place) -> Option<(Position, Role)>
    requires { pages_of map.now ≡ keys roles.now }
    ensures place { IfSome result (λ found. found.0.place ≡ place) }
    ensures position { IfSome result (λ found. IsPosition map.now found.0) }
    ensures role { unwrap_or (option_map (λ found. found.1) result) Role.Untracked ≡ roles_of roles.now (page_of place) }
{
    match map.position(place) {
        Some(position) => Some((position, *roles.at(position.page.get()).1)),
        None => None,
    }
}
