//! Pages of a survey get their roles.

ghost use Rattle.std.specs.Prelude.{◌≡◌, ℕ, true, Some, is_some, length, nat_eq, slice_get};
ghost use Rattle.indexmap.specs.IndexMap.{get, keys};
ghost use Rattle.bbm_place_map.specs.Map.{pages_of};
ghost use Rattle.bbm_tree_index.specs.Hanging.{Hung, hung};
ghost use Rattle.bbm_tree_index.specs.LeastPages.{HavePages};
ghost use Rattle.bbm_tree_index.specs.PageTables.{HasPages, SameKeys};

use crate::mark::Mark;
use crate::role::Role;
use crate::survey::entry_at;
use crate::table::put;
use bbm_page_map::PageColumn;
use bbm_place_map::PlaceMap;
use indexmap::IndexMap;

/// The pages of a level get the roles that their marks tell.
fn attach_prepared(roles: &mut PageColumn<Role>, map: &PlaceMap, level: &IndexMap<u64, Mark>)
    requires same { pages_of map.now ≡ keys roles.old }
    requires pages { HasPages level.now }
    requires known { (p : ℕ) → is_some (get nat_eq level.now p) ≡ true → is_some (get nat_eq roles.old p) ≡ true }
    ensures roles { (p : ℕ) → get nat_eq roles.new p ≡ hung (get nat_eq level.now p) (get nat_eq roles.old p) }
    ensures same { SameKeys roles.old roles.new }
{
    for index in 0..level.len() {
        let (page, mark) = entry_at(level, index);
        put(roles, map, page, mark.role);
    }
}

/// The pages of all levels get the roles that their marks tell.
pub fn attach_all(roles: &mut PageColumn<Role>, map: &PlaceMap, tables: &[IndexMap<u64, Mark>])
    requires same { pages_of map.now ≡ keys roles.old }
    requires pages { HavePages tables.now }
    requires known { (k p : ℕ) → (table : _) → slice_get tables.now k ≡ Some table
        → is_some (get nat_eq table p) ≡ true → is_some (get nat_eq roles.old p) ≡ true }
    ensures roles { (p : ℕ) → Hung tables.now (length tables.now) p (get nat_eq roles.old p) (get nat_eq roles.new p) }
    ensures same { SameKeys roles.old roles.new }
{
    for index in 0..tables.len() {
        attach_prepared(roles, map, &tables[index]);
    }
}
