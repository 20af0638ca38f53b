//! The places above a page.

ghost use Rattle.std.specs.Prelude.{◌≡◌};
ghost use Rattle.indexmap.specs.IndexMap.{keys};
ghost use Rattle.bbm_place_map.specs.Map.{pages_of};
ghost use Rattle.bbm_tree_index.specs.Climbs.{cut_by, is_invalid_at};
ghost use Rattle.bbm_tree_index.specs.PageTables.{roles_of};

use crate::role::Role;
use crate::table::find;
use bbm_descriptor::laws::law_core_where_valid;
use bbm_page_map::PageColumn;
use bbm_place_map::PlaceMap;
use bbm_regimes::Level;

/// Whether a place above a page with this role and level has an invalid value; true where a page above it is in no
/// tree.
pub fn is_cut(roles: &PageColumn<Role>, map: &PlaceMap, level: Level, role: &Role) -> bool
    requires { pages_of map.now ≡ keys roles.now }
    ensures { result ≡ cut_by (is_invalid_at map.now) (roles_of roles.now) level role.now }
{
    law_core_where_valid();
    match *role {
        Role::RootPage { .. } => false,
        Role::Hangs { parent, kind, .. } => {
            let Some(level) = level.above() else {
                return false;
            };
            match find(roles, map, parent) {
                Some((position, above)) => {
                    map.live_at(&position, kind, level).is_none()
                        || is_cut(roles, map, level, &above)
                }
                None => true,
            }
        }
        _ => true,
    }
}
