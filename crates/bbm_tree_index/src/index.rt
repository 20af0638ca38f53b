//! The index of the trees.
//! Source: project's own choice, where no other is named.
#![tactic(auto, unfolding(
// the header and the roles
crate::specs::Index::heading_of, crate::specs::Index::role_in,
// nodes, fresh pages and null pages
crate::specs::Index::node_in, crate::specs::Index::fresh_in, crate::specs::Index::null_in,
// the pages that were ever tracked
crate::specs::Index::known_in, crate::specs::Index::pages_in))]

mod attaching;

ghost use Rattle.std.specs.Prelude.{◌≤◌};
ghost use Rattle.std.proofs.Props.{props};
ghost use Rattle.indexmap.specs.IndexMap.{index_map_len};
ghost use Rattle.bbm_tree_index.specs.PageTables.{HasPages, roles_of};
ghost use Rattle.bbm_tree_index.specs.SoundRoles.{Sound};

use crate::climb::is_cut;
use crate::fault::TreeFault;
use crate::leaving::{Leaving, take_all};
use crate::mark::Mark;
use crate::role::{Path, Role};
use crate::spot::{Spot, spot_of};
use crate::standing::Standing;
use crate::table::{Roles, number_of, put, set};
use bbm_events::Header;
use bbm_page_map::PageColumn;
use bbm_place_map::{PlaceMap, Position};
use bbm_regimes::{Page, Place, Which};
use indexmap::IndexMap;
use std::alloc::Global;

/// The number of pages that may be tracked.
const MAX_PAGES: usize = 16384;

/// What each page of a log is used for, and where it hangs in a tree. Clauses speak of the node of each page, and of
/// the fresh pages and the null pages.
#[derive(Drop)]
pub struct TreeIndex {
    /// The header of the log.
    header: Header,
    /// What each page that was ever tracked is used for.
    roles: PageColumn<Role>,
    ghost sound: { Sound (roles_of roles) header } by { Prim.hlevel props },
    ghost paged: { HasPages roles },
    ghost limited: { index_map_len roles ≤ 16384 },
}

/// Pages that can be attached, as a survey found them: a table for each level.
#[derive(Drop)]
pub struct Prepared {
    /// The pages of each level, by their addresses, from the level on at which their paths begin.
    tables: Vec<IndexMap<u64, Mark>>,
}

impl TreeIndex {
    ghost use Rattle.std.specs.Prelude.{◌≡◌, ◌≢◌, ◌≤◌, ◌↔◌, ℕ, true, false, None, Some, is_some, Err};
    ghost use Rattle.std.specs.Prelude.{Contains, IfErr, IfSome, OnOk, OnErr, length, slice_get, ◌<◌};
    ghost use Rattle.std.specs.Option.{option_map, option_map_or};
    ghost use Rattle.bbm_rules.specs.Places.{page_of};
    ghost use Rattle.bbm_rules.specs.Tree.{Node};
    ghost use Rattle.bbm_place_map.specs.Map.{lost_pages, value_at, marks_at};
    ghost use Rattle.bbm_place_map.specs.MapCalls.{IsSame};
    ghost use Rattle.bbm_place_map.specs.declared.map.PlaceMap.{PlaceMap as TheMap};
    ghost use Rattle.bbm_tree_index.specs.Descent.{Translates};
    ghost use Rattle.bbm_tree_index.specs.HeldCores.{holds_at, is_at, is_held_by, limbo_by};
    ghost use Rattle.bbm_tree_index.specs.HeldCores.{stays_without};
    ghost use Rattle.bbm_tree_index.specs.Index.{SamePages, SameTracked, heading_of, role_in, node_in, fresh_in};
    ghost use Rattle.bbm_tree_index.specs.Index.{null_in, known_in, pages_in};
    ghost use Rattle.bbm_tree_index.specs.IndexAgreement.{Agrees, HasNumber, SharesNumbers};
    ghost use Rattle.bbm_tree_index.specs.IndexChanges.{BecomesFresh, BecomesNull, BecomesZero, CountsTracked, IsNew};
    ghost use Rattle.bbm_tree_index.specs.IndexChanges.{TakesOut};
    ghost use Rattle.bbm_tree_index.specs.Leaving.{CanFind, HangOr, LieAt, stays};
    ghost use Rattle.bbm_tree_index.specs.Nodes.{path_at};
    ghost use Rattle.bbm_tree_index.specs.Spots.{Fits, StandsAt, spot_with};

    /// The index before any call. It takes no memory yet.
    pub fn new(alloc: Global, header: &Header) -> TreeIndex
        ensures empty { IsNew header.now result }
        ensures agrees { (map : TheMap) → ((a : ℕ) → marks_at map a ≡ None) → Agrees result map }
    {
        TreeIndex {
            header: *header,
            roles: PageColumn::new(alloc),
        }
    }

    /// The roles of the pages of the map.
    #[inline(always)]
    fn roles<'a>(&'a self, map: &'a PlaceMap) -> Roles<'a>
        requires { SharesNumbers self.now map.now }
        ensures { result ≡ self.now.roles }
    {
        Roles::new(map, &self.roles)
    }

    /// What the page is used for.
    #[inline(always)]
    pub fn role(&self, map: &PlaceMap, page: Page) -> Role
        requires { SharesNumbers self.now map.now }
        ensures { result ≡ role_in self.now page }
    {
        self.roles(map).role(page)
    }

    /// Whether the page is fresh.
    #[inline(always)]
    pub fn is_fresh(&self, map: &PlaceMap, page: Page) -> bool
        requires { SharesNumbers self.now map.now }
        ensures { result ≡ fresh_in self.now page }
    {
        matches!(self.role(map, page), Role::Fresh)
    }

    /// What the page of the place is used for. The position is that of the place in the map.
    #[inline(always)]
    fn role_at(&self, position: &Position) -> &Role
        requires { HasNumber self.now position.now }
        ensures { result.now ≡ role_in self.now (page_of position.now.place) }
    {
        self.roles.at(position.page.get()).1
    }

    /// Whether the page of the place is fresh. The position is that of the place in the map.
    #[inline(always)]
    pub fn is_fresh_at(&self, position: &Position) -> bool
        requires { HasNumber self.now position.now }
        ensures { result ≡ fresh_in self.now (page_of position.now.place) }
    {
        matches!(self.role_at(position), Role::Fresh)
    }

    /// Whether the page is a null page.
    pub fn is_null(&self, map: &PlaceMap, page: Page) -> bool
        requires { SharesNumbers self.now map.now }
        ensures { result ≡ null_in self.now page }
    {
        matches!(self.role(map, page), Role::Null)
    }

    /// Whether the page is in a tree.
    pub fn is_in_tree(&self, map: &PlaceMap, page: Page) -> bool
        requires { SharesNumbers self.now map.now }
        ensures { result ≡ is_some (node_in self.now page) }
    {
        matches!(
            self.role(map, page),
            Role::RootPage { .. } | Role::Hangs { .. }
        )
    }

    /// The number of pages that were ever tracked, 0 to 16,384.
    pub fn pages(&self) -> u64
        ensures count { result ≡ length (pages_in self.now) }
        ensures bound { result ≤ 16384 }
    {
        self.roles.len() as u64
    }

    /// The page with this number, and the kind and the level at which it is read; None where it is in no tree. Numbers
    /// are those that the map gave, from 0 on.
    pub fn standing(&self, number: usize) -> (Page, Option<Standing>)
        requires { number < length (pages_in self.now) }
        ensures at { slice_get (pages_in self.now) number ≡ Some result.0 }
        ensures stands { result.1 ≡ option_map (λ n. record { kind = n.kind; level = n.level })
            (node_in self.now result.0) }
    {
        let (page, role) = self.roles.at(number);
        match self.spot(page, role) {
            Some(spot) => (page, Some(spot.standing())),
            None => (page, None),
        }
    }

    /// What is known of the place: the kind of its tree, its level 0 to 3, the input pages that it translates, and the
    /// first page of the root. None where its page is in no tree. The position is that of the place in the map.
    #[inline(always)]
    pub fn path(&self, position: &Position) -> Option<Path>
        requires { HasNumber self.now position.now }
        ensures { result ≡ option_map (λ n. path_at n position.now.place)
            (node_in self.now (page_of position.now.place)) }
    {
        let place = position.place;
        Some(self.spot(place.page(), self.role_at(position))?.path(place))
    }

    /// Where the page, which has this role, stands; None where it is in no tree.
    #[inline(always)]
    fn spot(&self, page: Page, role: &Role) -> Option<Spot>
        requires { role.now ≡ role_in self.now page }
        ensures spot { result ≡ spot_with (heading_of self.now) (role_in self.now page) }
        ensures fits { IfSome result Fits }
        ensures node { IfSome result (λ s. (n : Node) × (node_in self.now page ≡ Some n) × StandsAt s n) }
        ensures none { result ≡ None → node_in self.now page ≡ None }
    {
        let _ = page;
        spot_of(&self.header, role)
    }

    /// The place of a page that translates the input page, with what is known of it: where one goes on the way down
    /// from the page along the input page. None where the page is in no tree, or no place of it translates the input
    /// page.
    #[inline(always)]
    pub fn place_translating(&self, map: &PlaceMap, page: Page, input: u64) -> Option<(Place, Path)>
        requires { SharesNumbers self.now map.now }
        ensures inside { IfSome result (λ met. is_at page met.0 ≡ true) }
        ensures path { IfSome result (λ met. (n : Node) × (node_in self.now page ≡ Some n)
            × (met.1 ≡ path_at n met.0)) }
        ensures translates { IfSome result (λ met. (n : Node) → node_in self.now page ≡ Some n
            → Translates page n input met.0) }
        ensures met { (n : Node) (a : ℕ) → node_in self.now page ≡ Some n → Translates page n input a
            → option_map (λ met. met.0) result ≡ Some a }
    {
        let role = self.role(map, page);
        let spot = self.spot(page, &role)?;
        let place = spot.place_at(page, input)?;
        Some((place, spot.path(place)))
    }

    /// Whether the present value of a place above the place is invalid; false where its page is in no tree.
    pub fn in_limbo(&self, map: &PlaceMap, place: Place) -> bool
        requires { SharesNumbers self.now map.now }
        ensures { result ≡ option_map_or (limbo_by (value_at map.now)) (node_in self.now (page_of place)) false }
    {
        let role = self.role(map, place.page());
        match role {
            Role::Hangs { level, .. } => { is_cut(&self.roles, map, level, &role) }
            Role::RootPage { .. } => false,
            Role::Untracked => false,
            Role::Fresh => false,
            Role::Gone => false,
            Role::Null => false,
        }
    }

    /// The page is declared null. It is fresh.
    pub fn nullify(&mut self, map: &PlaceMap, page: Page)
        requires same { SharesNumbers self.old map.now }
        requires fresh { fresh_in self.old page ≡ true }
        ensures null { BecomesNull page self.old self.new }
        ensures tracked { SameTracked self.old self.new }
        ensures agrees { (map : TheMap) → Agrees self.old map → Agrees self.new map }
    {
        put(&mut self.roles, map, page, Role::Null);
    }

    /// The pages that leave are in no tree any more, and no place of them is broken.
    #[inline(always)]
    fn leave(&mut self, map: &mut PlaceMap, leaving: &Leaving)
        requires same { SharesNumbers self.old map.old }
        requires found { CanFind (node_in self.old) map.old leaving.now }
        ensures { TakesOut (stays map.old leaving.now) self.old self.new map.old map.new }
    {
        take_all(&mut self.roles, map, &self.header, leaving);
    }

    /// Takes out of the trees each page with a place above it that holds nothing any more, as a DSB leaves it: there the
    /// page that hung is one of those that the DSB lost. No place of what leaves is broken any more, and nothing waits
    /// there. All else stays. It takes time by what leaves.
    #[inline(always)]
    pub fn prune(&mut self, map: &mut PlaceMap)
        requires same { SharesNumbers self.old map.old }
        requires lost { HangOr (node_in self.old) map.old (Contains (lost_pages map.old)) }
        ensures { TakesOut (is_held_by (holds_at map.old)) self.old self.new map.old map.new }
    {
        self.leave(map, &Leaving::Unheld);
    }

    /// Takes the pages of the root with this first page out of the trees. No place of them is broken any more, and
    /// nothing waits there. All else stays. It takes time by what leaves.
    pub fn detach(&mut self, map: &mut PlaceMap, first: Page)
        requires same { SharesNumbers self.old map.old }
        requires root { LieAt (node_in self.old) first }
        requires hang { HangOr (node_in self.old) map.old (λ page. ⊥) }
        ensures { TakesOut (stays_without first) self.old self.new map.old map.new }
    {
        self.leave(map, &Leaving::Root(first));
    }

    /// The page is tracked, anew where it was before; it is in no tree and isn't a null page. It becomes fresh, and the
    /// values of its places 0. `Limit(Pages)` exactly where it was never tracked and 16,384 pages were; else `NoMemory`
    /// where there is none. A refusal changes nothing.
    pub fn track(&mut self, map: &mut PlaceMap, page: Page) -> Result<(), TreeFault>
        requires same { SharesNumbers self.old map.old }
        requires no_tree { node_in self.old page ≡ None }
        requires not_null { null_in self.old page ≡ false }
        ensures fresh { OnOk result (BecomesFresh page self.old self.new) }
        ensures counted { OnOk result (CountsTracked page self.old self.new) }
        ensures zero { OnOk result (BecomesZero page map.old map.new) }
        ensures limit { (result ≡ Err (TreeFault.Limit Which.Pages))
            ↔ ((known_in self.old page ≡ false) × (16384 ≤ length (pages_in self.old))) }
        ensures fault { IfErr result (λ fault. fault ≢ TreeFault.Limit Which.Pages → fault ≡ TreeFault.NoMemory) }
        ensures same_pages { OnErr result (SamePages self.old self.new) }
        ensures same_tracked { OnErr result (SameTracked self.old self.new) }
        ensures same_map { OnErr result (IsSame map.old map.new) }
        ensures shares { SharesNumbers self.new map.new }
        ensures agrees { Agrees self.old map.old → Agrees self.new map.new }
    {
        let _ = page.get();
        let number = number_of(&self.roles, map, page);
        if !number.is_some() && self.roles.len() >= MAX_PAGES {
            return Err(TreeFault::Limit(Which::Pages));
        }
        match self.roles.reserve() {
            Ok(()) => {}
            Err(_) => return Err(TreeFault::NoMemory),
        }
        match map.track(page) {
            Ok(()) => {}
            Err(_) => return Err(TreeFault::NoMemory),
        }
        set(&mut self.roles, number, page, Role::Fresh);
        Ok(())
    }
}
