//! Where a page of a tree stands.

ghost use Rattle.std.specs.Prelude.{◌≡◌, ◌≤◌, ◌+◌, ◌-◌, ◌*◌, ◌↔◌, true, ℕ, suc};
ghost use Rattle.bbm_rules.specs.Tree.{Node};
ghost use Rattle.bbm_place_map.specs.declared.map.PlaceMap.{PlaceMap as TheMap};
ghost use Rattle.bbm_regimes.specs.declared.regime.Kind.{Kind as TheKind};
ghost use Rattle.bbm_tree_index.specs.HeldCores.{Childless, core_at, holds_at};
ghost use Rattle.bbm_tree_index.specs.Nodes.{path_at};
ghost use Rattle.bbm_regimes.specs.World.{input_pages as input_pages_of};
ghost use Rattle.bbm_tree_index.specs.Spots.{spot_with, Fits, RoleFits};

use crate::held::{holds_none, next_at, place_of};
use crate::role::{Path, Role};
use crate::standing::Standing;
use bbm_events::{Header, input_pages, regions_in};
use bbm_place_map::PlaceMap;
use bbm_regimes::{Interval, Kind, Level, PLACES, Page, Place};

/// Where a page of a tree stands: its kind and level, the input page number at which its region begins, and the first
/// page of the root. Source: project's own choice.
#[derive(Clone, Copy)]
pub struct Spot {
    /// The kind of the root.
    pub kind: Kind,
    /// The level.
    pub level: Level,
    /// The input page number at which the region begins.
    pub base: u64,
    /// The first page of the root.
    pub first: Page,
}

/// Where a page with this role stands, None where it is in no tree.
pub fn spot_of(header: &Header, role: &Role) -> Option<Spot>
    requires { RoleFits header.now role.now }
    ensures { result ≡ spot_with header.now role.now }
{
    match *role {
        Role::RootPage { kind, first, part } => {
            let level = header.start_level(kind);
            Some(Spot {
                kind,
                level,
                base: header.first_input_page(kind) + part as u64 * (PLACES * input_pages(level)),
                first,
            })
        }
        Role::Hangs {
            parent: _,
            kind,
            level,
            base,
            first,
        } => Some(Spot {
            kind,
            level,
            base,
            first,
        }),
        _ => None,
    }
}

/// The level below, at which values are read as at level 3 where there is none.
fn deeper(level: Level) -> Level
    ensures { (map : TheMap) (kind : TheKind) (a : ℕ) → holds_at map kind result a
        ≡ holds_at map kind (suc level) a }
{
    level.below().unwrap_or(Level::THREE)
}

impl Spot {
    ghost use Rattle.std.specs.Prelude.{◌<◌, true, Some, IfSome};
    ghost use Rattle.bbm_tree_index.specs.HeldCores.{is_at};
    ghost use Rattle.bbm_rules.specs.Places.{index_of};

    /// How the page is read.
    pub fn standing(&self) -> Standing
        ensures kind { result.kind ≡ self.now.kind }
        ensures level { result.level ≡ self.now.level }
    {
        Standing {
            kind: self.kind,
            level: self.level,
        }
    }

    /// The first input page number that the place of the page translates.
    pub fn start(&self, place: Place) -> u64
        requires { Fits self.now }
        ensures { result ≡ self.now.base + index_of place * input_pages_of self.now.level }
    {
        self.base + place.index() as u64 * input_pages(self.level)
    }

    /// The place of the page that translates the input page, None where there is none.
    pub fn place_at(&self, page: Page, input: u64) -> Option<Place>
        requires { Fits self.now }
        ensures place { (a : ℕ) → is_at page a ≡ true
            → self.now.base + index_of a * input_pages_of self.now.level ≤ input
            → input < self.now.base + index_of a * input_pages_of self.now.level + input_pages_of self.now.level
            → result ≡ Some a }
        ensures inside { IfSome result (λ a. is_at page a ≡ true) }
        ensures region { IfSome result
            (λ a. (self.now.base + index_of a * input_pages_of self.now.level ≤ input)
            × (input < self.now.base + index_of a * input_pages_of self.now.level + input_pages_of self.now.level)) }
    {
        if input < self.base {
            return None;
        }
        let index = regions_in(self.level, input - self.base);
        if index < PLACES {
            Some(place_of(page, index))
        } else {
            None
        }
    }

    /// What is known of the place of the page.
    pub fn path(&self, place: Place) -> Path
        requires { Fits self.now }
        ensures kind { result.kind ≡ self.now.kind }
        ensures level { result.level ≡ self.now.level }
        ensures lo { result.region.lo ≡ self.now.base + index_of place * input_pages_of self.now.level }
        ensures hi { result.region.hi ≡ self.now.base + index_of place * input_pages_of self.now.level
            + input_pages_of self.now.level - 1 }
        ensures first { result.first ≡ self.now.first }
    {
        let lo = self.start(place);
        Path {
            kind: self.kind,
            level: self.level,
            region: Interval {
                lo,
                hi: lo + input_pages(self.level) - 1,
            },
            first: self.first,
        }
    }
}

/// Whether the place with this path, of level 0 to 3, holds a table no place of which holds anything.
pub fn is_childless(map: &PlaceMap, place: Place, path: &Path) -> bool
    requires { path.now.level ≤ 3 }
    ensures { (n : Node) → path.now ≡ path_at n place → (result ≡ true) ↔ Childless (core_at map.now) n place }
{
    match next_at(map, path.kind, path.level, place) {
        Some(next) => holds_none(map, path.kind, deeper(path.level), next),
        None => false,
    }
}
