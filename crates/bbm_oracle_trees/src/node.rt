//! Pages of translation table trees.
//! Source: project's own choice, where no other is named.

ghost use Rattle.std.specs.Prelude.{◌≡◌, ◌<◌, ◌∷◌, IfOk};
ghost use Rattle.bbm_rules.specs.Tree as trees;

use bbm_events::input_pages;
use bbm_regimes::{Interval, Kind, Level, NoMemory, Page, Place};
use std::alloc::Global;
use std::marker::Model;

/// A place above a page of a tree.
#[derive(Clone, Copy, PartialEq, Eq)]
pub struct Above {
    /// The place.
    pub place: Place,
    /// Its level.
    pub level: Level,
}

impl Model for Above {
    ghost use Rattle.bbm_rules.specs.Tree as trees;

    ghost Value = { trees.Above };

    ghost view = { λ a. record { place = a.place; level = a.level } };

    ghost inverse = { λ a. record { place = a.place; level = a.level } };
}

/// A page of a tree of translation tables. A clause sees the places above as the list, the nearest first.
#[derive(Drop)]
pub struct Node {
    /// The page.
    pub page: Page,
    /// The kind of the tree.
    pub kind: Kind,
    /// The level of the page.
    pub level: Level,
    /// The first page of the root.
    pub root: Page,
    /// The input page number at which the region of the page begins.
    pub base: u64,
    /// The places above the page, the nearest first.
    pub above: Vec<Above>,
}

impl Model for Node {
    ghost use Rattle.std.specs.Prelude.{◌≤◌, ◌+◌, ◌*◌, ◌^◌};
    ghost use Rattle.bbm_regimes.specs.World.{input_pages};
    ghost use Rattle.bbm_regimes.specs.declared.address.TheConstants.{PLACES};
    ghost use Rattle.bbm_rules.specs.Tree as trees;

    ghost Value = { trees.Node };

    ghost view = { λ n. record {
      page = n.page;
      kind = n.kind;
      level = n.level;
      root = n.root;
      base = n.base;
      above = n.above.items;
    } };

    ghost invariant = { λ n. n.base + PLACES * input_pages n.level ≤ 2 ^ 45 };
}

impl Node {
    /// The first input page number that the place of the page translates.
    fn start(&self, place: Place) -> u64
        ensures { result ≡ trees.region_start self.now place }
    {
        self.base + place.index() as u64 * input_pages(self.level)
    }

    /// The input page numbers that a place of the page translates.
    pub fn region(&self, place: Place) -> Interval
        ensures { result ≡ trees.region_of self.now place }
    {
        let lo = self.start(place);
        Interval {
            lo,
            hi: lo + input_pages(self.level) - 1,
        }
    }

    /// The places above the page below the place, the nearest first.
    fn above_next(&self, alloc: Global, place: Place) -> Result<Vec<Above>, NoMemory>
        ensures { IfOk result (λ above. above.items
            ≡ record { place = place; level = self.now.level } ∷ self.now.above) }
    {
        let level = self.level;
        let mut above = Vec::new(alloc);
        above.push(Above { place, level })?;
        above.extend_from_slice(&self.above)?;
        Ok(above)
    }

    /// The page below the place of this page, whose level is at most 2, where the place leads to the next page.
    /// `NoMemory` where there is none.
    pub fn below(&self, alloc: Global, place: Place, next: Page) -> Result<Node, NoMemory>
        requires { self.now.level < 3 }
        ensures { IfOk result (λ node. node ≡ trees.node_below self.now place next) }
    {
        Ok(Node {
            page: next,
            kind: self.kind,
            level: self.level.below().unwrap(),
            root: self.root,
            base: self.start(place),
            above: self.above_next(alloc, place)?,
        })
    }
}
