//! Where the paths of attached pages begin.

ghost use Rattle.std.specs.Prelude.{◌≡◌, ◌≤◌, ◌<◌, ◌+◌, ◌*◌, ◌^◌, ℕ, nat_eq, IfOk};
ghost use Rattle.indexmap.specs.IndexMap.{get};
ghost use Rattle.bbm_events.specs.Heading.{Heading};
ghost use Rattle.bbm_rules.specs.Tree.{Node, node_below};
ghost use Rattle.bbm_tree_index.specs.Spots.{Fits, StandsAt};
ghost use Rattle.bbm_tree_index.specs.Survey.{Starting, Well, root_marks};
ghost use Rattle.std.specs.Prelude.{[], ◌∷◌};

use crate::mark::{Mark, add};
use crate::role::Role;
use crate::spot::Spot;
use bbm_regimes::{Kind, NoMemory, PAGE_BYTES, Page, Place};
use indexmap::IndexMap;
use std::alloc::Global;

/// The table of the page below a place of a page that stands there, at a level below 3.
pub fn start_below(
    alloc: Global,
    spot: &Spot,
    place: Place,
    next: Page,
) -> Result<IndexMap<u64, Mark>, NoMemory>
    requires fits { Fits spot.now }
    requires low { spot.now.level < 3 }
    ensures well { IfOk result (λ table. (heading : Heading) → Well heading (get nat_eq table)) }
    ensures start { IfOk result (λ table. (heading : Heading) (n : Node) → StandsAt spot.now n →
        Starting heading (get nat_eq table) (node_below n place next ∷ [])) }
{
    let role = Role::Hangs {
        parent: place,
        kind: spot.kind,
        level: spot.level.below().unwrap(),
        base: spot.start(place),
        first: spot.first,
    };
    let mut table = IndexMap::new(alloc);
    add(&mut table, next, &Mark { role, many: false })?;
    Ok(table)
}

/// The table of the pages of a root, so many from the first one on.
pub fn start_root(
    alloc: Global,
    kind: Kind,
    first: Page,
    count: u8,
) -> Result<IndexMap<u64, Mark>, NoMemory>
    requires { first + PAGE_BYTES * count ≤ 2 ^ 48 }
    ensures { IfOk result (λ table. (q : ℕ) → get nat_eq table q ≡ root_marks kind first count q) }
{
    let mut table = IndexMap::new(alloc);
    for part in 0..count {
        let role = Role::RootPage { kind, first, part };
        let page = first.behind(part);
        add(&mut table, page, &Mark { role, many: false })?;
    }
    Ok(table)
}
