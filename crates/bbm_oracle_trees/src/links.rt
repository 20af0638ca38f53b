//! Which events leave the trees as they are.
//! Source: project's own choice.

ghost use Rattle.std.specs.Prelude.{◌≡◌};
ghost use Rattle.bbm_rules.specs.Lists.{any};
ghost use Rattle.bbm_oracle_trees.specs.Links as spec;
ghost use Rattle.bbm_oracle_trees.specs.Past.{notes};

use crate::log::Log;
use crate::node::{Above, Node};
use crate::tree::next_page;
use bbm_events::Event;
use bbm_oracle_patterns::Evidence;
use bbm_regimes::{Kind, Place};

/// Whether the nearest of the places above a page is this one.
fn begins_at(above: &[Above], place: Place) -> bool
    ensures { result ≡ spec.begins_at place above.now }
{
    match above {
        [nearest, ..] => nearest.place == place,
        [] => false,
    }
}

/// Whether a write of the value to the place may link a page below this one, or cut this one off.
fn is_touched(node: &Node, place: Place, value: u64) -> bool
    ensures { result ≡ spec.is_touched place value node.now }
{
    node.page == place.page() && next_page(node.kind, node.level, value).is_some()
        || begins_at(&node.above, place)
}

/// Whether one of the pages is touched so.
fn touches(tree: &[Node], place: Place, value: u64) -> bool
    ensures { result ≡ any (spec.is_touched place value) tree.now }
{
    for node in tree {
        if is_touched(node, place, value) {
            return true;
        }
    }
    false
}

/// Whether there are places above a page, and the nearest of them holds nothing.
fn holds_none<E: Evidence>(log: &Log<E>, kind: Kind, above: &[Above]) -> bool
    ensures { result ≡ spec.holds_none log.now.heading log.now.trust (notes log.now) kind above.now }
{
    match above {
        [nearest, ..] => log.held(kind, nearest.level, nearest.place).is_none(),
        [] => false,
    }
}

/// Whether one of the pages is cut off by now.
fn cuts<E: Evidence>(log: &Log<E>, tree: &[Node]) -> bool
    ensures { result ≡ any (spec.is_cut log.now.heading log.now.trust (notes log.now)) tree.now }
{
    for node in tree {
        if holds_none(log, node.kind, &node.above) {
            return true;
        }
    }
    false
}

/// Whether the newest event of the log leaves the trees and the fresh pages as they were, where these are the trees
/// before it. False where that isn't known without the trees after it. Source: project's own choice.
pub fn leaves_trees<E: Evidence>(log: &Log<E>, tree: &[Node], event: &Event) -> bool
    ensures { result ≡ spec.leaves log.now.heading log.now.trust (notes log.now) tree.now event.now }
{
    match *event {
        Event::Write {
            pe: _,
            place,
            value,
        } => !touches(tree, place, value),
        Event::Dsb { .. } => !cuts(log, tree),
        Event::Init { .. } | Event::Null { .. } | Event::Root { .. } | Event::Unroot { .. } =>
            false,
        _ => true,
    }
}
