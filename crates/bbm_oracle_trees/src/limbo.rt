//! Limbo.

ghost use Rattle.std.specs.Prelude.{◌≡◌, not};
ghost use Rattle.bbm_descriptor.specs.Descriptor.{is_valid};
ghost use Rattle.bbm_rules.specs.Notes.{events_of};
ghost use Rattle.bbm_rules.specs.Tree as trees;
ghost use Rattle.bbm_rules.specs.Values.{value_of};
ghost use Rattle.bbm_oracle_trees.specs.Past.{notes};

use crate::log::Log;
use crate::node::{Above, Node};
use bbm_descriptor::is_valid;
use bbm_oracle_patterns::Evidence;
use bbm_regimes::Kind;

/// Whether the present value of the place is invalid, at this kind and its level.
fn is_broken<E: Evidence>(log: &Log<E>, kind: Kind, above: &Above) -> bool
    ensures { result ≡ not (is_valid kind above.now.level (value_of (events_of (notes log.now)) above.now.place)) }
{
    !is_valid(kind, above.level, log.value_of(above.place))
}

/// Whether the present value of a place above the page is invalid. Source: project's own choice.
pub fn in_limbo<E: Evidence>(log: &Log<E>, node: &Node) -> bool
    ensures { result ≡ trees.in_limbo (notes log.now) node.now }
{
    for above in &node.above {
        if is_broken(log, node.kind, above) {
            return true;
        }
    }
    false
}
