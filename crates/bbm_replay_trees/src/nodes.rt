//! Laws of the node of each page.

ghost use Rattle.bbm_events.specs.Heading.{Heading};
ghost use Rattle.bbm_replay_trees.specs.NodeLaws.{Neighbours, NodesAfter};

use crate::below::below;

/// The node of each page after an event that breaks no rule, by that before it. The law is `NodesAfter`.
pub fn law_nodes()
    ensures { (heading : Heading) → NodesAfter heading }
{
    below();
}

/// Where the pages of trees hang, in a history that keeps the rules. The law is `Neighbours`.
pub fn law_neighbours()
    ensures { (heading : Heading) → Neighbours heading }
{
    below();
}
