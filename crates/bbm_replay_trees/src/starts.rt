//! The law of the pages of trees that hang at no place.

ghost use Rattle.bbm_events.specs.Heading.{Heading};
ghost use Rattle.bbm_replay_trees.specs.NodeLaws.{Starts};

use crate::below::below;
use bbm_rules::law_root;

/// A page of a tree that hangs at no place is one of a declared root. The law is `Starts`.
pub fn law_starts()
    ensures { (heading : Heading) → Starts heading }
{
    below();
    law_root();
}
