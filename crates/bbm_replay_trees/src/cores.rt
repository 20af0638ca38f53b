//! Laws of the cores of what the places of trees hold.

ghost use Rattle.bbm_events.specs.Heading.{Heading};
ghost use Rattle.bbm_replay_trees.specs.CoreLaws.{CoresAfter};

use crate::below::below;

/// The cores of what the places of trees hold after an event that breaks no rule, by those before it. The law is
/// `CoresAfter`.
pub fn law_cores()
    ensures { (heading : Heading) → CoresAfter heading }
{
    below();
}
