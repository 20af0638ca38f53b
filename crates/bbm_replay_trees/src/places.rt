//! Laws of places in limbo, of childless tables, and of restless places.

ghost use Rattle.bbm_events.specs.Heading.{Heading};
ghost use Rattle.bbm_replay_trees.specs.PlaceLaws.{ChildlessByCores, LimboByValues, RestlessCounted};

use crate::below::below;

/// A node is in limbo exactly where the present value of some place above it is invalid. The law is `LimboByValues`.
pub fn law_limbo_by_values()
    ensures { (heading : Heading) → LimboByValues heading }
{
    below();
}

/// Which tables are childless, by the cores of what places hold. The law is `ChildlessByCores`.
pub fn law_childless_by_cores()
    ensures { (heading : Heading) → ChildlessByCores heading }
{
    below();
}

/// The number of restless places is that of any list or numbering of them. The law is `RestlessCounted`.
pub fn law_restless_places()
    ensures { (heading : Heading) → RestlessCounted heading }
{
    below();
}
