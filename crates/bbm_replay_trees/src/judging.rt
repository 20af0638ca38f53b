//! Laws of the three rules on attached pages.

ghost use Rattle.bbm_events.specs.Heading.{Heading};
ghost use Rattle.bbm_replay_trees.specs.Judging.{JudgesAttached, Unattached};

use crate::below::below;

/// What a judge of paths through fresh pages finds is what the rules on attached pages say. The law is
/// `JudgesAttached`.
pub fn law_judging()
    ensures { (heading : Heading) → JudgesAttached heading }
{
    below();
}

/// What these rules say of a write that attaches nothing. The law is `Unattached`.
pub fn law_unattached()
    ensures { (heading : Heading) → Unattached heading }
{
    below();
}
