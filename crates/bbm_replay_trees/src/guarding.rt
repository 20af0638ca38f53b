//! Laws of what is kept of the pages that leaves of stage 2 map, and of the rule on table pages by it.

ghost use Rattle.bbm_events.specs.Heading.{Heading};
ghost use Rattle.bbm_replay_trees.specs.Guarding.{GuardsAfter, JudgesTables};

use crate::below::below;

/// What is kept of the pages that leaves of stage 2 map, after an event that breaks no rule, by what was kept before
/// it. The law is `GuardsAfter`.
pub fn law_guards()
    ensures { (heading : Heading) → GuardsAfter heading }
{
    below();
}

/// What the rule on table pages says of an event, by what is kept. The law is `JudgesTables`.
pub fn law_judges_tables()
    ensures { (heading : Heading) → JudgesTables heading }
{
    below();
}
