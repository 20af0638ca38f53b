//! What the crates below prove, gathered for the proofs here.

ghost use Rattle.bbm_gen.specs.BelowGen.{Below};

use bbm_histories::{law_held_changes, law_one_node, law_proper, law_tree_step};
use bbm_rules::law_notes_keep_the_events;

/// The laws of the rules and of the histories that the laws here stand on.
pub(crate) fn below()
    ensures { Below }
{
    law_held_changes();
    law_notes_keep_the_events();
    law_one_node();
    law_proper();
    law_tree_step();
}
