//! What the crates below prove, gathered for the proofs here.

ghost use Rattle.bbm_events.specs.Heading.{Heading};
ghost use Rattle.bbm_replay_trees.specs.BelowTrees.{Below};

use bbm_descriptor::laws::law_core_where_valid;
use bbm_histories::{
    law_attached_tables, law_childless_step, law_fresh_content, law_fresh_step, law_held_changes,
    law_held_step, law_mapped_step, law_node_step, law_one_node, law_one_position,
    law_tables_are_clean,
};
use bbm_rules::{
    law_each_rule, law_held, law_mapped, law_notes_keep_the_events, law_paths, law_repeated,
    law_root_pages, law_tree,
};

/// The laws that the laws here stand on.
pub(crate) fn below()
    ensures { (heading : Heading) → Below heading }
{
    law_attached_tables();
    law_childless_step();
    law_core_where_valid();
    law_each_rule();
    law_fresh_content();
    law_fresh_step();
    law_held();
    law_held_changes();
    law_held_step();
    law_mapped();
    law_mapped_step();
    law_node_step();
    law_notes_keep_the_events();
    law_one_node();
    law_one_position();
    law_paths();
    law_repeated();
    law_root_pages();
    law_tables_are_clean();
    law_tree();
}
