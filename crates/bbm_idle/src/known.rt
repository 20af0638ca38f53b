//! What the crates below prove, gathered for the proofs here.

ghost use Rattle.std.specs.Prelude.{◌≡◌, true};
ghost use Rattle.bbm_events.specs.Heading.{Heading, heading_ok};
ghost use Rattle.bbm_idle.specs.KnownOfIdle.{Known, Terms};

use bbm_alike::{
    law_alike_joins, law_alike_judges, law_alike_step, law_covers_alike, law_same_tags,
    law_takes_alike, law_trees_alike,
};
use bbm_histories::{
    law_frozen, law_frozen_view, law_held_changes, law_held_step, law_node_step, law_one_node,
    law_pattern_steps, law_patterns_stay, law_phase_parts, law_proper,
};
use bbm_rules::{
    law_answered, law_changes, law_cleansed, law_equality_tests, law_half, law_last_valid,
    law_notes, law_notes_keep_the_events, law_seen, law_tag_kept, law_tree,
};

/// The laws that the laws here stand on.
pub(crate) fn known()
    ensures { (heading : Heading) → heading_ok heading ≡ true → Known heading }
{
    law_alike_joins();
    law_alike_judges();
    law_alike_step();
    law_answered();
    law_changes();
    law_cleansed();
    law_covers_alike();
    law_frozen();
    law_frozen_view();
    law_half();
    law_held_changes();
    law_held_step();
    law_last_valid();
    law_node_step();
    law_notes();
    law_notes_keep_the_events();
    law_one_node();
    law_pattern_steps();
    law_patterns_stay();
    law_phase_parts();
    law_proper();
    law_seen();
    law_same_tags();
    law_tag_kept();
    law_takes_alike();
    law_tree();
    law_trees_alike();
}

/// What the laws below say of the terms by which needed TLBIs and idle events are told.
pub(crate) fn terms()
    ensures { (heading : Heading) → Terms heading }
{
    law_answered();
    law_cleansed();
    law_equality_tests();
    law_half();
    law_last_valid();
    law_notes_keep_the_events();
    law_phase_parts();
    law_seen();
    law_tag_kept();
}
