//! What the crates below prove, gathered for the proofs here.

ghost use Rattle.bbm_events.specs.Heading.{Heading};
ghost use Rattle.bbm_alike.specs.KnownOfHistories.{Known};

use bbm_histories::{
    law_childless_step, law_claim_steps, law_fresh_content, law_held_step, law_one_position,
    law_pattern_steps, law_phase_parts, law_tag_steps, law_tree_step,
};
use bbm_rules::{
    law_cleansed, law_equality_tests, law_half, law_held, law_last_valid,
    law_notes_keep_the_events, law_seen, law_tag_kept, law_tree,
};

/// The laws that the laws here stand on.
pub(crate) fn known()
    ensures { (heading : Heading) → Known heading }
{
    law_childless_step();
    law_claim_steps();
    law_cleansed();
    law_equality_tests();
    law_fresh_content();
    law_half();
    law_held();
    law_held_step();
    law_last_valid();
    law_notes_keep_the_events();
    law_one_position();
    law_pattern_steps();
    law_phase_parts();
    law_seen();
    law_tag_kept();
    law_tag_steps();
    law_tree();
    law_tree_step();
}
