//! What the crates below prove, gathered for the proofs here.

ghost use Rattle.std.specs.Prelude.{◌≡◌, true};
ghost use Rattle.bbm_events.specs.Heading.{Heading, heading_ok};
ghost use Rattle.bbm_certify.specs.KnownOfCertificates.{Known};

use bbm_alike::{
    law_alike_joins, law_alike_judges, law_alike_step, law_covers_alike, law_takes_alike,
};
use bbm_histories::{
    law_fresh_content, law_one_node, law_one_position, law_pattern_steps, law_proper,
    law_tag_claim_steps, law_tag_steps, law_tags, law_tree_step,
};
use bbm_rules::{
    law_answered, law_cleansed, law_equality_tests, law_last_valid, law_notes_keep_the_events,
    law_root_pages, law_tag_kept, law_tree,
};

/// The laws that the proofs here stand on.
pub(crate) fn known()
    ensures { (heading : Heading) → heading_ok heading ≡ true → Known heading }
{
    law_alike_joins();
    law_alike_judges();
    law_alike_step();
    law_answered();
    law_cleansed();
    law_covers_alike();
    law_equality_tests();
    law_fresh_content();
    law_last_valid();
    law_notes_keep_the_events();
    law_one_node();
    law_one_position();
    law_pattern_steps();
    law_proper();
    law_root_pages();
    law_tag_claim_steps();
    law_tag_kept();
    law_tag_steps();
    law_tags();
    law_takes_alike();
    law_tree();
    law_tree_step();
}
