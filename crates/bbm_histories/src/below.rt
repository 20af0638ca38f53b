//! What the crates below prove, gathered for the proofs here.

ghost use Rattle.bbm_events.specs.Heading.{Heading};
ghost use Rattle.bbm_rules.specs.Claims.{Trust};
ghost use Rattle.bbm_histories.specs.BelowHistories.{Below};

use bbm_descriptor::laws::{
    law_core_where_valid, law_no_need_of_equal_cores, law_same_core_is_equal,
};
use bbm_rules::{
    law_attaching, law_childless, law_each_rule, law_equality_tests, law_global_user, law_half,
    law_held, law_last_valid, law_limbo, law_mapped, law_notes, law_notes_keep_the_events,
    law_paths, law_published, law_readable_tag, law_readable_value, law_root, law_root_pages,
    law_seen, law_table_mapped, law_tag_held, law_tag_kept, law_tag_rules, law_tree,
};

/// The laws that the laws here stand on.
pub(crate) fn below()
    ensures { (heading : Heading) (trust : Trust) → Below heading trust }
{
    law_attaching();
    law_childless();
    law_core_where_valid();
    law_each_rule();
    law_equality_tests();
    law_global_user();
    law_half();
    law_held();
    law_last_valid();
    law_limbo();
    law_mapped();
    law_no_need_of_equal_cores();
    law_notes();
    law_notes_keep_the_events();
    law_paths();
    law_published();
    law_readable_tag();
    law_readable_value();
    law_root();
    law_root_pages();
    law_same_core_is_equal();
    law_seen();
    law_table_mapped();
    law_tag_held();
    law_tag_kept();
    law_tag_rules();
    law_tree();
}
