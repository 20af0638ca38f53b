//! What the crates below prove of histories, gathered for the proofs here.

ghost use Rattle.bbm_events.specs.Heading.{Heading};
ghost use Rattle.bbm_roots.specs.RootLaws.{Laws};

use bbm_histories::{law_bases, law_proper, law_tags};
use bbm_rules::{
    law_each_rule, law_equality_tests, law_notes_keep_the_events, law_readable_tag, law_root,
    law_tag_left, law_tag_set,
};

/// The laws that the proofs here stand on.
pub(crate) fn laws_below()
    ensures { (heading : Heading) → Laws heading }
{
    law_bases();
    law_each_rule();
    law_equality_tests();
    law_notes_keep_the_events();
    law_proper();
    law_readable_tag();
    law_root();
    law_tag_left();
    law_tag_set();
    law_tags();
}
