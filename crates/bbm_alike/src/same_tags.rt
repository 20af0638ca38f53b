//! What leaves the tags of a history as they were.

ghost use Rattle.bbm_rules.specs.Prelude.{Heading};
ghost use Rattle.bbm_alike.specs.AlikeLaws.{TagsStay};

use bbm_histories::law_tag_steps;
use bbm_rules::{law_answered, law_equality_tests};

/// Which events leave the tags of a history as they were. The law is `TagsStay`.
pub fn law_same_tags()
    ensures { (heading : Heading) → TagsStay heading }
{
    law_answered();
    law_equality_tests();
    law_tag_steps();
}
