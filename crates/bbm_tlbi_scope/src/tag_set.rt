//! Sets of the tags that a root holds.

ghost use Rattle.std.specs.Prelude.{◌≡◌, ◌||◌, Bool, true};
ghost use Rattle.bbm_regimes.specs.declared.regime.Tag.{Tag as TheTag};
ghost use Rattle.bbm_tlbi_scope.specs.TagSets.{HasTags};

use crate::entry::TagSet;
use bbm_regimes::{Tag, same_tag};

/// The set with the tag. Where the set has the tags that pass a test, the result has those and this one. Source:
/// project's own choice.
pub fn with_tag(set: TagSet, tag: Tag) -> TagSet
    ensures { (test hit : TheTag → Bool) → HasTags test set → hit tag ≡ true
        → ((g : TheTag) → hit g ≡ true → g ≡ tag) → HasTags (λ g. test g || hit g) result }
{
    match set {
        TagSet::None => TagSet::One(tag),
        TagSet::One(one) => {
            if same_tag(one, tag) {
                TagSet::One(one)
            } else {
                TagSet::Many
            }
        }
        TagSet::Many => TagSet::Many,
    }
}
