//! Step equations of the definitions that search: what they give after an event, by what they gave before it.

ghost use Rattle.bbm_events.specs.Heading.{Heading};
ghost use Rattle.bbm_rules.specs.Claims.{Trust};
ghost use Rattle.bbm_histories.specs.ContentLaws.{HeldAfter};
ghost use Rattle.bbm_histories.specs.HolderLaws.{TagsAfter};
ghost use Rattle.bbm_histories.specs.PatternLaws.{PatternsAfter};

use crate::below::below;

/// What is seen, half and cleansed after an event, and which TLBIs wait for their answers, by the event and by what was
/// so before it. The law is `PatternsAfter`.
pub fn law_pattern_steps()
    ensures { (heading : Heading) → PatternsAfter heading }
{}

/// What a place holds after an event, by what it held before: a valid write makes it hold the value, an init of its
/// page nothing; a DSB leaves it the last valid value unless the place is then cleansed at every PE; any other event
/// leaves it as it was. The law is `HeldAfter`.
pub fn law_held_step()
    ensures { (heading : Heading) (trust : Trust) → HeldAfter heading trust }
{
    below();
}

/// Which tags wait to be taken away after an event, by the event and by what was so before it; and a DSB takes a tag
/// away where it answers what waits and the tag isn't readable then. The law is `TagsAfter`.
pub fn law_tag_steps()
    ensures { (heading : Heading) → TagsAfter heading }
{}
