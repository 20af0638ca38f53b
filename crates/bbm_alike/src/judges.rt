//! After two histories that are alike every event is judged alike.

ghost use Rattle.bbm_events.specs.Heading.{Heading};
ghost use Rattle.bbm_rules.specs.Claims.{Trust};
ghost use Rattle.bbm_alike.specs.AlikeLaws.{JudgedAlike};

use crate::known::known;

/// After histories that are alike, each read by its trust, every event breaks the same rule, at the same number, or
/// none; so where both keep the rules or neither does, the same holds of both with the event. The law is `JudgedAlike`.
pub fn law_alike_judges()
    ensures { (heading : Heading) (one other : Trust) → JudgedAlike heading one other }
{
    known();
}
