//! What a TLBI covers after histories that are alike.

ghost use Rattle.bbm_events.specs.Heading.{Heading};
ghost use Rattle.bbm_rules.specs.Claims.{Trust};
ghost use Rattle.bbm_alike.specs.AlikeLaws.{CoversAlike};

use crate::known::known;

/// After histories that are alike, each read by its trust, every event has the same cover and the same top cover of each
/// place. The law is `CoversAlike`.
pub fn law_covers_alike()
    ensures { (heading : Heading) (one other : Trust) → CoversAlike heading one other }
{
    known();
}
