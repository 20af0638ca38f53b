//! The same events in two histories that are alike.

ghost use Rattle.std.specs.Prelude.{◌≡◌, ◌<◌, true, List, ◌++◌};
ghost use Rattle.bbm_events.specs.Heading.{Heading};
ghost use Rattle.bbm_events.specs.declared.event.Event.{Event};
ghost use Rattle.bbm_rules.specs.Broken.{keeps};
ghost use Rattle.bbm_rules.specs.Claims.{Trust};
ghost use Rattle.bbm_rules.specs.Claims.Trust.{Patterns};
ghost use Rattle.bbm_alike.specs.Alike.{Alike};
ghost use Rattle.bbm_alike.specs.AlikeLaws.{StepAlike};

use crate::known::known;

/// Two histories that are alike are so still after the same event, where it breaks no rule in either and takes away
/// alike in both. The law is `StepAlike`.
pub fn law_alike_step()
    ensures { (heading : Heading) (one other : Trust) → StepAlike heading one other }
{
    known();
}

/// Where every pattern is trusted, no later events tell two histories apart that are alike: what keeps the rules after
/// the one keeps them after the other, and both are alike then. The law is the contract.
pub fn law_alike_onward()
    ensures { (heading : Heading) (newer h h' : List Event) → 0 < heading.pes →
        Alike heading Patterns Patterns h h' → keeps heading Patterns h' ≡ true →
        keeps heading Patterns (newer ++ h) ≡ true →
        (keeps heading Patterns (newer ++ h') ≡ true) × Alike heading Patterns Patterns (newer ++ h) (newer ++ h') }
{
    known();
}
