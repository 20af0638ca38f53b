//! The law that a refusal by the rule of break-before-make is a real danger where a PE stands open to the place.

ghost use Rattle.std.specs.Prelude.{◌≡◌, ℕ, List, Option, None};
ghost use Rattle.bbm_counterrun.specs.Plans.{Finds, IsPlain, Plan};
ghost use Rattle.bbm_counterrun.specs.RefusedWrite.{IsRefused};
ghost use Rattle.bbm_counterrun.specs.StandsOpen.{Reached, StandsOpen};
ghost use Rattle.bbm_events.specs.Heading.{Heading};
ghost use Rattle.bbm_events.specs.declared.event.Event.{Event};
ghost use Rattle.bbm_events.specs.declared.event.Event.TheVariants.{Write};
ghost use Rattle.bbm_tlb_machine.specs.Safe.{IsLog};
ghost use Rattle.bbm_tlb_machine.specs.declared.step.Step.{Step};

use crate::laws::law_plain_is_tested;
use bbm_histories::law_tree_step;
use bbm_tlb_machine::{known, law_fine_steps};

/// Where the rule of break-before-make refuses a write at a place to which a PE stands open, some plain run of the
/// machine ends in a conflict there; so what is searched for is found. A log has a header that can be said, and each
/// event fits it. The call does nothing; the law is its contract.
pub fn law_rule_is_exact()
    ensures run { (heading : Heading) (h : List Event) (pe place value p : ℕ) → IsLog heading h →
        IsRefused heading h pe place value → StandsOpen heading h place p →
        (plan : Plan) × IsPlain heading h (Write pe place value) plan }
    ensures found { (heading : Heading) (h : List Event) (pe place value p : ℕ) (found : Option (List Step)) →
        IsLog heading h → IsRefused heading h pe place value → StandsOpen heading h place p →
        Finds heading h (Write pe place value) found → found ≡ None → ⊥ }
    ensures open { (heading : Heading) (h : List Event) (place p : ℕ) → IsLog heading h → Reached heading h place p →
        StandsOpen heading h place p }
{
    law_plain_is_tested();
    law_tree_step();
    law_fine_steps();
    known();
}
