//! Laws of publications, answers and the patterns that cleanse.

ghost use Rattle.std.specs.Prelude.{◌≡◌, ℕ, ◌⊎◌, List, ◌∷◌};
ghost use Rattle.bbm_events.specs.Heading.{Heading};
ghost use Rattle.bbm_rules.specs.Claims.{Trust};
ghost use Rattle.bbm_rules.specs.Cleansing.{half};
ghost use Rattle.bbm_rules.specs.Notes.{Noted};
ghost use Rattle.bbm_rules.specs.PatternSentences.{HalfBy, OneStep, Publication, TwoSteps};
ghost use Rattle.bbm_rules.specs.Reach.{Issued};
ghost use Rattle.bbm_histories.specs.PatternLaws.{AlikeUnderCnp, PatternsStay};

use crate::below::below;
use bbm_rules::law_last_valid;

/// While no event ends the last valid write of a place, it stays, and so does each pattern after it, with the positions
/// of its events. The law is `PatternsStay`.
pub fn law_patterns_stay()
    ensures { (heading : Heading) (trust : Trust) → PatternsStay heading trust }
{
    law_last_valid();
}

/// In every history: a publication that wasn't there before an event is by that event, and so is the last answer of a
/// pattern that wasn't there. So none begins but by a DSB. The call does nothing; the law is its contract.
pub fn law_patterns_begin()
    ensures publication { (heading : Heading) (place p : ℕ) (n : Noted) (since : List Noted) (b : Noted) →
        Publication heading place p (n ∷ since) b → Publication heading place p since b ⊎ (b ≡ n) }
    ensures half { (heading : Heading) (place p : ℕ) (n : Noted) (since : List Noted) (b : Noted) (t : Issued Noted)
        (d : Noted) → HalfBy heading place p (n ∷ since) b t d → HalfBy heading place p since b t d ⊎ (d ≡ n) }
    ensures one_step { (heading : Heading) (trust : Trust) (place p : ℕ) (n : Noted) (since : List Noted) →
        (k : OneStep heading trust place p (n ∷ since)) → OneStep heading trust place p since ⊎ (k.d ≡ n) }
    ensures two_steps { (heading : Heading) (trust : Trust) (place p : ℕ) (n : Noted) (since : List Noted) →
        (k : TwoSteps heading trust place p (n ∷ since)) → TwoSteps heading trust place p since ⊎ (k.d2 ≡ n) }
{}

/// Under `cnp` all PEs are alike: what is published to one is published to each, by the same DSB; a TLBI that reaches
/// one reaches each; so a place is seen and half at all PEs, by the same events, and what flushes it at one flushes it
/// at each. The law is `AlikeUnderCnp`.
pub fn law_uniform()
    ensures { (heading : Heading) → AlikeUnderCnp heading }
{
    below();
}
