//! What the crates below prove, gathered for the proofs here.

ghost use Rattle.bbm_events.specs.Heading.{Heading};
ghost use Rattle.bbm_claims.specs.KnownOfClaims.{Known};

use bbm_histories::{law_claim_steps, law_pattern_steps, law_tag_claim_steps};

/// The laws that the proofs here stand on.
pub(crate) fn known()
    ensures { (heading : Heading) → Known heading }
{
    law_claim_steps();
    law_pattern_steps();
    law_tag_claim_steps();
}
