//! Step equations of cleansed, and of the tags that are taken away, under a list of claims.

ghost use Rattle.bbm_events.specs.Heading.{Heading};
ghost use Rattle.bbm_rules.specs.Claims.{Trust};
ghost use Rattle.bbm_histories.specs.HolderLaws.{TagClaimsAfter};
ghost use Rattle.bbm_histories.specs.PatternLaws.{ClaimsAfter};

/// What is cleansed after an event under every trust, by what waits for its answer. The law is `ClaimsAfter`.
pub fn law_claim_steps()
    ensures { (heading : Heading) (trust : Trust) → ClaimsAfter heading trust }
{}

/// Under a list of claims a DSB takes a tag away where it completes a claim of the list that ends at its position, and
/// the tag isn't readable then. The law is `TagClaimsAfter`.
pub fn law_tag_claim_steps()
    ensures { (heading : Heading) → TagClaimsAfter heading }
{}
