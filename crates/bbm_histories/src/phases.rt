//! The phase of a place by the words that have step equations.

ghost use Rattle.bbm_events.specs.Heading.{Heading};
ghost use Rattle.bbm_rules.specs.Claims.{Trust};
ghost use Rattle.bbm_histories.specs.ContentLaws.{PhaseByParts};

/// The phase of a place at a PE, in every history: clean where its page is in no tree, and where it holds nothing; and
/// where it holds something, live where its value is valid, and else by what is cleansed, half and seen since its last
/// valid write. The law is `PhaseByParts`.
pub fn law_phase_parts()
    ensures { (heading : Heading) (trust : Trust) → PhaseByParts heading trust }
{}
