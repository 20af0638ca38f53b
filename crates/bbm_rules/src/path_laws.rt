//! Laws of the paths of attached pages.

ghost use Rattle.bbm_events.specs.Heading.{Heading};
ghost use Rattle.bbm_rules.specs.Claims.{Trust};
ghost use Rattle.bbm_rules.specs.TreeLaws.{RepeatedBySentence};

/// A page is repeated among the ends of the paths of an event's attached pages exactly where two different paths end in
/// it. The law is `RepeatedBySentence`.
pub fn law_repeated()
    ensures { (heading : Heading) (trust : Trust) → RepeatedBySentence heading trust }
{}
