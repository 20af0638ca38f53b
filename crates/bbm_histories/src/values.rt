//! Laws of the values of places.

ghost use Rattle.bbm_events.specs.Heading.{Heading};
ghost use Rattle.bbm_rules.specs.Claims.{Trust};
ghost use Rattle.bbm_histories.specs.ContentLaws.{FreshStays, NothingGoesBack, WindowAtReads};

use crate::below::below;

/// In every history: one that keeps the rules kept them before; what is published stays published, and by the same DSB;
/// a TLBI that is answered stays answered by the same DSB; what a TLBI covers is fixed at its issue; and a value that
/// isn't readable stays so until an event makes it readable again. The law is `NothingGoesBack`.
pub fn law_frozen()
    ensures { (heading : Heading) (trust : Trust) → NothingGoesBack heading trust }
{
    below();
}

/// In a fresh page of a history that keeps the rules, a value with bit 0 set stays from its write until the next init
/// of the page. The law is `FreshStays`.
pub fn law_fresh_content()
    ensures { (heading : Heading) (trust : Trust) → FreshStays heading trust }
{
    below();
}

/// In a history that keeps the rules, a value that is readable at a PE at a place of a tree, and valid at its level,
/// has the core of what the place holds, and the place isn't seen at the PE. The law is `WindowAtReads`.
pub fn law_window()
    ensures { (heading : Heading) (trust : Trust) → WindowAtReads heading trust }
{
    below();
}
