//! Laws of tags: when they are readable, and which root holds them.

ghost use Rattle.bbm_events.specs.Heading.{Heading};
ghost use Rattle.bbm_rules.specs.Claims.{Trust};
ghost use Rattle.bbm_histories.specs.HolderLaws.{BasesOfRoots, TagsOfRoots};

use crate::below::below;

/// In a history that keeps the rules, a tag becomes readable at a PE by a register write of the PE, and stops to be so
/// by an ISB of it; at most one root holds it, and that is a declared root of its kind. The law is `TagsOfRoots`.
pub fn law_tags()
    ensures { (heading : Heading) (trust : Trust) → TagsOfRoots heading trust }
{
    below();
}

/// In a history that keeps the rules, the base of a readable register value is a declared root of the register's kind
/// or a null page, and no event changes which; no null page is a declared root, and a `root` names none. The law is
/// `BasesOfRoots`.
pub fn law_bases()
    ensures { (heading : Heading) (trust : Trust) → BasesOfRoots heading trust }
{
    below();
}
