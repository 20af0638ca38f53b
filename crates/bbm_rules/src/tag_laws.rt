//! Laws of readable tags, and of the rules on tags and roots.

ghost use Rattle.bbm_events.specs.Heading.{Heading};
ghost use Rattle.bbm_rules.specs.Claims.{Trust};
ghost use Rattle.bbm_rules.specs.TagLaws.{ReadsBySentence, RulesOnTags};

/// A tag is readable for a root exactly where a readable value of its register names the root, and the number of the
/// tag is that of the value, or of the value that has the ASID. The law is `ReadsBySentence`.
pub fn law_readable_tag()
    ensures { (heading : Heading) → ReadsBySentence heading }
{}

/// After a register write that doesn't break the rule on tags, a tag that is readable there for a root is held by no
/// other declared root. The law is `RulesOnTags`.
pub fn law_tag_rules()
    ensures { (heading : Heading) (trust : Trust) → RulesOnTags heading trust }
{}
