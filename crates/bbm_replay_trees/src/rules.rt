//! Laws of the rules by the kind of event: which of them an event can break, and what they say by words that need no
//! history.

ghost use Rattle.bbm_events.specs.Heading.{Heading};
ghost use Rattle.bbm_replay_trees.specs.RuleLaws.{LimitsByKind, RulesByKind, RulesOfWrites, RulesOnPages};

use crate::below::below;

/// The least rule that an event breaks is the first that is broken of the few that its kind can break. The law is
/// `RulesByKind`.
pub fn law_rules_of_events()
    ensures { (heading : Heading) → RulesByKind heading }
{}

/// The limit that an event reaches. The law is `LimitsByKind`.
pub fn law_limits_of_events()
    ensures { LimitsByKind }
{}

/// What the rules say of a write, but for those on attached pages, and whether an `unroot` lacks its lock. The law is
/// `RulesOfWrites`.
pub fn law_write_rules()
    ensures { (heading : Heading) → RulesOfWrites heading }
{
    below();
}

/// What the rule on pages in use says. The law is `RulesOnPages`.
pub fn law_page_rules()
    ensures { (heading : Heading) → RulesOnPages heading }
{
    below();
}
