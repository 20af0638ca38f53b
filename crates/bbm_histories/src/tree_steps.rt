//! Step equations of the trees: what is childless, what is in limbo, and which node a page has after an event.

ghost use Rattle.std.specs.Prelude.{◌≡◌, List, ◌∷◌};
ghost use Rattle.bbm_regimes.specs.declared.regime.Kind.{Kind};
ghost use Rattle.bbm_events.specs.Heading.{Heading};
ghost use Rattle.bbm_rules.specs.Claims.{Trust};
ghost use Rattle.bbm_rules.specs.Lists.{any};
ghost use Rattle.bbm_rules.specs.Notes.{Noted};
ghost use Rattle.bbm_rules.specs.Tree.{Above, Node, in_limbo};
ghost use Rattle.bbm_histories.specs.TreeSteps.{invalid_after};
ghost use Rattle.bbm_histories.specs.TreeSteps.{invalid_at};
ghost use Rattle.bbm_histories.specs.PositionLaws.{ChildlessAfter, NodeAfter};

use crate::below::below;

/// A table is childless exactly where no place of its next page holds anything, also of those that were never written;
/// and what is no table isn't childless. The law is `ChildlessAfter`.
pub fn law_childless_step()
    ensures { (heading : Heading) (trust : Trust) → ChildlessAfter heading trust }
{
    below();
}

/// A node is in limbo exactly where the present value of some place above it is invalid. After an event the value of
/// such a place is invalid by the value that the event writes there; an init of its page makes it so; and any other
/// event leaves it. The law is the contract.
pub fn law_limbo_step()
    ensures places { (h : List Noted) (m : Node) → in_limbo h m ≡ any (invalid_at m.kind h) m.above }
    ensures place { (kind : Kind) (n : Noted) (h : List Noted) (a : Above) →
        invalid_at kind (n ∷ h) a ≡ invalid_after kind n.event h a }
    ensures step { (n : Noted) (h : List Noted) (m : Node) →
        in_limbo (n ∷ h) m ≡ any (invalid_after m.kind n.event h) m.above }
{}

/// The node of a page after an event that breaks no rule, by its node before it: a node that the event attaches is that
/// of its page; an `unroot` leaves the nodes of other roots; a DSB leaves those of which each place above still holds
/// something; and a page where no node is attached or taken out keeps what it had. The law is `NodeAfter`.
pub fn law_node_step()
    ensures { (heading : Heading) (trust : Trust) → NodeAfter heading trust }
{
    below();
}
