//! Laws of the trees, and of what their places hold.

ghost use Rattle.std.specs.Prelude.{◌≡◌, true};
ghost use Rattle.bbm_events.specs.Heading.{Heading, heading_ok};
ghost use Rattle.bbm_rules.specs.Claims.{Trust};
ghost use Rattle.bbm_histories.specs.TreeChanges.{Proper};
ghost use Rattle.bbm_histories.specs.ContentLaws.{AttachedTables, EmptiedAtOnce, FrozenView, HeldChanges, LimboIsEmpty, LowerLeaves};
ghost use Rattle.bbm_histories.specs.ContentLaws.{MappedAfter, TablesAreClean};
ghost use Rattle.bbm_histories.specs.PositionLaws.{OnePosition, SingleNode, TreeAfter};

use crate::below::below;

/// In a history that keeps the rules, a page has at most one node in the trees: so it has one root, one kind, one
/// level, one region and one place above it. The law is `SingleNode`.
pub fn law_one_node()
    ensures { (heading : Heading) (trust : Trust) → SingleNode heading trust }
{
    below();
}

/// A heading that a header can say is proper. The law is the contract.
pub fn law_proper()
    ensures { (heading : Heading) → heading_ok heading ≡ true → Proper heading }
{
    below();
}

/// The tree after an event that breaks no rule is that before it, with what the event attaches, or without what it
/// takes out. The law is `TreeAfter`.
pub fn law_tree_step()
    ensures { (heading : Heading) (trust : Trust) → TreeAfter heading trust }
{
    below();
}

/// In a history that keeps the rules, a page that comes into a tree is attached by the event and was fresh just before;
/// one of a tree keeps its node until it is in no tree, after a DSB or an `unroot` of its root; it isn't fresh then,
/// until its next `init`; and no `init` names a page of a tree. The law is `OnePosition`.
pub fn law_one_position()
    ensures { (heading : Heading) (trust : Trust) → OnePosition heading trust }
{
    below();
}

/// In a history that keeps the rules, what a place of a tree holds changes by a valid write of it, from nothing or from
/// a value of the same core; by a DSB, to nothing; and by nothing else while its page stays in the tree. The law is
/// `HeldChanges`.
pub fn law_held_changes()
    ensures { (heading : Heading) (trust : Trust) → HeldChanges heading trust }
{
    below();
}

/// In a history that keeps the rules under version 5, a place of a tree that holds something isn't both above at every PE
/// and a table below which nothing is held. The law is `EmptiedAtOnce`.
pub fn law_emptied_at_once()
    ensures { (heading : Heading) (trust : Trust) → EmptiedAtOnce heading trust }
{
    below();
}

/// In a history that keeps the rules, before an event that came after the last valid write of a place of a tree, and
/// after a PE had seen the place, the place was at the same node and held the same value. The law is `FrozenView`.
pub fn law_frozen_view()
    ensures { (heading : Heading) (trust : Trust) → FrozenView heading trust }
{
    below();
}

/// In a history that keeps the rules, where the table that a place of a tree holds was childless before an event that
/// came after the last valid write of the place, and after a PE had seen the place, it is childless still. The law is
/// `LimboIsEmpty`.
pub fn law_limbo_is_empty()
    ensures { (heading : Heading) (trust : Trust) → LimboIsEmpty heading trust }
{
    below();
}

/// In a history that keeps the rules, no place of a tree of the lower range holds a leaf for every ASID. The law is
/// `LowerLeaves`.
pub fn law_lower_leaves()
    ensures { (heading : Heading) (trust : Trust) → LowerLeaves heading trust }
{
    below();
}

/// In a history that keeps the rules under `isolated`, each page of a tree is clean, and was so since its last init. An
/// event that breaks no other rule breaks the one on table pages exactly where after it some page of a tree isn't
/// clean. The law is `TablesAreClean`.
pub fn law_tables_are_clean()
    ensures { (heading : Heading) (trust : Trust) → TablesAreClean heading trust }
{
    below();
}

/// Which pages are mapped, and which are clean, after an event that breaks no rule, by those before it and by the pages
/// over which the event puts a leaf. The law is `MappedAfter`.
pub fn law_mapped_step()
    ensures { (heading : Heading) (trust : Trust) → MappedAfter heading trust }
{
    below();
}

/// Which pages an event makes table pages, and over which it puts a leaf, by the nodes that it attaches. The law is
/// `AttachedTables`.
pub fn law_attached_tables()
    ensures { (heading : Heading) (trust : Trust) → AttachedTables heading trust }
{
    below();
}
