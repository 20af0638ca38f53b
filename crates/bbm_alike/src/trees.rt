//! Two annotated histories with the same trees.

ghost use Rattle.bbm_events.specs.Heading.{Heading};
ghost use Rattle.bbm_rules.specs.Claims.{Trust};
ghost use Rattle.bbm_alike.specs.AlikeLaws.{TreesAlike};

/// Two annotated histories with the same roots and the same written places, in which each place of a tree holds the
/// same, have the same trees, each read by its trust. The law is `TreesAlike`.
pub fn law_trees_alike()
    ensures { (heading : Heading) (one other : Trust) → TreesAlike heading one other }
{}
