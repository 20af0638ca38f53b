//! What is kept beside the events of a history: the trees after them, with the fresh and the clean pages.

ghost use Rattle.std.specs.Prelude.{◌≡◌, ◌&&◌, ◌||◌, ℕ, [], true, not, IfOk, OnOk, OnErr};
ghost use Rattle.bbm_rules.specs.Lists.{among};
ghost use Rattle.bbm_rules.specs.Mapped.{initialises};
ghost use Rattle.bbm_rules.specs.Pages.{may_be_fresh};
ghost use Rattle.bbm_rules.specs.Tree.{tree, in_tree};
ghost use Rattle.bbm_oracle_trees.specs.MappedIn.{mapped_in};
ghost use Rattle.bbm_oracle_trees.specs.Past.{notes};
ghost use Rattle.bbm_oracle_trees.specs.TreesOf.{AreTreesOf, OneBehind};

use crate::clean::clean_after;
use crate::fresh::fresh_after;
use crate::links::leaves_trees;
use crate::log::Log;
use crate::node::Node;
use crate::tree::tree_of;
use bbm_events::Event;
use bbm_oracle_patterns::Evidence;
use bbm_regimes::{NoMemory, Page};
use std::alloc::Global;

/// The trees after some events, and the fresh and the clean pages.
#[derive(Drop)]
pub struct Trees {
    /// The pages of the trees, level by level.
    pub nodes: Vec<Node>,
    /// The fresh pages.
    pub fresh: Vec<Page>,
    /// The clean pages, where the header has `isolated`.
    pub clean: Vec<Page>,
}

impl Trees {
    /// Those before the first event.
    pub fn new(alloc: Global) -> Trees
        ensures nodes { result.nodes.items ≡ [] }
        ensures fresh { result.fresh.items ≡ [] }
        ensures clean { result.clean.items ≡ [] }
    {
        Trees {
            nodes: Vec::new(alloc),
            fresh: Vec::new(alloc),
            clean: Vec::new(alloc),
        }
    }
}

/// The trees after the newest event of the log, with the fresh and the clean pages, made of those before it.
fn trees_after<E: Evidence>(
    alloc: Global,
    log: &Log<E>,
    before: &Trees,
    event: &Event,
) -> Result<Trees, NoMemory>
    ensures nodes { IfOk result (λ made. made.nodes.items ≡ tree log.now.heading log.now.trust (notes log.now)) }
    ensures fresh { IfOk result (λ made. (page : ℕ) → among page made.fresh.items
        ≡ (may_be_fresh event.now page (among page before.now.fresh.items)
        && not (in_tree log.now.heading log.now.trust (notes log.now) page))) }
    ensures clean { IfOk result (λ made. log.now.heading.words.isolated ≡ true
        → (page : ℕ) → among page made.clean.items
        ≡ ((initialises page event.now || among page before.now.clean.items)
        && not (mapped_in log.now.heading log.now.trust (notes log.now) page made.nodes.items))) }
{
    let nodes = tree_of(alloc, log)?;
    let fresh = fresh_after(alloc, &before.fresh, event, &nodes)?;
    let clean = clean_after(alloc, log, &nodes, &before.clean, event)?;
    Ok(Trees {
        nodes,
        fresh,
        clean,
    })
}

/// Brings the trees, which are those before the newest event of the log, to those after it. `NoMemory` where there is
/// none; then they stay.
pub fn bring<E: Evidence>(
    alloc: Global,
    log: &Log<E>,
    trees: &mut Trees,
    event: &Event,
) -> Result<(), NoMemory>
    requires { OneBehind log.now event.now trees.old }
    ensures after { OnOk result (AreTreesOf log.now.heading log.now.trust (notes log.now) trees.new) }
    ensures unchanged { OnErr result (trees.new ≡ trees.old) }
{
    if leaves_trees(log, &trees.nodes, event) {
        trees.clean = clean_after(alloc, log, &trees.nodes, &trees.clean, event)?;
        return Ok(());
    }
    *trees = trees_after(alloc, log, trees, event)?;
    Ok(())
}
