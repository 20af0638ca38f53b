//! The trees of the declared roots.

ghost use Rattle.std.specs.Prelude.{◌≡◌, ◌<◌, ◌==◌, ◌++◌, true, All, find, flat_map, is_some, IfOk, OnOk};
ghost use Rattle.std.specs.Prelude.{IfSome, option_copied, option_to_list};
ghost use Rattle.bbm_rules.specs.Lists.{any};
ghost use Rattle.bbm_rules.specs.Tree as trees;
ghost use Rattle.bbm_oracle_trees.specs.HistoryFits.{fits_root};
ghost use Rattle.bbm_oracle_trees.specs.Past.{notes};

use crate::log::Log;
use crate::node::Node;
use crate::starts::{add, add_starts};
use bbm_descriptor::{Desc, read};
use bbm_oracle_patterns::Evidence;
use bbm_oracle_tags::Declared;
use bbm_regimes::{Kind, Level, NoMemory, Page, Place};
use std::alloc::Global;

/// The next page of a value at this kind and level; None where it is no table, as every value of level 3. Source: Arm
/// ARM (DDI 0487), "VMSAv8-64 descriptor formats".
pub fn next_page(kind: Kind, level: Level, value: u64) -> Option<Page>
    ensures value { result ≡ trees.next_of kind level value }
    ensures low { IfSome result (λ next. level < 3) }
{
    match read(kind, level, value) {
        Desc::Table { next, .. } => Some(next),
        _ => None,
    }
}

/// The page to which a place of the page leads, None where it holds no table.
fn child_at<E: Evidence>(
    alloc: Global,
    log: &Log<E>,
    node: &Node,
    place: Place,
) -> Result<Option<Node>, NoMemory>
    ensures { IfOk result (λ child. child
        ≡ trees.child_at log.now.heading log.now.trust (notes log.now) node.now place) }
{
    match log.held(node.kind, node.level, place) {
        Some(value) => match next_page(node.kind, node.level, value) {
            Some(next) => {
                let child = node.below(alloc, place, next)?;
                Ok(Some(child))
            }
            None => Ok(None),
        },
        None => Ok(None),
    }
}

/// Adds the page to which a place of the page leads, where there is one.
fn add_child<E: Evidence>(
    alloc: Global,
    log: &Log<E>,
    node: &Node,
    place: Place,
    nodes: &mut Vec<Node>,
) -> Result<(), NoMemory>
    ensures { OnOk result (nodes.new.items ≡ nodes.old.items
        ++ option_to_list (trees.child_at log.now.heading log.now.trust (notes log.now) node.now place)) }
{
    match child_at(alloc, log, node, place)? {
        Some(child) => add(nodes, child),
        None => Ok(()),
    }
}

/// Adds the pages to which the places of the page lead.
fn add_children<E: Evidence>(
    alloc: Global,
    log: &Log<E>,
    node: &Node,
    nodes: &mut Vec<Node>,
) -> Result<(), NoMemory>
    ensures { OnOk result (nodes.new.items ≡ nodes.old.items
        ++ trees.children log.now.heading log.now.trust (notes log.now) node.now) }
{
    let places = log.places_in(alloc, node.page)?;
    for place in &places {
        add_child(alloc, log, node, *place, nodes)?;
    }
    Ok(())
}

/// Adds the pages to which the places of these pages lead.
fn add_below<E: Evidence>(
    alloc: Global,
    log: &Log<E>,
    parents: &[Node],
    nodes: &mut Vec<Node>,
) -> Result<(), NoMemory>
    ensures { OnOk result (nodes.new.items ≡ nodes.old.items
        ++ flat_map (trees.children log.now.heading log.now.trust (notes log.now)) parents.now) }
{
    for node in parents {
        add_children(alloc, log, node, nodes)?;
    }
    Ok(())
}

/// The pages of a level: those of the roots whose walks start there, and those below the pages of the level above.
fn level_nodes<E: Evidence>(
    alloc: Global,
    log: &Log<E>,
    roots: &[Declared],
    level: Level,
    parents: &[Node],
) -> Result<Vec<Node>, NoMemory>
    requires { All (λ root. fits_root log.now.heading root ≡ true) roots.now }
    ensures { IfOk result (λ nodes. nodes.items ≡ flat_map (trees.starts_at log.now.heading level) roots.now
        ++ flat_map (trees.children log.now.heading log.now.trust (notes log.now)) parents.now) }
{
    let mut nodes = Vec::new(alloc);
    add_starts(alloc, log.header(), level, roots, &mut nodes)?;
    add_below(alloc, log, parents, &mut nodes)?;
    Ok(nodes)
}

/// Adds nodes at the end.
fn add_all(nodes: &mut Vec<Node>, mut more: Vec<Node>) -> Result<(), NoMemory>
    ensures { OnOk result (nodes.new.items ≡ nodes.old.items ++ more.items) }
{
    nodes.append(&mut more)?;
    Ok(())
}

/// The pages of the trees, level by level. `NoMemory` where there is none.
#[tactic(auto, unfolding(bbm_rules::specs::Tree::tree))]
pub fn tree_of<E: Evidence>(alloc: Global, log: &Log<E>) -> Result<Vec<Node>, NoMemory>
    ensures { IfOk result (λ nodes. nodes.items ≡ trees.tree log.now.heading log.now.trust (notes log.now)) }
{
    let roots = log.roots(alloc)?;
    let mut nodes = level_nodes(alloc, log, &roots, Level::ZERO, &[])?;
    let first = level_nodes(alloc, log, &roots, Level::ONE, &nodes)?;
    let second = level_nodes(alloc, log, &roots, Level::TWO, &first)?;
    let third = level_nodes(alloc, log, &roots, Level::THREE, &second)?;
    add_all(&mut nodes, first)?;
    add_all(&mut nodes, second)?;
    add_all(&mut nodes, third)?;
    Ok(nodes)
}

/// The first of the nodes that is of this page.
pub fn first_of(nodes: &[Node], page: Page) -> Option<&Node>
    ensures { option_copied result ≡ find (λ n. n.page == page) nodes.now }
{
    for node in nodes {
        if node.page == page {
            return Some(node);
        }
    }
    None
}

/// Whether one of the nodes is of this page.
pub fn has_page(nodes: &[Node], page: Page) -> bool
    ensures { result ≡ is_some (find (λ n. n.page == page) nodes.now) }
{
    first_of(nodes, page).is_some()
}

/// Whether one of the places holds something, at this kind and level.
fn holds_some<E: Evidence>(log: &Log<E>, kind: Kind, level: Level, places: &[Place]) -> bool
    ensures { result ≡ any (trees.holds_some log.now.heading log.now.trust (notes log.now) kind level) places.now }
{
    for place in places {
        if log.held(kind, level, *place).is_some() {
            return true;
        }
    }
    false
}

/// Whether the value, at the kind and the level of the page, is a table no place of which holds anything. `NoMemory`
/// where there is none.
pub fn is_childless<E: Evidence>(
    alloc: Global,
    log: &Log<E>,
    node: &Node,
    value: u64,
) -> Result<bool, NoMemory>
    ensures { IfOk result (λ childless. childless
        ≡ trees.is_childless log.now.heading log.now.trust (notes log.now) node.now value) }
{
    match next_page(node.kind, node.level, value) {
        Some(next) => {
            let places = log.places_in(alloc, next)?;
            Ok(!holds_some(log, node.kind, node.level.below().unwrap(), &places))
        }
        None => Ok(false),
    }
}
