//! The way to a place.

ghost use Rattle.std.specs.Prelude.{◌≡◌, ◌++◌, Some, map, reverse, option_to_list, IfOk, OnOk};
ghost use Rattle.bbm_counterrun.specs.Ways as spec;
ghost use Rattle.bbm_oracle_trees.specs.Past.{notes};

use crate::read::Goal;
use bbm_oracle_tags::AllPatterns;
use bbm_oracle_trees::{Above, History, Node};
use bbm_regimes::{NoMemory, Place};
use std::alloc::Global;

/// The place with what it holds as one of the page, None where it holds nothing.
fn goal_in(history: &History<AllPatterns>, node: &Node, place: Place) -> Option<Goal>
    ensures { result ≡ spec.goal_in history.now.heading history.now.trust (notes history.now) place node.now }
{
    match history.held_at(node, place) {
        Some(value) => Some(Goal {
            place,
            kind: node.kind,
            level: node.level,
            value,
        }),
        None => None,
    }
}

/// The place with what it holds, None where it is in no tree or holds nothing.
fn goal_at(history: &History<AllPatterns>, place: Place) -> Option<Goal>
    ensures { result ≡ spec.goal_among history.now.heading history.now.trust (notes history.now) place }
{
    match history.node_of(place.page()) {
        Some(node) => goal_in(history, node, place),
        None => None,
    }
}

/// Adds the place with what it holds at the end.
fn add_goal(
    history: &History<AllPatterns>,
    place: Place,
    way: &mut Vec<Goal>,
) -> Result<(), NoMemory>
    ensures { OnOk result (way.new.items ≡ way.old.items
        ++ option_to_list (spec.goal_among history.now.heading history.now.trust (notes history.now) place)) }
{
    let Some(goal) = goal_at(history, place) else {
        return Ok(());
    };
    way.push(goal)?;
    Ok(())
}

/// Adds it in front.
fn add_in_front(
    history: &History<AllPatterns>,
    place: Place,
    way: &mut Vec<Goal>,
) -> Result<(), NoMemory>
    ensures { OnOk result (way.new.items
        ≡ option_to_list (spec.goal_among history.now.heading history.now.trust (notes history.now) place)
        ++ way.old.items) }
{
    let Some(goal) = goal_at(history, place) else {
        return Ok(());
    };
    way.insert(0, goal)?;
    Ok(())
}

/// Adds those of these places that hold something in front, the nearest first.
#[tactic(auto)]
fn add_above(
    history: &History<AllPatterns>,
    above: &[Above],
    way: &mut Vec<Goal>,
) -> Result<(), NoMemory>
    ensures { OnOk result (way.new.items
        ≡ spec.goals_among history.now.heading history.now.trust (notes history.now)
        (reverse (map (λ a. a.place) above.now)) ++ way.old.items) }
{
    for place in above {
        add_in_front(history, place.place, way)?;
    }
    Ok(())
}

/// The way to the place as one of the page.
#[tactic(auto, using(crate::proofs::WayCode::way_parts))]
fn way_in(
    alloc: Global,
    history: &History<AllPatterns>,
    node: &Node,
    place: Place,
) -> Result<Vec<Goal>, NoMemory>
    ensures { IfOk result (λ way. way.items ≡ spec.goals_among history.now.heading history.now.trust (notes history.now)
        (spec.places_to (Some node.now) place)) }
{
    let mut way = Vec::new(alloc);
    add_above(history, &node.above, &mut way)?;
    add_goal(history, place, &mut way)?;
    Ok(way)
}

/// The way to the place, from the root down. `NoMemory` where there is none.
pub fn way_to(
    alloc: Global,
    history: &History<AllPatterns>,
    place: Place,
) -> Result<Vec<Goal>, NoMemory>
    ensures { IfOk result (λ way. way.items
        ≡ spec.way_among history.now.heading history.now.trust (notes history.now) place) }
{
    match history.node_of(place.page()) {
        Some(node) => way_in(alloc, history, node, place),
        None => Ok(Vec::new(alloc)),
    }
}
