//! Whether a refused write stands at a place that holds a leaf.

ghost use Rattle.std.specs.Prelude.{◌≡◌, true, false, reverse, All, IfOk, unwrap_or};
ghost use Rattle.bbm_counterrun.specs.RefusedWrite as spec;
ghost use Rattle.bbm_oracle_trees.specs.Past.{notes};
ghost use Rattle.bbm_oracle_trees.specs.HistoryStandsFor.{StandsFor};
ghost use Rattle.bbm_events.specs.Fits.{fits_heading};
ghost use Rattle.bbm_rules.specs.Claims.{Patterns};

use bbm_descriptor::{Desc, read};
use bbm_events::{Event, Header};
use bbm_oracle_tags::AllPatterns;
use bbm_oracle_trees::{History, Node};
use bbm_regimes::{NoMemory, Place};
use std::alloc::Global;

/// The history of these events, the oldest first.
pub fn history_of(
    alloc: Global,
    header: &Header,
    events: &[Event],
) -> Result<History<AllPatterns>, NoMemory>
    requires { All (λ event. fits_heading header.now event ≡ true) events.now }
    ensures trust { IfOk result (λ history. history.trust ≡ Patterns) }
    ensures stands { IfOk result (λ history. StandsFor history header.now (reverse events.now)) }
{
    let mut history = History::new(alloc, header, AllPatterns);
    for event in events {
        history.take(alloc, *event)?;
    }
    Ok(history)
}

/// Whether the place holds a leaf as one of the page.
fn is_leaf_in(history: &History<AllPatterns>, node: &Node, place: Place) -> bool
    ensures { result ≡ unwrap_or
        (spec.leaf_in history.now.heading history.now.trust (notes history.now) node.now place) false }
{
    match history.held_at(node, place) {
        Some(value) => matches!(read(node.kind, node.level, value), Desc::Leaf { .. }),
        None => false,
    }
}

/// Whether the place holds a leaf.
pub fn is_leaf_at(history: &History<AllPatterns>, place: Place) -> bool
    ensures { result ≡ unwrap_or
        (spec.leaf_among history.now.heading history.now.trust (notes history.now) place) false }
{
    match history.node_of(place.page()) {
        Some(node) => is_leaf_in(history, node, place),
        None => false,
    }
}

/// Whether the last event of a log is a write at a place that holds a leaf before it; so where there is a refused
/// write, whether what it would replace is a leaf. `NoMemory` where there is no memory.
pub fn ends_at_leaf(alloc: Global, header: &Header, log: &Vec<Event>) -> Result<bool, NoMemory>
    requires { All (λ event. fits_heading header.now event ≡ true) log.now.items }
    ensures { IfOk result (λ leaf. leaf ≡ spec.ends_at_leaf header.now (reverse log.now.items)) }
{
    let [before @ .., last] = log.as_slice() else {
        return Ok(false);
    };
    match last {
        Event::Write { place, .. } => {
            let history = history_of(alloc, header, before)?;
            Ok(is_leaf_at(&history, *place))
        }
        _ => Ok(false),
    }
}
