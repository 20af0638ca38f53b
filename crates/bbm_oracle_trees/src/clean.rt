//! The clean pages: those that were initialised, and that no leaf of a stage 2 tree has mapped since.

ghost use Rattle.std.specs.Prelude.{◌≡◌, ◌≤◌, ◌&&◌, ◌||◌, ℕ, true, not, IfOk};
ghost use Rattle.bbm_rules.specs.Lists.{among};
ghost use Rattle.bbm_rules.specs.Mapped as mapped;
ghost use Rattle.bbm_oracle_trees.specs.MappedIn as spec;
ghost use Rattle.bbm_oracle_trees.specs.Past.{notes};

use crate::fresh::with;
use crate::log::Log;
use crate::node::Node;
use bbm_descriptor::{Desc, read};
use bbm_events::Event;
use bbm_oracle_patterns::Evidence;
use bbm_regimes::{Kind, Level, NoMemory, Page, Place};
use std::alloc::Global;

/// Whether the value, at this kind and level, is a leaf of stage 2 that maps the page.
pub fn maps(kind: Kind, level: Level, value: u64, page: Page) -> bool
    ensures { result ≡ mapped.maps kind level value page }
{
    match read(kind, level, value) {
        Desc::Leaf { out, .. } => {
            matches!(kind, Kind::S2) && out <= page.get() && page.get() < out + level.span()
        }
        _ => false,
    }
}

/// The pages but for those that the value maps, at this kind and level.
fn unmapped_by(
    alloc: Global,
    kind: Kind,
    level: Level,
    value: u64,
    pages: &[Page],
) -> Result<Vec<Page>, NoMemory>
    ensures { IfOk result (λ left. (page : ℕ) → among page left.items
        ≡ (among page pages.now && not (mapped.maps kind level value page))) }
{
    let mut left = Vec::new(alloc);
    for page in pages {
        if !maps(kind, level, value, *page) {
            left.push(*page)?;
        }
    }
    Ok(left)
}

/// The pages but for those that the place maps, as one of the page of a tree.
fn unmapped_at<E: Evidence>(
    alloc: Global,
    log: &Log<E>,
    node: &Node,
    place: Place,
    pages: Vec<Page>,
) -> Result<Vec<Page>, NoMemory>
    ensures { IfOk result (λ left. (page : ℕ) → among page left.items ≡ (among page pages.items
        && not (mapped.place_maps log.now.heading log.now.trust (notes log.now) node.now page place))) }
{
    match log.held(node.kind, node.level, place) {
        Some(value) => unmapped_by(alloc, node.kind, node.level, value, &pages),
        None => Ok(pages),
    }
}

/// The pages but for those that a place of the page of a tree maps.
fn unmapped_in<E: Evidence>(
    alloc: Global,
    log: &Log<E>,
    node: &Node,
    pages: Vec<Page>,
) -> Result<Vec<Page>, NoMemory>
    ensures { IfOk result (λ left. (page : ℕ) → among page left.items ≡ (among page pages.items
        && not (spec.page_maps log.now.heading log.now.trust (notes log.now) page node.now))) }
{
    let places = log.places_in(alloc, node.page)?;
    let mut left = pages;
    for place in &places {
        left = unmapped_at(alloc, log, node, *place, left)?;
    }
    Ok(left)
}

/// The pages but for those that the pages of the trees map.
fn unmapped<E: Evidence>(
    alloc: Global,
    log: &Log<E>,
    nodes: &[Node],
    pages: Vec<Page>,
) -> Result<Vec<Page>, NoMemory>
    ensures { IfOk result (λ left. (page : ℕ) → among page left.items ≡ (among page pages.items
        && not (spec.mapped_in log.now.heading log.now.trust (notes log.now) page nodes.now))) }
{
    let mut left = pages;
    for node in nodes {
        left = unmapped_in(alloc, log, node, left)?;
    }
    Ok(left)
}

/// The pages, and the one that the event initialises.
fn initialised(alloc: Global, pages: &[Page], event: &Event) -> Result<Vec<Page>, NoMemory>
    ensures { IfOk result (λ more. (page : ℕ) → among page more.items
        ≡ (mapped.initialises page event.now || among page pages.now)) }
{
    match *event {
        Event::Init { pe: _, page } => with(alloc, pages, page),
        _ => {
            let pages = pages.to_vec(alloc)?;
            Ok(pages)
        }
    }
}

/// The clean pages after the newest event of the log, where these were so before it, and these are the trees after it.
/// Where the header doesn't have `isolated` nobody asks for them, and it is no page. `NoMemory` where there is none.
pub fn clean_after<E: Evidence>(
    alloc: Global,
    log: &Log<E>,
    nodes: &[Node],
    clean: &[Page],
    event: &Event,
) -> Result<Vec<Page>, NoMemory>
    ensures { IfOk result (λ pages. log.now.heading.words.isolated ≡ true → (page : ℕ) → among page pages.items
        ≡ ((mapped.initialises page event.now || among page clean.now)
        && not (spec.mapped_in log.now.heading log.now.trust (notes log.now) page nodes.now))) }
{
    if !log.header().words.isolated {
        return Ok(Vec::new(alloc));
    }
    let pages = initialised(alloc, clean, event)?;
    unmapped(alloc, log, nodes, pages)
}
