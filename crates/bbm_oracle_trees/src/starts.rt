//! The pages of the roots.

ghost use Rattle.std.specs.Prelude.{◌≡◌, ◌∷◌, [], ◌++◌, ◌≤◌, ◌+◌, ◌*◌, ◌^◌, ◌<◌, OnOk, All, true, flat_map};
ghost use Rattle.std.specs.Prelude.{if◌then◌else◌};
ghost use Rattle.bbm_regimes.specs.World as worlds;
ghost use Rattle.bbm_rules.specs.Tree.{nodes_of_pages, nodes_of_root, starts_at};
ghost use Rattle.bbm_rules.specs.Roots.{pages_from};
ghost use Rattle.bbm_oracle_trees.specs.HistoryFits.{fits_root};

use crate::node::Node;
use bbm_events::{Header, input_pages};
use bbm_oracle_tags::Declared;
use bbm_regimes::{Kind, Level, NoMemory, PAGE_BYTES, PLACES, Page};
use std::alloc::Global;

/// The number of pages of a root of the kind, 1 to 16; 0 where the kind isn't one of the header's world.
fn root_page_count(header: &Header, kind: Kind) -> u8
    ensures { result
        ≡ (if worlds.kind_in_world header.now.world kind then worlds.page_count header.now.world kind else 0) }
{
    if header.has_kind(kind) {
        header.page_count(kind)
    } else {
        0
    }
}

/// Adds one node at the end. `NoMemory` where there is none.
pub fn add(nodes: &mut Vec<Node>, node: Node) -> Result<(), NoMemory>
    ensures { OnOk result (nodes.new.items ≡ nodes.old.items ++ node ∷ []) }
{
    nodes.push(node)?;
    Ok(())
}

/// Where the walks of a root start.
#[derive(Clone, Copy)]
struct Start {
    /// The kind of the tree.
    kind: Kind,
    /// The level.
    level: Level,
    /// The first page of the root.
    root: Page,
    /// The first input page.
    first: u64,
}

/// Adds so many consecutive pages of a root.
fn add_pages(alloc: Global, start: &Start, count: u8, nodes: &mut Vec<Node>) -> Result<(), NoMemory>
    requires count { count ≤ 16 }
    requires first { start.now.first ≤ 2 ^ 44 }
    requires pages { start.now.root + PAGE_BYTES * count ≤ 2 ^ 48 }
    ensures { OnOk result (nodes.new.items ≡ nodes.old.items ++ nodes_of_pages start.now.kind start.now.level
        start.now.root start.now.first (pages_from start.now.root count)) }
{
    let size = PLACES * input_pages(start.level);
    for index in 0..count {
        let node = Node {
            page: start.root.behind(index),
            kind: start.kind,
            level: start.level,
            root: start.root,
            base: start.first + index as u64 * size,
            above: Vec::new(alloc),
        };
        add(nodes, node)?;
    }
    Ok(())
}

/// Adds the pages of a root.
fn add_root(
    alloc: Global,
    header: &Header,
    root: &Declared,
    nodes: &mut Vec<Node>,
) -> Result<(), NoMemory>
    requires { fits_root header.now root.now ≡ true }
    ensures { OnOk result (nodes.new.items ≡ nodes.old.items ++ nodes_of_root header.now root.now) }
{
    header.in_ranges();
    let kind = root.kind;
    let start = Start {
        kind,
        level: header.start_level(kind),
        root: root.page,
        first: header.first_input_page(kind),
    };
    add_pages(alloc, &start, root_page_count(header, kind), nodes)
}

/// Adds the pages of the roots whose walks start at the level. `NoMemory` where there is none.
pub fn add_starts(
    alloc: Global,
    header: &Header,
    level: Level,
    roots: &[Declared],
    nodes: &mut Vec<Node>,
) -> Result<(), NoMemory>
    requires { All (λ root. fits_root header.now root ≡ true) roots.now }
    ensures { OnOk result (nodes.new.items ≡ nodes.old.items ++ flat_map (starts_at header.now level) roots.now) }
{
    for root in roots {
        if header.start_level(root.kind) == level {
            add_root(alloc, header, root, nodes)?;
        }
    }
    Ok(())
}
