//! The rule on table pages, and what is kept for it: under a header with `isolated` the pages that no held leaf of
//! stage 2 maps, and else nothing.

ghost use Rattle.std.specs.Prelude.{◌≡◌, ◌++◌, ◌∷◌, [], ℕ, true, Some, IfErr, IfOk, IfSome, OnOk, is_some, if◌then◌else◌};
ghost use Rattle.bbm_events.specs.Heading.{Heading};
ghost use Rattle.bbm_place_map.specs.Map.{IsPosition};
ghost use Rattle.bbm_tree_index.specs.Index as tree;
ghost use Rattle.bbm_tree_index.specs.IndexAgreement.{SharesNumbers};
ghost use Rattle.bbm_tree_index.specs.Paths.{starts_of};
ghost use Rattle.bbm_tree_index.specs.Prepared.{AreNamedFresh, IsPrepared};
ghost use Rattle.bbm_tree_index.specs.declared.index.TreeIndex.{TreeIndex as TheIndex};
ghost use Rattle.bbm_tree_index.specs.declared.role.Attach.{Attach as TheAttach};
ghost use Rattle.bbm_replay.specs.Guarded.{Becomes, CoversListed, Guarded, Initialises, JudgesLeaf, Passes, Refuses};
ghost use Rattle.bbm_unmapped.specs.Unmapped.{IsNumberedBy, IsSame, SharesPages, free_in, has_room, known_in, pages_in};

use crate::laws::laws;
use bbm_descriptor::core;
use bbm_events::Header;
use bbm_place_map::{PlaceMap, Position};
use bbm_regimes::Page;
use bbm_rules::{Rule, StepFault};
use bbm_tree_index::{AttachedPage, Prepared, Standing, TreeIndex};
use bbm_unmapped::laws::law_core_maps;
use bbm_unmapped::{Unmapped, outputs_of};
use std::alloc::Global;

/// What is kept before any event.
pub(crate) fn kept_at_first(alloc: Global, header: &Header) -> Option<Unmapped>
    ensures { (index : TheIndex) → tree.pages_in index ≡ [] → Guarded result index header.now [] }
{
    laws();
    if header.words.isolated {
        return Some(Unmapped::new(alloc));
    }
    None
}

/// Makes room for a page that comes to be tracked. `NoMemory` where there is none. What is kept stays.
pub(crate) fn reserve(kept: &mut Option<Unmapped>) -> Result<(), StepFault>
    ensures same { Becomes IsSame kept.old kept.new }
    ensures room { OnOk result (IfSome kept.new (λ u. has_room u ≡ true)) }
    ensures fault { IfErr result (λ fault. fault ≡ StepFault.NoMemory) }
{
    match kept {
        Some(unmapped) => match unmapped.reserve() {
            Ok(()) => Ok(()),
            Err(_) => Err(StepFault::NoMemory),
        },
        None => Ok(()),
    }
}

/// The page was initialised just now, and the index and the map track it.
pub(crate) fn init(kept: &mut Option<Unmapped>, index: &TreeIndex, map: &PlaceMap, page: Page)
    requires room { IfSome kept.old (λ u. has_room u ≡ true) }
    requires shares { SharesNumbers index.now map.now }
    requires pages { IfSome kept.old (λ u. tree.pages_in index.now
        ≡ (if known_in u page then pages_in u else pages_in u ++ page ∷ [])) }
    ensures { Becomes (Initialises index.now map.now page) kept.old kept.new }
{
    match kept {
        Some(unmapped) => unmapped.init(index, map, page),
        None => {}
    }
}

/// Judges by the rule on table pages a value that is written at the position's place, which is read like this in a tree:
/// `Broken` with the least page of a tree that it maps as a leaf of stage 2. After Ok what it maps counts as mapped.
#[inline(never)]
pub(crate) fn cover_leaf(
    kept: &mut Option<Unmapped>,
    index: &TreeIndex,
    map: &PlaceMap,
    position: Position,
    read: Standing,
    value: u64,
) -> Result<(), StepFault>
    requires shares { SharesNumbers index.now map.now }
    requires pages { IfSome kept.old (λ u. SharesPages u index.now) }
    requires tables { IfSome kept.old (λ u. (p : ℕ) → is_some (tree.node_in index.now p) ≡ true → free_in u p ≡ true) }
    requires position { IsPosition map.now position }
    ensures { JudgesLeaf read.kind read.level position.place value index.now kept.old kept.new result }
{
    law_core_maps();
    let Some(unmapped) = kept else {
        return Ok(());
    };
    let Some(outputs) = outputs_of(read.kind, read.level, &core(read.kind, read.level, value))
    else {
        return Ok(());
    };
    match unmapped.put_leaf(index, map, position.page, position.place.page(), &outputs) {
        Some(page) => Err(StepFault::Broken(Rule::TableMapped, page.get())),
        None => Ok(()),
    }
}

/// Judges by the rule on table pages what would be attached: `Broken` with the least page that it names, or `NoMemory`.
/// The attached pages, none where nothing is kept.
pub(crate) fn judge_attached(
    kept: &Option<Unmapped>,
    alloc: Global,
    index: &TreeIndex,
    map: &PlaceMap,
    prepared: &Prepared,
) -> Result<Vec<AttachedPage>, StepFault>
    requires shares { SharesNumbers index.now map.now }
    requires pages { IfSome kept.now (λ u. SharesPages u index.now) }
    requires prepared { (at : TheAttach) × IsPrepared prepared.now index.now map.now at × AreNamedFresh index.now at }
    ensures passes { IfOk result (λ pages. (at : TheAttach) → IsPrepared prepared.now index.now map.now at
        → AreNamedFresh index.now at → Passes index.now map.now (starts_of index.now at) kept.now pages.items) }
    ensures refuses { IfErr result (λ fault. (at : TheAttach) → IsPrepared prepared.now index.now map.now at
        → AreNamedFresh index.now at → Refuses index.now map.now (starts_of index.now at) kept.now fault) }
{
    let Some(unmapped) = kept else {
        return Ok(Vec::new(alloc));
    };
    let pages = match index.attached_pages(alloc, map, prepared) {
        Ok(pages) => pages,
        Err(_) => return Err(StepFault::NoMemory),
    };
    match unmapped.bad_table(index, map, &pages) {
        Some(page) => Err(StepFault::Broken(Rule::TableMapped, page.get())),
        None => Ok(pages),
    }
}

/// The pages were attached: what their leaves map counts as mapped.
pub(crate) fn cover_attached(kept: &mut Option<Unmapped>, map: &PlaceMap, pages: &[AttachedPage])
    requires { IfSome kept.old (λ u. IsNumberedBy u map.now) }
    ensures { Becomes (CoversListed map.now pages.now) kept.old kept.new }
{
    match kept {
        Some(unmapped) => unmapped.cover_attached(map, pages),
        None => {}
    }
}
