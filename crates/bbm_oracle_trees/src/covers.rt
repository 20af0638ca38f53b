//! Which places an event covers, and how far.

ghost use Rattle.std.specs.Prelude.{◌≡◌, ℕ, true, ◌++◌, flat_map, Option, IfOk, OnOk};
ghost use Rattle.std.specs.Option.{option_map_or};
ghost use Rattle.bbm_descriptor.specs.Descriptor.{desc_of};
ghost use Rattle.bbm_tlbi_scope.specs.declared.entry.Cover.TheVariants.{None as NoCover};
ghost use Rattle.bbm_tlbi_scope.specs.declared.entry.PlaceView.{PlaceView as SeenPlace};
ghost use Rattle.bbm_tlbi_scope.specs.ScopeCovers.{cover_of};
ghost use Rattle.bbm_rules.specs.Covers.{is_global as leaf_for_all};
ghost use Rattle.bbm_rules.specs.Notes.{events_of};
ghost use Rattle.bbm_rules.specs.RegisterValues.{vmid_of};
ghost use Rattle.bbm_rules.specs.Tags.{tag_set, tags_of};
ghost use Rattle.bbm_rules.specs.Tree as trees;
ghost use Rattle.bbm_rules.specs.Values.{places_in};
ghost use Rattle.bbm_oracle_patterns.specs.Kept.{cover_in};
ghost use Rattle.bbm_oracle_trees.specs.Past.{notes};
ghost use Rattle.bbm_oracle_trees.specs.Views.{AreTags, cover_by, cover_for, cover_under, covered_under, entry_of};
ghost use Rattle.bbm_oracle_trees.specs.Views.{view_of};

use crate::log::Log;
use crate::node::Node;
use crate::tree::{first_of, is_childless, next_page};
use bbm_descriptor::{Desc, read};
use bbm_events::Event;
use bbm_oracle_patterns::{Covered, Covering, Evidence};
use bbm_regimes::{Interval, Kind, Level, NoMemory, Page, Pe, Place};
use bbm_tlbi_scope::{Cover, PlaceView, Scope, TagSet, cover, top_cover};
use std::alloc::Global;

/// The tags that a root holds. Source: project's own choice.
#[derive(Clone, Copy)]
pub struct RootTags {
    /// The first page of the root.
    pub root: Page,
    /// The tags.
    pub tags: TagSet,
}

/// The trees of a log, and the tags of its roots.
#[derive(Clone, Copy)]
struct Known<'a> {
    /// The pages of the trees.
    tree: &'a [Node],
    /// The tags of each declared root.
    tags: &'a [RootTags],
}

/// What a TLBI names at its issue, and what is asked of it.
#[derive(Clone, Copy)]
struct NamedTlbi {
    /// What it is for.
    scope: Scope,
    /// The VMID of its issuer, None where there are several.
    vmid: Option<u16>,
    /// Which cover of a place is asked.
    covering: Covering,
}

/// The tags of each declared root.
fn root_tags<E: Evidence>(alloc: Global, log: &Log<E>) -> Result<Vec<RootTags>, NoMemory>
    ensures { IfOk result (λ known. AreTags log.now.heading log.now.trust (events_of (notes log.now)) known.items) }
{
    let mut known = Vec::new(alloc);
    for root in &log.roots(alloc)? {
        let tags = log.tag_set_of(alloc, root.page)?;
        known.push(RootTags {
            root: root.page,
            tags,
        })?;
    }
    Ok(known)
}

/// The tags of the root, of those that are known where it is among them.
fn tags_at<E: Evidence>(
    alloc: Global,
    log: &Log<E>,
    known: &[RootTags],
    root: Page,
) -> Result<TagSet, NoMemory>
    requires { AreTags log.now.heading log.now.trust (events_of (notes log.now)) known.now }
    ensures { IfOk result (λ tags. tags
        ≡ tag_set (tags_of log.now.heading log.now.trust root (events_of (notes log.now)))) }
{
    for held in known {
        if held.root == root {
            return Ok(held.tags);
        }
    }
    log.tag_set_of(alloc, root)
}

/// Whether the value, at this kind and level, is a leaf for every ASID.
fn is_global(kind: Kind, level: Level, value: u64) -> bool
    ensures { result ≡ leaf_for_all (desc_of kind level value) }
{
    match read(kind, level, value) {
        Desc::Leaf { global, .. } => global,
        _ => false,
    }
}

/// How a TLBI sees a place of the page that holds this value.
fn view<E: Evidence>(
    alloc: Global,
    log: &Log<E>,
    known: &[RootTags],
    node: &Node,
    place: Place,
    value: u64,
) -> Result<PlaceView, NoMemory>
    requires { AreTags log.now.heading log.now.trust (events_of (notes log.now)) known.now }
    ensures { IfOk result (λ view. view ≡ view_of log.now.heading log.now.trust (notes log.now) node.now place value) }
{
    let childless = is_childless(alloc, log, node, value)?;
    let tags = tags_at(alloc, log, known, node.root)?;
    Ok(PlaceView {
        kind: node.kind,
        region: node.region(place),
        level: node.level,
        table: next_page(node.kind, node.level, value).is_some(),
        global: is_global(node.kind, node.level, value),
        childless,
        tags,
    })
}

/// Whether a TLBI of this scope is for pages, and none of them is one of the region.
fn misses(scope: &Scope, region: Interval) -> bool
    ensures { result ≡ true → (vmid : Option ℕ) (v : SeenPlace) → v.region ≡ region
        → cover_of scope.now vmid v ≡ NoCover }
{
    scope.family.has_page() && !scope.names_some(region) && !scope.names_all(region)
}

/// How far the TLBI covers a place that it sees so.
fn cover_seen(tlbi: &NamedTlbi, view: PlaceView) -> Cover
    ensures { result ≡ cover_by tlbi.now.covering tlbi.now.scope tlbi.now.vmid view }
{
    match tlbi.covering {
        Covering::Whole => cover(tlbi.scope, tlbi.vmid, view),
        Covering::Top => top_cover(tlbi.scope, tlbi.vmid, view),
    }
}

/// How far the TLBI covers a place of the page. What the place holds is asked only where the TLBI is for a page of its
/// region.
fn cover_in_node<E: Evidence>(
    alloc: Global,
    log: &Log<E>,
    tags: &[RootTags],
    tlbi: &NamedTlbi,
    node: &Node,
    place: Place,
) -> Result<Cover, NoMemory>
    requires { AreTags log.now.heading log.now.trust (events_of (notes log.now)) tags.now }
    ensures { IfOk result (λ cover. cover ≡ option_map_or (λ value. cover_by tlbi.now.covering tlbi.now.scope
        tlbi.now.vmid (view_of log.now.heading log.now.trust (notes log.now) node.now place value))
        (trees.held_at log.now.heading log.now.trust (notes log.now) node.now place) NoCover) }
{
    if misses(&tlbi.scope, node.region(place)) {
        return Ok(Cover::None);
    }
    match log.held(node.kind, node.level, place) {
        Some(value) => {
            let view = view(alloc, log, tags, node, place, value)?;
            Ok(cover_seen(tlbi, view))
        }
        None => Ok(Cover::None),
    }
}

/// How far the TLBI covers the place.
fn cover_at<E: Evidence>(
    alloc: Global,
    log: &Log<E>,
    known: &Known,
    tlbi: &NamedTlbi,
    place: Place,
) -> Result<Cover, NoMemory>
    requires tree { known.now.tree.now ≡ trees.tree log.now.heading log.now.trust (notes log.now) }
    requires tags { AreTags log.now.heading log.now.trust (events_of (notes log.now)) known.now.tags.now }
    ensures { IfOk result (λ cover. cover
        ≡ cover_under log.now.heading log.now.trust (notes log.now) tlbi.now.covering tlbi.now.scope tlbi.now.vmid
        place) }
{
    match first_of(known.tree, place.page()) {
        Some(node) => cover_in_node(alloc, log, known.tags, tlbi, node, place),
        None => Ok(Cover::None),
    }
}

/// Adds the place, where it is covered at all.
fn add_cover(covers: &mut Vec<Covered>, place: Place, cover: Cover) -> Result<(), NoMemory>
    ensures { OnOk result (covers.new.items ≡ covers.old.items ++ entry_of place cover) }
{
    match cover {
        Cover::None => Ok(()),
        Cover::Half | Cover::Second | Cover::Full => {
            covers.push(Covered { place, cover })?;
            Ok(())
        }
    }
}

/// Adds how far the TLBI covers each place of the page.
fn add_covers<E: Evidence>(
    alloc: Global,
    log: &Log<E>,
    known: &Known,
    tlbi: &NamedTlbi,
    page: Page,
    covers: &mut Vec<Covered>,
) -> Result<(), NoMemory>
    requires tree { known.now.tree.now ≡ trees.tree log.now.heading log.now.trust (notes log.now) }
    requires tags { AreTags log.now.heading log.now.trust (events_of (notes log.now)) known.now.tags.now }
    ensures { OnOk result (covers.new.items ≡ covers.old.items
        ++ flat_map (covered_under log.now.heading log.now.trust (notes log.now) tlbi.now.covering tlbi.now.scope
        tlbi.now.vmid)
        (places_in (events_of (notes log.now)) page)) }
{
    for place in &log.places_in(alloc, page)? {
        let cover = cover_at(alloc, log, known, tlbi, *place)?;
        add_cover(covers, *place, cover)?;
    }
    Ok(())
}

/// How far the TLBI covers each place of the trees, page by page.
fn covers_under<E: Evidence>(
    alloc: Global,
    log: &Log<E>,
    tree: &[Node],
    tlbi: &NamedTlbi,
) -> Result<Vec<Covered>, NoMemory>
    requires { tree.now ≡ trees.tree log.now.heading log.now.trust (notes log.now) }
    ensures { IfOk result (λ covers. (place : ℕ) → cover_in covers.items place
        ≡ cover_under log.now.heading log.now.trust (notes log.now) tlbi.now.covering tlbi.now.scope tlbi.now.vmid
        place) }
{
    let tags = root_tags(alloc, log)?;
    let known = Known { tree, tags: &tags };
    let mut covers = Vec::new(alloc);
    for node in tree {
        add_covers(alloc, log, &known, tlbi, node.page, &mut covers)?;
    }
    Ok(covers)
}

/// How far a TLBI of this scope that the PE issues covers each place, where these are the trees.
fn tlbi_covers<E: Evidence>(
    alloc: Global,
    log: &Log<E>,
    tree: &[Node],
    pe: Pe,
    scope: Scope,
    covering: Covering,
) -> Result<Vec<Covered>, NoMemory>
    requires { tree.now ≡ trees.tree log.now.heading log.now.trust (notes log.now) }
    ensures { IfOk result (λ covers. (place : ℕ) → cover_in covers.items place
        ≡ cover_under log.now.heading log.now.trust (notes log.now) covering scope
        (vmid_of log.now.heading (events_of (notes log.now)) pe) place) }
{
    let vmid = log.vmid_of(alloc, pe)?;
    let tlbi = NamedTlbi {
        scope,
        vmid,
        covering,
    };
    covers_under(alloc, log, tree, &tlbi)
}

/// The places of the trees that the event, coming after those of the log, covers, and how far, by its covers or its top
/// covers. `NoMemory` where there is none. Source: Arm ARM (DDI 0487), "TLB maintenance instructions"; the grades of
/// cover are the project's own choice.
pub fn covers_of<E: Evidence>(
    alloc: Global,
    log: &Log<E>,
    tree: &[Node],
    event: &Event,
    covering: Covering,
) -> Result<Vec<Covered>, NoMemory>
    requires { tree.now ≡ trees.tree log.now.heading log.now.trust (notes log.now) }
    ensures { IfOk result (λ covers. (place : ℕ) → cover_in covers.items place
        ≡ cover_for log.now.heading log.now.trust (notes log.now) covering event.now place) }
{
    match *event {
        Event::Tlbi { pe, op, xt } => match log.named_scope(alloc, pe, op, xt)? {
            Some(scope) => tlbi_covers(alloc, log, tree, pe, scope, covering),
            None => Ok(Vec::new(alloc)),
        },
        _ => Ok(Vec::new(alloc)),
    }
}
