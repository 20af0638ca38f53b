//! How far a TLBI covers a broken place.

ghost use Rattle.std.specs.Prelude.{◌≡◌, ◌≤◌, ◌↔◌, Bool, true, false, List, Some, None, IfSome};
ghost use Rattle.bbm_events.specs.Heading.{Heading};
ghost use Rattle.bbm_events.specs.declared.event.Event.{Event};
ghost use Rattle.bbm_replay.specs.Covering.{IsBrokenOver, IsCovered, IsPathOf, Mismatches, asks_childless};
ghost use Rattle.bbm_replay.specs.Covering.{asks_tags as spec_asks_tags};
ghost use Rattle.bbm_roots.specs.RootsStand.{Stands};
ghost use Rattle.bbm_rules.specs.Claims.Trust.{Patterns};
ghost use Rattle.bbm_rules.specs.Tags.{tag_set, tags_of};
ghost use Rattle.bbm_rules.specs.Tree.{Node};
ghost use Rattle.bbm_tlbi_scope.specs.ScopeCovers.{asid_matches, cover_of, vmid_matches};
ghost use Rattle.bbm_tree_index.specs.HeldCores.{Childless, core_at};
ghost use Rattle.bbm_tree_index.specs.Nodes.{path_at};

use crate::tlbi_cover::Covering;
use crate::writes::is_global;
use bbm_descriptor::Core;
use bbm_place_map::PlaceMap;
use bbm_regimes::{Kind, Place, Tag};
use bbm_replay_entries::law_entry_holds;
use bbm_replay_trees::law_childless_by_cores;
use bbm_roots::NamedTlbi;
use bbm_rules::law_notes_keep_the_events;
use bbm_tlbi_scope::scope::{is_number, lacks_vmid};
use bbm_tlbi_scope::{Cover, Family, PlaceView, TagSet, cover, where_fits};
use bbm_tree_index::{Path, is_childless, next_of};

/// Whether the cover of a place of this kind depends on the tags of its root.
fn asks_tags(family: Family, kind: Kind) -> bool
    ensures { result ≡ spec_asks_tags family kind }
{
    match kind {
        Kind::S2 => matches!(family, Family::VmAll12 | Family::Ipa | Family::VmAll1),
        Kind::Ttbr0 => matches!(family, Family::Va | Family::Asid),
        Kind::El2 | Kind::Ttbr1 => false,
    }
}

/// Whether the TLBI may cover places of a root with these tags, where the cover depends on them.
fn fits_tags(named: &NamedTlbi, tags: TagSet) -> bool
    ensures { result ≡ false → Mismatches named.now tags }
{
    match tags {
        TagSet::None => true,
        TagSet::One(Tag::Vmid(held)) => is_number(named.vmid, held),
        TagSet::One(Tag::Asid(held)) => is_number(named.scope.asid, held),
        TagSet::One(_) | TagSet::Many => false,
    }
}

/// Whether the VMID is the only one of the tags; told where that is one VMID.
#[inline(always)]
fn is_only_vmid(vmid: Option<u16>, tags: TagSet) -> Option<bool>
    ensures { IfSome result (λ yes. yes ≡ vmid_matches vmid tags) }
{
    match tags {
        TagSet::One(Tag::Vmid(held)) => Some(is_number(vmid, held)),
        _ => None,
    }
}

/// Whether the ASID is the only one of the tags; told where that is one ASID.
#[inline(always)]
fn is_only_asid(asid: Option<u16>, tags: TagSet) -> Option<bool>
    ensures { IfSome result (λ yes. yes ≡ asid_matches asid tags) }
{
    match tags {
        TagSet::One(Tag::Asid(held)) => Some(is_number(asid, held)),
        _ => None,
    }
}

impl Covering<'_> {
    /// Whether the place, which holds a table or not, holds one no place of which holds anything; told where the TLBI
    /// names pages of any level, on which alone it depends.
    fn is_childless(&self, map: &PlaceMap, place: Place, path: &Path, table: bool) -> bool
        requires { path.now.level ≤ 3 }
        ensures { asks_childless self.now.named.now.scope table ≡ true → (n : Node) → path.now ≡ path_at n place
            → (result ≡ true) ↔ Childless (core_at map.now) n place }
    {
        let scope = &self.named.scope;
        let asked = table && scope.family.has_page() && !scope.last_only && scope.level.is_none();
        asked && is_childless(map, place, path)
    }

    /// The tags of the root of a place with this path; told where its cover depends on them. None where nothing covers
    /// the place by them.
    fn tags(&self, path: &Path) -> Option<TagSet>
        ensures told { IfSome result (λ tags. spec_asks_tags self.now.named.now.scope.family path.now.kind ≡ true
            → (heading : Heading) (h : List Event) → Stands self.now.roots.now heading h
            → tags ≡ tag_set (tags_of heading Patterns path.now.first h)) }
        ensures none { result ≡ None → (spec_asks_tags self.now.named.now.scope.family path.now.kind ≡ true)
            × ((heading : Heading) (h : List Event) → Stands self.now.roots.now heading h
            → Mismatches self.now.named.now (tag_set (tags_of heading Patterns path.now.first h))) }
    {
        if !asks_tags(self.named.scope.family, path.kind) {
            return Some(TagSet::None);
        }
        let tags = self.roots.tags_of(path.first);
        if fits_tags(self.named, tags) {
            Some(tags)
        } else {
            None
        }
    }

    /// How far the TLBI covers a leaf with this path, where it is of one of the four families that most TLBIs are of,
    /// and where the cover depends on the tags of the root this holds one. None says nothing.
    #[inline(always)]
    fn leaf_cover(&self, path: &Path) -> Option<Cover>
        ensures { IfSome result (λ cover. (heading : Heading) (h : List Event)
            → Stands self.now.roots.now heading h → (global childless : Bool)
            → cover ≡ cover_of self.now.named.now.scope self.now.named.now.vmid (record {
              kind = path.now.kind;
              region = path.now.region;
              level = path.now.level;
              table = false;
              global = global;
              childless = childless;
              tags = tag_set (tags_of heading Patterns path.now.first h);
            })) }
    {
        let scope = &self.named.scope;
        let vmid = self.named.vmid;
        if lacks_vmid(scope.vmid_scoped, vmid) {
            return None;
        }
        match path.kind {
            Kind::El2 => match scope.family {
                Family::El2Va => {
                    let fits = scope.names_some(path.region) && scope.hint_allows(path.level);
                    Some(where_fits(Cover::Full, fits))
                }
                _ => None,
            },
            Kind::S2 => match scope.family {
                Family::Ipa => {
                    let only = is_only_vmid(vmid, self.roots.tags_of(path.first))?;
                    let fits = scope.names_some(path.region) && scope.hint_allows(path.level);
                    Some(where_fits(Cover::Half, fits && only))
                }
                Family::VmAll1 => {
                    let only = is_only_vmid(vmid, self.roots.tags_of(path.first))?;
                    Some(where_fits(Cover::Second, only))
                }
                _ => None,
            },
            Kind::Ttbr0 => match scope.family {
                Family::Va => {
                    let only = is_only_asid(scope.asid, self.roots.tags_of(path.first))?;
                    let fits = scope.names_some(path.region) && scope.hint_allows(path.level);
                    Some(where_fits(Cover::Full, fits && only))
                }
                _ => None,
            },
            Kind::Ttbr1 => None,
        }
    }

    /// How far the TLBI covers the place, which has this path, where it is broken over this core, by the table of
    /// covers.
    fn cover_by_table(&self, map: &PlaceMap, place: Place, path: &Path, core: &Core) -> Cover
        requires path { IsPathOf self.now.index.now place path.now }
        ensures { IsBrokenOver map.now place core.now → IsCovered map.now self.now result place }
    {
        law_entry_holds();
        law_childless_by_cores();
        law_notes_keep_the_events();
        let scope = &self.named.scope;
        if scope.family.has_page() && !scope.names_some(path.region) {
            return Cover::None;
        }
        let Some(tags) = self.tags(path) else {
            return Cover::None;
        };
        let table = next_of(core).is_some();
        cover(
            *scope,
            self.named.vmid,
            PlaceView {
                kind: path.kind,
                region: path.region,
                level: path.level,
                table,
                global: is_global(core),
                childless: self.is_childless(map, place, path, table),
                tags,
            },
        )
    }

    /// How far the TLBI covers the place, which has this path, where it is broken over this core. A leaf is most often
    /// answered at once.
    #[inline(always)]
    pub(crate) fn cover_of(&self, map: &PlaceMap, place: Place, path: &Path, core: &Core) -> Cover
        requires path { IsPathOf self.now.index.now place path.now }
        ensures { IsBrokenOver map.now place core.now → IsCovered map.now self.now result place }
    {
        law_notes_keep_the_events();
        let table = next_of(core).is_some();
        if !table {
            if let Some(cover) = self.leaf_cover(path) {
                return cover;
            }
        }
        // Copies, so that those of a leaf that is answered at once need no memory.
        let own = *path;
        let kept = *core;
        self.cover_by_table(map, place, &own, &kept)
    }
}
