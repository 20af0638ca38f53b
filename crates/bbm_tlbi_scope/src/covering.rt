//! Which places a TLBI covers, and how far.

ghost use Rattle.std.specs.Prelude.{◌≡◌};
ghost use Rattle.bbm_tlbi_scope.specs.ScopeCovers as covering;

use crate::entry::{Cover, PlaceView, TagSet};
use crate::scope::{Family, Scope, is_number, lacks_vmid};
use bbm_regimes::{Kind, Tag};

/// Whether the address of the scope fits the place.
fn fits_place(scope: Scope, view: PlaceView) -> bool
    ensures { result ≡ covering.fits_place scope view }
{
    if !view.table {
        scope.names_some(view.region) && scope.hint_allows(view.level)
    } else if scope.last_only || scope.level.is_some() {
        false
    } else if view.childless {
        scope.names_some(view.region)
    } else {
        scope.names_all(view.region)
    }
}

/// Whether the VMID is the only one of the tags.
fn vmid_matches(vmid: Option<u16>, tags: TagSet) -> bool
    ensures { result ≡ covering.vmid_matches vmid tags }
{
    match tags {
        TagSet::None => vmid.is_some(),
        TagSet::One(Tag::Vmid(held)) => is_number(vmid, held),
        TagSet::One(_) | TagSet::Many => false,
    }
}

/// Whether the ASID is the only one of the tags.
fn asid_matches(asid: Option<u16>, tags: TagSet) -> bool
    ensures { result ≡ covering.asid_matches asid tags }
{
    match tags {
        TagSet::None => asid.is_some(),
        TagSet::One(Tag::Asid(held)) => is_number(asid, held),
        TagSet::One(_) | TagSet::Many => false,
    }
}

/// This cover where the test holds, and else none.
#[inline(always)]
pub fn where_fits(cover: Cover, fits: bool) -> Cover
    ensures { result ≡ covering.where_fits cover fits }
{
    if fits { cover } else { Cover::None }
}

/// How far a TLBI of this scope, under this VMID, covers the place; `None` where the TLBI is for one VMID
/// alone and there is none. Source: Arm ARM (DDI 0487), "TLB maintenance instructions"; that a table with
/// children is covered by address only where the scope names its whole region, and that a TLBI without its
/// VMID covers nothing, is the project's own choice.
pub fn cover(scope: Scope, vmid: Option<u16>, view: PlaceView) -> Cover
    ensures { result ≡ covering.cover_of scope vmid view }
{
    if lacks_vmid(scope.vmid_scoped, vmid) {
        return Cover::None;
    }
    let fits = fits_place(scope, view);
    match view.kind {
        Kind::El2 => match scope.family {
            Family::El2All => Cover::Full,
            Family::El2Va => where_fits(Cover::Full, fits),
            _ => Cover::None,
        },
        Kind::S2 => match scope.family {
            Family::E1All => Cover::Full,
            Family::VmAll12 => where_fits(Cover::Full, vmid_matches(vmid, view.tags)),
            Family::Ipa => where_fits(Cover::Half, fits && vmid_matches(vmid, view.tags)),
            Family::VmAll1 => where_fits(Cover::Second, vmid_matches(vmid, view.tags)),
            _ => Cover::None,
        },
        Kind::Ttbr0 => match scope.family {
            Family::VmAll1 => Cover::Full,
            Family::VaAll => where_fits(Cover::Full, fits),
            Family::Va => where_fits(Cover::Full, fits && asid_matches(scope.asid, view.tags)),
            Family::Asid => where_fits(Cover::Full, asid_matches(scope.asid, view.tags)),
            _ => Cover::None,
        },
        Kind::Ttbr1 => match scope.family {
            Family::VmAll1 => Cover::Full,
            Family::VaAll => where_fits(Cover::Full, fits),
            Family::Va => where_fits(Cover::Full, fits && !view.table && view.global),
            _ => Cover::None,
        },
    }
}

/// How far a TLBI of this scope, under this VMID, covers what ends at the place; `None` as for `cover`. Source: Arm ARM
/// (DDI 0487), "TLB maintenance instructions"; that a TLBI with a level hint covers nothing that ends in a table is the
/// project's own choice.
pub fn top_cover(scope: Scope, vmid: Option<u16>, view: PlaceView) -> Cover
    ensures { result ≡ covering.top_of scope vmid view }
{
    cover(
        scope,
        vmid,
        PlaceView {
            childless: true,
            ..view
        },
    )
}
