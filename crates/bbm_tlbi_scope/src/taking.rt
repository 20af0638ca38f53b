//! Which TLB entries a TLBI takes.

ghost use Rattle.std.specs.Prelude.{◌≡◌};
ghost use Rattle.bbm_tlbi_scope.specs.Takes as taking;
ghost use Rattle.bbm_tlbi_scope.specs.ScopeTags.{takes_whole_tag};

use crate::entry::{EntryHead, EntryKind};
use crate::scope::{Family, Scope, is_number, lacks_vmid};
use bbm_regimes::Tag;

/// Whether the address of the scope fits the entry.
fn fits_entry(scope: Scope, head: EntryHead) -> bool
    ensures { result ≡ taking.fits_entry scope head }
{
    scope.names_some(head.region)
        && if head.last {
            scope.hint_allows(head.level)
        } else {
            !scope.last_only && scope.level.is_none()
        }
}

/// Whether a TLBI of this scope, under this VMID, takes the entry; false where the TLBI is for one VMID
/// alone and there is none. Source: Arm ARM (DDI 0487), "TLB maintenance instructions"; that a TLBI with a
/// level hint takes no entry that ends in a table, and that one without its VMID takes nothing, is the
/// project's own choice.
pub fn takes(scope: Scope, vmid: Option<u16>, head: EntryHead) -> bool
    ensures { result ≡ taking.taken scope vmid head }
{
    if lacks_vmid(scope.vmid_scoped, vmid) {
        return false;
    }
    match head.kind {
        EntryKind::El2 => match scope.family {
            Family::El2All => true,
            Family::El2Va => fits_entry(scope, head),
            _ => false,
        },
        EntryKind::Stage2 => match scope.family {
            Family::E1All => true,
            Family::VmAll12 => is_number(vmid, head.vmid),
            Family::Ipa => is_number(vmid, head.vmid) && fits_entry(scope, head),
            _ => false,
        },
        EntryKind::Combined => match scope.family {
            Family::E1All => true,
            Family::VmAll12 | Family::VmAll1 => is_number(vmid, head.vmid),
            _ => false,
        },
        EntryKind::El1 => match scope.family {
            Family::VmAll1 => true,
            Family::VaAll => fits_entry(scope, head),
            Family::Va => {
                (is_number(scope.asid, head.asid) || (head.last && head.global))
                    && fits_entry(scope, head)
            }
            Family::Asid => is_number(scope.asid, head.asid) && !(head.last && head.global),
            _ => false,
        },
    }
}

/// Whether a TLBI of this scope, under this VMID, takes everything that a TLB keeps under the tag; false
/// where the TLBI is for one VMID alone and there is none. Source: Arm ARM (DDI 0487), "TLB maintenance
/// instructions"; that a TLBI without its VMID takes nothing is the project's own choice.
pub fn whole_tag(scope: Scope, vmid: Option<u16>, tag: Tag) -> bool
    ensures { result ≡ takes_whole_tag scope vmid tag }
{
    if lacks_vmid(scope.vmid_scoped, vmid) {
        return false;
    }
    match (tag, scope.family) {
        (Tag::El2, Family::El2All) => true,
        (Tag::Vmid(_), Family::E1All) => true,
        (Tag::Vmid(held), Family::VmAll12) => is_number(vmid, held),
        (Tag::Asid(_), Family::VmAll1) => true,
        (Tag::Asid(held), Family::Asid) => is_number(scope.asid, held),
        (Tag::Ttbr1, Family::VmAll1) => true,
        _ => false,
    }
}
