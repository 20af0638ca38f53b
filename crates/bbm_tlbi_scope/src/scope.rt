//! What a TLBI operation with its operand says: its scope.
//! Source: project's own choice, where no other is named.

ghost use Rattle.std.specs.Prelude.{◌≡◌};
ghost use Rattle.bbm_tlbi_scope.specs.Operations as words;
ghost use Rattle.bbm_tlbi_scope.specs.Numbers as numbers;

use bbm_regimes::{Interval, Level};

/// The family of a TLBI operation. Source: Arm ARM (DDI 0487), "TLB maintenance instructions".
#[derive(Clone, Copy, PartialEq, Eq)]
pub enum Family {
    /// Every entry of the EL2 translation regime.
    El2All,
    /// The entries of the EL2 translation regime for an address.
    El2Va,
    /// Every entry of the EL1&0 translation regime, stages 1 and 2, all VMIDs.
    E1All,
    /// The stage 1 entries of the EL1&0 translation regime of a VMID.
    VmAll1,
    /// The stage 1 and stage 2 entries of a VMID.
    VmAll12,
    /// The stage 2 entries of a VMID for an intermediate physical address.
    Ipa,
    /// The stage 1 entries for an address and an ASID, and the global ones for the address.
    Va,
    /// The stage 1 entries for an address, all ASIDs.
    VaAll,
    /// The stage 1 entries of an ASID that aren't global.
    Asid,
}

impl Family {
    /// Whether a TLBI of the family takes the entries of its issuer's VMID alone.
    pub fn by_vmid(self) -> bool
        ensures { result ≡ words.by_vmid self }
    {
        matches!(self, Family::VmAll1 | Family::VmAll12 | Family::Ipa)
    }

    /// Whether the operand has a page number.
    pub fn has_page(self) -> bool
        ensures { result ≡ words.has_page self }
    {
        matches!(
            self,
            Family::El2Va | Family::Ipa | Family::Va | Family::VaAll
        )
    }

    /// Whether the operand has an ASID.
    pub fn has_asid(self) -> bool
        ensures { result ≡ words.has_asid self }
    {
        matches!(self, Family::Va | Family::Asid)
    }

    /// Whether the family is one that a hypervisor uses.
    pub fn of_hyp(self) -> bool
        ensures { result ≡ words.of_hyp self }
    {
        matches!(
            self,
            Family::El2All
                | Family::El2Va
                | Family::E1All
                | Family::VmAll1
                | Family::VmAll12
                | Family::Ipa
        )
    }

    /// Whether the family is one that a kernel uses.
    pub fn of_kernel(self) -> bool
        ensures { result ≡ words.of_kernel self }
    {
        matches!(
            self,
            Family::VmAll1 | Family::Va | Family::VaAll | Family::Asid
        )
    }
}

/// The scope of a TLBI: what it invalidates. Which fields are None follows from the family. Source: Arm
/// ARM (DDI 0487), "TLB maintenance instructions".
#[derive(Clone, Copy, PartialEq, Eq)]
pub struct Scope {
    /// The family of the operation.
    pub family: Family,
    /// The ASID of the operand, 0 to 65535; None where the operation names none.
    pub asid: Option<u16>,
    /// Whether the TLBI takes the entries of its issuer's VMID alone.
    pub vmid_scoped: bool,
    /// The input page numbers of the operand; None where the operation names no address.
    pub interval: Option<Interval>,
    /// Whether the TLBI invalidates last-level entries alone.
    pub last_only: bool,
    /// The level that the operand gives as a hint, 1 to 3; None where it gives none.
    pub level: Option<Level>,
    /// Whether the TLBI reaches every PE, and not its issuer alone.
    pub broadcast: bool,
}

/// Why the operand of a TLBI can't be decoded.
#[derive(Clone, Copy, PartialEq, Eq)]
pub enum BadOperand {
    /// The page number lies outside the address range of the operation's regime.
    NonCanonical = 1,
    /// The level hint is for a granule of 16 or 64 KiB.
    TtlGranule = 2,
    /// The granule of a range is another than 4 KiB.
    RangeGranule = 3,
    /// The first page of a range doesn't fit its level hint.
    RangeUnaligned = 4,
}

impl Scope {
    /// Whether the scope names pages, and some page of the region is among them.
    pub fn names_some(self, region: Interval) -> bool
        ensures { result ≡ numbers.names_some self.interval region }
    {
        match self.interval {
            Some(interval) => interval.meets(region),
            None => false,
        }
    }

    /// Whether the scope names pages, and each page of the region is among them.
    pub fn names_all(self, region: Interval) -> bool
        ensures { result ≡ numbers.names_all self.interval region }
    {
        match self.interval {
            Some(interval) => interval.holds(region),
            None => false,
        }
    }

    /// Whether the level hint of the scope is none or this level.
    pub fn hint_allows(self, level: Level) -> bool
        ensures { result ≡ numbers.hint_allows self.level level }
    {
        match self.level {
            Some(hint) => hint == level,
            None => true,
        }
    }
}

/// Whether a TLBI for one VMID alone has none.
pub fn lacks_vmid(vmid_scoped: bool, vmid: Option<u16>) -> bool
    ensures { result ≡ numbers.lacks_vmid vmid_scoped vmid }
{
    vmid_scoped && vmid.is_none()
}

/// Whether the VMID or ASID is there and is this number, 0 to 65535.
pub fn is_number(named: Option<u16>, number: u16) -> bool
    ensures { result ≡ numbers.is_number named number }
{
    match named {
        Some(named) => named == number,
        None => false,
    }
}
