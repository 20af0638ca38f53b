//! The words of the TLBI operations.

ghost use Rattle.std.specs.Prelude.{◌≡◌};
ghost use Rattle.bbm_tlbi_scope.specs.Operations as words;

use crate::scope::Family;
use bbm_regimes::World;

/// A TLBI operation. A name that ends in `is` is the broadcast form, to the inner shareable domain.
/// Source: Arm ARM (DDI 0487), "TLB maintenance instructions".
#[derive(Clone, Copy, PartialEq, Eq)]
pub enum TlbiOp {
    /// ALLE2: every entry of the EL2 translation regime.
    Alle2,
    /// ALLE2IS.
    Alle2is,
    /// VAE2: the entries of the EL2 translation regime for an address.
    Vae2,
    /// VAE2IS.
    Vae2is,
    /// VALE2: as VAE2, the last level alone.
    Vale2,
    /// VALE2IS.
    Vale2is,
    /// ALLE1: every entry of the EL1&0 translation regime, stages 1 and 2, all VMIDs.
    Alle1,
    /// ALLE1IS.
    Alle1is,
    /// VMALLE1: every stage 1 entry of the EL1&0 translation regime for the current VMID.
    Vmalle1,
    /// VMALLE1IS.
    Vmalle1is,
    /// VMALLS12E1: every stage 1 and stage 2 entry of the current VMID.
    Vmalls12e1,
    /// VMALLS12E1IS.
    Vmalls12e1is,
    /// IPAS2E1: the stage 2 entries of the current VMID for an intermediate physical address.
    Ipas2e1,
    /// IPAS2E1IS.
    Ipas2e1is,
    /// IPAS2LE1: as IPAS2E1, the last level alone.
    Ipas2le1,
    /// IPAS2LE1IS.
    Ipas2le1is,
    /// VAE1: the stage 1 entries of the EL1&0 translation regime for an address and an ASID.
    Vae1,
    /// VAE1IS.
    Vae1is,
    /// VALE1: as VAE1, the last level alone.
    Vale1,
    /// VALE1IS.
    Vale1is,
    /// VAAE1: the stage 1 entries of the EL1&0 translation regime for an address, all ASIDs.
    Vaae1,
    /// VAAE1IS.
    Vaae1is,
    /// VAALE1: as VAAE1, the last level alone.
    Vaale1,
    /// VAALE1IS.
    Vaale1is,
    /// ASIDE1: the entries of an ASID.
    Aside1,
    /// ASIDE1IS.
    Aside1is,
    /// RVAE2: as VAE2, for a range of addresses.
    Rvae2,
    /// RVAE2IS.
    Rvae2is,
    /// RVALE2: as VALE2, for a range of addresses.
    Rvale2,
    /// RVALE2IS.
    Rvale2is,
    /// RIPAS2E1: as IPAS2E1, for a range of intermediate physical addresses.
    Ripas2e1,
    /// RIPAS2E1IS.
    Ripas2e1is,
    /// RIPAS2LE1: as IPAS2LE1, for a range of intermediate physical addresses.
    Ripas2le1,
    /// RIPAS2LE1IS.
    Ripas2le1is,
    /// RVAE1: as VAE1, for a range of addresses.
    Rvae1,
    /// RVAE1IS.
    Rvae1is,
    /// RVALE1: as VALE1, for a range of addresses.
    Rvale1,
    /// RVALE1IS.
    Rvale1is,
    /// RVAAE1: as VAAE1, for a range of addresses.
    Rvaae1,
    /// RVAAE1IS.
    Rvaae1is,
    /// RVAALE1: as VAALE1, for a range of addresses.
    Rvaale1,
    /// RVAALE1IS.
    Rvaale1is,
}

impl TlbiOp {
    /// The family of the operation. Source: Arm ARM (DDI 0487), "TLB maintenance instructions".
    pub fn family(self) -> Family
        ensures { result ≡ words.family_of self }
    {
        match self {
            TlbiOp::Alle2 | TlbiOp::Alle2is => Family::El2All,
            TlbiOp::Vae2 | TlbiOp::Vae2is | TlbiOp::Vale2 | TlbiOp::Vale2is => Family::El2Va,
            TlbiOp::Rvae2 | TlbiOp::Rvae2is | TlbiOp::Rvale2 | TlbiOp::Rvale2is => Family::El2Va,
            TlbiOp::Alle1 | TlbiOp::Alle1is => Family::E1All,
            TlbiOp::Vmalle1 | TlbiOp::Vmalle1is => Family::VmAll1,
            TlbiOp::Vmalls12e1 | TlbiOp::Vmalls12e1is => Family::VmAll12,
            TlbiOp::Ipas2e1 | TlbiOp::Ipas2e1is | TlbiOp::Ipas2le1 | TlbiOp::Ipas2le1is => {
                Family::Ipa
            }
            TlbiOp::Ripas2e1 | TlbiOp::Ripas2e1is | TlbiOp::Ripas2le1 | TlbiOp::Ripas2le1is => {
                Family::Ipa
            }
            TlbiOp::Vae1 | TlbiOp::Vae1is | TlbiOp::Vale1 | TlbiOp::Vale1is => Family::Va,
            TlbiOp::Rvae1 | TlbiOp::Rvae1is | TlbiOp::Rvale1 | TlbiOp::Rvale1is => Family::Va,
            TlbiOp::Vaae1 | TlbiOp::Vaae1is | TlbiOp::Vaale1 | TlbiOp::Vaale1is => Family::VaAll,
            TlbiOp::Rvaae1 | TlbiOp::Rvaae1is | TlbiOp::Rvaale1 | TlbiOp::Rvaale1is => {
                Family::VaAll
            }
            TlbiOp::Aside1 | TlbiOp::Aside1is => Family::Asid,
        }
    }

    /// Whether the operation takes last-level entries alone. Source: Arm ARM (DDI 0487), "TLB
    /// maintenance instructions".
    pub fn last_only(self) -> bool
        ensures { result ≡ (words.operation self).last_only }
    {
        matches!(
            self,
            TlbiOp::Vale2
                | TlbiOp::Vale2is
                | TlbiOp::Ipas2le1
                | TlbiOp::Ipas2le1is
                | TlbiOp::Vale1
                | TlbiOp::Vale1is
                | TlbiOp::Vaale1
                | TlbiOp::Vaale1is
                | TlbiOp::Rvale2
                | TlbiOp::Rvale2is
                | TlbiOp::Ripas2le1
                | TlbiOp::Ripas2le1is
                | TlbiOp::Rvale1
                | TlbiOp::Rvale1is
                | TlbiOp::Rvaale1
                | TlbiOp::Rvaale1is
        )
    }

    /// Whether the operation reaches every PE, and not its issuer alone. Source: Arm ARM (DDI 0487),
    /// "TLB maintenance instructions"; that all PEs are in one inner shareable domain is the project's
    /// own choice.
    pub fn is_broadcast(self) -> bool
        ensures { result ≡ (words.operation self).broadcast }
    {
        matches!(
            self,
            TlbiOp::Alle2is
                | TlbiOp::Vae2is
                | TlbiOp::Vale2is
                | TlbiOp::Alle1is
                | TlbiOp::Vmalle1is
                | TlbiOp::Vmalls12e1is
                | TlbiOp::Ipas2e1is
                | TlbiOp::Ipas2le1is
                | TlbiOp::Vae1is
                | TlbiOp::Vale1is
                | TlbiOp::Vaae1is
                | TlbiOp::Vaale1is
                | TlbiOp::Aside1is
                | TlbiOp::Rvae2is
                | TlbiOp::Rvale2is
                | TlbiOp::Ripas2e1is
                | TlbiOp::Ripas2le1is
                | TlbiOp::Rvae1is
                | TlbiOp::Rvale1is
                | TlbiOp::Rvaae1is
                | TlbiOp::Rvaale1is
        )
    }

    /// Whether the operand gives a range of pages, and not one page. Source: Arm ARM (DDI 0487), "TLB
    /// maintenance instructions".
    pub fn is_range(self) -> bool
        ensures { result ≡ (words.operation self).range }
    {
        matches!(
            self,
            TlbiOp::Rvae2
                | TlbiOp::Rvae2is
                | TlbiOp::Rvale2
                | TlbiOp::Rvale2is
                | TlbiOp::Ripas2e1
                | TlbiOp::Ripas2e1is
                | TlbiOp::Ripas2le1
                | TlbiOp::Ripas2le1is
                | TlbiOp::Rvae1
                | TlbiOp::Rvae1is
                | TlbiOp::Rvale1
                | TlbiOp::Rvale1is
                | TlbiOp::Rvaae1
                | TlbiOp::Rvaae1is
                | TlbiOp::Rvaale1
                | TlbiOp::Rvaale1is
        )
    }

    /// Whether the operation has an operand, the value of a register Xt. Source: Arm ARM (DDI 0487),
    /// "TLB maintenance instructions".
    pub fn has_operand(self) -> bool
        ensures { result ≡ words.has_operand self }
    {
        self.family().has_page() || self.family().has_asid()
    }

    /// Whether the operation takes the entries of its issuer's VMID alone. Source: Arm ARM (DDI 0487),
    /// "TLB maintenance instructions".
    pub fn scoped_by_vmid(self) -> bool
        ensures { result ≡ words.scoped_by_vmid self }
    {
        self.family().by_vmid()
    }

    /// Whether the operation is one of the world. Source: project's own choice.
    pub fn of_world(self, world: World) -> bool
        ensures { result ≡ words.of_world world self }
    {
        match world {
            World::Hyp(_) => self.family().of_hyp(),
            World::Kernel(_) => self.family().of_kernel(),
        }
    }
}
