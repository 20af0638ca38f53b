//! What a header says of its PEs, and of the roots of each kind: how many pages one has, where its walks start, and
//! which input pages its tables translate.
//! Source: project's own choice, where no other is named.

ghost use Rattle.std.specs.Prelude.{◌≡◌, ◌≤◌, ◌/◌, ◌^◌, true};
ghost use Rattle.bbm_regimes.specs.World as spec;
ghost use Rattle.bbm_events.specs.Heading.{heading_ok};

use crate::header::Header;
use bbm_regimes::{Kind, Level, PLACES, PeCount, World};

impl Header {
    /// The numbers of a header are in their ranges. The call does nothing; what it tells is its contract.
    pub fn in_ranges(&self)
        ensures { heading_ok self.now ≡ true }
    {
        let _pes = self.pes;
    }

    /// The number of PEs.
    pub fn pe_count(&self) -> PeCount
        ensures { result ≡ self.now.pes }
    {
        PeCount::new(self.pes)
    }

    /// The number of consecutive pages of a root of this kind, 1 to 16. Source: Arm ARM (DDI 0487), "VMSAv8-64
    /// translation table walks", concatenated translation tables.
    #[tactic(auto, using(crate::proofs::Counts::hyp_counts))]
    pub fn page_count(&self, kind: Kind) -> u8
        ensures value { result ≡ spec.page_count self.now.world kind }
        ensures some { 1 ≤ result }
        ensures bound { result ≤ 16 }
    {
        match (self.world, kind) {
            (World::Hyp(world), Kind::S2) => world.s2_pages,
            _ => 1,
        }
    }

    /// Whether the kind is one of the header's world: `El2` and `S2` are those of the Hyp world, `Ttbr0` and `Ttbr1`
    /// those of the Kernel world.
    pub fn has_kind(&self, kind: Kind) -> bool
        ensures { result ≡ spec.kind_in_world self.now.world kind }
    {
        match self.world {
            World::Hyp(_) => match kind {
                Kind::El2 | Kind::S2 => true,
                Kind::Ttbr0 | Kind::Ttbr1 => false,
            },
            World::Kernel(_) => match kind {
                Kind::Ttbr0 | Kind::Ttbr1 => true,
                Kind::El2 | Kind::S2 => false,
            },
        }
    }

    /// The level at which walks of the kind start, 0 to 2; 0 where the kind isn't one of the header's world. Source:
    /// Arm ARM (DDI 0487), "VMSAv8-64 translation table walks".
    pub fn start_level(&self, kind: Kind) -> Level
        ensures value { result ≡ spec.start_of self.now.world kind }
        ensures low { result ≤ 2 }
    {
        match self.world {
            World::Hyp(world) => match kind {
                Kind::El2 => world.el2_start,
                Kind::S2 => world.s2_start,
                Kind::Ttbr0 | Kind::Ttbr1 => Level::ZERO,
            },
            World::Kernel(world) => match kind {
                Kind::Ttbr0 => world.start0,
                Kind::Ttbr1 => world.start1,
                Kind::El2 | Kind::S2 => Level::ZERO,
            },
        }
    }

    /// The number of the first input page that trees of the kind translate, at most 2^44: 0, but for the upper range,
    /// whose trees end at the last input page. Source: Arm ARM (DDI 0487), "VMSAv8-64 translation table walks".
    pub fn first_input_page(&self, kind: Kind) -> u64
        ensures value { result ≡ spec.first_input_page self.now.world kind }
        ensures bound { result ≤ 2 ^ 44 }
    {
        match kind {
            Kind::Ttbr1 => (1 << 44) - PLACES * input_pages(self.start_level(kind)),
            Kind::El2 | Kind::S2 | Kind::Ttbr0 => 0,
        }
    }
}

/// The number of 4 KiB input pages that one descriptor of this level translates: 1 to 2^27. Source: Arm ARM (DDI 0487),
/// "VMSAv8-64 translation table walks", the 4 KiB granule.
pub fn input_pages(level: Level) -> u64
    ensures value { result ≡ spec.input_pages level }
    ensures some { 1 ≤ result }
    ensures bound { result ≤ 2 ^ 27 }
{
    match level.get() {
        0 => 1 << 27,
        1 => 1 << 18,
        2 => 1 << 9,
        _ => 1,
    }
}

/// How many regions of descriptors of this level lie whole in so many input pages. Source: Arm ARM (DDI 0487),
/// "VMSAv8-64 translation table walks", the 4 KiB granule.
pub fn regions_in(level: Level, pages: u64) -> u64
    ensures { result ≡ pages / spec.input_pages level }
{
    match level.get() {
        0 => pages / (1 << 27),
        1 => pages / (1 << 18),
        2 => pages / (1 << 9),
        _ => pages,
    }
}
