//! Walks of translation tables: the answer, and the part that the walks of both stages share.

ghost use Rattle.std.specs.Prelude.{◌≡◌, ℕ, ◌+◌, ◌*◌, ◌/◌, ◌%◌, ◌≤◌, List};
ghost use Rattle.bbm_regimes.specs.Extent.{span_of};
ghost use Rattle.bbm_descriptor.specs.Listing.{WalkRoot, ComesTo, IsAnswer, WalkFits};

use crate::decode::read;
use crate::desc::Desc;
use crate::memory::Memory;
use bbm_regimes::{Kind, Level, PLACES, Page, Place};

/// The answer of a walk for an input address. Permissions and the access flag have no part in it. Source: Arm ARM
/// (DDI 0487), "VMSAv8-64 translation table walks".
#[derive(Clone, Copy, PartialEq, Eq)]
pub enum Walk {
    /// A leaf translates the address.
    Out {
        /// The output address, in bytes, below 2^48.
        addr: u64,
        /// The level of the leaf, 1 to 3.
        level: Level,
    },
    /// No leaf translates it.
    Fault {
        /// The level of the first invalid descriptor; the start level where the address is outside the input range.
        level: Level,
    },
}

/// The place of this page that the nine bits of an input address for this level select. Source: Arm ARM (DDI 0487),
/// "VMSAv8-64 translation table walks", the 4 KiB granule.
pub fn place_for(page: Page, level: Level, addr: u64) -> Place
    ensures { result ≡ page + 8 * (addr / span_of level % PLACES) }
{
    Place::new(page.get() + 8 * (addr / level.span() % PLACES)).unwrap()
}

/// Goes on with a walk for an input address that has come to this place, at this level of tables of this kind: the
/// answer is that of the listing, for each root from which a walk comes there. It reads one value a level. Source: Arm
/// ARM (DDI 0487), "VMSAv8-64 translation table walks".
pub fn walk_from<M: Memory>(mem: &M, kind: Kind, level: Level, place: Place, addr: u64) -> Walk
    ensures answer { (root : WalkRoot) (above : List ℕ) →
        ComesTo (M.value_at mem.now) root addr level place above → IsAnswer (M.value_at mem.now) root addr result }
    ensures fits { WalkFits result }
{
    match read(kind, level, mem.value(place)) {
        Desc::Invalid => Walk::Fault { level },
        Desc::Leaf { out, .. } => Walk::Out {
            addr: out + addr % level.span(),
            level,
        },
        Desc::Table { next, .. } => {
            let below = level.below().unwrap();
            walk_from(mem, kind, below, place_for(next, below, addr), addr)
        }
    }
}
