//! The walk of stage 2.

ghost use Rattle.std.specs.Prelude.{◌≡◌, ℕ, ◌+◌, ◌*◌, ◌/◌, ◌^◌, ◌<◌, ◌≤◌, ◌↔◌, [], IsTrue};
ghost use Rattle.bbm_descriptor.specs.Listing.{IsAnswer, RegionHolds, WalkFits};
ghost use Rattle.bbm_descriptor.specs.declared.walk.Walk.{Walk};
ghost use Rattle.bbm_walk_s2.specs.Joined.{stage2_root};

use crate::root::S2Root;
use bbm_descriptor::laws::{law_one_answer, law_outside, law_walk_begins};
use bbm_descriptor::{Memory, Walk, walk_from};
use bbm_regimes::{Kind, Level, PAGE_BYTES, PLACES, Page, Place};

/// Whether the address is in the input range of a root.
fn is_in_range(start: Level, pages: u8, ipa: u64) -> bool
    requires start { start ≤ 2 }
    requires pages { pages ≤ 16 }
    ensures { (value : ℕ → ℕ) (page : ℕ) → IsTrue result ↔ RegionHolds value (stage2_root start pages page) [] ipa }
{
    ipa < pages as u64 * (PLACES * start.span())
}

/// The place of this number in the joined pages.
fn joined_place(page: Page, pages: u8, number: u64) -> Place
    requires inside { number < PLACES * pages }
    requires pages { pages ≤ 16 }
    requires room { page + PAGE_BYTES * pages ≤ 2 ^ 48 }
    ensures { result ≡ page + 8 * number }
{
    Place::new(page.get() + 8 * number).unwrap()
}

/// Where the tables of this root translate an intermediate physical address: the one answer of their listing. It
/// follows nine bits of the address a level, and more at the start level where pages are joined, and reads one value a
/// level, at most four. Permissions and the access flag are ignored. An address outside the input range is a fault at
/// the start level. Source: Arm ARM (DDI 0487), "VMSAv8-64 translation table walks"; the fault outside the range is
/// the project's own choice.
pub fn walk<M: Memory>(mem: &M, root: S2Root, ipa: u64) -> Walk
    ensures answer { IsAnswer (M.value_at mem.now) (stage2_root root.start root.pages root.page) ipa result }
    ensures only { (other : Walk) →
        IsAnswer (M.value_at mem.now) (stage2_root root.start root.pages root.page) ipa other → other ≡ result }
    ensures fits { WalkFits result }
{
    law_outside();
    law_walk_begins();
    law_one_answer();
    if !is_in_range(root.start, root.pages, ipa) {
        return Walk::Fault { level: root.start };
    }
    let place = joined_place(root.page, root.pages, ipa / root.start.span());
    walk_from(mem, Kind::S2, root.start, place, ipa)
}
