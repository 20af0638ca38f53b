//! The walk of stage 1.

ghost use Rattle.std.specs.Prelude.{◌≡◌, ℕ, ◌≤◌, ◌↔◌, [], IsTrue};
ghost use Rattle.bbm_descriptor.specs.Listing.{IsAnswer, RegionHolds, WalkFits};
ghost use Rattle.bbm_descriptor.specs.declared.walk.Walk.{Walk};
ghost use Rattle.bbm_walk_s1.specs.InputRanges.{first_address, stage1_root};

use crate::root::S1Root;
use bbm_descriptor::laws::{law_one_answer, law_outside, law_walk_begins};
use bbm_descriptor::{Memory, Walk, place_for, walk_from};
use bbm_regimes::{Kind, Level, PLACES};

/// The first input address of a root, by its start level and whether its range is the high one.
fn first_input(start: Level, high: bool) -> u64
    requires { start ≤ 2 }
    ensures { result ≡ first_address start high }
{
    if high {
        u64::MAX - (PLACES * start.span() - 1)
    } else {
        0
    }
}

/// Whether the address is in the input range of a root.
fn is_in_range(start: Level, high: bool, va: u64) -> bool
    requires { start ≤ 2 }
    ensures { (value : ℕ → ℕ) (page : ℕ) → IsTrue result ↔ RegionHolds value (stage1_root start high page) [] va }
{
    let first = first_input(start, high);
    first <= va && va - first < PLACES * start.span()
}

/// Where the tables of this root translate a virtual address: the one answer of their listing. It follows nine bits
/// of the address a level, and reads one value a level, at most four. Permissions and the access flag are ignored. An
/// address outside the input range is a fault at the start level. Source: Arm ARM (DDI 0487), "VMSAv8-64 translation
/// table walks"; the fault outside the range is the project's own choice.
pub fn walk<M: Memory>(mem: &M, root: S1Root, va: u64) -> Walk
    ensures answer { IsAnswer (M.value_at mem.now) (stage1_root root.start root.high root.page) va result }
    ensures only { (other : Walk) →
        IsAnswer (M.value_at mem.now) (stage1_root root.start root.high root.page) va other → other ≡ result }
    ensures fits { WalkFits result }
{
    law_outside();
    law_walk_begins();
    law_one_answer();
    if !is_in_range(root.start, root.high, va) {
        return Walk::Fault { level: root.start };
    }
    // The kinds of stage 1 differ in no field that a walk follows.
    let place = place_for(root.page, root.start, va);
    walk_from(mem, Kind::El2, root.start, place, va)
}
