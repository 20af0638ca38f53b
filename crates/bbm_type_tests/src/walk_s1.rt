//! Walks worked out by hand, and a proved caller.

ghost use Rattle.std.specs.Prelude.{◌≡◌, ◌<◌, ◌≤◌, ◌%◌, ◌^◌, ◌↔◌, IsTrue};
ghost use Rattle.bbm_descriptor.specs.Listing.{NoLeaf};
ghost use Rattle.bbm_walk_s1.specs.InputRanges.{stage1_root};

use crate::walked::{Row, place, told};
use bbm_regimes::{Level, Page};
use bbm_walk_s1::{Memory, Pairs, S1Root, Walk, walk};

/// Whether a leaf translates the address.
fn is_mapped<M: Memory>(mem: &M, root: S1Root, va: u64) -> bool
    ensures { IsTrue result ↔ ¬ NoLeaf (M.value_at mem.now) (stage1_root root.start root.high root.page) va }
{
    matches!(walk(mem, root, va), Walk::Out { .. })
}

fn root(start: u8, high: bool, addr: u64) -> S1Root
    requires start { start ≤ 2 }
    requires below { addr < 2 ^ 48 }
    requires aligned { addr % 4096 ≡ 0 }
{
    S1Root {
        start: Level::new(start).unwrap(),
        high,
        page: Page::new(addr).unwrap(),
    }
}

/// Whether a walk tells what each row says.
fn tells(mem: &Pairs, root: &S1Root, rows: &[Row]) -> bool {
    for (va, addr, level) in rows {
        if told(walk(mem, *root, *va)) != (*addr, *level) {
            return false;
        }
    }
    true
}

const LEVELS: [Row; 10] = [
    (0x80_8060_4567, 0x1234_5567, 3),
    (0x80_8060_5567, 1, 3),
    (0x80_8080_4567, 0x4020_4567, 2),
    (0x80_80a0_4567, 1, 2),
    (0x80_c060_4567, 0xc060_4567, 1),
    (0x81_0060_4567, 1, 1),
    (0x100_0060_4567, 1, 0),
    (0, 1, 0),
    (0x1_0080_8060_4567, 1, 0),
    (0xffff_ffff_ffff_ffff, 1, 0),
];

#[test]
fn walks_through_a_table_at_each_level(rt: HostRuntime) {
    let pairs = [
        (place(0x1008), 0x2003),
        (place(0x1010), 0x8000_0701),
        (place(0x2010), 0x3003),
        (place(0x2018), 0xc000_0701),
        (place(0x3018), 0x4003),
        (place(0x3020), 0x4020_0701),
        (place(0x4020), 0x1234_5703),
        (place(0x4028), 0x1234_5701),
    ];
    let mem = Pairs { pairs: &pairs };
    assert!(rt; tells(&mem, &root(0, false, 0x1000), &LEVELS));
    assert!(rt; is_mapped(&mem, root(0, false, 0x1000), 0x80_8060_4567));
}

const LOW: [Row; 4] = [
    (0x4000_1234, 0xc000_1234, 1),
    (0x7f_ffff_ffff, 0xbfff_ffff, 1),
    (0x80_0000_0000, 1, 1),
    (0xffff_ffff_ffff_ffff, 1, 1),
];

const HIGH: [Row; 4] = [
    (0xffff_ff80_0000_0000, 0x4000_0000, 1),
    (0xffff_ffff_ffff_ffff, 0xbfff_ffff, 1),
    (0xffff_ff7f_ffff_ffff, 1, 1),
    (0x4000_1234, 1, 1),
];

const HIGH_AT_2: [Row; 3] = [
    (0xffff_ffff_c000_0000, 0x4000_0000, 2),
    (0xffff_ffff_ffff_ffff, 0x801f_ffff, 2),
    (0xffff_ffff_bfff_ffff, 1, 2),
];

const HIGH_AT_0: [Row; 2] = [(0xffff_0000_0000_0000, 1, 0), (0xfffe_ffff_ffff_ffff, 1, 0)];

#[test]
fn walks_the_ends_of_an_input_range(rt: HostRuntime) {
    let pairs = [
        (place(0x4000_0000), 0x4000_0f01),
        (place(0x4000_0008), 0xc000_0701),
        (place(0x4000_0ff8), 0x8000_0f01),
    ];
    let mem = Pairs { pairs: &pairs };
    assert!(rt; tells(&mem, &root(1, false, 0x4000_0000), &LOW));
    assert!(rt; tells(&mem, &root(1, true, 0x4000_0000), &HIGH));
    assert!(rt; tells(&mem, &root(2, true, 0x4000_0000), &HIGH_AT_2));
    assert!(rt; tells(&mem, &root(2, false, 0x4000_0000), &[(0x4000_0000, 1, 2)]));
    assert!(rt; tells(&mem, &root(0, true, 0x4000_0000), &HIGH_AT_0));
}
