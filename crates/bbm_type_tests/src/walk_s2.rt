//! Walks worked out by hand, and a proved caller.

ghost use Rattle.std.specs.Prelude.{◌≡◌, ◌*◌, ◌<◌, ◌≤◌, ◌%◌, ◌^◌, ◌↔◌, IsTrue};
ghost use Rattle.bbm_descriptor.specs.Listing.{NoLeaf};
ghost use Rattle.bbm_walk_s2.specs.Joined.{can_join, stage2_root};

use crate::walked::{Row, place, told};
use bbm_regimes::{Level, Page};
use bbm_walk_s2::{Memory, Pairs, S2Root, Walk, walk};

/// Whether a leaf translates the address.
fn is_mapped<M: Memory>(mem: &M, root: S2Root, ipa: u64) -> bool
    ensures { IsTrue result ↔ ¬ NoLeaf (M.value_at mem.now) (stage2_root root.start root.pages root.page) ipa }
{
    matches!(walk(mem, root, ipa), Walk::Out { .. })
}

fn root(start: u8, pages: u8, addr: u64) -> S2Root
    requires start { start ≤ 2 }
    requires joined { IsTrue (can_join start pages) }
    requires below { addr < 2 ^ 48 }
    requires aligned { addr % 4096 ≡ 0 }
    requires all_aligned { addr % (4096 * pages) ≡ 0 }
{
    S2Root {
        start: Level::new(start).unwrap(),
        pages,
        page: Page::new(addr).unwrap(),
    }
}

/// Whether a walk tells what each row says.
fn tells(mem: &Pairs, root: &S2Root, rows: &[Row]) -> bool {
    for (ipa, addr, level) in rows {
        if told(walk(mem, *root, *ipa)) != (*addr, *level) {
            return false;
        }
    }
    true
}

const JOINED: [Row; 10] = [
    (0x7ff_ffff_f000, 0xffff_f000, 1),
    (0x800_0000_0000, 1, 1),
    (0x7f_ffff_ffff, 0xbfff_ffff, 1),
    (0x80_0000_0000, 0x4000_0000, 1),
    (0x7f_bfff_ffff, 1, 1),
    (0x80_4000_0000, 1, 1),
    (0x100_4060_4abc, 0x1234_5abc, 3),
    (0x100_4060_5abc, 1, 3),
    (0x100_4080_4abc, 1, 2),
    (0xffff_ffff_ffff_ffff, 1, 1),
];

#[test]
fn walks_sixteen_joined_pages(rt: HostRuntime) {
    let pairs = [
        (place(0x4001_0ff8), 0x8000_07fd),
        (place(0x4001_1000), 0x4000_07fd),
        (place(0x4001_2008), 0x4002_0003),
        (place(0x4001_fff8), 0xc000_07fd),
        (place(0x4002_0018), 0x4002_1003),
        (place(0x4002_1020), 0x1234_57ff),
    ];
    let mem = Pairs { pairs: &pairs };
    assert!(rt; tells(&mem, &root(1, 16, 0x4001_0000), &JOINED));
    assert!(rt; is_mapped(&mem, root(1, 16, 0x4001_0000), 0x80_0000_0000));
}

const ONE_PAGE: [Row; 6] = [
    (0, 1, 0),
    (0x80_4040_1234, 0x4020_1234, 2),
    (0x80_4020_1234, 1, 2),
    (0x80_8040_1234, 1, 1),
    (0x1_0000_0000_0000, 1, 0),
    (0x1_0080_4040_1234, 1, 0),
];

#[test]
fn walks_one_page(rt: HostRuntime) {
    let pairs = [
        (place(0x4001_0000), 0x8000_07fd),
        (place(0x4001_0008), 0x4001_1003),
        (place(0x4001_1008), 0x4001_2003),
        (place(0x4001_2010), 0x4020_07fd),
    ];
    let mem = Pairs { pairs: &pairs };
    assert!(rt; tells(&mem, &root(0, 1, 0x4001_0000), &ONE_PAGE));
}
