//! The log: a table and a block are made, and the block is cleared and flushed.

use bbm_barriers::{Domain, Dsb, Types};
use bbm_events::{Event, Header, NO_WORDS};
use bbm_regimes::{HypWorld, Kind, Level, Page, Pe, Place, Reg, World};
use bbm_tlbi_scope::TlbiOp;

/// `bbmlog 1 hyp 2 1 1 1`
pub const HEADER: Header = Header {
    version: 1,
    pes: 2,
    cnp: false,
    words: NO_WORDS,
    world: World::Hyp(HypWorld {
        el2_start: Level::ONE,
        s2_start: Level::ONE,
        s2_pages: 1,
    }),
};

/// The root page of EL2, and its places of the block and of the table.
pub const ROOT: u64 = 0x4000_0000;

pub const PLACE: u64 = 0x4000_0008;

pub const TABLE_PLACE: u64 = 0x4000_0010;

/// The page below it, and the table that links it.
pub const BELOW: u64 = 0x4000_1000;

pub const TABLE: u64 = 0x4000_1003;

/// The block, and one with another output address.
pub const BLOCK: u64 = 0x8000_0701;

pub const MOVED: u64 = 0xc000_0701;

pub fn write(place: u64, value: u64) -> Option<Event> {
    Some(Event::Write {
        pe: Pe::new(0)?,
        place: Place::new(place)?,
        value,
    })
}

pub fn init(page: u64) -> Option<Event> {
    Some(Event::Init {
        pe: Pe::new(0)?,
        page: Page::new(page)?,
    })
}

pub fn root(kind: Kind, lock: Option<u16>, page: u64) -> Option<Event> {
    Some(Event::Root {
        pe: Pe::new(0)?,
        kind,
        lock,
        page: Page::new(page)?,
    })
}

pub fn dsb(types: Types) -> Dsb {
    Dsb {
        domain: Domain::Inner,
        types,
    }
}

fn barrier(types: Types) -> Option<Event> {
    Some(Event::Dsb {
        pe: Pe::new(0)?,
        dsb: dsb(types),
    })
}

/// The log, all of it by PE 0.
pub fn events() -> Option<[Event; 11]> {
    let pe = Pe::new(0)?;
    Some([
        init(ROOT)?,
        init(BELOW)?,
        Event::Lock { pe, lock: 3 },
        root(Kind::El2, Some(3), ROOT)?,
        Event::Msr {
            pe,
            reg: Reg::Ttbr0El2,
            value: ROOT,
        },
        write(TABLE_PLACE, TABLE)?,
        write(PLACE, BLOCK)?,
        write(PLACE, 0)?,
        barrier(Types::Stores)?,
        Event::Tlbi {
            pe,
            op: TlbiOp::Vae2is,
            xt: 0x40000,
        },
        barrier(Types::All)?,
    ])
}
