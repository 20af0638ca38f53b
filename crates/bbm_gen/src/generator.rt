//! The header and the events of the generated logs.
//! Source: project's own choice, where no other is named.

ghost use Rattle.std.specs.Prelude.{◌≡◌, ◌<◌, ◌+◌, ◌*◌, ◌%◌, ◌/◌, true};
ghost use Rattle.bbm_events.specs.Fits.{fits_heading};
ghost use Rattle.bbm_gen.specs.Generated as log;

use bbm_barriers::{Domain, Dsb, Types};
use bbm_events::{Event, Header, NO_WORDS};
use bbm_regimes::{HypWorld, Kind, Level, PLACES, Page, Pe, Place, Reg, World};
use bbm_tlbi_scope::TlbiOp;

/// The first page of the EL2 root.
const EL2_ROOT: u64 = 0x4000_0000;

/// The first page of the stage 2 root.
const S2_ROOT: u64 = 0x4000_1000;

/// The stage 2 root under VMID 1.
const VTTBR: u64 = 0x0001_0000_4000_1000;

/// The header of every generated log: version 1, the Hyp world, four PEs, walks of both kinds from level 1, and one
/// page for a stage 2 root.
pub fn gen_header() -> Header
    ensures { result ≡ log.heading }
{
    Header {
        version: 1,
        pes: 4,
        cnp: false,
        words: NO_WORDS,
        world: World::Hyp(HypWorld {
            el2_start: Level::ONE,
            s2_start: Level::ONE,
            s2_pages: 1,
        }),
    }
}

fn ishst() -> Dsb
    ensures { result ≡ log.ishst }
{
    Dsb {
        domain: Domain::Inner,
        types: Types::Stores,
    }
}

fn ish() -> Dsb
    ensures { result ≡ log.ish }
{
    Dsb {
        domain: Domain::Inner,
        types: Types::All,
    }
}

/// The event of this number, 0 to 6, before the rounds; the last of them for any larger number.
fn opening(k: u32) -> Event
    ensures value { result ≡ log.opening k }
    ensures fits { fits_heading log.heading result ≡ true }
{
    let pe = Pe::new(0).unwrap();
    let el2 = Page::new(EL2_ROOT).unwrap();
    let s2 = Page::new(S2_ROOT).unwrap();
    match k {
        0 => Event::Init { pe, page: el2 },
        1 => Event::Root {
            pe,
            kind: Kind::El2,
            lock: None,
            page: el2,
        },
        2 => Event::Init { pe, page: s2 },
        3 => Event::Root {
            pe,
            kind: Kind::S2,
            lock: None,
            page: s2,
        },
        4 => Event::Msr {
            pe,
            reg: Reg::Ttbr0El2,
            value: EL2_ROOT,
        },
        5 => Event::Msr {
            pe,
            reg: Reg::VttbrEl2,
            value: VTTBR,
        },
        _ => Event::Isb { pe },
    }
}

/// The event of step k, 0 to 7, of a round in the EL2 tree.
fn el2_step(pe: Pe, place: Place, block: u64, page: u64, k: u32) -> Event
    requires pe_below { pe < 4 }
    ensures value { result ≡ log.el2_step pe place block page k }
    ensures fits { fits_heading log.heading result ≡ true }
{
    match k {
        0 => Event::Write {
            pe,
            place,
            value: block,
        },
        1 => Event::Dsb { pe, dsb: ishst() },
        2 => Event::Write {
            pe,
            place,
            value: 0,
        },
        3 => Event::Dsb { pe, dsb: ishst() },
        4 => Event::Tlbi {
            pe,
            op: TlbiOp::Vae2is,
            xt: page,
        },
        5 => Event::Dsb { pe, dsb: ish() },
        6 => Event::Isb { pe },
        _ => Event::Dmb { pe, dsb: ish() },
    }
}

/// The event of step k, 0 to 7, of a round in the stage 2 tree.
fn s2_step(place: Place, block: u64, page: u64, k: u32) -> Event
    ensures value { result ≡ log.s2_step place block page k }
    ensures fits { fits_heading log.heading result ≡ true }
{
    let pe = Pe::new(0).unwrap();
    match k {
        0 => Event::Write {
            pe,
            place,
            value: block,
        },
        1 => Event::Dsb { pe, dsb: ishst() },
        2 => Event::Write {
            pe,
            place,
            value: 0,
        },
        3 => Event::Dsb { pe, dsb: ishst() },
        4 => Event::Tlbi {
            pe,
            op: TlbiOp::Ipas2e1is,
            xt: page,
        },
        5 => Event::Dsb { pe, dsb: ish() },
        6 => Event::Tlbi {
            pe,
            op: TlbiOp::Vmalle1is,
            xt: 0,
        },
        _ => Event::Dsb { pe, dsb: ish() },
    }
}

/// Which of the descriptors of a root's page the round writes.
fn slot(n: u64, round: u32) -> u64
    ensures value { result ≡ log.slot n round }
    ensures below { result < PLACES }
{
    (n % PLACES + round as u64) % PLACES
}

/// The place of a descriptor, by its number in the page of a root.
fn place_in(root: Page, slot: u64) -> Place
    requires root_low { root < 0x80000000 }
    requires slot_below { slot < PLACES }
    ensures { result ≡ log.place_in root slot }
{
    Place::new(root.get() + 8 * slot).unwrap()
}

/// The block that the round makes: its output address is a multiple of 1 GiB below 2^39.
fn block(round: u32) -> u64
    ensures { result ≡ log.block round }
{
    (round % 512) as u64 * 0x4000_0000 + 0x701
}

/// The PE that writes in a round in the EL2 tree, 0 to 3 in turn.
fn writer(round: u32) -> Pe
    ensures value { result ≡ round / 2 % 4 }
    ensures below { result < 4 }
{
    Pe::new((round / 2 % 4) as u8).unwrap()
}

/// The event of step k, 0 to 7, of a round.
fn round_step(n: u64, round: u32, k: u32) -> Event
    ensures value { result ≡ log.round_step n round k }
    ensures fits { fits_heading log.heading result ≡ true }
{
    let slot = slot(n, round);
    let page = slot * 0x4_0000;
    let block = block(round);
    if round % 2 == 0 {
        let place = place_in(Page::new(EL2_ROOT).unwrap(), slot);
        el2_step(writer(round), place, block, page, k)
    } else {
        let place = place_in(Page::new(S2_ROOT).unwrap(), slot);
        s2_step(place, block, page, k)
    }
}

/// The event of index i, from 0, of the generated log of the number n. The first seven declare an EL2 root and a
/// stage 2 root and put them into the registers of PE 0. Then come rounds of eight events: each makes a 1 GiB block at
/// a place of a root, clears it, publishes the clear, flushes the block and waits for the flush; even rounds in the EL2
/// tree by the four PEs in turn, odd rounds in the stage 2 tree by PE 0. The number n moves the places.
pub fn gen_event(n: u64, i: u32) -> Event
    ensures value { result ≡ log.event_at n i }
    ensures fits { fits_heading log.heading result ≡ true }
{
    if i < 7 {
        opening(i)
    } else {
        round_step(n, (i - 7) / 8, (i - 7) % 8)
    }
}
