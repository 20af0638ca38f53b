//! A page that a guest's block maps isn't clean, so it is made no table.

use crate::events::{init, root, write};
use crate::history::{History, history_of};
use bbm_events::{Event, Header, HeaderWords, fits};
use bbm_judge::judge;
use bbm_regimes::{HypWorld, Kind, Level, Page, World};
use bbm_rules::{Rule, StepFault};
use std::alloc::Global;

/// `bbmlog 5 hyp 1 1 1 1 isolated`
const HEADER: Header = Header {
    version: 5,
    pes: 1,
    cnp: false,
    words: HeaderWords {
        unflushed: false,
        inorder: false,
        isolated: true,
    },
    world: World::Hyp(HypWorld {
        el2_start: Level::ONE,
        s2_start: Level::ONE,
        s2_pages: 1,
    }),
};

/// The root page of stage 2, and its place of the block.
const ROOT: u64 = 0x4000_0000;

const PLACE: u64 = 0x4000_0010;

const BLOCK: u64 = 0x8000_07fd;

/// A page that the block maps, and one that it doesn't.
const MAPPED: u64 = 0x8000_1000;

const CLEAN: u64 = 0x5000_0000;

/// The block is written, then both pages are initialised.
fn events() -> Option<[Event; 5]> {
    Some([
        init(ROOT)?,
        root(Kind::S2, None, ROOT)?,
        write(PLACE, BLOCK)?,
        init(MAPPED)?,
        init(CLEAN)?,
    ])
}

/// Whether the page is clean; None where the header doesn't have `isolated`.
fn is_clean(history: &History, page: u64) -> Option<bool> {
    let page = Page::new(page)?;
    if history.header().words.isolated {
        Some(history.is_clean(page))
    } else {
        None
    }
}

/// What is said of a root of EL2 at the page.
fn judged(alloc: Global, history: &History, page: u64) -> Option<Result<(), StepFault>> {
    let event = root(Kind::El2, None, page)?;
    if fits(history.header(), event) {
        Some(judge(alloc, history, &event))
    } else {
        None
    }
}

fn tells_clean(alloc: Global, events: &[Event]) -> bool {
    let mapped = Err(StepFault::Broken(Rule::TableMapped, MAPPED));
    match history_of(alloc, &HEADER, events) {
        Some(history) => {
            is_clean(&history, MAPPED) == Some(false)
                && is_clean(&history, CLEAN) == Some(true)
                && judged(alloc, &history, MAPPED) == Some(mapped)
                && judged(alloc, &history, CLEAN) == Some(Ok(()))
        }
        None => false,
    }
}

#[test]
fn a_mapped_page_is_made_no_table(rt: HostRuntime) {
    let all = events().expect(&rt, "events");
    assert!(rt; tells_clean(rt.alloc(), &all));
}
