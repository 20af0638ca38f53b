//! The calls of bbm_roots with ample memory, and their example.

use crate::example::first_root;
use bbm_barriers::{Domain, Dsb, Types};
use bbm_events::{Header, NO_WORDS};
use bbm_regimes::{HypWorld, Kind, Level, NoMemory, Page, Pe, Tag, World};
use bbm_roots::Roots;
use bbm_tlbi_scope::{TagSet, TlbiOp};
use std::test::Fail;

// `bbmlog 1 hyp 2 1 1 1`
const HYP: Header = Header {
    version: 1,
    pes: 2,
    cnp: false,
    words: NO_WORDS,
    world: World::Hyp(HypWorld {
        el2_start: Level::ONE,
        s2_start: Level::ONE,
        s2_pages: 1,
    }),
};

#[test]
fn the_first_root_holds_its_tag(rt: HostRuntime) -> Result<(), Fail> {
    let page = Page::new(0x4000_0000).unwrap();
    let roots = first_root(rt.alloc(), &HYP, page)?;
    assert!(rt; roots.is_root(Kind::El2, page) && roots.is_declared(page));
    assert!(rt; roots.tags_of(page) == TagSet::One(Tag::El2));
    Ok(())
}

#[test]
fn a_tlbi_is_issued_and_answered(rt: HostRuntime) -> Result<(), NoMemory> {
    let mut roots = Roots::new(rt.alloc(), &HYP)?;
    let pe = Pe::new(1).unwrap();
    if let Ok(named) = roots.judge_tlbi(pe, TlbiOp::Alle2is, 0) {
        let takes = roots.prepare_issue(rt.alloc(), pe, &named)?;
        roots.issue_ready(pe, &named, takes);
    }
    let domain = Domain::Inner;
    let types = Types::All;
    roots.complete(pe, Dsb { domain, types });
    Ok(())
}

#[test]
fn a_lock_and_no_root(rt: HostRuntime) -> Result<(), NoMemory> {
    let mut roots = Roots::new(rt.alloc(), &HYP)?;
    let pe = Pe::new(1).unwrap();
    let page = Page::new(0x4000_0000).unwrap();
    assert!(rt; roots.lock(pe, 3).is_ok());
    assert!(rt; roots.holder_of(3) == Some(pe) && !roots.lacks(pe, 3));
    assert!(rt; !roots.is_declared(page) && roots.lock_of(page).is_none());
    Ok(())
}
