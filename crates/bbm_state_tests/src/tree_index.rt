//! The calls of bbm_tree_index that a null page takes, with ample memory.

use bbm_events::{Header, NO_WORDS};
use bbm_place_map::PlaceMap;
use bbm_regimes::{HypWorld, Level, Page, World};
use bbm_tree_index::{TreeFault, TreeIndex};

const HYP: Header = Header {
    version: 1,
    pes: 1,
    cnp: false,
    words: NO_WORDS,
    world: World::Hyp(HypWorld {
        el2_start: Level::ONE,
        s2_start: Level::ONE,
        s2_pages: 2,
    }),
};

#[test]
fn a_null_page(rt: HostRuntime) -> Result<(), TreeFault> {
    let mut map = PlaceMap::new(rt.alloc());
    let page = Page::new(0x4000_0000).unwrap();
    let mut index = TreeIndex::new(rt.alloc(), &HYP);
    index.track(&mut map, page)?;
    if index.is_fresh(&map, page) {
        index.nullify(&map, page);
    }
    assert!(rt;
        index.is_null(&map, page) && !index.is_fresh(&map, page) && !index.is_in_tree(&map, page)
    );
    assert!(rt; index.pages() == 1);
    Ok(())
}
