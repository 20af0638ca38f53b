//! The calls of bbm_place_map that no command makes.

use bbm_descriptor::Core;
use bbm_entry_state::EntryState;
use bbm_place_map::PlaceMap;
use bbm_regimes::{NoMemory, Pe, Place};
use std::alloc::Global;

const CORE: Core = Core::Leaf {
    out: 0x4000_0000,
    attrs: 0,
    share: 3,
    global: true,
    contiguous: false,
};

/// Whether a place is broken, the only one, and nothing of PE 0 waits for PE 1 there, after PE 0 cleared a valid value.
fn is_broken_after_a_clear(
    alloc: Global,
    place: Place,
    zero: Pe,
    one: Pe,
) -> Result<bool, NoMemory> {
    let mut map = PlaceMap::new(alloc);
    map.track(place.page())?;
    map.set(place, 0, EntryState::Live { core: CORE }.write(zero, None));
    let broken = matches!(map.state(place, None), EntryState::Broken { .. });
    let waits = map.pends(zero, place).broadcast.full.has(one);
    Ok(broken && !waits && map.restless() > 0 && map.restless_at(0) == place)
}

#[test]
fn a_place_is_broken_by_a_clear(rt: HostRuntime) -> Result<(), NoMemory> {
    let place = Place::new(0x4000_0010).unwrap();
    let zero = Pe::new(0).unwrap();
    assert!(rt; is_broken_after_a_clear(rt.alloc(), place, zero, Pe::new(1).unwrap())?);
    Ok(())
}
