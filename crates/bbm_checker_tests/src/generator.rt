//! Events of a generated log.

use bbm_events::Event;
use bbm_gen::{gen_event, gen_header};
use bbm_regimes::{Pe, Place};

fn write(pe: u8, place: u64, value: u64) -> Option<Event> {
    Some(Event::Write {
        pe: Pe::new(pe)?,
        place: Place::new(place)?,
        value,
    })
}

/// With n = 7: the first line of the round 0 in the tree of EL2, of round 1 in that of stage 2, and of round 4, which is
/// of PE 2.
#[test]
fn rounds_begin_with_a_write(rt: HostRuntime) {
    assert_eq!(rt; gen_header().pes, 4);
    assert!(rt; Some(gen_event(7, 7)) == write(0, 0x4000_0038, 0x701));
    assert!(rt; Some(gen_event(7, 15)) == write(0, 0x4000_1040, 0x4000_0701));
    assert!(rt; Some(gen_event(7, 39)) == write(2, 0x4000_0058, 0x1_0000_0701));
}
