//! The example of bbm_entry_state.

use bbm_descriptor::Core;
use bbm_entry_state::{EntryState, break_before_make};
use bbm_regimes::{Pe, PeCount};

#[test]
fn nothing_is_left_after_break_before_make(rt: HostRuntime) {
    let core = Core::Leaf {
        out: 0x40000000,
        attrs: 0,
        share: 3,
        global: true,
        contiguous: false,
    };
    let one = Pe::new(1).unwrap();
    assert!(rt;
        matches!(
            break_before_make(core, one, PeCount::new(2)),
            EntryState::Clean
        )
    );
}
