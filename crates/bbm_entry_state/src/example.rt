//! The calls of one place, in their order.

ghost use Rattle.std.specs.Prelude.{◌≡◌, ◌<◌};

use crate::pending::Pends;
use crate::state::EntryState;
use bbm_barriers::{Domain, Dsb, Types};
use bbm_descriptor::Core;
use bbm_regimes::{Pe, PeCount, PeMask};
use bbm_tlbi_scope::Cover;

/// A DSB of the inner shareable domain, for loads and stores.
pub const ISH: Dsb = Dsb {
    domain: Domain::Inner,
    types: Types::All,
};

/// The state of a place after break-before-make: a PE writes a valid value and clears it, publishes the break
/// to all of the `n` PEs, has every entry of the place taken at each of them, and waits for that. No
/// TLB keeps anything of the place then, whatever its core was. Source: Arm ARM (DDI 0487), "Using
/// break-before-make when updating translation table entries".
pub fn break_before_make(core: Core, issuer: Pe, n: PeCount) -> EntryState
    requires issuer_below { issuer < n }
    ensures { result ≡ EntryState.Clean }
{
    let live = EntryState::new().write(issuer, Some(core));
    let broken = live.write(issuer, None);
    let published = broken.dsb(issuer, ISH, n);
    let pends = published.tlbi(Pends::none(), PeMask::all(n), true, Cover::Full);
    let (state, _left) = published.dsb(issuer, ISH, n).complete(pends, ISH, n);
    state
}
