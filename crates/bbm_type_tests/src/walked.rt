//! What the worked walks of both stages share.

ghost use Rattle.std.specs.Prelude.{◌≡◌, ◌<◌, ◌%◌, ◌^◌};

use bbm_descriptor::Walk;
use bbm_regimes::Place;

/// An address, and what a walk tells.
pub(crate) type Row = (u64, u64, u8);

/// The place at this address.
pub(crate) fn place(addr: u64) -> Place
    requires below { addr < 2 ^ 48 }
    requires aligned { addr % 8 ≡ 0 }
{
    Place::new(addr).unwrap()
}

/// The output address and the level of a leaf, or 1 and the level of a fault: no address here is 1.
pub(crate) fn told(answer: Walk) -> (u64, u8) {
    match answer {
        Walk::Out { addr, level } => (addr, level.get()),
        Walk::Fault { level } => (1, level.get()),
    }
}
