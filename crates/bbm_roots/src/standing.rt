//! Readable standings: by what the ASIDs of TTBR0_EL1 roots go where the registers of a PE come into use in order.
//! Source: project's own choice.

ghost use Rattle.std.specs.Prelude.{◌≡◌};
ghost use Rattle.bbm_roots.specs.RootRegisters as spec;

use crate::load::RootValue;
use bbm_events::Header;
use bbm_regimes::{AsidFrom, KernelWorld, World};

/// Whether the ASIDs of TTBR0_EL1 roots go by readable standings: the registers come into use in order, and the ASID is
/// that of TTBR1_EL1.
pub fn in_order(header: &Header) -> bool
    ensures { result ≡ spec.in_order header.now }
{
    match header.world {
        World::Hyp(_) => false,
        World::Kernel(world) => {
            matches!(world.asid_from, AsidFrom::Ttbr1) && header.words.inorder
        }
    }
}

/// The world by which readings go: a standing gives what a value of TTBR0_EL1 gives that has its own ASID.
pub fn reading_world(header: &Header) -> World
    ensures { result ≡ spec.reading_world header.now }
{
    if !in_order(header) {
        return header.world;
    }
    match header.world {
        World::Hyp(_) => header.world,
        World::Kernel(world) => World::Kernel(KernelWorld {
            asid_from: AsidFrom::Ttbr0,
            ..world
        }),
    }
}

/// The first of the values.
fn front(loads: &[RootValue]) -> RootValue
    ensures { result ≡ spec.front loads.now }
{
    match loads.first() {
        Some(load) => *load,
        None => RootValue::default(),
    }
}

/// The standing that comes of a value of the first register, or the second, and the newest of these of the other.
pub fn new_standing(first: bool, load: &RootValue, others: &[RootValue]) -> RootValue
    ensures { result ≡ spec.new_standing first load.now (spec.front others.now) }
{
    let newest = front(others);
    if first {
        RootValue {
            number: newest.number,
            root: load.root,
        }
    } else {
        RootValue {
            number: load.number,
            root: newest.root,
        }
    }
}
