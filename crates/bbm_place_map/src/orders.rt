//! What a PE orders: a DSB or a TLBI.
//! Source: project's own choice, where no other is named.

use bbm_barriers::Dsb;
use bbm_regimes::{Pe, PeCount, PeMask};

/// What a DSB does at a broken place.
#[derive(Clone, Copy)]
pub enum Effect {
    /// It publishes its issuer's writes to these PEs.
    Publish(PeMask),
    /// It answers its issuer's TLBIs.
    Complete,
}

/// A DSB, and one of the two things that it does.
#[derive(Clone, Copy)]
pub struct Barrier {
    /// The PE that issued it.
    pub issuer: Pe,
    /// Its option.
    pub dsb: Dsb,
    /// The number of PEs of the log.
    pub n: PeCount,
    /// What it does.
    pub effect: Effect,
}

/// A TLBI, without how far it covers a place.
#[derive(Clone, Copy)]
pub struct Issuing {
    /// The PE that issued it.
    pub issuer: Pe,
    /// The PEs that it reaches.
    pub reach: PeMask,
    /// Whether it is broadcast.
    pub broadcast: bool,
}
