//! The theorems of this crate are the contracts of `publishes_to` and `answers`: each option publishes to, and answers,
//! what the table of the architecture says.
//!
//! DSB and DMB options: to which PEs a DSB publishes earlier writes, and which TLBIs it completes.
#![tactic(auto)]

ghost use Rattle.std.specs.Prelude.{◌≡◌, ℕ, ◌<◌, ◌≤◌};
ghost use Rattle.bbm_regimes.specs.PeMask.{pe_in};
ghost use Rattle.bbm_barriers.specs.Options.{publishes, answers_broadcast, answers_local};
ghost use Rattle.bbm_barriers.specs.Options as options;

use bbm_regimes::{Pe, PeCount, PeMask};

/// The shareability domain of a barrier. `Full` is the domain of the options `sy`, `st` and `ld`.
/// Source: Arm ARM (DDI 0487), "Memory barriers".
#[derive(Clone, Copy, PartialEq, Eq)]
pub enum Domain {
    /// The full system.
    Full,
    /// Inner shareable.
    Inner,
    /// Outer shareable.
    Outer,
    /// Non-shareable.
    Non,
}

/// Whether the domain is the non-shareable one.
pub fn is_non(domain: Domain) -> bool
    ensures { result ≡ options.is_non domain }
{
    matches!(domain, Domain::Non)
}

/// The accesses that a barrier waits for. Source: Arm ARM (DDI 0487), "Memory barriers".
#[derive(Clone, Copy, PartialEq, Eq)]
pub enum Types {
    /// Loads and stores.
    All,
    /// Stores.
    Stores,
    /// Loads.
    Loads,
}

/// The option of a DSB or a DMB. Source: Arm ARM (DDI 0487), "Memory barriers".
#[derive(Clone, Copy, PartialEq, Eq)]
pub struct Dsb {
    /// The shareability domain that the barrier reaches.
    pub domain: Domain,
    /// The accesses that it waits for.
    pub types: Types,
}

/// The PEs to which a DSB of the issuer publishes the issuer's earlier writes, in a log with `n` PEs:
/// every PE, the issuer alone, or none, by the table of the options. Source: Arm ARM (DDI 0487),
/// "Memory barriers"; that all PEs are in one inner shareable domain is the project's own choice.
pub fn publishes_to(dsb: Dsb, issuer: Pe, n: PeCount) -> PeMask
    requires issuer_below { issuer < n }
    ensures { (p : ℕ) → pe_in result p ≡ publishes dsb issuer n p }
{
    match dsb.types {
        Types::Loads => PeMask::none(),
        Types::All | Types::Stores => match dsb.domain {
            Domain::Non => PeMask::one(issuer),
            Domain::Full | Domain::Inner | Domain::Outer => PeMask::all(n),
        },
    }
}

/// Whether a DSB completes its issuer's earlier TLBIs that are broadcast. Source: Arm ARM (DDI 0487),
/// "TLB maintenance instructions".
pub fn completes_broadcast(dsb: Dsb) -> bool
    ensures { result ≡ answers_broadcast dsb }
{
    match (dsb.types, dsb.domain) {
        (Types::All, Domain::Full | Domain::Inner | Domain::Outer) => true,
        (Types::All, Domain::Non) | (Types::Stores | Types::Loads, _) => false,
    }
}

/// Whether a DSB completes its issuer's earlier TLBIs that aren't broadcast. Source: Arm ARM (DDI 0487),
/// "TLB maintenance instructions".
pub fn completes_local(dsb: Dsb) -> bool
    ensures { result ≡ answers_local dsb }
{
    matches!(dsb.types, Types::All)
}

/// Whether a DSB completes its issuer's earlier TLBIs of this sort, broadcast or not. Source: Arm ARM (DDI 0487), "TLB
/// maintenance instructions".
pub fn answers(dsb: Dsb, broadcast: bool) -> bool
    ensures { result ≡ options.answers dsb broadcast }
{
    if broadcast {
        completes_broadcast(dsb)
    } else {
        completes_local(dsb)
    }
}
