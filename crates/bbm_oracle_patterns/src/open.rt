//! The TLBIs that no DSB has answered yet.

ghost use Rattle.std.specs.Prelude.{◌≡◌, ℕ, Bool, true, false, ◌&&◌, ◌||◌, not, nat_eq};
ghost use Rattle.bbm_barriers.specs.Options.{answers};
ghost use Rattle.bbm_regimes.specs.PeMask.{pe_in};
ghost use Rattle.bbm_oracle_patterns.specs.Relation.{is_open, related};
ghost use Rattle.bbm_lemmas.specs.ListWords.{same_flag};

use crate::relation::Relation;
use bbm_barriers::{Dsb, completes_broadcast, completes_local};
use bbm_regimes::{Pe, PeMask};

/// Of the TLBIs of each issuer that no DSB has answered yet: the PEs at which they count for a place, those of
/// broadcast TLBIs and those of others apart. Source: project's own choice.
#[derive(Drop)]
pub struct Open {
    broadcast: Relation,
    local: Relation,
}

/// Takes out what a DSB of the issuer answers, if it answers such TLBIs.
fn settle(relation: &mut Relation, issuer: Pe, answers: bool) -> PeMask
    ensures answered { (p : ℕ) → pe_in result p ≡ (answers && related relation.old issuer p) }
    ensures left { (q p : ℕ) → related relation.new q p
        ≡ (related relation.old q p && not (nat_eq issuer q && answers)) }
{
    if answers {
        relation.take(issuer)
    } else {
        PeMask::none()
    }
}

impl Open {
    /// There is no TLBI.
    pub fn none() -> Open
        ensures { (q : ℕ) (b : Bool) (p : ℕ) → is_open result q b p ≡ false }
    {
        Open {
            broadcast: Relation::none(),
            local: Relation::none(),
        }
    }

    /// The issuer issues a TLBI, broadcast or not, that counts at these PEs.
    pub fn issue(&mut self, issuer: Pe, broadcast: bool, pes: PeMask)
        ensures { (q : ℕ) (b : Bool) (p : ℕ) → is_open self.new q b p
            ≡ (is_open self.old q b p || (nat_eq issuer q && (same_flag b broadcast && pe_in pes p))) }
    {
        if broadcast {
            self.broadcast.add(issuer, pes);
        } else {
            self.local.add(issuer, pes);
        }
    }

    /// A DSB of the issuer answers its TLBIs. These are the PEs at which they count.
    pub fn answer(&mut self, issuer: Pe, dsb: Dsb) -> PeMask
        ensures answered { (p : ℕ) → pe_in result p ≡ ((answers dsb true && is_open self.old issuer true p)
            || (answers dsb false && is_open self.old issuer false p)) }
        ensures left { (q : ℕ) (b : Bool) (p : ℕ) → is_open self.new q b p
            ≡ (is_open self.old q b p && not (nat_eq issuer q && answers dsb b)) }
    {
        let everywhere = settle(&mut self.broadcast, issuer, completes_broadcast(dsb));
        everywhere.or(settle(&mut self.local, issuer, completes_local(dsb)))
    }
}
