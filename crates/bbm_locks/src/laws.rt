//! Laws of locks, for proofs above. Each function does nothing; its contract is the law.

ghost use Rattle.std.specs.Prelude.{◌≡◌, ℕ, ◌↔◌, List, Some};
ghost use Rattle.bbm_locks.specs.Holders.{Call, TookLast, holder_after};

/// After a list of accepted calls a PE holds a lock exactly where it took it, and no later call took it or gave it
/// back.
pub fn law_last_taker()
    ensures { (calls : List Call) (pe lock : ℕ) → (holder_after calls lock ≡ Some pe) ↔ TookLast calls pe lock }
{}
