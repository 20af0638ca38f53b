//! Laws of what roots stand for, for proofs above. Each function does nothing; its contract is the law.

ghost use Rattle.bbm_roots.specs.RootChanges.{BarriersPass, OthersStand};

/// Roots that stand for a history stand for it with an event more that breaks no rule and concerns no root, register,
/// tag or lock. The law is `OthersStand`.
pub fn law_others()
    ensures { OthersStand }
{}

/// A DSB, a DMB and an ISB break no rule and reach no limit. The law is `BarriersPass`.
pub fn law_barriers()
    ensures { BarriersPass }
{}
