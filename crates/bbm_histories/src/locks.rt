//! Laws of locks.

ghost use Rattle.std.specs.Prelude.{◌≡◌, ◌≢◌, ℕ, true, List, ◌∷◌, ◌++◌, Some};
ghost use Rattle.bbm_events.specs.Heading.{Heading};
ghost use Rattle.bbm_events.specs.declared.event.Event.{Event};
ghost use Rattle.bbm_events.specs.declared.event.Event.TheVariants.{Write};
ghost use Rattle.bbm_rules.specs.Broken.{keeps};
ghost use Rattle.bbm_rules.specs.Claims.{Trust};
ghost use Rattle.bbm_histories.specs.LockChanges.{HandsOver, lock_at};

use crate::below::below;

/// Between two writes of different PEs at places of trees whose roots name the same lock, each at the time of its
/// write, the first PE gives the lock back, and later the second takes it. It holds of every history that keeps the
/// rules. The law is the contract.
pub fn law_lock_order()
    ensures { (heading : Heading) (trust : Trust) (h newer between older : List Event)
        (p q place other value later lock : ℕ) → keeps heading trust h ≡ true → p ≢ q →
        h ≡ newer ++ Write q other later ∷ (between ++ Write p place value ∷ older) →
        lock_at heading trust older place ≡ Some lock →
        lock_at heading trust (between ++ Write p place value ∷ older) other ≡ Some lock → HandsOver p q lock between }
{
    below();
}
