//! The laws of the events that a log can do without.

ghost use Rattle.std.specs.Prelude.{◌≡◌, ◌<◌, ℕ, Bool, false, true, List, ◌∷◌, ◌++◌};
ghost use Rattle.bbm_events.specs.Heading.{Heading, heading_ok};
ghost use Rattle.bbm_events.specs.declared.event.Event.{Event};
ghost use Rattle.bbm_rules.specs.Broken.{broken, keeps};
ghost use Rattle.bbm_rules.specs.Claims.Trust.{Patterns};
ghost use Rattle.bbm_rules.specs.Phases.{phase_of};
ghost use Rattle.bbm_alike.specs.Alike.{Alike};
ghost use Rattle.bbm_idle.specs.Idle.{ChoosesIdle, is_idle, without, without_idle};
ghost use Rattle.bbm_idle.specs.IdleLaws.{IdleBySentence, NeededBySentence};

use crate::known::{known, terms};

/// A TLBI is needed exactly where at a PE that it reaches it takes a place of a tree further, or takes a whole tag that
/// is kept there: a root holds it, or one that was given up left it. The law is `NeededBySentence`.
pub fn law_needed()
    ensures { (heading : Heading) → NeededBySentence heading }
{
    terms();
}

/// An event is idle exactly where it is a DMB; an ISB of a PE that wrote no root register since its last one; a TLBI
/// that isn't needed; or a DSB that leaves every phase of every place, and answers no TLBI that was needed. The law is
/// `IdleBySentence`.
pub fn law_idle_event()
    ensures { (heading : Heading) → IdleBySentence heading }
{
    terms();
}

/// A log that keeps the rules keeps them without its idle events, all of them or any. It is then alike to what it was:
/// each place has the same phase at each PE, and each further event is judged alike. Without all of them no event that
/// is left is idle. The law is the contract.
pub fn law_idle()
    ensures all { (heading : Heading) (h : List Event) → heading_ok heading ≡ true →
        keeps heading Patterns h ≡ true → keeps heading Patterns (without_idle heading h) ≡ true }
    ensures any { (heading : Heading) (h : List Event) (chosen : List Event → Event → Bool) →
        heading_ok heading ≡ true → ChoosesIdle heading chosen →
        keeps heading Patterns h ≡ true → keeps heading Patterns (without chosen h) ≡ true }
    ensures alike { (heading : Heading) (h : List Event) (chosen : List Event → Event → Bool) →
        heading_ok heading ≡ true → ChoosesIdle heading chosen →
        keeps heading Patterns h ≡ true → Alike heading Patterns Patterns h (without chosen h) }
    ensures phases { (heading : Heading) (h : List Event) (chosen : List Event → Event → Bool) (place p : ℕ) →
        heading_ok heading ≡ true → ChoosesIdle heading chosen →
        keeps heading Patterns h ≡ true → p < heading.pes →
        phase_of heading Patterns (without chosen h) place p ≡ phase_of heading Patterns h place p }
    ensures judged { (heading : Heading) (h : List Event) (chosen : List Event → Event → Bool) (e : Event) →
        heading_ok heading ≡ true → ChoosesIdle heading chosen →
        keeps heading Patterns h ≡ true →
        broken heading Patterns (without chosen h) e ≡ broken heading Patterns h e }
    ensures rest { (heading : Heading) (h newer older : List Event) (e : Event) → heading_ok heading ≡ true →
        keeps heading Patterns h ≡ true → without_idle heading h ≡ newer ++ e ∷ older →
        is_idle heading older e ≡ false }
{
    known();
}
