//! Step equations of roots, fresh pages and readable values.

ghost use Rattle.std.specs.Prelude.{◌≡◌, ℕ, List, [], ◌∷◌, map};
ghost use Rattle.bbm_regimes.specs.declared.regime.Kind.{Kind};
ghost use Rattle.bbm_events.specs.Heading.{Heading};
ghost use Rattle.bbm_events.specs.declared.event.Event.{Event};
ghost use Rattle.bbm_rules.specs.Claims.{Trust};
ghost use Rattle.bbm_rules.specs.Roots.{is_root, root_at};
ghost use Rattle.bbm_rules.specs.Values.{readable_before};
ghost use Rattle.bbm_histories.specs.ValueSteps.{is_root_after, readable_writes, root_after};
ghost use Rattle.bbm_histories.specs.PositionLaws.{FreshByEvent};

use crate::below::below;

/// The root of a page after an event, and whether it is one of a kind, in every history: a `root` of the page is it, an
/// `unroot` of the page takes it away, and any other event leaves it. The call does nothing; the law is its contract.
pub fn law_root_step()
    ensures root { (e : Event) (h : List Event) (page : ℕ) → root_at (e ∷ h) page ≡ root_after page e (root_at h page) }
    ensures of_kind { (e : Event) (h : List Event) (kind : Kind) (page : ℕ) →
        is_root (e ∷ h) kind page ≡ is_root_after kind page e (is_root h kind page) }
{}

/// Which pages are fresh after an event that breaks no rule: a page in which it attaches a node isn't; of any other
/// page an init makes it so, a `null` ends it, and other events leave it. The law is `FreshByEvent`.
pub fn law_fresh_step()
    ensures { (heading : Heading) (trust : Trust) → FreshByEvent heading trust }
{
    below();
}

/// The readable values of a place at a PE are those of a list that goes from event to event, in every history: a write
/// puts its value in front, an init of the page leaves a zero, and a DSB that publishes to the PE drops what is older
/// than the newest value that its own PE wrote. The call does nothing; the law is its contract.
pub fn law_readable_step()
    ensures { (heading : Heading) (h : List Event) (place p : ℕ) → readable_before heading [] h place p
        ≡ map (λ w. w.value) (readable_writes heading place p h) }
{}
