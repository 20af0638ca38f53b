//! Laws of what claims alone make of a log.

ghost use Rattle.std.specs.Prelude.{◌≡◌, ℕ, true, List};
ghost use Rattle.bbm_events.specs.Heading.{Heading};
ghost use Rattle.bbm_events.specs.declared.claim.Claim.{Claim};
ghost use Rattle.bbm_events.specs.declared.event.Event.{Event};
ghost use Rattle.bbm_rules.specs.Broken.{keeps};
ghost use Rattle.bbm_rules.specs.Claims.Trust.{Listed};
ghost use Rattle.bbm_rules.specs.declared.rule.Rule.{Rule as TheRule};
ghost use Rattle.bbm_cert.specs.declared.judged.Judged.TheVariants.{Yes, No};
ghost use Rattle.bbm_cert.specs.Judged.{FirstBroken, judged};

/// Claims say yes exactly where each event of the log keeps the rules by them, and no, with a position, a rule and a
/// number, exactly where the event at the position is the first that breaks a rule by them, and this is the least rule
/// that it breaks. The call does nothing; the law is its contract.
pub fn law_judged()
    ensures yes { (heading : Heading) (claims : List Claim) (log : List Event) →
        keeps heading (Listed claims) log ≡ true → judged heading claims log ≡ Yes }
    ensures only { (heading : Heading) (claims : List Claim) (log : List Event) →
        judged heading claims log ≡ Yes → keeps heading (Listed claims) log ≡ true }
    ensures names { (heading : Heading) (claims : List Claim) (log : List Event) (position : ℕ) (rule : TheRule)
        (at : ℕ) →
        judged heading claims log ≡ No position rule at → FirstBroken heading claims log position rule at }
    ensures no { (heading : Heading) (claims : List Claim) (log : List Event) (position : ℕ) (rule : TheRule) (at : ℕ) →
        FirstBroken heading claims log position rule at → judged heading claims log ≡ No position rule at }
{}
