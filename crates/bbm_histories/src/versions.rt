//! What two versions of the log's language have in common.

ghost use Rattle.std.specs.Prelude.{◌≡◌, false, List};
ghost use Rattle.bbm_events.specs.Heading.{Heading};
ghost use Rattle.bbm_events.specs.declared.event.Event.{Event};
ghost use Rattle.bbm_rules.specs.Broken.{keeps};
ghost use Rattle.bbm_rules.specs.Claims.{Trust};
ghost use Rattle.bbm_rules.specs.Lists.{any};
ghost use Rattle.bbm_histories.specs.Versions.{in_version, sets_bit_0, verdict_of};

/// A log without bit 0 in any value that an `msr` gives to a register keeps the rules under a header of version 1
/// exactly where it does under the same header of version 2 without `cnp`; its verdicts are the same. The call does
/// nothing; the law is its contract.
#[tactic(auto, using(crate::proofs::VersionLaw::laws))]
pub fn law_version()
    ensures keeps_alike { (heading : Heading) (trust : Trust) (h : List Event) → any sets_bit_0 h ≡ false →
        keeps (in_version 1 heading) trust h ≡ keeps (in_version 2 heading) trust h }
    ensures judges_alike { (heading : Heading) (trust : Trust) (h : List Event) → any sets_bit_0 h ≡ false →
        verdict_of (in_version 1 heading) trust h ≡ verdict_of (in_version 2 heading) trust h }
{}
