//! Laws of conflict runs.

ghost use Rattle.std.specs.Prelude.{◌≡◌, ◌≤◌, ◌<◌, ◌+◌, ◌^◌, ◌∷◌, ℕ, true, List, Option, length, reverse};
ghost use Rattle.bbm_counterrun.specs.Plans.{EndsInConflict, Finds, IsConflictRun, IsFirst, IsPlain, Plan, run_of};
ghost use Rattle.bbm_counterrun.specs.RefusedWrite.{holds_leaf};
ghost use Rattle.bbm_counterrun.specs.RunSteps.{step_fits};
ghost use Rattle.bbm_counterrun.specs.Tested.{PlainIsTested};
ghost use Rattle.bbm_events.specs.Heading.{Heading, heading_ok};
ghost use Rattle.bbm_events.specs.declared.event.Event.{Event};
ghost use Rattle.bbm_events.specs.declared.event.Event.TheVariants.{Write};
ghost use Rattle.bbm_rules.specs.Broken.{keeps};
ghost use Rattle.bbm_rules.specs.Claims.{Trust, Patterns};
ghost use Rattle.bbm_rules.specs.Lists.{every};
ghost use Rattle.bbm_tlb_machine.specs.MachineRun.{IsRun, State};
ghost use Rattle.bbm_tlb_machine.specs.Safe.{IsLog};
ghost use Rattle.bbm_tlb_machine.specs.declared.step.Step.{Step};

use crate::least_list::law_least_reads;
use bbm_histories::law_proper;
use bbm_rules::{law_readable_register, law_readable_standing, law_readable_tag};
use bbm_tlb_machine::{law_conflict, law_run, law_safe};

/// The run of a plan is a plain conflict run at an event exactly where the test of the plan passes. The law
/// is `PlainIsTested`.
pub fn law_plain_is_tested()
    ensures { (heading : Heading) → PlainIsTested heading }
{
    law_run();
}

/// A conflict run at a write that comes after events which keep the rules can be followed step by step, and the first
/// step at which a clause of a safe log fails is the last one, which is the write. A log has a header that can be said,
/// and each event fits it. The call does nothing; the law is its contract.
pub fn law_conflict_at_the_end()
    ensures { (heading : Heading) (trust : Trust) (h : List Event) (pe place value : ℕ) (steps : List Step) →
        IsLog heading h → keeps heading trust h ≡ true → IsConflictRun heading h (Write pe place value) steps →
        EndsInConflict heading steps }
{
    law_run();
    law_conflict();
    law_safe();
}

/// At a write over a leaf, after events that keep the rules, one plan is first: two that are have the same start, PE,
/// kind, VMID or ASID, reads and combine. So `Finds` names one run, or none. The call does nothing; the law is its
/// contract.
pub fn law_one_run()
    ensures plan { (heading : Heading) (h : List Event) (pe place value : ℕ) (one other : Plan) →
        IsLog heading h → keeps heading Patterns h ≡ true → holds_leaf heading h place ≡ true →
        IsFirst heading h (Write pe place value) one → IsFirst heading h (Write pe place value) other → one ≡ other }
    ensures run { (heading : Heading) (h : List Event) (pe place value : ℕ) (one other : Option (List Step)) →
        IsLog heading h → keeps heading Patterns h ≡ true → holds_leaf heading h place ≡ true →
        Finds heading h (Write pe place value) one → Finds heading h (Write pe place value) other → one ≡ other }
{
    law_plain_is_tested();
    law_least_reads();
}

/// A plain conflict run has at most nine steps of the machine: a start and at most three extends, a drop of each entry
/// that they make, but for the last, and at most a combine and the drop of what it combines. All others are the events
/// of its log. The header is one that can be said. The call does nothing; the law is its contract.
pub fn law_run_is_short()
    ensures { (heading : Heading) (h : List Event) (e : Event) (plan : Plan) → heading_ok heading ≡ true →
        IsPlain heading h e plan → length (run_of plan (reverse (e ∷ h))) ≤ length (e ∷ h) + 9 }
{
    law_plain_is_tested();
    law_proper();
}

/// Each step of a run over a log fits the header of the log, be it an event or a step of the machine: it has a line that
/// is read again as the step. The run has fewer than 2^32 steps, since a line names an entry by a number below that. The
/// call does nothing; the law is its contract.
pub fn law_steps_fit()
    ensures { (heading : Heading) (steps : List Step) (s : State) → IsLog heading s.log → length steps < 2 ^ 32 →
        IsRun heading steps s → every (step_fits heading) steps ≡ true }
{
    law_readable_register();
    law_readable_standing();
    law_readable_tag();
}
