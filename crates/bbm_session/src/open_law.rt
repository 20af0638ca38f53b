//! The law of the text that `counterrun` writes where a PE stands open to the refused place.

ghost use Rattle.std.specs.Prelude.{◌≡◌, ◌<◌, ℕ, true, List, Option, Some, length};
ghost use Rattle.bbm_counterrun.specs.RefusedWrite.{holds_leaf};
ghost use Rattle.bbm_events.specs.Heading.{Heading};
ghost use Rattle.bbm_events.specs.declared.event.Event.TheVariants.{Write};
ghost use Rattle.bbm_counterrun.specs.StandsOpen.{StandsOpen};
ghost use Rattle.bbm_report.specs.Further.{heading_in};
ghost use Rattle.bbm_rules.specs.Claims.{Patterns};
ghost use Rattle.bbm_rules.specs.Fold.{text_of};
ghost use Rattle.bbm_rules.specs.Outcome.{outcome_of, slow_limits};
ghost use Rattle.bbm_rules.specs.declared.rule.Rule.TheVariants.{BreakBeforeMake};
ghost use Rattle.bbm_rules.specs.declared.verdict.Verdict.TheVariants.{Refused};
ghost use Rattle.bbm_session.specs.FollowedRuns.{IsFollowedToItsEnd};
ghost use Rattle.bbm_session.specs.Run.{IsTextOf};
ghost use Rattle.bbm_texts.specs.declared.commands.Command.TheVariants.{Show};
ghost use Rattle.bbm_texts.specs.declared.commands.Evidence.TheVariants.{Counterrun};

use bbm_counterrun::{law_conflict_at_the_end, law_rule_is_exact, law_run_is_short, law_steps_fit};
use bbm_events::{
    law_header_in_range, law_item_fits, law_machine_written_is_a_line, law_machine_written_is_read,
    law_written_is_a_line, law_written_is_read,
};

/// Where the verdict on bytes is that an event is refused by the rule of break-before-make, that is a write at a place
/// which holds a leaf, and a PE stands open to the place, the text that `counterrun` writes is a run that `follow` reads
/// to its end; each of its steps can be made, and its first conflict is at its last step, the refused write. At most
/// 1,990 events come before that one. The call does nothing; the law is its contract.
pub fn law_open_is_written()
    ensures { (bytes text : List ℕ) (heading : Heading) (pe place value p line at : ℕ) (label : Option (List ℕ)) →
        let judged = (outcome_of Patterns slow_limits bytes).says in
        IsTextOf (Show Counterrun) bytes text → heading_in (text_of bytes).lines ≡ Some heading →
        judged.refused ≡ Some (Write pe place value) → judged.verdict ≡ Refused line BreakBeforeMake at label →
        holds_leaf heading judged.log place ≡ true → StandsOpen heading judged.log place p →
        length judged.log < 1991 → IsFollowedToItsEnd bytes text }
{
    law_rule_is_exact();
    law_conflict_at_the_end();
    law_run_is_short();
    law_steps_fit();
    law_header_in_range();
    law_item_fits();
    law_machine_written_is_a_line();
    law_machine_written_is_read();
    law_written_is_a_line();
    law_written_is_read();
}
