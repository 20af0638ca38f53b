//! The law of the text that `counterrun` writes.

ghost use Rattle.std.specs.Prelude.{◌≡◌, ◌<◌, ℕ, List, codes, length};
ghost use Rattle.bbm_rules.specs.Claims.{Patterns};
ghost use Rattle.bbm_rules.specs.Outcome.{outcome_of, slow_limits, verdict_of_bytes};
ghost use Rattle.bbm_rules.specs.Texts.{verdict_text};
ghost use Rattle.bbm_session.specs.FollowedRuns.{IsFollowedToItsEnd};
ghost use Rattle.bbm_session.specs.Run.{IsTextOf};
ghost use Rattle.bbm_texts.specs.declared.commands.Command.TheVariants.{Show};
ghost use Rattle.bbm_texts.specs.declared.commands.Evidence.TheVariants.{Counterrun};

use bbm_counterrun::{law_conflict_at_the_end, law_run_is_short, law_steps_fit};
use bbm_events::{
    law_header_in_range, law_item_fits, law_machine_written_is_a_line, law_machine_written_is_read,
    law_written_is_a_line, law_written_is_read,
};

/// The text that `counterrun` writes for bytes, where it is neither the line of the verdict nor `none`, is a run that
/// `follow` reads to its end. Each of its steps can be made, and its first conflict is at its last step, the event that
/// is refused. At most 1,990 events come before that one: the run of more may reach the limit of steps. The call does
/// nothing; the law is its contract.
pub fn law_counterrun_is_followed()
    ensures { (bytes text : List ℕ) → IsTextOf (Show Counterrun) bytes text
        → (text ≡ verdict_text (verdict_of_bytes Patterns slow_limits bytes) → ⊥) → (text ≡ codes "none\n" → ⊥)
        → length (outcome_of Patterns slow_limits bytes).says.log < 1991 → IsFollowedToItsEnd bytes text }
{
    law_conflict_at_the_end();
    law_run_is_short();
    law_steps_fit();
    law_header_in_range();
    law_item_fits();
    law_machine_written_is_a_line();
    law_machine_written_is_read();
    law_written_is_a_line();
    law_written_is_read();
}
