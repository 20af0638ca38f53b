//! The law of the text of a log without the lines of its idle events.

ghost use Rattle.std.specs.Prelude.{◌≡◌, ℕ, List, [], Some, flat_map, reverse};
ghost use Rattle.bbm_events.specs.Heading.{Heading};
ghost use Rattle.bbm_events.specs.declared.event.Event.{Event};
ghost use Rattle.bbm_report.specs.Further.{heading_in};
ghost use Rattle.bbm_report.specs.ReportLines.{idle_text};
ghost use Rattle.bbm_rules.specs.Claims.Trust.{Patterns};
ghost use Rattle.bbm_rules.specs.Fold.{text_of};
ghost use Rattle.bbm_rules.specs.Outcome.{outcome_of, verdict_of_bytes};
ghost use Rattle.bbm_rules.specs.declared.limits.Limits.{Limits};
ghost use Rattle.bbm_rules.specs.declared.verdict.Verdict.TheVariants.{Accepted};
ghost use Rattle.bbm_texts.specs.Shown.{idle_lines};
ghost use Rattle.bbm_session.specs.IdleLines.{StaysAccepted, idle_numbers, text_but};

use bbm_events::{
    law_header_in_range, law_item_fits, law_one_line, law_written_is_a_line, law_written_is_read,
};
use bbm_idle::law_idle;

/// A log that is accepted is accepted without the lines that `idle` lists, its count corrected, under the same limits:
/// those of `idle` and of `slow`, or those of `check`. Its events are then those that aren't idle. `idle` lists the
/// lines of these numbers, in order; and with no line taken out the text is as it was. The call does nothing; the law
/// is its contract.
pub fn law_idle_lines()
    ensures listed { (heading : Heading) (h : List Event) (count : ℕ) →
        idle_lines heading h (Accepted count) ≡ flat_map idle_text (reverse (idle_numbers heading h)) }
    ensures whole { (limits : Limits) (bytes : List ℕ) (count : ℕ) →
        verdict_of_bytes Patterns limits bytes ≡ Accepted count → text_but [] count bytes ≡ bytes }
    ensures accepted { (limits : Limits) (bytes : List ℕ) (count : ℕ) (heading : Heading) →
        verdict_of_bytes Patterns limits bytes ≡ Accepted count → heading_in (text_of bytes).lines ≡ Some heading →
        StaysAccepted limits bytes count heading (outcome_of Patterns limits bytes).says.log }
{
    law_header_in_range();
    law_item_fits();
    law_written_is_a_line();
    law_written_is_read();
    law_one_line();
    law_idle();
}
