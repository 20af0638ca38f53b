//! The verdict on a log.

ghost use Rattle.std.specs.Prelude.{◌≡◌, ◌≢◌, ◌⊎◌, ℕ, List};
ghost use Rattle.bbm_regimes.specs.declared.regime.Which.TheVariants.{Events};
ghost use Rattle.bbm_rules.specs.Claims.{Trust};
ghost use Rattle.bbm_rules.specs.declared.limits.Limits.{Limits as LimitsOf};
ghost use Rattle.bbm_rules.specs.Fold.{DecidedByEnd, DecidedByLine, ending_from};
ghost use Rattle.bbm_rules.specs.Outcome.{AtHeader, Judged, check_limits, judging, outcome_of, slow_limits};
ghost use Rattle.bbm_rules.specs.Outcome.{verdict_of_bytes};
ghost use Rattle.bbm_rules.specs.declared.verdict.Verdict.TheVariants.{Limit};

use crate::rule::Rule;
use bbm_events::{Label, Malformed};
use bbm_regimes::Which;

/// What a checker says of a log. A line's number counts from 1, and line 1 is the header. Source:
/// project's own choice.
#[derive(Clone, Copy, PartialEq, Eq)]
pub enum Verdict {
    /// Every line is well formed and every event keeps the rules; the number of events.
    Accepted {
        events: u64,
    },
    /// The event of this line is the first that breaks a rule; the least rule that it breaks, and the
    /// address or number that the rule names; and the label of the event, where it has one.
    Refused {
        line: u64,
        rule: Rule,
        at: u64,
        label: Option<Label>,
    },
    /// This line is the first that is malformed, and why.
    Malformed {
        line: u64,
        cause: Malformed,
    },
    /// This line reaches a limit of the program.
    Limit {
        line: u64,
        which: Which,
    },
}

/// What is said of the lines of an input, with the bytes after its last newline - the verdict, the event that it
/// refuses, and the events before it - is what the first line that decides says, and where none does, what the end
/// says. The call does nothing; the law is its contract.
pub fn law_first_line_decides()
    ensures by_line { (trust : Trust) (limits : LimitsOf) (lines : List (List ℕ)) (rest : List ℕ) (judged : Judged) →
        DecidedByLine (judging trust limits) 1 AtHeader lines judged
        → (ending_from (judging trust limits) 1 AtHeader lines rest).says ≡ judged }
    ensures by_end { (trust : Trust) (limits : LimitsOf) (lines : List (List ℕ)) (rest : List ℕ) (judged : Judged) →
        DecidedByEnd (judging trust limits) 1 AtHeader lines rest judged
        → (ending_from (judging trust limits) 1 AtHeader lines rest).says ≡ judged }
    ensures one_decides { (trust : Trust) (limits : LimitsOf) (lines : List (List ℕ)) (rest : List ℕ) →
        DecidedByLine (judging trust limits) 1 AtHeader lines
        (ending_from (judging trust limits) 1 AtHeader lines rest).says
        ⊎ DecidedByEnd (judging trust limits) 1 AtHeader lines rest
        (ending_from (judging trust limits) 1 AtHeader lines rest).says }
{}

/// Under the limits of `check` and of `slow` comes the same of every input, the verdict, the bytes that stay unread and
/// the events, wherever `slow` reaches no limit of events; and `check` reaches none. The call does nothing; the law is
/// its contract.
#[tactic(auto, using(crate::proofs::SameLimits::laws))]
pub fn law_slow_says_the_same()
    ensures same { (trust : Trust) (bytes : List ℕ) →
        ((line : ℕ) → verdict_of_bytes trust slow_limits bytes ≢ Limit line Events) →
        outcome_of trust check_limits bytes ≡ outcome_of trust slow_limits bytes }
    ensures unlimited { (trust : Trust) (bytes : List ℕ) (line : ℕ) →
        verdict_of_bytes trust check_limits bytes ≢ Limit line Events }
{}
