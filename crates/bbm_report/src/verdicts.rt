//! The line of a verdict.

ghost use Rattle.std.specs.Prelude.{◌≡◌, []};
ghost use Rattle.bbm_rules.specs.Texts.{verdict_text as text_of_verdict};

use crate::names::{cause_words, limit_words, rule_words};
use arrayvec::ArrayVec;
use bbm_events::{Label, Malformed};
use bbm_log_grammar::{add, add_decimal, add_hex, add_label};
use bbm_regimes::Which;
use bbm_rules::{Rule, Verdict};

/// The text of a refusal.
#[tactic(auto, unfolding(bbm_rules::specs::Texts::verdict_text), using(crate::proofs::Labels::label_as_written))]
fn add_refused(out: &mut ArrayVec<u8, 200>, line: u64, rule: Rule, at: u64, label: Option<Label>)
    requires { out.old.items ≡ [] }
    ensures { out.new.items ≡ text_of_verdict (Verdict.Refused line rule at label) }
{
    add(out, b"refused line ");
    add_decimal(out, line);
    add(out, b" rule ");
    add(out, rule_words(rule));
    add(out, b" at ");
    add_hex(out, at);
    add_label(out, label);
    add(out, b"\n");
}

/// The text of a malformed line.
#[tactic(auto, unfolding(bbm_rules::specs::Texts::verdict_text))]
fn add_malformed(out: &mut ArrayVec<u8, 200>, line: u64, cause: Malformed)
    requires { out.old.items ≡ [] }
    ensures { out.new.items ≡ text_of_verdict (Verdict.Malformed line cause) }
{
    add(out, b"malformed line ");
    add_decimal(out, line);
    add(out, b" cause ");
    add(out, cause_words(cause));
    add(out, b"\n");
}

/// The text of a limit.
#[tactic(auto, unfolding(bbm_rules::specs::Texts::verdict_text))]
fn add_limit(out: &mut ArrayVec<u8, 200>, line: u64, which: Which)
    requires { out.old.items ≡ [] }
    ensures { out.new.items ≡ text_of_verdict (Verdict.Limit line which) }
{
    add(out, b"limit line ");
    add_decimal(out, line);
    add(out, b" ");
    add(out, limit_words(which));
    add(out, b"\n");
}

/// The text of an accepted log.
#[tactic(auto, unfolding(bbm_rules::specs::Texts::verdict_text))]
fn add_accepted(out: &mut ArrayVec<u8, 200>, events: u64)
    requires { out.old.items ≡ [] }
    ensures { out.new.items ≡ text_of_verdict (Verdict.Accepted events) }
{
    add(out, b"accepted ");
    add_decimal(out, events);
    add(out, b" events\n");
}

/// Puts the line of a verdict, with its newline, into `out`, which is empty. Source: project's own choice.
pub fn verdict_text(verdict: Verdict, out: &mut ArrayVec<u8, 200>)
    requires { out.old.items ≡ [] }
    ensures { out.new.items ≡ text_of_verdict verdict }
{
    match verdict {
        Verdict::Accepted { events } => add_accepted(out, events),
        Verdict::Refused {
            line,
            rule,
            at,
            label,
        } => add_refused(out, line, rule, at, label),
        Verdict::Malformed { line, cause } => add_malformed(out, line, cause),
        Verdict::Limit { line, which } => add_limit(out, line, which),
    }
}
