//! The line of a log that was judged by its certificate.

ghost use Rattle.std.specs.Prelude.{◌≡◌, []};
ghost use Rattle.bbm_report.specs.ReportLines.{unverified_text as text_of_unverified};
ghost use Rattle.bbm_report.specs.ReportLines.{verified_text as text_of_verified};

use crate::names::rule_words;
use arrayvec::ArrayVec;
use bbm_log_grammar::{add, add_decimal, add_hex};
use bbm_rules::Rule;

/// Puts the line of a log that keeps the rules by the claims of its certificate, with its newline, into `out`, which is
/// empty. Source: project's own choice.
#[tactic(auto, unfolding(crate::specs::ReportLines::verified_text))]
pub fn verified_text(events: u64, claims: u64, out: &mut ArrayVec<u8, 200>)
    requires { out.old.items ≡ [] }
    ensures { out.new.items ≡ text_of_verified events claims }
{
    add(out, b"verified ");
    add_decimal(out, events);
    add(out, b" events ");
    add_decimal(out, claims);
    add(out, b" claims\n");
}

/// Puts the line of a log that doesn't, with its newline, into `out`, which is empty: the line of the first event that
/// breaks a rule by those claims, the least rule that it breaks, and the address or number that is reported with it.
#[tactic(auto, unfolding(crate::specs::ReportLines::unverified_text))]
pub fn unverified_text(line: u64, rule: Rule, at: u64, out: &mut ArrayVec<u8, 200>)
    requires { out.old.items ≡ [] }
    ensures { out.new.items ≡ text_of_unverified line rule at }
{
    add(out, b"unverified line ");
    add_decimal(out, line);
    add(out, b" rule ");
    add(out, rule_words(rule));
    add(out, b" at ");
    add_hex(out, at);
    add(out, b"\n");
}
