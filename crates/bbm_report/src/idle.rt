//! The line of an event that a log can do without.

ghost use Rattle.std.specs.Prelude.{◌≡◌, []};
ghost use Rattle.bbm_report.specs.ReportLines.{idle_text as text_of_idle};

use arrayvec::ArrayVec;
use bbm_log_grammar::{add, add_decimal};

/// Puts the line that names line number `line` of a log, on which an event stands that the log can do without, with its
/// newline, into `out`, which is empty. Source: project's own choice.
#[tactic(auto, unfolding(crate::specs::ReportLines::idle_text))]
pub fn idle_text(line: u64, out: &mut ArrayVec<u8, 200>)
    requires { out.old.items ≡ [] }
    ensures { out.new.items ≡ text_of_idle line }
{
    add(out, b"idle line ");
    add_decimal(out, line);
    add(out, b"\n");
}
