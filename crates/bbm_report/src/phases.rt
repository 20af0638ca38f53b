//! The line of a phase.

ghost use Rattle.std.specs.Prelude.{◌≡◌, []};
ghost use Rattle.bbm_report.specs.ReportLines.{phase_text as text_of_phase};

use crate::names::phase_word;
use arrayvec::ArrayVec;
use bbm_log_grammar::{add, add_decimal};
use bbm_regimes::Pe;
use bbm_rules::Phase;

/// Puts the line of a PE and of the phase of a place there, with its newline, into `out`, which is empty. Source:
/// project's own choice.
#[tactic(auto, unfolding(crate::specs::ReportLines::phase_text))]
pub fn phase_text(pe: Pe, phase: Phase, out: &mut ArrayVec<u8, 200>)
    requires { out.old.items ≡ [] }
    ensures { out.new.items ≡ text_of_phase pe phase }
{
    add(out, b"pe ");
    add_decimal(out, pe.get() as u64);
    add(out, b" ");
    add(out, phase_word(phase));
    add(out, b"\n");
}
