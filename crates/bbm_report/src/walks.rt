//! The line of a walk.
//! Source: project's own choice, where no other is named.

ghost use Rattle.std.specs.Prelude.{◌≡◌, []};
ghost use Rattle.bbm_descriptor.specs.declared.walk.Walk.{Walk as WalkOf};
ghost use Rattle.bbm_report.specs.ReportLines.{found_text as text_of_found, walk_text as text_of_walk};

use arrayvec::ArrayVec;
use bbm_descriptor::Walk;
use bbm_log_grammar::{add, add_decimal, add_hex};

/// Puts the line of a walk's answer, with its newline, into `out`, which is empty.
#[tactic(auto, unfolding(crate::specs::ReportLines::walk_text))]
pub fn walk_text(walk: Walk, out: &mut ArrayVec<u8, 200>)
    requires { out.old.items ≡ [] }
    ensures { out.new.items ≡ text_of_walk walk }
{
    match walk {
        Walk::Out { addr, level } => {
            add(out, b"walk out ");
            add_hex(out, addr);
            add(out, b" level ");
            add_decimal(out, level.get() as u64);
        }
        Walk::Fault { level } => {
            add(out, b"walk fault level ");
            add_decimal(out, level.get() as u64);
        }
    }
    add(out, b"\n");
}

/// Puts the line of what `walk` found, the answer, or None where there is no such root, with its newline, into `out`,
/// which is empty.
#[tactic(auto, unfolding(crate::specs::ReportLines::found_text))]
pub fn found_text(found: Option<Walk>, out: &mut ArrayVec<u8, 200>)
    requires { out.old.items ≡ [] }
    ensures { out.new.items ≡ text_of_found found }
{
    match found {
        Some(walk) => walk_text(walk, out),
        None => add(out, b"walk no-root\n"),
    }
}
