//! What comes of a run.
//! Source: project's own choice, where no other is named.

ghost use Rattle.std.specs.Prelude.{◌≡◌, ◌≤◌, ◌+◌, ◌++◌, [], IfOk, IfSome, length, option_map, reverse};
ghost use Rattle.arrayvec.specs.ArrayVec.{array_vec_len};
ghost use Rattle.bbm_follow.specs.Following.{conflict_text, line_of as spec_line, followed};
ghost use Rattle.bbm_follow.specs.Following.{followed_text as text_of_followed};

use arrayvec::ArrayVec;
use bbm_events::Header;
use bbm_log_grammar::{add, add_decimal};
use bbm_regimes::NoMemory;
use bbm_tlb_machine::{FollowFault, Step, follow};
use std::alloc::Global;

/// What comes of a run that was read whole. Lines are numbered from 1.
#[derive(Clone, Copy, PartialEq, Eq)]
pub enum Followed {
    /// Each step is one of the machine's: the number of steps, and the line of the first at which a clause of a safe
    /// log fails.
    Run { steps: u64, conflict: Option<u64> },
    /// The line of the first step that is none of the machine's.
    BadStep { line: u64 },
}

/// The line of a step, by its index.
fn line_of(index: u64) -> u64
    requires { index ≤ 2000 }
    ensures { result ≡ spec_line index }
{
    index + 2
}

/// The line of a conflict, by its index.
fn conflict_line(conflict: Option<u64>) -> Option<u64>
    requires { IfSome conflict (λ index. index ≤ 2000) }
    ensures { result ≡ option_map spec_line conflict }
{
    match conflict {
        Some(index) => Some(line_of(index)),
        None => None,
    }
}

/// Follows the steps of a run, at most 2,000, the oldest first, under its header: what comes of them, or `NoMemory`.
/// Step i, counted from 0, stands on line i + 2.
#[tactic(auto, using(crate::proofs::Runs::bad_index, crate::proofs::Runs::conflict_index))]
pub fn follow_run(alloc: Global, header: &Header, steps: &Vec<Step>) -> Result<Followed, NoMemory>
    requires few { length steps.now.items ≤ 2000 }
    ensures followed { IfOk result (λ told. told ≡ followed header.now (reverse steps.now.items)) }
{
    match follow(alloc, header, steps) {
        Ok(machine) => Ok(Followed::Run {
            steps: steps.len() as u64,
            conflict: conflict_line(machine.conflict()),
        }),
        Err(FollowFault::BadStep(index)) => Ok(Followed::BadStep {
            line: line_of(index),
        }),
        Err(FollowFault::NoMemory) => Err(NoMemory),
    }
}

/// What is said of a conflict, by its line.
fn add_conflict(out: &mut ArrayVec<u8, 200>, conflict: Option<u64>)
    requires room { array_vec_len out.old ≤ 100 }
    ensures appended { out.new.items ≡ out.old.items ++ conflict_text conflict }
    ensures longer { array_vec_len out.new ≤ array_vec_len out.old + 40 }
{
    if let Some(line) = conflict {
        add(out, b" conflict line ");
        add_decimal(out, line);
    }
}

/// The text of a run of the machine.
#[tactic(auto, unfolding(crate::specs::Following::followed_text))]
fn add_run(out: &mut ArrayVec<u8, 200>, steps: u64, conflict: Option<u64>)
    requires { out.old.items ≡ [] }
    ensures { out.new.items ≡ text_of_followed (Followed.Run steps conflict) }
{
    add(out, b"run ");
    add_decimal(out, steps);
    add(out, b" steps");
    add_conflict(out, conflict);
    add(out, b"\n");
}

/// The text of a run with a step that is none.
#[tactic(auto, unfolding(crate::specs::Following::followed_text))]
fn add_bad_step(out: &mut ArrayVec<u8, 200>, line: u64)
    requires { out.old.items ≡ [] }
    ensures { out.new.items ≡ text_of_followed (Followed.BadStep line) }
{
    add(out, b"bad step line ");
    add_decimal(out, line);
    add(out, b"\n");
}

/// Puts the line that says what comes of a run, with its newline, into `out`, which is empty.
pub fn followed_text(told: Followed, out: &mut ArrayVec<u8, 200>)
    requires empty { out.old.items ≡ [] }
    ensures text { out.new.items ≡ text_of_followed told }
{
    match told {
        Followed::Run { steps, conflict } => add_run(out, steps, conflict),
        Followed::BadStep { line } => add_bad_step(out, line),
    }
}
