//! A line of a run, taken.
//! Source: project's own choice, where no other is named.

ghost use Rattle.std.specs.Prelude.{◌≡◌, ◌≤◌, ◌+◌, ℕ, Ok, reverse, length};
ghost use Rattle.bbm_events.specs.Heading.{Heading};
ghost use Rattle.bbm_follow.specs.Following.{TakesLine, after_item, after_line, after_machine, after_step, event_count};
ghost use Rattle.bbm_follow.specs.Following as following;

use bbm_events::{Header, Item, MachineLine, Malformed};
use bbm_log_grammar::{LineFault, Turn, read_event, read_machine};
use bbm_regimes::Which;
use bbm_tlb_machine::Step;

/// The most events and machine steps of a run.
const STEPS: usize = 2000;

/// Whether a line is a machine line: its first field is `m`.
fn is_machine(line: &[u8]) -> bool
    ensures { result ≡ following.is_machine line.now }
{
    if line.len() == 1 {
        line[0] == b'm'
    } else {
        line.len() >= 2 && line[0] == b'm' && line[1] == b' '
    }
}

/// The number of events among steps.
fn count_events(steps: &[Step]) -> u64
    ensures { result ≡ event_count (reverse steps.now) }
{
    let mut count = 0;
    for step in steps {
        if let Step::Event(_) = step {
            count += 1;
        }
    }
    count
}

/// One more step.
fn take_step(steps: &mut Vec<Step>, step: &Step) -> Result<Turn, LineFault>
    ensures says { (number : ℕ) (heading : Heading) → TakesLine number heading (reverse steps.old.items)
        (reverse steps.new.items) result (after_step number heading (reverse steps.old.items) step.now) }
    ensures short { length steps.old.items ≤ 2000 → length steps.new.items ≤ 2000 }
    ensures counted { result ≡ Ok Turn.Taken → length steps.new.items ≡ length steps.old.items + 1 }
{
    if steps.len() >= STEPS {
        return Err(LineFault::Limit(Which::Steps));
    }
    let pushed = match step {
        Step::Machine(line) => steps.push(Step::Machine(*line)),
        Step::Event(event) => steps.push(Step::Event(*event)),
    };
    match pushed {
        Ok(()) => Ok(Turn::Taken),
        Err(_) => Err(LineFault::NoMemory),
    }
}

/// What a line that is no machine line decides, by what was read of it. A label says nothing here.
fn take_item(steps: &mut Vec<Step>, read: Result<Item, Malformed>) -> Result<Turn, LineFault>
    ensures says { (number : ℕ) (heading : Heading) → TakesLine number heading (reverse steps.old.items)
        (reverse steps.new.items) result (after_item number heading (reverse steps.old.items) read) }
    ensures short { length steps.old.items ≤ 2000 → length steps.new.items ≤ 2000 }
    ensures counted { result ≡ Ok Turn.Taken → length steps.new.items ≡ length steps.old.items + 1 }
{
    match read {
        Ok(Item::Event(event, _)) => take_step(steps, &Step::Event(event)),
        Ok(Item::End(count)) => {
            if u64::from(count) == count_events(steps) {
                Ok(Turn::End)
            } else {
                Err(LineFault::Malformed(Malformed::WrongCount))
            }
        }
        Err(cause) => Err(LineFault::Malformed(cause)),
    }
}

/// What a machine line decides, by what was read of it.
fn take_machine(
    steps: &mut Vec<Step>,
    read: Result<MachineLine, Malformed>,
) -> Result<Turn, LineFault>
    ensures says { (number : ℕ) (heading : Heading) → TakesLine number heading (reverse steps.old.items)
        (reverse steps.new.items) result (after_machine number heading (reverse steps.old.items) read) }
    ensures short { length steps.old.items ≤ 2000 → length steps.new.items ≤ 2000 }
    ensures counted { result ≡ Ok Turn.Taken → length steps.new.items ≡ length steps.old.items + 1 }
{
    match read {
        Ok(line) => take_step(steps, &Step::Machine(line)),
        Err(cause) => Err(LineFault::Malformed(cause)),
    }
}

/// Takes a line of at most 200 bytes and without its newline, that stands between the header and the end.
/// `steps` are those of the lines before it, the oldest first, of at most 2,000. A line whose first field is `m` is a
/// step of a machine, and any other is an event or the end. `Taken`: the line's step was added to `steps`. `End`: the
/// line is the end, with the right count of the events; no step was added. `Malformed`: by the first cause. `Limit`: the
/// line is a step behind 2,000 others. `NoMemory`: the line is a step, for which there was none. Labels say
/// nothing here, and no event is judged.
pub fn take_line(header: &Header, steps: &mut Vec<Step>, line: &[u8]) -> Result<Turn, LineFault>
    ensures says { (number : ℕ) → TakesLine number header.now (reverse steps.old.items) (reverse steps.new.items)
        result (after_line number (following.AtSteps header.now (reverse steps.old.items)) line.now) }
    ensures short { length steps.old.items ≤ 2000 → length steps.new.items ≤ 2000 }
    ensures counted { result ≡ Ok Turn.Taken → length steps.new.items ≡ length steps.old.items + 1 }
{
    if is_machine(line) {
        take_machine(steps, read_machine(header, line))
    } else {
        take_item(steps, read_event(header, line))
    }
}
