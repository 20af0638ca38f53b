//! The order in which an event is judged: the least rule that it breaks, then the limit that it reaches.
//! Source: project's own choice, where no other is named.

ghost use Rattle.std.specs.Option.{option_map_or};
ghost use Rattle.std.specs.Prelude.{◌≡◌, List, ◌∷◌, [], true, IfOk};
ghost use Rattle.bbm_events.specs.declared.event.Event.{Event as TheEvent};
ghost use Rattle.bbm_events.specs.Fits.{fits_heading};
ghost use Rattle.bbm_events.specs.Heading.{Heading};
ghost use Rattle.bbm_rules.specs.Answers.{Answers};
ghost use Rattle.bbm_rules.specs.Broken as spec;
ghost use Rattle.bbm_rules.specs.Limits as limits;
ghost use Rattle.bbm_judge.specs.Judges.{Judges, Reaches};
ghost use Rattle.bbm_oracle_trees.specs.Past.{notes};
ghost use Rattle.bbm_oracle_trees.specs.HistoryStandsFor.{StandsFor};

use crate::flaws::{Flaw, made_with};
use crate::page_rules::{not_fresh, page_in_use};
use crate::table_rules::table_mapped;
use crate::tree_rules::{break_before_make, limbo_make, no_lock, rewritten_fresh};
use bbm_events::Event;
use bbm_oracle_patterns::Evidence;
use bbm_oracle_rules::{limit_of, rules};
use bbm_oracle_trees::History;
use bbm_regimes::NoMemory;
use bbm_rules::{Rule, StepFault};
use std::alloc::Global;

/// The rules in the order of their numbers.
const RULES: [Rule; 18] = [
    Rule::WrongWorld,
    Rule::NoLock,
    Rule::NullWritten,
    Rule::BreakBeforeMake,
    Rule::LimboMake,
    Rule::NotFresh,
    Rule::RewrittenFresh,
    Rule::BadKind,
    Rule::GlobalUser,
    Rule::PageInUse,
    Rule::NoRoot,
    Rule::TagConflict,
    Rule::RootInUse,
    Rule::UnsyncedVmid,
    Rule::BadOperand,
    Rule::LockBusy,
    Rule::LockNotMine,
    Rule::TableMapped,
];

/// Whether an event that fits the header breaks the rule: the number that is reported with it, or None. `NoMemory`
/// where there is none.
fn breaks<E: Evidence>(
    alloc: Global,
    history: &History<E>,
    event: &Event,
    rule: Rule,
) -> Result<Option<u64>, NoMemory>
    requires { fits_heading history.now.heading event.now ≡ true }
    ensures { IfOk result (λ at. at
        ≡ spec.breaks history.now.heading history.now.trust (notes history.now) event.now rule) }
{
    let header = history.header();
    let events = history.events();
    match rule {
        Rule::WrongWorld => Ok(rules::wrong_world(header, event)),
        Rule::NoLock => Ok(no_lock(history, event)),
        Rule::NullWritten => Ok(rules::null_written(events, event)),
        Rule::BreakBeforeMake => Ok(break_before_make(history, event)),
        Rule::LimboMake => Ok(limbo_make(history, event)),
        Rule::NotFresh => not_fresh(alloc, history, event),
        Rule::RewrittenFresh => Ok(rewritten_fresh(history, event)),
        Rule::BadKind => made_with(alloc, history, Flaw::Contiguous, event),
        Rule::GlobalUser => made_with(alloc, history, Flaw::GlobalUser, event),
        Rule::PageInUse => page_in_use(alloc, history, event),
        Rule::NoRoot => Ok(rules::no_root(header, events, event)),
        Rule::TagConflict => rules::tag_conflict(alloc, history.evidence(), header, events, event),
        Rule::RootInUse => rules::root_in_use(alloc, history.evidence(), header, events, event),
        Rule::UnsyncedVmid => rules::unsynced_vmid(alloc, header, events, event),
        Rule::BadOperand => Ok(rules::bad_operand(event)),
        Rule::LockBusy => Ok(rules::lock_busy(events, event)),
        Rule::LockNotMine => Ok(rules::lock_not_mine(events, event)),
        Rule::TableMapped => table_mapped(alloc, history, event),
    }
}

/// Refuses the event where a number is reported with the rule.
fn refuse(rule: Rule, at: Option<u64>) -> Result<(), StepFault>
    ensures { Judges result (option_map_or (λ number. Some (record { rule = rule; at = number })) at None) }
{
    match at {
        Some(at) => Err(StepFault::Broken(rule, at)),
        None => Ok(()),
    }
}

/// Judges an event that fits the header by one rule.
fn judge_by<E: Evidence>(
    alloc: Global,
    history: &History<E>,
    event: &Event,
    rule: Rule,
) -> Result<(), StepFault>
    requires { fits_heading history.now.heading event.now ≡ true }
    ensures { Judges result
        (spec.first_broken history.now.heading history.now.trust (notes history.now) event.now (rule ∷ [])) }
{
    match breaks(alloc, history, event, rule) {
        Ok(at) => refuse(rule, at),
        Err(_) => Err(StepFault::NoMemory),
    }
}

/// The first of the rules that an event which fits the header breaks.
fn first_broken<E: Evidence>(
    alloc: Global,
    history: &History<E>,
    event: &Event,
    rules: &[Rule],
) -> Result<(), StepFault>
    requires { fits_heading history.now.heading event.now ≡ true }
    ensures { Judges result
        (spec.first_broken history.now.heading history.now.trust (notes history.now) event.now rules.now) }
{
    for rule in rules {
        judge_by(alloc, history, event, *rule)?;
    }
    Ok(())
}

/// Judges an event that fits the header: Ok where it breaks no rule, else `Broken` with the least rule that it breaks
/// and the number that is reported with it; `NoMemory` where there is none.
pub fn judge<E: Evidence>(
    alloc: Global,
    history: &History<E>,
    event: &Event,
) -> Result<(), StepFault>
    requires { fits_heading history.now.heading event.now ≡ true }
    ensures { (heading : Heading) (h : List TheEvent) → StandsFor history.now heading h
        → Judges result (spec.broken heading history.now.trust h event.now) }
{
    first_broken(alloc, history, event, &RULES)
}

/// Ok where the event reaches no limit, else `Limit` with the limit; `NoMemory` where there is none.
pub fn check_limit<E: Evidence>(
    alloc: Global,
    history: &History<E>,
    event: &Event,
) -> Result<(), StepFault>
    ensures { (heading : Heading) (h : List TheEvent) → StandsFor history.now heading h
        → Reaches result (limits.limit_of h event.now) }
{
    match limit_of(alloc, history.events(), event) {
        Ok(Some(which)) => Err(StepFault::Limit(which)),
        Ok(None) => Ok(()),
        Err(_) => Err(StepFault::NoMemory),
    }
}

/// Judges an event that fits the header: Ok where it breaks no rule and reaches no limit. A broken rule comes first.
/// `NoMemory` where there is none.
pub fn admit<E: Evidence>(
    alloc: Global,
    history: &History<E>,
    event: &Event,
) -> Result<(), StepFault>
    requires { fits_heading history.now.heading event.now ≡ true }
    ensures { (heading : Heading) (h : List TheEvent) → StandsFor history.now heading h
        → Answers result (spec.broken heading history.now.trust h event.now) (limits.limit_of h event.now) }
{
    judge(alloc, history, event)?;
    check_limit(alloc, history, event)
}
