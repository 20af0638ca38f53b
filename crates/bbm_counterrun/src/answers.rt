//! The TLBIs of a log that a DSB answers, and the entries that they must have taken by then.

ghost use Rattle.std.specs.Prelude.{◌≡◌, ◌++◌, ◌∷◌, List, length, map, filter, reverse, IfOk, OnOk};
ghost use Rattle.bbm_counterrun.specs.TlbiAnswers as spec;
ghost use Rattle.bbm_events.specs.Heading.{Heading};
ghost use Rattle.bbm_events.specs.declared.event.Event.{Event as TheEvent};
ghost use Rattle.bbm_rules.specs.Lists.{any};
ghost use Rattle.bbm_tlb_machine.specs.MachinePendings.{IsPending, is_answered as answered};

use bbm_barriers::Dsb;
use bbm_events::{Event, Header};
use bbm_regimes::{NoMemory, Pe};
use bbm_tlb_machine::{Entry, Pending, is_answered, must_leave, take_event};
use std::alloc::Global;
use std::marker::Model;

/// A TLBI that a DSB answers. A clause sees it as that of the definitions. Source: project's own choice.
#[derive(Drop)]
pub struct Answer {
    /// The TLBI.
    pub tlbi: Pending,
    /// How many events came before the DSB.
    pub before: u64,
}

impl Model for Answer {
    ghost use Rattle.bbm_counterrun.specs.TlbiAnswers.{Answer};

    ghost Value = { Answer };

    ghost view = { λ a. record { tlbi = a.tlbi; before = a.before } };
}

/// An answer of this TLBI.
fn answer_of(pending: &Pending, before: u64) -> Answer
    ensures { result ≡ record { tlbi = pending.now; before = before } }
{
    Answer {
        tlbi: Pending {
            issuer: pending.issuer,
            op: pending.op,
            xt: pending.xt,
            vmid: pending.vmid,
            before: pending.before,
        },
        before,
    }
}

/// Adds those of these TLBIs that a DSB of the PE answers, which comes after so many events.
#[tactic(auto)]
fn add_answers(
    answers: &mut Vec<Answer>,
    pendings: &[Pending],
    pe: Pe,
    dsb: Dsb,
    before: u64,
) -> Result<(), NoMemory>
    ensures { OnOk result (answers.new.items
        ≡ answers.old.items ++ map (spec.answer_at before) (filter (answered pe dsb) pendings.now)) }
{
    for pending in pendings {
        if is_answered(pe, dsb, pending) {
            answers.push(answer_of(pending, before))?;
        }
    }
    Ok(())
}

/// Adds what the event answers, which comes after so many others.
#[tactic(auto, using(crate::proofs::AnswerSteps::steps))]
fn take_answers(
    answers: &mut Vec<Answer>,
    pendings: &[Pending],
    event: &Event,
    before: u64,
) -> Result<(), NoMemory>
    ensures { OnOk result ((heading : Heading) (h : List TheEvent) → length h ≡ before
        → IsPending heading h pendings.now → spec.IsAnswers heading h answers.old.items
        → spec.IsAnswers heading (event.now ∷ h) answers.new.items) }
{
    match *event {
        Event::Dsb { pe, dsb } => add_answers(answers, pendings, pe, dsb, before),
        _ => Ok(()),
    }
}

/// Takes one more event, which comes after these.
fn take(
    alloc: Global,
    header: &Header,
    events: &[Event],
    event: &Event,
    pendings: &mut Vec<Pending>,
    answers: &mut Vec<Answer>,
) -> Result<(), NoMemory>
    ensures pending { OnOk result (IsPending header.now (reverse events.now) pendings.old.items
        → IsPending header.now (event.now ∷ reverse events.now) pendings.new.items) }
    ensures answers { OnOk result (IsPending header.now (reverse events.now) pendings.old.items
        → spec.IsAnswers header.now (reverse events.now) answers.old.items
        → spec.IsAnswers header.now (event.now ∷ reverse events.now) answers.new.items) }
{
    take_answers(answers, pendings, event, events.len() as u64)?;
    take_event(alloc, header, events, pendings, event)
}

/// The TLBIs that a DSB answers, of these events. `NoMemory` where there is none.
pub fn answers_of(alloc: Global, header: &Header, events: &[Event]) -> Result<Vec<Answer>, NoMemory>
    ensures { IfOk result (λ answers. spec.IsAnswers header.now (reverse events.now) answers.items) }
{
    let mut answers = Vec::new(alloc);
    let mut pendings = Vec::new(alloc);
    for n in 0..events.len() {
        take(
            alloc,
            header,
            &events[..n],
            &events[n],
            &mut pendings,
            &mut answers,
        )?;
    }
    Ok(answers)
}

/// Whether one of the TLBIs must have taken the entry, of those that are answered from this moment on and before that
/// one.
pub fn is_forbidden(header: &Header, answers: &[Answer], entry: &Entry, from: u64, to: u64) -> bool
    ensures { result ≡ any (spec.forbids_by header.now from to entry.now) answers.now }
{
    answers.iter().any(|answer| from <= answer.before
        && answer.before < to
        && must_leave(header, &answer.tlbi, entry))
}
