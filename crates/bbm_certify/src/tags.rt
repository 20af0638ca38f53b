//! The claims of the tags that a DSB takes away.
//! Source: project's own choice.

ghost use Rattle.std.specs.Prelude.{◌≡◌, ◌<◌, ◌+◌, ◌-◌, ◌^◌, ◌∷◌, ◌&&◌, ◌||◌, ◌==◌, ℕ, List, length, reverse};
ghost use Rattle.std.specs.Prelude.{take, IfOk, OnOk};
ghost use Rattle.bbm_regimes.specs.declared.regime.Tag.{Tag as TheTag};
ghost use Rattle.bbm_events.specs.declared.event.Event.{Event as TheEvent};
ghost use Rattle.bbm_rules.specs.Tags.{reads};
ghost use Rattle.bbm_claims.specs.Holdings.{has as has_it};
ghost use Rattle.bbm_certify.specs.Orders.{Adds};
ghost use Rattle.bbm_certify.specs.Taken as spec;

use crate::sorted::add_claim;
use bbm_claims::holdings::add_readings;
use bbm_claims::marks::issues;
use bbm_claims::taken::{Answer, Taking, is_answered, is_readable, takes_away};
use bbm_events::{Claim, Event, Header};
use bbm_oracle_tags::{Holding, kept_at, readings_at};
use bbm_regimes::{NoMemory, Pe};
use bbm_rules::law_answered;
use std::alloc::Global;

/// Whether the event is a TLBI of the issuer, and none of the later events answers it.
fn is_open(event: &Event, later: &[Event], issuer: Pe) -> bool
    ensures { result ≡ spec.is_open issuer event.now later.now }
{
    issues(event, issuer) && !is_answered(later, issuer, event)
}

/// Whether the event of this index is a TLBI that takes the tag away by the DSB, which comes behind these events.
fn is_taking(
    alloc: Global,
    header: &Header,
    before: &[Event],
    i: usize,
    answer: &Answer,
    holding: &Holding,
) -> Result<bool, NoMemory>
    requires inside { i < length before.now }
    requires few { length before.now < 2 ^ 32 - 1 }
    ensures { IfOk result (λ does. does ≡ spec.takes header.now holding.now.pe holding.now.tag answer.now.issuer
        answer.now.dsb (reverse before.now) (i + 1)) }
{
    law_answered();
    if is_open(&before[i], &before[i + 1..], answer.issuer) {
        let taking = Taking {
            pe: holding.pe,
            tag: holding.tag,
            t: i as u32 + 1,
        };
        takes_away(alloc, header, before, answer, &taking)
    } else {
        Ok(false)
    }
}

/// The position of the first TLBI that takes the tag away by the DSB, which comes behind these events; 0 where there is
/// none.
fn first_taking(
    alloc: Global,
    header: &Header,
    before: &[Event],
    answer: &Answer,
    holding: &Holding,
) -> Result<u32, NoMemory>
    requires { length before.now < 2 ^ 32 - 1 }
    ensures { IfOk result (λ t. spec.IsFirstTaking header.now holding.now.pe holding.now.tag answer.now.issuer
        answer.now.dsb (reverse before.now) t) }
{
    law_answered();
    for i in 0..before.len() {
        let does = is_taking(alloc, header, before, i, answer, holding)?;
        if does {
            return Ok(i as u32 + 1);
        }
    }
    Ok(0)
}

/// Whether the tag is kept for the page at the PE before the last of the events, and isn't readable there after it.
fn may_lose(
    alloc: Global,
    header: &Header,
    before: &[Event],
    events: &[Event],
    holding: &Holding,
) -> Result<bool, NoMemory>
    ensures { IfOk result (λ may. may ≡ spec.may_lose header.now (reverse before.now)
        (reverse events.now) holding.now) }
{
    if holding.pe.get() >= header.pes
        || is_readable(alloc, header, events, holding.pe, holding.tag)?
    {
        return Ok(false);
    }
    kept_at(alloc, header, before, holding)
}

/// Adds the claim that the tag is taken away at the PE, where it is due at this DSB of the issuer, the last of the events.
fn add_lost(
    alloc: Global,
    header: &Header,
    before: &[Event],
    events: &[Event],
    holding: &Holding,
    due: &mut Vec<Claim>,
) -> Result<(), NoMemory>
    requires some { 0 < length events.now }
    requires few { length events.now < 2 ^ 32 }
    requires before { before.now ≡ take (length events.now - 1) events.now }
    ensures { OnOk result ((e : TheEvent) (h : List TheEvent) → reverse events.now ≡ e ∷ h
        → Adds (spec.IsTaken header.now h e holding.now) due.old.items due.new.items) }
{
    let last = events.len() - 1;
    match events[last] {
        Event::Dsb { pe: issuer, dsb } => {
            let answer = Answer { issuer, dsb };
            let t = first_taking(alloc, header, before, &answer, holding)?;
            if t == 0 {
                return Ok(());
            }
            let may = may_lose(alloc, header, before, events, holding)?;
            if !may {
                return Ok(());
            }
            let claim = Claim::Taken {
                pe: holding.pe,
                tag: holding.tag,
                t,
                d: last as u32 + 1,
            };
            add_claim(due, &claim)
        }
        _ => Ok(()),
    }
}

/// Adds the claims of tags that are due at the last of the events, where these are what was ever readable. `NoMemory`
/// where there is none.
pub fn add_tags(
    alloc: Global,
    header: &Header,
    events: &[Event],
    known: &[Holding],
    due: &mut Vec<Claim>,
) -> Result<(), NoMemory>
    requires some { 0 < length events.now }
    requires few { length events.now < 2 ^ 32 }
    ensures { OnOk result ((e : TheEvent) (h : List TheEvent) → reverse events.now ≡ e ∷ h
        → Adds (spec.AreTaken header.now h e known.now) due.old.items due.new.items) }
{
    let before = &events[..events.len() - 1];
    for holding in known {
        add_lost(alloc, header, before, events, holding, due)?;
    }
    Ok(())
}

/// Adds what is readable at the PE after the events.
fn add_read_at(
    alloc: Global,
    header: &Header,
    events: &[Event],
    known: &mut Vec<Holding>,
    pe: Pe,
) -> Result<(), NoMemory>
    ensures { OnOk result ((p root : ℕ) (tag : TheTag) → has_it known.new.items p root tag
        ≡ (has_it known.old.items p root tag
        || (pe == p && reads header.now (reverse events.now) pe tag root))) }
{
    let readings = readings_at(alloc, header, events, pe)?;
    add_readings(known, pe, &readings)
}

/// What was ever readable, after one more event, the last of these. Only a register write makes a tag readable. `NoMemory`
/// where there is none.
pub fn add_known(
    alloc: Global,
    header: &Header,
    events: &[Event],
    event: &Event,
    known: &mut Vec<Holding>,
) -> Result<(), NoMemory>
    ensures { OnOk result ((h : List TheEvent) → reverse events.now ≡ event.now ∷ h
        → spec.ReadsAreWritten header.now h event.now →
        spec.IsKnown header.now h known.old.items → spec.IsKnown header.now (event.now ∷ h) known.new.items) }
{
    match *event {
        Event::Msr { pe, .. } => add_read_at(alloc, header, events, known, pe),
        _ => Ok(()),
    }
}
