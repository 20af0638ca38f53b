//! What is kept of the claims that are true of a log: by the write of a place since which they are.

ghost use Rattle.std.specs.Prelude.{◌≡◌, ◌<◌, ◌&&◌, ◌||◌, ◌==◌, nat_lt, ℕ, length, map, reverse, get_or, IfSome, IfOk};
ghost use Rattle.std.specs.Prelude.{OnOk};
ghost use Rattle.bbm_regimes.specs.PeMask.{pe_in};
ghost use Rattle.bbm_rules.specs.Lists.{any};
ghost use Rattle.bbm_rules.specs.Notes.{topped as at_top};
ghost use Rattle.bbm_oracle_patterns.specs.Kept.{note_of, notes_of};
ghost use Rattle.bbm_claims.specs.declared.cleansings.Cleansing.{Cleansing as Entry};
ghost use Rattle.bbm_claims.specs.Cleansings.{ends_now, is_barrier, tells};

use crate::marks::{completed_since, end_of};
use bbm_events::{Claim, Event, Header};
use bbm_oracle_patterns::Kept;
use bbm_regimes::{NoMemory, Pe, PeMask, Place};
use std::alloc::Global;

/// The PEs at which a place is cleansed since a write of it, by claims that are true. Source: project's own choice.
#[derive(Clone, Copy)]
pub struct Cleansing {
    /// The place.
    pub place: Place,
    /// How many events there are up to the write.
    pub since: usize,
    /// The PEs.
    pub pes: PeMask,
}

/// The index of what is kept of this write of the place; None where nothing is.
fn find(kept: &[Cleansing], place: Place, since: usize) -> Option<usize>
    ensures { IfSome result (λ i. (i < length kept.now) × ((d : Entry)
        → (get_or kept.now i d).place ≡ place) × ((d : Entry)
        → (get_or kept.now i d).since ≡ since)) }
{
    kept.iter().position(|cleansing| cleansing.place == place && cleansing.since == since)
}

/// Keeps that the place is cleansed at the PE since the write.
fn add(kept: &mut Vec<Cleansing>, place: Place, pe: Pe, since: usize) -> Result<(), NoMemory>
    ensures { OnOk result ((a p n : ℕ) → tells kept.new.items a p n
        ≡ (tells kept.old.items a p n || ((place == a && nat_lt n since) && pe == p))) }
{
    match find(kept, place, since) {
        Some(i) => {
            kept[i].pes = kept[i].pes.or(PeMask::one(pe));
            Ok(())
        }
        None => {
            let pes = PeMask::one(pe);
            kept.push(Cleansing { place, since, pes })?;
            Ok(())
        }
    }
}

/// Keeps what a claim of the place and the PE says that ends with this event, which comes behind the log.
fn add_since(kept: &mut Vec<Cleansing>, place: Place, pe: Pe, since: usize) -> Result<(), NoMemory>
    ensures { OnOk result ((a p n : ℕ) → tells kept.new.items a p n
        ≡ (tells kept.old.items a p n || ((pe == p && place == a) && nat_lt n since))) }
{
    if since > 0 {
        add(kept, place, pe, since)
    } else {
        Ok(())
    }
}

/// Keeps what the claim says, where it ends with this event, which comes behind the log.
fn add_claim(
    header: &Header,
    log: &[Kept],
    newest: &Event,
    claim: &Claim,
    kept: &mut Vec<Cleansing>,
) -> Result<(), NoMemory>
    ensures { OnOk result ((a p n : ℕ) → tells kept.new.items a p n
        ≡ (tells kept.old.items a p n || ends_now header.now newest.now (notes_of (reverse log.now)) a p n claim.now)) }
{
    if end_of(claim) as usize != log.len() + 1 {
        return Ok(());
    }
    match *claim {
        Claim::Place { pe, place, .. } => {
            add_since(kept, place, pe, completed_since(header, log, newest, claim))
        }
        Claim::Two { pe, place, .. } => {
            add_since(kept, place, pe, completed_since(header, log, newest, claim))
        }
        Claim::Taken { .. } => Ok(()),
    }
}

/// Keeps what each of the claims says that ends with this event.
fn add_claims(
    header: &Header,
    log: &[Kept],
    newest: &Event,
    claims: &[Claim],
    kept: &mut Vec<Cleansing>,
) -> Result<(), NoMemory>
    ensures { OnOk result ((a p n : ℕ) → tells kept.new.items a p n
        ≡ (tells kept.old.items a p n
        || any (ends_now header.now newest.now (notes_of (reverse log.now)) a p n) claims.now)) }
{
    for claim in claims {
        add_claim(header, log, newest, claim, kept)?;
    }
    Ok(())
}

/// Whether the event is a DSB.
fn is_dsb(event: &Event) -> bool
    ensures { result ≡ is_barrier event.now }
{
    matches!(*event, Event::Dsb { .. })
}

/// Keeps what each of the claims says that ends with this event, which comes behind the log. Only a DSB ends one.
/// `NoMemory` where there is none.
pub fn add_completed(
    header: &Header,
    log: &[Kept],
    newest: &Event,
    claims: &[Claim],
    kept: &mut Vec<Cleansing>,
) -> Result<(), NoMemory>
    ensures { OnOk result ((a p n : ℕ) → tells kept.new.items a p n
        ≡ (tells kept.old.items a p n
        || any (ends_now header.now newest.now (notes_of (reverse log.now)) a p n) claims.now)) }
{
    if is_dsb(newest) {
        add_claims(header, log, newest, claims, kept)
    } else {
        Ok(())
    }
}

/// The event as if it covered each place as far as its top cover says.
fn topped(alloc: Global, kept: &Kept) -> Result<Kept, NoMemory>
    ensures { IfOk result (λ top. (before : ℕ) → note_of before top ≡ at_top (note_of before kept.now)) }
{
    let covers = kept.tops.to_vec(alloc)?;
    let tops = kept.tops.to_vec(alloc)?;
    Ok(Kept {
        event: kept.event,
        covers,
        tops,
    })
}

/// The log as if each event covered each place as far as its top cover says.
fn all_topped(alloc: Global, log: &[Kept]) -> Result<Vec<Kept>, NoMemory>
    ensures { IfOk result (λ tops. notes_of (reverse tops.items) ≡ map at_top (notes_of (reverse log.now))) }
{
    let mut tops = Vec::new(alloc);
    for kept in log {
        let top = topped(alloc, kept)?;
        tops.push(top)?;
    }
    Ok(tops)
}

/// Keeps what each of the claims says of top covers that ends with this event, which comes behind the log. `NoMemory`
/// where there is none.
pub fn add_above(
    alloc: Global,
    header: &Header,
    log: &[Kept],
    newest: &Event,
    claims: &[Claim],
    kept: &mut Vec<Cleansing>,
) -> Result<(), NoMemory>
    ensures { OnOk result ((a p n : ℕ) → tells kept.new.items a p n
        ≡ (tells kept.old.items a p n
        || any (ends_now header.now newest.now (map at_top (notes_of (reverse log.now))) a p n) claims.now)) }
{
    if !is_dsb(newest) {
        return Ok(());
    }
    let tops = all_topped(alloc, log)?;
    add_claims(header, &tops, newest, claims, kept)?;
    Ok(())
}

/// The PEs at which the place is cleansed since a write of it that is among the events from this index on.
pub fn cleansed_since(kept: &[Cleansing], from: usize, place: Place) -> PeMask
    ensures { (p : ℕ) → pe_in result p ≡ tells kept.now place p from }
{
    let mut pes = PeMask::none();
    for cleansing in kept {
        if cleansing.place == place && from < cleansing.since {
            pes = pes.or(cleansing.pes);
        }
    }
    pes
}

/// A copy. `NoMemory` where there is none.
pub fn copied(alloc: Global, kept: &[Cleansing]) -> Result<Vec<Cleansing>, NoMemory>
    ensures { IfOk result (λ copy. copy.items ≡ kept.now) }
{
    let copy = kept.to_vec(alloc)?;
    Ok(copy)
}
