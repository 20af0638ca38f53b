//! The TLBIs that no DSB has answered yet, and the entries that they must have taken by then.

ghost use Rattle.std.specs.Prelude.{◌≡◌, ◌∷◌, not, filter, reverse, IfOk, OnOk};
ghost use Rattle.bbm_rules.specs.Prelude.{Tlbi};
ghost use Rattle.bbm_tlb_machine.specs.MachinePendings as spec;

use crate::entry::Entry;
use crate::living::Living;
use bbm_barriers::Dsb;
use bbm_events::{Event, Header};
use bbm_oracle_tags::{completes, reaches, vmid_of};
use bbm_regimes::{NoMemory, Pe};
use bbm_tlbi_scope::{Scope, TlbiOp, decode, takes};
use std::alloc::Global;
use std::marker::Model;

/// A TLBI that no DSB has answered yet. A clause sees it with what it names. Source: project's own choice.
#[derive(Drop)]
pub struct Pending {
    /// Its issuer.
    pub issuer: Pe,
    /// Its operation.
    pub op: TlbiOp,
    /// Its operand, 0 where it has none.
    pub xt: u64,
    /// The VMID of its issuer at its issue, None where there are several.
    pub vmid: Option<u16>,
    /// How many events came before it.
    pub before: u64,
}

impl Model for Pending {
    ghost use Rattle.bbm_tlb_machine.specs.MachinePendings.{Pending, pending_by};

    ghost Value = { Pending };

    ghost view = { λ p. pending_by p.issuer p.op p.xt p.vmid p.before };
}

impl Pending {
    /// The event that issued it.
    fn tlbi(&self) -> Event
        ensures { result ≡ self.now.tlbi }
    {
        Event::Tlbi {
            pe: self.issuer,
            op: self.op,
            xt: self.xt,
        }
    }

    /// What it names at its issue, None where it takes nothing.
    fn scope(&self) -> Option<Scope>
        ensures { result ≡ self.now.scope }
    {
        if self.op.scoped_by_vmid() && self.vmid.is_none() {
            return None;
        }
        match decode(self.op, self.xt) {
            Ok(scope) => Some(scope),
            Err(_) => None,
        }
    }
}

/// Whether the TLBI must have taken the entry by the time that it is answered.
#[tactic(auto, using(crate::proofs::PendingSteps::never))]
pub fn must_leave(header: &Header, pending: &Pending, entry: &Entry) -> bool
    ensures { result ≡ spec.must_leave header.now pending.now entry.now }
{
    match pending.scope() {
        Some(scope) => {
            reaches(header, &pending.tlbi(), entry.pe)
                && takes(scope, pending.vmid, entry.head())
                && entry.age_for(pending.op.family()) <= pending.before
        }
        None => false,
    }
}

/// Whether it must have taken one of the entries.
fn leaves_by(header: &Header, living: &[Living], pending: &Pending) -> bool
    ensures { result ≡ spec.leaves_by header.now living.now pending.now }
{
    living
        .iter()
        .any(|living| must_leave(header, pending, &living.entry))
}

/// Whether a DSB of the PE answers it.
pub fn is_answered(pe: Pe, dsb: Dsb, pending: &Pending) -> bool
    ensures { result ≡ spec.is_answered pe dsb pending.now }
{
    pending.issuer == pe && completes(dsb, &pending.tlbi())
}

/// Whether a DSB of the PE answers a TLBI that must have taken one of the entries.
pub fn leaves_any(
    header: &Header,
    living: &[Living],
    pe: Pe,
    dsb: Dsb,
    pendings: &[Pending],
) -> bool
    ensures { result ≡ spec.leaves_any header.now living.now pe dsb pendings.now }
{
    pendings.iter().any(|pending| is_answered(pe, dsb, pending)
        && leaves_by(header, living, pending))
}

/// Forgets what a DSB of the PE answers.
fn answer(pendings: &mut Vec<Pending>, pe: Pe, dsb: Dsb)
    ensures { pendings.new.items ≡ filter (λ p. not (spec.is_answered pe dsb p)) pendings.old.items }
{
    pendings.retain(|pending| !is_answered(pe, dsb, pending));
}

/// The TLBI, issued after these events.
fn issued(
    alloc: Global,
    header: &Header,
    events: &[Event],
    pe: Pe,
    op: TlbiOp,
    xt: u64,
) -> Result<Pending, NoMemory>
    ensures { IfOk result (λ pending. pending
        ≡ spec.pending_of header.now (record { tlbi = Tlbi pe op xt; before = reverse events.now })) }
{
    let vmid = vmid_of(alloc, header, events, pe)?;
    Ok(Pending {
        issuer: pe,
        op,
        xt,
        vmid,
        before: events.len() as u64,
    })
}

/// Puts the TLBI in front.
#[tactic(auto, using(std::proofs::lemmas::Grind::common_steps))]
fn put(pendings: &mut Vec<Pending>, pending: Pending) -> Result<(), NoMemory>
    ensures { OnOk result (pendings.new.items ≡ pending ∷ pendings.old.items) }
{
    pendings.insert(0, pending)?;
    Ok(())
}

/// The unanswered TLBIs after one more event, which comes after these. `NoMemory` where there is none.
#[tactic(auto, using(crate::proofs::PendingSteps::steps))]
pub fn take_event(
    alloc: Global,
    header: &Header,
    events: &[Event],
    pendings: &mut Vec<Pending>,
    event: &Event,
) -> Result<(), NoMemory>
    ensures { OnOk result (spec.IsPending header.now (reverse events.now) pendings.old.items
        → spec.IsPending header.now (event.now ∷ reverse events.now) pendings.new.items) }
{
    match *event {
        Event::Tlbi { pe, op, xt } => {
            let pending = issued(alloc, header, events, pe, op, xt)?;
            put(pendings, pending)
        }
        Event::Dsb { pe, dsb } => {
            answer(pendings, pe, dsb);
            Ok(())
        }
        _ => Ok(()),
    }
}
