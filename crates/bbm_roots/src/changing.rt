//! Events that are taken: roots, barriers, TLBIs and locks.
//! Source: project's own choice, where no other is named.

use crate::laws_below::laws_below;
use crate::named::NamedTlbi;
use crate::root::Declared;
use crate::roots::Roots;
use crate::{hold, issue, pending};
use bbm_barriers::Dsb;
use bbm_regimes::{Kind, NoMemory, Page, Pe, Which};
use bbm_rules::{Rule, StepFault};
use bbm_tlbi_scope::Scope;
use std::alloc::Global;

/// The number of roots that may be declared at one time.
const MAX_ROOTS: usize = 1024;

impl Roots {
    ghost use Rattle.std.specs.Prelude.{◌≡◌, ◌≢◌, ◌<◌, ◌↔◌, ◌||◌, not, ℕ, List, ◌∷◌, Option, None, Some, true, Err};
    ghost use Rattle.std.specs.Prelude.{IfOk, IfErr, OnOk};
    ghost use Rattle.bbm_regimes.specs.PeMask.{pe_in};
    ghost use Rattle.bbm_events.specs.Heading.{Heading};
    ghost use Rattle.bbm_events.specs.declared.event.Event.{Event as TheEvent};
    ghost use Rattle.bbm_rules.specs.Answers.{MayAsk};
    ghost use Rattle.bbm_rules.specs.Broken.{broken};
    ghost use Rattle.bbm_rules.specs.Claims.{Patterns};
    ghost use Rattle.bbm_rules.specs.Limits.{limit_of};
    ghost use Rattle.bbm_tlbi_scope.specs.declared.op.TlbiOp.{TlbiOp as TheOp};
    ghost use Rattle.bbm_roots.specs.RootChanges.{Completes, Keeps, Takes, TakesWhere, Tries};
    ghost use Rattle.bbm_roots.specs.RootJudgements.{IsNamed, Judges};
    ghost use Rattle.bbm_roots.specs.RootsStand.{HasRoom, IsReady, Stands};

    /// Makes room for one more root. `Limit(Roots)` exactly where 1,024 are declared; else `NoMemory` where there is
    /// none. Nothing else changes. After Ok there is room for the next `declare`.
    pub fn prepare(&mut self, _alloc: Global) -> Result<(), StepFault>
        ensures room { OnOk result (HasRoom self.new) }
        ensures limit { (heading : Heading) (h : List TheEvent) (pe : ℕ) (kind : Kind) (lock : Option ℕ) (page : ℕ)
            → Stands self.old heading h
            → (result ≡ Err (StepFault.Limit Which.Roots))
            ↔ (limit_of h (TheEvent.Root pe kind lock page) ≡ Some Which.Roots) }
        ensures fault { IfErr result (λ fault. fault ≢ StepFault.Limit Which.Roots → fault ≡ StepFault.NoMemory) }
        ensures kept { Keeps self.old self.new }
    {
        if self.declared.len() >= MAX_ROOTS {
            return Err(StepFault::Limit(Which::Roots));
        }
        match self.declared.reserve(1) {
            Ok(()) => Ok(()),
            Err(_) => Err(StepFault::NoMemory),
        }
    }

    /// A `root` that breaks no rule: it declares a root of the kind with this first page, and its lock or none. There
    /// is room for it, as after Ok of `prepare`, where no call since then took it.
    pub fn declare(&mut self, kind: Kind, page: Page, lock: Option<u16>)
        requires { HasRoom self.old }
        ensures { (pe : ℕ) (heading : Heading) (h : List TheEvent) → Stands self.old heading h
            → broken heading Patterns h (TheEvent.Root pe kind lock page) ≡ None
            → Stands self.new heading (TheEvent.Root pe kind lock page ∷ h) }
    {
        laws_below();
        match self
            .declared
            .insert(page.get(), Declared { page, kind, lock })
        {
            Ok(_) => self.names_locks |= lock.is_some(),
            Err(_) => (),
        }
    }

    /// An `unroot` that breaks no rule: it retires the declared root with this first page, which leaves the tags that
    /// it holds. It takes no memory.
    pub fn retire(&mut self, page: Page)
        ensures { (pe : ℕ) → TakesWhere (λ heading h. broken heading Patterns h (TheEvent.Unroot pe page) ≡ None)
            (TheEvent.Unroot pe page) self.old self.new }
    {
        laws_below();
        self.declared.swap_remove(&page.get());
        hold::leave(&mut self.holds, &mut self.by_root, page);
    }

    /// An ISB of the PE: its newest register values, and its newest standing, alone stay in use. It takes no memory.
    pub fn isb(&mut self, pe: Pe)
        requires { MayAsk (Stands self.old) pe }
        ensures { Takes (TheEvent.Isb pe) self.old self.new }
    {
        self.registers.sync(pe);
    }

    /// A DSB of the PE: it answers TLBIs that the PE issued, which take tags away. It takes no memory.
    #[inline]
    pub fn complete(&mut self, issuer: Pe, dsb: Dsb)
        ensures { Takes (TheEvent.Dsb issuer dsb) self.old self.new }
    {
        if self.pendings.issuers.has(issuer) {
            self.answer(issuer, dsb);
        }
    }

    /// Takes the tags away that a DSB of the issuer takes away, and forgets what it answers.
    #[inline(never)]
    fn answer(&mut self, issuer: Pe, dsb: Dsb)
        requires { pe_in self.old.pendings.issuers issuer ≡ true }
        ensures { Completes issuer dsb self.old self.new }
    {
        let waits = &mut self.pendings.waits;
        hold::release(&mut self.holds, &mut self.by_root, waits, issuer, dsb);
        pending::close(&mut self.pendings, issuer);
    }

    /// Makes room for a TLBI of the PE that names this. `NoMemory` where there is none. Nothing else changes. After Ok,
    /// which tells whether the TLBI may take a tag from a PE that holds it, `issue_ready` takes that TLBI without
    /// memory. A TLBI that takes no whole tag of the world, as one for pages, looks at nothing.
    pub fn prepare_issue(
        &mut self,
        alloc: Global,
        issuer: Pe,
        named: &NamedTlbi,
    ) -> Result<bool, NoMemory>
        ensures ready { IfOk result (λ takes. IsReady self.new issuer named.now takes) }
        ensures kept { Keeps self.old self.new }
    {
        laws_below();
        let scope = &named.scope;
        let vmid = named.vmid;
        if !issue::takes_tags(self.registers.world, scope)
            || !issue::takes_held(&self.holds, &self.registers, issuer, scope, vmid)
        {
            return Ok(false);
        }
        issue::make_room(alloc, &mut self.pendings, &self.holds, issuer, scope, vmid)?;
        Ok(true)
    }

    /// Whether a TLBI of this scope reaches some PE: it is broadcast, or TLBs don't share entries.
    fn reaches(&self, scope: &Scope) -> bool
        ensures { result ≡ (scope.now.broadcast || not self.now.header.cnp) }
    {
        scope.broadcast || !self.header.cnp
    }

    /// A TLBI of the PE that breaks no rule, names this, for which there is room, and which may take a tag from a PE
    /// that holds it or doesn't. It takes no memory. One that reaches no PE, as a local one where TLBs may share
    /// entries, changes nothing.
    pub fn issue_ready(&mut self, issuer: Pe, named: &NamedTlbi, takes: bool)
        requires { IsReady self.old issuer named.now takes }
        ensures { (op : TheOp) (xt : ℕ) → TakesWhere (λ heading h. IsNamed heading h issuer op xt named.now
            × (broken heading Patterns h (TheEvent.Tlbi issuer op xt) ≡ None)) (TheEvent.Tlbi issuer op xt)
            self.old self.new }
    {
        if !takes {
            return;
        }
        if !self.reaches(&named.scope) {
            return;
        }
        issue::note(
            &mut self.pendings,
            &self.holds,
            &self.registers,
            issuer,
            &named.scope,
            named.vmid,
        );
    }

    /// The PE takes the lock, 0 to 1,023, judged and taken. Ok exactly where that breaks no rule; else `Broken` with
    /// the least rule that it breaks, and nothing changes. It takes no memory.
    pub fn lock(&mut self, pe: Pe, lock: u16) -> Result<(), StepFault>
        requires { lock < 1024 }
        ensures judged { (heading : Heading) (h : List TheEvent) → Stands self.old heading h
            → Judges result (broken heading Patterns h (TheEvent.Lock pe lock)) }
        ensures limit { (h : List TheEvent) → limit_of h (TheEvent.Lock pe lock) ≡ None }
        ensures tried { Tries (TheEvent.Lock pe lock) self.old self.new result }
    {
        laws_below();
        match self.locks.take(pe, lock) {
            Ok(()) => Ok(()),
            Err(busy) => Err(StepFault::Broken(Rule::LockBusy, busy.0.get() as u64)),
        }
    }

    /// The PE gives the lock, 0 to 1,023, back, judged and taken. Ok exactly where that breaks no rule; else `Broken`
    /// with the least rule that it breaks, and nothing changes. It takes no memory.
    pub fn unlock(&mut self, pe: Pe, lock: u16) -> Result<(), StepFault>
        requires { lock < 1024 }
        ensures judged { (heading : Heading) (h : List TheEvent) → Stands self.old heading h
            → Judges result (broken heading Patterns h (TheEvent.Unlock pe lock)) }
        ensures limit { (h : List TheEvent) → limit_of h (TheEvent.Unlock pe lock) ≡ None }
        ensures tried { Tries (TheEvent.Unlock pe lock) self.old self.new result }
    {
        laws_below();
        match self.locks.give(pe, lock) {
            Ok(()) => Ok(()),
            Err(_) => Err(StepFault::Broken(Rule::LockNotMine, lock as u64)),
        }
    }
}
