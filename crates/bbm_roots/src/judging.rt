//! What of an event is judged and not taken: an `unroot`, and a TLBI.
//! Source: project's own choice, where no other is named.

use crate::laws_below::laws_below;
use crate::named::NamedTlbi;
use crate::roots::Roots;
use crate::{registers, vmid};
use bbm_regimes::{Page, Pe, World};
use bbm_rules::{Rule, StepFault};
use bbm_tlbi_scope::{TagSet, TlbiOp, decode, lacks_vmid};

impl Roots {
    ghost use Rattle.std.specs.Prelude.{◌≡◌, ◌&&◌, ◌||◌, ℕ, List, length, nat_lt, not, true, is_some, IfOk};
    ghost use Rattle.bbm_events.specs.Heading.{Heading};
    ghost use Rattle.bbm_events.specs.declared.event.Event.{Event as TheEvent};
    ghost use Rattle.bbm_lemmas.specs.ListWords.{some_pe};
    ghost use Rattle.bbm_rules.specs.Answers.{MayAsk};
    ghost use Rattle.bbm_rules.specs.Broken.{broken};
    ghost use Rattle.bbm_rules.specs.Claims.{Patterns};
    ghost use Rattle.bbm_rules.specs.RegisterValues as values;
    ghost use Rattle.bbm_rules.specs.Roots as spec;
    ghost use Rattle.bbm_rules.specs.Rules.{is_base_at};
    ghost use Rattle.bbm_rules.specs.Tags as tags;
    ghost use Rattle.bbm_tlbi_scope.specs.Operations.{operation};
    ghost use Rattle.bbm_roots.specs.RootJudgements.{Judges, JudgesTlbi};
    ghost use Rattle.bbm_roots.specs.RootsStand.{Stands};

    /// Whether the declared root with this first page is the base of a readable register value at some PE.
    fn is_base(&self, page: Page) -> bool
        ensures { (heading : Heading) (h : List TheEvent) → Stands self.now heading h
            → is_some (spec.root_at h page) ≡ true → result ≡ some_pe heading.pes (is_base_at h page) }
    {
        laws_below();
        self.registers.first_user(page).is_some()
    }

    /// Whether the root with this first page holds a tag at some PE.
    fn holds_tag(&self, page: Page) -> bool
        ensures { (heading : Heading) (h : List TheEvent) → Stands self.now heading h
            → result ≡ nat_lt 0 (length (tags.tags_of heading Patterns page h)) }
    {
        !matches!(self.tags_of(page), TagSet::None)
    }

    /// Whether the declared root with this first page is in use, which keeps it from being retired: it is the base of a
    /// readable register value, or, under a header without `unflushed`, it holds a tag.
    fn is_used(&self, page: Page) -> bool
        ensures { (heading : Heading) (h : List TheEvent) → Stands self.now heading h
            → is_some (spec.root_at h page) ≡ true → result ≡ (some_pe heading.pes (is_base_at h page)
            || (not heading.words.unflushed && nat_lt 0 (length (tags.tags_of heading Patterns page h)))) }
    {
        self.is_base(page) || (!self.header.words.unflushed && self.holds_tag(page))
    }

    /// Judges an `unroot` of the page by the PE: Ok exactly where it breaks no rule, else `Broken` with the least rule
    /// that it breaks. Nothing changes.
    pub fn judge_unroot(&self, pe: Pe, page: Page) -> Result<(), StepFault>
        ensures { (heading : Heading) (h : List TheEvent) → Stands self.now heading h
            → Judges result (broken heading Patterns h (TheEvent.Unroot pe page)) }
    {
        laws_below();
        let at = page.get();
        if let Some(at) = self.without_lock(pe, page, at) {
            return Err(StepFault::Broken(Rule::NoLock, at));
        }
        if !self.is_declared(page) {
            return Err(StepFault::Broken(Rule::NoRoot, at));
        }
        if self.is_used(page) {
            return Err(StepFault::Broken(Rule::RootInUse, at));
        }
        Ok(())
    }

    /// The VMID under which the PE issues its TLBIs, 0 to 65535: None where two of its readable values of VTTBR_EL2
    /// have different ones; 0 in the Kernel world, where it isn't logged.
    pub fn vmid_of(&self, pe: Pe) -> Option<u16>
        requires { MayAsk (Stands self.now) pe }
        ensures { (heading : Heading) (h : List TheEvent) → Stands self.now heading h
            → result ≡ values.vmid_of heading h pe }
    {
        match self.registers.world {
            World::Hyp(_) => vmid::one_number(registers::loads_at(&self.registers.second, pe)),
            World::Kernel(_) => Some(0),
        }
    }

    /// Judges a TLBI of the PE: Ok with what it names exactly where it breaks no rule, else `Broken` with the least
    /// rule that it breaks. Nothing changes.
    pub fn judge_tlbi(&self, pe: Pe, op: TlbiOp, xt: u64) -> Result<NamedTlbi, StepFault>
        requires { MayAsk (Stands self.now) pe }
        ensures judged { (heading : Heading) (h : List TheEvent) → Stands self.now heading h
            → JudgesTlbi heading h pe op xt result }
        ensures broadcast { IfOk result (λ named. named.scope.broadcast ≡ (operation op).broadcast) }
    {
        laws_below();
        if !op.of_world(self.header.world) {
            return Err(StepFault::Broken(Rule::WrongWorld, 0));
        }
        let vmid = self.vmid_of(pe);
        if lacks_vmid(op.scoped_by_vmid(), vmid) {
            return Err(StepFault::Broken(Rule::UnsyncedVmid, pe.get() as u64));
        }
        match decode(op, xt) {
            Ok(scope) => Ok(NamedTlbi { scope, vmid }),
            Err(_) => Err(StepFault::Broken(Rule::BadOperand, xt)),
        }
    }
}
