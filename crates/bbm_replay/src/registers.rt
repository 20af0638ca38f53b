//! Register writes, ISBs and locks.

ghost use Rattle.std.specs.Prelude.{◌≡◌, List};
ghost use Rattle.bbm_events.specs.Heading.{Heading};
ghost use Rattle.bbm_events.specs.declared.event.Event.{Event};
ghost use Rattle.bbm_events.specs.declared.event.Event.TheVariants.{Isb, Lock, Msr, Unlock};
ghost use Rattle.std.specs.Prelude.{Ok};
ghost use Rattle.bbm_roots.specs.RootRegisters.{has_null_base};
ghost use Rattle.bbm_tree_index.specs.IndexAgreement.{SharesNumbers};
ghost use Rattle.bbm_replay.specs.ReplayStanding.{MayMeet, Meets, PartsStand};

use crate::laws::laws;
use crate::parts::ReplayState;
use bbm_regimes::{Page, Pe, Reg, base_of};
use bbm_roots::law_barriers;
use bbm_rules::StepFault;
use std::alloc::Global;

impl ReplayState {
    /// Whether the base of a register value is a null page.
    fn names_null(&self, value: u64) -> bool
        requires { SharesNumbers self.now.index self.now.map }
        ensures { (heading : Heading) (h : List Event) → PartsStand self.now heading h
            → result ≡ has_null_base h value }
    {
        match base_of(value) {
            Some(base) => match Page::new(base) {
                Some(page) => self.index.is_null(&self.map, page),
                None => false,
            },
            None => false,
        }
    }

    /// A register write.
    pub(crate) fn msr(
        &mut self,
        alloc: Global,
        pe: Pe,
        reg: Reg,
        value: u64,
    ) -> Result<(), StepFault>
        requires { MayMeet self.old (Msr pe reg value) }
        ensures { Meets self.old self.new (Msr pe reg value) result }
    {
        laws();
        let null = self.names_null(value);
        self.roots.write_reg(alloc, pe, reg, value, null)
    }

    /// An ISB.
    pub(crate) fn isb(&mut self, pe: Pe)
        requires { MayMeet self.old (Isb pe) }
        ensures { Meets self.old self.new (Isb pe) (Ok tt) }
    {
        laws();
        law_barriers();
        self.roots.isb(pe);
    }

    /// The PE takes the lock.
    pub(crate) fn lock(&mut self, pe: Pe, lock: u16) -> Result<(), StepFault>
        requires { MayMeet self.old (Lock pe lock) }
        ensures { Meets self.old self.new (Lock pe lock) result }
    {
        laws();
        self.roots.lock(pe, lock)
    }

    /// The PE gives the lock back.
    pub(crate) fn unlock(&mut self, pe: Pe, lock: u16) -> Result<(), StepFault>
        requires { MayMeet self.old (Unlock pe lock) }
        ensures { Meets self.old self.new (Unlock pe lock) result }
    {
        laws();
        self.roots.unlock(pe, lock)
    }
}
