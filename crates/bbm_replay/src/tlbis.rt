//! TLBIs.

ghost use Rattle.bbm_events.specs.declared.event.Event.TheVariants.{Tlbi};
ghost use Rattle.bbm_replay.specs.ReplayStanding.{MayMeet, Meets};

use crate::laws::{laws, rules};
use crate::parts::ReplayState;
use crate::tlbi_cover::Covering;
use bbm_regimes::Pe;
use bbm_rules::StepFault;
use bbm_tlbi_scope::TlbiOp;
use std::alloc::Global;

impl ReplayState {
    /// A TLBI.
    pub(crate) fn tlbi(
        &mut self,
        alloc: Global,
        pe: Pe,
        op: TlbiOp,
        xt: u64,
    ) -> Result<(), StepFault>
        requires { MayMeet self.old (Tlbi pe op xt) }
        ensures { Meets self.old self.new (Tlbi pe op xt) result }
    {
        laws();
        rules();
        let named = match self.roots.judge_tlbi(pe, op, xt) {
            Ok(named) => named,
            Err(fault) => return Err(fault),
        };
        let takes = match self.roots.prepare_issue(alloc, pe, &named) {
            Ok(takes) => takes,
            Err(_) => return Err(StepFault::NoMemory),
        };
        self.map.law_idle();
        let covering = Covering {
            header: &self.header,
            index: &self.index,
            roots: &self.roots,
            named: &named,
        };
        let reach = covering.reach(pe);
        match covering.issue(alloc, &mut self.map, pe, reach) {
            Ok(()) => {
                self.map.law_idle();
                self.roots.issue_ready(pe, &named, takes);
                Ok(())
            }
            Err(_) => Err(StepFault::NoMemory),
        }
    }
}
