//! Barriers.

ghost use Rattle.std.specs.Prelude.{◌≡◌, ◌≤◌, ◌<◌, ◌&&◌, ℕ, Option, Ok, true, false};
ghost use Rattle.bbm_barriers.specs.Options as options;
ghost use Rattle.bbm_descriptor.specs.declared.desc.Core.{Core};
ghost use Rattle.bbm_entry_state.specs.EntryCalls.{Published};
ghost use Rattle.bbm_events.specs.declared.event.Event.TheVariants.{Dmb, Dsb as DsbEvent};
ghost use Rattle.bbm_place_map.specs.Map.{marks_at, pages_of, pends_at, state_at, value_at};
ghost use Rattle.bbm_replay.specs.ReplayStanding.{MayMeet, Meets};

use crate::laws::laws;
use crate::parts::ReplayState;
use bbm_barriers::{Dsb, is_non};
use bbm_events::Header;
use bbm_place_map::PlaceMap;
use bbm_regimes::{Pe, PeCount};
use bbm_roots::{law_barriers, law_others};

/// Whether the DSB publishes nothing, since TLBs may share entries and its domain is the non-shareable one.
fn is_silent(header: &Header, dsb: Dsb) -> bool
    ensures { result ≡ (header.now.cnp && options.is_non dsb.domain) }
{
    header.cnp && is_non(dsb.domain)
}

/// The DSB of the PE publishes its writes, unless it is silent.
fn publish(map: &mut PlaceMap, silent: bool, pe: Pe, dsb: Dsb, n: PeCount)
    requires pe_below { pe < n }
    ensures published { silent ≡ false → (live : Option Core) (a : ℕ)
        → Published (state_at map.old live a) pe dsb n (state_at map.new live a) }
    ensures unheard { silent ≡ true → (a : ℕ) → marks_at map.new a ≡ marks_at map.old a }
    ensures values { (a : ℕ) → value_at map.new a ≡ value_at map.old a }
    ensures pends { (q a : ℕ) → pends_at map.new q a ≡ pends_at map.old q a }
    ensures pages { pages_of map.new ≡ pages_of map.old }
{
    if !silent {
        map.publish(pe, dsb, n);
    }
}

impl ReplayState {
    /// A DMB, which changes nothing.
    pub(crate) fn dmb(&mut self, pe: Pe, dsb: Dsb)
        requires { MayMeet self.old (Dmb pe dsb) }
        ensures { Meets self.old self.new (Dmb pe dsb) (Ok tt) }
    {
        laws();
        law_barriers();
        law_others();
    }

    /// A DSB.
    pub(crate) fn dsb(&mut self, pe: Pe, dsb: Dsb)
        requires { MayMeet self.old (DsbEvent pe dsb) }
        ensures { Meets self.old self.new (DsbEvent pe dsb) (Ok tt) }
    {
        laws();
        law_barriers();
        let n = self.header.pe_count();
        let silent = is_silent(&self.header, dsb);
        publish(&mut self.map, silent, pe, dsb, n);
        self.map.complete(pe, dsb, n);
        self.index.prune(&mut self.map);
        self.roots.complete(pe, dsb);
    }
}
