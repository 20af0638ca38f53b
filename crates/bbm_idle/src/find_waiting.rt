//! Which PEs have a needed TLBI that isn't answered.

ghost use Rattle.std.specs.Prelude.{◌≡◌, ℕ, ◌==◌, ◌&&◌, ◌||◌, not, List, [], ◌∷◌};
ghost use Rattle.bbm_events.specs.declared.event.Event.{Event as TheEvent};
ghost use Rattle.bbm_events.specs.Heading.{Heading};
ghost use Rattle.bbm_regimes.specs.PeMask.{pe_in};
ghost use Rattle.bbm_rules.specs.Lists.{any};
ghost use Rattle.bbm_rules.specs.Reach.{unanswered};
ghost use Rattle.bbm_rules.specs.Tags.{itself};
ghost use Rattle.bbm_idle.specs.Finding as spec;
ghost use Rattle.bbm_idle.specs.Idle as idle;

use bbm_barriers::{Dsb, answers};
use bbm_events::Event;
use bbm_regimes::{Pe, PeMask};

/// The PEs that have a TLBI which was needed at its issue and isn't answered yet. Source: project's own choice.
#[derive(Drop)]
pub struct Waiting {
    /// Those with such a TLBI that isn't broadcast.
    pub local: PeMask,
    /// Those with one that is.
    pub broadcast: PeMask,
}

/// The PEs with a TLBI of this sort after the event, of which is told whether it is idle.
fn waiting_after(pes: PeMask, event: &Event, cast: bool, is_idle: bool) -> PeMask
    ensures { (q : ℕ) → pe_in result q ≡ spec.waits_after cast is_idle event.now q (pe_in pes q) }
{
    match *event {
        Event::Tlbi { pe, op, .. } => pes.with(pe, op.is_broadcast() == cast && !is_idle),
        Event::Dsb { pe, dsb } => pes.without(pe, answers(dsb, cast)),
        _ => pes,
    }
}

/// Whether a DSB of the PE answers one of the TLBIs of a sort, which these PEs have.
fn answered(pes: PeMask, pe: Pe, completes: bool) -> bool
    ensures { result ≡ (completes && pe_in pes pe) }
{
    completes && pes.has(pe)
}

impl Waiting {
    /// Before any event.
    pub fn none() -> Waiting
        ensures { (heading : Heading) → spec.IsWaiting result heading [] }
    {
        Waiting {
            local: PeMask::none(),
            broadcast: PeMask::none(),
        }
    }

    /// Whether a DSB of the PE answers one of the TLBIs.
    pub fn answers(&self, pe: Pe, dsb: Dsb) -> bool
        ensures { (heading : Heading) (h : List TheEvent) → spec.IsWaiting self.now heading h
            → result ≡ any (idle.answers_needed heading dsb) (unanswered itself pe h) }
    {
        let broadcast = answered(self.broadcast, pe, answers(dsb, true));
        let local = answered(self.local, pe, answers(dsb, false));
        broadcast || local
    }

    /// Takes one more event, of which is told whether it is idle.
    pub fn take(&mut self, event: &Event, is_idle: bool)
        ensures { (heading : Heading) (h : List TheEvent) → spec.IsWaiting self.old heading h
            → is_idle ≡ idle.is_idle heading h event.now → spec.IsWaiting self.new heading (event.now ∷ h) }
    {
        self.local = waiting_after(self.local, event, false, is_idle);
        self.broadcast = waiting_after(self.broadcast, event, true, is_idle);
    }
}
