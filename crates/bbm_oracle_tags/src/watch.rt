//! A walk over the events that watches one tag at one PE.

ghost use Rattle.std.specs.Prelude.{◌≡◌, ℕ, not, ◌==◌, ◌&&◌, ◌||◌, false, Option, List, [], ◌∷◌, reverse, IfOk, OnOk};
ghost use Rattle.bbm_regimes.specs.PeMask.{pe_in};
ghost use Rattle.bbm_regimes.specs.declared.regime.Tag.{Tag as TheTag};
ghost use Rattle.bbm_tlbi_scope.specs.ScopeTags.{takes_whole_tag};
ghost use Rattle.bbm_tlbi_scope.specs.declared.scope.Scope.{Scope as TheScope};
ghost use Rattle.bbm_events.specs.Heading.{Heading};
ghost use Rattle.bbm_events.specs.declared.event.Event.{Event};
ghost use Rattle.bbm_rules.specs.Changes.{changes};
ghost use Rattle.bbm_rules.specs.Reach as reach;
ghost use Rattle.bbm_rules.specs.RegisterValues as registers;
ghost use Rattle.bbm_rules.specs.Tags as tags;
ghost use Rattle.bbm_oracle_tags.specs.Watches as spec;

use crate::holding::Holding;
use crate::moment::Moment;
use crate::reach::reaches;
use crate::readings::{is_read, is_read_for_some};
use crate::registers::vmid_of;
use crate::roots::gives_up;
use bbm_barriers::answers;
use bbm_events::{Event, Header};
use bbm_regimes::{NoMemory, Pe, PeMask, Tag};
use bbm_tlbi_scope::{Family, Scope, decode, whole_tag};
use std::alloc::Global;

/// One tag of a root at one PE, at a moment of a walk over the events. Source: project's own choice.
#[derive(Drop)]
pub struct Watch {
    /// What the PE may use.
    pub moment: Moment,
    /// Whether the tag is readable for the root.
    pub reads: bool,
    /// Whether it is readable for some root.
    pub reads_some: bool,
    /// Whether the declared root of the page holds the tag.
    pub holds: bool,
    /// Whether a root of the page that was given up has left the tag.
    pub left: bool,
    /// The PEs with an unanswered TLBI that isn't broadcast and takes the tag, which wasn't readable since.
    pub local: PeMask,
    /// The PEs with an unanswered broadcast TLBI that takes the tag, which wasn't readable since.
    pub broadcast: PeMask,
}

/// Whether the event may change what is readable.
pub fn changes_readings(event: &Event) -> bool
    ensures { result ≡ ((changes event.now).roots || (changes event.now).registers) }
{
    matches!(
        *event,
        Event::Root { .. } | Event::Unroot { .. } | Event::Isb { .. } | Event::Msr { .. }
    )
}

/// Whether some TLBI of the family takes the whole tag.
fn suits(family: Family, tag: Tag) -> bool
    ensures { result ≡ false → (scope : TheScope) (vmid : Option ℕ) → scope.family ≡ family
        → takes_whole_tag scope vmid tag ≡ false }
{
    match tag {
        Tag::El2 => matches!(family, Family::El2All),
        Tag::Vmid(_) => matches!(family, Family::E1All | Family::VmAll12),
        Tag::Asid(_) => matches!(family, Family::VmAll1 | Family::Asid),
        Tag::Ttbr1 => matches!(family, Family::VmAll1),
    }
}

/// Whether a TLBI of this scope by the PE, after these events, takes the whole tag.
fn takes_under(
    alloc: Global,
    header: &Header,
    before: &[Event],
    pe: Pe,
    scope: Scope,
    tag: Tag,
) -> Result<bool, NoMemory>
    ensures { IfOk result (λ takes. takes
        ≡ takes_whole_tag scope (registers.vmid_of header.now (reverse before.now) pe) tag) }
{
    if !suits(scope.family, tag) {
        return Ok(false);
    }
    let vmid = vmid_of(alloc, header, before, pe)?;
    Ok(whole_tag(scope, vmid, tag))
}

/// Whether the event, after these, is a TLBI that takes the whole tag.
fn takes_tag(
    alloc: Global,
    header: &Header,
    before: &[Event],
    event: &Event,
    tag: Tag,
) -> Result<bool, NoMemory>
    ensures { IfOk result (λ takes. takes ≡ tags.takes_tag header.now event.now (reverse before.now) tag) }
{
    match *event {
        Event::Tlbi { pe, op, xt } => match decode(op, xt) {
            Ok(scope) => takes_under(alloc, header, before, pe, scope, tag),
            Err(_) => Ok(false),
        },
        _ => Ok(false),
    }
}

/// Whether the event, after these, is a TLBI that reaches the PE and takes the whole tag. Where the tag is readable,
/// any answer will do.
fn takes(
    alloc: Global,
    header: &Header,
    before: &[Event],
    event: &Event,
    asked: &Holding,
    reads_some: bool,
) -> Result<bool, NoMemory>
    ensures { reads_some ≡ false → IfOk result (λ takes. takes ≡ (reach.reaches header.now event.now asked.now.pe
        && tags.takes_tag header.now event.now (reverse before.now) asked.now.tag)) }
{
    if reads_some || !reaches(header, event, asked.pe) {
        return Ok(false);
    }
    takes_tag(alloc, header, before, event, asked.tag)
}

/// Whether the event answers a TLBI that a PE awaits.
fn loses(event: &Event, broadcast: PeMask, local: PeMask) -> bool
    ensures { result ≡ spec.loses_by event.now (pe_in broadcast) (pe_in local) }
{
    match *event {
        Event::Dsb { pe, dsb } => {
            (answers(dsb, true) && broadcast.has(pe)) || (answers(dsb, false) && local.has(pe))
        }
        _ => false,
    }
}

/// The PEs that await a TLBI of this sort after the event, unless the tag is readable then.
fn awaiting(pes: PeMask, event: &Event, cast: bool, takes: bool) -> PeMask
    ensures { (q : ℕ) → pe_in result q ≡ spec.awaits_after cast takes false event.now q (pe_in pes q) }
{
    match *event {
        Event::Tlbi { pe, op, .. } => pes.with(pe, op.is_broadcast() == cast && takes),
        Event::Dsb { pe, dsb } => pes.without(pe, answers(dsb, cast)),
        _ => pes,
    }
}

/// The PEs that await a TLBI of this sort after the event.
fn awaiting_after(pes: PeMask, event: &Event, cast: bool, takes: bool, reads_some: bool) -> PeMask
    ensures { (q : ℕ) → pe_in result q ≡ spec.awaits_after cast takes reads_some event.now q (pe_in pes q) }
{
    if reads_some {
        PeMask::none()
    } else {
        awaiting(pes, event, cast, takes)
    }
}

/// Whether the declared root holds the tag after an event, which takes the tag away or gives the root up.
fn holds_after(reads: bool, holds: bool, lost: bool, up: bool) -> bool
    ensures { result ≡ (reads || (holds && not (up || lost))) }
{
    reads || (holds && !(up || lost))
}

/// Whether a root that was given up has left the tag after an event, before which it had or the declared root held it.
fn left_after(left: bool, holds: bool, lost: bool, up: bool) -> bool
    ensures { result ≡ ((left || (up && holds)) && not lost) }
{
    (left || (up && holds)) && !lost
}

impl Watch {
    ghost use Rattle.bbm_oracle_tags.specs.Watches.{IsWatch};

    /// The watch before any event. `NoMemory` where there is none.
    pub fn new(alloc: Global) -> Result<Watch, NoMemory>
        ensures { IfOk result (λ watch. (heading : Heading) (p root : ℕ) (tag : TheTag)
            → IsWatch heading p root tag [] watch) }
    {
        let moment = Moment::new(alloc)?;
        Ok(Watch {
            moment,
            reads: false,
            reads_some: false,
            holds: false,
            left: false,
            local: PeMask::none(),
            broadcast: PeMask::none(),
        })
    }

    /// What the PE may use after the event, and what is readable then.
    fn look(
        &mut self,
        alloc: Global,
        header: &Header,
        event: &Event,
        asked: &Holding,
    ) -> Result<(), NoMemory>
        ensures looks { OnOk result ((h : List Event)
            → spec.Looks header.now asked.now.pe asked.now.root asked.now.tag h self.old
            → spec.Looks header.now asked.now.pe asked.now.root asked.now.tag (event.now ∷ h) self.new) }
        ensures holds { self.new.holds ≡ self.old.holds }
        ensures left { self.new.left ≡ self.old.left }
        ensures local { self.new.local ≡ self.old.local }
        ensures broadcast { self.new.broadcast ≡ self.old.broadcast }
    {
        self.moment.take(header, event, asked.pe)?;
        if changes_readings(event) {
            let readings = self.moment.readings(alloc, header)?;
            self.reads = is_read(&readings, asked.tag, asked.root);
            self.reads_some = is_read_for_some(&readings, asked.tag);
        }
        Ok(())
    }

    /// The watch after one more event, where those before it are given. `NoMemory` where there is none.
    pub fn take(
        &mut self,
        alloc: Global,
        header: &Header,
        before: &[Event],
        event: &Event,
        asked: &Holding,
    ) -> Result<(), NoMemory>
        ensures { OnOk result (
            IsWatch header.now asked.now.pe asked.now.root asked.now.tag (reverse before.now) self.old
            → IsWatch header.now asked.now.pe asked.now.root asked.now.tag (event.now ∷ reverse before.now) self.new) }
    {
        let whole = takes(alloc, header, before, event, asked, self.reads_some)?;
        let lost = loses(event, self.broadcast, self.local);
        let up = gives_up(event, asked.root);
        self.look(alloc, header, event, asked)?;
        self.left = left_after(self.left, self.holds, lost, up);
        self.holds = holds_after(self.reads, self.holds, lost, up);
        self.local = awaiting_after(self.local, event, false, whole, self.reads_some);
        self.broadcast = awaiting_after(self.broadcast, event, true, whole, self.reads_some);
        Ok(())
    }
}
