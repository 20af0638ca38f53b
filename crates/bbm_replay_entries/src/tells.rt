//! Laws of what a state that stands for a history tells of it.

ghost use Rattle.bbm_events.specs.Heading.{Heading};
ghost use Rattle.bbm_replay_entries.specs.EntryLaws.{EntryHolds, EntryNeed, EntryPhase};

use crate::known::known;

/// Where a write breaks the rule on break-before-make, by the core of the state. The law is `EntryNeed`.
pub fn law_entry_need()
    ensures { (heading : Heading) → EntryNeed heading }
{}

/// What a place holds, by the core of its state. The law is `EntryHolds`.
pub fn law_entry_holds()
    ensures { (heading : Heading) → EntryHolds heading }
{
    known();
}

/// The phase of a place at a PE, and whether it is restless, by its state. The law is `EntryPhase`.
pub fn law_entry_phase()
    ensures { (heading : Heading) → EntryPhase heading }
{
    known();
}
