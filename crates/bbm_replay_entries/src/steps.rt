//! Laws of the state of a place after an event, by its state before it.

ghost use Rattle.bbm_events.specs.Heading.{Heading};
ghost use Rattle.bbm_replay_entries.specs.EntryLaws.{EntryDsb, EntryStays, EntryTlbi, EntryWrite};

use crate::known::known;

/// An event that doesn't touch the place leaves its state and what waits there. The law is `EntryStays`.
pub fn law_entry_stays()
    ensures { (heading : Heading) → EntryStays heading }
{
    known();
}

/// The state of a place, and what waits there, after a write of it. The law is `EntryWrite`.
pub fn law_entry_write()
    ensures { (heading : Heading) → EntryWrite heading }
{
    known();
}

/// The state of a place, and what waits there, after a DSB. The law is `EntryDsb`.
pub fn law_entry_dsb()
    ensures { (heading : Heading) → EntryDsb heading }
{
    known();
}

/// The state of a place, and what waits there, after a TLBI. The law is `EntryTlbi`.
pub fn law_entry_tlbi()
    ensures { (heading : Heading) → EntryTlbi heading }
{
    known();
}
