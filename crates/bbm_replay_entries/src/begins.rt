//! Laws of a place that comes into a tree, and of what waits there.

ghost use Rattle.bbm_events.specs.Heading.{Heading};
ghost use Rattle.bbm_replay_entries.specs.EntryLaws.{EntryAlike, EntryBegins};

use crate::known::known;

/// A place of a fresh page, and one of a page that the event attaches, stands by its value alone. The law is
/// `EntryBegins`.
pub fn law_entry_begins()
    ensures { (heading : Heading) → EntryBegins heading }
{
    known();
}

/// Only the points of the pendings count, and those only where the place is broken. The law is `EntryAlike`.
pub fn law_entry_alike()
    ensures { (heading : Heading) → EntryAlike heading }
{}
