//! Entries whose root was given up.

ghost use Rattle.std.specs.Prelude.{◌≡◌, ◌∷◌, reverse};
ghost use Rattle.bbm_rules.specs.Roots as roots;
ghost use Rattle.bbm_tlb_machine.specs.Entry as spec;

use crate::entry::Entry;
use bbm_events::{Event, Header};
use bbm_oracle_tags::gives_up;

/// Whether the root of the page was given up after the first events, as many as `since` says, where it is told whether
/// it was by these events, behind which one more comes.
fn given_up_after(found: bool, before: &[Event], event: &Event, since: u64, page: u64) -> bool
    ensures { found ≡ roots.given_up_since since page (reverse before.now)
        → result ≡ roots.given_up_since since page (event.now ∷ reverse before.now) }
{
    (since <= before.len() as u64 && gives_up(event, page)) || found
}

/// Whether the root of the page, by its address in bytes, was given up after the first events, as many as `since` says.
fn given_up_since(events: &[Event], since: u64, page: u64) -> bool
    ensures { result ≡ roots.given_up_since since page (reverse events.now) }
{
    let mut found = false;
    for (i, event) in events.iter().enumerate() {
        found = given_up_after(found, &events[..i], event, since, page);
    }
    found
}

/// Whether the header has the word `unflushed` and the entry's root was given up since its first part was read; a root
/// that is declared on the same page anew is another one. Source: project's own choice.
pub fn is_given_up(header: &Header, events: &[Event], entry: &Entry) -> bool
    ensures { result ≡ spec.is_given_up header.now (reverse events.now) entry.now }
{
    header.words.unflushed && given_up_since(events, entry.since, entry.root)
}
