//! Logs and claims that are read from their lines.

ghost use Rattle.std.specs.Prelude.{◌≡◌, true, IfSome};
ghost use Rattle.bbm_events.specs.Fits.{fits_heading};
ghost use Rattle.bbm_rules.specs.Lists.{every};

use bbm_events::{Claim, ClaimItem, Event, Header, Item, fits};
use bbm_log_grammar::{read_claim, read_event};
use std::alloc::Global;

/// Whether the event fits the header.
fn is_event(header: &Header, event: &Event) -> bool
    ensures { result ≡ fits_heading header.now event.now }
{
    fits(header, *event)
}

/// The event of the line, where it fits the header; None where it is none.
fn event_of(header: &Header, line: &[u8]) -> Option<Event>
    ensures { IfSome result (λ event. fits_heading header.now event ≡ true) }
{
    match read_event(header, line) {
        Ok(Item::Event(event, _)) => {
            if is_event(header, &event) {
                Some(event)
            } else {
                None
            }
        }
        _ => None,
    }
}

/// The events of the lines; None where one is none.
pub fn events_of(alloc: Global, header: &Header, lines: &[&[u8]]) -> Option<Vec<Event>>
    ensures { IfSome result (λ events. every (fits_heading header.now) events.items ≡ true) }
{
    let mut events = Vec::new(alloc);
    for line in lines {
        let event = event_of(header, line)?;
        events.push(event).ok()?;
    }
    Some(events)
}

/// The claims of the lines; None where one is none.
pub fn claims_of(alloc: Global, header: &Header, lines: &[&[u8]]) -> Option<Vec<Claim>> {
    let mut claims = Vec::new(alloc);
    for line in lines {
        match read_claim(header, line) {
            Ok(ClaimItem::Claim(claim)) => claims.push(claim).ok()?,
            _ => return None,
        }
    }
    Some(claims)
}
