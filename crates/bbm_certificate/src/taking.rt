//! A line of a log or of its certificate, taken.

ghost use Rattle.std.specs.Prelude.{◌≡◌, ℕ, suc, List, [], Ok, reverse};
ghost use Rattle.bbm_events.specs.Heading.{Heading};
ghost use Rattle.bbm_events.specs.declared.event.Event.{Event as TheEvent};
ghost use Rattle.bbm_certificate.specs.CertificateReading.{AtClaims, AtEvents, TakesLine, after_claim};
ghost use Rattle.bbm_certificate.specs.CertificateReading.{after_claim_item};
ghost use Rattle.bbm_certificate.specs.CertificateReading.{after_event};
ghost use Rattle.bbm_certificate.specs.CertificateReading.{IsSound, after_first, after_item, after_line, claims_by};
ghost use Rattle.bbm_certificate.specs.CertificateReading.{kept_at};
ghost use Rattle.bbm_certificate.specs.CertificateReading.{next_number};

use crate::kept::{Kept, Part};
use bbm_events::{
    Claim, ClaimItem, Event, Header, Item, Malformed, law_header_in_range, law_item_fits,
};
use bbm_log_grammar::{LineFault, Turn, read_certificate_line, read_claim, read_event};
use bbm_regimes::Which;

/// The most events of a log that has a certificate.
const EVENTS: usize = 2000;

/// The most claims of a certificate.
const CLAIMS: usize = 300_000;

/// One more event.
fn take_event(events: &mut Vec<Event>, event: Event) -> Result<Turn, LineFault>
    ensures says { (number : ℕ) (heading : Heading) → TakesLine number (AtEvents heading (reverse events.old.items))
        (AtEvents heading (reverse events.new.items)) result
        (after_event number heading (reverse events.old.items) event) }
{
    if events.len() >= EVENTS {
        return Err(LineFault::Limit(Which::Events));
    }
    match events.push(event) {
        Ok(()) => Ok(Turn::Taken),
        Err(_) => Err(LineFault::NoMemory),
    }
}

/// What a line of the log decides, by what was read of it. A label says nothing here.
fn take_item(kept: &mut Kept, read: Result<Item, Malformed>) -> Result<Turn, LineFault>
    requires { kept.old.part ≡ Part.Events }
    ensures says { (number : ℕ) (heading : Heading) → TakesLine number (kept_at heading kept.old)
        (kept_at heading kept.new) result (after_item number heading (reverse kept.old.events.items) read) }
    ensures listed { claims_by kept.new.part kept.new.claims.items ≡ [] }
    ensures claims { kept.new.claims.items ≡ kept.old.claims.items }
{
    match read {
        Ok(Item::Event(event, _)) => take_event(&mut kept.events, event),
        Ok(Item::End(count)) => {
            if count as usize == kept.events.len() {
                kept.part = Part::BehindLog;
                Ok(Turn::Taken)
            } else {
                Err(LineFault::Malformed(Malformed::WrongCount))
            }
        }
        Err(cause) => Err(LineFault::Malformed(cause)),
    }
}

/// What the line right behind the log decides, by what was read of it.
fn take_first(kept: &mut Kept, read: Result<(), Malformed>) -> Result<Turn, LineFault>
    requires { kept.old.part ≡ Part.BehindLog }
    ensures says { (number : ℕ) (heading : Heading) → TakesLine number (kept_at heading kept.old)
        (kept_at heading kept.new) result (after_first number heading (reverse kept.old.events.items) read) }
    ensures listed { claims_by kept.old.part kept.old.claims.items ≡ kept.old.claims.items
        → claims_by kept.new.part kept.new.claims.items ≡ kept.new.claims.items }
{
    match read {
        Ok(()) => {
            kept.part = Part::Claims;
            kept.claims.clear();
            Ok(Turn::Taken)
        }
        Err(cause) => Err(LineFault::Malformed(cause)),
    }
}

/// One more claim.
fn take_claim(claims: &mut Vec<Claim>, claim: Claim) -> Result<Turn, LineFault>
    ensures says { (number : ℕ) (heading : Heading) (h : List TheEvent)
        → TakesLine number (AtClaims heading h claims.old.items) (AtClaims heading h claims.new.items) result
        (after_claim number heading h claims.old.items claim) }
{
    if claims.len() >= CLAIMS {
        return Err(LineFault::Limit(Which::Claims));
    }
    match claims.push(claim) {
        Ok(()) => Ok(Turn::Taken),
        Err(_) => Err(LineFault::NoMemory),
    }
}

/// What a line of the certificate behind its first decides, by what was read of it.
fn take_claim_item(kept: &mut Kept, read: Result<ClaimItem, Malformed>) -> Result<Turn, LineFault>
    requires { kept.old.part ≡ Part.Claims }
    ensures says { (number : ℕ) (heading : Heading) → TakesLine number (kept_at heading kept.old)
        (kept_at heading kept.new) result
        (after_claim_item number heading (reverse kept.old.events.items) kept.old.claims.items read) }
    ensures listed { claims_by kept.new.part kept.new.claims.items ≡ kept.new.claims.items }
{
    match read {
        Ok(ClaimItem::Claim(claim)) => take_claim(&mut kept.claims, claim),
        Ok(ClaimItem::End(count)) => {
            if count as usize == kept.claims.len() {
                Ok(Turn::End)
            } else {
                Err(LineFault::Malformed(Malformed::WrongCount))
            }
        }
        Err(cause) => Err(LineFault::Malformed(cause)),
    }
}

/// Takes a line by the part of the text that it belongs to.
fn take_part(header: &Header, kept: &mut Kept, line: &[u8]) -> Result<Turn, LineFault>
    ensures says { (number : ℕ) → TakesLine number (kept_at header.now kept.old) (kept_at header.now kept.new) result
        (after_line number (kept_at header.now kept.old) line.now) }
    ensures listed { claims_by kept.old.part kept.old.claims.items ≡ kept.old.claims.items
        → claims_by kept.new.part kept.new.claims.items ≡ kept.new.claims.items }
{
    match kept.part {
        Part::Events => take_item(kept, read_event(header, line)),
        Part::BehindLog => take_first(kept, read_certificate_line(line)),
        Part::Claims => take_claim_item(kept, read_claim(header, line)),
    }
}

/// Takes a line of at most 200 bytes and without its newline, that stands behind the header of a log and before
/// the end of its certificate. `kept` is what is kept of the lines before it. `Taken`: the line is an event or the end
/// of the log, with the right count of its events, or the first line or a claim of the certificate, and `kept` goes on
/// behind it. `End`: the line is the end of the certificate, with the right count of its claims, and `kept` is as
/// before. `Malformed`: by the first cause. `Limit`: the line is an event behind 2,000 others or a claim behind 300,000
/// others. `NoMemory`: the line is an event or a claim, for which there was none. Labels say nothing here, and
/// no event is judged.
pub fn take_line(header: &Header, kept: &mut Kept, line: &[u8]) -> Result<Turn, LineFault>
    ensures says { (number : ℕ) → TakesLine number (kept_at header.now kept.old) (kept_at header.now kept.new) result
        (after_line number (kept_at header.now kept.old) line.now) }
    ensures sound { result ≡ Ok Turn.Taken → IsSound (kept_at header.now kept.old)
        → IsSound (kept_at header.now kept.new) }
    ensures counted { result ≡ Ok Turn.Taken → IsSound (kept_at header.now kept.old)
        → next_number (kept_at header.now kept.new) ≡ suc (next_number (kept_at header.now kept.old)) }
    ensures listed { claims_by kept.old.part kept.old.claims.items ≡ kept.old.claims.items
        → claims_by kept.new.part kept.new.claims.items ≡ kept.new.claims.items }
{
    law_header_in_range();
    law_item_fits();
    take_part(header, kept, line)
}
