//! The certificate that `cert` writes.
//! Source: project's own choice, where no other is named.

ghost use Rattle.std.specs.Prelude.{◌≡◌, ◌<◌, ◌^◌, ◌++◌, ℕ, List, [], Option, Some, true, length, reverse, IfOk};
ghost use Rattle.bbm_certify.specs.LeastClaims.{IsCertificate};
ghost use Rattle.bbm_events.specs.Certificate.{certificate_line, claim_line};
ghost use Rattle.bbm_events.specs.Fits.{fits_heading};
ghost use Rattle.bbm_events.specs.declared.event.Event.{Event as EventOf};
ghost use Rattle.bbm_rules.specs.Broken.{keeps};
ghost use Rattle.bbm_rules.specs.Claims.{Patterns};
ghost use Rattle.bbm_rules.specs.Lists.{every};
ghost use Rattle.bbm_texts.specs.CertTexts as spec;
ghost use Rattle.bbm_texts.specs.declared.commands.Command.TheVariants as command_of;
ghost use Rattle.bbm_texts.specs.declared.commands.Evidence.TheVariants.{Cert};
ghost use Rattle.bbm_texts.specs.Generating.{ended};
ghost use Rattle.bbm_texts.specs.Statuses.{status_of};
ghost use Rattle.bbm_texts.specs.Known.{Keeps, KnowsThat};
ghost use Rattle.bbm_texts.specs.Writing.{Buffered, Pours, Puts, ReportsDecided, ReportsText};

use crate::answering::{settled, status};
use crate::buffering::{BUFFER_BYTES, add_line, finish};
use crate::decision::Decision;
use crate::status::Status;
use crate::telling::tell_verdict;
use arrayvec::ArrayVec;
use bbm_certify::make;
use bbm_events::{Claim, ClaimItem, Event, Header};
use bbm_io::{Failed, Sink};
use bbm_log_grammar::{write_certificate_line, write_claim};
use bbm_regimes::NoMemory;
use bbm_rules::{Logged, Verdict};
use std::alloc::Global;

/// Adds the first line of a certificate to an empty buffer.
fn add_first<K: Sink>(buffer: &mut ArrayVec<u8, BUFFER_BYTES>, out: &mut K) -> Result<(), Failed>
    requires empty { buffer.old.items ≡ [] }
    ensures poured { Pours (ended certificate_line) result buffer.new.items (K.held out.old) (K.held out.new)
        (K.faults out.old) (K.faults out.new) }
{
    let mut line = ArrayVec::new();
    write_certificate_line(&mut line);
    add_line(buffer, &line, out)
}

/// Adds the line of a claim, or the last line with its count.
fn add_claim<K: Sink>(
    item: ClaimItem,
    buffer: &mut ArrayVec<u8, BUFFER_BYTES>,
    out: &mut K,
) -> Result<(), Failed>
    ensures poured { (text : List ℕ) (start : Option (List ℕ)) (faults : ℕ)
        → Buffered text buffer.old.items start (K.held out.old) faults (K.faults out.old)
        → Pours (text ++ ended (claim_line item)) result buffer.new.items start (K.held out.new)
        faults (K.faults out.new) }
{
    let mut line = ArrayVec::new();
    write_claim(item, &mut line);
    add_line(buffer, &line, out)
}

/// Adds the lines of the claims.
fn add_claims<K: Sink>(
    claims: &[Claim],
    buffer: &mut ArrayVec<u8, BUFFER_BYTES>,
    out: &mut K,
) -> Result<(), Failed>
    ensures poured { (text : List ℕ) (start : Option (List ℕ)) (faults : ℕ)
        → Buffered text buffer.old.items start (K.held out.old) faults (K.faults out.old)
        → Pours (text ++ spec.claim_lines claims.now) result buffer.new.items start (K.held out.new)
        faults (K.faults out.new) }
{
    let mut i = 0;
    'claims: while i < claims.len() {
        match add_claim(ClaimItem::Claim(claims[i]), buffer, out) {
            Ok(()) => i += 1,
            Err(failed) => return Err(failed),
        }
    }
    Ok(())
}

/// Adds the text of a certificate to an empty buffer.
fn pour_claims<K: Sink>(
    claims: &[Claim],
    buffer: &mut ArrayVec<u8, BUFFER_BYTES>,
    out: &mut K,
) -> Result<(), Failed>
    requires few { length claims.now < 2 ^ 32 }
    requires empty { buffer.old.items ≡ [] }
    ensures poured { Pours (spec.certificate_text claims.now) result buffer.new.items (K.held out.old) (K.held out.new)
        (K.faults out.old) (K.faults out.new) }
{
    add_first(buffer, out)?;
    add_claims(claims, buffer, out)?;
    add_claim(ClaimItem::End(claims.len() as u32), buffer, out)
}

/// Writes the text of a certificate.
fn tell_claims<K: Sink>(claims: &[Claim], out: &mut K) -> Result<(), Failed>
    requires few { length claims.now < 2 ^ 32 }
    ensures puts { Puts (spec.certificate_text claims.now) result (K.held out.old) (K.held out.new)
        (K.faults out.old) (K.faults out.new) }
{
    let mut buffer = ArrayVec::new();
    let poured = pour_claims(claims, &mut buffer, out);
    finish(poured, &buffer, out)
}

/// The claims of the certificate of a log. `NoMemory` where there is none, as for more events or claims than can be
/// counted.
fn claims_of(alloc: Global, header: &Header, log: &[Event]) -> Result<Vec<Claim>, NoMemory>
    requires fit { every (fits_heading header.now) (reverse log.now) ≡ true }
    requires kept { keeps header.now Patterns (reverse log.now) ≡ true }
    ensures exact { IfOk result (λ claims. IsCertificate header.now (reverse log.now) claims.items) }
    ensures few { IfOk result (λ claims. length claims.items < 2 ^ 32) }
{
    if log.len() > 4_294_967_295 {
        return Err(NoMemory);
    }
    let claims = make(alloc, header, log)?;
    if claims.len() > 4_294_967_295 {
        return Err(NoMemory);
    }
    Ok(claims)
}

/// Makes the certificate of an accepted log and writes it.
fn report_claims<C: Logged, K: Sink>(
    alloc: Global,
    header: &Header,
    checker: &C,
    verdict: &Verdict,
    out: &mut K,
) -> Status
    requires { (h : List EventOf) × Keeps (C.stands checker.now) header.now h }
    ensures { (h : List EventOf) → Keeps (C.stands checker.now) header.now h
        → ReportsText (spec.CertifiedBy header.now h) (status_of verdict.now) result (K.held out.old) (K.held out.new)
        (K.faults out.old) (K.faults out.new) }
{
    match claims_of(alloc, header, checker.log()) {
        Ok(claims) => settled(tell_claims(&claims, out), status(verdict)),
        Err(_) => Status::NoMemory,
    }
}

/// Says what was decided; an accepted log by its certificate. There may be no memory for that: then nothing is written.
pub fn report_cert<C: Logged, K: Sink>(
    alloc: Global,
    header: &Header,
    checker: &C,
    decision: &Decision,
    out: &mut K,
) -> Status
    requires { (h : List EventOf) × KnowsThat (Keeps (C.stands checker.now) header.now h) decision.now.verdict }
    ensures { (h : List EventOf) → KnowsThat (Keeps (C.stands checker.now) header.now h) decision.now.verdict
        → ReportsDecided (command_of.Show Cert) (Some header.now) h decision.now result
        (K.held out.old) (K.held out.new) (K.faults out.old) (K.faults out.new) }
{
    match &decision.verdict {
        Verdict::Accepted { .. } => report_claims(alloc, header, checker, &decision.verdict, out),
        _ => settled(
            tell_verdict(&decision.verdict, out),
            status(&decision.verdict),
        ),
    }
}
