//! Laws of the text of a generated log, and of a log that keeps the rules by a certificate.

ghost use Rattle.std.specs.Prelude.{◌≡◌, ◌+◌, ◌≤◌, ◌++◌, ℕ, List, [], length, true};
ghost use Rattle.bbm_regimes.specs.declared.regime.TheConstants.{MAX_LINES};
ghost use Rattle.bbm_certificate.specs.CertificateReading.{Whole, read_of};
ghost use Rattle.bbm_cert.specs.Judged.{judged};
ghost use Rattle.bbm_cert.specs.declared.judged.Judged.TheVariants.{Yes};
ghost use Rattle.bbm_tlb_machine.specs.Safe.{IsLog, Safe};
ghost use Rattle.bbm_gen.specs.Generated.{heading, log_of};
ghost use Rattle.bbm_certify.specs.LeastClaims.{IsCertificate};
ghost use Rattle.bbm_events.specs.Heading.{Heading, heading_ok};
ghost use Rattle.bbm_events.specs.declared.claim.Claim.{Claim};
ghost use Rattle.bbm_events.specs.declared.event.Event.{Event};
ghost use Rattle.bbm_rules.specs.Broken.{keeps};
ghost use Rattle.bbm_rules.specs.Claims.Trust.{Listed};
ghost use Rattle.bbm_rules.specs.Claims.{Patterns};
ghost use Rattle.bbm_rules.specs.Outcome.{check_limits, outcome_of, unrefused, verdict_of_bytes};
ghost use Rattle.bbm_rules.specs.Pages.{initialised};
ghost use Rattle.bbm_rules.specs.Phases.{restless_of};
ghost use Rattle.bbm_rules.specs.Texts.{verdict_text};
ghost use Rattle.bbm_rules.specs.declared.verdict.Verdict.TheVariants.{Accepted};
ghost use Rattle.bbm_texts.specs.Generating.{counts_text, gen_text, selftest_text};
ghost use Rattle.bbm_session.specs.Run.{IsTextOf, limits_of};
ghost use Rattle.bbm_session.specs.Verified.{IsVerified, IsVerifiedBy};
ghost use Rattle.bbm_texts.specs.declared.commands.Command.TheVariants.{Show};
ghost use Rattle.bbm_texts.specs.declared.commands.Evidence.TheVariants.{Cert};

use bbm_cert::law_judged;
use bbm_certificate::law_read_whole;
use bbm_certify::{law_certificate_can_be_written, law_certificate_is_verified};
use bbm_events::{
    law_claim_written_is_a_line, law_claim_written_is_read, law_header_in_range, law_item_fits,
    law_written_is_a_line, law_written_is_read,
};
use bbm_gen::law_gen;
use bbm_tlb_machine::{law_isolated, law_one_root_a_tag, law_safe};

/// What `check` says of the text that `gen` writes for the number n and `count` events, at most 4,294,967,293: it is
/// accepted, and read whole, and its events are those of the generated log. So what `selftest` writes is the line of
/// that verdict, and the counts of that log. The call does nothing; the law is its contract.
pub fn law_generated_is_accepted(n: u64, count: u32)
    requires lines { count + 2 ≤ MAX_LINES }
    ensures accepted { outcome_of Patterns check_limits (gen_text n count)
        ≡ record { says = unrefused (log_of n count) (Accepted count); unread = [] } }
    ensures selftest { selftest_text n count ≡ verdict_text (verdict_of_bytes Patterns check_limits (gen_text n count))
        ++ counts_text (length (initialised (outcome_of Patterns check_limits (gen_text n count)).says.log))
        (restless_of heading Patterns (outcome_of Patterns check_limits (gen_text n count)).says.log) }
{
    law_gen(n, count);
    law_written_is_a_line();
    law_written_is_read();
}

/// A log, newest first, that keeps the rules by a list of claims alone is safe: no TLB keeps what a write, an init or
/// a register write needs gone, in any run of the machine over it. The header is one that can be said, and each event
/// fits it. The call does nothing; the law is its contract.
pub fn law_cert()
    ensures { (heading : Heading) (claims : List Claim) (log : List Event) → IsLog heading log →
        keeps heading (Listed claims) log ≡ true → Safe heading log }
{
    law_safe();
}

/// Where bytes are a log and its certificate, and the claims say yes of the log, it keeps the rules by them alone, it
/// is safe, at every moment of each run over it there is one root a tag, and where its header has `isolated` it is
/// isolated. The call does nothing; the law is its contract.
pub fn law_verified_is_safe()
    ensures { (bytes : List ℕ) (heading : Heading) (claims : List Claim) (log : List Event) →
        (read_of bytes).says ≡ Whole heading log claims → judged heading claims log ≡ Yes → IsVerified bytes }
{
    law_read_whole();
    law_judged();
    law_cert();
    law_isolated();
    law_one_root_a_tag();
}

/// Of a log, newest first, that keeps the rules its certificate, as `cert` writes it, says yes: by its claims alone the
/// log keeps them. The header is one that can be said. The call does nothing; the law is its contract.
pub fn law_certificate_says_yes()
    ensures { (heading : Heading) (log : List Event) (claims : List Claim) → heading_ok heading ≡ true →
        keeps heading Patterns log ≡ true → IsCertificate heading log claims → judged heading claims log ≡ Yes }
{
    law_certificate_is_verified();
    law_judged();
}

/// Where a log is accepted within the limits of `cert`, what `cert` writes of it is the text of its certificate, and
/// `verify` reads the bytes of the log with this text behind them whole and says that the log keeps the rules by the
/// claims. These are at most 128 for each event, and fewer than the limit. The call does nothing; the law is its
/// contract.
pub fn law_cert_then_verify()
    ensures { (bytes text : List ℕ) (events : ℕ) →
        verdict_of_bytes Patterns (limits_of (Show Cert)) bytes ≡ Accepted events →
        IsTextOf (Show Cert) bytes text →
        IsVerifiedBy bytes text events (outcome_of Patterns (limits_of (Show Cert)) bytes).says.log }
{
    law_header_in_range();
    law_item_fits();
    law_claim_written_is_a_line();
    law_claim_written_is_read();
    law_certificate_can_be_written();
    law_certificate_says_yes();
}
