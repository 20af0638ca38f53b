//! The laws of certificates.

ghost use Rattle.std.specs.Prelude.{◌≡◌, ◌<◌, ◌≤◌, ◌*◌, ◌^◌, true, List, length, Contains};
ghost use Rattle.bbm_events.specs.Certificate.{is_claim};
ghost use Rattle.bbm_events.specs.Fits.{fits_heading};
ghost use Rattle.bbm_events.specs.Heading.{Heading, heading_ok};
ghost use Rattle.bbm_events.specs.declared.claim.Claim.{Claim};
ghost use Rattle.bbm_events.specs.declared.event.Event.{Event};
ghost use Rattle.bbm_rules.specs.Broken.{keeps};
ghost use Rattle.bbm_rules.specs.Claims.Trust.{Patterns, Listed};
ghost use Rattle.bbm_rules.specs.Lists.{every};
ghost use Rattle.bbm_certify.specs.LeastClaims.{IsCertificate, WithinLimits};

use crate::known::known;

/// The certificate of a log that keeps the rules gets the yes: by its claims alone each event of the log keeps them. The
/// law is the contract.
pub fn law_certificate_is_verified()
    ensures { (heading : Heading) (h : List Event) (claims : List Claim) → heading_ok heading ≡ true →
        keeps heading Patterns h ≡ true → IsCertificate heading h claims → keeps heading (Listed claims) h ≡ true }
{
    known();
}

/// A log has at most one certificate. The call does nothing; the law is its contract.
pub fn law_one_certificate()
    ensures { (heading : Heading) (h : List Event) (claims others : List Claim) → IsCertificate heading h claims →
        IsCertificate heading h others → claims ≡ others }
{}

/// The certificate of a log that keeps the rules and reaches no limit has at most 128 claims for each event. Where the
/// events fit the header too, and are fewer than 2^32, each claim fits it, so it can be written. The law is the contract.
pub fn law_certificate_can_be_written()
    ensures few { (heading : Heading) (h : List Event) (claims : List Claim) → heading_ok heading ≡ true →
        keeps heading Patterns h ≡ true → WithinLimits h → IsCertificate heading h claims →
        length claims ≤ 128 * length h }
    ensures fit { (heading : Heading) (h : List Event) (claims : List Claim) → heading_ok heading ≡ true →
        keeps heading Patterns h ≡ true → WithinLimits h → every (fits_heading heading) h ≡ true →
        length h < 2 ^ 32 → IsCertificate heading h claims → (claim : Claim) → Contains claims claim →
        is_claim heading claim ≡ true }
{
    known();
}
