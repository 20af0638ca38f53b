//! The law of a log and its certificate that are read whole.

ghost use Rattle.std.specs.Prelude.{◌≡◌, ℕ, List};
ghost use Rattle.bbm_events.specs.declared.claim.Claim.{Claim};
ghost use Rattle.bbm_events.specs.declared.event.Event.{Event};
ghost use Rattle.bbm_events.specs.Heading.{Heading};
ghost use Rattle.bbm_certificate.specs.CertificateReading.{AreRead, Whole, read_of};

use bbm_events::{law_header_in_range, law_item_fits};

/// Where bytes are read whole, each event fits the header, and there are no more events and claims than the limits. The
/// call does nothing; the law is its contract.
pub fn law_read_whole()
    ensures { (bytes : List ℕ) (heading : Heading) (log : List Event) (claims : List Claim) →
        (read_of bytes).says ≡ Whole heading log claims → AreRead heading log claims }
{
    law_header_in_range();
    law_item_fits();
}
