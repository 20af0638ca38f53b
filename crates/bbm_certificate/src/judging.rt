//! The judgement on a log by its certificate.

ghost use Rattle.std.specs.Prelude.{◌≡◌, reverse, IfOk};
ghost use Rattle.bbm_cert.specs.Judged.{judged};
ghost use Rattle.bbm_certificate.specs.CertificateReading.{AreRead};

use crate::kept::Kept;
use bbm_cert::{Judged, verify};
use bbm_events::Header;
use bbm_regimes::NoMemory;
use std::alloc::Global;

/// Judges the events of a log that was read, by the claims of its certificate alone: `Yes` where each event keeps the
/// rules, else the first that breaks one. `NoMemory` where there is none.
pub fn judge_kept(alloc: Global, header: &Header, kept: &Kept) -> Result<Judged, NoMemory>
    requires read { AreRead header.now (reverse kept.now.events.items) kept.now.claims.items }
    ensures judged { IfOk result (λ said. said
        ≡ judged header.now kept.now.claims.items (reverse kept.now.events.items)) }
{
    verify(alloc, header, &kept.events, &kept.claims)
}
