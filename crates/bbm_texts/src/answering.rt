//! The status of what was written.

ghost use Rattle.std.specs.Prelude.{◌≡◌, ℕ, List, Option};
ghost use Rattle.bbm_texts.specs.Statuses.{status_of};
ghost use Rattle.bbm_texts.specs.Writing.{Wrote, Puts};

use crate::status::Status;
use bbm_io::Failed;
use bbm_rules::Verdict;

/// The status of a verdict.
pub fn status(verdict: &Verdict) -> Status
    ensures { result ≡ status_of verdict.now }
{
    match *verdict {
        Verdict::Accepted { .. } => Status::Accepted,
        Verdict::Refused { .. } => Status::Refused,
        Verdict::Malformed { .. } => Status::Malformed,
        Verdict::Limit { .. } => Status::Limit,
    }
}

/// The wanted status where a text was written whole.
pub fn settled(written: Result<(), Failed>, wanted: Status) -> Status
    ensures { (text : List ℕ) (old : Option (List ℕ)) (new : Option (List ℕ)) (faults : ℕ) (faults' : ℕ) →
        Puts text written old new faults faults' → Wrote wanted text result old new faults faults' }
{
    match written {
        Ok(()) => wanted,
        Err(Failed) => Status::WriteFault,
    }
}
