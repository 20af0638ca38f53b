//! What is decided of a log.
//! Source: project's own choice.

use bbm_events::Event;
use bbm_rules::Verdict;

/// What is decided.
#[derive(Clone, Copy)]
pub struct Decision {
    /// The verdict.
    pub verdict: Verdict,
    /// The event that is refused; None where the verdict refuses none.
    pub refused: Option<Event>,
}
