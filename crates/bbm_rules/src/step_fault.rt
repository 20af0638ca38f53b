//! Why a checker didn't take an event.

use crate::rule::Rule;
use bbm_regimes::Which;
use thiserror::Error;

/// Why a checker didn't take an event.
#[derive(Clone, Copy, Debug, PartialEq, Eq, Error)]
pub enum StepFault {
    /// The event breaks this rule, the least that it breaks, at this address or number.
    #[error("broken rule")]
    Broken(Rule, u64),
    /// The event keeps the rules and would pass this limit.
    #[error("limit")]
    Limit(Which),
    /// There was no memory.
    #[error("no memory")]
    NoMemory,
}
