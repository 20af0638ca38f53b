//! Every pattern of events is trusted.

ghost use Rattle.bbm_rules.specs.Claims.{Patterns};

use crate::evidence::TagEvidence;
use crate::holding::Holding;
use crate::keeper::Keeper;
use crate::tags::watched;
use bbm_events::{Event, Header};
use bbm_regimes::NoMemory;
use std::alloc::Global;

/// Every pattern of events is trusted. It keeps nothing: each answer is searched in the events. Source: project's own
/// choice.
#[derive(Clone, Copy)]
pub struct AllPatterns;

impl TagEvidence for AllPatterns {
    ghost trust = { λ all. Patterns };

    ghost knows = { λ all heading h. Unit {0} };

    fn keeps_at(
        &self,
        alloc: Global,
        header: &Header,
        events: &[Event],
        asked: &Holding,
        keeper: Keeper,
    ) -> Result<bool, NoMemory> {
        let watch = watched(alloc, header, events, asked)?;
        match keeper {
            Keeper::Declared => Ok(watch.holds),
            Keeper::GivenUp => Ok(watch.left),
        }
    }

    ghost knows_write = { λ all heading h pe reg value known. tt };
}
