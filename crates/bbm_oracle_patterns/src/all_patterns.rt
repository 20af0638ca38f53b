//! Every pattern of events cleanses a place.

ghost use Rattle.std.specs.Prelude.{IfOk};

use crate::evidence::Evidence;
use crate::kept::Kept;
use crate::trace::{above_everywhere, cleansed_everywhere, trace_of};
use bbm_events::Header;
use bbm_oracle_tags::AllPatterns;
use bbm_regimes::{NoMemory, PeMask, Place};
use std::alloc::Global;

impl Evidence for AllPatterns {
    ghost has_taken = { λ all heading notes. Unit {0} };

    fn cleansed(&self, header: &Header, log: &[Kept], from: usize, place: Place) -> PeMask {
        trace_of(header, &log[from..], place).cleansed
    }

    fn is_cleansed(&self, header: &Header, log: &[Kept], from: usize, place: Place) -> bool {
        cleansed_everywhere(header, &log[from..], place)
    }

    fn is_above(&self, header: &Header, log: &[Kept], from: usize, place: Place) -> bool {
        above_everywhere(header, &log[from..], place)
    }

    fn after(
        &self,
        _alloc: Global,
        _header: &Header,
        _log: &[Kept],
        _newest: &Kept,
    ) -> Result<AllPatterns, NoMemory> {
        Ok(AllPatterns)
    }

    ghost knows_taken = { λ all heading notes taken. tt };
}
