//! What is trusted to cleanse a place.

ghost use Rattle.std.specs.Prelude.{◌≡◌, ◌≤◌, ℕ, List, ◌∷◌, length, drop, reverse, IfOk};
ghost use Rattle.bbm_regimes.specs.PeMask.{pe_in};
ghost use Rattle.bbm_events.specs.Heading.{Heading};
ghost use Rattle.bbm_rules.specs.Cleansing as cleansing;
ghost use Rattle.bbm_rules.specs.Held as holding;
ghost use Rattle.bbm_rules.specs.Notes.{Noted, events_of};
ghost use Rattle.bbm_oracle_patterns.specs.Kept.{note_of, notes_behind, notes_of};

use crate::kept::Kept;
use bbm_events::Header;
use bbm_oracle_tags::TagEvidence;
use bbm_regimes::{NoMemory, PeMask, Place};
use std::alloc::Global;

/// It tells at which PEs a place is cleansed, and which tags a root holds, by what is trusted. It goes along with a
/// log: whoever keeps the log asks it of the events that it has taken, and no others. Source: project's own choice.
pub trait Evidence: TagEvidence + Drop {
    /// It has taken the events of a log of this header: these are their notes, the newest first.
    ghost has_taken: { Self → Heading → List Noted → Type 0 };

    /// The PEs at which the place is cleansed by the events from this index on; the oldest event has index 0. In them
    /// stand the write, its publication, the TLBIs and their answers, whatever came before.
    fn cleansed(&self, header: &Header, log: &[Kept], from: usize, place: Place) -> PeMask
        requires taken { has_taken self.now header.now (notes_of (reverse log.now)) }
        requires within { from ≤ length log.now }
        ensures { (p : ℕ) → pe_in result p ≡ cleansing.cleansed header.now (Self.trust self.now) place p
            (notes_behind from (reverse (drop from log.now))) };

    /// Whether it is cleansed so at every PE of the header.
    fn is_cleansed(&self, header: &Header, log: &[Kept], from: usize, place: Place) -> bool
        requires taken { has_taken self.now header.now (notes_of (reverse log.now)) }
        requires within { from ≤ length log.now }
        ensures { result ≡ holding.cleansed_everywhere header.now (Self.trust self.now) place
            (notes_behind from (reverse (drop from log.now))) };

    /// Whether it is above so at every PE of the header: cleansed, with top covers in the place of covers. No TLB keeps an
    /// entry that ends in its last valid value then.
    fn is_above(&self, header: &Header, log: &[Kept], from: usize, place: Place) -> bool
        requires taken { has_taken self.now header.now (notes_of (reverse log.now)) }
        requires within { from ≤ length log.now }
        ensures { result ≡ holding.above_everywhere header.now (Self.trust self.now) place
            (notes_behind from (reverse (drop from log.now))) };

    /// What it is once it has taken one more event, which comes behind those of the log. `NoMemory` where there is
    /// none.
    fn after(
        &self,
        alloc: Global,
        header: &Header,
        log: &[Kept],
        newest: &Kept,
    ) -> Result<Self, NoMemory>
        requires { has_taken self.now header.now (notes_of (reverse log.now)) }
        ensures taken { IfOk result (λ after. has_taken after header.now
            (note_of (length log.now) newest.now ∷ notes_of (reverse log.now))) }
        ensures trust { IfOk result (λ after. Self.trust after ≡ Self.trust self.now) };

    /// It can be asked of the tags after the events that it has taken.
    ghost knows_taken: { (evidence : Self) (heading : Heading) (notes : List Noted)
        → has_taken evidence heading notes → Self.knows evidence heading (events_of notes) };
}
