//! The entry that a line of a run makes.

ghost use Rattle.std.specs.Prelude.{◌≡◌, reverse, IfOk};
ghost use Rattle.bbm_tlb_machine.specs.Followed.{entry_made};

use crate::entry::Entry;
use crate::living::{Living, entry_at};
use crate::starting::{FirstRead, combine, extend, share, start};
use bbm_events::{Event, Header, MachineLine};
use bbm_regimes::NoMemory;
use std::alloc::Global;

/// The entry that the line makes after these events, where the TLBs keep these; None where it makes none. `NoMemory`
/// where there is none.
#[tactic(auto, using(crate::proofs::MadeLemmas::made))]
pub fn made_by(
    alloc: Global,
    header: &Header,
    events: &[Event],
    living: &[Living],
    line: &MachineLine,
) -> Result<Option<Entry>, NoMemory>
    ensures { IfOk result (λ made. made ≡ entry_made header.now (reverse events.now) living.now line.now) }
{
    match *line {
        MachineLine::Start {
            pe,
            kind,
            tag,
            place,
            value,
        } => {
            let read = FirstRead {
                pe,
                kind,
                number: tag,
                place,
                value,
            };
            start(alloc, header, events, read)
        }
        MachineLine::Extend {
            entry,
            place,
            value,
        } => match entry_at(living, entry) {
            Some(entry) => extend(alloc, header, events, entry, place, value),
            None => Ok(None),
        },
        MachineLine::Combine { entry } => match entry_at(living, entry) {
            Some(entry) => combine(alloc, events, entry),
            None => Ok(None),
        },
        MachineLine::Share { entry, pe } => match entry_at(living, entry) {
            Some(entry) => share(alloc, header, entry, pe),
            None => Ok(None),
        },
        MachineLine::Drop { .. } => Ok(None),
    }
}
