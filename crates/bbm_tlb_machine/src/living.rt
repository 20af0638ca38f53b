//! The entries that the TLBs keep, with their numbers.

ghost use Rattle.std.specs.Prelude.{◌≡◌, ◌==◌, not, filter, find, option_map};
ghost use Rattle.bbm_tlb_machine.specs.Followed.{found};

use crate::entry::Entry;
use std::marker::Model;

/// An entry that some TLB keeps, with its number: entries are numbered in the order in which they are made, from 1. A
/// clause sees it as that of the definitions. Source: project's own choice.
#[derive(Drop)]
pub struct Living {
    /// Its number.
    pub number: u64,
    /// The entry.
    pub entry: Entry,
}

impl Model for Living {
    ghost use Rattle.bbm_tlb_machine.specs.MachineRun.{Living};

    ghost Value = { Living };

    ghost view = { λ l. record { number = l.number; entry = l.entry } };
}

/// The entry with this number, None where there is none or it was dropped.
pub fn living_at(living: &[Living], number: u64) -> Option<&Living>
    ensures { option_map (λ l. l.now) result ≡ find (λ l. l.number == number) living.now }
{
    living.iter().find(|living| living.number == number)
}

/// Its entry.
pub fn entry_at(living: &[Living], number: u32) -> Option<&Entry>
    ensures { option_map (λ x. x.now) result ≡ found living.now number }
{
    match living_at(living, u64::from(number)) {
        Some(living) => Some(&living.entry),
        None => None,
    }
}

/// Drops the entry with this number.
pub fn drop_at(living: &mut Vec<Living>, number: u64)
    ensures { living.new.items ≡ filter (λ l. not (l.number == number)) living.old.items }
{
    living.retain(|living| living.number != number);
}
