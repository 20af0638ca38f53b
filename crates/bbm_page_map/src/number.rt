//! The number of a page.
//! Source: project's own choice.

ghost use Rattle.std.specs.Prelude.{◌≡◌, ◌<◌, ◌≤◌, ◌^◌};
ghost use Rattle.bbm_page_map.specs.PageLists.{entry_of};

use std::marker::Model;

/// The number that `PageNumbers` gave a page, from 0 on, in the order in which pages came. Contracts see the number.
#[derive(Clone, Copy, PartialEq, Eq)]
pub struct PageNumber {
    number: u32,
}

impl Model for PageNumber {
    ghost use Rattle.std.specs.Prelude.{ℕ, ◌<◌, ◌^◌};

    ghost Value = { ℕ };

    ghost view = { λ n. n.number };

    ghost invariant = { λ n. n.number < 2 ^ 22 };

    ghost inverse = { λ n. record { number = n } };
}

impl PageNumber {
    /// The number that what stands in the slot of a page tells: None where it is 0, else the one below it.
    #[inline(always)]
    pub(crate) fn of_slot(slot: u32) -> Option<PageNumber>
        requires { slot ≤ 2 ^ 22 }
        ensures { result ≡ entry_of slot }
    {
        if slot == 0 {
            return None;
        }
        Some(PageNumber { number: slot - 1 })
    }

    /// The number.
    #[inline(always)]
    pub fn get(self) -> usize
        ensures value { result ≡ self }
        ensures below { self < 2 ^ 22 }
    {
        self.number as usize
    }
}
