//! Levels of translation tables.

ghost use Rattle.std.specs.Prelude.{◌≡◌, ℕ, ◌+◌, ◌<◌, ◌≤◌, ◌↔◌, IsSome, IfSome};
ghost use Rattle.bbm_regimes.specs.Extent.{span_of, hint_of};

use std::marker::Model;

/// A level of translation tables: its number, 0 to 3. Source: Arm ARM (DDI 0487), "VMSAv8-64 translation table walks",
/// the 4 KiB granule.
#[derive(Clone, Copy, PartialEq, Eq)]
pub struct Level {
    number: u8,
}

impl Model for Level {
    ghost Value = { ℕ };

    ghost view = { λ l. l.number };

    ghost invariant = { λ l. l.number ≤ 3 };

    ghost inverse = { λ n. record { number = n } };
}

impl Level {
    /// Level 0, the first.
    pub const ZERO: Level = Level { number: 0 };

    /// Level 1.
    pub const ONE: Level = Level { number: 1 };

    /// Level 2.
    pub const TWO: Level = Level { number: 2 };

    /// Level 3, the last.
    pub const THREE: Level = Level { number: 3 };

    /// The level with this number; None exactly where the number is above 3.
    pub fn new(number: u8) -> Option<Level>
        ensures is_one { IsSome result ↔ (number ≤ 3) }
        ensures value { IfSome result (λ level. level ≡ number) }
    {
        if number <= 3 {
            Some(Level { number })
        } else {
            None
        }
    }

    /// The number of the level, 0 to 3.
    pub fn get(self) -> u8
        ensures value { result ≡ self }
        ensures low { self ≤ 3 }
    {
        self.number
    }

    /// The level above this one, whose number is one less; None exactly of level 0, the first.
    pub fn above(self) -> Option<Level>
        ensures is_one { IsSome result ↔ (0 < self) }
        ensures value { IfSome result (λ level. self ≡ level + 1) }
    {
        if self.number > 0 {
            Some(Level {
                number: self.number - 1,
            })
        } else {
            None
        }
    }

    /// The level below this one, whose number is one more; None exactly of level 3, the last.
    pub fn below(self) -> Option<Level>
        ensures is_one { IsSome result ↔ (self < 3) }
        ensures value { IfSome result (λ level. level ≡ self + 1) }
    {
        Level::new(self.number + 1)
    }

    /// The bytes of input addresses that one descriptor of the level translates: 2^39, 2^30, 2^21 or 2^12. Source: Arm
    /// ARM (DDI 0487), "VMSAv8-64 translation table walks", the 4 KiB granule.
    pub fn span(self) -> u64
        ensures { result ≡ span_of self }
    {
        match self.number {
            0 => 1 << 39,
            1 => 1 << 30,
            2 => 1 << 21,
            _ => 1 << 12,
        }
    }
}

/// The level that the two bits of a level hint give, 1 to 3; None where they are 0, which is no hint. Source: project's
/// own choice.
pub fn hint_of(bits: u8) -> Option<Level>
    requires { bits ≤ 3 }
    ensures { result ≡ hint_of bits }
{
    if bits == 0 { None } else { Level::new(bits) }
}
