//! How far a TLBI covers a place.
//! Source: project's own choice, where no other is named.

use bbm_regimes::Place;
use bbm_tlbi_scope::Cover;
use std::marker::Model;

/// A place, and how far a TLBI covers it.
#[derive(Clone, Copy)]
pub struct Found {
    /// The place.
    pub place: Place,
    /// How far it is covered.
    pub cover: Cover,
    /// The number among the broken places at which it is looked for first. No answer depends on it.
    pub hint: u32,
}

/// What fills an unused place of a list: the first place, with no cover.
impl Default for Found {
    fn default() -> Found {
        Found {
            place: Place::new(0).unwrap(),
            cover: Cover::None,
            hint: 0,
        }
    }
}

/// How far a TLBI covers one of the broken places. Contracts see the cover.
#[derive(Clone, Copy)]
pub struct Answer {
    cover: Cover,
}

impl Model for Answer {
    ghost use Rattle.bbm_tlbi_scope.specs.declared.entry.Cover.{Cover as TheCover};

    ghost Value = { TheCover };

    ghost view = { λ answer. answer.cover };

    ghost inverse = { λ cover. record { cover = cover } };
}

/// What fills an unused place of a list: no cover.
impl Default for Answer {
    fn default() -> Answer {
        Answer { cover: Cover::None }
    }
}

impl Answer {
    ghost use Rattle.std.specs.Prelude.{◌≡◌};

    /// This cover.
    pub fn new(cover: Cover) -> Answer
        ensures { result ≡ cover }
    {
        Answer { cover }
    }

    /// The cover.
    pub fn get(self) -> Cover
        ensures { result ≡ self }
    {
        self.cover
    }
}
