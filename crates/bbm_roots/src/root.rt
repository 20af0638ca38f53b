//! A declared root.

ghost use Rattle.std.specs.Prelude.{◌≡◌};
ghost use Rattle.bbm_regimes.specs.SameRegister.{same_kind as spec_same_kind};

use bbm_regimes::{Kind, Page};
use std::marker::Model;

/// A declared root: its first page, its kind, and the lock that its writers hold or none. A clause sees it as the
/// declared root of the definitions.
#[derive(Clone, Copy, PartialEq, Eq)]
pub struct Declared {
    /// The first page.
    pub page: Page,
    /// The kind.
    pub kind: Kind,
    /// The number of the lock, or None.
    pub lock: Option<u16>,
}

impl Model for Declared {
    ghost use Rattle.bbm_rules.specs.Roots.{Declared};

    ghost Value = { Declared };

    ghost view = { λ r. record { page = r.page; kind = r.kind; lock = r.lock } };

    ghost inverse = { λ r. record { page = r.page; kind = r.kind; lock = r.lock } };
}

/// Whether the kinds are the same.
pub fn same_kind(kind: Kind, other: Kind) -> bool
    ensures { result ≡ spec_same_kind kind other }
{
    kind == other
}
