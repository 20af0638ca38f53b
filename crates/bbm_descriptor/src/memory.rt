//! Memory that holds translation tables.

ghost use Rattle.std.specs.Prelude.{◌≡◌, ℕ};
ghost use Rattle.bbm_descriptor.specs.Pairs.{value_among};

use bbm_regimes::Place;

/// Memory that tells the value of each place.
pub trait Memory {
    // the value at the address of a place
    ghost value_at: { Self → ℕ → ℕ };

    /// The value at this place, all 64 bits of it; 0 where nothing was written.
    fn value(&self, place: Place) -> u64
        ensures { result ≡ value_at self.now place };
}

/// Memory that is told by pairs of a place and its value. The first pair of a place counts; a place that has none
/// holds 0. Source: project's own choice.
#[derive(Clone, Copy)]
pub struct Pairs<'a> {
    /// The pairs.
    pub pairs: &'a [(Place, u64)],
}

impl Memory for Pairs<'_> {
    ghost value_at = { λ m place. value_among m.pairs.now place };

    fn value(&self, place: Place) -> u64 {
        for (at, value) in self.pairs {
            if *at == place {
                return *value;
            }
        }
        0
    }
}
