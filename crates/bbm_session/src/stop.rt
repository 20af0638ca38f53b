//! How reading a log goes on, and why it stops.

ghost use Rattle.std.specs.Prelude.{◌≡◌};
ghost use Rattle.bbm_session.specs.Reader.{alone};

use bbm_rules::Verdict;
use bbm_texts::Decision;

/// Why reading a log stopped.
#[derive(Clone, Copy)]
pub enum Stop {
    /// The verdict is known.
    Decided(Decision),
    /// A read failed.
    ReadFault,
    /// There was no memory.
    NoMemory,
}

/// Why reading stops where this verdict is known, which refuses no event.
pub fn decided(verdict: Verdict) -> Stop
    ensures { result ≡ Stop.Decided (alone verdict) }
{
    Stop::Decided(Decision {
        verdict,
        refused: None,
    })
}
