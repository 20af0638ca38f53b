//! What is kept of a tracked page.

ghost use Rattle.std.specs.Prelude.{◌≡◌, ℕ, false};
ghost use Rattle.bbm_unmapped.specs.InOutputs.{in_outputs};

use crate::outputs::Outputs;

/// What is kept of a tracked page. Source: project's own choice.
#[derive(Clone, Copy)]
pub struct Leaves {
    /// Whether it is known that no held leaf of stage 2 maps the page.
    pub free: bool,
    /// Bounds of the outputs of the leaves that its places hold.
    pub bounds: Outputs,
}

/// What is kept of a page that comes: it isn't free, and has no leaf.
pub fn no_leaves() -> Leaves
    ensures free { result.free ≡ false }
    ensures bounds { (page : ℕ) → in_outputs result.bounds page ≡ false }
{
    Leaves {
        free: false,
        bounds: Outputs::NONE,
    }
}
