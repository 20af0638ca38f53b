//! Why a call is refused.

use bbm_regimes::{NoMemory, Page, Place, Which};
use thiserror::Error;

/// Why a call of `TreeIndex` is refused. Source: project's own choice.
#[derive(Clone, Copy, Debug, PartialEq, Eq, Error)]
pub enum TreeFault {
    /// There was no memory.
    #[error("no memory")]
    NoMemory,
    /// A limit is reached.
    #[error("limit reached")]
    Limit(Which),
    /// A path of the attached pages ends in this page, which isn't fresh, or two paths do.
    #[error("not fresh")]
    NotFresh(Page),
    /// This place of an attached page has a leaf with the Contiguous hint.
    #[error("bad kind")]
    BadKind(Place),
    /// This place of an attached page of the lower range has a leaf for every ASID.
    #[error("global user")]
    GlobalUser(Place),
}

impl From<NoMemory> for TreeFault {
    ghost use Rattle.std.specs.Prelude.{◌≡◌};
    ghost use Rattle.bbm_tree_index.specs.declared.fault.TreeFault.TheVariants.{NoMemory as OutOfMemory};

    ghost from_gives = { λ _ e. e ≡ OutOfMemory };

    fn from(_: NoMemory) -> TreeFault {
        TreeFault::NoMemory
    }
}
