//! Where a place is kept.

use bbm_page_map::PageNumber;
use bbm_regimes::Place;

/// A place of a tracked page, and where it is kept. Source: project's own choice.
#[derive(Clone, Copy)]
pub struct Position {
    /// The place.
    pub place: Place,
    /// The number of its page.
    pub page: PageNumber,
}
