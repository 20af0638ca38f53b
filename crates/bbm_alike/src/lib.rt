//! The theorem of this crate is `law_alike_judges`: every event is judged alike after two alike histories, and an event
//! keeps them alike where it takes away alike (`law_alike_step`).
//!
//! Two histories that no rule tells apart, each read by what it trusts. No code but empty bodies.
#![tactic(auto)]

pub mod covers;
pub mod joins;
pub mod judges;
mod known;
pub mod same_tags;
pub mod steps;
pub mod takes;
pub mod trees;

pub use covers::law_covers_alike;
pub use joins::law_alike_joins;
pub use judges::law_alike_judges;
pub use same_tags::law_same_tags;
pub use steps::{law_alike_onward, law_alike_step};
pub use takes::law_takes_alike;
pub use trees::law_trees_alike;
