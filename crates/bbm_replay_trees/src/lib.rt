//! The theorem of this crate is `law_judging`: what a judge of the paths through fresh pages finds is what the rules on
//! attached pages say.
//!
//! Laws that tie what a checker without a history knows of trees to the definitions over a history.
#![tactic(auto)]

mod below;
pub mod cores;
pub mod guarding;
pub mod judging;
pub mod nodes;
pub mod pages;
pub mod places;
pub mod rules;
pub mod starts;

pub use cores::law_cores;
pub use guarding::{law_guards, law_judges_tables};
pub use judging::{law_judging, law_unattached};
pub use nodes::{law_neighbours, law_nodes};
pub use pages::{law_fresh_pages, law_pages, law_values};
pub use places::{law_childless_by_cores, law_limbo_by_values, law_restless_places};
pub use rules::{law_limits_of_events, law_page_rules, law_rules_of_events, law_write_rules};
pub use starts::law_starts;
