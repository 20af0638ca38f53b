//! The theorem of this crate is `law_rule_is_exact`: where a PE stands open to a place, a refusal there by break-
//! before-make is a real danger.
//!
//! Runs of the machine of TLBs that end in a conflict at a write which the rule of break-before-make refuses.
#![tactic(auto)]

mod answers;
mod combining;
mod exact;
mod finding;
mod first_run;
mod laws;
mod leaf;
mod least_list;
mod numbers;
mod read;
mod reads;
mod runs;
mod search;
mod trying;
mod walk;
mod way;

pub use exact::law_rule_is_exact;
pub use first_run::{find, find_over_leaf};
pub use laws::{
    law_conflict_at_the_end, law_one_run, law_plain_is_tested, law_run_is_short, law_steps_fit,
};
pub use leaf::ends_at_leaf;
pub use least_list::law_least_reads;
