//! The theorem of this crate is `law_held_changes`: what a place of a tree holds changes only by a valid write, and by
//! a DSB, to nothing.
//!
//! Laws of histories: what is known of every log that keeps the rules, over the definitions alone.
#![tactic(auto)]

mod below;
pub mod claim_steps;
pub mod locks;
pub mod patterns;
pub mod phases;
pub mod steps;
pub mod tags;
pub mod tree_steps;
pub mod trees;
pub mod value_steps;
pub mod values;
pub mod versions;

pub use claim_steps::{law_claim_steps, law_tag_claim_steps};
pub use locks::law_lock_order;
pub use patterns::{law_patterns_begin, law_patterns_stay, law_uniform};
pub use phases::law_phase_parts;
pub use steps::{law_held_step, law_pattern_steps, law_tag_steps};
pub use tags::{law_bases, law_tags};
pub use tree_steps::{law_childless_step, law_limbo_step, law_node_step};
pub use trees::{
    law_attached_tables, law_emptied_at_once, law_frozen_view, law_held_changes,
    law_limbo_is_empty, law_lower_leaves, law_mapped_step, law_one_node, law_one_position,
    law_proper, law_tables_are_clean, law_tree_step,
};
pub use value_steps::{law_fresh_step, law_readable_step, law_root_step};
pub use values::{law_fresh_content, law_frozen, law_window};
pub use versions::law_version;
