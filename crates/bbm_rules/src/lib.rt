//! The theorem of this crate is `law_first_line_decides`: the verdict of a log is that of its first bad line; and
//! `law_each_rule` says each rule in a sentence of its own.
//!
//! The rules of table maintenance as definitions over a log's history, and what every checker promises.
#![tactic(auto)]

pub mod checker;
pub mod event_laws;
pub mod history_laws;
pub mod laws;
pub mod limits;
pub mod path_laws;
pub mod phase;
pub mod rule;
pub mod step_fault;
pub mod tag_laws;
pub mod verdict;

pub use bbm_events::Claim;
pub use checker::{Checker, Fresh, Logged};
pub use event_laws::{
    law_changes, law_equality_tests, law_limits, law_lock_held, law_null, law_published,
    law_readable_register, law_readable_standing, law_root, law_tag_set, law_vmid,
};
pub use history_laws::{
    law_attaching, law_childless, law_clean, law_cleansed, law_each_rule, law_fresh,
    law_global_user, law_half, law_held, law_last_valid, law_limbo, law_mapped, law_notes,
    law_paths, law_refused_place, law_root_pages, law_seen, law_table_mapped, law_tree,
};
pub use laws::{
    law_answered, law_notes_keep_the_events, law_readable_value, law_tag_held, law_tag_kept,
    law_tag_left,
};
pub use limits::Limits;
pub use path_laws::law_repeated;
pub use phase::Phase;
pub use rule::Rule;
pub use step_fault::StepFault;
pub use tag_laws::{law_readable_tag, law_tag_rules};
pub use verdict::{Verdict, law_first_line_decides, law_slow_says_the_same};
