//! The theorem of this crate is `law_safe`: every log that keeps the rules is safe in each run of the machine.
//!
//! What the TLBs of the logged PEs may do while a log is taken, and the runs that lead to a conflict.
#![tactic(auto)]

mod conflict;
mod entry;
mod geometry;
mod given_up;
pub mod laws;
mod living;
mod looking;
pub mod machine;
mod making;
mod pending;
pub mod safety;
mod starting;
pub mod step;

pub use entry::{Entry, Part};
pub use given_up::is_given_up;
pub use laws::{law_conflict, law_run};
pub use looking::can_read;
pub use machine::{FollowFault, Machine, follow};
pub use pending::{Pending, is_answered, must_leave, take_event};
pub use safety::{
    known, law_accepted_is_isolated, law_accepted_is_safe, law_fine, law_fine_steps, law_isolated,
    law_one_root_a_tag, law_safe, law_walks_tables,
};
pub use starting::{FirstRead, combine, extend, start};
pub use step::Step;
