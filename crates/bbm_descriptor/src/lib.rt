//! The theorem of this crate is `law_need`: a write needs break-before-make exactly where both values are valid and
//! their cores differ.
//!
//! Descriptors: what a value of a translation table means at a kind and a level, its core, and when a
//! write over it needs break-before-make.
#![tactic(auto)]

pub mod decode;
pub mod desc;
pub mod laws;
pub mod memory;
pub mod walk;

pub use decode::{core, is_valid, needs_bbm, read};
pub use desc::{Core, Desc};
pub use memory::{Memory, Pairs};
pub use walk::{Walk, place_for, walk_from};
