//! The theorem of this crate is the contract of `Unmapped`: a page is free where no held leaf of stage 2 maps it.
//!
//! Which pages no leaf of stage 2 maps that a place of a tree holds, and where the outputs of the leaves of each page
//! of a tree lie: what `check` keeps of the pages that a guest may reach. It stands beside a `PlaceMap` and a
//! `TreeIndex`, has each page by the number that the map gave it, and takes memory for a page that is tracked alone.
//!
//! - Keep one `Unmapped`, at first `Unmapped::new`, from the first call of the index on.
//! - Call `reserve` before a page is tracked, and `init` behind it: it looks for a held leaf that maps the page, where
//!   it isn't known that there is none.
//! - Where a place of a tree is given a leaf, call `put_leaf` with the outputs of its core, which `outputs_of` gives. It
//!   takes the leaf, or tells the least page of a tree that the leaf maps.
//! - Where pages are attached, `bad_table` tells the least that keeps them from it, and `cover_attached` takes them.
//!
//! Each contract speaks of the free pages and of the bounds by the words of `specs/Unmapped.antt`.
#![tactic(auto)]

mod held;
pub mod laws;
mod leaves;
mod outputs;
mod unmapped;

pub use outputs::{Outputs, outputs_of};
pub use unmapped::Unmapped;
