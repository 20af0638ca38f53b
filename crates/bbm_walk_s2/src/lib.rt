//! The theorem of this crate is the contract of `walk`: it finds the leaf of the listing of the tables that holds the
//! address, if there is one.
//!
//! Walks of stage 2 translation tables, whose roots may have joined pages.
//!
//! It serves alone: whoever has the values of a table's places, as `Pairs` or by a `Memory` of one's own, asks `walk`
//! where a root translates an intermediate physical address. Its contract is the listing of the tables, a definition
//! that knows of places, of their regions and of their values alone (`Listing.antt` of `bbm_descriptor`):
//!
//!     let answer = walk(&Pairs { pairs: &values }, S2Root { start: Level::ONE, pages: 16, page }, 0x4000_1234);
//!
//! `tests::is_mapped` is a proved caller: it tells exactly whether a leaf of the listing holds an address.
#![tactic(auto)]

pub mod root;
pub mod walking;

pub use bbm_descriptor::{Memory, Pairs, Walk};
pub use root::S2Root;
pub use walking::walk;
