//! The theorem of this crate is `law_every_pe`: a test of every PE below a count is one of each.
//!
//! The small types that every other crate speaks of: processing elements and sets of them, pages, places and
//! levels of translation tables, translation regimes, registers, tags, and intervals of input pages.
#![tactic(auto)]

pub mod address;
pub mod interval;
pub mod laws;
pub mod level;
pub mod pe;
pub mod regime;
pub mod register;

pub use address::{PAGE_BYTES, PLACES, Page, Place};
pub use interval::Interval;
pub use laws::law_every_pe;
pub use level::{Level, hint_of};
pub use pe::{Pe, PeCount, PeMask};
pub use regime::{
    AsidFrom, HypWorld, KernelWorld, Kind, MAX_LINES, NoMemory, Reg, Tag, Which, World,
};
pub use register::{base_of, kind_of, same_reg, same_tag, tag_number, tag_of};
