//! The theorem of this crate is the contract of `History`: its trees are those that the definitions make of the events
//! taken.
//!
//! The trees of translation tables that a list of events makes, and what is asked of them, by a search of the events.
#![tactic(auto)]

mod clean;
mod covers;
mod emptied;
mod fresh;
mod history;
mod limbo;
mod links;
mod log;
mod node;
mod starts;
mod taken;
mod tree;
mod trees;

pub use clean::maps;
pub use history::History;
pub use node::{Above, Node};
pub use tree::next_page;
