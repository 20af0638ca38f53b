//! Tests of the crates that judge by the whole history: each public call once, over one log, with what was worked out by
//! hand. They stand in a crate of their own, so that each crate is proved once.
#![tactic(auto)]

#[cfg(test)]
mod events;
#[cfg(test)]
mod history;
#[cfg(test)]
mod isolated;
#[cfg(test)]
mod lists;
