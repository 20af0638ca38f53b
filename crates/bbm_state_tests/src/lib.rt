//! Tests of the crates that keep state: what no clause says. They stand in a crate of their own, so that each crate is
//! proved once. Beside them an example of the calls of bbm_roots, with its proof.
#![tactic(auto)]

pub mod example;
#[cfg(test)]
mod place_map;
#[cfg(test)]
mod roots;
#[cfg(test)]
mod tree_index;
