//! Tests of the crates that give evidence: what no clause says. They stand in a crate of their own, so that each crate
//! is proved once.
#![tactic(auto)]

#[cfg(test)]
mod certificates;
#[cfg(test)]
mod counterrun;
#[cfg(test)]
mod idle;
#[cfg(test)]
mod lines;
