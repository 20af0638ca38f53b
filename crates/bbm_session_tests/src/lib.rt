//! Tests of the top call: what no clause says of it. They stand in a crate of their own, so that each crate is proved
//! once.
#![tactic(auto)]

#[cfg(test)]
mod tests;
