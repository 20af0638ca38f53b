//! Tests of the crates of types, tables and automata: what no clause says. Values that were worked out by hand stand in
//! `proofs`, as worked cases of the definitions by which those crates' contracts speak.
#![tactic(auto)]

#[cfg(test)]
mod entry_state;
#[cfg(test)]
mod io;
#[cfg(test)]
mod walk_s1;
#[cfg(test)]
mod walk_s2;
#[cfg(test)]
mod walked;
