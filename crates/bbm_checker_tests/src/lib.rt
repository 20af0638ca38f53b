//! Tests of checkers, of the generated log, and of the machine of TLBs with its texts: each public call once, with what
//! was worked out by hand. They stand in a crate of their own, so that each crate is proved once.
#![tactic(auto)]

#[cfg(test)]
mod checkers;
#[cfg(test)]
mod generator;
#[cfg(test)]
mod read_ahead;
#[cfg(test)]
mod runs;
#[cfg(test)]
mod texts;
