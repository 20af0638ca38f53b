//! The theorem of this crate is the contract of `PageNumbers`: each page gets one number, and is found by it.
//!
//! Numbers of pages, and values by them.
//!
//! `PageNumbers` gives each page a number once, from 0 on, in the order in which pages come. Its look-ups take the same
//! few steps whatever pages there are. The number of a page has 36 bits, six digits in base 64. The first digit chooses
//! one of 64 first nodes, and each further one a slot of the node so far, which leads to the next node; in the last node
//! it leads to the page's number. So no choice of pages makes a look-up longer, as a choice of keys that all collide
//! does with a hash table.
//!
//! `PageColumn` has a value for each of the pages, which is found by the page's number at once. Contracts see it as they
//! see an `IndexMap` of the kit: as the list of its entries, in the order in which their pages came, with the words of
//! that crate.
#![tactic(auto)]

mod column;
mod nodes;
mod number;
mod numbers;

pub use column::PageColumn;
pub use number::PageNumber;
pub use numbers::PageNumbers;
