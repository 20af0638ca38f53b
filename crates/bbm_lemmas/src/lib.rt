//! The theorem of this crate is `law_elements`: the elements of a list by recursion are those that stand at a number
//! below its length.
//!
//! The elements of lists, Booleans, options, lists of numbers, and tests of some or every PE, for proofs. The crate has
//! no code but an empty body: crates above cite the lemmas of its `proofs`.
#![tactic(auto)]

ghost use Rattle.std.specs.Prelude.{List, Contains};
ghost use Rattle.bbm_lemmas.specs.Elements.{In};

/// The elements of a list by recursion, of which the lemmas speak, are those that stand at a number below its length.
/// The call does nothing; the law is its contract.
#[tactic(auto, using(crate::proofs::Elements::to_contains, crate::proofs::Elements::from_contains))]
pub fn law_elements<X>()
    ensures sound { (xs : List X) (x : X) → In xs x → Contains xs x }
    ensures complete { (xs : List X) (x : X) → Contains xs x → In xs x }
{}
