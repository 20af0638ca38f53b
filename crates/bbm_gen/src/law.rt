//! The law of the generated logs.

ghost use Rattle.bbm_gen.specs.Generated.{GeneratedKeepsRules};

use crate::below::below;

/// The first `count` events of the generated log of the number n keep the rules: each of them breaks none after those
/// before it. Each fits the header, and none reaches a limit of pages, roots or register values. The law is
/// `GeneratedKeepsRules`.
pub fn law_gen(n: u64, count: u32)
    ensures { GeneratedKeepsRules n count }
{
    below();
}
