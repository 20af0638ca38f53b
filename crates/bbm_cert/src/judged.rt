//! What claims alone make of a log.

use bbm_rules::Rule;

/// What claims alone make of a log.
#[derive(Clone, Copy, PartialEq, Eq)]
pub enum Judged {
    /// Each event of the log keeps the rules.
    Yes,
    /// Some event breaks a rule.
    No {
        /// The position of the first such event, counted from 1.
        position: u32,
        /// The least rule that it breaks.
        rule: Rule,
        /// The address or the number that is reported with the rule.
        at: u64,
    },
}
