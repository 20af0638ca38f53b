//! The names of rules, causes, limits and phases.

ghost use Rattle.std.specs.Prelude.{◌≡◌, ◌≤◌, length};
ghost use Rattle.bbm_rules.specs.Texts.{rule_text, cause_text, limit_text};
ghost use Rattle.bbm_report.specs.ReportLines.{phase_word as word_of};

use bbm_events::Malformed;
use bbm_regimes::Which;
use bbm_rules::{Phase, Rule};

/// The number and the name of a rule.
pub(crate) fn rule_words(rule: Rule) -> &'static [u8]
    ensures words { result.now ≡ rule_text rule }
    ensures short { length result.now ≤ 30 }
{
    match rule {
        Rule::WrongWorld => b"1 wrong-world",
        Rule::NoLock => b"2 no-lock",
        Rule::NullWritten => b"3 null-written",
        Rule::BreakBeforeMake => b"4 break-before-make",
        Rule::LimboMake => b"5 limbo-make",
        Rule::NotFresh => b"6 not-fresh",
        Rule::RewrittenFresh => b"7 rewritten-fresh",
        Rule::BadKind => b"8 bad-kind",
        Rule::GlobalUser => b"9 global-user",
        Rule::PageInUse => b"10 page-in-use",
        Rule::NoRoot => b"11 no-root",
        Rule::TagConflict => b"12 tag-conflict",
        Rule::RootInUse => b"13 root-in-use",
        Rule::UnsyncedVmid => b"14 unsynced-vmid",
        Rule::BadOperand => b"15 bad-operand",
        Rule::LockBusy => b"16 lock-busy",
        Rule::LockNotMine => b"17 lock-not-mine",
        Rule::TableMapped => b"18 table-mapped",
    }
}

/// The number and the name of a cause.
pub(crate) fn cause_words(cause: Malformed) -> &'static [u8]
    ensures words { result.now ≡ cause_text cause }
    ensures short { length result.now ≤ 30 }
{
    match cause {
        Malformed::NoMagic => b"1 NoMagic",
        Malformed::BadHeader => b"2 BadHeader",
        Malformed::UnknownWord => b"3 UnknownWord",
        Malformed::BadNumber => b"4 BadNumber",
        Malformed::BadPe => b"5 BadPe",
        Malformed::BadAddress => b"6 BadAddress",
        Malformed::MissingField => b"7 MissingField",
        Malformed::ExtraField => b"8 ExtraField",
        Malformed::NoEnd => b"9 NoEnd",
        Malformed::WrongCount => b"10 WrongCount",
        Malformed::AfterEnd => b"11 AfterEnd",
        Malformed::BadLabel => b"13 BadLabel",
    }
}

/// The name of a limit.
pub(crate) fn limit_words(which: Which) -> &'static [u8]
    ensures words { result.now ≡ limit_text which }
    ensures short { length result.now ≤ 30 }
{
    match which {
        Which::LineBytes => b"line-bytes",
        Which::Pages => b"pages",
        Which::Roots => b"roots",
        Which::Values => b"values",
        Which::Events => b"events",
        Which::Steps => b"steps",
        Which::Lines => b"lines",
        Which::Claims => b"claims",
    }
}

/// The name of a phase.
pub(crate) fn phase_word(phase: Phase) -> &'static [u8]
    ensures word { result.now ≡ word_of phase }
    ensures short { length result.now ≤ 8 }
{
    match phase {
        Phase::Clean => b"clean",
        Phase::Live => b"live",
        Phase::Broken => b"broken",
        Phase::Seen => b"seen",
        Phase::Half => b"half",
        Phase::Cleansed => b"cleansed",
    }
}
