//! The laws of safe logs, and of isolated ones: no TLB keeps what a write, an init or a new root needs gone; and none
//! lets a guest reach a page of a translation table.

ghost use Rattle.std.specs.Prelude.{◌≡◌, ℕ, true, List};
ghost use Rattle.bbm_events.specs.Heading.{Heading, heading_ok};
ghost use Rattle.bbm_rules.specs.Claims.{Trust};
ghost use Rattle.bbm_rules.specs.Outcome.{verdict_of_bytes};
ghost use Rattle.bbm_rules.specs.declared.limits.Limits.{Limits};
ghost use Rattle.bbm_rules.specs.declared.verdict.Verdict.TheVariants.{Accepted};
ghost use Rattle.bbm_tlb_machine.specs.Accepted.{HoldsOfLog};
ghost use Rattle.bbm_tlb_machine.specs.FineSteps.{FineSteps};
ghost use Rattle.bbm_tlb_machine.specs.Isolated.{IsolatedBySay, WalksTables};
ghost use Rattle.bbm_tlb_machine.specs.KnownOfMachine.{Known};
ghost use Rattle.bbm_tlb_machine.specs.MachineLaws.{EntriesAreFine, KeptHasOneRoot, KeptIsIsolated, KeptIsSafe};
ghost use Rattle.bbm_tlb_machine.specs.MachineLaws.{KeptWalksTables};
ghost use Rattle.bbm_tlb_machine.specs.Safe.{OneRootATag, Safe};

use bbm_descriptor::laws::{law_need, law_same_core_is_equal};
use bbm_events::{law_header_in_range, law_item_fits};
use bbm_histories::{
    law_frozen_view, law_held_changes, law_limbo_is_empty, law_lower_leaves, law_one_node,
    law_one_position, law_patterns_stay, law_proper, law_tables_are_clean, law_tags, law_uniform,
    law_window,
};
use bbm_rules::{
    law_answered, law_childless, law_each_rule, law_equality_tests, law_held, law_last_valid,
    law_mapped, law_notes, law_notes_keep_the_events, law_readable_tag, law_root, law_root_pages,
    law_seen, law_tag_held, law_tag_kept, law_tag_left, law_tag_set, law_tree,
};
use bbm_tlbi_scope::{law_cover_takes, law_taken_is_covered, law_whole_tag_takes};

/// The laws of the crates below that the law of safe logs stands on.
pub fn known()
    ensures { (heading : Heading) (trust : Trust) → heading_ok heading ≡ true → Known heading trust }
{
    law_answered();
    law_childless();
    law_cover_takes();
    law_each_rule();
    law_equality_tests();
    law_frozen_view();
    law_held();
    law_held_changes();
    law_last_valid();
    law_limbo_is_empty();
    law_lower_leaves();
    law_mapped();
    law_need();
    law_notes();
    law_notes_keep_the_events();
    law_one_node();
    law_one_position();
    law_patterns_stay();
    law_proper();
    law_readable_tag();
    law_root();
    law_root_pages();
    law_same_core_is_equal();
    law_seen();
    law_tables_are_clean();
    law_tag_held();
    law_tag_kept();
    law_tag_left();
    law_tag_set();
    law_tags();
    law_taken_is_covered();
    law_tree();
    law_uniform();
    law_whole_tag_takes();
    law_window();
}

/// In each run over a log that keeps the rules, each entry that some TLB keeps is fine, point by point, whatever the
/// rules trust; and so each unanswered TLBI that covers a place of a part of it takes it. A log has a header that can
/// be said, and each event fits it. The law is `EntriesAreFine`.
pub fn law_fine()
    ensures { (heading : Heading) (trust : Trust) → EntriesAreFine heading trust }
{
    known();
}

/// What a step or an event makes of a fine entry is fine, and what strikes a fine entry covers the place at which it
/// ends, over each log that keeps the rules, whatever the rules trust. The law is `FineSteps`.
pub fn law_fine_steps()
    ensures { (heading : Heading) (trust : Trust) → heading_ok heading ≡ true → FineSteps heading trust }
{
    known();
}

/// Every log that keeps the rules is safe: in each run over it no TLB keeps what a write, an init or a register write
/// needs gone. So it is where the rules trust every pattern, and where they trust those of a list of claims alone. A
/// log has a header that can be said, and each event fits it. The law is `KeptIsSafe`.
pub fn law_safe()
    ensures { (heading : Heading) (trust : Trust) → KeptIsSafe heading trust }
{
    known();
}

/// In each run over the first events of a log that keeps the rules, at every moment, where a PE may read under the tag
/// of an entry that some TLB keeps, it reads through the entry's root. So no TLB of a PE keeps an entry under a tag that
/// is readable at that PE for another root. A log has a header that can be said, and each event fits it. The law is
/// `KeptHasOneRoot`.
pub fn law_one_root_a_tag()
    ensures { (heading : Heading) (trust : Trust) → KeptHasOneRoot heading trust }
{
    known();
}

/// Where the verdict on bytes is that they are accepted, their first line is a header, and the log of all their events
/// is safe under it and has one root a tag. The law is the contract.
pub fn law_accepted_is_safe()
    ensures safe { (trust : Trust) (limits : Limits) (bytes : List ℕ) (count : ℕ) →
        verdict_of_bytes trust limits bytes ≡ Accepted count → HoldsOfLog Safe trust limits bytes }
    ensures one_root { (trust : Trust) (limits : Limits) (bytes : List ℕ) (count : ℕ) →
        verdict_of_bytes trust limits bytes ≡ Accepted count → HoldsOfLog OneRootATag trust limits bytes }
{
    law_header_in_range();
    law_item_fits();
    law_one_root_a_tag();
    law_safe();
}

/// Every log that keeps the rules under a header with `isolated` is isolated: at no moment of a run over it a TLB maps
/// a page of a tree at stage 2, nor did one since the last init of the page; but for what was read through a root that
/// was given up, which is under a tag that the PE may read for no root. A log has a header that can be said, and each
/// event fits it. The law is `KeptIsIsolated`.
pub fn law_isolated()
    ensures { (heading : Heading) (trust : Trust) → KeptIsIsolated heading trust }
{
    known();
}

/// In each run over the first events of a log that keeps the rules, each page of a root that a PE may read under a tag
/// is one of the trees, and so is the next page of each entry that ends in a table and whose root wasn't given up
/// since. A log has a header that can be said, and each event fits it. The law is `KeptWalksTables`.
pub fn law_walks_tables()
    ensures { (heading : Heading) (trust : Trust) → KeptWalksTables heading trust }
{
    known();
}

/// Where the verdict on bytes is that they are accepted, and their header has `isolated`, the log of all their events
/// is isolated. In each accepted log what walks read are pages of trees. The law is the contract.
pub fn law_accepted_is_isolated()
    ensures isolated { (trust : Trust) (limits : Limits) (bytes : List ℕ) (count : ℕ) →
        verdict_of_bytes trust limits bytes ≡ Accepted count → HoldsOfLog (IsolatedBySay trust) trust limits bytes }
    ensures tables { (trust : Trust) (limits : Limits) (bytes : List ℕ) (count : ℕ) →
        verdict_of_bytes trust limits bytes ≡ Accepted count
        → HoldsOfLog (λ heading log. WalksTables heading trust log) trust limits bytes }
{
    law_header_in_range();
    law_isolated();
    law_item_fits();
    law_walks_tables();
}
