//! Laws of the definitions on the annotated history: what computes says the same as a sentence over all ways to split
//! a history, and what the next layers need of a history that keeps the rules.

ghost use Rattle.std.specs.Prelude.{◌≡◌, ℕ, true, List};
ghost use Rattle.std.specs.Prelude.{Some, ◌≢◌};
ghost use Rattle.bbm_events.specs.Heading.{Heading};
ghost use Rattle.bbm_events.specs.declared.event.Event.{Event};
ghost use Rattle.bbm_rules.specs.Broken.{breaks};
ghost use Rattle.bbm_rules.specs.Claims.{Trust};
ghost use Rattle.bbm_rules.specs.Covers.{noted};
ghost use Rattle.bbm_rules.specs.Notes.{Noted};
ghost use Rattle.bbm_rules.specs.Pages.{is_fresh};
ghost use Rattle.bbm_rules.specs.declared.phase.Phase.TheVariants.{Clean};
ghost use Rattle.bbm_rules.specs.declared.rule.Rule.TheVariants.{BreakBeforeMake};
ghost use Rattle.bbm_rules.specs.Phases.{phase_of};
ghost use Rattle.bbm_rules.specs.TreeSentences.{IsFresh};
ghost use Rattle.bbm_rules.specs.BrokenLaws.{EachRule, NoGlobalUser, NoTableMapped, NotesOfOlder};
ghost use Rattle.bbm_rules.specs.HeldLaws.{CleansedBySentence, HalfBySentence, HeldBySentence, LastValidBySentence};
ghost use Rattle.bbm_rules.specs.HeldLaws.{SeenBySentence};
ghost use Rattle.bbm_rules.specs.TreeLaws.{AttachesFresh, ChildlessBySentence, CleanBySentence, LimboBySentence};
ghost use Rattle.bbm_rules.specs.TreeLaws.{MappedBySentence, PagesOfRoots, PathsBySentence, TreeBySentence};

/// A place is seen exactly where some write of it is published to the PE. The law is `SeenBySentence`.
pub fn law_seen()
    ensures { (heading : Heading) → SeenBySentence heading }
{}

/// A place is half exactly where a write of it is published to the PE, after that a TLBI that reaches the PE and covers
/// it half is issued, and that TLBI is answered. The law is `HalfBySentence`.
pub fn law_half()
    ensures { (heading : Heading) → HalfBySentence heading }
{}

/// A place is cleansed exactly where one of the two patterns stands after its last valid write, in one step or in two,
/// at positions that are trusted. The law is `CleansedBySentence`.
pub fn law_cleansed()
    ensures { (heading : Heading) (trust : Trust) → CleansedBySentence heading trust }
{}

/// The last valid write of a place is what the sentence says. The law is `LastValidBySentence`.
pub fn law_last_valid()
    ensures { LastValidBySentence }
{}

/// A place holds a value exactly where the value was written and is valid, and since then there was no valid write of
/// the place and no init of its page, and at some PE the place isn't cleansed. The law is `HeldBySentence`.
pub fn law_held()
    ensures { (heading : Heading) (trust : Trust) → HeldBySentence heading trust }
{}

/// A node is one of the trees exactly where a path of held tables leads to it from a page of a declared root, at a
/// level below 4; and so the page below a place of one that holds a table is in the trees. The law is `TreeBySentence`.
pub fn law_tree()
    ensures { (heading : Heading) (trust : Trust) → TreeBySentence heading trust }
{}

/// The places of a node are in limbo exactly where the present value of a place above it is invalid. The law is
/// `LimboBySentence`.
pub fn law_limbo()
    ensures { LimboBySentence }
{}

/// A value is a childless table exactly where no place of its next page holds anything. The law is
/// `ChildlessBySentence`.
pub fn law_childless()
    ensures { (heading : Heading) (trust : Trust) → ChildlessBySentence heading trust }
{}

/// A page is fresh exactly where it was initialised, and since then it was in no tree at any moment and wasn't declared
/// null. The call does nothing; the law is its contract.
#[tactic(auto, using(crate::proofs::TreeLaw::laws))]
pub fn law_fresh()
    ensures sound { (heading : Heading) (trust : Trust) (h : List Noted) (page : ℕ) →
        is_fresh heading trust h page ≡ true → IsFresh heading trust h page }
    ensures complete { (heading : Heading) (trust : Trust) (h : List Noted) (page : ℕ) →
        IsFresh heading trust h page → is_fresh heading trust h page ≡ true }
{}

/// A page is mapped exactly where a place of a page of a tree holds a leaf of stage 2 that maps it. The law is
/// `MappedBySentence`.
pub fn law_mapped()
    ensures { (heading : Heading) (trust : Trust) → MappedBySentence heading trust }
{}

/// A page is clean exactly where it was initialised, and was mapped at no moment since, that of the init included. The
/// law is `CleanBySentence`.
pub fn law_clean()
    ensures { (heading : Heading) (trust : Trust) → CleanBySentence heading trust }
{}

/// The ends that begin in a page are those to which a path leads: the page itself, and the ends of the paths of at most
/// so many places through fresh pages; and so it is with the ends of attached pages. The law is `PathsBySentence`.
pub fn law_paths()
    ensures { (heading : Heading) (trust : Trust) → PathsBySentence heading trust }
{}

/// Each page of a root has one node: of the kind of the root, at its start level, with no place above. The law is
/// `PagesOfRoots`.
pub fn law_root_pages()
    ensures { (heading : Heading) → PagesOfRoots heading }
{}

/// Where an event attaches pages and doesn't break the rule on fresh pages, each path of one place at least that begins
/// in an attached page leads to a fresh page; and two paths that lead to one page are the same. The law is
/// `AttachesFresh`.
pub fn law_attaching()
    ensures { (heading : Heading) (trust : Trust) → AttachesFresh heading trust }
{}

/// An event that doesn't break the rule on leaves of the lower range writes no leaf for every ASID at a place of a tree
/// of that range, and attaches no page with one. The law is `NoGlobalUser`.
pub fn law_global_user()
    ensures { (heading : Heading) (trust : Trust) → NoGlobalUser heading trust }
{}

/// Where the header has `isolated`, an event doesn't break the rule on table pages exactly where it puts no leaf over a
/// table page, nor over one that it makes so, and each page that it makes so is clean. The law is `NoTableMapped`.
pub fn law_table_mapped()
    ensures { (heading : Heading) (trust : Trust) → NoTableMapped heading trust }
{}

/// A log keeps the rules exactly where each event breaks none of the eighteen rules, each asked by itself, after the
/// events before it. The law is `EachRule`.
pub fn law_each_rule()
    ensures { (heading : Heading) (trust : Trust) → EachRule heading trust }
{}

/// A place at which an event breaks the rule of break-before-make is clean at no PE, since it holds a value. The call
/// does nothing; the law is its contract.
#[tactic(auto, using(crate::proofs::PhaseLaw::laws))]
pub fn law_refused_place()
    ensures { (heading : Heading) (trust : Trust) (h : List Event) (e : Event) (at p : ℕ) →
        breaks heading trust (noted heading trust h) e BreakBeforeMake ≡ Some at
        → phase_of heading trust h at p ≢ Clean }
{}

/// The annotated history of a history ends in that of its older part. The law is `NotesOfOlder`.
pub fn law_notes()
    ensures { (heading : Heading) (trust : Trust) → NotesOfOlder heading trust }
{}
