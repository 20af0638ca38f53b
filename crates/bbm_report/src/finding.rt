//! What `walk` finds.

ghost use Rattle.std.specs.Prelude.{◌≡◌, ℕ, ◌*◌, ◌%◌, ◌↔◌, List, true, IsTrue, IsSome, IfSome};
ghost use Rattle.std.specs.List.{list_all};
ghost use Rattle.bbm_regimes.specs.declared.regime.Kind.TheVariants.{S2, Ttbr1};
ghost use Rattle.bbm_regimes.specs.SameRegister.{same_kind};
ghost use Rattle.bbm_regimes.specs.World as worlds;
ghost use Rattle.bbm_walk_s2.specs.Joined.{can_join};
ghost use Rattle.bbm_events.specs.Fits.{fits_heading};
ghost use Rattle.bbm_events.specs.declared.event.Event.{Event};
ghost use Rattle.bbm_report.specs.Further.{Found};

use crate::questions::Question;
use bbm_descriptor::Walk;
use bbm_events::Header;
use bbm_regimes::{Kind, PAGE_BYTES, Page};
use bbm_rules::Checker;
use bbm_walk_s1::S1Root;
use bbm_walk_s2::S2Root;

/// Whether the input range of the kind is the high one.
fn is_high(kind: Kind) -> bool
    ensures { result ≡ same_kind kind Ttbr1 }
{
    match kind {
        Kind::Ttbr1 => true,
        _ => false,
    }
}

/// The number of joined pages of a stage 2 root.
#[tactic(auto, using(crate::proofs::Starts::joined))]
fn joined_pages(header: &Header) -> u8
    ensures count { result ≡ worlds.page_count header.now.world S2 }
    ensures joined { IsTrue (can_join (worlds.start_of header.now.world S2) result) }
{
    header.in_ranges();
    header.page_count(Kind::S2)
}

/// The stage 2 root at the page, None where the page isn't aligned to all pages of a root.
fn joined_root(header: &Header, page: Page) -> Option<S2Root>
    ensures aligned { IsSome result ↔ (page % (PAGE_BYTES * worlds.page_count header.now.world S2) ≡ 0) }
    ensures start { IfSome result (λ root. root.start ≡ worlds.start_of header.now.world S2) }
    ensures pages { IfSome result (λ root. root.pages ≡ worlds.page_count header.now.world S2) }
    ensures page { IfSome result (λ root. root.page ≡ page) }
{
    let start = header.start_level(Kind::S2);
    let pages = joined_pages(header);
    if page.get() % (PAGE_BYTES * pages as u64) == 0 {
        Some(S2Root { start, pages, page })
    } else {
        None
    }
}

/// What `walk` finds after the events that the checker took: None where the page isn't the first page of a declared root
/// of the kind, else the answer of a walk of that root for the address, by the value that each place has. It holds for
/// each history of the header that the checker stands for and whose events fit the header. It reads at most four
/// values. Source: project's own choice.
pub fn find<C: Checker>(checker: &C, header: &Header, question: Question) -> Option<Walk>
    ensures { (h : List Event) → C.stands checker.now header.now h → list_all (fits_heading header.now) h ≡ true
        → Found header.now h question result }
{
    if !checker.is_root(question.kind, question.root) {
        return None;
    }
    match question.kind {
        Kind::S2 => {
            let root = joined_root(header, question.root)?;
            Some(bbm_walk_s2::walk(checker, root, question.addr))
        }
        kind => {
            let root = S1Root {
                start: header.start_level(kind),
                high: is_high(kind),
                page: question.root,
            };
            Some(bbm_walk_s1::walk(checker, root, question.addr))
        }
    }
}
