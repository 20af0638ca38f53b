//! The fresh pages.

ghost use Rattle.std.specs.Prelude.{◌≡◌, ◌==◌, ◌&&◌, ◌||◌, ℕ, not, find, is_some, IfOk};
ghost use Rattle.bbm_rules.specs.Lists.{among};
ghost use Rattle.bbm_rules.specs.Pages.{may_be_fresh};

use crate::node::Node;
use crate::tree::has_page;
use bbm_events::Event;
use bbm_regimes::{NoMemory, Page};
use std::alloc::Global;

/// The pages but for this one.
fn without(alloc: Global, pages: &[Page], but: Page) -> Result<Vec<Page>, NoMemory>
    ensures { IfOk result (λ left. (page : ℕ) → among page left.items
        ≡ (not (but == page) && among page pages.now)) }
{
    let mut left = Vec::new(alloc);
    for page in pages {
        if *page != but {
            left.push(*page)?;
        }
    }
    Ok(left)
}

/// The pages, and this one. `NoMemory` where there is none.
pub fn with(alloc: Global, pages: &[Page], page: Page) -> Result<Vec<Page>, NoMemory>
    ensures { IfOk result (λ more. (q : ℕ) → among q more.items ≡ (page == q || among q pages.now)) }
{
    let mut more = without(alloc, pages, page)?;
    more.push(page)?;
    Ok(more)
}

/// The pages that may be fresh after the event.
fn candidates(alloc: Global, fresh: &[Page], event: &Event) -> Result<Vec<Page>, NoMemory>
    ensures { IfOk result (λ pages. (page : ℕ) → among page pages.items
        ≡ may_be_fresh event.now page (among page fresh.now)) }
{
    match *event {
        Event::Init { pe: _, page } => with(alloc, fresh, page),
        Event::Null { pe: _, page } => without(alloc, fresh, page),
        _ => {
            let pages = fresh.to_vec(alloc)?;
            Ok(pages)
        }
    }
}

/// The pages that are in no tree.
fn unused(alloc: Global, pages: &[Page], tree: &[Node]) -> Result<Vec<Page>, NoMemory>
    ensures { IfOk result (λ left. (page : ℕ) → among page left.items
        ≡ (among page pages.now && not (is_some (find (λ n. n.page == page) tree.now)))) }
{
    let mut left = Vec::new(alloc);
    for page in pages {
        if !has_page(tree, *page) {
            left.push(*page)?;
        }
    }
    Ok(left)
}

/// The fresh pages after one more event, where these were the fresh pages before it, and these are the trees after it.
/// `NoMemory` where there is none.
pub fn fresh_after(
    alloc: Global,
    fresh: &[Page],
    event: &Event,
    tree: &[Node],
) -> Result<Vec<Page>, NoMemory>
    ensures { IfOk result (λ pages. (page : ℕ) → among page pages.items
        ≡ (may_be_fresh event.now page (among page fresh.now)
        && not (is_some (find (λ n. n.page == page) tree.now)))) }
{
    let pages = candidates(alloc, fresh, event)?;
    unused(alloc, &pages, tree)
}

/// Whether the page is in the list.
pub fn has(pages: &[Page], page: Page) -> bool
    ensures { result ≡ among page pages.now }
{
    pages.iter().any(|other| *other == page)
}
