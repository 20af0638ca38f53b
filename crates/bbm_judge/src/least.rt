//! The least of numbers and pages.

ghost use Rattle.std.specs.Prelude.{◌≡◌, ◌∷◌, not};
ghost use Rattle.bbm_rules.specs.Lists as lists;
ghost use Rattle.bbm_rules.specs.Pages.{is_fresh};
ghost use Rattle.bbm_rules.specs.Rules as rules;
ghost use Rattle.bbm_judge.specs.Lesser as spec;
ghost use Rattle.bbm_oracle_trees.specs.Past.{notes};

use bbm_oracle_patterns::Evidence;
use bbm_oracle_trees::History;
use bbm_regimes::Page;

/// The lesser of two numbers, where one or both may be missing.
pub fn lesser(one: Option<u64>, other: Option<u64>) -> Option<u64>
    ensures { result ≡ spec.lesser one other }
{
    match one {
        Some(one) => match other {
            Some(other) => Some(one.min(other)),
            None => Some(one),
        },
        None => other,
    }
}

/// The page, where it isn't fresh.
fn unfresh<E: Evidence>(history: &History<E>, page: Page) -> Option<u64>
    ensures { result
        ≡ lists.if_so (not (is_fresh history.now.heading history.now.trust (notes history.now) page)) page }
{
    if history.is_fresh(page) {
        None
    } else {
        Some(page.get())
    }
}

/// The least of the pages that isn't fresh, None where each is.
pub fn least_unfresh<E: Evidence>(history: &History<E>, pages: &[Page]) -> Option<u64>
    ensures { result ≡ lists.least (rules.unfresh history.now.heading history.now.trust (notes history.now) pages.now) }
{
    let mut found = None;
    for page in pages {
        found = lesser(found, unfresh(history, *page));
    }
    found
}

/// Whether the page is in the list.
fn has_page(pages: &[Page], page: Page) -> bool
    ensures { result ≡ lists.among page pages.now }
{
    pages.iter().any(|other| *other == page)
}

/// Whether there is a number and it is at most that of the page.
fn is_at_most(found: Option<u64>, page: Page) -> bool
    ensures { result ≡ spec.is_at_most found page }
{
    match found {
        Some(found) => found <= page.get(),
        None => false,
    }
}

/// The least of the pages that stand in the list more than once, with one more page in front.
fn with_repeated(found: Option<u64>, page: Page, behind: &[Page]) -> Option<u64>
    requires { found ≡ lists.least (lists.repeated behind.now) }
    ensures { result ≡ lists.least (lists.repeated (page ∷ behind.now)) }
{
    if is_at_most(found, page) {
        return found;
    }
    if has_page(behind, page) {
        Some(page.get())
    } else {
        found
    }
}

/// The least of the pages that stand in the list more than once, None where each stands there once. A page is looked
/// for only where it is less than what was found.
pub fn least_repeated(pages: &[Page]) -> Option<u64>
    ensures { result ≡ lists.least (lists.repeated pages.now) }
{
    let mut found = None;
    let mut rest = pages.len();
    while rest > 0 {
        rest -= 1;
        found = with_repeated(found, pages[rest], &pages[rest + 1..]);
    }
    found
}
