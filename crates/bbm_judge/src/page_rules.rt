//! The rules of pages: fresh pages and pages in use.
//! Source: project's own choice, where no other is named.

ghost use Rattle.std.specs.Prelude.{◌≡◌, ◌++◌, ℕ, true, IfOk, OnOk};
ghost use Rattle.bbm_events.specs.declared.event.Event.{Event};
ghost use Rattle.bbm_events.specs.Fits.{fits_heading};
ghost use Rattle.bbm_rules.specs.Attach as attach;
ghost use Rattle.bbm_rules.specs.Lists.{least};
ghost use Rattle.bbm_rules.specs.Places.{page_of};
ghost use Rattle.bbm_rules.specs.Rules as rules;
ghost use Rattle.bbm_rules.specs.Tree as trees;
ghost use Rattle.bbm_oracle_trees.specs.Past.{notes};

use crate::ends::{Attached, End, attached_by};
use crate::least::{least_repeated, least_unfresh, lesser};
use crate::starts::root_pages;
use bbm_events::Event;
use bbm_oracle_patterns::Evidence;
use bbm_oracle_tags::pages::{has_values, is_null};
use bbm_oracle_trees::History;
use bbm_regimes::{NoMemory, Page};
use std::alloc::Global;

/// Whether the page is in a tree.
fn is_in_tree<E: Evidence>(history: &History<E>, page: Page) -> bool
    ensures { result ≡ trees.in_tree history.now.heading history.now.trust (notes history.now) page }
{
    history.node_of(page).is_some()
}

/// Adds the pages of the ends. `NoMemory` where there is none.
fn add_pages(pages: &mut Vec<Page>, ends: &[End]) -> Result<(), NoMemory>
    ensures { OnOk result (pages.new.items ≡ pages.old.items ++ attach.pages_of ends.now) }
{
    for end in ends {
        let page = end.page;
        pages.push(page)?;
    }
    Ok(())
}

/// The pages in which the attached paths end. `NoMemory` where there is none.
pub fn all_pages(alloc: Global, attached: &Attached) -> Result<Vec<Page>, NoMemory>
    ensures { IfOk result (λ pages. pages.items ≡ attach.pages_of (attach.all_ends attached.now)) }
{
    let mut pages = Vec::new(alloc);
    add_pages(&mut pages, &attached.first)?;
    add_pages(&mut pages, &attached.deeper)?;
    Ok(pages)
}

/// The pages of the ends that count as fresh: of a `root` those of longer paths alone. `NoMemory` where there is none.
fn judged_pages(alloc: Global, event: &Event, attached: &Attached) -> Result<Vec<Page>, NoMemory>
    ensures { IfOk result (λ pages. pages.items ≡ attach.pages_of (rules.judged_ends event.now attached.now)) }
{
    match *event {
        Event::Root { .. } => {
            let mut pages = Vec::new(alloc);
            add_pages(&mut pages, &attached.deeper)?;
            Ok(pages)
        }
        _ => all_pages(alloc, attached),
    }
}

/// The least page in which an attached path must not end. `NoMemory` where there is none.
fn least_bad_end<E: Evidence>(
    alloc: Global,
    history: &History<E>,
    event: &Event,
    attached: &Attached,
) -> Result<Option<u64>, NoMemory>
    ensures { IfOk result (λ found. found
        ≡ least (rules.bad_ends history.now.heading history.now.trust (notes history.now) event.now attached.now)) }
{
    let judged = judged_pages(alloc, event, attached)?;
    let all = all_pages(alloc, attached)?;
    Ok(lesser(least_unfresh(history, &judged), least_repeated(&all)))
}

/// The page, where it is in no tree, isn't fresh and isn't a null page.
fn untracked<E: Evidence>(history: &History<E>, page: Page) -> Option<u64>
    ensures { (pe place value : ℕ) → page_of place ≡ page → result
        ≡ least (rules.untracked_page history.now.heading history.now.trust (notes history.now)
        (Event.Write pe place value)) }
{
    if is_in_tree(history, page)
        || history.is_fresh(page)
        || is_null(history.events(), page.get())
    {
        None
    } else {
        Some(page.get())
    }
}

/// The page of the place that the event writes, where it is in no tree, isn't fresh and isn't a null page.
fn untracked_page<E: Evidence>(history: &History<E>, event: &Event) -> Option<u64>
    ensures { result
        ≡ least (rules.untracked_page history.now.heading history.now.trust (notes history.now) event.now) }
{
    match *event {
        Event::Write {
            pe: _,
            place,
            value: _,
        } => untracked(history, place.page()),
        _ => None,
    }
}

/// Not-fresh: a path of the attached pages ends in a page that isn't fresh, where of a `root` the paths of no places
/// don't count; or two different paths end in one page; or it is a write at a page that is in no tree, isn't fresh and
/// isn't a null page. The answer is the least such page; `NoMemory` where there is none. The event fits the header.
pub fn not_fresh<E: Evidence>(
    alloc: Global,
    history: &History<E>,
    event: &Event,
) -> Result<Option<u64>, NoMemory>
    requires { fits_heading history.now.heading event.now ≡ true }
    ensures { IfOk result (λ at. at
        ≡ rules.not_fresh history.now.heading history.now.trust (notes history.now) event.now) }
{
    let untracked = untracked_page(history, event);
    match attached_by(alloc, history, event)? {
        Some(attached) => {
            let bad = least_bad_end(alloc, history, event, &attached)?;
            Ok(lesser(bad, untracked))
        }
        None => Ok(untracked),
    }
}

/// The page, where it is in use and an `init` names it.
fn used_by_init<E: Evidence>(history: &History<E>, page: Page) -> Option<u64>
    ensures { (pe : ℕ) → result ≡ rules.page_in_use history.now.heading history.now.trust (notes history.now)
        (Event.Init pe page) }
{
    if is_in_tree(history, page) || is_null(history.events(), page.get()) {
        Some(page.get())
    } else {
        None
    }
}

/// The page, where it is in use and a `null` names it. `NoMemory` where there is none.
fn used_by_null<E: Evidence>(
    alloc: Global,
    history: &History<E>,
    page: Page,
) -> Result<Option<u64>, NoMemory>
    ensures { IfOk result (λ at. (pe : ℕ) → at
        ≡ rules.page_in_use history.now.heading history.now.trust (notes history.now) (Event.Null pe page)) }
{
    let written = has_values(alloc, history.events(), page)?;
    if !history.is_fresh(page) || written {
        Ok(Some(page.get()))
    } else {
        Ok(None)
    }
}

/// Page-in-use: an `init` names a page of a tree or a null page; a `root` names a page that isn't fresh; a `null` names
/// a page that isn't fresh or has a value other than 0. The answer is the least such page; `NoMemory` where there is
/// none. The event fits the header.
pub fn page_in_use<E: Evidence>(
    alloc: Global,
    history: &History<E>,
    event: &Event,
) -> Result<Option<u64>, NoMemory>
    requires { fits_heading history.now.heading event.now ≡ true }
    ensures { IfOk result (λ at. at
        ≡ rules.page_in_use history.now.heading history.now.trust (notes history.now) event.now) }
{
    match *event {
        Event::Init { pe: _, page } => Ok(used_by_init(history, page)),
        Event::Root {
            pe: _,
            kind,
            lock: _,
            page,
        } => {
            let pages = root_pages(alloc, history.header(), kind, page)?;
            Ok(least_unfresh(history, &pages))
        }
        Event::Null { pe: _, page } => used_by_null(alloc, history, page),
        _ => Ok(None),
    }
}
