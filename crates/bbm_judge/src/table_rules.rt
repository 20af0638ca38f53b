//! The rule of table pages: which of them an event maps, and which pages it makes so that aren't clean.
//! Source: project's own choice.

ghost use Rattle.std.specs.Prelude.{◌≡◌, ◌≤◌, ◌++◌, ℕ, true, not, filter, map, IfOk, OnOk};
ghost use Rattle.bbm_events.specs.declared.event.Event.{Event};
ghost use Rattle.bbm_events.specs.Fits.{fits_heading};
ghost use Rattle.bbm_rules.specs.Attach as attach;
ghost use Rattle.bbm_rules.specs.Lists as lists;
ghost use Rattle.bbm_rules.specs.Mapped as mapped;
ghost use Rattle.bbm_rules.specs.Rules as rules;
ghost use Rattle.bbm_judge.specs.TablePages as spec;
ghost use Rattle.bbm_oracle_trees.specs.Past.{notes};

use crate::ends::{Attached, End, attached_by};
use crate::least::lesser;
use crate::page_rules::all_pages;
use bbm_events::Event;
use bbm_oracle_patterns::Evidence;
use bbm_oracle_tags::values::{places_in, value_of};
use bbm_oracle_trees::{History, maps};
use bbm_regimes::{Kind, NoMemory, Page, Place};
use std::alloc::Global;

/// Whether a write of the value puts a leaf of stage 2 into a tree that maps the page.
fn is_written_over<E: Evidence>(history: &History<E>, place: Place, value: u64, page: Page) -> bool
    ensures { (pe : ℕ) → result ≡ rules.writes_over history.now.heading history.now.trust (notes history.now)
        (Event.Write pe place value) page }
{
    match history.node_of(place.page()) {
        Some(node) => maps(node.kind, node.level, value, page),
        None => false,
    }
}

/// Whether the event writes a leaf of stage 2 into a tree that maps the page.
fn writes_over<E: Evidence>(history: &History<E>, event: &Event, page: Page) -> bool
    ensures { result ≡ rules.writes_over history.now.heading history.now.trust (notes history.now) event.now page }
{
    match *event {
        Event::Write {
            pe: _,
            place,
            value,
        } => is_written_over(history, place, value, page),
        _ => false,
    }
}

/// Whether a place of the page of an end has a leaf of stage 2 that maps the page, in a tree of this kind. `NoMemory`
/// where there is none.
fn is_end_over<E: Evidence>(
    alloc: Global,
    history: &History<E>,
    kind: Kind,
    end: End,
    page: Page,
) -> Result<bool, NoMemory>
    ensures { IfOk result (λ over. over
        ≡ rules.end_over history.now.heading history.now.trust (notes history.now) kind page end) }
{
    let level = end.level;
    let places = places_in(alloc, history.events(), end.page)?;
    for place in &places {
        if maps(kind, level, value_of(history.events(), *place), page) {
            return Ok(true);
        }
    }
    Ok(false)
}

/// Whether it is so of one of the ends. `NoMemory` where there is none.
fn are_ends_over<E: Evidence>(
    alloc: Global,
    history: &History<E>,
    kind: Kind,
    ends: &[End],
    page: Page,
) -> Result<bool, NoMemory>
    ensures { IfOk result (λ over. over
        ≡ lists.any (rules.end_over history.now.heading history.now.trust (notes history.now) kind page) ends.now) }
{
    for end in ends {
        if is_end_over(alloc, history, kind, *end, page)? {
            return Ok(true);
        }
    }
    Ok(false)
}

/// Whether the event, which attaches these pages, puts a leaf of stage 2 into a tree that maps the page. `NoMemory`
/// where there is none.
fn is_over<E: Evidence>(
    alloc: Global,
    history: &History<E>,
    event: &Event,
    attached: &Attached,
    page: Page,
) -> Result<bool, NoMemory>
    ensures { IfOk result (λ over. over
        ≡ spec.over history.now.heading history.now.trust (notes history.now) event.now attached.now page) }
{
    if writes_over(history, event, page) {
        return Ok(true);
    }
    if are_ends_over(alloc, history, attached.kind, &attached.first, page)? {
        return Ok(true);
    }
    are_ends_over(alloc, history, attached.kind, &attached.deeper, page)
}

/// The page, where it is so. `NoMemory` where there is none.
fn mapped<E: Evidence>(
    alloc: Global,
    history: &History<E>,
    event: &Event,
    attached: &Attached,
    page: Page,
) -> Result<Option<u64>, NoMemory>
    ensures { IfOk result (λ at. at
        ≡ lists.if_so (spec.over history.now.heading history.now.trust (notes history.now) event.now attached.now page)
        page) }
{
    if is_over(alloc, history, event, attached, page)? {
        Ok(Some(page.get()))
    } else {
        Ok(None)
    }
}

/// The least of the pages that the event, which attaches these, maps by a leaf of stage 2. `NoMemory` where there is
/// none.
fn least_mapped<E: Evidence>(
    alloc: Global,
    history: &History<E>,
    event: &Event,
    attached: &Attached,
    pages: &[Page],
) -> Result<Option<u64>, NoMemory>
    ensures { IfOk result (λ found. found
        ≡ lists.least (filter
        (spec.over history.now.heading history.now.trust (notes history.now) event.now attached.now) pages.now)) }
{
    let mut found = None;
    for page in pages {
        let here = mapped(alloc, history, event, attached, *page)?;
        found = lesser(found, here);
    }
    Ok(found)
}

/// The page, where it isn't clean.
fn unclean<E: Evidence>(history: &History<E>, page: Page) -> Option<u64>
    requires { history.now.heading.words.isolated ≡ true }
    ensures { result
        ≡ lists.if_so (not (mapped.is_clean history.now.heading history.now.trust (notes history.now) page)) page }
{
    if history.is_clean(page) {
        None
    } else {
        Some(page.get())
    }
}

/// The least of the pages that isn't clean, None where each is.
fn least_unclean<E: Evidence>(history: &History<E>, pages: &[Page]) -> Option<u64>
    requires { history.now.heading.words.isolated ≡ true }
    ensures { result ≡ lists.least (filter
        (λ page. not (mapped.is_clean history.now.heading history.now.trust (notes history.now) page)) pages.now) }
{
    let mut found = None;
    for page in pages {
        found = lesser(found, unclean(history, *page));
    }
    found
}

/// The pages of the trees. `NoMemory` where there is none.
fn table_pages<E: Evidence>(alloc: Global, history: &History<E>) -> Result<Vec<Page>, NoMemory>
    ensures { IfOk result (λ pages. pages.items
        ≡ mapped.table_pages history.now.heading history.now.trust (notes history.now)) }
{
    let mut pages = Vec::new(alloc);
    for node in history.tree() {
        let page = node.page;
        pages.push(page)?;
    }
    Ok(pages)
}

/// What the event attaches, which fits the header: no page, where it attaches nothing. `NoMemory` where there is none.
fn attached_or_none<E: Evidence>(
    alloc: Global,
    history: &History<E>,
    event: &Event,
) -> Result<Attached, NoMemory>
    requires { fits_heading history.now.heading event.now ≡ true }
    ensures over { IfOk result (λ attached. (page : ℕ)
        → spec.over history.now.heading history.now.trust (notes history.now) event.now attached page
        ≡ rules.puts_over history.now.heading history.now.trust (notes history.now) event.now page) }
    ensures made { IfOk result (λ attached. attach.pages_of (attach.all_ends attached)
        ≡ rules.made_tables history.now.heading history.now.trust (notes history.now) event.now) }
{
    match attached_by(alloc, history, event)? {
        Some(attached) => Ok(attached),
        None => Ok(Attached {
            kind: Kind::S2,
            first: Vec::new(alloc),
            deeper: Vec::new(alloc),
        }),
    }
}

/// The least page that the event maps though it is a table page or becomes one, or that becomes one and isn't clean,
/// where the header has `isolated`. `NoMemory` where there is none. The event fits the header.
fn mapped_table<E: Evidence>(
    alloc: Global,
    history: &History<E>,
    event: &Event,
) -> Result<Option<u64>, NoMemory>
    requires { fits_heading history.now.heading event.now ≡ true }
    ensures { IfOk result (λ at. at
        ≡ rules.mapped_table history.now.heading history.now.trust (notes history.now) event.now) }
{
    if !history.header().words.isolated {
        return Ok(None);
    }
    let attached = attached_or_none(alloc, history, event)?;
    let made = all_pages(alloc, &attached)?;
    let mut tables = table_pages(alloc, history)?;
    tables.extend_from_slice(&made)?;
    let least = least_mapped(alloc, history, event, &attached, &tables)?;
    Ok(lesser(least, least_unclean(history, &made)))
}

/// Table-mapped: under a header with `isolated`, the event puts a leaf of stage 2 into a tree that maps a table page or
/// one that it makes so, or it makes a page a table page that isn't clean. The answer is the least such page;
/// `NoMemory` where there is none. The event fits the header.
pub fn table_mapped<E: Evidence>(
    alloc: Global,
    history: &History<E>,
    event: &Event,
) -> Result<Option<u64>, NoMemory>
    requires { fits_heading history.now.heading event.now ≡ true }
    ensures { IfOk result (λ at. at
        ≡ rules.table_mapped history.now.heading history.now.trust (notes history.now) event.now) }
{
    match event {
        Event::Write { .. } | Event::Root { .. } => mapped_table(alloc, history, event),
        _ => Ok(None),
    }
}
