//! The pages that an event attaches to a tree.
//! Source: project's own choice, where no other is named.

ghost use Rattle.std.specs.Prelude.{◌≡◌, ◌-◌, ◌++◌, ℕ, true, IfOk, OnOk};
ghost use Rattle.std.specs.Prelude.{filter_map, flat_map, map, option_to_list};
ghost use Rattle.bbm_events.specs.declared.event.Event.{Event};
ghost use Rattle.bbm_events.specs.Fits.{fits_heading};
ghost use Rattle.bbm_rules.specs.Attach as spec;
ghost use Rattle.bbm_rules.specs.Notes.{events_of};
ghost use Rattle.bbm_rules.specs.Tree as trees;
ghost use Rattle.bbm_rules.specs.Values.{value_of as value_at, places_in as places_at};
ghost use Rattle.bbm_oracle_trees.specs.Past.{notes};

use crate::starts::root_pages;
use bbm_events::Event;
use bbm_oracle_patterns::Evidence;
use bbm_oracle_tags::values::{places_in, value_of};
use bbm_oracle_trees::{History, next_page};
use bbm_regimes::{Kind, Level, NoMemory, Page, Place};
use std::alloc::Global;
use std::marker::Model;

/// The end of a path: a page and the level at which it is read.
#[derive(Clone, Copy)]
pub struct End {
    /// The page.
    pub page: Page,
    /// The level.
    pub level: Level,
}

impl Model for End {
    ghost use Rattle.bbm_rules.specs.Attach as spec;

    ghost Value = { spec.End };

    ghost view = { λ e. record { page = e.page; level = e.level } };

    ghost inverse = { λ e. record { page = e.page; level = e.level } };
}

/// The pages that an event attaches, each as often as paths end in it.
#[derive(Drop)]
pub struct Attached {
    /// The kind of the tree.
    pub kind: Kind,
    /// The ends of the paths of no places: the pages that the event names.
    pub first: Vec<End>,
    /// The ends of all longer paths.
    pub deeper: Vec<End>,
}

impl Model for Attached {
    ghost use Rattle.bbm_rules.specs.Attach as spec;

    ghost Value = { spec.Attached };

    ghost view = { λ a. record { kind = a.kind; first = a.first.items; deeper = a.deeper.items } };
}

/// Adds the page, where there is one. `NoMemory` where there is none.
fn add_next(pages: &mut Vec<Page>, next: Option<Page>) -> Result<(), NoMemory>
    ensures { OnOk result (pages.new.items ≡ pages.old.items ++ option_to_list next) }
{
    let Some(next) = next else {
        return Ok(());
    };
    pages.push(next)?;
    Ok(())
}

/// The next pages of the table values of the page, read at this kind and level. `NoMemory` where there is none.
fn next_pages<E: Evidence>(
    alloc: Global,
    history: &History<E>,
    kind: Kind,
    level: Level,
    page: Page,
) -> Result<Vec<Page>, NoMemory>
    ensures { IfOk result (λ pages. pages.items
        ≡ filter_map (λ place. trees.next_of kind level (value_at (events_of (notes history.now)) place))
        (places_at (events_of (notes history.now)) page)) }
{
    let places = places_in(alloc, history.events(), page)?;
    let mut pages = Vec::new(alloc);
    for place in &places {
        let value = value_of(history.events(), *place);
        add_next(&mut pages, next_page(kind, level, value))?;
    }
    Ok(pages)
}

/// Adds the ends of the paths of at least one place that begin in the page, read at this kind and level. `NoMemory` where
/// there is none.
fn add_ends<E: Evidence>(
    alloc: Global,
    history: &History<E>,
    kind: Kind,
    level: Level,
    page: Page,
    ends: &mut Vec<End>,
) -> Result<(), NoMemory>
    ensures { OnOk result (ends.new.items
        ≡ ends.old.items
        ++ spec.ends_below history.now.heading history.now.trust (notes history.now) kind (3 - level) level page) }
{
    let Some(below) = level.below() else {
        return Ok(());
    };
    if !history.is_fresh(page) {
        return Ok(());
    }
    let pages = next_pages(alloc, history, kind, level, page)?;
    for next in &pages {
        let end = End {
            page: *next,
            level: below,
        };
        ends.push(end)?;
        add_ends(alloc, history, kind, below, *next, ends)?;
    }
    Ok(())
}

/// Adds the ends of the paths of no places that begin in the pages, read at this level. `NoMemory` where there is none.
fn add_first(level: Level, pages: &[Page], ends: &mut Vec<End>) -> Result<(), NoMemory>
    ensures { OnOk result (ends.new.items ≡ ends.old.items ++ map (spec.end_at level) pages.now) }
{
    for page in pages {
        let end = End { page: *page, level };
        ends.push(end)?;
    }
    Ok(())
}

/// Adds the ends of all longer paths that begin in the pages, read at this kind and level. `NoMemory` where
/// there is none.
fn add_deeper<E: Evidence>(
    alloc: Global,
    history: &History<E>,
    kind: Kind,
    level: Level,
    pages: &[Page],
    ends: &mut Vec<End>,
) -> Result<(), NoMemory>
    ensures { OnOk result (ends.new.items ≡ ends.old.items
        ++ flat_map (spec.ends_below history.now.heading history.now.trust (notes history.now) kind (3 - level) level)
        pages.now) }
{
    for page in pages {
        add_ends(alloc, history, kind, level, *page, ends)?;
    }
    Ok(())
}

/// The ends of all paths that begin in the pages, read at this kind and level. `NoMemory` where there is none.
fn attached_from<E: Evidence>(
    alloc: Global,
    history: &History<E>,
    kind: Kind,
    level: Level,
    pages: &[Page],
) -> Result<Attached, NoMemory>
    ensures { IfOk result (λ attached. attached
        ≡ spec.attached_from history.now.heading history.now.trust (notes history.now) kind level pages.now) }
{
    let mut first = Vec::new(alloc);
    add_first(level, pages, &mut first)?;
    let mut deeper = Vec::new(alloc);
    add_deeper(alloc, history, kind, level, pages, &mut deeper)?;
    Ok(Attached {
        kind,
        first,
        deeper,
    })
}

/// What a write attaches.
fn attached_by_write<E: Evidence>(
    alloc: Global,
    history: &History<E>,
    place: Place,
    value: u64,
) -> Result<Option<Attached>, NoMemory>
    ensures { IfOk result (λ attached. (pe : ℕ) → attached
        ≡ spec.attached_by history.now.heading history.now.trust (notes history.now) (Event.Write pe place value)) }
{
    let Some(node) = history.node_of(place.page()) else {
        return Ok(None);
    };
    if history.held_at(node, place).is_some() {
        return Ok(None);
    }
    match next_page(node.kind, node.level, value) {
        Some(next) => {
            let pages = [next];
            let below = node.level.below().unwrap();
            let attached = attached_from(alloc, history, node.kind, below, &pages)?;
            Ok(Some(attached))
        }
        None => Ok(None),
    }
}

/// The pages that an event which fits the header attaches, None where it attaches nothing. `NoMemory` where there is
/// none.
pub fn attached_by<E: Evidence>(
    alloc: Global,
    history: &History<E>,
    event: &Event,
) -> Result<Option<Attached>, NoMemory>
    requires { fits_heading history.now.heading event.now ≡ true }
    ensures { IfOk result (λ attached. attached
        ≡ spec.attached_by history.now.heading history.now.trust (notes history.now) event.now) }
{
    match *event {
        Event::Write {
            pe: _,
            place,
            value,
        } => attached_by_write(alloc, history, place, value),
        Event::Root {
            pe: _,
            kind,
            lock: _,
            page,
        } => {
            let header = history.header();
            let pages = root_pages(alloc, header, kind, page)?;
            let level = header.start_level(kind);
            let attached = attached_from(alloc, history, kind, level, &pages)?;
            Ok(Some(attached))
        }
        _ => Ok(None),
    }
}
