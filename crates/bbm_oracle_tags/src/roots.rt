//! The declared roots, and those that were given up.
//! Source: project's own choice, where no other is named.

ghost use Rattle.std.specs.Prelude.{◌≡◌, List, ◌∷◌, map, reverse, IfOk, OnOk};
ghost use Rattle.bbm_events.specs.declared.event.Event.{Event};
ghost use Rattle.bbm_rules.specs.Lists.{among, with_number};
ghost use Rattle.bbm_rules.specs.Roots as spec;

use bbm_events::Event;
use bbm_regimes::{Kind, NoMemory, Page};
use std::alloc::Global;
use std::marker::Model;

/// A declared root. A clause sees it as the declared root of the definitions.
#[derive(Clone, Copy, PartialEq, Eq)]
pub struct Declared {
    /// Its first page.
    pub page: Page,
    /// Its kind.
    pub kind: Kind,
    /// The number of the lock that its writers hold, or none.
    pub lock: Option<u16>,
}

impl Model for Declared {
    ghost use Rattle.bbm_rules.specs.Roots.{Declared};

    ghost Value = { Declared };

    ghost view = { λ r. record { page = r.page; kind = r.kind; lock = r.lock } };

    ghost inverse = { λ r. record { page = r.page; kind = r.kind; lock = r.lock } };
}

/// Whether the kinds are the same.
pub fn same_kind(kind: Kind, other: Kind) -> bool
    ensures { result ≡ spec.same_kind kind other }
{
    match (kind, other) {
        (Kind::El2, Kind::El2) => true,
        (Kind::S2, Kind::S2) => true,
        (Kind::Ttbr0, Kind::Ttbr0) => true,
        (Kind::Ttbr1, Kind::Ttbr1) => true,
        _ => false,
    }
}

/// Takes the root with this first page out.
fn retire(roots: &mut Vec<Declared>, page: Page)
    ensures { roots.new.items ≡ spec.retired page roots.old.items }
{
    roots.retain(|root| root.page != page);
}

/// Puts the root in front.
fn put_root(roots: &mut Vec<Declared>, root: Declared) -> Result<(), NoMemory>
    ensures { OnOk result (roots.new.items ≡ root ∷ roots.old.items) }
{
    roots.insert(0, root)?;
    Ok(())
}

/// The roots after one more event. `NoMemory` where there is none.
pub fn take_root(roots: &mut Vec<Declared>, event: &Event) -> Result<(), NoMemory>
    ensures { OnOk result ((h : List Event) → roots.old.items ≡ spec.roots_of h
        → roots.new.items ≡ spec.roots_of (event.now ∷ h)) }
{
    match *event {
        Event::Root {
            pe: _,
            kind,
            lock,
            page,
        } => {
            retire(roots, page);
            put_root(roots, Declared { page, kind, lock })
        }
        Event::Unroot { pe: _, page } => {
            retire(roots, page);
            Ok(())
        }
        _ => Ok(()),
    }
}

/// The declared roots, that of the last `root` first. `NoMemory` where there is none.
pub fn roots_of(alloc: Global, events: &[Event]) -> Result<Vec<Declared>, NoMemory>
    ensures { IfOk result (λ roots. roots.items ≡ spec.roots_of (reverse events.now)) }
{
    let mut roots = Vec::new(alloc);
    for event in events {
        take_root(&mut roots, event)?;
    }
    Ok(roots)
}

/// Whether the event gives up the root with this first page, by its address in bytes.
pub fn gives_up(event: &Event, page: u64) -> bool
    ensures { result ≡ spec.gives_up page event.now }
{
    match *event {
        Event::Unroot { pe: _, page: at } => at.get() == page,
        _ => false,
    }
}

/// Whether the page is in the list.
fn has_page(pages: &[Page], page: Page) -> bool
    ensures { result ≡ among page pages.now }
{
    pages.iter().any(|other| *other == page)
}

/// Puts the page in front, unless it is there already.
fn put_page(pages: &mut Vec<Page>, page: Page) -> Result<(), NoMemory>
    ensures { OnOk result (pages.new.items ≡ with_number page pages.old.items) }
{
    if has_page(pages, page) {
        Ok(())
    } else {
        pages.insert(0, page)?;
        Ok(())
    }
}

/// The first pages of the roots that were given up, after one more event.
fn take_given_up(pages: &mut Vec<Page>, event: &Event) -> Result<(), NoMemory>
    ensures { OnOk result ((h : List Event) → pages.old.items ≡ spec.given_up h
        → pages.new.items ≡ spec.given_up (event.now ∷ h)) }
{
    match *event {
        Event::Unroot { pe: _, page } => put_page(pages, page),
        _ => Ok(()),
    }
}

/// The first pages of the roots that were given up, each once, that of the latest first `unroot` in front; some may be
/// declared anew. `NoMemory` where there is none.
pub fn given_up(alloc: Global, events: &[Event]) -> Result<Vec<Page>, NoMemory>
    ensures { IfOk result (λ pages. pages.items ≡ spec.given_up (reverse events.now)) }
{
    let mut pages = Vec::new(alloc);
    for event in events {
        take_given_up(&mut pages, event)?;
    }
    Ok(pages)
}

/// The first pages of the roots.
fn pages_of(alloc: Global, roots: &[Declared]) -> Result<Vec<Page>, NoMemory>
    ensures { IfOk result (λ pages. pages.items ≡ map (λ r. r.page) roots.now) }
{
    let mut pages = Vec::new(alloc);
    for root in roots {
        pages.push(root.page)?;
    }
    Ok(pages)
}

/// The first pages of the declared roots, and behind them of those that were given up. `NoMemory` where there is none.
pub fn first_pages(alloc: Global, events: &[Event]) -> Result<Vec<Page>, NoMemory>
    ensures { IfOk result (λ pages. pages.items ≡ spec.first_pages (reverse events.now)) }
{
    let roots = roots_of(alloc, events)?;
    let mut pages = pages_of(alloc, &roots)?;
    let up = given_up(alloc, events)?;
    pages.extend_from_slice(&up)?;
    Ok(pages)
}

/// The root with this first page after one more event.
fn root_after(root: Option<Declared>, event: &Event, page: u64) -> Option<Declared>
    ensures { (h : List Event) → root ≡ spec.root_at h page → result ≡ spec.root_at (event.now ∷ h) page }
{
    match *event {
        Event::Root {
            pe: _,
            kind,
            lock,
            page: at,
        } => {
            if at.get() == page {
                Some(Declared {
                    page: at,
                    kind,
                    lock,
                })
            } else {
                root
            }
        }
        Event::Unroot { pe: _, page: at } => { if at.get() == page { None } else { root } }
        _ => root,
    }
}

/// The root whose first page has this address, in bytes; None where none is declared there.
pub fn root_at(events: &[Event], page: u64) -> Option<Declared>
    ensures { result ≡ spec.root_at (reverse events.now) page }
{
    let mut root = None;
    for event in events {
        root = root_after(root, event, page);
    }
    root
}

/// Whether the page is the first of a root of the kind, after one more event.
fn is_root_after(before: bool, event: &Event, kind: Kind, page: u64) -> bool
    ensures { (h : List Event) → before ≡ spec.is_root h kind page → result ≡ spec.is_root (event.now ∷ h) kind page }
{
    match *event {
        Event::Root {
            pe: _,
            kind: declared,
            lock: _,
            page: at,
        } => {
            if at.get() == page {
                same_kind(declared, kind)
            } else {
                before
            }
        }
        Event::Unroot { pe: _, page: at } => { if at.get() == page { false } else { before } }
        _ => before,
    }
}

/// Whether a root of the kind is declared whose first page has this address, in bytes.
pub fn is_root(events: &[Event], kind: Kind, page: u64) -> bool
    ensures { result ≡ spec.is_root (reverse events.now) kind page }
{
    let mut found = false;
    for event in events {
        found = is_root_after(found, event, kind, page);
    }
    found
}

/// The lock that the root with this first page names, by its address in bytes; None where it names none or no root is
/// declared there.
pub fn lock_of(events: &[Event], page: u64) -> Option<u16>
    ensures { result ≡ spec.lock_of (reverse events.now) page }
{
    match root_at(events, page) {
        Some(root) => root.lock,
        None => None,
    }
}
