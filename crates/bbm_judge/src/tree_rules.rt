//! The rules of places of trees: locks, break-before-make and limbo; and the rewritten places of fresh pages.
//! Source: project's own choice, where no other is named.

ghost use Rattle.std.specs.Prelude.{◌≡◌, ℕ};
ghost use Rattle.bbm_events.specs.declared.event.Event.{Event};
ghost use Rattle.bbm_rules.specs.Rules as rules;
ghost use Rattle.bbm_oracle_trees.specs.Past.{notes};

use bbm_descriptor::{is_valid, needs_bbm};
use bbm_events::Event;
use bbm_oracle_patterns::Evidence;
use bbm_oracle_rules::rules::without_lock;
use bbm_oracle_tags::values::value_of;
use bbm_oracle_trees::History;
use bbm_regimes::{Pe, Place};

/// The place, where a write of it by the PE lacks the lock of its tree.
fn unlocked_write<E: Evidence>(history: &History<E>, pe: Pe, place: Place) -> Option<u64>
    ensures { (value : ℕ) → result ≡ rules.no_lock history.now.heading history.now.trust (notes history.now)
        (Event.Write pe place value) }
{
    let node = history.node_of(place.page())?;
    without_lock(history.events(), pe, node.root.get(), place.get())
}

/// No-lock: it is a write at a place of a tree, or an `unroot` of a declared root, whose root names a lock that this PE
/// doesn't hold. The answer is the place, or the page.
pub fn no_lock<E: Evidence>(history: &History<E>, event: &Event) -> Option<u64>
    ensures { result ≡ rules.no_lock history.now.heading history.now.trust (notes history.now) event.now }
{
    match *event {
        Event::Write {
            pe,
            place,
            value: _,
        } => unlocked_write(history, pe, place),
        Event::Unroot { pe, page } => { without_lock(history.events(), pe, page.get(), page.get()) }
        _ => None,
    }
}

/// The place, where it holds a value over which a write of this one needs break-before-make.
fn unbroken_write<E: Evidence>(history: &History<E>, place: Place, value: u64) -> Option<u64>
    ensures { (pe : ℕ) → result ≡ rules.break_before_make history.now.heading history.now.trust (notes history.now)
        (Event.Write pe place value) }
{
    let node = history.node_of(place.page())?;
    let old = history.held_at(node, place)?;
    if needs_bbm(node.kind, node.level, old, value) {
        Some(place.get())
    } else {
        None
    }
}

/// Break-before-make: it is a write of a valid value at a place of a tree that holds a value of another core. The
/// answer is the place. Source: Arm ARM (DDI 0487), "Using break-before-make when updating translation table entries";
/// which fields make the core is the project's own choice.
pub fn break_before_make<E: Evidence>(history: &History<E>, event: &Event) -> Option<u64>
    ensures { result ≡ rules.break_before_make history.now.heading history.now.trust (notes history.now) event.now }
{
    match *event {
        Event::Write {
            pe: _,
            place,
            value,
        } => unbroken_write(history, place, value),
        _ => None,
    }
}

/// The place, where it is in limbo and the value is valid.
fn write_in_limbo<E: Evidence>(history: &History<E>, place: Place, value: u64) -> Option<u64>
    ensures { (pe : ℕ) → result ≡ rules.limbo_make history.now.heading history.now.trust (notes history.now)
        (Event.Write pe place value) }
{
    let node = history.node_of(place.page())?;
    if is_valid(node.kind, node.level, value) && history.in_limbo(node) {
        Some(place.get())
    } else {
        None
    }
}

/// Limbo-make: it is a write of a valid value at a place in limbo. The answer is the place.
pub fn limbo_make<E: Evidence>(history: &History<E>, event: &Event) -> Option<u64>
    ensures { result ≡ rules.limbo_make history.now.heading history.now.trust (notes history.now) event.now }
{
    match *event {
        Event::Write {
            pe: _,
            place,
            value,
        } => write_in_limbo(history, place, value),
        _ => None,
    }
}

/// The place, where its page is fresh and its value, which has bit 0 set, is another one.
fn rewrite<E: Evidence>(history: &History<E>, place: Place, value: u64) -> Option<u64>
    ensures { (pe : ℕ) → result ≡ rules.rewritten_fresh history.now.heading history.now.trust (notes history.now)
        (Event.Write pe place value) }
{
    let old = value_of(history.events(), place);
    if history.is_fresh(place.page()) && old % 2 == 1 && old != value {
        Some(place.get())
    } else {
        None
    }
}

/// Rewritten-fresh: it is a write at a place of a fresh page whose value has bit 0 set, with another value. The answer
/// is the place.
pub fn rewritten_fresh<E: Evidence>(history: &History<E>, event: &Event) -> Option<u64>
    ensures { result ≡ rules.rewritten_fresh history.now.heading history.now.trust (notes history.now) event.now }
{
    match *event {
        Event::Write {
            pe: _,
            place,
            value,
        } => rewrite(history, place, value),
        _ => None,
    }
}
