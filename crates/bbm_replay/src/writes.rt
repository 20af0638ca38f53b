//! Writes of places: each is found, judged by the rules in their order, and taken.

ghost use Rattle.std.specs.Prelude.{◌≡◌, ◌%◌, ◌==◌, ◌&&◌, not, List, true, false, Some, None, IfSome, IsSome, is_some};
ghost use Rattle.std.specs.Option.{option_map_or};
ghost use Rattle.bbm_tree_index.specs.HeldCores.{limbo_by};
ghost use Rattle.bbm_descriptor.specs.Descriptor as spec;
ghost use Rattle.bbm_place_map.specs.Map.{IsPosition, is_tracked, marks_at, value_at};
ghost use Rattle.bbm_events.specs.Heading.{Heading};
ghost use Rattle.bbm_events.specs.declared.event.Event.{Event};
ghost use Rattle.bbm_events.specs.declared.event.Event.TheVariants.{Write};
ghost use Rattle.bbm_regimes.specs.SameRegister.{same_kind};
ghost use Rattle.bbm_rules.specs.Places.{page_of};
ghost use Rattle.bbm_tree_index.specs.Index.{fresh_in, node_in};
ghost use Rattle.bbm_replay.specs.Leaves as leaves;
ghost use Rattle.bbm_replay.specs.ReplayStanding.{Admits, IsUnlocked, MayAdmit, MayAttach, MayMeet, Meets, OverLeaves};
ghost use Rattle.bbm_replay.specs.ReplayStanding.{PartsStand, WritesTree};

use crate::faults::step_fault;
use crate::guard::{cover_attached, cover_leaf, judge_attached};
use crate::laws::{laws, rules};
use crate::parts::ReplayState;
use bbm_descriptor::{Core, core};
use bbm_page_map::PageNumber;
use bbm_place_map::{PlaceMap, Position};
use bbm_regimes::{Kind, Page, Pe, Place};
use bbm_roots::law_others;
use bbm_rules::{Rule, StepFault};
use bbm_tree_index::{Attach, Path, Standing, next_of};
use std::alloc::Global;

/// To look through so many broken places takes less than to go up a tree. Source: project's own choice.
const MAX_SCANNED: u64 = 32;

/// Whether both are cores, and they differ.
#[inline(always)]
fn differ(old: &Option<Core>, new: &Option<Core>) -> bool
    ensures { result ≡ spec.differ old.now new.now }
{
    match (old, new) {
        (Some(old), Some(new)) => old != new,
        _ => false,
    }
}

/// Whether a write of this value changes an old one that has bit 0 set.
fn rewrites(old: u64, value: u64) -> bool
    ensures { result ≡ (old % 2 == 1 && not (old == value)) }
{
    old % 2 == 1 && old != value
}

/// Whether it is a leaf with the Contiguous hint.
#[inline(always)]
fn is_contiguous(new: &Option<Core>) -> bool
    ensures { result ≡ leaves.is_contiguous_core new.now }
{
    match new {
        Some(Core::Leaf { contiguous, .. }) => *contiguous,
        _ => false,
    }
}

/// Whether a core is that of a leaf for every ASID.
#[inline(always)]
pub(crate) fn is_global(core: &Core) -> bool
    ensures { result ≡ leaves.is_global_core (Some core.now) }
{
    match core {
        Core::Leaf { global, .. } => *global,
        Core::Table { .. } => false,
    }
}

/// Whether it is a leaf for every ASID in a tree of the lower range.
#[inline(always)]
fn is_user_global(kind: Kind, new: &Option<Core>) -> bool
    ensures { result ≡ (same_kind kind Kind.Ttbr0 && leaves.is_global_core new.now) }
{
    match new {
        Some(core) => kind == Kind::Ttbr0 && is_global(core),
        None => false,
    }
}

/// Whether no place is broken over a table, and at most `MAX_SCANNED` places are broken. False says no more than that.
#[inline(never)]
fn is_broken_over_leaves(map: &PlaceMap) -> bool
    ensures { result ≡ true → OverLeaves map.now }
{
    let count = map.restless();
    if count > MAX_SCANNED {
        return false;
    }
    for i in 0..count {
        if next_of(&map.restless_core(i)).is_some() {
            return false;
        }
    }
    true
}

/// Whether no place is broken over a table, so that none is in limbo: told at once where no place is broken. False says
/// nothing.
#[inline(always)]
fn rules_out_limbo(map: &PlaceMap) -> bool
    ensures { result ≡ true → OverLeaves map.now }
{
    if map.restless() == 0 {
        return true;
    }
    is_broken_over_leaves(map)
}

/// The next page that the write attaches, if any.
#[inline(always)]
fn attached_next(old: &Option<Core>, new: &Option<Core>) -> Option<Page>
    ensures { result ≡ leaves.attached_next old.now new.now }
{
    match (old, new) {
        (None, Some(core)) => next_of(core),
        _ => None,
    }
}

/// A write at a place of a tree.
#[derive(Clone, Copy)]
struct TreeWrite<'a> {
    /// The PE that writes.
    pe: Pe,
    /// Where the place is kept.
    position: &'a Position,
    /// The value that is written.
    value: u64,
    /// Where the place stands in its tree.
    path: &'a Path,
}

impl ReplayState {
    /// Where the place is kept; None where its page isn't tracked.
    #[inline(always)]
    fn position(&mut self, place: Place) -> Option<Position>
        ensures place { IfSome result (λ position. position.place ≡ place) }
        ensures position { IfSome result (λ position. IsPosition self.old.map position) }
        ensures tracked { is_tracked self.old.map (page_of place) ≡ true → IsSome result }
        ensures same { self.new ≡ self.old }
    {
        self.map.find(place)
    }

    /// A write at a place of no tree, of a page that isn't fresh.
    #[inline(never)]
    fn write_refused(&mut self, pe: Pe, place: Place, value: u64) -> Result<(), StepFault>
        requires may { MayMeet self.old (Write pe place value) }
        requires outside { node_in self.old.index (page_of place) ≡ None }
        requires unfresh { fresh_in self.old.index (page_of place) ≡ false }
        ensures { Meets self.old self.new (Write pe place value) result }
    {
        laws();
        rules();
        let _ = value;
        let page = place.page();
        if self.index.is_null(&self.map, page) {
            return Err(StepFault::Broken(Rule::NullWritten, place.get()));
        }
        Err(StepFault::Broken(Rule::NotFresh, page.get()))
    }

    /// A write at a place of no tree, of a page with this number.
    #[inline(never)]
    fn write_outside(
        &mut self,
        pe: Pe,
        place: Place,
        page: PageNumber,
        value: u64,
    ) -> Result<(), StepFault>
        requires may { MayMeet self.old (Write pe place value) }
        requires outside { node_in self.old.index (page_of place) ≡ None }
        requires position { IsPosition self.old.map (record { place = place; page = page }) }
        ensures { Meets self.old self.new (Write pe place value) result }
    {
        laws();
        rules();
        law_others();
        let position = Position { place, page };
        if !self.index.is_fresh_at(&position) {
            return self.write_refused(pe, place, value);
        }
        if rewrites(self.map.value_of(&position), value) {
            return Err(StepFault::Broken(Rule::RewrittenFresh, place.get()));
        }
        self.map.put_at(&position, value);
        self.map.law_idle();
        Ok(())
    }

    /// Whether a write of a value with this core makes a valid value at a place in limbo. None is where no place is
    /// broken over a table.
    #[inline(always)]
    fn makes_in_limbo(&self, place: Place, new: &Option<Core>) -> bool
        requires { (heading : Heading) × (h : List Event) × PartsStand self.now heading h }
        ensures { result ≡ (is_some new.now
            && option_map_or (limbo_by (value_at self.now.map)) (node_in self.now.index (page_of place)) false) }
    {
        laws();
        if !new.is_some() {
            return false;
        }
        if rules_out_limbo(&self.map) {
            return false;
        }
        self.index.in_limbo(&self.map, place)
    }

    /// Judges a write that attaches the next page by the rules on attached pages, and attaches it, with all that hangs
    /// below it. After Ok all that is left is to write the value.
    #[inline(never)]
    fn attach_next(
        &mut self,
        alloc: Global,
        pe: Pe,
        place: Place,
        value: u64,
        next: Page,
    ) -> Result<(), StepFault>
        requires { MayAttach self.old pe place value next }
        ensures { Admits self.old self.new pe place value (Some next) result }
    {
        laws();
        rules();
        let prepared = match self
            .index
            .prepare(alloc, &self.map, Attach::Below { place, next })
        {
            Ok(prepared) => prepared,
            Err(fault) => return Err(step_fault(fault)),
        };
        let pages = match judge_attached(&self.unmapped, alloc, &self.index, &self.map, &prepared) {
            Ok(pages) => pages,
            Err(fault) => return Err(fault),
        };
        self.index.attach_prepared(&self.map, &prepared);
        cover_attached(&mut self.unmapped, &self.map, &pages);
        Ok(())
    }

    /// Judges a write of a value with the core `new` at a place of a tree that holds `old`, by the rules behind the one
    /// on locks, and attaches the next page, if it attaches one. What a leaf maps counts as mapped then. After Ok all
    /// that is left is to write the value.
    #[inline(always)]
    fn admit(
        &mut self,
        alloc: Global,
        write: &TreeWrite,
        old: &Option<Core>,
        new: &Option<Core>,
    ) -> Result<(), StepFault>
        requires may { MayAdmit self.old write.now.pe write.now.position.now.place write.now.value write.now.path.now
            old.now new.now }
        requires position { IsPosition self.old.map write.now.position.now }
        ensures { Admits self.old self.new write.now.pe write.now.position.now.place write.now.value
            (leaves.attached_next old.now new.now) result }
    {
        laws();
        rules();
        let place = write.position.place;
        if differ(old, new) {
            return Err(StepFault::Broken(Rule::BreakBeforeMake, place.get()));
        }
        if self.makes_in_limbo(place, new) {
            return Err(StepFault::Broken(Rule::LimboMake, place.get()));
        }
        if let Some(next) = attached_next(old, new) {
            return self.attach_next(alloc, write.pe, place, write.value, next);
        }
        if is_contiguous(new) {
            return Err(StepFault::Broken(Rule::BadKind, place.get()));
        }
        if is_user_global(write.path.kind, new) {
            return Err(StepFault::Broken(Rule::GlobalUser, place.get()));
        }
        if new.is_some() && self.unmapped.is_some() {
            let read = Standing {
                kind: write.path.kind,
                level: write.path.level,
            };
            return cover_leaf(
                &mut self.unmapped,
                &self.index,
                &self.map,
                *write.position,
                read,
                write.value,
            );
        }
        Ok(())
    }

    /// A write, under its lock, at a place of a tree that isn't broken and has the core `live`. It leaves the place
    /// unbroken: the value is valid, or the one before was invalid too.
    #[inline(always)]
    fn write_unbroken(
        &mut self,
        alloc: Global,
        write: &TreeWrite,
        live: &Option<Core>,
    ) -> Result<(), StepFault>
        requires at { WritesTree self.old write.now.pe write.now.position.now.place write.now.value write.now.path.now }
        requires unlocked { IsUnlocked self.old (Write write.now.pe write.now.position.now.place write.now.value) }
        requires position { IsPosition self.old.map write.now.position.now }
        requires unbroken { marks_at self.old.map write.now.position.now.place ≡ None }
        requires live { live.now ≡ spec.core_of write.now.path.now.kind write.now.path.now.level
            (value_at self.old.map write.now.position.now.place) }
        requires stays { None ≡ spec.core_of write.now.path.now.kind write.now.path.now.level write.now.value
            → live.now ≡ None }
        ensures { Meets self.old self.new (Write write.now.pe write.now.position.now.place write.now.value) result }
    {
        laws();
        rules();
        law_others();
        let new = core(write.path.kind, write.path.level, write.value);
        match self.admit(alloc, write, live, &new) {
            Ok(()) => {
                self.map.put_at(write.position, write.value);
                self.map.law_idle();
                Ok(())
            }
            Err(fault) => Err(fault),
        }
    }

    /// A write at a broken place, of a page with this number. It takes plain values, so that the other writes keep
    /// theirs in registers.
    #[inline(never)]
    fn write_broken(
        &mut self,
        alloc: Global,
        pe: Pe,
        place: Place,
        page: PageNumber,
        value: u64,
    ) -> Result<(), StepFault>
        requires may { MayMeet self.old (Write pe place value) }
        requires position { IsPosition self.old.map (record { place = place; page = page }) }
        ensures { Meets self.old self.new (Write pe place value) result }
    {
        laws();
        rules();
        law_others();
        let position = Position { place, page };
        let Some(path) = self.index.path(&position) else {
            return self.write_outside(pe, place, page, value);
        };
        if let Some(at) = self.roots.without_lock(pe, path.first, place.get()) {
            return Err(StepFault::Broken(Rule::NoLock, at));
        }
        let live = self.map.live_at(&position, path.kind, path.level);
        let old = self.map.core_at(&position, live);
        let new = core(path.kind, path.level, value);
        let write = TreeWrite {
            pe,
            position: &position,
            value,
            path: &path,
        };
        match self.admit(alloc, &write, &old, &new) {
            Ok(()) => {
                self.map.write_at(&position, pe, value, &live, &new);
                self.map.law_idle();
                Ok(())
            }
            Err(fault) => Err(fault),
        }
    }

    /// A write at a place of a tree that isn't broken. A value over none has a way of its own, so that it carries no
    /// core about.
    #[inline(always)]
    fn write_inside(&mut self, alloc: Global, write: &TreeWrite) -> Result<(), StepFault>
        requires at { WritesTree self.old write.now.pe write.now.position.now.place write.now.value write.now.path.now }
        requires position { IsPosition self.old.map write.now.position.now }
        requires unbroken { marks_at self.old.map write.now.position.now.place ≡ None }
        ensures { Meets self.old self.new (Write write.now.pe write.now.position.now.place write.now.value) result }
    {
        laws();
        rules();
        law_others();
        let (place, path) = (write.position.place, write.path);
        if let Some(at) = self.roots.without_lock(write.pe, path.first, place.get()) {
            return Err(StepFault::Broken(Rule::NoLock, at));
        }
        match self.map.live_at(write.position, path.kind, path.level) {
            None => self.write_unbroken(alloc, write, &None),
            Some(live) => {
                let new = core(path.kind, path.level, write.value);
                if new.is_some() {
                    return self.write_unbroken(alloc, write, &Some(live));
                }
                self.map
                    .break_at(write.position, write.pe, write.value, live);
                self.map.law_idle();
                Ok(())
            }
        }
    }

    /// A write.
    #[inline(never)]
    pub(crate) fn write(
        &mut self,
        alloc: Global,
        pe: Pe,
        place: Place,
        value: u64,
    ) -> Result<(), StepFault>
        requires { MayMeet self.old (Write pe place value) }
        ensures { Meets self.old self.new (Write pe place value) result }
    {
        laws();
        let Some(position) = self.position(place) else {
            return self.write_refused(pe, place, value);
        };
        if self.map.is_broken_at(&position) {
            return self.write_broken(alloc, pe, place, position.page, value);
        }
        let Some(path) = self.index.path(&position) else {
            return self.write_outside(pe, place, position.page, value);
        };
        let write = TreeWrite {
            pe,
            position: &position,
            value,
            path: &path,
        };
        self.write_inside(alloc, &write)
    }
}
