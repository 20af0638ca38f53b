//! Writes of places, and pages that are tracked or released.

ghost use Rattle.std.specs.Prelude.{ℕ, Some, None, true, false, OnOk, OnErr, ◌++◌, ◌∷◌, [], ◌+◌, if◌then◌else◌, ◌≡◌, ◌≤◌};
ghost use Rattle.std.specs.Prelude.{vec_len, vec_capacity, nat_eq};
ghost use Rattle.bbm_entry_state.specs.declared.state.EntryState.{EntryState as TheState};
ghost use Rattle.bbm_place_map.specs.MapCalls.{Frees, IsSame, KeepsItems, KeepsBroken, KeepsValues, Leaves, Puts};
ghost use Rattle.bbm_place_map.specs.MapCalls.{WritesAs};
ghost use Rattle.bbm_place_map.specs.Map.{value_at, marks_at, pends_at, is_tracked, IsPosition, page_of};
ghost use Rattle.bbm_place_map.specs.Map.{lost_pages, pages_of, state_at};

use crate::map::PlaceMap;
use crate::position::Position;
use crate::read::VALUES;
use crate::write;
use bbm_descriptor::Core;
use bbm_entry_state::{EntryState, Marks};
use bbm_regimes::{NoMemory, Page, Pe, Place};

impl PlaceMap {
    /// The PE writes a value at a position's place, the core of which is `new`, None where it is invalid; `live` is the
    /// core of the value before. The state is after what the write leaves of the one before. What waits there stays
    /// where the place is broken, and else is dropped. Nothing else changes.
    #[inline(always)]
    pub fn write_at(
        &mut self,
        position: &Position,
        pe: Pe,
        value: u64,
        live: &Option<Core>,
        new: &Option<Core>,
    )
        requires { IsPosition self.old position.now }
        ensures { WritesAs (state_at self.old live.now position.now.place) pe new.now value position.now.place
            self.old self.new }
    {
        match new {
            Some(_core) => self.put_unbroken(position, value),
            None => self.clear_at(position, pe, value, live),
        }
    }

    /// Writes a value at a position's place, and changes nothing else: whether the place is broken, and what waits there,
    /// stays. So does `write_at`, of a valid value at a place that isn't broken.
    #[inline(always)]
    pub fn put_at(&mut self, position: &Position, value: u64)
        requires { IsPosition self.old position.now }
        ensures put { Puts value position.now.place self.old self.new }
        ensures marks { (a : ℕ) → marks_at self.new a ≡ marks_at self.old a }
        ensures pends { (q a : ℕ) → pends_at self.new q a ≡ pends_at self.old q a }
    {
        let j = self.value_number(position);
        write::put_value(&mut self.values, j, value);
    }

    /// The PE writes an invalid value at a position's place, which is live with this core and isn't broken. The state is
    /// after what `write_at` leaves. What waits there stays, and nothing else changes.
    #[inline(always)]
    pub fn break_at(&mut self, position: &Position, pe: Pe, value: u64, core: Core)
        requires position { IsPosition self.old position.now }
        requires whole { marks_at self.old position.now.place ≡ None }
        ensures { WritesAs (TheState.Live core) pe None value position.now.place self.old self.new }
    {
        let j = self.value_number(position);
        self.broken.break_over(j, position.place, pe, core);
        write::put_value(&mut self.values, j, value);
    }

    /// `write_at` of an invalid value. Each state has an arm of its own, so that the code of a live place carries no
    /// marks about.
    fn clear_at(&mut self, position: &Position, pe: Pe, value: u64, live: &Option<Core>)
        requires { IsPosition self.old position.now }
        ensures { WritesAs (state_at self.old live.now position.now.place) pe None value position.now.place
            self.old self.new }
    {
        let j = self.value_number(position);
        match self.state_of(j, *live) {
            EntryState::Live { core } => {
                self.clear_from(position, pe, value, EntryState::Live { core })
            }
            EntryState::Broken { marks } => {
                self.clear_from(position, pe, value, EntryState::Broken { marks })
            }
            EntryState::Clean => self.clear_from(position, pe, value, EntryState::Clean),
        }
    }

    /// `write_at` of an invalid value at a place in this state.
    #[inline(always)]
    fn clear_from(&mut self, position: &Position, pe: Pe, value: u64, state: EntryState)
        requires { IsPosition self.old position.now }
        ensures { WritesAs state pe None value position.now.place self.old self.new }
    {
        match state.write(pe, None) {
            EntryState::Broken { marks } => self.put_broken(position, pe, value, marks),
            EntryState::Clean => self.put_unbroken(position, value),
            EntryState::Live { .. } => self.put_unbroken(position, value),
        }
    }

    /// Writes a value at a position's place, which isn't broken after. What waits there is dropped. Nothing else changes.
    fn put_unbroken(&mut self, position: &Position, value: u64)
        requires { IsPosition self.old position.now }
        ensures put { Puts value position.now.place self.old self.new }
        ensures left { Leaves TheState.Clean position.now.place self.old self.new }
    {
        let j = self.value_number(position);
        write::put_value(&mut self.values, j, value);
        self.broken.clear(j);
    }

    /// Writes a value at a position's place, which is broken with these marks after. What waits there stays. Nothing else
    /// changes. Whoever wrote is best named, and the result is the same by any PE.
    #[inline(always)]
    fn put_broken(&mut self, position: &Position, mostly: Pe, value: u64, marks: Marks)
        requires { IsPosition self.old position.now }
        ensures put { Puts value position.now.place self.old self.new }
        ensures left { Leaves (TheState.Broken marks) position.now.place self.old self.new }
    {
        let j = self.value_number(position);
        self.broken.mark(j, position.place, mostly, marks);
        write::put_value(&mut self.values, j, value);
    }

    /// Writes a value at a place of a tracked page, and the state that the write leaves. What waits there stays where
    /// the place is broken, and else is dropped. Nothing else changes.
    pub fn set(&mut self, place: Place, value: u64, state: EntryState)
        requires { is_tracked self.old (page_of place) ≡ true }
        ensures put { Puts value place self.old self.new }
        ensures left { Leaves state place self.old self.new }
    {
        let position = self.position(place).unwrap();
        match state {
            EntryState::Broken { marks } => {
                self.put_broken(&position, Pe::new(0).unwrap(), value, marks)
            }
            EntryState::Clean => self.put_unbroken(&position, value),
            EntryState::Live { .. } => self.put_unbroken(&position, value),
        }
    }

    /// No place of the page is broken any more, and nothing waits there. Nothing else changes, nor do the lost pages.
    pub fn release(&mut self, page: Page)
        ensures freed { Frees page self.old self.new }
        ensures same { KeepsValues self.old self.new }
        ensures lost { lost_pages self.new ≡ lost_pages self.old }
    {
        match self.base(page) {
            Some(base) => self.broken.clear_page(base),
            None => {}
        }
    }

    /// Tracks the page: its values are 0, none of its places is broken, and nothing waits there. `NoMemory` where there
    /// is none, and nothing changes then. It takes all the room that `set` needs later.
    pub fn track(&mut self, page: Page) -> Result<(), NoMemory>
        ensures pages { OnOk result (pages_of self.new
            ≡ (if is_tracked self.old page then pages_of self.old else pages_of self.old ++ page ∷ [])) }
        ensures values { OnOk result ((a : ℕ) → value_at self.new a
            ≡ (if nat_eq (page_of a) page then 0 else value_at self.old a)) }
        ensures freed { OnOk result (Frees page self.old self.new) }
        ensures kept { OnErr result (IsSame self.old self.new) }
    {
        match self.base(page) {
            Some(base) => {
                self.broken.clear_page(base);
                write::zero_page(&mut self.values, base);
                Ok(())
            }
            None => self.add_page(page),
        }
    }

    /// Tracks a page that isn't tracked. `NoMemory` where there is none, and nothing changes then.
    fn add_page(&mut self, page: Page) -> Result<(), NoMemory>
        requires { is_tracked self.old page ≡ false }
        ensures pages { OnOk result (pages_of self.new ≡ pages_of self.old ++ page ∷ []) }
        ensures values { OnOk result ((a : ℕ) → value_at self.new a ≡ value_at self.old a) }
        ensures same { OnOk result (KeepsBroken self.old self.new) }
        ensures kept { OnErr result (IsSame self.old self.new) }
    {
        if !self.has_room() {
            return Err(NoMemory);
        }
        match self.pages.add(page) {
            Ok(()) => {
                write::add_values(&mut self.values);
                self.broken.add_page();
                Ok(())
            }
            Err(_) => Err(NoMemory),
        }
    }

    /// Makes room for one more page: for its values, and for a broken place of each. Whether there is.
    fn has_room(&mut self) -> bool
        ensures values { result ≡ true → vec_len self.new.values + VALUES ≤ vec_capacity self.new.values }
        ensures broken { result ≡ true → self.new.broken.has_room ≡ true }
        ensures same { KeepsItems self.old self.new }
    {
        self.broken.reserve_page() && self.values.reserve(VALUES).is_ok()
    }
}
