//! What the map is asked: its values and states, where a place is kept, and which places are broken.

ghost use Rattle.std.specs.Prelude.{ℕ, Some, None, true, false, IsSome, IfSome, length, is_some, ◌+◌, ◌*◌, ◌%◌, ◌↔◌};
ghost use Rattle.std.specs.Prelude.{slice_index_or, ◌≡◌, ◌≤◌, ◌<◌};
ghost use Rattle.bbm_entry_state.specs.Points.{core_in};
ghost use Rattle.bbm_entry_state.specs.declared.marks.Marks.{Marks as TheMarks};
ghost use Rattle.bbm_descriptor.specs.Descriptor.{core_of};
ghost use Rattle.bbm_entry_state.specs.EntryStanding.{IsIdle};
ghost use Rattle.bbm_place_map.specs.Map.{value_at, marks_at, pends_at, is_tracked, IsPosition, page_of, restless_in};
ghost use Rattle.bbm_page_map.specs.PageLists.{number_in};
ghost use Rattle.bbm_place_map.specs.Map.{pages_of, restless_place, state_at};
ghost use Rattle.bbm_place_map.specs.Entries.{WaitsAlike};

use crate::entry::pends_of;
use crate::map::PlaceMap;
use crate::position::Position;
use crate::read;
use bbm_descriptor::{Core, core};
use bbm_entry_state::{EntryState, Pends};
use bbm_page_map::PageNumber;
use bbm_regimes::{Kind, Level, PAGE_BYTES, PLACES, Page, Pe, Place};

impl PlaceMap {
    /// The state of a place, where a place that isn't broken is live with this core, or clean without one. It is for
    /// those who use the map by itself; the checker asks by position.
    pub fn state(&self, place: Place, live: Option<Core>) -> EntryState
        ensures { result ≡ state_at self.now live place }
    {
        match self.index(place) {
            Some(j) => self.state_of(j, live),
            None => read::unbroken(live),
        }
    }

    /// The number of the page; None where it isn't tracked.
    #[inline(always)]
    pub fn number(&self, page: Page) -> Option<PageNumber>
        ensures { result ≡ number_in (pages_of self.now) page }
    {
        self.pages.number(page)
    }

    /// Where the place is kept; None where its page isn't tracked. A call that needs a place's position looks nothing up.
    #[inline(always)]
    pub fn position(&self, place: Place) -> Option<Position>
        ensures place { IfSome result (λ position. position.place ≡ place) }
        ensures position { IfSome result (λ position. IsPosition self.now position) }
        ensures tracked { is_tracked self.now (page_of place) ≡ true → IsSome result }
    {
        let _ = place.get();
        let page = self.pages.number(place.page())?;
        Some(Position { place, page })
    }

    /// `position`, which takes the fewest steps where the page asked for in this way before, or tracked, lies near.
    #[inline(always)]
    pub fn find(&mut self, place: Place) -> Option<Position>
        ensures place { IfSome result (λ position. position.place ≡ place) }
        ensures position { IfSome result (λ position. IsPosition self.old position) }
        ensures tracked { is_tracked self.old (page_of place) ≡ true → IsSome result }
        ensures same { self.new ≡ self.old }
    {
        let _ = place.get();
        let page = self.pages.find(place.page())?;
        Some(Position { place, page })
    }

    /// The core of the value of a position's place, read at this kind and level, 0 to 3; None where the value is invalid.
    pub fn live_at(&self, position: &Position, kind: Kind, level: Level) -> Option<Core>
        requires position { IsPosition self.now position.now }
        ensures { result ≡ core_of kind level (value_at self.now position.now.place) }
    {
        core(kind, level, self.value_of(position))
    }

    /// The value of a position's place, 64 bits.
    #[inline(always)]
    pub fn value_of(&self, position: &Position) -> u64
        requires { IsPosition self.now position.now }
        ensures { result ≡ value_at self.now position.now.place }
    {
        let j = self.value_number(position);
        self.values[j]
    }

    /// Whether a position's place is broken.
    #[inline(always)]
    pub fn is_broken_at(&self, position: &Position) -> bool
        requires { IsPosition self.now position.now }
        ensures { result ≡ is_some (marks_at self.now position.now.place) }
    {
        let j = self.value_number(position);
        self.entry(j).is_some()
    }

    /// The core that a position's place is broken over; where it isn't broken, this one.
    pub fn core_at(&self, position: &Position, live: Option<Core>) -> Option<Core>
        requires { IsPosition self.now position.now }
        ensures { result ≡ core_in (state_at self.now live position.now.place) }
    {
        let j = self.value_number(position);
        self.core_or(j, live)
    }

    /// The state of the place, read at this kind and level, 0 to 3: one that isn't broken is live with the core of its
    /// value, or clean where the value is invalid.
    pub fn state_by(&self, place: Place, kind: Kind, level: Level) -> EntryState
        ensures { result ≡ state_at self.now (core_of kind level (value_at self.now place)) place }
    {
        match self.index(place) {
            Some(j) => self.state_of(j, core(kind, level, self.values[j])),
            None => read::unbroken(core(kind, level, 0)),
        }
    }

    /// What waits at a place for the answers of the issuer's TLBIs. Nothing waits at a place that isn't broken. It is for
    /// those who use the map by itself; the checker issues and completes alone.
    pub fn pends(&self, issuer: Pe, place: Place) -> Pends
        ensures pends { WaitsAlike (pends_at self.now issuer place) result }
        ensures idle { marks_at self.now place ≡ None → IsIdle (pends_at self.now issuer place) }
    {
        self.law_idle();
        match self.index(place) {
            Some(j) => match self.entry(j) {
                Some(entry) => pends_of(&entry.pends, issuer),
                None => Pends::none(),
            },
            None => Pends::none(),
        }
    }

    /// Whether each place of the page has the value 0 and isn't broken. A page that isn't tracked is blank.
    pub fn is_blank(&self, page: Page) -> bool
        ensures blank { (result ≡ true) ↔ ((a : ℕ) → page_of a ≡ page
            → (value_at self.now a ≡ 0) × (marks_at self.now a ≡ None)) }
        ensures tracked { result ≡ false → is_tracked self.now page ≡ true }
    {
        let _ = page.get();
        match self.base(page) {
            Some(base) => {
                if !read::is_zero(&self.values, base) {
                    return false;
                }
                self.broken.is_free(base)
            }
            None => true,
        }
    }

    /// The position of the first place of a tracked page, from which the places of the page are read.
    pub fn first_position(&self, page: Page) -> Position
        requires { is_tracked self.now page ≡ true }
        ensures place { result.place ≡ page }
        ensures position { IsPosition self.now result }
        ensures first { result.place % PAGE_BYTES ≡ 0 }
    {
        let place = Place::new(page.get()).unwrap();
        let page = self.pages.number(page).unwrap();
        Position { place, page }
    }

    /// The value of the place with this number, 0 to 511, of the page whose first place the position has.
    pub fn value_from(&self, position: &Position, number: u64) -> u64
        requires position { IsPosition self.now position.now }
        requires first { position.now.place % PAGE_BYTES ≡ 0 }
        requires within { number < PLACES }
        ensures { result ≡ value_at self.now (position.now.place + 8 * number) }
    {
        let j = self.value_number(position);
        self.values[j + number as usize]
    }

    /// The core that the place with this number, 0 to 511, has, of the page whose first place the position has: the one
    /// that it is broken over; where it isn't broken that of its value, read at this kind and level, 0 to 3, and None
    /// where that is invalid.
    pub fn core_from(
        &self,
        position: &Position,
        number: u64,
        kind: Kind,
        level: Level,
    ) -> Option<Core>
        requires position { IsPosition self.now position.now }
        requires first { position.now.place % PAGE_BYTES ≡ 0 }
        requires within { number < PLACES }
        ensures { result ≡ core_in (state_at self.now
            (core_of kind level (value_at self.now (position.now.place + 8 * number)))
            (position.now.place + 8 * number)) }
    {
        let live = core(kind, level, self.value_from(position, number));
        let j = self.value_number(position);
        self.core_or(j + number as usize, live)
    }

    /// How many places are broken. Each is a place of a descriptor: its address is a multiple of 8.
    pub fn restless(&self) -> u64
        ensures count { result ≡ restless_in self.now }
        ensures broken { (i : ℕ) → i < restless_in self.now → is_some (marks_at self.now (restless_place self.now i))
            ≡ true }
        ensures each { (a : ℕ) → is_some (marks_at self.now a) ≡ true
            → (i : ℕ) × (i < restless_in self.now) × (restless_place self.now i ≡ a) }
        ensures once { (i j : ℕ) → i < restless_in self.now → j < restless_in self.now
            → restless_place self.now i ≡ restless_place self.now j → i ≡ j }
        ensures idle { (q a : ℕ) → marks_at self.now a ≡ None → IsIdle (pends_at self.now q a) }
        ensures aligned { (a : ℕ) → is_some (marks_at self.now a) ≡ true → a % 8 ≡ 0 }
    {
        self.broken.law_once();
        self.broken.len() as u64
    }

    /// One of the broken places, by a number below `restless`. A call that changes the map may number them anew.
    pub fn restless_at(&self, i: u64) -> Place
        requires { i < restless_in self.now }
        ensures place { result ≡ restless_place self.now i }
        ensures broken { is_some (marks_at self.now result) ≡ true }
    {
        self.broken.law_once();
        self.broken.item(i as usize).place
    }

    /// Where one of the broken places is kept, by its number below `restless`.
    #[inline(always)]
    pub fn restless_position(&self, i: u64) -> Position
        requires { i < restless_in self.now }
        ensures place { result.place ≡ restless_place self.now i }
        ensures position { IsPosition self.now result }
    {
        self.position(self.restless_at(i)).unwrap()
    }

    /// The core that one of the broken places is broken over, by its number below `restless`.
    pub fn restless_core(&self, i: u64) -> Core
        requires { i < restless_in self.now }
        ensures { (marks : TheMarks) × (marks_at self.now (restless_place self.now i) ≡ Some marks)
            × (marks.core ≡ result) }
    {
        self.broken.law_once();
        self.broken.item(i as usize).marks.core
    }

    /// The number of a position's place among the broken ones, below `restless`; None where it isn't broken.
    #[inline(always)]
    pub fn restless_number(&self, position: &Position) -> Option<u32>
        requires { IsPosition self.now position.now }
        ensures some { (i : ℕ) → result ≡ Some i
            → (i < restless_in self.now) × (restless_place self.now i ≡ position.now.place) }
        ensures none { result ≡ None → marks_at self.now position.now.place ≡ None }
    {
        let j = self.value_number(position);
        self.broken.number(j)
    }

    /// Nothing waits at a place that isn't broken. The call does nothing; the law is its contract.
    pub fn law_idle(&self)
        ensures { (q a : ℕ) → marks_at self.now a ≡ None → IsIdle (pends_at self.now q a) }
    {}
}
