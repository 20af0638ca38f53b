//! The map from places to their values, marks and pendings.
//! Source: project's own choice, where no other is named.
#![tactic(auto, unfolding(
// values, marks and pendings
crate::specs::Map::value_at, crate::specs::Map::marks_at, crate::specs::Map::pends_at,
// pages and positions
crate::specs::Map::pages_of, crate::specs::Map::IsPosition,
// the broken places by their numbers, and the lost pages
crate::specs::Map::restless_in, crate::specs::Map::restless_place, crate::specs::Map::lost_pages))]

mod answering;
mod asking;
mod writing;

ghost use Rattle.std.specs.Prelude.{◌≡◌, ◌≤◌, ◌<◌, ◌*◌, length, vec_len};
ghost use Rattle.std.proofs.Props.{props};
ghost use Rattle.bbm_regimes.specs.declared.address.TheConstants.{PLACES};
ghost use Rattle.bbm_place_map.specs.Sound.{Placed, bases};

use crate::broken::BrokenPlaces;
use crate::entry::Entry;
use crate::position::Position;
use crate::read::{self, VALUES};
use bbm_descriptor::{Core, Memory};
use bbm_entry_state::EntryState;
use bbm_page_map::PageNumbers;
use bbm_regimes::{Page, Place};
use std::alloc::Global;

/// The values of the places of the tracked pages, and of the broken ones among them the marks and the pendings.
#[derive(Drop)]
pub struct PlaceMap {
    pages: PageNumbers,
    values: Vec<u64>,
    broken: BrokenPlaces,
    ghost counted: { PLACES * length pages ≡ vec_len values },
    ghost paged: { broken.pages ≡ length pages },
    ghost placed: { Placed (bases pages) broken.entries },
}

impl PlaceMap {
    ghost use Rattle.std.specs.Prelude.{ℕ, [], None, Some, true, IsSome, IfSome, ◌+◌};
    ghost use Rattle.std.specs.Option.{option_copied};
    ghost use Rattle.bbm_entry_state.specs.Points.{core_in};
    ghost use Rattle.bbm_entry_state.specs.EntryStanding.{IsIdle};
    ghost use Rattle.bbm_place_map.specs.Map.{value_at, marks_at, pends_at, pages_of, page_of, restless_in, state_at};
    ghost use Rattle.bbm_place_map.specs.Map.{IsPosition, is_tracked, place_entry};
    ghost use Rattle.bbm_place_map.specs.Sound.{index_of};

    /// A map that tracks no page. It takes no memory yet.
    pub fn new(alloc: Global) -> PlaceMap
        ensures values { (a : ℕ) → value_at result a ≡ 0 }
        ensures marks { (a : ℕ) → marks_at result a ≡ None }
        ensures pends { (q a : ℕ) → IsIdle (pends_at result q a) }
        ensures pages { pages_of result ≡ [] }
        ensures restless { restless_in result ≡ 0 }
    {
        PlaceMap {
            pages: PageNumbers::new(alloc),
            values: Vec::new(alloc),
            broken: BrokenPlaces::new(alloc),
        }
    }

    /// The number of the place's value; None where its page isn't tracked.
    fn index(&self, place: Place) -> Option<usize>
        ensures index { result ≡ index_of (bases self.now.pages) place }
        ensures within { IfSome result (λ j. j < vec_len self.now.values) }
        ensures tracked { is_tracked self.now (page_of place) ≡ true → IsSome result }
    {
        let _ = place.get();
        let number = self.pages.number(place.page())?;
        Some(VALUES * number.get() + place.index() as usize)
    }

    /// The number of the value of a position's place.
    #[inline(always)]
    pub(crate) fn value_number(&self, position: &Position) -> usize
        requires { IsPosition self.now position.now }
        ensures index { index_of (bases self.now.pages) position.now.place ≡ Some result }
        ensures within { result < vec_len self.now.values }
    {
        let _ = position.place.get();
        VALUES * position.page.get() + position.place.index() as usize
    }

    /// The entry of the place of the value with this number; None where the place isn't broken.
    #[inline(always)]
    fn entry(&self, j: usize) -> Option<&Entry>
        requires { j < vec_len self.now.values }
        ensures { (a : ℕ) → index_of (bases self.now.pages) a ≡ Some j
            → option_copied result ≡ place_entry self.now a }
    {
        self.broken.entry(j)
    }

    /// The state of the place of the value with this number, where one that isn't broken is live with this core, or
    /// clean without one.
    fn state_of(&self, j: usize, live: Option<Core>) -> EntryState
        requires { j < vec_len self.now.values }
        ensures { (a : ℕ) → index_of (bases self.now.pages) a ≡ Some j → result ≡ state_at self.now live a }
    {
        match self.entry(j) {
            Some(entry) => EntryState::Broken { marks: entry.marks },
            None => read::unbroken(live),
        }
    }

    /// The core that the place of the value with this number is broken over; where it isn't broken, this one.
    fn core_or(&self, j: usize, live: Option<Core>) -> Option<Core>
        requires { j < vec_len self.now.values }
        ensures { (a : ℕ) → index_of (bases self.now.pages) a ≡ Some j
            → result ≡ core_in (state_at self.now live a) }
    {
        match self.entry(j) {
            Some(entry) => Some(entry.marks.core),
            None => live,
        }
    }

    /// The number of the first value of a page; None where the page isn't tracked.
    fn base(&self, page: Page) -> Option<usize>
        ensures base { result ≡ bases self.now.pages page }
        ensures within { IfSome result (λ b. b + VALUES ≤ vec_len self.now.values) }
    {
        Some(VALUES * self.pages.number(page)?.get())
    }
}

impl Memory for PlaceMap {
    ghost use Rattle.bbm_place_map.specs.Map.{value_at};

    ghost value_at = { value_at };

    fn value(&self, place: Place) -> u64 {
        match self.index(place) {
            Some(j) => self.values[j],
            None => 0,
        }
    }
}
