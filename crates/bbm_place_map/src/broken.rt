//! The broken places, each found by the number of its value.
//! Source: project's own choice, where no other is named.

ghost use Rattle.std.specs.Prelude.{◌≡◌, ◌≤◌, ◌<◌, ◌+◌, ◌*◌, ◌%◌, ◌^◌, ◌↔◌, ℕ, Some, None, [], true, false, OnOk};
ghost use Rattle.std.specs.Prelude.{OnErr};
ghost use Rattle.std.specs.Prelude.{vec_len, length, slice_get, nat_eq};
ghost use Rattle.std.specs.Option.{option_copied};
ghost use Rattle.bbm_entry_state.specs.EntryCalls.{Written};
ghost use Rattle.bbm_entry_state.specs.declared.marks.Marks.{Marks as TheMarks};
ghost use Rattle.bbm_entry_state.specs.declared.state.EntryState.TheVariants as state;
ghost use Rattle.bbm_place_map.specs.Cells.{cell_by, in_page, slot_in};
ghost use Rattle.bbm_place_map.specs.Dsbs.{HasEffect};
ghost use Rattle.bbm_place_map.specs.Entries.{HasRoom, lane_of};
ghost use Rattle.bbm_place_map.specs.PlaceNotes.{Keeps, NotesAs, is_cover};
ghost use Rattle.bbm_place_map.specs.Parts.{AddsCells, IsSound};
ghost use Rattle.bbm_place_map.specs.declared.entry.Entry.{Entry as TheEntry};

use crate::entries::{Entries, put_slot};
use crate::entry::Entry;
use crate::issue::{make_room_at, note_entry};
use crate::lane::Lane;
use crate::orders::{Barrier, Issuing};
use crate::read::{self, VALUES};
use crate::work::{self, Work};
use crate::{visit, write};
use bbm_descriptor::Core;
use bbm_entry_state::Marks;
use bbm_regimes::{NoMemory, Page, Pe, Place};
use bbm_tlbi_scope::Cover;
use std::alloc::Global;
use std::marker::Model;

/// The number of pages whose places may be kept.
const MAX_PAGES: usize = 1 << 22;

/// For how many pages at least there is room for the next pages that they may lose: so many that the room grows by
/// address space, and isn't copied.
const FIRST_PAGES: usize = 64;

/// The broken places, each found by the number of its value, what is left to do for DSBs, and the next pages of the
/// tables that the last DSB took out. The places of a page have 512 numbers, one after another. A page has cells from its
/// first broken place on, and there is room for those of all pages, and for an entry and a next page of each.
#[derive(Drop)]
pub struct BrokenPlaces {
    alloc: Global,
    parts: Vec<u32>,
    entries: Entries,
    lost: Vec<Page>,
    work: Work,
}

impl Model for BrokenPlaces {
    ghost use Rattle.std.specs.Prelude.{vec_len};
    ghost use Rattle.bbm_place_map.specs.ByNumber.{BrokenMap};
    ghost use Rattle.bbm_place_map.specs.Parts.{HasSpare, IsSound, has_room_for_page};
    ghost use Rattle.bbm_place_map.specs.Works.{Listed};

    ghost Value = { BrokenMap };

    ghost view = { λ b. record {
      pages = vec_len b.parts;
      has_room = has_room_for_page b.parts b.entries b.lost;
      entries = b.entries.list.items;
      lost = b.lost.items;
    } };

    ghost invariant = { λ b. IsSound b.parts.items b.entries
        × Listed b.work b.entries.cells.items b.entries.list.items × HasSpare b.parts b.lost };
}

/// Makes the cells of a page, which has none. The number of the first.
#[cold]
#[inline(never)]
fn add_part(parts: &mut Vec<u32>, entries: &mut Entries, page: usize) -> usize
    requires sound { IsSound parts.old.items entries.old }
    requires within { page < vec_len parts.old }
    requires none { slot_in parts.old.items page ≡ None }
    ensures sound { IsSound parts.new.items entries.new }
    ensures start { slot_in parts.new.items page ≡ Some result }
    ensures few { result < 2 ^ 32 }
    ensures pages { vec_len parts.new ≡ vec_len parts.old }
    ensures added { AddsCells entries.old entries.new }
{
    let start = entries.cells.len();
    entries.add_cells(VALUES);
    put_slot(parts, page, Some(start as u32));
    start
}

/// The number of the cell of a place. Where its page has no cells it gets them.
#[inline(always)]
fn cell_of(parts: &mut Vec<u32>, entries: &mut Entries, j: usize) -> usize
    requires sound { IsSound parts.old.items entries.old }
    requires within { j < VALUES * vec_len parts.old }
    ensures sound { IsSound parts.new.items entries.new }
    ensures cell { cell_by parts.new.items j ≡ Some result }
    ensures pages { vec_len parts.new ≡ vec_len parts.old }
    ensures added { AddsCells entries.old entries.new }
{
    match read::cell(parts, j) {
        Some(i) => i,
        None => add_part(parts, entries, j / VALUES) + j % VALUES,
    }
}

impl BrokenPlaces {
    ghost use Rattle.bbm_place_map.specs.ByNumber.{Breaks, ChangesOne, Clears, HoldsSame, IsOnce, VisitsPlaces};
    ghost use Rattle.bbm_place_map.specs.ByNumber.{entry_at, number_at};

    /// No page, and so no broken place. It takes no memory.
    pub fn new(alloc: Global) -> BrokenPlaces
        ensures pages { result.pages ≡ 0 }
        ensures entries { result.entries ≡ [] }
    {
        BrokenPlaces {
            alloc,
            parts: Vec::new(alloc),
            entries: Entries::new(alloc),
            lost: Vec::new(alloc),
            work: work::no_work(alloc),
        }
    }

    /// Each place has one entry at most. The call does nothing; the law is its contract.
    #[inline(always)]
    pub fn law_once(&self)
        ensures { IsOnce self.now }
    {
        let _ = self.entries.list.len();
    }

    /// Makes room for the places of one more page. Whether there is.
    pub fn reserve_page(&mut self) -> bool
        ensures room { result ≡ true → self.new.has_room ≡ true }
        ensures same { HoldsSame self.old self.new }
    {
        let pages = self.parts.len() + 1;
        if pages > MAX_PAGES || !self.entries.reserve(pages * VALUES) {
            return false;
        }
        self.lost.clear();
        let all = pages.max(FIRST_PAGES);
        self.lost.reserve(all * VALUES).is_ok() && self.parts.reserve(1).is_ok()
    }

    /// Adds the places of one more page, none of which is broken, where there is room for them.
    pub fn add_page(&mut self)
        requires { self.old.has_room ≡ true }
        ensures pages { self.new.pages ≡ self.old.pages + 1 }
        ensures entries { self.new.entries ≡ self.old.entries }
    {
        write::add_cells(&mut self.parts, 1);
        work::make_lists(&mut self.work.unpublished, self.alloc);
        work::make_lists(&mut self.work.waiting, self.alloc);
    }

    /// How many places are broken.
    #[inline(always)]
    pub fn len(&self) -> usize
        ensures { result ≡ length self.now.entries }
    {
        self.entries.list.len()
    }

    /// One of the entries, by its number.
    #[inline(always)]
    pub fn item(&self, k: usize) -> &Entry
        requires { k < length self.now.entries }
        ensures { slice_get self.now.entries k ≡ Some result.now }
    {
        &self.entries.list[k]
    }

    /// The number of the entry of a place; None where the place isn't broken.
    #[inline(always)]
    pub fn number(&self, j: usize) -> Option<u32>
        requires { j < VALUES * self.now.pages }
        ensures { result ≡ number_at self.now j }
    {
        self.entries.number(read::cell(&self.parts, j)?)
    }

    /// The entry of a place; None where the place isn't broken.
    #[inline(always)]
    pub fn entry(&self, j: usize) -> Option<&Entry>
        requires { j < VALUES * self.now.pages }
        ensures { option_copied result ≡ entry_at self.now j }
    {
        self.entries.get(read::cell(&self.parts, j)?)
    }

    /// Whether no place of the page is broken whose numbers start there.
    pub fn is_free(&self, base: usize) -> bool
        requires { base % VALUES ≡ 0 }
        ensures { (result ≡ true) ↔ ((i : ℕ) → i < VALUES → entry_at self.now (base + i) ≡ None) }
    {
        match read::slot_of(&self.parts, base / VALUES) {
            Some(start) => self.entries.are_free(start as usize),
            None => true,
        }
    }

    /// A place, which isn't broken, breaks over a core by a write of this PE.
    #[inline(always)]
    pub fn break_over(&mut self, j: usize, place: Place, pe: Pe, core: Core)
        requires within { j < VALUES * self.old.pages }
        requires whole { entry_at self.old j ≡ None }
        ensures { (marks : TheMarks) × Written (state.Live core) pe None (state.Broken marks)
            × Breaks j place marks self.old self.new }
    {
        let i = cell_of(&mut self.parts, &mut self.entries, j);
        let broken = self.entries.list.len();
        work::note_break(&mut self.work, pe, i as u32, broken);
        let marks = Marks::broken_by(core, pe);
        self.entries.link(i, j, place, marks, self.alloc);
    }

    /// A place is broken with these marks. What waits there stays. Whoever wrote is best named, and the result is the
    /// same by any PE.
    #[inline(always)]
    pub fn mark(&mut self, j: usize, place: Place, mostly: Pe, marks: Marks)
        requires { j < VALUES * self.old.pages }
        ensures { Breaks j place marks self.old self.new }
    {
        let i = cell_of(&mut self.parts, &mut self.entries, j);
        let before = self.entries.marks(i);
        let broken = self.entries.list.len();
        work::note_write(&mut self.work, mostly, i as u32, &before, &marks, broken);
        self.entries.mark(i, j, place, marks, self.alloc);
    }

    /// A place isn't broken, and nothing waits there.
    #[inline(always)]
    pub fn clear(&mut self, j: usize)
        requires { j < VALUES * self.old.pages }
        ensures { Clears (λ i. nat_eq i j) self.old self.new }
    {
        if let Some(i) = read::cell(&self.parts, j) {
            self.entries.clear(i);
        }
    }

    /// No place of the page is broken whose numbers start there, and nothing waits there.
    pub fn clear_page(&mut self, base: usize)
        requires { base % VALUES ≡ 0 }
        ensures { Clears (in_page base VALUES) self.old self.new }
    {
        if let Some(start) = read::slot_of(&self.parts, base / VALUES) {
            self.entries.clear_page(start as usize);
        }
    }

    /// A DSB published its issuer's writes, or answered its TLBIs, at each broken place. One that is cleansed at every PE
    /// isn't broken any more. The lost pages are then the next pages of the tables that such places were broken over.
    #[inline(always)]
    pub fn visit(&mut self, barrier: &Barrier)
        requires { HasEffect barrier.now.effect barrier.now }
        ensures { VisitsPlaces barrier.now self.old self.new }
    {
        self.lost.clear();
        let broken = self.entries.list.len();
        if broken == 0 {
            return;
        }
        work::begin(&mut self.work, barrier.n, broken);
        visit::visit(&mut self.entries, &mut self.lost, &mut self.work, barrier);
    }

    /// How many pages the last DSB lost.
    #[inline(always)]
    pub fn lost_len(&self) -> usize
        ensures { result ≡ length self.now.lost }
    {
        self.lost.len()
    }

    /// One of the pages that the last DSB lost, by its number.
    #[inline(always)]
    pub fn lost_page(&self, i: usize) -> Page
        requires { i < length self.now.lost }
        ensures { slice_get self.now.lost i ≡ Some result }
    {
        self.lost[i]
    }

    /// Makes room at an entry for what waits for the answers of a lane. `NoMemory` where there is none.
    #[inline(always)]
    pub fn make_room(&mut self, k: usize, lane: Lane) -> Result<(), NoMemory>
        requires { k < length self.old.entries }
        ensures { ChangesOne k (λ e f. Keeps e f × OnOk result (HasRoom f.pends lane)) self.old self.new }
    {
        make_room_at(&mut self.entries, k, lane)
    }

    /// Notes a TLBI at an entry that is covered so far, if it isn't noted there already, where there is room for its lane.
    #[inline(always)]
    pub fn note(&mut self, k: usize, tlbi: &Issuing, cover: Cover)
        requires within { k < length self.old.entries }
        requires ready { (e : TheEntry) → slice_get self.old.entries k ≡ Some e → is_cover cover ≡ true
            → HasRoom e.pends (lane_of tlbi.now.issuer tlbi.now.broadcast) }
        ensures { ChangesOne k (NotesAs cover tlbi.now) self.old self.new }
    {
        note_entry(&mut self.entries, k, tlbi, cover, &mut self.work.waiting);
    }
}
