//! The entries of the broken places, each found by the number of its cell.
//! Source: project's own choice, where no other is named.

ghost use Rattle.std.specs.Prelude.{◌≡◌, ◌≤◌, ◌<◌, ◌+◌, ◌^◌, ℕ, Option, Some, None, [], is_some, nat_eq, vec_len, true};
ghost use Rattle.std.specs.Prelude.{vec_capacity, count_by, slice_get, cond, if◌then◌else◌, ◌-◌, ◌↔◌, IfSome};
ghost use Rattle.bbm_place_map.specs.Cells.{in_page, is_listed, number_of, slot_in};
ghost use Rattle.bbm_place_map.specs.Entries.{cell_at, entry_in, marks_of};
ghost use Rattle.bbm_place_map.specs.Sound.{Linked, SameSize};
ghost use Rattle.std.specs.Option.{option_copied};
ghost use Rattle.bbm_place_map.specs.declared.entry.Entry.{Entry as TheEntry};

use crate::entry::Entry;
use crate::read::{VALUES, slot_of};
use crate::write;
use bbm_entry_state::Marks;
use bbm_regimes::Place;
use smallvec::SmallVec;
use std::alloc::Global;

/// The entries of the broken places, each found by the number of its cell. There is room for one of each cell.
#[derive(Drop)]
pub struct Entries {
    /// Of each cell 0 where it has no entry, else one more than the entry's number.
    pub cells: Vec<u32>,
    /// The entries, by their numbers.
    pub list: Vec<Entry>,
    ghost linked: { Linked cells.items list.items },
    ghost few: { vec_len cells < 2 ^ 32 },
    ghost room: { vec_len cells ≤ vec_capacity list },
}

/// The cell that stands for this number.
#[inline(always)]
fn cell_for(number: Option<u32>) -> u32
    requires { IfSome number (λ k. k < 2 ^ 32 - 1) }
    ensures { number_of result ≡ number }
{
    match number {
        Some(k) => k + 1,
        None => 0,
    }
}

/// Writes the number of a cell's entry.
pub fn put_slot(cells: &mut Vec<u32>, j: usize, slot: Option<u32>)
    requires within { j < vec_len cells.old }
    requires few { IfSome slot (λ k. k < 2 ^ 32 - 1) }
    ensures slots { (i : ℕ) → slot_in cells.new.items i ≡ (if nat_eq i j then slot else slot_in cells.old.items i) }
    ensures count { count_by is_listed cells.new.items + cond (is_some (slot_in cells.old.items j)) 1 0
        ≡ count_by is_listed cells.old.items + cond (is_some slot) 1 0 }
    ensures len { vec_len cells.new ≡ vec_len cells.old }
    ensures space { vec_capacity cells.new ≡ vec_capacity cells.old }
{
    cells[j] = cell_for(slot);
}

impl Entries {
    ghost use Rattle.bbm_place_map.specs.Parts.{entry_of_cell};
    ghost use Rattle.bbm_place_map.specs.Puts.{ClearsCells, MarksCell, StillSound};

    /// No cells, and so no entries. It takes no memory.
    pub fn new(alloc: Global) -> Entries
        ensures cells { result.cells.items ≡ [] }
        ensures list { result.list.items ≡ [] }
    {
        Entries {
            cells: Vec::new(alloc),
            list: Vec::new(alloc),
        }
    }

    /// Makes room for so many cells, and as many entries. Whether there is.
    pub fn reserve(&mut self, all: usize) -> bool
        requires { vec_len self.old.cells ≤ all }
        ensures space { result ≡ true → all ≤ vec_capacity self.new.cells }
        ensures room { result ≡ true → all ≤ vec_capacity self.new.list }
        ensures old_space { vec_capacity self.old.cells ≤ vec_capacity self.new.cells }
        ensures old_room { vec_capacity self.old.list ≤ vec_capacity self.new.list }
        ensures cells { self.new.cells.items ≡ self.old.cells.items }
        ensures list { self.new.list.items ≡ self.old.list.items }
    {
        let cells = all - self.cells.len();
        let entries = all - self.list.len();
        self.list.reserve(entries).is_ok() && self.cells.reserve(cells).is_ok()
    }

    /// Adds cells that have no entry, so many, where there is room for them and their entries.
    pub fn add_cells(&mut self, count: usize)
        requires space { vec_len self.old.cells + count ≤ vec_capacity self.old.cells }
        requires room { vec_len self.old.cells + count ≤ vec_capacity self.old.list }
        requires few { vec_len self.old.cells + count < 2 ^ 32 }
        ensures len { vec_len self.new.cells ≡ vec_len self.old.cells + count }
        ensures space { vec_capacity self.old.cells ≤ vec_capacity self.new.cells }
        ensures slots { (i : ℕ) → slot_in self.new.cells.items i ≡ slot_in self.old.cells.items i }
        ensures list { self.new.list ≡ self.old.list }
    {
        write::add_cells(&mut self.cells, count);
    }

    /// The number of a cell's entry; None where it has none, or there is no such cell.
    #[inline(always)]
    pub fn number(&self, cell: usize) -> Option<u32>
        ensures { result ≡ slot_in self.now.cells.items cell }
    {
        slot_of(&self.cells, cell)
    }

    /// The entry of a cell; None where it has none.
    #[inline(always)]
    pub fn get(&self, cell: usize) -> Option<&Entry>
        ensures { option_copied result ≡ entry_of_cell self.now cell }
    {
        match self.number(cell) {
            Some(k) => Some(&self.list[k as usize]),
            None => None,
        }
    }

    /// The marks of a cell's place; None where it isn't broken.
    #[inline(always)]
    pub fn marks(&self, cell: usize) -> Option<Marks>
        ensures { result ≡ marks_of (entry_of_cell self.now cell) }
    {
        Some(self.get(cell)?.marks)
    }

    /// Whether none of the 512 cells from the start on has an entry.
    pub fn are_free(&self, start: usize) -> bool
        requires { start + VALUES ≤ vec_len self.now.cells }
        ensures { (result ≡ true) ↔ ((i : ℕ) → i < VALUES → slot_in self.now.cells.items (start + i) ≡ None) }
    {
        for i in 0..VALUES {
            if self.number(start + i).is_some() {
                return false;
            }
        }
        true
    }

    /// Makes an entry for a cell that has none, with nothing waiting.
    #[inline(always)]
    pub fn link(&mut self, cell: usize, index: usize, place: Place, marks: Marks, alloc: Global)
        requires within { cell < vec_len self.old.cells }
        requires free { slot_in self.old.cells.items cell ≡ None }
        requires few { index < 2 ^ 32 }
        ensures { MarksCell cell index place marks self.old self.new }
    {
        let number = self.list.len() as u32;
        self.list.push_reserved(Entry {
            place,
            index: index as u32,
            cell: cell as u32,
            marks,
            pends: SmallVec::new(alloc),
        });
        put_slot(&mut self.cells, cell, Some(number));
    }

    /// Takes an entry out. The last one takes its number.
    pub fn unlink(&mut self, k: usize)
        requires { k < vec_len self.old.list }
        ensures sound { StillSound self.old self.new }
        ensures count { vec_len self.new.list + 1 ≡ vec_len self.old.list }
        ensures entries { (j : ℕ) → cell_at self.old.list.items k ≡ Some j → (i : ℕ)
            → entry_in self.new.cells.items self.new.list.items i
            ≡ (if nat_eq i j then None else entry_in self.old.cells.items self.old.list.items i) }
        ensures front { (m : ℕ) → m < k → slice_get self.new.list.items m ≡ slice_get self.old.list.items m }
    {
        let cell = self.list[k].cell as usize;
        let last = self.list[self.list.len() - 1].cell as usize;
        put_slot(&mut self.cells, last, Some(k as u32));
        put_slot(&mut self.cells, cell, None);
        let _ = self.list.swap_remove(k);
    }

    /// Changes the marks of an entry.
    fn remark(&mut self, k: usize, marks: Marks)
        requires { k < vec_len self.old.list }
        ensures entry { (e : TheEntry) → slice_get self.old.list.items k ≡ Some e → (i : ℕ) → slice_get self.new.list.items i
            ≡ (if nat_eq i k then Some (record e { marks = marks }) else slice_get self.old.list.items i) }
        ensures cells { self.new.cells ≡ self.old.cells }
        ensures size { SameSize self.old.list self.new.list }
    {
        let entry = &mut self.list[k];
        entry.marks = marks;
    }

    /// The place of a cell is broken, with these marks. What waits there stays.
    pub fn mark(&mut self, cell: usize, index: usize, place: Place, marks: Marks, alloc: Global)
        requires within { cell < vec_len self.old.cells }
        requires few { index < 2 ^ 32 }
        ensures { MarksCell cell index place marks self.old self.new }
    {
        match self.number(cell) {
            Some(k) => self.remark(k as usize, marks),
            None => self.link(cell, index, place, marks, alloc),
        }
    }

    /// The place of a cell isn't broken, and nothing waits there.
    pub fn clear(&mut self, j: usize)
        ensures { ClearsCells (λ i. nat_eq i j) self.old self.new }
    {
        if let Some(k) = self.number(j) {
            self.unlink(k as usize);
        }
    }

    /// No place of the 512 cells from the start on is broken, and nothing waits there.
    pub fn clear_page(&mut self, start: usize)
        requires { start + VALUES ≤ vec_len self.old.cells }
        ensures { ClearsCells (in_page start VALUES) self.old self.new }
    {
        for i in 0..VALUES {
            self.clear(start + i);
        }
    }
}
