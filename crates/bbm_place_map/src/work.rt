//! Lists of the broken places that a DSB has to visit.
//! Source: project's own choice, where no other is named.

ghost use Rattle.std.specs.Prelude.{◌≡◌, ◌≢◌, ◌≤◌, ◌<◌, ◌⊎◌, ℕ, Bool, Some, true, false, Contains, vec_len, length};
ghost use Rattle.std.specs.Prelude.{drop, slice_get};
ghost use Rattle.bbm_regimes.specs.PeMask.{pe_in};
ghost use Rattle.bbm_place_map.specs.Works.{AddsAll, GivesUp, Holds, HoldsFor, is_clean, IsToldAsBefore};
ghost use Rattle.bbm_place_map.specs.Works.{part as spec_part};

use bbm_entry_state::Marks;
use bbm_regimes::{Pe, PeCount, PeMask};
use std::alloc::Global;

/// The numbers of cells at whose places something may be left to do, unless there were too many. A cell may stand here
/// twice, and one with nothing left to do too. New cells come at the end.
#[derive(Drop)]
pub struct WorkList {
    /// Whether there may be something left at any other place, too.
    pub given_up: bool,
    /// How many of the cells, from the first, leave nothing to do for a DSB that reaches its PE alone.
    pub local_done: usize,
    /// The numbers of the cells.
    pub cells: Vec<u32>,
}

/// What is left to do for DSBs, of each PE.
#[derive(Drop)]
pub struct Work {
    /// The number of PEs of the log.
    pub pes: PeCount,
    /// Whether it is known that no place is broken whose every PE is clean.
    pub settled: bool,
    /// Of each PE, where it wrote and some PE hasn't seen it.
    pub unpublished: Vec<WorkList>,
    /// Of each PE, where something waits for the answers of its TLBIs.
    pub waiting: Vec<WorkList>,
}

/// Nothing is left to do. It takes no memory.
pub fn no_work(alloc: Global) -> Work
    ensures pes { result.pes ≡ 1 }
{
    Work {
        pes: PeCount::new(1),
        settled: true,
        unpublished: Vec::new(alloc),
        waiting: Vec::new(alloc),
    }
}

/// Empties a list, which speaks for all places or has given up.
pub fn restart(list: &mut WorkList, given_up: bool)
    ensures { list.new.given_up ≡ given_up }
{
    list.given_up = given_up;
    list.local_done = 0;
    list.cells.clear();
}

/// Where the cells start that may leave something to do for a DSB that reaches its PE alone.
fn local_start(list: &WorkList) -> usize
    ensures within { result ≤ vec_len list.now.cells }
    ensures same { spec_part false list.now ≡ drop result list.now.cells.items }
{
    if list.local_done < list.cells.len() {
        list.local_done
    } else {
        list.cells.len()
    }
}

/// The cells that a DSB has to visit: all, or where it reaches its PE alone those behind the ones that leave it nothing
/// to do.
pub fn part(list: &WorkList, wide: bool) -> &[u32]
    ensures { result.now ≡ spec_part wide list.now }
{
    if wide {
        return &list.cells;
    }
    let from = local_start(list);
    &list.cells[from..]
}

/// No cell of the list leaves anything to do for a DSB that reaches its PE alone.
pub fn pass_local(list: &mut WorkList)
    ensures { (j : ℕ) → Holds list.old true j → Holds list.new true j }
{
    list.local_done = list.cells.len();
}

/// How many cells a list has at least that is long beside the number of broken places.
const LONG: usize = 64;

/// The number of PEs that a log may have.
const PES: usize = 128;

/// Whether a list is long beside the number of broken places.
fn is_long(count: usize, broken: usize) -> bool {
    count >= LONG && count / 2 >= broken
}

/// Adds a cell, or gives up where the list is long beside the number of broken places, or there is no room for it.
pub fn add(list: &mut WorkList, cell: u32, broken: usize)
    ensures there { (wide : Bool) → Holds list.new wide cell }
    ensures kept { (wide : Bool) (j : ℕ) → Holds list.old wide j → Holds list.new wide j }
{
    let count = list.cells.len();
    if count < list.local_done || is_long(count, broken) {
        list.given_up = true;
    } else {
        match list.cells.push(cell) {
            Ok(()) => {}
            Err(_) => list.given_up = true,
        }
    }
}

/// Adds a cell to the list of a PE.
pub fn add_for(lists: &mut Vec<WorkList>, pe: Pe, cell: u32, broken: usize)
    ensures there { (wide : Bool) → HoldsFor lists.new.items pe wide cell }
    ensures kept { (wide : Bool) (q j : ℕ) → HoldsFor lists.old.items q wide j → HoldsFor lists.new.items q wide j }
{
    let q = pe.get() as usize;
    if q < lists.len() {
        let list = &mut lists[q];
        if !list.given_up {
            add(list, cell, broken);
        }
    }
}

/// The writers of which the list must hear, where a place with the marks before has these now.
fn fresh_writers(before: &Option<Marks>, marks: &Marks) -> PeMask
    ensures { (q : ℕ) → pe_in result q ≡ false
        → (pe_in marks.now.writers q ≡ false) ⊎ IsToldAsBefore before.now marks.now q }
{
    match before {
        Some(old) => {
            if old.seen.minus(marks.seen).is_empty() {
                marks.writers.minus(old.writers)
            } else {
                marks.writers
            }
        }
        None => marks.writers,
    }
}

/// Adds a cell to the list of the PE with this number, where it is among these.
fn add_writer(lists: &mut Vec<WorkList>, writers: PeMask, i: u8, cell: u32, broken: usize)
    requires { i < 128 }
    ensures there { (wide : Bool) → pe_in writers i ≡ true → HoldsFor lists.new.items i wide cell }
    ensures kept { (wide : Bool) (q j : ℕ) → HoldsFor lists.old.items q wide j → HoldsFor lists.new.items q wide j }
{
    if let Some(pe) = Pe::new(i) {
        if writers.has(pe) {
            add_for(lists, pe, cell, broken);
        }
    }
}

/// Adds a cell to the lists of these PEs, of the first `pes`.
fn add_writers(lists: &mut Vec<WorkList>, writers: PeMask, pes: PeCount, cell: u32, broken: usize)
    ensures { AddsAll writers pes cell lists.old.items lists.new.items }
{
    for i in 0..pes.get() {
        add_writer(lists, writers, i, cell, broken);
    }
}

/// Adds a cell to the lists of these PEs, of the first `pes`, of which most often this one is the only one.
#[inline(always)]
fn add_mostly(
    lists: &mut Vec<WorkList>,
    writers: PeMask,
    mostly: Pe,
    pes: PeCount,
    cell: u32,
    broken: usize,
)
    ensures { AddsAll writers pes cell lists.old.items lists.new.items }
{
    add_for(lists, mostly, cell, broken);
    let others = writers.minus(PeMask::one(mostly));
    if !others.is_empty() {
        add_writers(lists, others, pes, cell, broken);
    }
}

/// Adds a cell to the lists of these PEs, of the first `pes`, if there are any: most often this one alone.
#[inline(always)]
fn add_fresh(
    lists: &mut Vec<WorkList>,
    writers: PeMask,
    mostly: Pe,
    pes: PeCount,
    cell: u32,
    broken: usize,
)
    ensures { AddsAll writers pes cell lists.old.items lists.new.items }
{
    if !writers.is_empty() {
        add_mostly(lists, writers, mostly, pes, cell, broken);
    }
}

/// The place of a cell, with the marks before if it was broken, is broken with these now. Most often this PE is the
/// only one that wrote there since.
#[inline(always)]
pub fn note_write(
    work: &mut Work,
    mostly: Pe,
    cell: u32,
    before: &Option<Marks>,
    marks: &Marks,
    broken: usize,
)
    ensures pes { work.new.pes ≡ work.old.pes }
    ensures told { (wide : Bool) (q : ℕ) → q < work.old.pes → HoldsFor work.new.unpublished.items q wide cell
        ⊎ ((pe_in marks.now.writers q ≡ false) ⊎ IsToldAsBefore before.now marks.now q) }
    ensures kept { (wide : Bool) (q j : ℕ) → HoldsFor work.old.unpublished.items q wide j
        → HoldsFor work.new.unpublished.items q wide j }
    ensures waiting { work.new.waiting.items ≡ work.old.waiting.items }
    ensures settled { work.new.settled ≡ true → work.old.settled ≡ true }
    ensures unclean { work.new.settled ≡ true → is_clean work.old.pes marks.now ≡ false }
{
    let pes = work.pes;
    let fresh = fresh_writers(before, marks);
    add_fresh(&mut work.unpublished, fresh, mostly, pes, cell, broken);
    if marks.is_clean(work.pes) {
        work.settled = false;
    }
}

/// The place of a cell breaks by a write of this PE.
#[inline(always)]
pub fn note_break(work: &mut Work, pe: Pe, cell: u32, broken: usize)
    ensures pes { work.new.pes ≡ work.old.pes }
    ensures there { (wide : Bool) → HoldsFor work.new.unpublished.items pe wide cell }
    ensures kept { (wide : Bool) (q j : ℕ) → HoldsFor work.old.unpublished.items q wide j
        → HoldsFor work.new.unpublished.items q wide j }
    ensures waiting { work.new.waiting.items ≡ work.old.waiting.items }
    ensures settled { work.new.settled ≡ work.old.settled }
{
    add_for(&mut work.unpublished, pe, cell, broken);
}

/// Restarts each list.
fn restart_all(lists: &mut Vec<WorkList>, given_up: bool)
    ensures { given_up ≡ true → (wide : Bool) (q j : ℕ) → HoldsFor lists.new.items q wide j }
{
    for k in 0..lists.len() {
        restart(&mut lists[k], given_up);
    }
}

/// The log has `n` PEs. The lists speak for all places, or each has given up.
#[cold]
#[inline(never)]
fn renew(work: &mut Work, n: PeCount, given_up: bool)
    ensures pes { work.new.pes ≡ n }
    ensures given_up { given_up ≡ true → GivesUp work.new }
{
    work.pes = n;
    work.settled = !given_up;
    restart_all(&mut work.unpublished, given_up);
    restart_all(&mut work.waiting, given_up);
}

/// The log has `n` PEs, and so many places are broken. Where it had another number of PEs before, nothing is known of
/// these.
#[inline(always)]
pub fn begin(work: &mut Work, n: PeCount, broken: usize)
    ensures some { 1 ≤ n }
    ensures pes { work.new.pes ≡ n }
    ensures kept { (work.new ≡ work.old) ⊎ ((broken ≡ 0) ⊎ GivesUp work.new) }
{
    if work.pes.get() != n.get() {
        renew(work, n, broken != 0);
    }
}

/// Makes a list for each PE that has none, as far as there is memory. A PE without one visits all broken places.
pub fn make_lists(lists: &mut Vec<WorkList>, alloc: Global)
    ensures { (wide : Bool) (q j : ℕ) → HoldsFor lists.old.items q wide j → HoldsFor lists.new.items q wide j }
{
    for _pe in lists.len()..PES {
        let list = WorkList {
            given_up: true,
            local_done: 0,
            cells: Vec::new(alloc),
        };
        match lists.push(list) {
            Ok(()) => {}
            Err(_) => return,
        }
    }
}
