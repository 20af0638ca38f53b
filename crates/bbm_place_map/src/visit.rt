//! What a DSB publishes and answers: it visits the broken places that it may change, and no others where its lists tell.

ghost use Rattle.std.specs.Prelude.{◌≡◌, ◌≢◌, ◌<◌, ◌⊎◌, ℕ, Bool, Some, [], true, false, Contains, vec_len, slice_get};
ghost use Rattle.std.specs.Prelude.{nat_eq, if◌then◌else◌, Option, vec_capacity};
ghost use Rattle.bbm_entry_state.specs.EntryCalls.{Completed};
ghost use Rattle.bbm_entry_state.specs.declared.state.EntryState.TheVariants as state;
ghost use Rattle.bbm_place_map.specs.Dsbs.{HasEffect, HasRoomToTell, HoldOpen, IsAudience, IsSettled, IsBusy};
ghost use Rattle.bbm_place_map.specs.Dsbs.{VisitsAll, VisitsAt, VisitsCell};
ghost use Rattle.bbm_place_map.specs.Each.{Does, Publishes, next_of, with_page};
ghost use Rattle.bbm_place_map.specs.Entries.{ChangesAt, entry_in, no_pends, pends_in};
ghost use Rattle.bbm_place_map.specs.Sound.{SameSize};
ghost use Rattle.bbm_place_map.specs.Works.{Holds, HoldsFor, IsTold, Listed, RestsAt, Stays};
ghost use Rattle.bbm_place_map.specs.declared.entry.Entry.{Entry as TheEntry};

use crate::entries::Entries;
use crate::entry::{Entry, is_quiet_for, take_answered};
use crate::orders::{Barrier, Effect};
use crate::work::{Work, WorkList, add, part, pass_local, restart};
use bbm_barriers::{completes_local, is_non};
use bbm_descriptor::Core;
use bbm_entry_state::{Marks, law_completes};
use bbm_regimes::{Page, PeMask};

/// A DSB of the issuer, which publishes to these PEs, published its writes at one entry.
fn publish_at(entries: &mut Entries, k: usize, barrier: &Barrier, heard: PeMask)
    requires heard { IsAudience barrier.now heard }
    requires entry_within { k < vec_len entries.old.list }
    ensures entry { ChangesAt k (Publishes barrier.now) entries.old.list.items entries.new.list.items }
    ensures cells { entries.new.cells ≡ entries.old.cells }
    ensures size { SameSize entries.old.list entries.new.list }
{
    let entry = &mut entries.list[k];
    if entry.marks.writers.has(barrier.issuer) {
        entry.marks = entry.marks.published_to(heard);
    }
}

/// A DSB of the issuer answered its TLBIs at one entry, which stays for now. Whether its place is cleansed at every PE.
fn answer_at(entries: &mut Entries, k: usize, barrier: &Barrier) -> bool
    requires within { k < vec_len entries.old.list }
    ensures entry { ChangesAt k (λ e f.
        (result ≡ true → Completed (state.Broken e.marks) (pends_in e.pends.items barrier.now.issuer)
        barrier.now.dsb barrier.now.n state.Clean no_pends)
        × (result ≡ false → Completed (state.Broken e.marks) (pends_in e.pends.items barrier.now.issuer)
        barrier.now.dsb barrier.now.n (state.Broken f.marks) (pends_in f.pends.items barrier.now.issuer))
        × ((q : ℕ) → q ≢ barrier.now.issuer → pends_in f.pends.items q ≡ pends_in e.pends.items q))
        entries.old.list.items entries.new.list.items }
    ensures cells { entries.new.cells ≡ entries.old.cells }
    ensures size { SameSize entries.old.list entries.new.list }
{
    law_completes();
    let entry = &mut entries.list[k];
    let done = take_answered(&mut entry.pends, barrier.issuer, barrier.dsb);
    entry.marks.answer(done);
    entry.marks.is_clean(barrier.n)
}

/// Keeps the next page of a core that is a table.
#[inline(always)]
fn tell_lost(lost: &mut Vec<Page>, core: &Core)
    requires { vec_len lost.old < vec_capacity lost.old }
    ensures told { lost.new.items ≡ with_page lost.old.items (next_of core.now) }
    ensures space { vec_capacity lost.new ≡ vec_capacity lost.old }
{
    match *core {
        Core::Table { next, ns: _ } => lost.push_reserved(next),
        Core::Leaf { .. } => {}
    }
}

/// A DSB of the issuer answered its TLBIs at one entry, which leaves where its place is cleansed at every PE. Where its
/// core is a table, the next page is lost then.
#[inline(always)]
fn complete_at(entries: &mut Entries, lost: &mut Vec<Page>, k: usize, barrier: &Barrier)
    requires has { HasEffect barrier.now.effect barrier.now }
    requires within { k < vec_len entries.old.list }
    requires room { HasRoomToTell entries.old lost.old }
    ensures { VisitsAt Effect.Complete barrier.now k entries.old entries.new lost.old lost.new }
{
    let core = entries.list[k].marks.core;
    if answer_at(entries, k, barrier) {
        entries.unlink(k);
        tell_lost(lost, &core);
    }
}

/// A DSB visited one entry.
#[inline(always)]
fn visit_at(entries: &mut Entries, lost: &mut Vec<Page>, k: usize, barrier: &Barrier)
    requires has { HasEffect barrier.now.effect barrier.now }
    requires within { k < vec_len entries.old.list }
    requires room { HasRoomToTell entries.old lost.old }
    ensures { VisitsAt barrier.now.effect barrier.now k entries.old entries.new lost.old lost.new }
{
    match barrier.effect {
        Effect::Publish(heard) => publish_at(entries, k, barrier, heard),
        Effect::Complete => complete_at(entries, lost, k, barrier),
    }
}

/// A DSB visited each entry.
#[inline(always)]
fn visit_all(entries: &mut Entries, lost: &mut Vec<Page>, barrier: &Barrier)
    requires has { HasEffect barrier.now.effect barrier.now }
    requires none { lost.old.items ≡ [] }
    requires room { HasRoomToTell entries.old lost.old }
    ensures { VisitsAll barrier.now entries.old entries.new lost.old lost.new }
{
    let mut k = entries.list.len();
    while k > 0 {
        k -= 1;
        visit_at(entries, lost, k, barrier);
    }
}

/// A DSB visited the entry of a cell, if it has one.
#[inline(always)]
fn visit_cell(entries: &mut Entries, lost: &mut Vec<Page>, cell: u32, barrier: &Barrier)
    requires has { HasEffect barrier.now.effect barrier.now }
    requires room { HasRoomToTell entries.old lost.old }
    ensures { VisitsCell barrier.now cell entries.old entries.new lost.old lost.new }
{
    match entries.number(cell as usize) {
        Some(k) => visit_at(entries, lost, k as usize, barrier),
        None => {}
    }
}

/// A DSB visited the entries of these cells, which are all those that it changes.
#[inline(always)]
fn visit_cells(entries: &mut Entries, lost: &mut Vec<Page>, list: &[u32], barrier: &Barrier)
    requires has { HasEffect barrier.now.effect barrier.now }
    requires none { lost.old.items ≡ [] }
    requires room { HasRoomToTell entries.old lost.old }
    requires known { (j : ℕ) → Contains list.now j ⊎ Does barrier.now.effect barrier.now
        (entry_in entries.old.cells.items entries.old.list.items j) (entry_in entries.old.cells.items entries.old.list.items j) }
    ensures { VisitsAll barrier.now entries.old entries.new lost.old lost.new }
{
    for i in 0..list.len() {
        visit_cell(entries, lost, list[list.len() - 1 - i], barrier);
    }
}

/// Whether no DSB of the issuer publishes more of a place with these marks.
fn is_told(marks: &Marks, barrier: &Barrier) -> bool
    ensures { result ≡ true → (wide : Bool) → IsTold wide barrier.now.n barrier.now.issuer marks.now }
{
    !marks.writers.has(barrier.issuer) || PeMask::all(barrier.n).minus(marks.seen).is_empty()
}

/// Whether no DSB of the issuer does this at an entry.
#[inline(always)]
fn is_at_rest(entry: &Entry, barrier: &Barrier) -> bool
    ensures { result ≡ true → (wide : Bool)
        → RestsAt barrier.now.effect wide barrier.now.n barrier.now.issuer entry.now }
{
    match barrier.effect {
        Effect::Publish(_heard) => is_told(&entry.marks, barrier),
        Effect::Complete => is_quiet_for(&entry.pends, barrier.issuer, true),
    }
}

/// Lists the cell of an entry at which DSBs of the issuer may do this.
#[inline(always)]
fn list_open(list: &mut WorkList, entry: &Entry, barrier: &Barrier, broken: usize)
    ensures there { (wide : Bool) → Holds list.new wide entry.now.cell
        ⊎ RestsAt barrier.now.effect wide barrier.now.n barrier.now.issuer entry.now }
    ensures kept { (wide : Bool) (j : ℕ) → Holds list.old wide j → Holds list.new wide j }
{
    if !is_at_rest(entry, barrier) {
        add(list, entry.cell, broken);
    }
}

/// Lists the cells of the entries at which DSBs of the issuer may do this.
#[inline(always)]
fn relist(broken: &[Entry], list: &mut WorkList, barrier: &Barrier)
    ensures { (wide : Bool) (k : ℕ) (e : TheEntry) → slice_get broken.now k ≡ Some e → Holds list.new wide e.cell
        ⊎ RestsAt barrier.now.effect wide barrier.now.n barrier.now.issuer e }
{
    restart(list, false);
    for k in 0..broken.len() {
        list_open(list, &broken[k], barrier, broken.len());
    }
}

/// Whether a DSB does this nowhere, by its option.
fn is_idle(barrier: &Barrier) -> bool
    requires { HasEffect barrier.now.effect barrier.now }
    ensures idle { result ≡ true → (o : Option TheEntry) → Stays barrier.now.effect barrier.now.n o
        → Does barrier.now.effect barrier.now o o }
    ensures busy { result ≡ false → IsBusy barrier.now.effect barrier.now }
{
    match barrier.effect {
        Effect::Publish(heard) => heard.is_empty(),
        Effect::Complete => !completes_local(barrier.dsb),
    }
}

/// A DSB visited the entries that its list has, which are all at which it can do this. The list loses its cells where
/// nothing is left, or passes them for the next DSB that reaches its PE alone.
#[inline(always)]
fn visit_listed(entries: &mut Entries, lost: &mut Vec<Page>, list: &mut WorkList, barrier: &Barrier)
    requires has { HasEffect barrier.now.effect barrier.now }
    requires none { lost.old.items ≡ [] }
    requires room { HasRoomToTell entries.old lost.old }
    requires open { list.old.given_up ≡ false }
    requires known { HoldOpen (Holds list.old) barrier.now entries.old.cells.items entries.old.list.items }
    requires settled { IsSettled barrier.now entries.old.cells.items entries.old.list.items }
    ensures visited { VisitsAll barrier.now entries.old entries.new lost.old lost.new }
    ensures known { HoldOpen (Holds list.new) barrier.now entries.new.cells.items entries.new.list.items }
{
    if is_idle(barrier) {
        return;
    }
    let wide = !is_non(barrier.dsb.domain);
    visit_cells(entries, lost, part(list, wide), barrier);
    if wide {
        restart(list, false);
    } else {
        pass_local(list);
    }
}

/// A DSB visited the entries. Its list has given up, or has all at which it can do this.
#[inline(always)]
fn visit_by(
    entries: &mut Entries,
    lost: &mut Vec<Page>,
    list: &mut WorkList,
    settled: bool,
    barrier: &Barrier,
)
    requires has { HasEffect barrier.now.effect barrier.now }
    requires none { lost.old.items ≡ [] }
    requires room { HasRoomToTell entries.old lost.old }
    requires known { HoldOpen (Holds list.old) barrier.now entries.old.cells.items entries.old.list.items }
    requires settled { settled ≡ true → IsSettled barrier.now entries.old.cells.items entries.old.list.items }
    ensures visited { VisitsAll barrier.now entries.old entries.new lost.old lost.new }
    ensures known { HoldOpen (Holds list.new) barrier.now entries.new.cells.items entries.new.list.items }
{
    if settled && !list.given_up {
        visit_listed(entries, lost, list, barrier)
    } else {
        visit_all(entries, lost, barrier);
        relist(&entries.list, list, barrier);
    }
}

/// A DSB of the issuer published its writes, or answered its TLBIs, at each entry. One whose place is cleansed at every
/// PE leaves. Where it is settled that no other place waits to leave, and the issuer's list has all entries at which
/// there is something to do, only these are visited.
#[inline(always)]
fn visit_for(
    entries: &mut Entries,
    lost: &mut Vec<Page>,
    lists: &mut Vec<WorkList>,
    settled: bool,
    barrier: &Barrier,
)
    requires has { HasEffect barrier.now.effect barrier.now }
    requires none { lost.old.items ≡ [] }
    requires room { HasRoomToTell entries.old lost.old }
    requires known { HoldOpen (HoldsFor lists.old.items barrier.now.issuer) barrier.now
        entries.old.cells.items entries.old.list.items }
    requires settled { settled ≡ true → IsSettled barrier.now entries.old.cells.items entries.old.list.items }
    ensures visited { VisitsAll barrier.now entries.old entries.new lost.old lost.new }
    ensures known { HoldOpen (HoldsFor lists.new.items barrier.now.issuer) barrier.now
        entries.new.cells.items entries.new.list.items }
    ensures kept_lists { (wide : Bool) (q j : ℕ) → q ≢ barrier.now.issuer → HoldsFor lists.old.items q wide j
        → HoldsFor lists.new.items q wide j }
{
    let q = barrier.issuer.get() as usize;
    if q < lists.len() {
        visit_by(entries, lost, &mut lists[q], settled, barrier)
    } else {
        visit_all(entries, lost, barrier)
    }
}

/// A DSB, of a log with as many PEs as the lists know of, published its issuer's writes, or answered its TLBIs, at each
/// entry. One whose place is cleansed at every PE leaves, and where its core is a table, the next page comes to the
/// lost ones, of which there was none.
#[inline(always)]
pub fn visit(entries: &mut Entries, lost: &mut Vec<Page>, work: &mut Work, barrier: &Barrier)
    requires has { HasEffect barrier.now.effect barrier.now }
    requires none { lost.old.items ≡ [] }
    requires room { HasRoomToTell entries.old lost.old }
    requires pes { work.old.pes ≡ barrier.now.n }
    requires listed { Listed work.old entries.old.cells.items entries.old.list.items }
    ensures visited { VisitsAll barrier.now entries.old entries.new lost.old lost.new }
    ensures listed { Listed work.new entries.new.cells.items entries.new.list.items }
{
    match barrier.effect {
        Effect::Publish(_heard) => visit_for(entries, lost, &mut work.unpublished, true, barrier),
        Effect::Complete => {
            visit_for(entries, lost, &mut work.waiting, work.settled, barrier);
            work.settled = true;
        }
    }
}
