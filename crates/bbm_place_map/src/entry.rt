//! What is kept of a broken place.
//! Source: project's own choice, where no other is named.

ghost use Rattle.std.specs.Prelude.{◌≡◌, ◌≢◌, ◌↔◌, ◌<◌, ℕ, IsTrue, OnOk, IfSome, None, length, true, false};
ghost use Rattle.bbm_place_map.specs.Dsbs.{Takes, TakesAnswered};
ghost use Rattle.bbm_place_map.specs.Entries.{Adds, lane_of, pend_in, pends_in, WaitsAlike};
ghost use Rattle.bbm_place_map.specs.Entries.{HasRoom, IsFirst, Lacks};
ghost use Rattle.smallvec.specs.SmallVec.{HasRoomFor};
ghost use Rattle.bbm_entry_state.specs.EntryCalls.{Noted};
ghost use Rattle.bbm_entry_state.specs.Points.{waits_in};
ghost use Rattle.bbm_place_map.specs.Works.{IsQuiet};
ghost use Rattle.bbm_entry_state.specs.declared.state.EntryState.TheVariants as state;
ghost use Rattle.bbm_tlbi_scope.specs.declared.entry.Cover.{Cover as TheCover};

use crate::lane::Lane;
use bbm_barriers::{Dsb, completes_broadcast, completes_local};
use bbm_entry_state::{Marks, Pend, Pends};
use bbm_regimes::{NoMemory, Pe, PeMask, Place};
use bbm_tlbi_scope::Cover;
use smallvec::SmallVec;

/// What waits at a place for the answers of one lane.
#[derive(Clone, Copy)]
pub struct Pending {
    /// The lane.
    pub lane: Lane,
    /// The PEs that wait.
    pub pend: Pend,
}

/// What fills an unused place of a list: nothing waits for an answer to PE 0.
impl Default for Pending {
    fn default() -> Pending {
        Pending {
            lane: Lane::default(),
            pend: Pend::none(),
        }
    }
}

/// A broken place.
#[derive(Drop)]
pub struct Entry {
    /// The place.
    pub place: Place,
    /// The number of its value.
    pub index: u32,
    /// The number of its cell.
    pub cell: u32,
    /// How far each PE is cleansed of its core.
    pub marks: Marks,
    /// What waits there, for each lane of TLBIs that cover the place. Most often there is one.
    pub pends: SmallVec<Pending, 1>,
}

/// Whether no PE waits in these masks.
fn is_none(pend: &Pend) -> bool
    ensures { IsTrue result ↔ ((c : TheCover) (p : ℕ) → waits_in pend.now c p ≡ false) }
{
    pend.half.or(pend.second).or(pend.full).is_empty()
}

/// Whether nothing waits; or nothing for the answer of a TLBI that isn't broadcast.
fn is_quiet(pends: &Pends, wide: bool) -> bool
    ensures { IsTrue result ↔ IsQuiet wide pends.now }
{
    if wide {
        is_none(&pends.broadcast.or(pends.local))
    } else {
        is_none(&pends.local)
    }
}

/// Where what waits for the answers of a lane is kept; None where nothing is.
fn place_of(pendings: &[Pending], lane: Lane) -> Option<usize>
    ensures some { IfSome result (λ i. IsFirst pendings.now i lane) }
    ensures none { result ≡ None → Lacks pendings.now (length pendings.now) lane }
{
    for i in 0..pendings.len() {
        if pendings[i].lane == lane {
            return Some(i);
        }
    }
    None
}

/// What waits for the answers of a lane.
fn pend_of(pendings: &[Pending], lane: Lane) -> Pend
    ensures { (c : TheCover) (p : ℕ) → waits_in result c p ≡ waits_in (pend_in pendings.now lane) c p }
{
    match place_of(pendings, lane) {
        Some(i) => pendings[i].pend,
        None => Pend::none(),
    }
}

/// What waits for the answers of the issuer's TLBIs.
pub fn pends_of(pendings: &[Pending], issuer: Pe) -> Pends
    ensures { WaitsAlike (pends_in pendings.now issuer) result }
{
    let broadcast = pend_of(pendings, Lane::new(issuer, true));
    let local = pend_of(pendings, Lane::new(issuer, false));
    Pends { broadcast, local }
}

/// Whether nothing waits for the answers of the issuer's TLBIs; or nothing for that of one that isn't broadcast.
pub fn is_quiet_for(pendings: &[Pending], issuer: Pe, wide: bool) -> bool
    ensures { IsTrue result ↔ IsQuiet wide (pends_in pendings.now issuer) }
{
    if pendings.is_empty() {
        return true;
    }
    is_quiet(&pends_of(pendings, issuer), wide)
}

/// Notes a TLBI over a place with these marks in what waits for the answers of its lane, which is kept here.
fn note_here(pendings: &mut [Pending], i: usize, marks: &Marks, reach: PeMask, cover: Cover)
    requires { i < length pendings.old }
    ensures here { (k : ℕ) → IsFirst pendings.old i k
        → Adds marks.now reach cover (pend_in pendings.old k) (pend_in pendings.new k) }
    ensures others { (k m : ℕ) → IsFirst pendings.old i k → m ≢ k → pend_in pendings.new m ≡ pend_in pendings.old m }
    ensures len { length pendings.new ≡ length pendings.old }
{
    let pend = &mut pendings[i].pend;
    pend.note(marks, reach, cover);
}

/// Takes those out that wait for the answers of the lane that is kept here.
fn take_here(pendings: &mut [Pending], i: usize) -> Pend
    requires { i < length pendings.old }
    ensures done { (k : ℕ) → IsFirst pendings.old i k → result ≡ pend_in pendings.old k }
    ensures left { (k : ℕ) → IsFirst pendings.old i k
        → (c : TheCover) (p : ℕ) → waits_in (pend_in pendings.new k) c p ≡ false }
    ensures others { (k m : ℕ) → IsFirst pendings.old i k → m ≢ k → pend_in pendings.new m ≡ pend_in pendings.old m }
    ensures len { length pendings.new ≡ length pendings.old }
{
    let pend = &mut pendings[i].pend;
    let done = *pend;
    *pend = Pend::none();
    done
}

/// Takes memory for one more. `NoMemory` where there is none.
#[inline(never)]
fn grow(pendings: &mut SmallVec<Pending, 1>) -> Result<(), NoMemory>
    ensures items { pendings.new.items ≡ pendings.old.items }
    ensures room { OnOk result (HasRoomFor pendings.new 1) }
{
    pendings.reserve(1).map_err(|_| NoMemory)
}

/// Whether what waits for the answers of a lane is kept first.
#[inline(always)]
fn is_first(pendings: &[Pending], lane: Lane) -> bool
    ensures { IsTrue result ↔ IsFirst pendings.now 0 lane }
{
    !pendings.is_empty() && pendings[0].lane == lane
}

/// Whether there is room for what waits for the answers of a lane; false says nothing.
#[inline(always)]
fn has_room(pendings: &SmallVec<Pending, 1>, lane: Lane) -> bool
    ensures { result ≡ true → HasRoom pendings.now lane }
{
    if pendings.len() < pendings.capacity() {
        return true;
    }
    is_first(pendings.as_slice(), lane)
}

/// Makes room for what waits for the answers of a lane. `NoMemory` where there is none.
#[inline(always)]
pub fn make_room_for_lane(pendings: &mut SmallVec<Pending, 1>, lane: Lane) -> Result<(), NoMemory>
    ensures items { pendings.new.items ≡ pendings.old.items }
    ensures room { OnOk result (HasRoom pendings.new lane) }
{
    if has_room(pendings, lane) {
        return Ok(());
    }
    make_more_room(pendings, lane)
}

/// Makes room for what waits for the answers of a lane that isn't kept first. `NoMemory` where there is none.
#[inline(never)]
fn make_more_room(pendings: &mut SmallVec<Pending, 1>, lane: Lane) -> Result<(), NoMemory>
    ensures items { pendings.new.items ≡ pendings.old.items }
    ensures room { OnOk result (HasRoom pendings.new lane) }
{
    if place_of(pendings.as_slice(), lane).is_some() {
        return Ok(());
    }
    grow(pendings)
}

/// Notes a TLBI over a place with these marks, where there is room for what waits for the answers of its lane.
fn note_lane(
    pendings: &mut SmallVec<Pending, 1>,
    lane: Lane,
    marks: &Marks,
    reach: PeMask,
    cover: Cover,
)
    requires { HasRoom pendings.old lane }
    ensures there { Adds marks.now reach cover (pend_in pendings.old.items lane) (pend_in pendings.new.items lane) }
    ensures others { (m : ℕ) → m ≢ lane → pend_in pendings.new.items m ≡ pend_in pendings.old.items m }
{
    match place_of(pendings.as_slice(), lane) {
        Some(i) => note_here(pendings.as_mut_slice(), i, marks, reach, cover),
        None => {
            let mut pend = Pend::none();
            pend.note(marks, reach, cover);
            pendings.push_reserved(Pending { lane, pend });
        }
    }
}

/// Whether each PE waits that a TLBI reaches and for which it counts, as far as it covers a place with these marks.
#[inline(always)]
fn has_all(pend: &Pend, marks: &Marks, reach: PeMask, cover: Cover) -> bool
    ensures { result ≡ true → Adds marks.now reach cover pend.now pend.now }
{
    match cover {
        Cover::None => true,
        Cover::Half => reach.and(marks.seen).minus(pend.half).is_empty(),
        Cover::Second => reach.and(marks.half).minus(pend.second).is_empty(),
        Cover::Full => reach.and(marks.seen).minus(pend.full).is_empty(),
    }
}

/// Whether a TLBI of the issuer over a place with these marks is noted already; false says nothing.
#[inline(always)]
pub fn is_noted(
    pendings: &[Pending],
    issuer: Pe,
    marks: &Marks,
    reach: PeMask,
    broadcast: bool,
    cover: Cover,
) -> bool
    ensures { result ≡ true → Noted (state.Broken marks.now) (pends_in pendings.now issuer) reach broadcast cover
        (pends_in pendings.now issuer) }
{
    if !is_first(pendings, Lane::new(issuer, broadcast)) {
        return false;
    }
    has_all(&pendings[0].pend, marks, reach, cover)
}

/// Notes a TLBI of the issuer over a place with these marks, where there is room for what waits for its answer. Whether
/// nothing waited, or of one that isn't broadcast nothing for another such.
pub fn note_pends(
    pendings: &mut SmallVec<Pending, 1>,
    issuer: Pe,
    marks: &Marks,
    reach: PeMask,
    broadcast: bool,
    cover: Cover,
) -> bool
    requires { HasRoom pendings.old (lane_of issuer broadcast) }
    ensures there { Noted (state.Broken marks.now) (pends_in pendings.old.items issuer) reach broadcast cover
        (pends_in pendings.new.items issuer) }
    ensures quiet { IsTrue result ↔ IsQuiet broadcast (pends_in pendings.old.items issuer) }
    ensures others { (q : ℕ) → q ≢ issuer → pends_in pendings.new.items q ≡ pends_in pendings.old.items q }
{
    let quiet = is_quiet_for(pendings.as_slice(), issuer, broadcast);
    note_lane(pendings, Lane::new(issuer, broadcast), marks, reach, cover);
    quiet
}

/// Takes those out that wait for the answers of a lane, where the flag is true, and else none.
fn take_if(pendings: &mut SmallVec<Pending, 1>, lane: Lane, flag: bool) -> Pend
    ensures { Takes lane flag pendings.old.items pendings.new.items result }
{
    if !flag {
        return Pend::none();
    }
    match place_of(pendings.as_slice(), lane) {
        Some(i) => take_here(pendings.as_mut_slice(), i),
        None => Pend::none(),
    }
}

/// Takes those whose answer a DSB is out of those that wait for the answers of its issuer's TLBIs.
pub fn take_answered(pendings: &mut SmallVec<Pending, 1>, issuer: Pe, dsb: Dsb) -> Pend
    ensures { TakesAnswered dsb issuer pendings.old.items pendings.new.items result }
{
    let all = take_if(pendings, Lane::new(issuer, true), completes_broadcast(dsb));
    let own = take_if(pendings, Lane::new(issuer, false), completes_local(dsb));
    all.or(own)
}
