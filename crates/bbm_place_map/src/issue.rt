//! What the issue of a TLBI leaves to its answer.

ghost use Rattle.std.specs.Prelude.{◌≡◌, ◌≢◌, ◌<◌, ◌≤◌, ◌+◌, ◌^◌, ℕ, Bool, take, vec_len, vec_capacity, length};
ghost use Rattle.std.specs.Prelude.{slice_get};
ghost use Rattle.std.specs.Prelude.{OnOk, List, Some, nat_eq, true, false, if◌then◌else◌};
ghost use Rattle.bbm_entry_state.specs.EntryCalls.{Noted};
ghost use Rattle.bbm_entry_state.specs.declared.state.EntryState.TheVariants as state;
ghost use Rattle.bbm_tlbi_scope.specs.declared.entry.Cover.{Cover as TheCover};
ghost use Rattle.bbm_place_map.specs.Each.{Advances};
ghost use Rattle.bbm_place_map.specs.Entries.{ChangesAt, lane_of, pends_in, HasRoom};
ghost use Rattle.bbm_place_map.specs.Finds.{is_found};
ghost use Rattle.bbm_place_map.specs.Sound.{SameSize, bases};
ghost use Rattle.bbm_place_map.specs.PlaceNotes.{AtPlace, IsNoted, Keeps, KeepsOthers, NotesAs, NotesAt, NotesFound};
ghost use Rattle.bbm_place_map.specs.PlaceNotes.{OnlyNotes, Readies, is_cover as spec_is_cover};
ghost use Rattle.bbm_place_map.specs.ByNumber.{EachAdvances, IsKept, entry_number};
ghost use Rattle.bbm_place_map.specs.Works.{IsQuiet, Waits};
ghost use Rattle.bbm_place_map.specs.declared.broken.BrokenPlaces.{BrokenPlaces as TheBroken};
ghost use Rattle.bbm_place_map.specs.declared.entry.Entry.{Entry as TheEntry};

use crate::broken::BrokenPlaces;
use crate::entries::Entries;
use crate::entry::{is_noted, make_room_for_lane, note_pends};
use crate::found::{Answer, Found};
use crate::lane::Lane;
use crate::orders::Issuing;
use crate::read::VALUES;
use crate::work::{WorkList, add_for};
use bbm_page_map::PageNumbers;
use bbm_regimes::{NoMemory, Place};
use bbm_tlbi_scope::Cover;

/// The number of a place's entry; None where the place isn't broken. No answer depends on the number `hint`, at which
/// it is looked for first. Pages tell the number of each.
#[inline(always)]
fn entry_of(pages: &PageNumbers, broken: &BrokenPlaces, place: Place, hint: u32) -> Option<u32>
    requires { IsKept (bases pages.now) broken.now }
    ensures { result ≡ entry_number (bases pages.now) broken.now place }
{
    let number = hint as usize;
    if number < broken.len() {
        if broken.item(number).place == place {
            return Some(hint);
        }
    }
    let _ = place.get();
    let j = VALUES * pages.number(place.page())?.get() + place.index() as usize;
    broken.number(j)
}

/// Whether a TLBI covers a place at all.
fn is_cover(cover: Cover) -> bool
    ensures { result ≡ spec_is_cover cover }
{
    !matches!(cover, Cover::None)
}

/// Makes room at an entry for what waits for the answers of a lane. `NoMemory` where there is none.
#[inline(always)]
pub fn make_room_at(entries: &mut Entries, k: usize, lane: Lane) -> Result<(), NoMemory>
    requires { k < vec_len entries.old.list }
    ensures entry { ChangesAt k (λ e f. Keeps e f × OnOk result (HasRoom f.pends lane))
        entries.old.list.items entries.new.list.items }
    ensures cells { entries.new.cells ≡ entries.old.cells }
    ensures size { SameSize entries.old.list entries.new.list }
{
    let entry = &mut entries.list[k];
    make_room_for_lane(&mut entry.pends, lane)
}

/// Notes the TLBI at an entry with room for its lane. Whether nothing waited there, or of one that isn't broadcast
/// nothing for another such.
#[inline(always)]
fn note_at(entries: &mut Entries, k: usize, tlbi: &Issuing, cover: Cover) -> bool
    requires within { k < vec_len entries.old.list }
    requires ready { (e : TheEntry) → slice_get entries.old.list.items k ≡ Some e
        → HasRoom e.pends (lane_of tlbi.now.issuer tlbi.now.broadcast) }
    ensures entry { ChangesAt k (λ e f. KeepsOthers tlbi.now.issuer e f
        × Noted (state.Broken e.marks) (pends_in e.pends.items tlbi.now.issuer) tlbi.now.reach tlbi.now.broadcast cover
        (pends_in f.pends.items tlbi.now.issuer)
        × (result ≡ false → (wide : Bool) → IsQuiet wide (pends_in e.pends.items tlbi.now.issuer)
        → IsQuiet wide (pends_in f.pends.items tlbi.now.issuer)))
        entries.old.list.items entries.new.list.items }
    ensures cells { entries.new.cells ≡ entries.old.cells }
    ensures size { SameSize entries.old.list entries.new.list }
{
    let entry = &mut entries.list[k];
    let marks = &entry.marks;
    note_pends(
        &mut entry.pends,
        tlbi.issuer,
        marks,
        tlbi.reach,
        tlbi.broadcast,
        cover,
    )
}

/// Whether the TLBI, which covers the place of an entry so far, is noted there already; false says nothing.
#[inline(always)]
fn is_noted_at(entries: &Entries, k: usize, tlbi: &Issuing, cover: Cover) -> bool
    requires { k < vec_len entries.now.list }
    ensures { result ≡ true → (e : TheEntry) → slice_get entries.now.list.items k ≡ Some e → IsNoted cover tlbi.now e }
{
    let entry = &entries.list[k];
    is_noted(
        entry.pends.as_slice(),
        tlbi.issuer,
        &entry.marks,
        tlbi.reach,
        tlbi.broadcast,
        cover,
    )
}

/// Notes the TLBI at an entry that is covered so far, if it isn't noted there already. The cell of one at which nothing
/// so waited is listed for the issuer.
#[inline(always)]
pub fn note_entry(
    entries: &mut Entries,
    k: usize,
    tlbi: &Issuing,
    cover: Cover,
    lists: &mut Vec<WorkList>,
)
    requires within { k < vec_len entries.old.list }
    requires ready { (e : TheEntry) → slice_get entries.old.list.items k ≡ Some e → spec_is_cover cover ≡ true
        → HasRoom e.pends (lane_of tlbi.now.issuer tlbi.now.broadcast) }
    ensures entry { ChangesAt k (λ e f. NotesAs cover tlbi.now e f × Waits lists.new.items tlbi.now.issuer e f)
        entries.old.list.items entries.new.list.items }
    ensures rest { OnlyNotes entries.old entries.new lists.old.items lists.new.items }
{
    if is_cover(cover) {
        if !is_noted_at(entries, k, tlbi, cover) {
            if note_at(entries, k, tlbi, cover) {
                add_for(lists, tlbi.issuer, entries.list[k].cell, entries.list.len());
            }
        }
    }
}

/// Makes room for the lane at each place that is covered. `NoMemory` where there is none.
pub fn make_room(broken: &mut BrokenPlaces, covers: &[Answer], lane: Lane) -> Result<(), NoMemory>
    requires { length covers.now ≡ length broken.old.entries }
    ensures each { EachAdvances (λ _. Keeps) broken.old broken.new }
    ensures ready { OnOk result ((m : ℕ) → Advances (Readies lane covers.now m) (slice_get broken.old.entries m)
        (slice_get broken.new.entries m)) }
{
    for k in 0..broken.len() {
        if is_cover(covers[k].get()) {
            broken.make_room(k, lane)?;
        }
    }
    Ok(())
}

/// Notes the TLBI at each place that is covered, where there is room for its lane. The cells of those at which something
/// waits now are listed for the issuer.
pub fn note(broken: &mut BrokenPlaces, covers: &[Answer], tlbi: &Issuing)
    requires len { length covers.now ≡ length broken.old.entries }
    requires ready { (m : ℕ) (e : TheEntry) → slice_get broken.old.entries m ≡ Some e → (c : TheCover)
        → slice_get covers.now m ≡ Some c → spec_is_cover c ≡ true
        → HasRoom e.pends (lane_of tlbi.now.issuer tlbi.now.broadcast) }
    ensures { EachAdvances (NotesAt covers.now tlbi.now) broken.old broken.new }
{
    for k in 0..broken.len() {
        let cover = covers[k].get();
        broken.note(k, tlbi, cover);
    }
}

/// Whether a place is among the items.
fn is_among(found: &[Found], place: Place) -> bool
    ensures { result ≡ is_found found.now place }
{
    for item in found {
        if item.place == place {
            return true;
        }
    }
    false
}

/// Makes room for the lane at the place of an item, if it is broken. `NoMemory` where there is none.
fn make_room_for(
    pages: &PageNumbers,
    broken: &mut BrokenPlaces,
    item: Found,
    lane: Lane,
) -> Result<(), NoMemory>
    requires { IsKept (bases pages.now) broken.old }
    ensures { EachAdvances (λ _. AtPlace item.place (λ e f. Keeps e f × OnOk result (HasRoom f.pends lane)))
        broken.old broken.new }
{
    match entry_of(pages, broken, item.place, item.hint) {
        Some(k) => broken.make_room(k as usize, lane),
        None => Ok(()),
    }
}

/// Makes room for the lane at each broken place of these items. `NoMemory` where there is none.
pub fn make_room_found(
    pages: &PageNumbers,
    broken: &mut BrokenPlaces,
    found: &[Found],
    lane: Lane,
) -> Result<(), NoMemory>
    requires { IsKept (bases pages.now) broken.old }
    ensures each { EachAdvances (λ _. Keeps) broken.old broken.new }
    ensures ready { OnOk result ((m : ℕ) (e : TheEntry) → slice_get broken.new.entries m ≡ Some e
        → is_found found.now e.place ≡ true → HasRoom e.pends lane) }
{
    for i in 0..found.len() {
        make_room_for(pages, broken, found[i], lane)?;
    }
    Ok(())
}

/// Notes the TLBI at a place that is covered so far, if it is broken. Its cell is listed for the issuer where something
/// waits there now.
fn note_for(pages: &PageNumbers, broken: &mut BrokenPlaces, item: Found, tlbi: &Issuing)
    requires sound { IsKept (bases pages.now) broken.old }
    requires ready { (m : ℕ) (e : TheEntry) → slice_get broken.old.entries m ≡ Some e → e.place ≡ item.place
        → HasRoom e.pends (lane_of tlbi.now.issuer tlbi.now.broadcast) }
    ensures { EachAdvances (λ _. AtPlace item.place (NotesAs item.cover tlbi.now)) broken.old broken.new }
{
    if let Some(k) = entry_of(pages, broken, item.place, item.hint) {
        broken.note(k as usize, tlbi, item.cover);
    }
}

/// Notes the TLBI at the place of one of the items, if no item before it is of that place.
fn note_next(
    pages: &PageNumbers,
    broken: &mut BrokenPlaces,
    found: &[Found],
    i: usize,
    tlbi: &Issuing,
)
    requires sound { IsKept (bases pages.now) broken.old }
    requires within { i < length found.now }
    requires ready { (m : ℕ) (e : TheEntry) → slice_get broken.old.entries m ≡ Some e
        → is_found found.now e.place ≡ true → is_found (take i found.now) e.place ≡ false
        → HasRoom e.pends (lane_of tlbi.now.issuer tlbi.now.broadcast) }
    ensures { (start : TheBroken) → EachAdvances (λ _. NotesFound (take i found.now) tlbi.now) start broken.old
        → EachAdvances (λ _. NotesFound (take (i + 1) found.now) tlbi.now) start broken.new }
{
    let item = found[i];
    if !is_among(&found[..i], item.place) {
        note_for(pages, broken, item, tlbi);
    }
}

/// Notes the TLBI at each broken place of these items, as far as the first item of it says, where there is room for its
/// lane. The cells of those at which something waits now are listed for the issuer.
pub fn note_found(pages: &PageNumbers, broken: &mut BrokenPlaces, found: &[Found], tlbi: &Issuing)
    requires sound { IsKept (bases pages.now) broken.old }
    requires ready { (m : ℕ) (e : TheEntry) → slice_get broken.old.entries m ≡ Some e
        → is_found found.now e.place ≡ true → HasRoom e.pends (lane_of tlbi.now.issuer tlbi.now.broadcast) }
    ensures { EachAdvances (λ _. NotesFound found.now tlbi.now) broken.old broken.new }
{
    for i in 0..found.len() {
        note_next(pages, broken, found, i, tlbi);
    }
}
