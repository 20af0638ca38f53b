//! What TLBIs leave to their answers, and what DSBs publish and answer.

ghost use Rattle.std.specs.Prelude.{ℕ, Bool, Some, None, true, false, Option, length, slice_get, is_some, OnOk, OnErr};
ghost use Rattle.std.specs.Prelude.{Contains};
ghost use Rattle.std.specs.Prelude.{◌&&◌, ◌≡◌, ◌≤◌, ◌<◌, nat_eq};
ghost use Rattle.bbm_entry_state.specs.Points.{waits};
ghost use Rattle.bbm_tlbi_scope.specs.declared.entry.Cover.{Cover as TheCover};
ghost use Rattle.bbm_place_map.specs.Finds.{is_found, FoundAs};
ghost use Rattle.bbm_place_map.specs.MapCalls.{lost_next, IsSame, KeepsPlaces, KeepsValues, NotesOnly};
ghost use Rattle.bbm_entry_state.specs.EntryCalls.{Published, Noted, Completed};
ghost use Rattle.bbm_descriptor.specs.declared.desc.Core.{Core as TheCore};
ghost use Rattle.bbm_place_map.specs.Map.{lost_pages, marks_at, pends_at, restless_in, restless_place, state_at};

use crate::found::{Answer, Found};
use crate::issue;
use crate::lane::Lane;
use crate::map::PlaceMap;
use crate::orders::{Barrier, Effect, Issuing};
use bbm_barriers::{Dsb, publishes_to};
use bbm_regimes::{NoMemory, Page, Pe, PeCount, PeMask};

impl PlaceMap {
    /// A DSB of the issuer, in a log with `n` PEs, published its writes. Only the marks change.
    pub fn publish(&mut self, issuer: Pe, dsb: Dsb, n: PeCount)
        requires issuer_below { issuer < n }
        ensures published { (live : Option TheCore) (a : ℕ)
            → Published (state_at self.old live a) issuer dsb n (state_at self.new live a) }
        ensures pends { (q a : ℕ) → pends_at self.new q a ≡ pends_at self.old q a }
        ensures same { KeepsPlaces self.old self.new }
    {
        if self.broken.len() == 0 {
            return;
        }
        let effect = Effect::Publish(publishes_to(dsb, issuer, n));
        self.broken.visit(&Barrier {
            issuer,
            dsb,
            n,
            effect,
        });
    }

    /// A DSB of the issuer, in a log with `n` PEs, answered its TLBIs. A place that is cleansed at every PE
    /// isn't broken any more, and nothing waits there. The lost pages are then the next pages of the tables that such
    /// places were broken over.
    pub fn complete(&mut self, issuer: Pe, dsb: Dsb, n: PeCount)
        ensures completed { (a : ℕ) → Completed (state_at self.old None a) (pends_at self.old issuer a) dsb n
            (state_at self.new None a) (pends_at self.new issuer a) }
        ensures others { (q a : ℕ) (b : Bool) (c : TheCover) (p : ℕ) → nat_eq q issuer ≡ false
            → waits (pends_at self.new q a) b c p
            ≡ (is_some (marks_at self.new a) && waits (pends_at self.old q a) b c p) }
        ensures lost { (page : ℕ) → Contains (lost_pages self.new) page
            → (a : ℕ) × (lost_next self.old self.new a ≡ Some page) }
        ensures told { (a page : ℕ) → lost_next self.old self.new a ≡ Some page
            → Contains (lost_pages self.new) page }
        ensures same { KeepsValues self.old self.new }
    {
        self.broken.visit(&Barrier {
            issuer,
            dsb,
            n,
            effect: Effect::Complete,
        });
    }

    /// How many pages the last `complete` lost. A call of `publish` or `track` may forget them.
    #[inline(always)]
    pub fn lost_len(&self) -> usize
        ensures { result ≡ length (lost_pages self.now) }
    {
        self.broken.lost_len()
    }

    /// One of the pages that the last `complete` lost, by a number below `lost_len`.
    #[inline(always)]
    pub fn lost_page(&self, i: usize) -> Page
        requires { i < length (lost_pages self.now) }
        ensures { slice_get (lost_pages self.now) i ≡ Some result }
    {
        self.broken.lost_page(i)
    }

    /// The issuer issued a TLBI that reaches these PEs, is broadcast or not, and covers the broken places as far as
    /// these covers say, which stand in the order of the numbers of `restless_at`. `NoMemory` where there is none, and
    /// nothing changes then. Only the pendings of the issuer change.
    pub fn issue_all(
        &mut self,
        issuer: Pe,
        reach: PeMask,
        broadcast: bool,
        covers: &[Answer],
    ) -> Result<(), NoMemory>
        requires { length covers.now ≡ restless_in self.old }
        ensures noted { OnOk result ((i : ℕ) (c : TheCover) → slice_get covers.now i ≡ Some c
            → Noted (state_at self.old None (restless_place self.old i))
            (pends_at self.old issuer (restless_place self.old i)) reach broadcast c
            (pends_at self.new issuer (restless_place self.old i))) }
        ensures only { NotesOnly issuer self.old self.new }
        ensures kept { OnErr result (IsSame self.old self.new) }
    {
        let tlbi = Issuing {
            issuer,
            reach,
            broadcast,
        };
        let lane = Lane::new(issuer, broadcast);
        self.broken.law_once();
        issue::make_room(&mut self.broken, covers, lane)?;
        issue::note(&mut self.broken, covers, &tlbi);
        Ok(())
    }

    /// The issuer issued a TLBI that reaches these PEs, is broadcast or not, and covers no broken place but these, each
    /// as far as stands beside it. A place may stand there more than once, always with one cover, and one that isn't
    /// broken counts for nothing. `NoMemory` where there is none, and nothing changes then. Only the pendings of the
    /// issuer change.
    pub fn issue_at(
        &mut self,
        issuer: Pe,
        reach: PeMask,
        broadcast: bool,
        found: &[Found],
    ) -> Result<(), NoMemory>
        ensures noted { OnOk result ((f : ℕ → TheCover) → FoundAs found.now f → (a : ℕ) → is_found found.now a ≡ true
            → is_some (marks_at self.old a) ≡ true
            → Noted (state_at self.old None a) (pends_at self.old issuer a) reach broadcast (f a)
            (pends_at self.new issuer a)) }
        ensures unnoted { (a : ℕ) → is_found found.now a ≡ false → pends_at self.new issuer a
            ≡ pends_at self.old issuer a }
        ensures only { NotesOnly issuer self.old self.new }
        ensures kept { OnErr result (IsSame self.old self.new) }
    {
        if found.is_empty() {
            return Ok(());
        }
        let tlbi = Issuing {
            issuer,
            reach,
            broadcast,
        };
        let lane = Lane::new(issuer, broadcast);
        self.broken.law_once();
        issue::make_room_found(&self.pages, &mut self.broken, found, lane)?;
        issue::note_found(&self.pages, &mut self.broken, found, &tlbi);
        Ok(())
    }
}
