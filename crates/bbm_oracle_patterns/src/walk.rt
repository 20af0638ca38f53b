//! One walk through the events after the last valid write of a place.

ghost use Rattle.std.specs.Prelude.{◌≡◌, ℕ, ◌&&◌, ◌||◌, not, nat_eq, nat_lt, ◌≤◌, []};
ghost use Rattle.bbm_regimes.specs.PeMask.{pe_in};
ghost use Rattle.bbm_tlbi_scope.specs.declared.entry.Cover.{Cover as Grade};
ghost use Rattle.bbm_events.specs.declared.event.Event.{Event};
ghost use Rattle.bbm_events.specs.Heading.{Heading};
ghost use Rattle.bbm_rules.specs.Cleansing.{same_cover};
ghost use Rattle.bbm_rules.specs.Values as values;
ghost use Rattle.bbm_oracle_patterns.specs.Walk.{IsWalk, Steps, noted_for};

use crate::kept::{Covering, Kept};
use crate::open::Open;
use crate::trace::Trace;
use bbm_barriers::{Dsb, is_non, publishes_to};
use bbm_events::{Event, Header};
use bbm_regimes::{Pe, PeCount, PeMask, Place};
use bbm_tlbi_scope::{Cover, TlbiOp};

/// What a walk has found in the events so far. Source: project's own choice.
#[derive(Drop)]
pub struct Walk {
    /// The PEs that wrote the place.
    writers: PeMask,
    /// At which PEs the place is seen, half and cleansed.
    pub trace: Trace,
    /// The unanswered TLBIs that cover the place in full, with the PEs that they reach and at which it was seen.
    full: Open,
    /// Those that cover it half, with the same PEs.
    half: Open,
    /// Those that cover the rest, with the PEs that they reach and at which the place was half.
    second: Open,
}

/// The PEs of the header.
pub fn every_pe_of(header: &Header) -> PeMask
    ensures mask { (p : ℕ) → pe_in result p ≡ nat_lt p header.now.pes }
    ensures count { header.now.pes ≤ 128 }
{
    PeMask::all(header.pe_count())
}

/// The PEs to which a DSB of the issuer publishes its earlier writes. Under `cnp` one of the non-shareable domain
/// publishes nothing. The issuer may be any PE here.
#[tactic(auto, using(crate::proofs::Bits::wide, crate::proofs::Bits::near, crate::proofs::Bits::nowhere))]
fn published_to(header: &Header, dsb: Dsb, issuer: Pe) -> PeMask
    ensures { (p : ℕ) → pe_in result p ≡ values.publishes_to header.now dsb issuer p }
{
    let pes = publishes_to(dsb, issuer, PeCount::new(128));
    if !is_non(dsb.domain) {
        pes.and(every_pe_of(header))
    } else if header.cnp {
        PeMask::none()
    } else {
        pes
    }
}

/// The PEs to which a DSB of the PE publishes a write of the place, where these PEs wrote it.
fn newly_seen(header: &Header, dsb: Dsb, pe: Pe, writers: PeMask) -> PeMask
    ensures { (p : ℕ) → pe_in result p ≡ (values.publishes_to header.now dsb pe p && pe_in writers pe) }
{
    if writers.has(pe) {
        published_to(header, dsb, pe)
    } else {
        PeMask::none()
    }
}

/// Those of the PEs that a TLBI of the issuer reaches.
fn reached(header: &Header, issuer: Pe, broadcast: bool, pes: PeMask) -> PeMask
    ensures { (p : ℕ) → pe_in result p
        ≡ ((broadcast || (not header.now.cnp && nat_eq issuer p)) && pe_in pes p) }
{
    if broadcast {
        pes
    } else if header.cnp {
        PeMask::none()
    } else {
        pes.and(PeMask::one(issuer))
    }
}

/// These PEs where the covers are the same, else none.
fn if_same(cover: Cover, asked: Cover, pes: PeMask) -> PeMask
    ensures { (p : ℕ) → pe_in result p ≡ (same_cover cover asked && pe_in pes p) }
{
    match (cover, asked) {
        (Cover::None, Cover::None)
        | (Cover::Half, Cover::Half)
        | (Cover::Second, Cover::Second)
        | (Cover::Full, Cover::Full) => pes,
        _ => PeMask::none(),
    }
}

impl Walk {
    /// No event yet.
    pub fn new() -> Walk
        ensures { (heading : Heading) (place : ℕ) → IsWalk result heading place [] }
    {
        Walk {
            writers: PeMask::none(),
            trace: Trace {
                seen: PeMask::none(),
                half: PeMask::none(),
                cleansed: PeMask::none(),
            },
            full: Open::none(),
            half: Open::none(),
            second: Open::none(),
        }
    }

    /// The PE writes the place.
    fn write(&mut self, pe: Pe)
        ensures { (heading : Heading) (place value position : ℕ) (covers tops : ℕ → Grade)
            → Steps self.old self.new heading place (record {
              event = Event.Write pe place value;
              covers = covers;
              tops = tops;
              position = position;
            }) }
    {
        self.writers = self.writers.or(PeMask::one(pe));
    }

    /// The PE issues a DSB.
    fn complete(&mut self, header: &Header, pe: Pe, dsb: Dsb)
        ensures { (place position : ℕ) (covers tops : ℕ → Grade)
            → Steps self.old self.new header.now place (record {
              event = Event.Dsb pe dsb;
              covers = covers;
              tops = tops;
              position = position;
            }) }
    {
        let seen = newly_seen(header, dsb, pe, self.writers);
        let full = self.full.answer(pe, dsb);
        let half = self.half.answer(pe, dsb);
        let second = self.second.answer(pe, dsb);
        self.trace = Trace {
            seen: seen.or(self.trace.seen),
            half: half.or(self.trace.half),
            cleansed: full.or(second).or(self.trace.cleansed),
        };
    }

    /// The PE issues a TLBI that covers the place so far.
    fn issue(&mut self, header: &Header, pe: Pe, op: TlbiOp, cover: Cover)
        ensures { (place xt position : ℕ) (covers tops : ℕ → Grade) → covers place ≡ cover
            → Steps self.old self.new header.now place (record {
              event = Event.Tlbi pe op xt;
              covers = covers;
              tops = tops;
              position = position;
            }) }
    {
        let broadcast = op.is_broadcast();
        let seen = reached(header, pe, broadcast, self.trace.seen);
        let half = reached(header, pe, broadcast, self.trace.half);
        self.full
            .issue(pe, broadcast, if_same(cover, Cover::Full, seen));
        self.half
            .issue(pe, broadcast, if_same(cover, Cover::Half, seen));
        self.second
            .issue(pe, broadcast, if_same(cover, Cover::Second, half));
    }

    /// Takes one more event, for this place.
    pub fn take(&mut self, header: &Header, place: Place, covering: Covering, kept: &Kept)
        ensures { (before : ℕ) → Steps self.old self.new header.now place (noted_for covering before kept.now) }
    {
        match kept.event {
            Event::Write {
                pe,
                place: at,
                value: _,
            } => {
                if at == place {
                    self.write(pe);
                }
            }
            Event::Dsb { pe, dsb } => self.complete(header, pe, dsb),
            Event::Tlbi { pe, op, xt: _ } => {
                if !self.trace.seen.is_empty() || !self.trace.half.is_empty() {
                    self.issue(header, pe, op, kept.cover_for(covering, place));
                }
            }
            _ => {}
        }
    }
}
