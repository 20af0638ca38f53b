//! The events taken.

ghost use Rattle.std.specs.Prelude.{◌≡◌, ◌∷◌, [], true, reverse, drop, All, IfOk, OnOk, OnErr};
ghost use Rattle.bbm_events.specs.Fits.{fits_heading};
ghost use Rattle.bbm_rules.specs.Held as holding;
ghost use Rattle.bbm_rules.specs.Notes.{events_of};
ghost use Rattle.bbm_rules.specs.Roots as roots;
ghost use Rattle.bbm_oracle_patterns.specs.Kept.{notes_of};
ghost use Rattle.bbm_oracle_patterns.specs.PlacePhases.{phase_at, value_above};
ghost use Rattle.bbm_oracle_trees.specs.HistoryFits.{fits_root};

use bbm_events::{Event, Header};
use bbm_oracle_patterns::{Evidence, Kept, TreePlace, held, phase_in, value_above};
use bbm_oracle_tags::{Declared, roots_of};
use bbm_regimes::{NoMemory, Pe};
use bbm_rules::Phase;
use std::alloc::Global;
use std::marker::Model;
use std::mem;

/// A header, and the events taken, each with the places that it covered, beside what is trusted, which has taken the
/// same. A clause sees the events newest first. Source: project's own choice.
#[derive(Drop)]
pub struct Taken<E: Evidence> {
    header: Header,
    events: Vec<Event>,
    kept: Vec<Kept>,
    evidence: E,
}

impl<E: Evidence> Model for Taken<E> {
    ghost use Rattle.std.specs.Prelude.{◌≡◌, true, reverse};
    ghost use Rattle.bbm_rules.specs.Notes.{events_of};
    ghost use Rattle.bbm_oracle_patterns.specs.Kept.{notes_of};
    ghost use Rattle.bbm_oracle_trees.specs.HistoryFits.{all_fit};
    ghost use Rattle.bbm_oracle_trees.specs.Past.{Past};

    ghost Value = { Past };

    ghost view = { λ l. record {
      heading = l.header;
      trust = E.trust l.evidence;
      kept = reverse l.kept.items;
    } };

    ghost invariant = { λ l. (reverse l.events.items ≡ events_of (notes_of (reverse l.kept.items)))
        × (all_fit l.header (reverse l.events.items) ≡ true)
        × E.has_taken l.evidence l.header (notes_of (reverse l.kept.items)) };
}

impl<E: Evidence> Taken<E> {
    ghost use Rattle.bbm_oracle_trees.specs.Past.{notes};

    /// What was taken under this header, with no event, beside evidence that has taken none.
    pub fn new(alloc: Global, header: &Header, evidence: E) -> Taken<E>
        requires { E.has_taken evidence header.now [] }
        ensures { result ≡ record { heading = header.now; trust = E.trust evidence; kept = [] } }
    {
        Taken {
            header: *header,
            events: Vec::new(alloc),
            kept: Vec::new(alloc),
            evidence,
        }
    }

    /// The header.
    pub fn header(&self) -> &Header
        ensures { result.now ≡ self.now.heading }
    {
        &self.header
    }

    /// The events, oldest first.
    pub fn events(&self) -> &[Event]
        ensures { reverse result.now ≡ events_of (notes self.now) }
    {
        &self.events
    }

    /// The events with the places that each covered, oldest first.
    pub fn kept(&self) -> &[Kept]
        ensures { reverse result.now ≡ self.now.kept }
    {
        &self.kept
    }

    /// What is trusted.
    pub fn evidence(&self) -> &E
        ensures trust { E.trust result.now ≡ self.now.trust }
        ensures taken { E.has_taken result.now self.now.heading (notes self.now) }
    {
        &self.evidence
    }

    /// The declared roots. `NoMemory` where there is none.
    pub fn roots(&self, alloc: Global) -> Result<Vec<Declared>, NoMemory>
        ensures roots { IfOk result (λ found. found.items ≡ roots.roots_of (events_of (notes self.now))) }
        ensures fit { IfOk result (λ found. All (λ root. fits_root self.now.heading root ≡ true) found.items) }
    {
        roots_of(alloc, &self.events)
    }

    /// The value that the place holds, which is emptied or not, as told.
    pub fn held(&self, seat: &TreePlace, emptied: bool) -> Option<u64>
        ensures { result ≡ holding.held_unless self.now.heading self.now.trust emptied seat.now.kind seat.now.level
            seat.now.place (notes self.now) }
    {
        held(&self.evidence, &self.header, &self.kept, seat, emptied)
    }

    /// The last valid value of the place, where the place is above at every PE since.
    pub fn value_above(&self, seat: &TreePlace) -> Option<u64>
        ensures { result ≡ value_above self.now.heading self.now.trust seat.now.kind seat.now.level seat.now.place
            (notes self.now) }
    {
        value_above(&self.evidence, &self.header, &self.kept, seat)
    }

    /// The phase at the PE of a place of a tree that has this value, and is emptied or not, as told.
    pub fn phase_in(&self, seat: &TreePlace, emptied: bool, value: u64, pe: Pe) -> Phase
        requires { emptied ≡ holding.emptied self.now.heading self.now.trust seat.now.kind seat.now.level seat.now.place
            (notes self.now) }
        ensures { result ≡ phase_at self.now.heading self.now.trust seat.now.kind seat.now.level seat.now.place value pe
            (notes self.now) }
    {
        phase_in(
            &self.evidence,
            &self.header,
            &self.kept,
            seat,
            emptied,
            value,
            pe,
        )
    }

    /// Takes one more event. It gives what the evidence was before, to go back to. `NoMemory` where there is none; then
    /// it is as before.
    pub fn take(&mut self, alloc: Global, kept: Kept) -> Result<E, NoMemory>
        requires { fits_heading self.old.heading kept.event ≡ true }
        ensures heading { self.new.heading ≡ self.old.heading }
        ensures trust { self.new.trust ≡ self.old.trust }
        ensures taken { OnOk result (self.new.kept ≡ kept ∷ self.old.kept) }
        ensures before { IfOk result (λ before. E.has_taken before self.old.heading (notes self.old)) }
        ensures same { IfOk result (λ before. E.trust before ≡ self.old.trust) }
        ensures unchanged { OnErr result (self.new ≡ self.old) }
    {
        let event = kept.event;
        self.events.reserve(1)?;
        self.kept.reserve(1)?;
        let after = self.evidence.after(alloc, &self.header, &self.kept, &kept)?;
        self.events.push(event).unwrap();
        self.kept.push(kept).unwrap();
        Ok(mem::replace(&mut self.evidence, after))
    }

    /// Forgets the newest event, where there is one, and goes back to evidence that hasn't taken it.
    pub fn forget(&mut self, before: E)
        requires before { E.has_taken before self.old.heading (notes_of (drop 1 self.old.kept)) }
        requires same { E.trust before ≡ self.old.trust }
        ensures heading { self.new.heading ≡ self.old.heading }
        ensures trust { self.new.trust ≡ self.old.trust }
        ensures kept { self.new.kept ≡ drop 1 self.old.kept }
    {
        self.events.pop();
        self.kept.pop();
        self.evidence = before;
    }
}
