//! The events taken, and the tables that they emptied.

ghost use Rattle.std.specs.Prelude.{◌≡◌, ◌∷◌, [], true, reverse, drop, All, IfOk, OnOk, OnErr};
ghost use Rattle.bbm_events.specs.Fits.{fits_heading};
ghost use Rattle.bbm_rules.specs.Held as holding;
ghost use Rattle.bbm_rules.specs.Notes.{events_of};
ghost use Rattle.bbm_rules.specs.RegisterValues as registers;
ghost use Rattle.bbm_rules.specs.Roots as roots;
ghost use Rattle.bbm_rules.specs.Tags as tags;
ghost use Rattle.bbm_rules.specs.Values as values;
ghost use Rattle.bbm_oracle_patterns.specs.Kept.{notes_of};
ghost use Rattle.bbm_oracle_patterns.specs.PlacePhases.{phase_at};
ghost use Rattle.bbm_oracle_trees.specs.Emptied.{AreEmptied, is_among};
ghost use Rattle.bbm_oracle_trees.specs.HistoryFits.{fits_root};

use crate::emptied::{emptied_after, has_seat};
use crate::taken::Taken;
use bbm_events::{Event, Header};
use bbm_oracle_patterns::{Evidence, Kept, TreePlace};
use bbm_oracle_tags::{Declared, named_scope, places_in, tag_set_of, value_of, vmid_of};
use bbm_regimes::{Kind, Level, NoMemory, Page, Pe, Place};
use bbm_rules::Phase;
use bbm_tlbi_scope::{Scope, TagSet, TlbiOp};
use std::alloc::Global;
use std::marker::Model;
use std::mem;

/// The events taken, each with the places that it covered, and the tables that are emptied after them. A clause sees
/// the events newest first. Source: project's own choice.
#[derive(Drop)]
pub struct Log<E: Evidence> {
    taken: Taken<E>,
    emptied: Vec<TreePlace>,
}

impl<E: Evidence> Model for Log<E> {
    ghost use Rattle.bbm_oracle_trees.specs.Emptied.{AreEmptied};
    ghost use Rattle.bbm_oracle_trees.specs.Past.{Past, notes};

    ghost Value = { Past };

    ghost view = { λ l. l.taken };

    ghost invariant = { λ l. AreEmptied l.taken.heading l.taken.trust (notes l.taken) l.emptied.items };
}

/// What a log was before its newest event.
#[derive(Drop)]
pub struct Before<E: Evidence> {
    /// What is trusted, which hasn't taken the event.
    pub evidence: E,
    /// The tables that were emptied.
    pub emptied: Vec<TreePlace>,
}

impl<E: Evidence> Log<E> {
    ghost use Rattle.bbm_oracle_trees.specs.Past.{notes};

    /// The log of this header with no event, beside evidence that has taken none.
    pub fn new(alloc: Global, header: &Header, evidence: E) -> Log<E>
        requires { E.has_taken evidence header.now [] }
        ensures { result ≡ record { heading = header.now; trust = E.trust evidence; kept = [] } }
    {
        Log {
            taken: Taken::new(alloc, header, evidence),
            emptied: Vec::new(alloc),
        }
    }

    /// The header.
    pub fn header(&self) -> &Header
        ensures { result.now ≡ self.now.heading }
    {
        self.taken.header()
    }

    /// The events, oldest first.
    pub fn events(&self) -> &[Event]
        ensures { reverse result.now ≡ events_of (notes self.now) }
    {
        self.taken.events()
    }

    /// The events with the places that each covered, oldest first.
    pub fn kept(&self) -> &[Kept]
        ensures { reverse result.now ≡ self.now.kept }
    {
        self.taken.kept()
    }

    /// What is trusted.
    pub fn evidence(&self) -> &E
        ensures trust { E.trust result.now ≡ self.now.trust }
        ensures taken { E.has_taken result.now self.now.heading (notes self.now) }
    {
        self.taken.evidence()
    }

    /// The value of the place.
    pub fn value_of(&self, place: Place) -> u64
        ensures { result ≡ values.value_of (events_of (notes self.now)) place }
    {
        value_of(self.events(), place)
    }

    /// The places of the page that were ever written. `NoMemory` where there is none.
    pub fn places_in(&self, alloc: Global, page: Page) -> Result<Vec<Place>, NoMemory>
        ensures { IfOk result (λ places. places.items ≡ values.places_in (events_of (notes self.now)) page) }
    {
        places_in(alloc, self.events(), page)
    }

    /// The declared roots. `NoMemory` where there is none.
    pub fn roots(&self, alloc: Global) -> Result<Vec<Declared>, NoMemory>
        ensures roots { IfOk result (λ found. found.items ≡ roots.roots_of (events_of (notes self.now))) }
        ensures fit { IfOk result (λ found. All (λ root. fits_root self.now.heading root ≡ true) found.items) }
    {
        self.taken.roots(alloc)
    }

    /// Whether the place is emptied, at its kind and level.
    fn is_emptied(&self, seat: &TreePlace) -> bool
        ensures { result ≡ holding.emptied self.now.heading self.now.trust seat.now.kind seat.now.level seat.now.place
            (notes self.now) }
    {
        has_seat(&self.emptied, seat)
    }

    /// The value that the place holds, at this kind and level.
    pub fn held(&self, kind: Kind, level: Level, place: Place) -> Option<u64>
        ensures { result ≡ holding.held self.now.heading self.now.trust kind level place (notes self.now) }
    {
        let seat = TreePlace { place, kind, level };
        let emptied = self.is_emptied(&seat);
        self.taken.held(&seat, emptied)
    }

    /// The phase at the PE of a place of a tree, at this kind and level, with this value.
    pub fn phase_in(&self, kind: Kind, level: Level, place: Place, value: u64, pe: Pe) -> Phase
        ensures { result ≡ phase_at self.now.heading self.now.trust kind level place value pe (notes self.now) }
    {
        let seat = TreePlace { place, kind, level };
        let emptied = self.is_emptied(&seat);
        self.taken.phase_in(&seat, emptied, value, pe)
    }

    /// The VMID under which the PE issues its TLBIs. `NoMemory` where there is none.
    pub fn vmid_of(&self, alloc: Global, pe: Pe) -> Result<Option<u16>, NoMemory>
        ensures { IfOk result (λ vmid. vmid ≡ registers.vmid_of self.now.heading (events_of (notes self.now)) pe) }
    {
        vmid_of(alloc, self.header(), self.events(), pe)
    }

    /// What a TLBI names at its issue. `NoMemory` where there is none.
    pub fn named_scope(
        &self,
        alloc: Global,
        pe: Pe,
        op: TlbiOp,
        xt: u64,
    ) -> Result<Option<Scope>, NoMemory>
        ensures { IfOk result (λ scope. scope
            ≡ registers.named_scope self.now.heading (events_of (notes self.now)) pe op xt) }
    {
        named_scope(alloc, self.header(), self.events(), pe, op, xt)
    }

    /// The tags that the root holds. `NoMemory` where there is none.
    pub fn tag_set_of(&self, alloc: Global, root: Page) -> Result<TagSet, NoMemory>
        ensures { IfOk result (λ found. found
            ≡ tags.tag_set (tags.tags_of self.now.heading self.now.trust root (events_of (notes self.now)))) }
    {
        tag_set_of(
            alloc,
            self.evidence(),
            self.header(),
            self.events(),
            root.get(),
        )
    }

    /// Takes one more event. It gives what it was before, to go back to. `NoMemory` where there is none; then it is as
    /// before.
    pub fn take(&mut self, alloc: Global, kept: Kept) -> Result<Before<E>, NoMemory>
        requires { fits_heading self.old.heading kept.event ≡ true }
        ensures heading { self.new.heading ≡ self.old.heading }
        ensures trust { self.new.trust ≡ self.old.trust }
        ensures taken { OnOk result (self.new.kept ≡ kept ∷ self.old.kept) }
        ensures before { IfOk result (λ before. E.has_taken before.evidence self.old.heading (notes self.old)) }
        ensures same { IfOk result (λ before. E.trust before.evidence ≡ self.old.trust) }
        ensures emptied { IfOk result (λ before. AreEmptied self.old.heading self.old.trust (notes self.old)
            before.emptied.items) }
        ensures unchanged { OnErr result (self.new ≡ self.old) }
    {
        let event = kept.event;
        let evidence = self.taken.take(alloc, kept)?;
        match emptied_after(alloc, &self.taken, &self.emptied, &event) {
            Ok(now) => {
                let emptied = mem::replace(&mut self.emptied, now);
                Ok(Before { evidence, emptied })
            }
            Err(_) => {
                self.taken.forget(evidence);
                Err(NoMemory)
            }
        }
    }

    /// Forgets the newest event, where there is one, and goes back to what the log was before it.
    pub fn forget(&mut self, before: Before<E>)
        requires before { E.has_taken before.evidence self.old.heading (notes_of (drop 1 self.old.kept)) }
        requires same { E.trust before.evidence ≡ self.old.trust }
        requires emptied { AreEmptied self.old.heading self.old.trust (notes_of (drop 1 self.old.kept))
            before.emptied.items }
        ensures heading { self.new.heading ≡ self.old.heading }
        ensures trust { self.new.trust ≡ self.old.trust }
        ensures kept { self.new.kept ≡ drop 1 self.old.kept }
    {
        let Before { evidence, emptied } = before;
        self.taken.forget(evidence);
        self.emptied = emptied;
    }
}
