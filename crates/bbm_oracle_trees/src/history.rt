//! The history of a log: the events taken, the trees after them, and the fresh and the clean pages.
//! Source: project's own choice, where no other is named.

ghost use Rattle.std.specs.Prelude.{◌≡◌, ◌∷◌, List, [], true, reverse, IfOk, OnOk, OnErr, option_copied};
ghost use Rattle.bbm_events.specs.declared.event.Event.{Event as TheEvent};
ghost use Rattle.bbm_events.specs.Fits.{fits_heading};
ghost use Rattle.bbm_events.specs.Heading.{Heading};
ghost use Rattle.bbm_rules.specs.Covers.{note};
ghost use Rattle.bbm_rules.specs.Mapped as mapped;
ghost use Rattle.bbm_rules.specs.Notes.{events_of};
ghost use Rattle.bbm_rules.specs.Pages as pages;
ghost use Rattle.bbm_rules.specs.Phases as phases;
ghost use Rattle.bbm_rules.specs.Tags as tags;
ghost use Rattle.bbm_rules.specs.Tree as trees;
ghost use Rattle.bbm_rules.specs.Values.{value_of};
ghost use Rattle.bbm_oracle_patterns.specs.Kept.{notes_of};
ghost use Rattle.bbm_oracle_patterns.specs.PlacePhases.{phase_at};
ghost use Rattle.bbm_oracle_trees.specs.Past.{notes};
ghost use Rattle.bbm_oracle_trees.specs.TreePhases.{phase_among};
ghost use Rattle.bbm_oracle_trees.specs.HistoryStandsFor.{StandsFor};

use crate::covers::covers_of;
use crate::fresh::has;
use crate::limbo::in_limbo;
use crate::log::Log;
use crate::node::Node;
use crate::tree::{first_of, is_childless};
use crate::trees::{Trees, bring};
use bbm_events::{Event, Header};
use bbm_oracle_patterns::{Covering, Evidence, Kept};
use bbm_oracle_tags::{Holding, Keeper};
use bbm_regimes::{NoMemory, Page, Pe, Place, Tag};
use bbm_rules::Phase;
use bbm_tlbi_scope::TagSet;
use std::alloc::Global;
use std::marker::Model;

/// A header and the events taken, with the trees, the fresh and the clean pages after them, by what is trusted. A
/// clause sees the header, the trust and the events, the newest first, each with the places that it covered.
#[derive(Drop)]
pub struct History<E: Evidence> {
    log: Log<E>,
    trees: Trees,
}

impl<E: Evidence> Model for History<E> {
    ghost use Rattle.bbm_oracle_trees.specs.Past.{Past, notes};
    ghost use Rattle.bbm_oracle_trees.specs.TreesOf.{AreTreesOf};

    ghost Value = { Past };

    ghost view = { λ h. h.log };

    ghost invariant = { λ h. AreTreesOf h.log.heading h.log.trust (notes h.log) h.trees };
}

/// The phase at the PE of a place of the page.
fn phase_of<E: Evidence>(log: &Log<E>, node: &Node, place: Place, pe: Pe) -> Phase
    ensures { result ≡ phase_at log.now.heading log.now.trust node.now.kind node.now.level place
        (value_of (events_of (notes log.now)) place) pe (notes log.now) }
{
    let value = log.value_of(place);
    log.phase_in(node.kind, node.level, place, value, pe)
}

/// The event, coming after those of the log, with what it covers, where these are the trees.
fn noted<E: Evidence>(
    alloc: Global,
    log: &Log<E>,
    tree: &[Node],
    event: &Event,
) -> Result<Kept, NoMemory>
    requires { tree.now ≡ trees.tree log.now.heading log.now.trust (notes log.now) }
    ensures event { IfOk result (λ kept. kept.event ≡ event.now) }
    ensures note { IfOk result (λ kept. notes_of (kept ∷ log.now.kept)
        ≡ note log.now.heading log.now.trust (notes log.now) event.now ∷ notes log.now) }
{
    let covers = covers_of(alloc, log, tree, event, Covering::Whole)?;
    let tops = covers_of(alloc, log, tree, event, Covering::Top)?;
    Ok(Kept {
        event: *event,
        covers,
        tops,
    })
}

impl<E: Evidence> History<E> {
    /// The history of this header with no event, by evidence that has taken none. It takes no room yet.
    pub fn new(alloc: Global, header: &Header, evidence: E) -> History<E>
        requires { E.has_taken evidence header.now [] }
        ensures is { result ≡ record { heading = header.now; trust = E.trust evidence; kept = [] } }
        ensures stands { StandsFor result header.now [] }
    {
        History {
            log: Log::new(alloc, header, evidence),
            trees: Trees::new(alloc),
        }
    }

    /// The header.
    pub fn header(&self) -> &Header
        ensures { result.now ≡ self.now.heading }
    {
        self.log.header()
    }

    /// What is trusted. It has taken the events, and can be asked of the tags after them.
    pub fn evidence(&self) -> &E
        ensures trust { E.trust result.now ≡ self.now.trust }
        ensures taken { E.has_taken result.now self.now.heading (notes self.now) }
        ensures knows { E.knows result.now self.now.heading (events_of (notes self.now)) }
    {
        self.log.evidence()
    }

    /// The events taken, oldest first.
    pub fn events(&self) -> &[Event]
        ensures { reverse result.now ≡ events_of (notes self.now) }
    {
        self.log.events()
    }

    /// The events taken with the places that each covered, oldest first.
    pub fn log(&self) -> &[Kept]
        ensures { reverse result.now ≡ self.now.kept }
    {
        self.log.kept()
    }

    /// The pages of the trees, level by level.
    pub fn tree(&self) -> &[Node]
        ensures { result.now ≡ trees.tree self.now.heading self.now.trust (notes self.now) }
    {
        &self.trees.nodes
    }

    /// The page in its tree, the first of them where it is in several; None where it is in no tree.
    pub fn node_of(&self, page: Page) -> Option<&Node>
        ensures { option_copied result ≡ trees.node_of self.now.heading self.now.trust (notes self.now) page }
    {
        first_of(self.tree(), page)
    }

    /// The value that the place holds as one of the page; None where it holds none.
    pub fn held_at(&self, node: &Node, place: Place) -> Option<u64>
        ensures { result ≡ trees.held_at self.now.heading self.now.trust (notes self.now) node.now place }
    {
        self.log.held(node.kind, node.level, place)
    }

    /// Whether the present value of a place above the page is invalid.
    pub fn in_limbo(&self, node: &Node) -> bool
        ensures { result ≡ trees.in_limbo (notes self.now) node.now }
    {
        in_limbo(&self.log, node)
    }

    /// Whether the value, at the kind and the level of the page, is a table no place of which holds anything.
    /// `NoMemory` where there is none.
    pub fn is_childless(&self, alloc: Global, node: &Node, value: u64) -> Result<bool, NoMemory>
        ensures { IfOk result (λ childless. childless
            ≡ trees.is_childless self.now.heading self.now.trust (notes self.now) node.now value) }
    {
        is_childless(alloc, &self.log, node, value)
    }

    /// Whether the page was initialised, has been in no tree since its last init, and wasn't declared null since.
    pub fn is_fresh(&self, page: Page) -> bool
        ensures { result ≡ pages.is_fresh self.now.heading self.now.trust (notes self.now) page }
    {
        has(&self.trees.fresh, page)
    }

    /// Whether the page was initialised, and was mapped at no moment since. The header has `isolated`.
    pub fn is_clean(&self, page: Page) -> bool
        requires { self.now.heading.words.isolated ≡ true }
        ensures { result ≡ mapped.is_clean self.now.heading self.now.trust (notes self.now) page }
    {
        has(&self.trees.clean, page)
    }

    /// Whether the root with this first page holds the tag at the PE. `NoMemory` where there is none.
    pub fn holds_at(&self, alloc: Global, pe: Pe, root: Page, tag: Tag) -> Result<bool, NoMemory>
        ensures { IfOk result (λ holds. holds
            ≡ tags.holds_at self.now.heading self.now.trust pe root tag (events_of (notes self.now))) }
    {
        let evidence = self.evidence();
        let root = root.get();
        let asked = Holding { pe, root, tag };
        evidence.keeps_at(
            alloc,
            self.header(),
            self.events(),
            &asked,
            Keeper::Declared,
        )
    }

    /// The tags that the root with this first page holds at any PE. `NoMemory` where there is none.
    pub fn tag_set_of(&self, alloc: Global, root: Page) -> Result<TagSet, NoMemory>
        ensures { IfOk result (λ found. found
            ≡ tags.tag_set (tags.tags_of self.now.heading self.now.trust root (events_of (notes self.now)))) }
    {
        self.log.tag_set_of(alloc, root)
    }

    /// The phase of the place at the PE: clean where the place is in no tree or holds nothing.
    pub fn phase(&self, place: Place, pe: Pe) -> Phase
        ensures among { result ≡ phase_among self.now.heading self.now.trust (notes self.now) place pe }
        ensures stands { (heading : Heading) (h : List TheEvent) → StandsFor self.now heading h
            → result ≡ phases.phase_of heading self.now.trust h place pe }
    {
        match self.node_of(place.page()) {
            Some(node) => phase_of(&self.log, node, place, pe),
            None => Phase::Clean,
        }
    }

    /// Takes one more event, which fits the header. `NoMemory` where there is none; then the history is as before.
    pub fn take(&mut self, alloc: Global, event: Event) -> Result<(), NoMemory>
        requires { fits_heading self.old.heading event ≡ true }
        ensures heading { self.new.heading ≡ self.old.heading }
        ensures trust { self.new.trust ≡ self.old.trust }
        ensures stands { OnOk result ((heading : Heading) (h : List TheEvent) → StandsFor self.old heading h
            → StandsFor self.new heading (event ∷ h)) }
        ensures taken { OnOk result (notes self.new
            ≡ note self.old.heading self.old.trust (notes self.old) event ∷ notes self.old) }
        ensures unchanged { OnErr result (self.new ≡ self.old) }
    {
        let kept = noted(alloc, &self.log, &self.trees.nodes, &event)?;
        let before = self.log.take(alloc, kept)?;
        match bring(alloc, &self.log, &mut self.trees, &event) {
            Ok(()) => Ok(()),
            Err(_) => {
                self.log.forget(before);
                Err(NoMemory)
            }
        }
    }
}
