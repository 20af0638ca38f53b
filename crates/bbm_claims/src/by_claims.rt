//! A list of claims is trusted, and nothing else.

ghost use Rattle.std.specs.Prelude.{◌≡◌, ◌++◌, ◌||◌, List, length, reverse, IfOk};
ghost use Rattle.bbm_events.specs.declared.event.Event.{Event as TheEvent};
ghost use Rattle.bbm_rules.specs.Claims.Trust.{Listed};
ghost use Rattle.bbm_rules.specs.Tags.{holds_at as is_held, reads};
ghost use Rattle.bbm_claims.specs.Holdings.{Keep};
ghost use Rattle.bbm_claims.specs.Takings.{AreWrites};

use crate::cleansings::{Cleansing, add_above, add_completed, cleansed_since, copied};
use crate::holdings::{Tags, has, tags_after};
use crate::known::known;
use bbm_events::{Claim, Event, Header};
use bbm_oracle_patterns::{Evidence, Kept};
use bbm_oracle_tags::readings::is_read;
use bbm_oracle_tags::{Holding, Keeper, TagEvidence, readings_at};
use bbm_regimes::{NoMemory, PeMask, Place};
use std::alloc::Global;

/// A list of claims is trusted, and nothing else: a place is cleansed, and a tag taken away, only by a pattern of
/// events that a claim of the list names. A claim that isn't true of the log counts for nothing. It keeps what the
/// claims say of the events taken, so that no answer searches them. Source: project's own choice.
#[derive(Drop)]
pub struct ByClaims<'a> {
    /// The claims, in any order.
    pub claims: &'a [Claim],
    /// What the claims of places say that are true of the events taken.
    cleansings: Vec<Cleansing>,
    /// What the roots hold and have left after the events taken, and until when tags are readable in them.
    tags: Tags,
    /// How many events were taken.
    taken: usize,
    /// What the claims of places say of top covers that are true of the events taken.
    above: Vec<Cleansing>,
}

impl<'a> ByClaims<'a> {
    ghost use Rattle.std.specs.Prelude.{[]};
    ghost use Rattle.bbm_events.specs.Heading.{Heading};
    ghost use Rattle.bbm_claims.specs.TakenByClaims.{HasTaken};

    /// Trust in these claims, before any event. It takes no room yet.
    pub fn new(alloc: Global, claims: &'a [Claim]) -> ByClaims<'a>
        ensures claims { result.claims.now ≡ claims.now }
        ensures taken { (heading : Heading) → HasTaken result heading [] }
    {
        ByClaims {
            claims,
            cleansings: Vec::new(alloc),
            tags: Tags {
                held: Vec::new(alloc),
                left: Vec::new(alloc),
                spans: Vec::new(alloc),
            },
            taken: 0,
            above: Vec::new(alloc),
        }
    }
}

/// Whether the root held the tag at the PE before the last of the events, or it is readable there for the root now.
fn holds_through(
    alloc: Global,
    header: &Header,
    events: &[Event],
    asked: &Holding,
    holds: bool,
) -> Result<bool, NoMemory>
    ensures { IfOk result (λ after. after
        ≡ (holds || reads header.now (reverse events.now) asked.now.pe asked.now.tag asked.now.root)) }
{
    let readings = readings_at(alloc, header, events, asked.pe)?;
    Ok(holds || is_read(&readings, asked.tag, asked.root))
}

/// Whether the root holds the tag at the PE after the events, of which those behind the events taken are register
/// writes.
fn holds_from(
    alloc: Global,
    header: &Header,
    events: &[Event],
    asked: &Holding,
    evidence: &ByClaims<'_>,
) -> Result<bool, NoMemory>
    requires { (newer older : List TheEvent) × (reverse events.now ≡ newer ++ older) × AreWrites newer
        × Keep header.now evidence.now.claims.now older evidence.now.tags.held.items evidence.now.tags.left.items
        × (evidence.now.taken ≡ length older) }
    ensures { IfOk result (λ holds. holds ≡ is_held header.now (Listed evidence.now.claims.now) asked.now.pe
        asked.now.root asked.now.tag (reverse events.now)) }
{
    let mut holds = has(&evidence.tags.held, asked.pe, asked.root, asked.tag);
    for i in evidence.taken..events.len() {
        holds = holds_through(alloc, header, &events[..i + 1], asked, holds)?;
    }
    Ok(holds)
}

impl<'a> TagEvidence for ByClaims<'a> {
    ghost use Rattle.std.specs.Prelude.{◌≡◌, ◌++◌, ◌∷◌, List, length};
    ghost use Rattle.std.proofs.Common.{ap};
    ghost use Rattle.bbm_rules.specs.Claims.Trust.{Listed};
    ghost use Rattle.bbm_rules.specs.Prelude.{Event, Msr};
    ghost use Rattle.bbm_claims.specs.Holdings.{Keep};
    ghost use Rattle.bbm_claims.specs.Takings.{AreWrites};

    ghost trust = { λ evidence. Listed evidence.claims.now };

    ghost knows = { λ evidence heading h. (newer older : List Event) × (h ≡ newer ++ older) × AreWrites newer
        × Keep heading evidence.claims.now older evidence.tags.held.items evidence.tags.left.items
        × (evidence.taken ≡ length older) };

    fn keeps_at(
        &self,
        alloc: Global,
        header: &Header,
        events: &[Event],
        asked: &Holding,
        keeper: Keeper,
    ) -> Result<bool, NoMemory> {
        match keeper {
            Keeper::Declared => holds_from(alloc, header, events, asked, self),
            Keeper::GivenUp => Ok(has(&self.tags.left, asked.pe, asked.root, asked.tag)),
        }
    }

    ghost knows_write = { λ evidence heading h pe reg value known. (
      Msr pe reg value ∷ known.0,
      known.1,
      ap (λ (xs : List Event). Msr pe reg value ∷ xs) known.2,
      known.3,
      known.4,
      known.5,
    ) };
}

impl<'a> Evidence for ByClaims<'a> {
    ghost use Rattle.std.specs.Prelude.{[], refl};
    ghost use Rattle.bbm_rules.specs.Notes.{events_of};
    ghost use Rattle.bbm_claims.specs.TakenByClaims.{HasTaken};

    ghost has_taken = { λ evidence heading notes. HasTaken evidence heading notes };

    fn cleansed(&self, _header: &Header, _log: &[Kept], from: usize, place: Place) -> PeMask {
        known();
        cleansed_since(&self.cleansings, from, place)
    }

    fn is_cleansed(&self, header: &Header, _log: &[Kept], from: usize, place: Place) -> bool {
        known();
        cleansed_since(&self.cleansings, from, place).has_all(header.pe_count())
    }

    fn is_above(&self, header: &Header, _log: &[Kept], from: usize, place: Place) -> bool {
        known();
        cleansed_since(&self.above, from, place).has_all(header.pe_count())
    }

    fn after(
        &self,
        alloc: Global,
        header: &Header,
        log: &[Kept],
        newest: &Kept,
    ) -> Result<ByClaims<'a>, NoMemory> {
        let mut cleansings = copied(alloc, &self.cleansings)?;
        add_completed(header, log, &newest.event, self.claims, &mut cleansings)?;
        let mut above = copied(alloc, &self.above)?;
        add_above(alloc, header, log, &newest.event, self.claims, &mut above)?;
        let tags = tags_after(alloc, header, log, &newest.event, &self.tags, self.claims)?;
        Ok(ByClaims {
            claims: self.claims,
            cleansings,
            tags,
            taken: log.len() + 1,
            above,
        })
    }

    ghost knows_taken = { λ evidence heading notes taken. (
      [],
      events_of notes,
      refl,
      tt,
      taken.1,
      taken.3,
    ) };
}
