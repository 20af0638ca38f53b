//! What the parts tell of places.

ghost use Rattle.std.specs.Prelude.{◌≡◌, ◌≤◌, List};
ghost use Rattle.bbm_events.specs.Heading.{Heading};
ghost use Rattle.bbm_events.specs.declared.event.Event.{Event};
ghost use Rattle.bbm_replay_entries.specs.EntryPhases.{phase_in};
ghost use Rattle.bbm_rules.specs.Answers.{MayAsk};
ghost use Rattle.bbm_rules.specs.Claims.{Patterns};
ghost use Rattle.bbm_rules.specs.Phases as rules;
ghost use Rattle.bbm_replay.specs.ReplayStanding.{PartsStand};
ghost use Rattle.bbm_replay.specs.ReplayTold.{state_of, view_of};
ghost use Rattle.bbm_entry_state.specs.declared.state.EntryState.{EntryState as TheState};

use crate::laws::laws;
use crate::parts::ReplayState;
use bbm_entry_state::{EntryState, Marks};
use bbm_regimes::{Pe, Place};
use bbm_replay_entries::law_entry_phase;
use bbm_replay_trees::law_restless_places;
use bbm_rules::Phase;
use bbm_tree_index::Path;

/// How far the PE has come with a broken place.
fn phase_of_marks(marks: &Marks, pe: Pe) -> Phase
    ensures { result ≡ phase_in (TheState.Broken marks.now) pe }
{
    if marks.clean.has(pe) {
        Phase::Cleansed
    } else if marks.half.has(pe) {
        Phase::Half
    } else if marks.seen.has(pe) {
        Phase::Seen
    } else {
        Phase::Broken
    }
}

/// How far the PE has come with a place of this state.
fn phase_of_state(state: &EntryState, pe: Pe) -> Phase
    ensures { result ≡ phase_in state.now pe }
{
    match state {
        EntryState::Clean => Phase::Clean,
        EntryState::Live { .. } => Phase::Live,
        EntryState::Broken { marks } => phase_of_marks(marks, pe),
    }
}

impl ReplayState {
    /// The state of a place of a tree.
    pub(crate) fn state_at(&self, place: Place, path: &Path) -> EntryState
        ensures { result ≡ state_of (view_of self.now.map self.now.index) path.now.kind path.now.level place }
    {
        self.map.state_by(place, path.kind, path.level)
    }

    /// How far the place has been taken through break-before-make at the PE.
    pub(crate) fn phase(&self, place: Place, pe: Pe) -> Phase
        requires { MayAsk (PartsStand self.now) pe }
        ensures { (heading : Heading) (h : List Event) → PartsStand self.now heading h
            → result ≡ rules.phase_of heading Patterns h place pe }
    {
        laws();
        law_entry_phase();
        let Some(position) = self.map.position(place) else {
            return Phase::Clean;
        };
        match self.index.path(&position) {
            Some(path) => phase_of_state(&self.state_at(place, &path), pe),
            None => Phase::Clean,
        }
    }

    /// The number of places of trees that hold a value and whose value is invalid.
    pub(crate) fn restless(&self) -> u64
        ensures { (heading : Heading) (h : List Event) → PartsStand self.now heading h
            → result ≡ rules.restless_of heading Patterns h }
    {
        law_entry_phase();
        law_restless_places();
        self.map.restless()
    }
}
