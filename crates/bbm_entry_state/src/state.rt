//! The state of one place, and its four calls.

use crate::marks::Marks;
use crate::pending::Pends;
use bbm_barriers::{Dsb, publishes_to};
use bbm_descriptor::Core;
use bbm_regimes::{Pe, PeCount, PeMask};
use bbm_tlbi_scope::Cover;

/// What TLBs may keep of one place. Source: project's own choice.
#[derive(Clone, Copy)]
pub enum EntryState {
    /// No TLB keeps anything of it: it never had a valid value, or every PE is cleansed of the last one.
    Clean,
    /// It has a valid value.
    Live {
        /// The core of the value.
        core: Core,
    },
    /// It has an invalid value over a core that some TLB may still keep.
    Broken {
        /// How far each PE is cleansed of the core.
        marks: Marks,
    },
}

impl EntryState {
    ghost use Rattle.std.specs.Prelude.{◌≡◌, ◌<◌};
    ghost use Rattle.bbm_entry_state.specs.EntryCalls.{Written, Published, Noted, Completed};

    /// The state of a place that never had a valid value.
    pub fn new() -> EntryState
        ensures { result ≡ EntryState.Clean }
    {
        EntryState::Clean
    }

    /// The state after this PE wrote the place: a value with this core, or an invalid value where it is None.
    /// A valid value makes the place live, whatever it was before. Source: Arm ARM (DDI 0487), "Using
    /// break-before-make when updating translation table entries".
    #[inline(always)]
    pub fn write(self, pe: Pe, new: Option<Core>) -> EntryState
        ensures { Written self pe new result }
    {
        match new {
            Some(core) => EntryState::Live { core },
            None => match self {
                EntryState::Clean => EntryState::Clean,
                EntryState::Live { core } => EntryState::Broken {
                    marks: Marks::broken_by(core, pe),
                },
                EntryState::Broken { marks } => EntryState::Broken {
                    marks: marks.written_by(pe),
                },
            },
        }
    }

    /// The state after a DSB of the issuer published its writes of the place, in a log with `n` PEs.
    /// What the DSB answers is for `complete`. Source: Arm ARM (DDI 0487), "Memory barriers".
    pub fn dsb(self, issuer: Pe, dsb: Dsb, n: PeCount) -> EntryState
        requires issuer_below { issuer < n }
        ensures { Published self issuer dsb n result }
    {
        match self {
            EntryState::Clean => EntryState::Clean,
            EntryState::Live { core } => EntryState::Live { core },
            EntryState::Broken { marks } => {
                let heard = if marks.writers.has(issuer) {
                    publishes_to(dsb, issuer, n)
                } else {
                    PeMask::none()
                };
                EntryState::Broken {
                    marks: marks.published_to(heard),
                }
            }
        }
    }

    /// The pendings of an issuer, given those before, after its TLBI was issued that reaches these PEs, is
    /// broadcast or not, and covers the place so far. Source: Arm ARM (DDI 0487), "TLB maintenance
    /// instructions".
    pub fn tlbi(&self, pends: Pends, reach: PeMask, broadcast: bool, cover: Cover) -> Pends
        ensures { Noted self.now pends reach broadcast cover result }
    {
        match self {
            EntryState::Broken { marks } => pends.with(broadcast, marks.noted(reach, cover)),
            EntryState::Clean | EntryState::Live { .. } => pends,
        }
    }

    /// The state, and the pendings of the issuer, given those before, after a DSB of the issuer answered its
    /// TLBIs, in a log with `n` PEs. A state cleansed at every PE becomes `Clean`. Source: Arm ARM
    /// (DDI 0487), "TLB maintenance instructions".
    pub fn complete(self, pends: Pends, dsb: Dsb, n: PeCount) -> (EntryState, Pends)
        ensures { Completed self pends dsb n result.0 result.1 }
    {
        match self {
            EntryState::Clean => (EntryState::Clean, Pends::none()),
            EntryState::Live { core } => (EntryState::Live { core }, pends.left_by(dsb)),
            EntryState::Broken { marks } => {
                let marks = marks.answered(pends.answered(dsb));
                if marks.is_clean(n) {
                    (EntryState::Clean, Pends::none())
                } else {
                    (EntryState::Broken { marks }, pends.left_by(dsb))
                }
            }
        }
    }
}
