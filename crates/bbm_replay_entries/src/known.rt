//! What the crates below prove, gathered for the proofs here.

ghost use Rattle.bbm_events.specs.Heading.{Heading};
ghost use Rattle.bbm_replay_entries.specs.KnownOfEntries.{Known};

use bbm_descriptor::laws::law_core_where_valid;
use bbm_histories::{law_fresh_content, law_held_changes, law_held_step, law_pattern_steps};
use bbm_rules::{law_held, law_last_valid, law_notes_keep_the_events};

/// The laws that the laws here stand on.
pub(crate) fn known()
    ensures { (heading : Heading) → Known heading }
{
    law_core_where_valid();
    law_fresh_content();
    law_held();
    law_held_changes();
    law_held_step();
    law_last_valid();
    law_notes_keep_the_events();
    law_pattern_steps();
}
