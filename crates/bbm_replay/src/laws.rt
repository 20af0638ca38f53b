//! What the crates below prove of histories, gathered for the proofs here.

ghost use Rattle.bbm_events.specs.Heading.{Heading};
ghost use Rattle.bbm_replay.specs.ReplayLaws.{Laws};
ghost use Rattle.bbm_replay.specs.ReplayRules.{Rules};

use bbm_descriptor::laws::law_core_where_valid;
use bbm_histories::law_proper;
use bbm_replay_entries::{
    law_entry_alike, law_entry_begins, law_entry_dsb, law_entry_holds, law_entry_stays,
    law_entry_tlbi, law_entry_write,
};
use bbm_replay_trees::judging::{law_judging, law_unattached};
use bbm_replay_trees::nodes::{law_neighbours, law_nodes};
use bbm_replay_trees::pages::{law_fresh_pages, law_pages, law_values};
use bbm_replay_trees::rules::{
    law_limits_of_events, law_page_rules, law_rules_of_events, law_write_rules,
};
use bbm_replay_trees::{law_guards, law_judges_tables};

/// The laws of a history and one event more.
pub(crate) fn laws()
    ensures { (heading : Heading) → Laws heading }
{
    law_core_where_valid();
    law_entry_alike();
    law_entry_begins();
    law_entry_dsb();
    law_entry_holds();
    law_entry_stays();
    law_entry_tlbi();
    law_entry_write();
    law_fresh_pages();
    law_guards();
    law_neighbours();
    law_nodes();
    law_pages();
    law_proper();
    law_unattached();
    law_values();
}

/// The laws of the rules and limits.
pub(crate) fn rules()
    ensures { (heading : Heading) → Rules heading }
{
    law_judges_tables();
    law_judging();
    law_limits_of_events();
    law_page_rules();
    law_rules_of_events();
    law_unattached();
    law_write_rules();
}
