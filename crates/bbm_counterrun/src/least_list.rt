//! The law of the plain conflict run with the least list of reads.

ghost use Rattle.bbm_counterrun.specs.LeastList.{PlansHaveLeastReads};
ghost use Rattle.bbm_events.specs.Heading.{Heading};

use bbm_descriptor::laws::law_same_core_is_equal;
use bbm_histories::law_one_node;
use bbm_rules::{law_held, law_root_pages, law_tree};
use bbm_tlb_machine::{law_fine, law_run};

/// Where a plan's run is a plain conflict run at a write over a leaf, after events that keep the rules, its PE is one
/// of the header, its kind is that of the tree of the place, and the plan with the least reads of the way to the place
/// is plain, too: these come before its own, or are its own. The law is `PlansHaveLeastReads`.
pub fn law_least_reads()
    ensures { (heading : Heading) → PlansHaveLeastReads heading }
{
    law_fine();
    law_held();
    law_one_node();
    law_root_pages();
    law_run();
    law_same_core_is_equal();
    law_tree();
}
