//! Laws of the machine: what computes says the same as the sentences.

ghost use Rattle.bbm_tlb_machine.specs.MachineLaws.{ConflictsAreTested, RunsAreFollowed};

use bbm_rules::law_equality_tests;

/// A list of steps is a run to a state exactly where following it comes to that state, one step after the
/// other; and following it stops exactly at the first step that leads nowhere. The law is `RunsAreFollowed`.
pub fn law_run()
    ensures { RunsAreFollowed }
{}

/// A log is safe exactly where in no run over it the test for a conflict finds one at the next event. A step is the
/// first at which a clause fails exactly where that test first finds one there. The law is `ConflictsAreTested`.
pub fn law_conflict()
    ensures { ConflictsAreTested }
{
    law_equality_tests();
}
