//! Why an event isn't taken.

ghost use Rattle.std.specs.Prelude.{◌≡◌};
ghost use Rattle.bbm_replay.specs.ReplayFaults as spec;

use bbm_rules::{Rule, StepFault};
use bbm_tree_index::TreeFault;

/// Why an event isn't taken, by why the index of the trees refuses a call.
pub(crate) fn step_fault(fault: TreeFault) -> StepFault
    ensures { result ≡ spec.step_fault fault }
{
    match fault {
        TreeFault::NoMemory => StepFault::NoMemory,
        TreeFault::Limit(which) => StepFault::Limit(which),
        TreeFault::NotFresh(page) => StepFault::Broken(Rule::NotFresh, page.get()),
        TreeFault::BadKind(place) => StepFault::Broken(Rule::BadKind, place.get()),
        TreeFault::GlobalUser(place) => StepFault::Broken(Rule::GlobalUser, place.get()),
    }
}
