//! What an event takes away is alike in histories that are alike.

ghost use Rattle.bbm_events.specs.Heading.{Heading};
ghost use Rattle.bbm_alike.specs.AlikeLaws.{TakenAlike};

use crate::known::known;

/// Where every pattern is trusted in both histories, any event takes away alike; and by any trust an event does that is
/// no DSB. The law is `TakenAlike`.
pub fn law_takes_alike()
    ensures { (heading : Heading) → TakenAlike heading }
{
    known();
}
