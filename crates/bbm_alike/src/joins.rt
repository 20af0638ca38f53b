//! The relation joins histories: it holds at the start, of each and itself, both ways, and through a third.

ghost use Rattle.bbm_events.specs.Heading.{Heading};
ghost use Rattle.bbm_alike.specs.AlikeLaws.{AlikeJoins};

/// Before the first event all is alike, by any two trusts. The law is `AlikeJoins`.
pub fn law_alike_joins()
    ensures { (heading : Heading) → AlikeJoins heading }
{}
