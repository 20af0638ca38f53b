//! Laws of fresh and null pages, of the pages that were ever initialised, and of values.

ghost use Rattle.bbm_events.specs.Heading.{Heading};
ghost use Rattle.bbm_replay_trees.specs.PageLaws.{FreshAfter, PagesAfter, ValuesAfter};

use crate::below::below;

/// The fresh pages after an event that breaks no rule. The law is `FreshAfter`.
pub fn law_fresh_pages()
    ensures { (heading : Heading) → FreshAfter heading }
{
    below();
}

/// The null pages, and the pages that were ever initialised and their number, after an event. The law is `PagesAfter`.
pub fn law_pages()
    ensures { PagesAfter }
{}

/// The value of each place after an event. The law is `ValuesAfter`.
pub fn law_values()
    ensures { ValuesAfter }
{}
