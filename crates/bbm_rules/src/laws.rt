//! Laws of the definitions: three of them say the same as a sentence over all ways to split a history, and the
//! annotated history keeps the events.

ghost use Rattle.bbm_events.specs.Heading.{Heading};
ghost use Rattle.bbm_rules.specs.Claims.{Trust};
ghost use Rattle.bbm_rules.specs.BrokenLaws.{NotesKeepEvents};
ghost use Rattle.bbm_rules.specs.EventLaws.{AnsweredBySentence, ReadableBySentence};
ghost use Rattle.bbm_rules.specs.TagLaws.{TagHeldBySentence, TagKeptBySentence, TagLeftBySentence};

/// A value of a place is among the readable ones exactly where the place had it at some moment since the last init of
/// its page, and no write of the place after that moment is published. The law is `ReadableBySentence`.
pub fn law_readable_value()
    ensures { (heading : Heading) → ReadableBySentence heading }
{}

/// A TLBI is among the unanswered ones of a PE exactly where the PE issued it and no DSB of it since completes it. The
/// law is `AnsweredBySentence`.
pub fn law_answered()
    ensures { AnsweredBySentence }
{}

/// A tag is among those that a root holds at a PE exactly where it was readable there for the root at some moment, and
/// after it the root wasn't given up, and no TLBI takes the tag away. The law is `TagHeldBySentence`.
pub fn law_tag_held()
    ensures { (heading : Heading) (trust : Trust) → TagHeldBySentence heading trust }
{}

/// A tag is left by a root that was given up, at a PE, exactly where it was readable there for the root of the page at
/// some moment, the root was given up after it, and no TLBI after it takes the tag away. The law is
/// `TagLeftBySentence`.
pub fn law_tag_left()
    ensures { (heading : Heading) (trust : Trust) → TagLeftBySentence heading trust }
{}

/// A tag is kept for a page at a PE exactly where it was readable there for the root of the page at some moment, and no
/// TLBI after that moment takes it away: so where the root of the page holds it, or one that was given up left it. The
/// page is that of a declared root, or of one that was given up. The law is `TagKeptBySentence`.
pub fn law_tag_kept()
    ensures { (heading : Heading) (trust : Trust) → TagKeptBySentence heading trust }
{}

/// The annotated history is the history: with each event its notes, and no other event. The law is `NotesKeepEvents`.
pub fn law_notes_keep_the_events()
    ensures { (heading : Heading) (trust : Trust) → NotesKeepEvents heading trust }
{}
