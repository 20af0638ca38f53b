//! The events of a pattern that cleanses a place: which DSB publishes a write of it, and which TLBI an event answers.
//! Source: project's own choice.

ghost use Rattle.std.specs.Prelude.{◌≡◌};
ghost use Rattle.bbm_rules.specs.Cleansing.{writes as is_write};
ghost use Rattle.bbm_rules.specs.Lists.{any};
ghost use Rattle.bbm_claims.specs.Flushes.{is_flush_of};
ghost use Rattle.bbm_certify.specs.Making as spec;

use bbm_barriers::Dsb;
use bbm_claims::marks::{is_answered, issues, same_cover, writes};
use bbm_events::{Event, Header};
use bbm_oracle_patterns::Kept;
use bbm_oracle_tags::{completes, publishes_for, reaches};
use bbm_regimes::{Pe, Place};
use bbm_tlbi_scope::Cover;

/// A place and a PE, since a write of the place. Source: project's own choice.
#[derive(Clone, Copy)]
pub struct Spot {
    /// The place.
    pub place: Place,
    /// The PE.
    pub pe: Pe,
    /// How many events there are up to the last valid write of the place.
    pub before: usize,
}

/// Whether the PE wrote the place in these events.
fn has_written(log: &[Kept], pe: Pe, place: Place) -> bool
    ensures { result ≡ any (λ k. is_write pe place k.event) log.now }
{
    log.iter().any(|kept| writes(&kept.event, pe, place))
}

/// Whether the event, which comes behind these, publishes a write of the place to the PE.
pub fn publishes(header: &Header, event: &Event, before: &[Kept], spot: &Spot) -> bool
    ensures { result ≡ spec.publishes header.now spot.now.place spot.now.pe event.now before.now }
{
    match *event {
        Event::Dsb { pe: issuer, dsb: _ } => {
            publishes_for(header, issuer, spot.pe, event) && has_written(before, issuer, spot.place)
        }
        _ => false,
    }
}

/// Whether the event is a TLBI that reaches the PE and covers the place so far.
pub fn flushes(header: &Header, kept: &Kept, cover: Cover, spot: &Spot) -> bool
    ensures { result ≡ spec.flushes header.now spot.now.place spot.now.pe cover kept.now }
{
    reaches(header, &kept.event, spot.pe) && same_cover(kept.cover(spot.place), cover)
}

/// Whether the event is a TLBI of the issuer that this DSB of it completes, and that reaches the PE and covers the place
/// so far.
fn is_flush(header: &Header, kept: &Kept, issuer: Pe, dsb: Dsb, cover: Cover, spot: &Spot) -> bool
    ensures { result ≡ is_flush_of header.now issuer dsb cover spot.now.place spot.now.pe kept.now }
{
    issues(&kept.event, issuer) && completes(dsb, &kept.event) && flushes(header, kept, cover, spot)
}

/// Whether the event is a TLBI that covers the place in full, or the rest of it.
fn covers_rest(kept: &Kept, place: Place) -> bool
    ensures { result ≡ spec.covers_rest place kept.now }
{
    let cover = kept.cover(place);
    same_cover(cover, Cover::Full) || same_cover(cover, Cover::Second)
}

/// Whether the event is a TLBI of the issuer that this DSB of it completes, and that covers the place in full, or the rest
/// of it.
fn may_finish(kept: &Kept, issuer: Pe, dsb: Dsb, place: Place) -> bool
    ensures { result ≡ spec.may_finish issuer dsb place kept.now }
{
    let event = &kept.event;
    issues(event, issuer) && completes(dsb, event) && covers_rest(kept, place)
}

/// Whether the event is a TLBI that covers the place in full, or the rest of it, whatever PEs it reaches, after which came
/// these events, and then the answer to it.
pub fn finishes(kept: &Kept, later: &[Kept], answer: &Event, place: Place) -> bool
    ensures { result ≡ spec.finishes place answer.now kept.now later.now }
{
    match *answer {
        Event::Dsb { pe: issuer, dsb } => {
            may_finish(kept, issuer, dsb, place) && !is_answered(later, issuer, &kept.event)
        }
        _ => false,
    }
}

/// Whether the event is a TLBI that reaches the PE and covers the place so far, after which came these events, and then
/// the answer to it.
pub fn answers(
    header: &Header,
    kept: &Kept,
    later: &[Kept],
    answer: &Event,
    cover: Cover,
    spot: &Spot,
) -> bool
    ensures { result ≡ spec.answers header.now spot.now.place spot.now.pe cover answer.now kept.now later.now }
{
    match *answer {
        Event::Dsb { pe: issuer, dsb } => {
            is_flush(header, kept, issuer, dsb, cover, spot)
                && !is_answered(later, issuer, &kept.event)
        }
        _ => false,
    }
}
