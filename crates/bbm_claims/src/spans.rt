//! Until when tags are readable, as it is kept from event to event, so that no claim of a tag asks the events between
//! its TLBI and its DSB what is readable.

ghost use Rattle.std.specs.Prelude.{◌≡◌, ◌<◌, ◌∷◌, [], ◌&&◌, ◌||◌, ◌==◌, nat_lt, ℕ, length, get_or, true, IfSome, IfOk};
ghost use Rattle.std.specs.Prelude.{OnOk};
ghost use Rattle.bbm_regimes.specs.declared.regime.Tag.{Tag as TheTag};
ghost use Rattle.bbm_rules.specs.Claims.{same_tag as is_same_tag};
ghost use Rattle.bbm_rules.specs.Lists.{any};
ghost use Rattle.bbm_claims.specs.declared.spans.Span.{Span as TheSpan};
ghost use Rattle.bbm_claims.specs.Spans as spec;

use bbm_oracle_tags::Reading;
use bbm_regimes::{NoMemory, Pe, Tag, same_tag};
use bbm_rules::law_equality_tests;
use std::alloc::Global;

/// A tag that was readable at a PE, for some root. Source: project's own choice.
#[derive(Clone, Copy)]
pub struct Span {
    /// The PE.
    pub pe: Pe,
    /// The tag.
    pub tag: Tag,
    /// How many events there are up to the last moment at which it was readable; None where it still is.
    pub until: Option<usize>,
}

/// Whether what ends so goes on after the first events, so many.
fn goes_past(until: Option<usize>, count: usize) -> bool
    ensures { result ≡ spec.goes_past count until }
{
    match until {
        Some(end) => count < end,
        None => true,
    }
}

/// Whether the tag is readable at the PE, or was so at some moment after the first events, so many.
pub fn lasts(spans: &[Span], pe: Pe, tag: Tag, count: usize) -> bool
    ensures is { result ≡ spec.lasts spans.now pe tag count }
    ensures below { pe < 128 }
{
    let number = pe.get();
    spans.iter().any(|span| {
        (span.pe.get() == number && same_tag(span.tag, tag)) && goes_past(span.until, count)
    })
}

/// The span, ended where nothing is readable any more since there were so many events.
fn ended(span: &Span, count: usize) -> Span
    ensures { (p n : ℕ) (tag : TheTag) → spec.is_span p tag n result
        ≡ (spec.is_span p tag n span.now && nat_lt n count) }
{
    let end = match span.until {
        Some(end) => end.min(count),
        None => count,
    };
    Span {
        pe: span.pe,
        tag: span.tag,
        until: Some(end),
    }
}

/// Adds it so.
fn add_ended(next: &mut Vec<Span>, span: &Span, count: usize) -> Result<(), NoMemory>
    ensures { OnOk result ((p n : ℕ) (tag : TheTag) → spec.lasts next.new.items p tag n
        ≡ (spec.lasts next.old.items p tag n || (spec.lasts (span.now ∷ []) p tag n && nat_lt n count))) }
{
    next.push(ended(span, count))?;
    Ok(())
}

/// All of them where nothing is readable any more since there were so many events. `NoMemory` where there is none.
pub fn all_ended(alloc: Global, spans: &[Span], count: usize) -> Result<Vec<Span>, NoMemory>
    ensures { IfOk result (λ next. (p n : ℕ) (tag : TheTag) → spec.lasts next.items p tag n
        ≡ (spec.lasts spans.now p tag n && nat_lt n count)) }
{
    let mut next = Vec::new(alloc);
    for span in spans {
        add_ended(&mut next, span, count)?;
    }
    Ok(next)
}

/// The index of one of the tag at the PE; None where there is none.
fn find(spans: &[Span], pe: Pe, tag: Tag) -> Option<usize>
    ensures { IfSome result (λ i. (i < length spans.now) × ((d : TheSpan) → (get_or spans.now i d).pe ≡ pe)
        × ((d : TheSpan) → is_same_tag (get_or spans.now i d).tag tag ≡ true)) }
{
    spans
        .iter()
        .position(|span| span.pe == pe && same_tag(span.tag, tag))
}

/// Adds that the tag is readable at the PE.
fn show(spans: &mut Vec<Span>, pe: Pe, tag: Tag) -> Result<(), NoMemory>
    ensures { OnOk result ((p n : ℕ) (g : TheTag) → spec.lasts spans.new.items p g n
        ≡ (spec.lasts spans.old.items p g n || (pe == p && is_same_tag tag g))) }
{
    law_equality_tests();
    match find(spans, pe, tag) {
        Some(i) => {
            spans[i].until = None;
            Ok(())
        }
        None => {
            let until = None;
            spans.push(Span { pe, tag, until })?;
            Ok(())
        }
    }
}

/// Adds what is readable at the PE. `NoMemory` where there is none.
pub fn show_all(spans: &mut Vec<Span>, pe: Pe, readings: &[Reading]) -> Result<(), NoMemory>
    ensures { OnOk result ((p n : ℕ) (g : TheTag) → spec.lasts spans.new.items p g n
        ≡ (spec.lasts spans.old.items p g n
        || (pe == p && any (λ r. is_same_tag r.tag g) readings.now))) }
{
    for reading in readings {
        show(spans, pe, reading.tag)?;
    }
    Ok(())
}

/// A copy. `NoMemory` where there is none.
pub fn spans_copied(alloc: Global, spans: &[Span]) -> Result<Vec<Span>, NoMemory>
    ensures { IfOk result (λ copy. copy.items ≡ spans.now) }
{
    let copy = spans.to_vec(alloc)?;
    Ok(copy)
}
