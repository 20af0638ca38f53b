//! Searches among the entries of the roots that hold tags.

ghost use Rattle.std.specs.Prelude.{◌≡◌, ℕ, Bool, ◌&&◌, ◌||◌, nat_eq, not, true, false, Option, Some, None, IfSome};
ghost use Rattle.std.specs.Prelude.{is_some};
ghost use Rattle.indexmap.specs.IndexMap.{get};
ghost use Rattle.bbm_regimes.specs.declared.regime.Tag.{Tag as TheTag};
ghost use Rattle.bbm_tlbi_scope.specs.TagSets.{HasTags};
ghost use Rattle.bbm_roots.specs.declared.reading.Reading.{Reading as TheReading};
ghost use Rattle.bbm_roots.specs.Holds as spec;
ghost use Rattle.bbm_roots.specs.Readings.{is_reading, has_other as spec_has_other};
ghost use Rattle.bbm_roots.specs.Readings.{same_tag as spec_same_tag};
ghost use Rattle.bbm_roots.specs.RootRegisters.{is_that};
ghost use Rattle.bbm_roots.specs.LeastOf.{IsLeast, IsLeastWith, ReadingUpTo};
ghost use Rattle.bbm_roots.specs.TagsByRoot.{AreListed};

use crate::by_root::{ByRoot, Tags};
use crate::hold::{Held, Holds, some_pe};
use crate::reading::{Reading, has_other, tag_rank};
use crate::tag_key::TagKey;
use bbm_regimes::{Page, PeCount, Tag};
use bbm_tlbi_scope::{TagSet, with_tag};

/// Whether the first comes no later than the second: by the root's first page, then by the tag.
fn is_up_to(tag: Tag, root: Page, other: Tag, page: Page) -> bool
    ensures yes { result ≡ true
        → ReadingUpTo (record { tag = tag; root = root }) (record { tag = other; root = page }) }
    ensures no { result ≡ false
        → ReadingUpTo (record { tag = other; root = page }) (record { tag = tag; root = root }) }
{
    if root == page {
        tag_rank(tag) <= tag_rank(other)
    } else {
        root.get() < page.get()
    }
}

/// The least, where the tag and the root are one more candidate.
fn lesser(least: Option<Reading>, tag: Tag, root: Page) -> Option<Reading>
    ensures { IsLeastWith ReadingUpTo (λ x. spec_same_tag tag x.tag && nat_eq root x.root) least result }
{
    match least {
        Some(best) => {
            if is_up_to(best.tag, best.root, tag, root) {
                Some(best)
            } else {
                Some(Reading { tag, root })
            }
        }
        None => Some(Reading { tag, root }),
    }
}

/// The root that keeps the tag at one of the first n PEs: another than this that holds it, or one that left it.
fn keeper_of(holds: &Holds, n: PeCount, tag: Tag, root: Page) -> Option<Page>
    ensures { (r : ℕ) → ((not (nat_eq root r) && spec.tag_in holds.now n tag r) || spec.kept_tag holds.now true n tag r)
        ≡ is_that result r }
{
    match holds.get(&TagKey::new(tag)) {
        Some(held) => {
            if (held.left || held.root != root) && some_pe(held.pes, n) {
                Some(held.root)
            } else {
                None
            }
        }
        None => None,
    }
}

/// The least, where the tag is one more candidate for another root that holds it, or one that left it.
fn with_keeper(
    least: Option<Reading>,
    holds: &Holds,
    n: PeCount,
    reading: &Reading,
) -> Option<Reading>
    ensures { IsLeastWith ReadingUpTo (λ x. spec.keeps_other holds.now n reading.now x) least result }
{
    match keeper_of(holds, n, reading.tag, reading.root) {
        Some(root) => lesser(least, reading.tag, root),
        None => least,
    }
}

/// The least, where the reading is one more candidate, if its tag is about to be readable for another root.
fn with_reading(least: Option<Reading>, seen: &[Reading], reading: &Reading) -> Option<Reading>
    ensures { IsLeastWith ReadingUpTo (λ x. is_reading x.tag x.root reading.now && spec_has_other x.tag x.root seen.now)
        least result }
{
    if has_other(seen, reading.tag, reading.root) {
        lesser(least, reading.tag, reading.root)
    } else {
        least
    }
}

/// The least, with what the reading shows.
fn with_clash(
    least: Option<Reading>,
    holds: &Holds,
    n: PeCount,
    seen: &[Reading],
    reading: &Reading,
) -> Option<Reading>
    ensures { IsLeastWith ReadingUpTo (λ x. spec.is_clash holds.now n seen.now x reading.now) least result }
{
    with_keeper(with_reading(least, seen, reading), holds, n, reading)
}

/// The least root and tag in conflict: by the root's first page, then by the tag. None where there is none.
pub fn least_conflict(holds: &Holds, n: PeCount, seen: &[Reading]) -> Option<Reading>
    ensures { IsLeast ReadingUpTo (spec.conflict_in holds.now n seen.now) result }
{
    let mut least = None;
    for reading in seen {
        least = with_clash(least, holds, n, seen, reading);
    }
    least
}

/// How many tags may be held for all of them to be looked at, and not those of a root alone. Source: project's own
/// choice.
const FEW: usize = 8;

/// Whether the entry is that of the root, which holds the tag at one of the first n PEs.
fn is_held_somewhere(held: &Held, n: PeCount, root: Page) -> bool
    ensures { result ≡ spec.is_kept_somewhere false n root held.now }
{
    held.is_hold(root) && some_pe(held.pes, n)
}

/// The set with the tag of the entry under this key, where the root holds it at one of the first n PEs; None where it
/// doesn't.
fn with_entry(set: TagSet, key: TagKey, held: &Held, n: PeCount, root: Page) -> Option<TagSet>
    ensures added { IfSome result (λ more. (test : TheTag → Bool) → HasTags test set
        → HasTags (λ g. test g || spec.is_held_under n g root key held.now) more) }
    ensures none { result ≡ None → (g : TheTag) → spec.is_held_under n g root key held.now ≡ false }
{
    if is_held_somewhere(held, n, root) {
        Some(with_tag(set, key.tag()))
    } else {
        None
    }
}

/// Whether there is more than one tag.
fn is_many(set: TagSet) -> bool
    ensures { result ≡ true → set ≡ TagSet.Many }
{
    matches!(set, TagSet::Many)
}

/// The tags that the root holds at one of the first n PEs. It stops where it has found two.
fn tags_in(holds: &Holds, n: PeCount, root: Page) -> TagSet
    ensures { HasTags (λ g. spec.tag_in holds.now n g root) result }
{
    let mut tags = TagSet::None;
    for index in 0..holds.len() {
        if let Some((key, held)) = holds.get_index(index) {
            if let Some(more) = with_entry(tags, *key, held, n, root) {
                if is_many(more) {
                    return TagSet::Many;
                }
                tags = more;
            }
        }
    }
    tags
}

/// The set with the tag with this key, where the root holds it at one of the first n PEs; None where it doesn't.
fn with_key(set: TagSet, holds: &Holds, key: TagKey, n: PeCount, root: Page) -> Option<TagSet>
    ensures added { IfSome result (λ more. (test : TheTag → Bool) → HasTags test set
        → HasTags (λ g. test g || (nat_eq (spec.tag_key g) key && spec.tag_in holds.now n g root)) more) }
    ensures none { result ≡ None → (g : TheTag) → (nat_eq (spec.tag_key g) key && spec.tag_in holds.now n g root)
        ≡ false }
{
    match holds.get(&key) {
        Some(held) => with_entry(set, key, held, n, root),
        None => None,
    }
}

/// The tags that the root holds at one of the first n PEs, each of which is one of these. It stops where it has found
/// two.
fn tags_among(tags: &Tags, holds: &Holds, n: PeCount, root: Page) -> TagSet
    requires { (g : TheTag) → spec.tag_in holds.now n g root ≡ true → is_some (get nat_eq tags.now (spec.tag_key g))
        ≡ true }
    ensures { HasTags (λ g. spec.tag_in holds.now n g root) result }
{
    let mut found = TagSet::None;
    for index in 0..tags.len() {
        if let Some((key, _tag)) = tags.get_index(index) {
            if let Some(more) = with_key(found, holds, *key, n, root) {
                if is_many(more) {
                    return TagSet::Many;
                }
                found = more;
            }
        }
    }
    found
}

/// The tags that the root holds at one of the first n PEs. Where more than a few are held, those that the root may hold
/// are looked at alone.
pub fn tags_of(holds: &Holds, by_root: &ByRoot, n: PeCount, root: Page) -> TagSet
    requires { AreListed holds.now by_root.now }
    ensures { HasTags (λ g. spec.tag_in holds.now n g root) result }
{
    if holds.len() <= FEW {
        return tags_in(holds, n, root);
    }
    match by_root.get(&root.get()) {
        Some(tags) => tags_among(tags, holds, n, root),
        None => TagSet::None,
    }
}
