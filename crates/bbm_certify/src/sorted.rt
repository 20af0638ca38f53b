//! The claims of one event in their order.
//! Source: project's own choice.

ghost use Rattle.std.specs.Prelude.{◌≡◌, ◌≤◌, ◌+◌, ◌∷◌, ◌++◌, true, false, List, insert, length, OnOk};
ghost use Rattle.bbm_events.specs.declared.claim.Claim.{Claim as TheClaim};
ghost use Rattle.bbm_certify.specs.LeastClaims as spec;
ghost use Rattle.bbm_certify.specs.Orders.{Adds, key_list, tag_keys};

use bbm_events::Claim;
use bbm_regimes::{NoMemory, Tag};

/// What the claims of one event are ordered by.
#[derive(Clone, Copy)]
pub struct Key {
    /// 0 of a place, 1 of a tag.
    pub sort: u64,
    /// The place, or the sort of the tag.
    pub first: u64,
    /// 0 of a place, the number of a tag.
    pub second: u64,
    /// The PE.
    pub pe: u64,
}

/// What the claim of a tag is ordered by.
#[derive(Clone, Copy)]
pub struct TagKey {
    /// Its sort.
    pub sort: u64,
    /// Its number, 0 where it has none.
    pub number: u64,
}

/// What a tag is ordered by.
fn key_of_tag(tag: Tag) -> TagKey
    ensures { tag_keys result ≡ spec.tag_key tag }
{
    match tag {
        Tag::El2 => TagKey { sort: 0, number: 0 },
        Tag::Vmid(number) => TagKey {
            sort: 1,
            number: number as u64,
        },
        Tag::Asid(number) => TagKey {
            sort: 2,
            number: number as u64,
        },
        Tag::Ttbr1 => TagKey { sort: 3, number: 0 },
    }
}

/// What a claim is ordered by.
fn key_of(claim: &Claim) -> Key
    ensures { key_list result ≡ spec.claim_key claim.now }
{
    match *claim {
        Claim::Place { pe, place, .. } | Claim::Two { pe, place, .. } => Key {
            sort: 0,
            first: place.get(),
            second: 0,
            pe: pe.get() as u64,
        },
        Claim::Taken { pe, tag, .. } => {
            let key = key_of_tag(tag);
            Key {
                sort: 1,
                first: key.sort,
                second: key.number,
                pe: pe.get() as u64,
            }
        }
    }
}

/// Whether the key is less.
fn is_less(one: &Key, other: &Key) -> bool
    ensures { result ≡ spec.less (key_list one.now) (key_list other.now) }
{
    one.sort < other.sort
        || (one.sort == other.sort
            && (one.first < other.first
                || (one.first == other.first
                    && (one.second < other.second
                        || (one.second == other.second && one.pe < other.pe)))))
}

/// Whether the claim comes before the other one.
fn comes_before(claim: &Claim, other: &Claim) -> bool
    ensures { result ≡ spec.less (spec.claim_key claim.now) (spec.claim_key other.now) }
{
    is_less(&key_of(claim), &key_of(other))
}

/// How many of the claims, which stand in their order, come before this one. It goes back from the last.
fn count_before(claims: &[Claim], claim: &Claim) -> usize
    ensures within { result ≤ length claims.now }
    ensures last { (before after : List TheClaim) (x : TheClaim) → claims.now ≡ before ++ x ∷ after →
        length before + 1 ≡ result → spec.less (spec.claim_key x) (spec.claim_key claim.now) ≡ true }
    ensures above { (before after : List TheClaim) (x : TheClaim) → claims.now ≡ before ++ x ∷ after →
        result ≤ length before → spec.less (spec.claim_key x) (spec.claim_key claim.now) ≡ false }
{
    let mut count = claims.len();
    while count > 0 {
        if comes_before(&claims[count - 1], claim) {
            return count;
        }
        count -= 1;
    }
    0
}

/// Puts the claim behind so many others.
fn put(claims: &mut Vec<Claim>, count: usize, claim: &Claim) -> Result<(), NoMemory>
    requires { count ≤ length claims.old.items }
    ensures { OnOk result (claims.new.items ≡ insert claims.old.items count claim.now) }
{
    match claims.insert(count, *claim) {
        Ok(()) => Ok(()),
        Err(_) => Err(NoMemory),
    }
}

/// Adds the claim in its place, unless one of the same place or tag and PE is there. `NoMemory` where there is none.
pub fn add_claim(claims: &mut Vec<Claim>, claim: &Claim) -> Result<(), NoMemory>
    ensures { OnOk result (Adds (λ x. x ≡ claim.now) claims.old.items claims.new.items) }
{
    let count = count_before(claims, claim);
    if count >= claims.len() {
        return put(claims, count, claim);
    }
    if comes_before(claim, &claims[count]) {
        return put(claims, count, claim);
    }
    Ok(())
}
