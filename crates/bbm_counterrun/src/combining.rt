//! Where the entry of a walk is combined, if it is.

ghost use Rattle.std.specs.Prelude.{◌≡◌, ℕ, ◌<◌, ◌≤◌, ◌&&◌, true, false, length, IfOk};
ghost use Rattle.bbm_counterrun.specs.TlbiAnswers.{forbids_by};
ghost use Rattle.bbm_counterrun.specs.Searching as spec;
ghost use Rattle.bbm_counterrun.specs.Plans.{combine_within};
ghost use Rattle.bbm_tlb_machine.specs.Step.{combined, is_stage2};

use crate::answers::{Answer, is_forbidden};
use crate::search::Search;
use bbm_regimes::NoMemory;
use bbm_tlb_machine::{Entry, combine, must_leave};

/// How many events come before the write.
fn count_of(search: &Search) -> u64
    ensures { result ≡ length search.now.events.now }
{
    search.events.len() as u64
}

/// Whether the answer forbids the combined entry.
fn blocks(search: &Search, answer: &Answer, joined: &Entry) -> bool
    ensures { result ≡ forbids_by search.now.header.now joined.now.joined (length search.now.events.now) joined.now
        answer.now }
{
    joined.joined <= answer.before
        && answer.before < count_of(search)
        && must_leave(search.header, &answer.tlbi, joined)
}

/// The combined entry, from where it is joined now on to where the answer doesn't forbid it.
#[tactic(auto, using(crate::proofs::JoinSteps::passing))]
fn pass(search: &Search, answer: &Answer, entry: &Entry, joined: Entry) -> Entry
    requires { joined ≡ combined joined.joined entry.now }
    ensures joined { result ≡ combined result.joined entry.now }
    ensures later { joined.joined ≤ result.joined }
    ensures free { spec.blocks search.now.header.now (length search.now.events.now) entry.now result.joined answer.now
        ≡ false }
    ensures first { (m : ℕ) → joined.joined ≤ m → m < result.joined
        → spec.blocks search.now.header.now (length search.now.events.now) entry.now m answer.now ≡ true }
{
    let mut joined = joined;
    let from = joined.joined;
    for n in from..count_of(search) {
        joined.joined = n;
        if !blocks(search, answer, &joined) {
            return joined;
        }
    }
    joined.joined = from.max(count_of(search));
    joined
}

/// The combined entry, from where it is joined now on to where no answer forbids it.
#[tactic(auto, using(crate::proofs::JoinSteps::clearing))]
fn clear(search: &Search, entry: &Entry, joined: Entry) -> Entry
    requires { joined ≡ combined joined.joined entry.now }
    ensures joined { result ≡ combined result.joined entry.now }
    ensures later { joined.joined ≤ result.joined }
    ensures free { spec.forbidden_by search.now.header.now search.now.answers.now result.joined
        (length search.now.events.now) (combined result.joined entry.now) ≡ false }
    ensures first { (m : ℕ) → joined.joined ≤ m → m < result.joined
        → spec.forbidden_by search.now.header.now search.now.answers.now m (length search.now.events.now)
        (combined m entry.now) ≡ true }
{
    let mut joined = joined;
    for answer in search.answers {
        joined = pass(search, answer, entry, joined);
    }
    joined
}

/// The first moment at which the entry can be combined so that it outlives all answers, None where there is none.
#[tactic(auto, using(crate::proofs::JoinSteps::joining))]
fn first_join(search: &Search, entry: &Entry, joined: Entry, from: u64) -> Option<u64>
    requires within { from ≤ length search.now.events.now }
    requires joined { joined ≡ combined joined.joined entry.now }
    ensures { spec.FirstIn
        (spec.joins search.now.header.now search.now.answers.now entry.now from (length search.now.events.now))
        from (length search.now.events.now) result }
{
    let mut joined = joined;
    joined.joined = from;
    let n = clear(search, entry, joined).joined;
    if is_forbidden(search.header, search.answers, entry, from, n) {
        None
    } else {
        Some(n)
    }
}

/// Where a stage 2 entry is combined first, so that it outlives all answers.
fn join_first(search: &Search, entry: &Entry, from: u64) -> Result<Option<u64>, NoMemory>
    requires within { from ≤ length search.now.events.now }
    ensures { IfOk result (λ found. spec.FirstIn (λ n. is_stage2 entry.now.kind
        && spec.joins search.now.header.now search.now.answers.now entry.now from (length search.now.events.now) n)
        from (length search.now.events.now) found) }
{
    match combine(search.alloc, search.events, entry)? {
        Some(joined) => Ok(first_join(search, entry, joined, from)),
        None => Ok(None),
    }
}

/// How the entry outlives all answers from the start on: as it is, or else combined as early as it can be. None where
/// it doesn't. `NoMemory` where there is none.
#[tactic(auto, using(crate::proofs::SearchCode::choices))]
pub fn choose(search: &Search, entry: &Entry, from: u64) -> Result<Option<Option<u64>>, NoMemory>
    requires within { from ≤ length search.now.events.now }
    ensures { IfOk result (λ found. spec.FirstCombine (λ o. combine_within from (length search.now.events.now) o
        && spec.outlives_by search.now.header.now search.now.answers.now entry.now from
        (length search.now.events.now) o) found) }
{
    if !is_forbidden(search.header, search.answers, entry, from, count_of(search)) {
        return Ok(Some(None));
    }
    match join_first(search, entry, from)? {
        Some(n) => Ok(Some(Some(n))),
        None => Ok(None),
    }
}
