//! Sources of bytes: the trait, and two sources in memory.

ghost use Rattle.std.specs.Prelude.{◌≡◌, ℕ, ◌+◌, ◌-◌, ◌^◌, ◌<◌, ◌≤◌, ◌⊎◌, List, [], ◌++◌, if◌then◌else◌, length, take};
ghost use Rattle.std.specs.Prelude.{drop, min, false, is_err, IfOk, OnErr, Option, Some, Ok, vec_len};
ghost use Rattle.bbm_io.specs.Faults.{CountsFaults};
ghost use Rattle.bbm_io.specs.Flow.{preceded, AtEnd, IsAllOf, TellsMore};
ghost use Rattle.bbm_io.specs.Memory.{fails_next};

use std::marker::Model;

/// A read or a write failed. What came of it stands at the call that answers this.
#[derive(Clone, Copy, PartialEq, Eq)]
pub struct Failed;

/// Where bytes come from. `left` is the bytes still to come, where the source tells them, `at_hand` those
/// of them that it has read ahead, `room` how many it has at hand at most, and `faults` a count that never
/// falls. Source: project's own choice.
pub trait Source {
    ghost left: { Self → Option (List ℕ) };

    ghost at_hand: { Self → List ℕ };

    ghost room: { Self → ℕ };

    ghost faults: { Self → ℕ };

    /// Puts the next bytes at the front of `buf` and answers how many, at most its length. None for a
    /// `buf` that isn't empty means that nothing is left. `Failed` comes only where the count of faults
    /// rose, or stands at 2^64 - 1, and then what is left is as before. Where it doesn't come the count stays.
    fn read(&mut self, buf: &mut [u8]) -> Result<usize, Failed>
        ensures bound { IfOk result (λ n. n ≤ length buf.new) }
        ensures bytes { IfOk result (λ n. left self.old ≡ preceded (take n buf.new) (left self.new)) }
        ensures end { result ≡ Ok 0 → 0 < length buf.new → AtEnd (left self.new) }
        ensures unread { OnErr result (left self.new ≡ left self.old) }
        ensures fault_count { CountsFaults result (faults self.old) (faults self.new) };

    /// The bytes that were read ahead and not yet taken, the next one first.
    fn ahead(&self) -> &[u8]
        ensures { result.now ≡ at_hand self.now };

    /// Takes this many of the bytes at hand.
    fn consume(&mut self, count: usize)
        requires { count ≤ length (at_hand self.old) }
        ensures bytes { left self.old ≡ preceded (take count (at_hand self.old)) (left self.new) }
        ensures rest { at_hand self.new ≡ drop count (at_hand self.old) }
        ensures sound { faults self.new ≡ faults self.old };

    /// Reads further bytes ahead, behind those at hand, and takes none. Answers whether there are more at
    /// hand now; no comes only where there is no room for more, or nothing more is left. `Failed` comes only
    /// where the count of faults rose, or stands at 2^64 - 1, and then what is at hand is as before. Where it
    /// doesn't come the count stays.
    fn more(&mut self) -> Result<bool, Failed>
        ensures untaken { left self.new ≡ left self.old }
        ensures behind { (further : List ℕ) × (at_hand self.new ≡ at_hand self.old ++ further) }
        ensures told { TellsMore result (at_hand self.old) (at_hand self.new) }
        ensures end { result ≡ Ok false
            → (room self.old ≤ length (at_hand self.old)) ⊎ IsAllOf (at_hand self.new) (left self.new) }
        ensures fault_count { CountsFaults result (faults self.old) (faults self.new) };
}

/// A source over memory whose calls never fail: its count of faults is 0. It tells what is left, and has
/// all of it at hand. A clause sees the bytes that are left.
#[derive(Drop)]
pub struct CleanSource {
    bytes: Vec<u8>,
    at: usize,
}

impl Model for CleanSource {
    ghost Value = { List ℕ };

    ghost view = { λ s. drop s.at s.bytes.items };

    ghost invariant = { (λ s. s.at ≤ vec_len s.bytes) };
}

impl CleanSource {
    /// A source of these bytes.
    pub fn new(bytes: Vec<u8>) -> CleanSource
        ensures { result ≡ bytes.items }
    {
        CleanSource { bytes, at: 0 }
    }
}

/// Copies as many bytes as fit to the front of `buf`, and answers how many.
pub(crate) fn copy_front(bytes: &[u8], buf: &mut [u8]) -> usize
    ensures count { result ≡ min (length bytes.now) (length buf.old) }
    ensures front { take result buf.new ≡ take result bytes.now }
{
    let count = bytes.len().min(buf.len());
    buf[..count].copy_from_slice(&bytes[..count]);
    count
}

impl Source for CleanSource {
    ghost left = { λ s. Some s };

    ghost at_hand = { λ s. s };

    ghost room = { λ s. length s };

    ghost faults = { λ _. 0 };

    fn read(&mut self, buf: &mut [u8]) -> Result<usize, Failed>
        ensures count { result ≡ Ok (min (length self.old) (length buf.new)) }
        ensures bytes { self.old ≡ take (min (length self.old) (length buf.new)) buf.new ++ self.new }
    {
        let count = copy_front(&self.bytes[self.at..], buf);
        self.at += count;
        Ok(count)
    }

    fn ahead(&self) -> &[u8] {
        &self.bytes[self.at..]
    }

    #[tactic(auto, using(crate::proofs::Flow::memory))]
    fn consume(&mut self, count: usize) {
        self.at += count;
    }

    fn more(&mut self) -> Result<bool, Failed> {
        Ok(false)
    }
}

/// Counts one more call, and answers whether it is one of those that fail.
pub(crate) fn next_fails(calls: &mut u64, fails: &[u64]) -> bool
    ensures fails { result ≡ fails_next fails.now calls.old }
    ensures calls { calls.new ≡ min (calls.old + 1) (2 ^ 64 - 1) }
{
    let Some(number) = calls.checked_add(1) else {
        return false;
    };
    *calls = number;
    fails.contains(&number)
}

/// A source over memory, some of whose calls of `read` fail. It tells what is left, and has nothing at hand.
/// A clause sees its `SourceState`.
#[derive(Drop)]
pub struct MemSource {
    bytes: Vec<u8>,
    at: usize,
    fails: Vec<u64>,
    calls: u64,
    faults: u64,
}

impl Model for MemSource {
    ghost use Rattle.std.specs.Prelude.{◌≤◌, drop, vec_len};
    ghost use Rattle.bbm_io.specs.Memory.{SourceState};

    ghost Value = { SourceState };

    ghost view = { λ s. record {
      left = drop s.at s.bytes.items;
      fails = s.fails.items;
      calls = s.calls;
      faults = s.faults;
    } };

    ghost invariant = { (λ s. (s.at ≤ vec_len s.bytes) × (s.faults ≤ s.calls)) };
}

impl MemSource {
    /// A source of these bytes whose calls with these numbers, counted from 1, fail. No other call of
    /// it fails. Its count of faults is 0.
    pub fn new(bytes: Vec<u8>, fails: Vec<u64>) -> MemSource
        ensures { result ≡ record { left = bytes.items; fails = fails.items; calls = 0; faults = 0 } }
    {
        MemSource {
            bytes,
            at: 0,
            fails,
            calls: 0,
            faults: 0,
        }
    }
}

impl Source for MemSource {
    ghost left = { λ s. Some s.left };

    ghost at_hand = { λ _. [] };

    ghost room = { λ _. 0 };

    ghost faults = { λ s. s.faults };

    fn read(&mut self, buf: &mut [u8]) -> Result<usize, Failed>
        ensures fails { is_err result ≡ fails_next self.old.fails self.old.calls }
        ensures count { IfOk result (λ n. n ≡ min (length self.old.left) (length buf.new)) }
        ensures bytes { IfOk result (λ n. self.old.left ≡ take n buf.new ++ self.new.left) }
        ensures unread { OnErr result (self.new.left ≡ self.old.left) }
        ensures faults { self.new.faults ≡ (if is_err result then self.old.faults + 1 else self.old.faults) }
        ensures calls { self.new.calls ≡ min (self.old.calls + 1) (2 ^ 64 - 1) }
        ensures listed { self.new.fails ≡ self.old.fails }
    {
        if next_fails(&mut self.calls, &self.fails) {
            self.faults += 1;
            return Err(Failed);
        }
        let count = copy_front(&self.bytes[self.at..], buf);
        self.at += count;
        Ok(count)
    }

    fn ahead(&self) -> &[u8] {
        &[]
    }

    fn consume(&mut self, _count: usize) {}

    fn more(&mut self) -> Result<bool, Failed> {
        Ok(false)
    }
}
