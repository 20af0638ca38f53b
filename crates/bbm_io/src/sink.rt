//! Sinks of bytes: the trait, two sinks in memory, and writing a whole piece.

ghost use Rattle.std.specs.Prelude.{◌≡◌, ℕ, ◌+◌, ◌-◌, ◌^◌, ◌<◌, ◌≤◌, ◌||◌, ◌&&◌, List, [], ◌++◌, if◌then◌else◌, length};
ghost use Rattle.std.specs.Prelude.{take, min, nat_lt, nat_le, is_err, IsOk, IfOk, OnOk, OnErr, Option, None, Some, Ok};
ghost use Rattle.std.specs.Prelude.{vec_len, vec_capacity};
ghost use Rattle.bbm_io.specs.Faults.{CountsFaults, Rose};
ghost use Rattle.bbm_io.specs.Flow.{extended};
ghost use Rattle.bbm_io.specs.Memory.{fails_next};

use crate::source::{Failed, next_fails};
use std::marker::Model;

/// Where bytes go to. `held` is the bytes taken, where the sink tells them, and `faults` is a count
/// that never falls. Source: project's own choice.
pub trait Sink {
    ghost held: { Self → Option (List ℕ) };

    ghost faults: { Self → ℕ };

    /// Takes the first bytes of `piece` and answers how many: at least one where `piece` isn't empty.
    /// `Failed` comes only where the count of faults rose, or stands at 2^64 - 1, and then nothing was
    /// taken. Where it doesn't come the count stays.
    fn write(&mut self, piece: &[u8]) -> Result<usize, Failed>
        ensures bound { IfOk result (λ n. n ≤ length piece.now) }
        ensures some { 0 < length piece.now → IfOk result (λ n. 1 ≤ n) }
        ensures bytes { IfOk result (λ n. held self.new ≡ extended (held self.old) (take n piece.now)) }
        ensures untaken { OnErr result (held self.new ≡ held self.old) }
        ensures fault_count { CountsFaults result (faults self.old) (faults self.new) };
}

/// A sink that takes each piece whole and keeps none of it. Its calls never fail: its count of faults
/// is 0. It tells nothing of what it took.
#[derive(Drop)]
pub struct CleanSink;

impl CleanSink {
    /// A sink that has taken nothing. Its count of faults is 0.
    pub fn new() -> CleanSink
        ensures { ⟦<CleanSink as Sink>⟧.faults result ≡ 0 }
    {
        CleanSink
    }
}

impl Sink for CleanSink {
    ghost held = { λ _. None };

    ghost faults = { λ _. 0 };

    fn write(&mut self, piece: &[u8]) -> Result<usize, Failed>
        ensures whole { result ≡ Ok (length piece.now) }
    {
        Ok(piece.len())
    }
}

/// A sink over memory, whose room is the capacity of its vector, and some of whose calls fail. It tells
/// what it took. A clause sees its `SinkState`.
#[derive(Drop)]
pub struct MemSink {
    bytes: Vec<u8>,
    room: usize,
    fails: Vec<u64>,
    calls: u64,
    faults: u64,
}

impl Model for MemSink {
    ghost use Rattle.std.specs.Prelude.{◌≤◌, vec_len, vec_capacity};
    ghost use Rattle.bbm_io.specs.Memory.{SinkState};

    ghost Value = { SinkState };

    ghost view = { λ s. record {
      held = s.bytes.items;
      room = s.room;
      fails = s.fails.items;
      calls = s.calls;
      faults = s.faults;
    } };

    ghost invariant = { (λ s. (vec_len s.bytes ≤ s.room) × (s.room ≤ vec_capacity s.bytes)) };
}

impl MemSink {
    /// A sink that holds nothing, with the capacity of `bytes` as its room, whose calls with these
    /// numbers, counted from 1, fail. Its count of faults is 0.
    pub fn new(bytes: Vec<u8>, fails: Vec<u64>) -> MemSink
        requires { bytes.items ≡ [] }
        ensures { result ≡ record { held = []; room = vec_capacity bytes; fails = fails.items; calls = 0; faults = 0 } }
    {
        let room = bytes.capacity();
        MemSink {
            bytes,
            room,
            fails,
            calls: 0,
            faults: 0,
        }
    }

    /// The bytes taken.
    pub fn bytes(&self) -> &[u8]
        ensures { result.now ≡ self.now.held }
    {
        &self.bytes
    }
}

impl Sink for MemSink {
    ghost held = { λ s. Some s.held };

    ghost faults = { λ s. s.faults };

    /// Takes as much of the piece as has room. It fails exactly where the number of the call is listed,
    /// or where the piece isn't empty and no room is left.
    fn write(&mut self, piece: &[u8]) -> Result<usize, Failed>
        ensures fails { is_err result
            ≡ (fails_next self.old.fails self.old.calls
            || nat_lt 0 (length piece.now) && nat_le self.old.room (length self.old.held)) }
        ensures count { IfOk result (λ n. n ≡ min (length piece.now) (self.old.room - length self.old.held)) }
        ensures bytes { IfOk result (λ n. self.new.held ≡ self.old.held ++ take n piece.now) }
        ensures untaken { OnErr result (self.new.held ≡ self.old.held) }
        ensures faults { self.new.faults
            ≡ (if is_err result then min (self.old.faults + 1) (2 ^ 64 - 1) else self.old.faults) }
        ensures calls { self.new.calls ≡ min (self.old.calls + 1) (2 ^ 64 - 1) }
        ensures listed { self.new.fails ≡ self.old.fails }
        ensures counted { self.old.faults < 2 ^ 64 }
        ensures room { self.new.room ≡ self.old.room }
    {
        let count = piece.len().min(self.room - self.bytes.len());
        if next_fails(&mut self.calls, &self.fails)
            || count == 0 && !piece.is_empty()
            || self.bytes.extend_from_slice(&piece[..count]).is_err()
        {
            self.faults = self.faults.saturating_add(1);
            return Err(Failed);
        }
        Ok(count)
    }
}

/// Writes the whole piece. `Failed` comes only where the sink's count of faults rose, or stands at
/// 2^64 - 1, and then a proper prefix of the piece was taken; so an empty piece is always Ok. Where it
/// doesn't come the count stays.
#[tactic(auto, using(crate::proofs::Flow::flow))]
pub fn put<K: Sink>(out: &mut K, piece: &[u8]) -> Result<(), Failed>
    ensures whole { OnOk result (K.held out.new ≡ extended (K.held out.old) piece.now) }
    ensures part { OnErr result ((n : ℕ) × (n < length piece.now)
        × (K.held out.new ≡ extended (K.held out.old) (take n piece.now))) }
    ensures fault_count { CountsFaults result (K.faults out.old) (K.faults out.new) }
    ensures quiet { ¬ (Rose (K.faults out.old) (K.faults out.new)) → IsOk result }
{
    let mut done = 0;
    while done < piece.len() {
        done += out.write(&piece[done..])?;
    }
    Ok(())
}
