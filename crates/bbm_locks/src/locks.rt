//! The table of locks.
//! Source: project's own choice, where no other is named.

ghost use Rattle.std.specs.Prelude.{◌≡◌, ℕ, ◌<◌, ◌==◌, ◌↔◌, List, [], ◌∷◌, IsOk, OnOk, OnErr, if◌then◌else◌};

use bbm_regimes::Pe;

/// The lock is held, by this PE.
#[derive(Clone, Copy, PartialEq, Eq)]
pub struct Busy(pub Pe);

/// The PE doesn't hold the lock.
#[derive(Clone, Copy, PartialEq, Eq)]
pub struct NotHolder;

/// Which PE holds each lock, of numbers 0 to 1,023. Contracts speak of it by its points,
/// `holder_at locks lock`, and by the calls that it accepted.
#[derive(Drop)]
pub struct Locks {
    holders: [Option<Pe>; 1024],
}

#[tactic(auto, unfolding(crate::specs::Holders::holder_at))]
impl Locks {
    ghost use Rattle.bbm_locks.specs.Holders.{Call, taken, given, AreAfter, holder_after, holder_at};

    /// Locks that are all free. They stand for no call.
    pub fn new() -> Locks
        ensures free { (lock : ℕ) → holder_at result lock ≡ None }
        ensures calls { AreAfter result [] }
    {
        Locks {
            holders: [None; 1024],
        }
    }

    /// The PE that holds this lock: the last that took it and hasn't given it back. None where it is free, as each lock
    /// above 1,023 is.
    pub fn holder(&self, lock: u16) -> Option<Pe>
        ensures point { result ≡ holder_at self.now lock }
        ensures calls { (calls : List Call) → AreAfter self.now calls → result ≡ holder_after calls lock }
    {
        match self.holders.get(lock as usize) {
            Some(holder) => *holder,
            None => None,
        }
    }

    /// The PE takes this lock, 0 to 1,023. `Busy` with the holder exactly where it is held, by this PE or another;
    /// then nothing changes.
    pub fn take(&mut self, pe: Pe, lock: u16) -> Result<(), Busy>
        requires { lock < 1024 }
        ensures busy { (holder : ℕ) → (result ≡ Err (record { 0 = holder })) ↔ (holder_at self.old lock ≡ Some holder) }
        ensures taken { OnOk result (
            (l : ℕ) → holder_at self.new l ≡ (if lock == l then Some pe else holder_at self.old l)) }
        ensures refused { OnErr result ((l : ℕ) → holder_at self.new l ≡ holder_at self.old l) }
        ensures calls { OnOk result (
            (calls : List Call) → AreAfter self.old calls → AreAfter self.new (taken pe lock ∷ calls)) }
    {
        if let Some(holder) = self.holders[lock as usize] {
            return Err(Busy(holder));
        }
        self.holders[lock as usize] = Some(pe);
        Ok(())
    }

    /// The PE gives this lock, 0 to 1,023, back. `NotHolder` exactly where it doesn't hold it; then nothing
    /// changes.
    pub fn give(&mut self, pe: Pe, lock: u16) -> Result<(), NotHolder>
        requires { lock < 1024 }
        ensures held { IsOk result ↔ (holder_at self.old lock ≡ Some pe) }
        ensures given { OnOk result (
            (l : ℕ) → holder_at self.new l ≡ (if lock == l then None else holder_at self.old l)) }
        ensures refused { OnErr result ((l : ℕ) → holder_at self.new l ≡ holder_at self.old l) }
        ensures calls { OnOk result (
            (calls : List Call) → AreAfter self.old calls → AreAfter self.new (given pe lock ∷ calls)) }
    {
        if self.holders[lock as usize] != Some(pe) {
            return Err(NotHolder);
        }
        self.holders[lock as usize] = None;
        Ok(())
    }
}
