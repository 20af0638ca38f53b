//! Laws of tests of every PE.

ghost use Rattle.std.specs.Prelude.{◌≡◌, ℕ, ◌<◌, Bool, true, false};
ghost use Rattle.bbm_lemmas.specs.EveryPe.{every_pe};

/// A test of every PE of a log with n PEs holds exactly where it holds of each; what two tests say of each, they say of
/// every one; a weaker test holds where a stronger one does; and a test of no PE doesn't hold where there is one. The
/// call does nothing; the law is its contract.
pub fn law_every_pe()
    ensures sound { (n : ℕ) (test : ℕ → Bool) → every_pe n test ≡ true → (p : ℕ) → p < n → test p ≡ true }
    ensures complete { (n : ℕ) (test : ℕ → Bool) → ((p : ℕ) → p < n → test p ≡ true) → every_pe n test ≡ true }
    ensures same { (n : ℕ) (f g : ℕ → Bool) → ((p : ℕ) → p < n → f p ≡ g p) → every_pe n f ≡ every_pe n g }
    ensures wider { (n : ℕ) (f g : ℕ → Bool) → ((p : ℕ) → f p ≡ true → g p ≡ true) → every_pe n f ≡ true
        → every_pe n g ≡ true }
    ensures none { (n : ℕ) (test : ℕ → Bool) → 0 < n → ((p : ℕ) → test p ≡ false) → every_pe n test ≡ false }
{}
