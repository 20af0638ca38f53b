//! Which PEs are related to which.

ghost use Rattle.std.specs.Prelude.{◌≡◌, ℕ, false, ◌&&◌, ◌||◌, not, nat_eq};
ghost use Rattle.bbm_regimes.specs.PeMask.{pe_in};
ghost use Rattle.bbm_oracle_patterns.specs.Relation.{related};

use bbm_regimes::{Pe, PeMask};

/// For each PE a set of PEs. Contracts speak of it by its points, `related relation q p`. Source: project's own choice.
#[derive(Drop)]
pub struct Relation {
    rows: [PeMask; 128],
}

#[tactic(auto, unfolding(crate::specs::Relation::related))]
impl Relation {
    /// No PE is related to any.
    pub fn none() -> Relation
        ensures { (q p : ℕ) → related result q p ≡ false }
    {
        Relation {
            rows: [PeMask::none(); 128],
        }
    }

    /// Makes each PE of the set one that this PE is related to.
    pub fn add(&mut self, pe: Pe, pes: PeMask)
        ensures { (q p : ℕ) → related self.new q p ≡ (related self.old q p || (nat_eq pe q && pe_in pes p)) }
    {
        let index = pe.get() as usize;
        self.rows[index] = self.rows[index].or(pes);
    }

    /// Takes out the PEs that this PE is related to, and gives them.
    pub fn take(&mut self, pe: Pe) -> PeMask
        ensures row { (p : ℕ) → pe_in result p ≡ related self.old pe p }
        ensures left { (q p : ℕ) → related self.new q p ≡ (related self.old q p && not (nat_eq pe q)) }
    {
        let index = pe.get() as usize;
        let row = self.rows[index];
        self.rows[index] = PeMask::none();
        row
    }
}
