//! Laws of outputs, for the proofs of the crates above. Each function does nothing; its contract is the law.

ghost use Rattle.std.specs.Prelude.{◌≡◌, ℕ};
ghost use Rattle.bbm_descriptor.specs.Descriptor.{core_of};
ghost use Rattle.bbm_regimes.specs.declared.regime.Kind.{Kind};
ghost use Rattle.bbm_rules.specs.Mapped.{maps};
ghost use Rattle.bbm_tree_index.specs.Outputs.{core_maps};

/// The core of a value maps the pages that the value does.
pub fn law_core_maps()
    ensures { (kind : Kind) (level value page : ℕ) → core_maps kind level (core_of kind level value) page
        ≡ maps kind level value page }
{}
