//! Thresholds of ages.

use std::marker::Model;

/// For each stage the least age at which a file is due for it: stage 0 from age 0 on, and each
/// later stage at a greater age.
#[derive(Drop)]
pub struct Policy {
    thresholds: Vec<u64>,
}

impl Model for Policy {
    ghost use Rattle.std.specs.Prelude.{List, ℕ};
    ghost use Rattle.mf_policy.specs.Policies.{IsPolicy};

    ghost Value = { List ℕ };

    ghost view = { λ policy. policy.thresholds.items };

    ghost invariant = { λ policy. IsPolicy policy.thresholds.items };
}

impl Policy {
    ghost use Rattle.std.specs.Prelude.{◌≡◌};
    ghost use Rattle.mf_policy.specs.Policies.{IsPolicy};

    /// The policy of these thresholds.
    pub fn new(thresholds: Vec<u64>) -> Policy
        requires { IsPolicy thresholds.items }
        ensures { result ≡ thresholds.items }
    {
        Policy { thresholds }
    }

    /// The thresholds, by stage.
    pub fn thresholds(&self) -> &[u64]
        ensures value { result.now ≡ self.now }
        ensures kept { IsPolicy self.now }
    {
        self.thresholds.as_slice()
    }
}
