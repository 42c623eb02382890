//! Due stages.

ghost use Rattle.std.specs.Prelude.{◌≡◌, ◌<◌, ◌≤◌, ◌==◌, ◌∷◌, ◌++◌, [], not, if◌then◌else◌};
ghost use Rattle.std.specs.Prelude.{length, All, IfOk, OnOk};
ghost use Rattle.mf_policy.specs.Due.{due_of, due_by, IsDue, policies_of, sweep_of};

use crate::policy::Policy;
use std::alloc::{AllocError, Global};

// The later of two stages where it is reached, and else the earlier.
fn reached_of(earlier: u32, later: u32, is_reached: bool) -> u32
    ensures { result ≡ (if is_reached then later else earlier) }
{
    if is_reached { later } else { earlier }
}

/// The greatest stage whose threshold is at most the age.
pub fn due(policy: &Policy, age: u64) -> u32
    ensures value { result ≡ due_of policy.now age }
    ensures stage { IsDue policy.now age result }
{
    let mut stage = 0;
    let mut next = 0;
    for threshold in policy.thresholds() {
        stage = reached_of(stage, next, *threshold <= age);
        next += 1;
    }
    stage
}

// Adds a file and its due stage, where that isn't 0.
fn add_due(list: &mut Vec<(u32, u32)>, file: u32, stage: u32) -> Result<(), AllocError>
    ensures { OnOk result (list.new.items
        ≡ list.old.items ++ (if not (stage == 0) then (file, stage) ∷ [] else [])) }
{
    if stage != 0 {
        list.push((file, stage))?;
    }
    Ok(())
}

// The due stage of a file of this age whose family has this policy, or none.
fn due_by(policy: &Option<Policy>, age: u64) -> u32
    ensures { result ≡ due_by policy.now age }
{
    match policy {
        Some(policy) => due(policy, age),
        None => 0,
    }
}

/// The number and the due stage of each file whose due stage isn't 0, by number: the families have
/// these policies, `of` has the number of each file's family, and `ages` its age. Fails only where
/// memory runs out.
pub fn sweep_list(
    alloc: Global,
    policies: &[Option<Policy>],
    of: &[u32],
    ages: &[u64],
) -> Result<Vec<(u32, u32)>, AllocError>
    requires few { length ages.now ≤ 4294967295 }
    requires count { length of.now ≡ length ages.now }
    requires families { All (λ family. family < length policies.now) of.now }
    ensures { IfOk result (λ v. v.items ≡ sweep_of (policies_of policies.now of.now) ages.now) }
{
    let mut list = Vec::new(alloc);
    for file in 0..ages.len() {
        let policy = &policies[of[file] as usize];
        add_due(&mut list, file as u32, due_by(policy, ages[file]))?;
    }
    Ok(list)
}
