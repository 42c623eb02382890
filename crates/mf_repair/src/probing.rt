//! Probing a stripe.
ghost use Rattle.std.specs.Prelude.{◌≡◌, ◌+◌, ◌<◌, ◌≤◌, [], ◌∷◌, ◌++◌, IfOk};
ghost use Rattle.std.specs.Prelude.{length, vec_capacity};
ghost use Rattle.mf_places.specs.Generations.{stripe_names};
ghost use Rattle.mf_repair.specs.Repair.{if_lost};
ghost use Rattle.mf_repair.specs.Mending.{IsMender, HasStripe, Stays, Probes, ProbesSome};

use mf_vault::{Fetch, Memory, Name, State};
use std::alloc::Global;

// The names of a stripe, and room for those that are lost.
#[derive(Drop)]
struct Plan {
    names: Vec<Name>,
    lost: Vec<Name>,
}

// The plan, with room in the ledger for an entry a name. The only error is want of memory.
fn prepared<A: Fetch>(alloc: Global, access: &mut A, g: u32, j: u32) -> Result<Plan, Memory>
    requires { HasStripe g j (A.actor access.old).facts.book }
    ensures stays { A.actor access.new ≡ A.actor access.old }
    ensures names { IfOk result (λ plan.
        plan.names.items ≡ stripe_names (A.actor access.old).facts.book g j) }
    ensures lost { IfOk result (λ plan. (plan.lost.items ≡ [])
        × (length plan.names.items ≤ vec_capacity plan.lost)) }
    ensures room { IfOk result (λ plan. length plan.names.items ≤ A.spare access.new) }
{
    let names = access.book().names_of(g, j)?;
    let lost = Vec::with_capacity(alloc, names.len())?;
    access.reserve(names.len())?;
    Ok(Plan { names, lost })
}

// Appends within the room that is there.
fn append(lost: &mut Vec<Name>, name: Name)
    requires { length lost.old.items < vec_capacity lost.old }
    ensures items { lost.new.items ≡ lost.old.items ++ name ∷ [] }
    ensures capacity { vec_capacity lost.old ≤ vec_capacity lost.new }
{
    if lost.push(name).is_err() {
        unreachable!()
    }
}

// Appends the name where its probe was answered Lost, within the room that is there.
fn keep_lost(lost: &mut Vec<Name>, name: Name, state: State)
    requires { length lost.old.items < vec_capacity lost.old }
    ensures items { lost.new.items ≡ lost.old.items ++ if_lost name state }
    ensures capacity { vec_capacity lost.old ≤ vec_capacity lost.new }
    ensures few { length lost.new.items ≤ length lost.old.items + 1 }
{
    match state {
        State::Lost(_) => append(lost, name),
        State::Unborn | State::Here | State::Away(_) => {}
    }
}

// Probes the names of stripe j of generation g, in order, and appends those that are lost.
fn probe_all<A: Fetch>(access: &mut A, g: u32, j: u32, names: &[Name], lost: &mut Vec<Name>)
    requires mender { IsMender g (A.actor access.old) }
    requires stripe { HasStripe g j (A.actor access.old).facts.book }
    requires names { names.now ≡ stripe_names (A.actor access.old).facts.book g j }
    requires lost { (lost.old.items ≡ []) × (length names.now ≤ vec_capacity lost.old) }
    requires room { length names.now ≤ A.spare access.old }
    ensures { Probes g j lost.new.items (A.actor access.old) (A.actor access.new) }
{
    for name in names {
        let state = access.probe(*name);
        keep_lost(lost, *name, state);
    }
}

// Probes each name of stripe j of generation g, in order: the names that are lost. The only error
// is want of memory, and then nothing was probed.
pub(crate) fn probe_stripe<A: Fetch>(
    alloc: Global,
    access: &mut A,
    g: u32,
    j: u32,
) -> Result<Vec<Name>, Memory>
    requires mender { IsMender g (A.actor access.old) }
    requires stripe { HasStripe g j (A.actor access.old).facts.book }
    ensures { ProbesSome g j result (A.actor access.old) (A.actor access.new) }
{
    let Plan { names, mut lost } = prepared(alloc, access, g, j)?;
    probe_all(access, g, j, names.as_slice(), &mut lost);
    Ok(lost)
}
