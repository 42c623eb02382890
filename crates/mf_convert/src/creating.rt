//! Creating a file.
ghost use Rattle.std.specs.Prelude.{◌≡◌, ℕ, ◌+◌, ◌*◌, ◌<◌, ◌≤◌, List, [], ◌∷◌, ◌++◌};
ghost use Rattle.std.specs.Prelude.{IfOk, length, map, vec_capacity};
ghost use Rattle.mf_machine.specs.declared.answer.State.{State};
ghost use Rattle.mf_places.specs.declared.Name.{Name};
ghost use Rattle.mf_places.specs.Servers.{no_servers};
ghost use Rattle.mf_vault.specs.Actor.{Actor};
ghost use Rattle.mf_vault.specs.Facts.{Facts, number, cell_of};
ghost use Rattle.mf_vault.specs.Licence.{Does, did_all};
ghost use Rattle.mf_convert.specs.Cells.{IsFirst};
ghost use Rattle.mf_vault.specs.Conditions.{IsIdle, IsOfFamily, Leaves};
ghost use Rattle.mf_convert.specs.Create.{Creates, probes, bring, brings, first_names};
ghost use Rattle.mf_convert.specs.Building.{IsFirstBuilder, IsMarked, AreMarked, AreSettled};
ghost use Rattle.mf_convert.specs.Building.{Builds};

use crate::cells::cells_of;
use crate::change::Change;
use mf_check::Family;
use mf_vault::{Access, Chunk, Memory, Name, Pinned, Slot, State};
use std::alloc::Global;

/// Creates the file of these bytes: each name of the first generation is probed, then each that
/// isn't there is put or restored, and then the generation is published. It is Busy where another
/// actor has the right to build, and Exists where the file is created or was removed. Memory comes
/// before the first probe alone, and then nothing has changed.
pub fn create<A: Access>(alloc: Global, access: &mut A, family: &Family, bytes: &[u8]) -> Change
    requires idle { IsIdle (A.actor access.old) }
    requires family { IsOfFamily family.now.shape family.now.points
        (A.actor access.old).facts.book }
    requires bytes { bytes.now ≡ (A.actor access.old).facts.bytes }
    requires reached { (A.actor access.old).cut ≡ no_servers }
    ensures licence { Creates result (A.actor access.old) (A.actor access.new) }
    ensures leaves { Leaves (A.actor access.old) (A.actor access.new) }
{
    if !access.begin() {
        return Change::Busy;
    }
    match access.pin(Slot::Work) {
        Pinned::At(_) => {
            access.unpin(Slot::Work);
            access.end();
            Change::Exists
        }
        Pinned::Removed => {
            access.end();
            Change::Exists
        }
        Pinned::Absent => match prepared(alloc, access, family, bytes) {
            Ok(plan) => {
                build(access, plan);
                Change::Created
            }
            Err(_) => {
                access.end();
                Change::Memory
            }
        },
    }
}

// What a create needs, so that no later step takes memory: the names of the first generation, their
// cells, and room for what their probes answer.
#[derive(Drop)]
struct Plan {
    names: Vec<Name>,
    cells: Vec<Chunk>,
    states: Vec<State>,
}

// The plan, with room in the ledger for two entries a name. The only error is want of memory.
fn prepared<A: Access>(
    alloc: Global,
    access: &mut A,
    family: &Family,
    bytes: &[u8],
) -> Result<Plan, Memory>
    requires family { IsOfFamily family.now.shape family.now.points
        (A.actor access.old).facts.book }
    requires bytes { bytes.now ≡ (A.actor access.old).facts.bytes }
    ensures stays { A.actor access.new ≡ A.actor access.old }
    ensures names { IfOk result (λ plan.
        plan.names.items ≡ first_names (A.actor access.old).facts) }
    ensures cells { IfOk result (λ plan. plan.cells.items
        ≡ map (cell_of (A.actor access.old).facts) plan.names.items) }
    ensures states { IfOk result (λ plan. (plan.states.items ≡ [])
        × (length plan.names.items ≤ vec_capacity plan.states)) }
    ensures room { IfOk result (λ plan. 2 * length plan.names.items ≤ A.spare access.new) }
{
    let names = access.book().names(0)?;
    let cells = cells_of(alloc, access.book(), family, &names, bytes)?;
    let states = Vec::with_capacity(alloc, names.len())?;
    access.reserve(2 * names.len())?;
    Ok(Plan {
        names,
        cells,
        states,
    })
}

// Probes the names, brings those that aren't there, publishes the generation, and gives the right
// back.
fn build<A: Access>(access: &mut A, plan: Plan)
    requires builder { IsFirstBuilder (A.actor access.old).facts (A.actor access.old) }
    requires names { plan.names.items ≡ first_names (A.actor access.old).facts }
    requires cells { plan.cells.items ≡ map (cell_of (A.actor access.old).facts) plan.names.items }
    requires states { (plan.states.items ≡ [])
        × (length plan.names.items ≤ vec_capacity plan.states) }
    requires room { 2 * length plan.names.items ≤ A.spare access.old }
    ensures { Builds (A.actor access.old) (A.actor access.new) }
{
    let Plan {
        names,
        cells,
        mut states,
    } = plan;
    let names = names.as_slice();
    probe_all(access, names, &mut states);
    bring_all(access, names, states.as_slice(), cells);
    access.publish(1);
    access.end();
}

// Appends within the room that is there.
fn append(states: &mut Vec<State>, state: State)
    requires { length states.old.items < vec_capacity states.old }
    ensures items { states.new.items ≡ states.old.items ++ state ∷ [] }
    ensures capacity { vec_capacity states.old ≤ vec_capacity states.new }
{
    if states.push(state).is_err() {
        unreachable!()
    }
}

// Probes each name of the first generation.
fn probe_all<A: Access>(access: &mut A, names: &[Name], states: &mut Vec<State>)
    requires builder { IsFirstBuilder (A.actor access.old).facts (A.actor access.old) }
    requires names { names.now ≡ first_names (A.actor access.old).facts }
    requires states { (states.old.items ≡ []) × (length names.now ≤ vec_capacity states.old) }
    requires room { 2 * length names.now ≤ A.spare access.old }
    ensures does { Does (probes names.now states.new.items)
        (A.actor access.old) (A.actor access.new) }
    ensures builder { IsFirstBuilder (A.actor access.old).facts (A.actor access.new) }
    ensures long { length states.new.items ≡ length names.now }
    ensures marked { AreMarked (A.actor access.new) 0 names.now states.new.items }
    ensures room { length names.now ≤ A.spare access.new }
{
    for name in names {
        let state = access.probe(*name);
        append(states, state);
    }
}

// Puts or restores each name that its probe found not there.
fn bring_all<A: Access>(access: &mut A, names: &[Name], states: &[State], cells: Vec<Chunk>)
    requires builder { IsFirstBuilder (A.actor access.old).facts (A.actor access.old) }
    requires names { names.now ≡ first_names (A.actor access.old).facts }
    requires cells { cells.items ≡ map (cell_of (A.actor access.old).facts) names.now }
    requires long { length states.now ≡ length names.now }
    requires marked { AreMarked (A.actor access.old) 0 names.now states.now }
    requires room { length names.now ≤ A.spare access.old }
    ensures does { Does (brings names.now states.now) (A.actor access.old) (A.actor access.new) }
    ensures builder { IsFirstBuilder (A.actor access.old).facts (A.actor access.new) }
    ensures settled { AreSettled (A.actor access.new) (length names.now) names.now }
{
    let mut i = 0;
    for cell in cells {
        bring_one(access, names[i], states[i], cell);
        i += 1;
    }
}

// Puts the name where its probe found it Unborn, and restores it where the probe found it Lost.
fn bring_one<A: Access>(access: &mut A, name: Name, state: State, cell: Chunk)
    requires builder { IsFirstBuilder (A.actor access.old).facts (A.actor access.old) }
    requires held { IsFirst (A.actor access.old).facts.book name }
    requires marked { IsMarked (A.actor access.old).view.build
        (number (A.actor access.old).facts name) state }
    requires cell { cell ≡ cell_of (A.actor access.old).facts name }
    requires room { 0 < A.spare access.old }
    ensures becomes { A.actor access.new ≡ did_all (bring name state) (A.actor access.old) }
    ensures does { Does (bring name state) (A.actor access.old) (A.actor access.new) }
    ensures room { A.spare access.old ≤ A.spare access.new + 1 }
{
    match state {
        State::Unborn => access.put(name, cell),
        State::Lost(_) => access.restore(name, cell),
        State::Here | State::Away(_) => {}
    }
}
