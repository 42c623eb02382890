//! Converting a file to its next generation.
ghost use Rattle.std.specs.Prelude.{◌≡◌, ℕ, ◌+◌, ◌*◌, ◌<◌, ◌≤◌, true, List, [], ◌∷◌, ◌++◌};
ghost use Rattle.std.specs.Prelude.{IfOk, IfErr, length, vec_capacity};
ghost use Rattle.mf_machine.specs.declared.answer.State.TheVariants.{Here};
ghost use Rattle.mf_places.specs.Generations.{holds};
ghost use Rattle.mf_vault.specs.Actor as call;
ghost use Rattle.mf_vault.specs.Answers.{Goes};
ghost use Rattle.mf_vault.specs.Facts.{stages, cell_of};
ghost use Rattle.mf_vault.specs.Licence.{Does, IsBuilding};
ghost use Rattle.mf_vault.specs.Conditions.{IsIdle, IsOfFamily, Leaves};
ghost use Rattle.mf_convert.specs.Create.{probes, bring};
ghost use Rattle.mf_convert.specs.Convert.{Converts, GoesOn, AllGoOn, names_of, factor_at};
ghost use Rattle.mf_convert.specs.Convert.{make, makes};
ghost use Rattle.mf_convert.specs.Converting.{IsInTime, MayGoOn, IsConverter, IsFound, AreFound};
ghost use Rattle.mf_convert.specs.Converting.{Cuts, Completes, CutsProbes, CutsAll, CompletesAll};
ghost use Rattle.mf_convert.specs.Converting.{AreDone, ConvertsFrom, ConvertsPinned, is_missing};

use crate::change::Change;
use crate::course::Course;
use crate::merging::merged;
use mf_check::Family;
use mf_vault::{Access, Chunk, Fetch, Memory, Name, Pinned, Slot, State};
use std::alloc::Global;

/// Converts the file to its next generation, unless the published one is `upto` or a later one:
/// then it is Last. No data is read: each name of the next generation is probed, then each parity
/// that isn't there is merged from the parities of the same point that the published generation
/// has, and then the next generation is published.
///
/// It is Unreachable at the first name that can't be reached, and Needs at the first one that was
/// lost and that it needs. With `stop` it is Stopped after so many chunk operations, where another
/// is due. What was put or restored before serves the next conversion. It is Busy where another
/// actor has the right to build.
pub fn convert<A: Fetch>(
    alloc: Global,
    access: &mut A,
    family: &Family,
    upto: u32,
    stop: Option<u32>,
) -> Change
    requires idle { IsIdle (A.actor access.old) }
    requires family { IsOfFamily family.now.shape family.now.points
        (A.actor access.old).facts.book }
    requires upto { upto < stages (A.actor access.old).facts }
    ensures licence { Converts upto stop result (A.actor access.old) (A.actor access.new) }
    ensures leaves { Leaves (A.actor access.old) (A.actor access.new) }
{
    if !access.begin() {
        return Change::Busy;
    }
    match access.pin(Slot::Work) {
        Pinned::At(g) => {
            let change = convert_pinned(alloc, access, family, g, upto, stop);
            access.unpin(Slot::Work);
            access.end();
            change
        }
        Pinned::Absent => {
            access.end();
            Change::Absent
        }
        Pinned::Removed => {
            access.end();
            Change::Removed
        }
    }
}

// Converts from generation g, which is pinned, where it is below `upto`.
fn convert_pinned<A: Fetch>(
    alloc: Global,
    access: &mut A,
    family: &Family,
    g: u32,
    upto: u32,
    stop: Option<u32>,
) -> Change
    requires family { IsOfFamily family.now.shape family.now.points
        (A.actor access.old).facts.book }
    requires building { IsBuilding (A.actor access.old) (g + 1) }
    requires work { (A.actor access.old).view.work ≡ g + 1 }
    requires upto { upto < stages (A.actor access.old).facts }
    ensures { ConvertsPinned g upto stop result (A.actor access.old) (A.actor access.new) }
{
    if g < upto {
        convert_from(alloc, access, family, g, stop)
    } else {
        Change::Last { g }
    }
}

// Converts from generation g, which is pinned.
fn convert_from<A: Fetch>(
    alloc: Global,
    access: &mut A,
    family: &Family,
    g: u32,
    stop: Option<u32>,
) -> Change
    requires family { IsOfFamily family.now.shape family.now.points
        (A.actor access.old).facts.book }
    requires converter { IsConverter g (A.actor access.old) }
    ensures { ConvertsFrom g stop result (A.actor access.old) (A.actor access.new) }
{
    let course = Course {
        from: g,
        stop,
        start: access.ledger().len(),
    };
    match complete(alloc, access, family, &course) {
        Ok(()) => {
            access.publish(g + 2);
            Change::Converted {
                from: g,
                to: g + 1,
                made: course.made(access),
            }
        }
        Err(change) => change,
    }
}

// Makes each parity of the next generation that isn't there.
fn complete<A: Fetch>(
    alloc: Global,
    access: &mut A,
    family: &Family,
    course: &Course,
) -> Result<(), Change>
    requires family { IsOfFamily family.now.shape family.now.points
        (A.actor access.old).facts.book }
    requires converter { IsConverter course.now.from (A.actor access.old) }
    requires time { IsInTime course.now (A.actor access.old) }
    ensures completes { IfOk result (λ _.
        CompletesAll course.now (A.actor access.old) (A.actor access.new)) }
    ensures cuts { IfErr result (λ change.
        CutsAll course.now change (A.actor access.old) (A.actor access.new)) }
{
    let Ok(plan) = prepared(alloc, access, course.from) else {
        return Err(Change::Memory);
    };
    let Plan { names, mut states } = plan;
    let names = names.as_slice();
    probe_all(access, course, names, &mut states)?;
    make_all(alloc, access, family, course, names, states.as_slice())
}

// The names of the next generation, and room for what their probes answer.
#[derive(Drop)]
struct Plan {
    names: Vec<Name>,
    states: Vec<State>,
}

// The plan of a conversion from generation g, with room in the ledger for all its entries. The only
// error is want of memory.
fn prepared<A: Access>(alloc: Global, access: &mut A, g: u32) -> Result<Plan, Memory>
    requires next { g + 1 < stages (A.actor access.old).facts }
    ensures stays { A.actor access.new ≡ A.actor access.old }
    ensures names { IfOk result (λ plan.
        plan.names.items ≡ names_of (A.actor access.old).facts (g + 1)) }
    ensures states { IfOk result (λ plan. (plan.states.items ≡ [])
        × (length plan.names.items ≤ vec_capacity plan.states)) }
    ensures room { IfOk result (λ plan. length plan.names.items
        * (factor_at (A.actor access.old).facts.book g + 2) ≤ A.spare access.new) }
{
    let names = access.book().names(g + 1)?;
    let states = Vec::with_capacity(alloc, names.len())?;
    let factor = access.book().shape().factor(g) as usize;
    access.reserve(names.len() * (factor + 2))?;
    Ok(Plan { names, states })
}

// Appends within the room that is there.
fn append(states: &mut Vec<State>, state: State)
    requires { length states.old.items < vec_capacity states.old }
    ensures items { states.new.items ≡ states.old.items ++ state ∷ [] }
    ensures capacity { vec_capacity states.old ≤ vec_capacity states.new }
{
    if states.push(state).is_err() {
        unreachable!()
    }
}

// Probes each name of the next generation.
fn probe_all<A: Access>(
    access: &mut A,
    course: &Course,
    names: &[Name],
    states: &mut Vec<State>,
) -> Result<(), Change>
    requires converter { IsConverter course.now.from (A.actor access.old) }
    requires time { IsInTime course.now (A.actor access.old) }
    requires names { names.now ≡ names_of (A.actor access.old).facts (course.now.from + 1) }
    requires states { (states.old.items ≡ []) × (length names.now ≤ vec_capacity states.old) }
    requires room { length names.now ≤ A.spare access.old }
    ensures completes { IfOk result (λ _. Completes course.now (probes names.now states.new.items)
        (A.actor access.old) (A.actor access.new)) }
    ensures on { IfOk result (λ _. AllGoOn (A.actor access.old).facts.book course.now.from
        names.now states.new.items) }
    ensures found { IfOk result (λ _. AreFound course.now.from (A.actor access.new) 0
        names.now states.new.items) }
    ensures cuts { IfErr result (λ change. CutsProbes course.now names.now change
        (A.actor access.old) (A.actor access.new)) }
    ensures room { IfOk result (λ _. A.spare access.old ≤ A.spare access.new + length names.now) }
{
    for name in names {
        let state = probe_one(access, course, *name)?;
        append(states, state);
    }
    Ok(())
}

// Probes a name of the next generation.
fn probe_one<A: Access>(access: &mut A, course: &Course, name: Name) -> Result<State, Change>
    requires converter { IsConverter course.now.from (A.actor access.old) }
    requires time { IsInTime course.now (A.actor access.old) }
    requires held { holds (A.actor access.old).facts.book (course.now.from + 1) name ≡ true }
    requires room { 0 < A.spare access.old }
    ensures goes { IfOk result (λ state. Goes (call.probe name state)
        (A.actor access.old) (A.actor access.new)) }
    ensures time { IfOk result (λ _. IsInTime course.now (A.actor access.new)) }
    ensures on { IfOk result (λ state. GoesOn (A.actor access.old).facts.book course.now.from
        name state) }
    ensures cuts { IfErr result (λ change. Cuts course.now (call.probe name Here ∷ []) change
        (A.actor access.old) (A.actor access.new)) }
    ensures room { A.spare access.old ≤ A.spare access.new + 1 }
{
    course.go_on(access)?;
    let state = access.probe(name);
    match state {
        State::Unborn | State::Here => Ok(state),
        State::Lost(line) => {
            if access.book().holds(course.from, name) {
                Err(Change::Needs { name, line })
            } else {
                Ok(state)
            }
        }
        State::Away(server) => Err(Change::Unreachable { name, server }),
    }
}

// Makes each parity that its probe found not there.
fn make_all<A: Fetch>(
    alloc: Global,
    access: &mut A,
    family: &Family,
    course: &Course,
    names: &[Name],
    states: &[State],
) -> Result<(), Change>
    requires family { IsOfFamily family.now.shape family.now.points
        (A.actor access.old).facts.book }
    requires converter { IsConverter course.now.from (A.actor access.old) }
    requires time { IsInTime course.now (A.actor access.old) }
    requires names { names.now ≡ names_of (A.actor access.old).facts (course.now.from + 1) }
    requires long { length states.now ≡ length names.now }
    requires found { AreFound course.now.from (A.actor access.old) 0 names.now states.now }
    requires room { length names.now * (factor_at (A.actor access.old).facts.book course.now.from
        + 1) ≤ A.spare access.old }
    ensures completes { IfOk result (λ _. Completes course.now
        (makes (A.actor access.old).facts course.now.from names.now states.now)
        (A.actor access.old) (A.actor access.new)) }
    ensures done { IfOk result (λ _. AreDone (A.actor access.new) names.now) }
    ensures cuts { IfErr result (λ change. Cuts course.now
        (makes (A.actor access.old).facts course.now.from names.now states.now) change
        (A.actor access.old) (A.actor access.new)) }
{
    for i in 0..names.len() {
        make_one(alloc, access, family, course, names[i], states[i])?;
    }
    Ok(())
}

// Makes a parity that its probe found not there.
fn make_one<A: Fetch>(
    alloc: Global,
    access: &mut A,
    family: &Family,
    course: &Course,
    name: Name,
    state: State,
) -> Result<(), Change>
    requires family { IsOfFamily family.now.shape family.now.points
        (A.actor access.old).facts.book }
    requires converter { IsConverter course.now.from (A.actor access.old) }
    requires time { IsInTime course.now (A.actor access.old) }
    requires held { holds (A.actor access.old).facts.book (course.now.from + 1) name ≡ true }
    requires found { IsFound course.now.from (A.actor access.old) name state }
    requires room { factor_at (A.actor access.old).facts.book course.now.from + 1
        ≤ A.spare access.old }
    ensures completes { IfOk result (λ _. Completes course.now
        (make (A.actor access.old).facts course.now.from name state)
        (A.actor access.old) (A.actor access.new)) }
    ensures cuts { IfErr result (λ change. Cuts course.now
        (make (A.actor access.old).facts course.now.from name state) change
        (A.actor access.old) (A.actor access.new)) }
    ensures room { IfOk result (λ _. A.spare access.old ≤ A.spare access.new
        + (factor_at (A.actor access.old).facts.book course.now.from + 1)) }
{
    let Name::Parity(_, j, p) = name else {
        return Ok(());
    };
    if !is_missing(state) {
        return Ok(());
    }
    let cell = merged(alloc, access, family, course, j, p)?;
    course.go_on(access)?;
    bring(access, course, name, state, cell);
    Ok(())
}

// The name isn't there.
fn is_missing(state: State) -> bool
    ensures { result ≡ is_missing state }
{
    matches!(state, State::Unborn | State::Lost(_))
}

// Puts the name where its probe found it Unborn, and restores it where the probe found it Lost.
fn bring<A: Access>(access: &mut A, course: &Course, name: Name, state: State, cell: Chunk)
    requires converter { IsConverter course.now.from (A.actor access.old) }
    requires held { holds (A.actor access.old).facts.book (course.now.from + 1) name ≡ true }
    requires found { IsFound course.now.from (A.actor access.old) name state }
    requires cell { cell ≡ cell_of (A.actor access.old).facts name }
    requires room { 0 < A.spare access.old }
    ensures does { Does (bring name state) (A.actor access.old) (A.actor access.new) }
    ensures room { A.spare access.old ≤ A.spare access.new + 1 }
{
    match state {
        State::Unborn => access.put(name, cell),
        State::Lost(_) => access.restore(name, cell),
        State::Here | State::Away(_) => {}
    }
}
