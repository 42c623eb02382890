//! Reclaiming a file.
ghost use Rattle.std.specs.Prelude.{◌≡◌, ◌+◌, ◌<◌, ◌≤◌, [], ◌∷◌, ◌++◌, IfOk};
ghost use Rattle.std.specs.Prelude.{length, filter, vec_capacity};
ghost use Rattle.mf_machine.specs.declared.answer.Closed.{Closed};
ghost use Rattle.mf_places.specs.Names.{count_of};
ghost use Rattle.mf_vault.specs.Conditions.{IsIdle, Leaves};
ghost use Rattle.mf_vault.specs.Facts.{stages};
ghost use Rattle.mf_vault.specs.Licence.{Does};
ghost use Rattle.mf_reclaim.specs.Reclaim.{Reclaims, closes, is_shut, was_shut, is_free};
ghost use Rattle.mf_reclaim.specs.Reclaim.{is_done, pins_of, pins_from};
ghost use Rattle.mf_reclaim.specs.Collecting.{AreShown, HasSeen, Discards, Collects};

use crate::outcome::{PinCounts, ReclaimOutcome};
use mf_vault::{Access, Book, Closed, Memory, Name, Pinned, Slot};
use std::alloc::Global;

/// Closes each generation below the published one, or each where the file is removed, and drops the
/// names that only closed generations hold. It is Absent where the file isn't created. Memory comes
/// before all else, and then nothing has changed.
pub fn reclaim<A: Access>(alloc: Global, access: &mut A) -> ReclaimOutcome
    requires idle { IsIdle (A.actor access.old) }
    ensures licence { Reclaims result (A.actor access.old) (A.actor access.new) }
    ensures leaves { Leaves (A.actor access.old) (A.actor access.new) }
{
    let Ok(plan) = prepared(alloc, access) else {
        return ReclaimOutcome::Memory;
    };
    match access.pin(Slot::Work) {
        Pinned::At(g) => {
            access.unpin(Slot::Work);
            collect(access, plan, g)
        }
        Pinned::Removed => {
            let stages = access.book().stages();
            collect(access, plan, stages)
        }
        Pinned::Absent => ReclaimOutcome::Absent,
    }
}

// What a reclaim needs, so that no later step takes memory: room for the answers of its closes, and
// for the generations that have pins.
#[derive(Drop)]
struct Plan {
    answers: Vec<Closed>,
    pinned: Vec<(u32, u32)>,
}

// The plan, with room in the ledger for an entry a name and an entry a stage. The only error is
// want of memory.
fn prepared<A: Access>(alloc: Global, access: &mut A) -> Result<Plan, Memory>
    ensures stays { A.actor access.new ≡ A.actor access.old }
    ensures answers { IfOk result (λ plan. (plan.answers.items ≡ [])
        × (stages (A.actor access.old).facts ≤ vec_capacity plan.answers)) }
    ensures pinned { IfOk result (λ plan. (plan.pinned.items ≡ [])
        × (stages (A.actor access.old).facts ≤ vec_capacity plan.pinned)) }
    ensures room { IfOk result (λ plan. count_of (A.actor access.old).facts.book
        + stages (A.actor access.old).facts ≤ A.spare access.new) }
{
    let stages = access.book().stages() as usize;
    let names = access.book().count() as usize;
    let answers = Vec::with_capacity(alloc, stages)?;
    let pinned = Vec::with_capacity(alloc, stages)?;
    access.reserve(names + stages)?;
    Ok(Plan { answers, pinned })
}

// Closes the generations below `end`, and drops the names that only closed ones hold.
fn collect<A: Access>(access: &mut A, plan: Plan, end: u32) -> ReclaimOutcome
    requires idle { IsIdle (A.actor access.old) }
    requires seen { HasSeen end (A.actor access.old) }
    requires answers { (plan.answers.items ≡ [])
        × (stages (A.actor access.old).facts ≤ vec_capacity plan.answers) }
    requires pinned { (plan.pinned.items ≡ [])
        × (stages (A.actor access.old).facts ≤ vec_capacity plan.pinned) }
    requires room { count_of (A.actor access.old).facts.book
        + stages (A.actor access.old).facts ≤ A.spare access.old }
    ensures collects { Collects end result (A.actor access.old) (A.actor access.new) }
    ensures leaves { Leaves (A.actor access.old) (A.actor access.new) }
{
    let Plan {
        mut answers,
        mut pinned,
    } = plan;
    close_all(access, end, &mut answers);
    let answers = answers.as_slice();
    let dropped = discard_all(access, answers);
    push_pins(answers, &mut pinned);
    ReclaimOutcome::Reclaimed {
        closed: count_done(answers),
        dropped,
        pinned: PinCounts::new(pinned),
    }
}

// Closes the generations below `end`, ascending.
fn close_all<A: Access>(access: &mut A, end: u32, answers: &mut Vec<Closed>)
    requires idle { IsIdle (A.actor access.old) }
    requires seen { HasSeen end (A.actor access.old) }
    requires answers { (answers.old.items ≡ [])
        × (stages (A.actor access.old).facts ≤ vec_capacity answers.old) }
    requires room { count_of (A.actor access.old).facts.book
        + stages (A.actor access.old).facts ≤ A.spare access.old }
    ensures does { Does (closes 0 answers.new.items) (A.actor access.old) (A.actor access.new) }
    ensures long { length answers.new.items ≡ end }
    ensures shown { AreShown answers.new.items (A.actor access.new) }
    ensures leaves { Leaves (A.actor access.old) (A.actor access.new) }
    ensures room { count_of (A.actor access.old).facts.book ≤ A.spare access.new }
{
    for g in 0..end {
        let answer = access.close(g);
        append(answers, answer);
    }
}

// Appends within the room that is there.
fn append(answers: &mut Vec<Closed>, answer: Closed)
    requires { length answers.old.items < vec_capacity answers.old }
    ensures items { answers.new.items ≡ answers.old.items ++ answer ∷ [] }
    ensures capacity { vec_capacity answers.old ≤ vec_capacity answers.new }
{
    if answers.push(answer).is_err() {
        unreachable!()
    }
}

// Discards each name that only closed generations hold, in order, and counts those that it dropped.
fn discard_all<A: Access>(access: &mut A, answers: &[Closed]) -> u32
    requires idle { IsIdle (A.actor access.old) }
    requires shown { AreShown answers.now (A.actor access.old) }
    requires room { count_of (A.actor access.old).facts.book ≤ A.spare access.old }
    ensures discards { Discards answers.now result (A.actor access.old) (A.actor access.new) }
    ensures leaves { Leaves (A.actor access.old) (A.actor access.new) }
{
    let mut dropped = 0;
    for n in 0..access.book().count() {
        let name = access.book().name(n);
        if is_free(access.book(), answers, name) && access.discard(name) {
            dropped += 1;
        }
    }
    dropped
}

// Whether each generation that holds the name was answered Done or Already.
fn is_free(book: &Book, answers: &[Closed], name: Name) -> bool
    ensures { result ≡ is_free book.now answers.now name }
{
    (0..book.stages()).all(|g| !book.holds(g, name) || was_shut(answers, g))
}

// Whether generation g was answered so.
fn was_shut(answers: &[Closed], g: u32) -> bool
    ensures { result ≡ was_shut answers.now g }
{
    match answers.get(g as usize) {
        Some(answer) => is_shut(*answer),
        None => false,
    }
}

fn is_shut(answer: Closed) -> bool
    ensures { result ≡ is_shut answer }
{
    match answer {
        Closed::Done | Closed::Already => true,
        Closed::Pins(_) => false,
    }
}

// How many of these answers are Done.
fn count_done(answers: &[Closed]) -> u32
    requires { length answers.now ≤ 4 }
    ensures { result ≡ length (filter is_done answers.now) }
{
    let mut done = 0;
    for answer in answers {
        if is_done(*answer) {
            done += 1;
        }
    }
    done
}

fn is_done(answer: Closed) -> bool
    ensures { result ≡ is_done answer }
{
    match answer {
        Closed::Done => true,
        Closed::Pins(_) | Closed::Already => false,
    }
}

// Appends the generations that have pins, each with their number, within the room that is there.
fn push_pins(answers: &[Closed], pinned: &mut Vec<(u32, u32)>)
    requires few { length answers.now ≤ 4 }
    requires room { (pinned.old.items ≡ []) × (length answers.now ≤ vec_capacity pinned.old) }
    ensures { pinned.new.items ≡ pins_from 0 answers.now }
{
    let mut g = 0;
    for answer in answers {
        push_pin(pinned, g, *answer);
        g += 1;
    }
}

// Appends the generation where it has pins, within the room that is there.
fn push_pin(pinned: &mut Vec<(u32, u32)>, g: u32, answer: Closed)
    requires { length pinned.old.items < vec_capacity pinned.old }
    ensures items { pinned.new.items ≡ pinned.old.items ++ pins_of g answer }
    ensures capacity { vec_capacity pinned.old ≤ vec_capacity pinned.new }
    ensures few { length pinned.new.items ≤ length pinned.old.items + 1 }
{
    match answer {
        Closed::Pins(pins) => append_pins(pinned, g, pins),
        Closed::Done | Closed::Already => {}
    }
}

// Appends within the room that is there.
fn append_pins(pinned: &mut Vec<(u32, u32)>, g: u32, pins: u32)
    requires { length pinned.old.items < vec_capacity pinned.old }
    ensures items { pinned.new.items ≡ pinned.old.items ++ (g, pins) ∷ [] }
    ensures capacity { vec_capacity pinned.old ≤ vec_capacity pinned.new }
{
    if pinned.push((g, pins)).is_err() {
        unreachable!()
    }
}
