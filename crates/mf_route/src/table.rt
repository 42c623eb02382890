//! The best ways on from each candidate, by how many candidates they have.
ghost use Rattle.std.specs.Prelude.{◌≡◌, ◌≤◌, ◌<◌, ◌+◌, length, get_or, IfOk, IfSome, IfNone};
ghost use Rattle.std.specs.Prelude.{Some, None};
ghost use Rattle.mf_route.specs.Plans.{IsChange, candidate, leg};
ghost use Rattle.mf_route.specs.Tables.{IsChoice, IsEntry, IsTable, behind, cheaper_of, ending_of};

use crate::terms::{Terms, is_change};
use std::alloc::{AllocError, Global};

/// A way on from a candidate: what it costs, and its candidates by their numbers.
#[derive(Drop)]
pub struct Way {
    pub cost: u64,
    pub stages: Vec<u32>,
}

/// For each candidate the best way on of at most so many candidates, whose last one is at most so
/// wide.
#[derive(Drop)]
pub struct Table {
    pub most: u32,
    pub room: u32,
    pub ways: Vec<Option<Way>>,
}

/// What is chosen at a candidate: to end there, or to go on to another; and what that costs.
#[derive(Clone, Copy)]
pub struct Choice {
    pub cost: u64,
    pub next: Option<u32>,
}

/// What it costs to go on from the one candidate to the other, where a way does.
fn cost_through(terms: &Terms, table: &Table, i: u32, j: u32) -> Option<u64>
    requires table { IsTable terms.now table.now }
    requires most { table.now.most ≤ 4 }
    requires first { i < length terms.now.candidates }
    requires second { j < length terms.now.candidates }
    ensures some { IfSome result (λ cost. IsChange (candidate terms.now i) (candidate terms.now j)
        × ((way : Way) × (get_or table.now.ways.items j None ≡ Some way)
        × (cost ≡ leg terms.now (candidate terms.now i) (candidate terms.now j) + way.cost))) }
    ensures none { IfNone result (IsChange (candidate terms.now i) (candidate terms.now j)
        → get_or table.now.ways.items j None ≡ None) }
{
    let Some(way) = &table.ways[j as usize] else {
        return None;
    };
    let (a, b) = (terms.candidate(i), terms.candidate(j));
    if !is_change(a, b) {
        return None;
    }
    Some(terms.leg(a, b) + way.cost)
}

/// The cheaper of what was chosen so far and going on to this candidate, and of two as cheap the
/// former.
fn cheaper(best: Option<Choice>, cost: Option<u64>, next: u32) -> Option<Choice>
    ensures { result ≡ cheaper_of best cost next }
{
    let Some(cost) = cost else {
        return best;
    };
    let new = Choice {
        cost,
        next: Some(next),
    };
    let Some(old) = best else {
        return Some(new);
    };
    if cost < old.cost {
        Some(new)
    } else {
        Some(old)
    }
}

/// The choice to end at a candidate, where it isn't too wide.
fn ending(terms: &Terms, room: u32, i: u32) -> Option<Choice>
    requires within { i < length terms.now.candidates }
    requires stage { (candidate terms.now i).from ≤ terms.now.horizon }
    ensures { result ≡ ending_of terms.now room i }
{
    let here = terms.candidate(i);
    if here.width > room {
        return None;
    }
    Some(Choice {
        cost: terms.stay(here),
        next: None,
    })
}

/// What is best chosen at a candidate, with the ways of the table behind it.
fn best_choice(terms: &Terms, table: &Table, i: u32) -> Option<Choice>
    requires table { IsTable terms.now table.now }
    requires most { table.now.most ≤ 4 }
    requires within { i < length terms.now.candidates }
    ensures { IsChoice terms.now table.now i (length terms.now.candidates) result }
{
    if !terms.is_usable(i) {
        return None;
    }
    let count = terms.count();
    let mut best = ending(terms, table.room, i);
    for j in i + 1..count {
        best = cheaper(best, cost_through(terms, table, i, j), j);
    }
    best
}

/// The candidates behind a choice.
fn behind(table: &Table, next: Option<u32>) -> &[u32]
    ensures { result.now ≡ behind table.now next }
{
    let Some(j) = next else {
        return &[];
    };
    match table.ways.get(j as usize) {
        Some(Some(way)) => way.stages.as_slice(),
        _ => &[],
    }
}

/// The best way on from a candidate, with the ways of the table behind it.
fn entry(alloc: Global, terms: &Terms, table: &Table, i: u32) -> Result<Option<Way>, AllocError>
    requires table { IsTable terms.now table.now }
    requires most { table.now.most ≤ 4 }
    requires within { i < length terms.now.candidates }
    ensures { IfOk result (IsEntry terms.now table.now.room (table.now.most + 1) i) }
{
    let Some(choice) = best_choice(terms, table, i) else {
        return Ok(None);
    };
    let mut stages = Vec::new(alloc);
    stages.push(i)?;
    stages.extend_from_slice(behind(table, choice.next))?;
    Ok(Some(Way {
        cost: choice.cost,
        stages,
    }))
}

/// The table of the ways with one candidate more.
fn longer(alloc: Global, terms: &Terms, table: &Table) -> Result<Table, AllocError>
    requires table { IsTable terms.now table.now }
    requires most { table.now.most ≤ 3 }
    ensures { IfOk result (λ t. (t.most ≡ table.now.most + 1) × (t.room ≡ table.now.room)
        × IsTable terms.now t) }
{
    let mut ways = Vec::new(alloc);
    for i in 0..terms.count() {
        let way = entry(alloc, terms, table, i)?;
        ways.push(way)?;
    }
    Ok(Table {
        most: table.most + 1,
        room: table.room,
        ways,
    })
}

/// The table of no ways.
fn empty(alloc: Global, terms: &Terms, room: u32) -> Result<Table, AllocError>
    ensures { IfOk result (λ t. (t.most ≡ 0) × (t.room ≡ room) × IsTable terms.now t) }
{
    let mut ways = Vec::new(alloc);
    for _ in 0..terms.count() {
        ways.push(None)?;
    }
    Ok(Table {
        most: 0,
        room,
        ways,
    })
}

/// The table of the ways of at most four candidates.
pub fn full(alloc: Global, terms: &Terms, room: u32) -> Result<Table, AllocError>
    ensures { IfOk result (λ t. (t.most ≡ 4) × (t.room ≡ room) × IsTable terms.now t) }
{
    let mut table = empty(alloc, terms, room)?;
    for _ in 0..4u32 {
        table = longer(alloc, terms, &table)?;
    }
    Ok(table)
}
