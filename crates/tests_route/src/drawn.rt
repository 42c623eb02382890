//! Drawn questions, and the answers that trying every plan gives.
use crate::asking::{Question, ask};
use mf_route::{Candidate, RouteOutcome};
use std::alloc::{AllocError, Global};
use std::test::Fail;

/// How many questions are drawn.
const DRAWN: u32 = 200;
/// The widths that are drawn.
const WIDTHS: [u32; 8] = [1, 2, 3, 4, 6, 8, 12, 24];

#[derive(Drop)]
struct Draw {
    state: u64,
}

impl Draw {
    fn below(&mut self, n: u32) -> u32 {
        self.state = self
            .state
            .wrapping_mul(6_364_136_223_846_793_005)
            .wrapping_add(1_442_695_040_888_963_407);
        ((self.state >> 33) & 0xFFFF) as u32 % n.max(1)
    }
}

fn candidate(draw: &mut Draw) -> Candidate {
    let width = WIDTHS[(draw.below(8) & 7) as usize];
    let parities = draw.below(4).saturating_add(1);
    let from = if draw.below(4) == 0 {
        0
    } else {
        draw.below(30) as u64
    };
    Candidate {
        width,
        parities,
        from,
    }
}

fn candidates(alloc: Global, draw: &mut Draw) -> Result<Vec<Candidate>, AllocError> {
    let mut all = Vec::new(alloc);
    for _ in 0..draw.below(7).saturating_add(2) {
        all.push(candidate(draw))?;
    }
    Ok(all)
}

fn question(draw: &mut Draw) -> Question {
    Question {
        servers: draw.below(26).saturating_add(16),
        chunks: draw.below(40).saturating_add(1),
        cost: draw.below(2) as u64,
        horizon: draw.below(60).saturating_add(40) as u64,
    }
}

// The chunks of a file at a candidate: its own, and the parities of each stripe.
fn kept(chunks: u32, a: Candidate) -> u64 {
    let stripes = chunks.div_ceil(a.width.max(1)) as u64;
    (chunks as u64).saturating_add(stripes.saturating_mul(a.parities as u64))
}

// What a plan costs, tick by tick, and change by change.
fn price(asked: &Question, plan: &[Candidate]) -> u64 {
    let mut total: u64 = 0;
    for tick in 0..asked.horizon {
        let mut present: u64 = 0;
        for i in 0..plan.len() {
            if plan[i].from <= tick {
                present = kept(asked.chunks, plan[i]);
            }
        }
        total = total.saturating_add(present);
    }
    for i in 1..plan.len() {
        let (a, b) = (plan[i - 1], plan[i]);
        if a.width < b.width {
            let before = asked.chunks.div_ceil(a.width.max(1)) as u64;
            let behind = asked.chunks.div_ceil(b.width.max(1)) as u64;
            let moved = before
                .saturating_add(behind)
                .saturating_mul(b.parities as u64);
            total = total.saturating_add(moved.saturating_mul(asked.cost));
        }
    }
    total
}

// With the points 1, 2, 4 and 8 any three losses are borne, and any four up to a width of 21.
fn may_stand(asked: &Question, a: Candidate) -> bool {
    a.from <= asked.horizon && (a.parities <= 3 || a.width <= 21)
}

fn is_change(a: Candidate, b: Candidate) -> bool {
    a.from < b.from
        && b.width % a.width.max(1) == 0
        && b.parities <= a.parities
        && (a.width >= b.width || b.parities <= a.width)
}

fn is_plan(asked: &Question, plan: &[Candidate]) -> bool {
    if plan.is_empty() || plan.len() > 4 || plan[0].from > 0 {
        return false;
    }
    for i in 0..plan.len() {
        if !may_stand(asked, plan[i]) || i > 0 && !is_change(plan[i - 1], plan[i]) {
            return false;
        }
    }
    plan[plan.len() - 1].width.saturating_add(plan[0].parities) <= asked.servers
}

fn comes_before(a: &[u32], b: &[u32]) -> bool {
    for i in 0..a.len() {
        if i >= b.len() {
            return false;
        }
        if a[i] != b[i] {
            return a[i] < b[i];
        }
    }
    a.len() < b.len()
}

#[derive(Drop)]
struct Best {
    cost: u64,
    stages: Vec<u32>,
}

// The numbers whose bits are set.
fn numbers(alloc: Global, set: u32) -> Result<Vec<u32>, AllocError> {
    let mut numbers = Vec::new(alloc);
    for bit in 0..8u32 {
        if (set >> bit) & 1 == 1 {
            numbers.push(bit)?;
        }
    }
    Ok(numbers)
}

fn chosen(alloc: Global, all: &[Candidate], stages: &[u32]) -> Result<Vec<Candidate>, AllocError> {
    let mut plan = Vec::new(alloc);
    for i in 0..stages.len() {
        let n = stages[i] as usize;
        if n < all.len() {
            plan.push(all[n])?;
        }
    }
    Ok(plan)
}

fn is_better(best: &Option<Best>, cost: u64, stages: &[u32]) -> bool {
    match best {
        None => true,
        Some(old) => {
            cost < old.cost || cost == old.cost && comes_before(stages, old.stages.as_slice())
        }
    }
}

// The cheapest plan, by trying each set of candidates.
fn tried(alloc: Global, asked: &Question, all: &[Candidate]) -> Result<Option<Best>, AllocError> {
    let mut best = None;
    for set in 1..256u32 {
        let stages = numbers(alloc, set)?;
        let plan = chosen(alloc, all, &stages)?;
        if plan.len() == stages.len() && is_plan(asked, &plan) {
            let cost = price(asked, &plan);
            if is_better(&best, cost, &stages) {
                best = Some(Best { cost, stages });
            }
        }
    }
    Ok(best)
}

fn are_one(outcome: RouteOutcome, least: Option<Best>) -> bool {
    match outcome {
        RouteOutcome::Plan { cost, stages } => match least {
            Some(best) => cost == best.cost && stages.as_slice() == best.stages.as_slice(),
            None => false,
        },
        RouteOutcome::NoPlan => least.is_none(),
        RouteOutcome::Memory => false,
    }
}

fn first_other(alloc: Global) -> Result<Option<u32>, AllocError> {
    let mut draw = Draw { state: 1 };
    for n in 0..DRAWN {
        let asked = question(&mut draw);
        let all = candidates(alloc, &mut draw)?;
        if !are_one(ask(alloc, &asked, &all), tried(alloc, &asked, &all)?) {
            return Ok(Some(n));
        }
    }
    Ok(None)
}

#[test]
fn every_plan_tried(rt: HostRuntime) -> Result<(), Fail> {
    assert_eq!(rt; first_other(rt.alloc())?, None);
    Ok(())
}
