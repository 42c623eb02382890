//! Questions with the points 1, 2, 4 and 8, of which a candidate uses as many as it has parities.
ghost use Rattle.std.specs.Bool.{OnTrue};
ghost use Rattle.std.specs.List.{All};
ghost use Rattle.mf_route.specs.Plans.{IsCandidate};

use mf_route::{Candidate, RouteOutcome, route};
use std::alloc::Global;

/// What is asked.
#[derive(Drop)]
pub struct Question {
    pub servers: u32,
    pub chunks: u32,
    pub cost: u64,
    pub horizon: u64,
}

// Whether a candidate is within the limits.
fn is_within(a: Candidate) -> bool
    ensures { OnTrue result (IsCandidate 4 a) }
{
    1 <= a.width && a.width <= 64 && 1 <= a.parities && a.parities <= 4 && a.from <= 1_000_000_000
}

// Whether all are.
fn are_within(candidates: &[Candidate]) -> bool
    ensures { OnTrue result (All (IsCandidate 4) candidates.now) }
{
    for i in 0..candidates.len() {
        if !is_within(candidates[i]) {
            return false;
        }
    }
    true
}

/// The answer; want of memory for a question that isn't within the limits.
pub fn ask(alloc: Global, question: &Question, candidates: &[Candidate]) -> RouteOutcome {
    let Question {
        servers,
        chunks,
        cost,
        horizon,
    } = *question;
    if servers > 128 || chunks > 1_024 || cost > 1_000_000 || horizon > 1_000_000_000 {
        return RouteOutcome::Memory;
    }
    if candidates.len() > 64 || !are_within(candidates) {
        return RouteOutcome::Memory;
    }
    let points = [1, 2, 4, 8];
    route(alloc, servers, &points, chunks, cost, horizon, candidates)
}
